//! The parts of a plan that its map gives.
ghost use Rattle.std.specs.Prelude.{◌≡◌, find, IfOk, IsOkUnless};
ghost use Rattle.std.specs.List.{filter_map};
ghost use Rattle.shapers_base.specs.Map.{same_tag};
ghost use Rattle.shapers_buffer.specs.declared.buffer.refusal.ShaperError.TheVariants.{Memory};
ghost use Rattle.shapers_plan.specs.Planning.{driver_masks, hooks_plan, range_of_user, suits, takes_gpos};

use super::collecting::is_for_all;
use super::{DriverMasks, ShapeChoices, UserFeature, UserRange};
use crate::ot_map::{FontFeatures, MappedFeature};
use rustybuzz_shapers::shaper::hb_ot_shaper_t;
use shapers_base::buffer::{Script, ShaperError, hb_tag_t};
use shapers_base::map::{TableIndex, hb_ot_map_t};
use shapers_base::plan::hb_ot_shape_plan_t;
use std::alloc::Global;

/// The masks of the features that the driver turns on.
pub fn driver_masks(map: &hb_ot_map_t) -> DriverMasks
    ensures { result ≡ driver_masks map.now }
{
    DriverMasks {
        frac: map.get_1_mask(hb_tag_t(*b"frac")),
        numr: map.get_1_mask(hb_tag_t(*b"numr")),
        dnom: map.get_1_mask(hb_tag_t(*b"dnom")),
        rtlm: map.get_1_mask(hb_tag_t(*b"rtlm")),
        vert: map.get_1_mask(hb_tag_t(*b"vert")),
    }
}

/// The plan that the shaper's hooks read, with the data that it keeps.
pub(super) fn hooks_plan(
    shaper: Option<hb_ot_shaper_t>,
    script: Option<Script>,
    choices: ShapeChoices,
    map: hb_ot_map_t,
) -> hb_ot_shape_plan_t
    ensures { result ≡ hooks_plan shaper script choices map }
{
    let has_mark = map.get_1_mask(hb_tag_t(*b"mark")) != 0;
    let mut plan = hb_ot_shape_plan_t::new(script, map);
    plan.has_gpos_mark = has_mark;
    plan.stretch_start = choices.stretch_start;
    plan.break_flags = choices.break_flags;
    plan.base_search = choices.base_search;
    plan.zero_context = choices.zero_context;
    match shaper {
        Some(shaper) => shaper.with_data(plan),
        None => plan,
    }
}

/// Whether GPOS is applied. Of a script that a shaper doesn't know there, it may place marks badly.
pub(super) fn takes_gpos<L: FontFeatures>(shaper: Option<hb_ot_shaper_t>, features: &L) -> bool
    ensures { result ≡ takes_gpos (L.tables features.now) shaper }
{
    features.has_table(TableIndex::GPOS)
        && match shaper {
            Some(shaper) => suits(shaper.gpos_tag(), features.chosen_script(TableIndex::GPOS)),
            None => true,
        }
}

// Whether a shaper that wants this script in GPOS, or any, takes the one that was chosen there.
fn suits(wanted: Option<hb_tag_t>, chosen: Option<hb_tag_t>) -> bool
    ensures { result ≡ suits wanted chosen }
{
    match (wanted, chosen) {
        (None, _) => true,
        (Some(_), None) => false,
        (Some(wanted), Some(tag)) => tag == wanted,
    }
}

/// What the user's features do to ranges of the text.
///
/// # Errors
///
/// `Memory`.
pub(super) fn user_ranges(
    alloc: Global,
    features: &[MappedFeature],
    users: &[UserFeature],
) -> Result<Vec<UserRange>, ShaperError>
    ensures ok { let ranges = filter_map (range_of_user features.now) users.now in
        IfOk result (λ list. list.items ≡ ranges) }
    ensures refusal { IsOkUnless result Memory }
{
    let mut list = Vec::new(alloc);
    for user in users {
        if let Some(range) = range_of_user(features, user) {
            list.push(range).map_err(|_| ShaperError::Memory)?;
        }
    }
    Ok(list)
}

// What a feature of the user's does to a range.
fn range_of_user(features: &[MappedFeature], user: &UserFeature) -> Option<UserRange>
    ensures { result ≡ range_of_user features.now user.now }
{
    if is_for_all(user) {
        return None;
    }
    let feature = feature_of(features, user.tag)?;
    Some(UserRange {
        mask: feature.mask,
        value: feature.value_in(user.value),
        start: user.start,
        end: user.end,
    })
}

// The feature by this tag.
fn feature_of(features: &[MappedFeature], tag: hb_tag_t) -> Option<MappedFeature>
    ensures { result ≡ find (λ feature. same_tag feature.tag tag) features.now }
{
    features.iter().copied().find(|feature| feature.tag == tag)
}

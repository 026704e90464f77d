//! What is requested of a font for a text.
ghost use Rattle.std.specs.Prelude.{◌≡◌, IfOk, IsOkUnless, OnOk, map};
ghost use Rattle.shapers_arabic.specs.Requests.{rclt};
ghost use Rattle.shapers_base.specs.Planner.{with_requests};
ghost use Rattle.shapers_buffer.specs.declared.buffer.refusal.ShaperError.TheVariants.{Memory};
ghost use Rattle.shapers_choice.specs.Choice.{is_horizontal};
ghost use Rattle.shapers_plan.specs.Collecting.{along_lines, request_of_user, before_shaper, behind_shaper, is_for_all, requests_for, text_shaper};

use super::UserFeature;
use crate::ot_map::{F_GLOBAL_SEARCH, F_RANDOM};
use arrayvec::ArrayVec;
use rustybuzz_shapers::shaper::hb_ot_shaper_t;
use shapers_base::buffer::{Direction, Script, ShaperError, hb_tag_t};
use shapers_base::font::hb_font_t;
use shapers_base::map::{F_GLOBAL, F_HAS_FALLBACK, F_MANUAL_JOINERS, F_NONE};
use shapers_base::plan::{Request, hb_ot_shape_planner_t};
use shapers_choice::shaper_for_script;
use std::alloc::Global;

// Variations of the font stand in a stage of their own.
const FIRST: [Request; 2] = [
    Request::Feature(hb_tag_t(*b"rvrn"), F_GLOBAL, 1),
    Request::Pause(None),
];

const LEFT_TO_RIGHT: [Request; 2] = [
    Request::Feature(hb_tag_t(*b"ltra"), F_GLOBAL, 1),
    Request::Feature(hb_tag_t(*b"ltrm"), F_GLOBAL, 1),
];

// Mirrored forms are turned on by glyph.
const RIGHT_TO_LEFT: [Request; 2] = [
    Request::Feature(hb_tag_t(*b"rtla"), F_GLOBAL, 1),
    Request::Feature(hb_tag_t(*b"rtlm"), F_NONE, 1),
];

// Fractions are turned on by glyph; the rest of these hold for the whole text.
const BEFORE_SHAPER: [Request; 7] = [
    Request::Feature(hb_tag_t(*b"frac"), F_NONE, 1),
    Request::Feature(hb_tag_t(*b"numr"), F_NONE, 1),
    Request::Feature(hb_tag_t(*b"dnom"), F_NONE, 1),
    Request::Feature(hb_tag_t(*b"rand"), F_RANDOM | F_GLOBAL, 255),
    Request::Feature(hb_tag_t(*b"trak"), F_HAS_FALLBACK | F_GLOBAL, 1),
    Request::Feature(hb_tag_t(*b"Harf"), F_GLOBAL, 1),
    Request::Feature(hb_tag_t(*b"HARF"), F_GLOBAL, 1),
];

const BEHIND_SHAPER: [Request; 9] = [
    Request::Feature(hb_tag_t(*b"Buzz"), F_GLOBAL, 1),
    Request::Feature(hb_tag_t(*b"BUZZ"), F_GLOBAL, 1),
    Request::Feature(hb_tag_t(*b"abvm"), F_GLOBAL, 1),
    Request::Feature(hb_tag_t(*b"blwm"), F_GLOBAL, 1),
    Request::Feature(hb_tag_t(*b"ccmp"), F_GLOBAL, 1),
    Request::Feature(hb_tag_t(*b"locl"), F_GLOBAL, 1),
    Request::Feature(hb_tag_t(*b"mark"), F_MANUAL_JOINERS | F_GLOBAL, 1),
    Request::Feature(hb_tag_t(*b"mkmk"), F_MANUAL_JOINERS | F_GLOBAL, 1),
    Request::Feature(hb_tag_t(*b"rlig"), F_GLOBAL, 1),
];

const HORIZONTAL: [Request; 7] = [
    Request::Feature(hb_tag_t(*b"calt"), F_GLOBAL, 1),
    Request::Feature(hb_tag_t(*b"clig"), F_GLOBAL, 1),
    Request::Feature(hb_tag_t(*b"curs"), F_GLOBAL, 1),
    Request::Feature(hb_tag_t(*b"dist"), F_GLOBAL, 1),
    Request::Feature(hb_tag_t(*b"kern"), F_HAS_FALLBACK | F_GLOBAL, 1),
    Request::Feature(hb_tag_t(*b"liga"), F_GLOBAL, 1),
    Request::Feature(hb_tag_t(*b"rclt"), F_GLOBAL, 1),
];

// Forms for vertical text may be any script's.
const VERTICAL: [Request; 1] = [Request::Feature(
    hb_tag_t(*b"vert"),
    F_GLOBAL_SEARCH | F_GLOBAL,
    1,
)];

/// The shaper of a text, if its script is known and takes one.
pub(super) fn text_shaper(
    script: Option<Script>,
    direction: Direction,
    found: Option<hb_tag_t>,
) -> Option<hb_ot_shaper_t>
    ensures { result ≡ text_shaper script direction found }
{
    shaper_for_script(script?, direction, found)
}

/// All that is requested for a text, in HarfBuzz's order: for every text, by the shaper, for every
/// text again, by the user, and what the shaper has the last word on.
///
/// # Errors
///
/// `Memory`.
pub(super) fn collect<F: hb_font_t>(
    alloc: Global,
    shaper: Option<hb_ot_shaper_t>,
    script: Option<Script>,
    direction: Direction,
    face: &F,
    users: &[UserFeature],
) -> Result<hb_ot_shape_planner_t, ShaperError>
    ensures ok { let has_rclt = (F.font face.now).offers rclt in
        let requests = requests_for shaper script direction has_rclt users.now in
        IfOk result (λ planner. planner.requests ≡ requests) }
    ensures refusal { IsOkUnless result Memory }
{
    let mut planner = hb_ot_shape_planner_t::new(alloc, script);
    collect_before_shaper(direction, &mut planner)?;
    if let Some(shaper) = shaper {
        shaper.collect_features(face, &mut planner)?;
    }
    collect_behind_shaper(direction, &mut planner)?;
    collect_users(users, &mut planner)?;
    if let Some(shaper) = shaper {
        shaper.override_features(&mut planner)?;
    }
    Ok(planner)
}

fn collect_before_shaper(
    direction: Direction,
    planner: &mut hb_ot_shape_planner_t,
) -> Result<(), ShaperError>
    ensures ok { OnOk result (planner.new ≡ with_requests (before_shaper direction) planner.old) }
    ensures refusal { IsOkUnless result Memory }
{
    // (at one go, so that the planner's list grows once)
    let mut requests: ArrayVec<Request, 11> = ArrayVec::new();
    requests.try_extend_from_slice(&FIRST).unwrap();
    match direction {
        Direction::LeftToRight => requests.try_extend_from_slice(&LEFT_TO_RIGHT).unwrap(),
        Direction::RightToLeft => requests.try_extend_from_slice(&RIGHT_TO_LEFT).unwrap(),
        _ => {}
    }
    requests.try_extend_from_slice(&BEFORE_SHAPER).unwrap();
    planner.add_requests(requests.as_slice())
}

fn collect_behind_shaper(
    direction: Direction,
    planner: &mut hb_ot_shape_planner_t,
) -> Result<(), ShaperError>
    ensures ok { OnOk result (planner.new ≡ with_requests (behind_shaper direction) planner.old) }
    ensures refusal { IsOkUnless result Memory }
{
    planner.add_requests(&BEHIND_SHAPER)?;
    collect_along_lines(direction, planner)?;
    Ok(())
}

fn collect_along_lines(
    direction: Direction,
    planner: &mut hb_ot_shape_planner_t,
) -> Result<(), ShaperError>
    ensures ok { OnOk result (planner.new ≡ with_requests (along_lines direction) planner.old) }
    ensures refusal { IsOkUnless result Memory }
{
    if is_horizontal(direction) {
        planner.add_requests(&HORIZONTAL)?;
    } else {
        planner.add_requests(&VERTICAL)?;
    }
    Ok(())
}

fn is_horizontal(direction: Direction) -> bool
    ensures { result ≡ is_horizontal direction }
{
    matches!(direction, Direction::LeftToRight | Direction::RightToLeft)
}

fn collect_users(
    users: &[UserFeature],
    planner: &mut hb_ot_shape_planner_t,
) -> Result<(), ShaperError>
    ensures ok { let requests = map request_of_user users.now in
        OnOk result (planner.new ≡ with_requests requests planner.old) }
    ensures refusal { IsOkUnless result Memory }
{
    for user in users {
        let flags = if is_for_all(user) { F_GLOBAL } else { F_NONE };
        planner.add_feature(user.tag, flags, user.value)?;
    }
    Ok(())
}

/// Whether a feature of the user's holds for the whole text.
pub(super) fn is_for_all(user: &UserFeature) -> bool
    ensures { result ≡ is_for_all user.now }
{
    user.start == 0 && user.end == u32::MAX
}

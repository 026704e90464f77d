//! The bits of a glyph's mask that features get.
ghost use Rattle.std.specs.Prelude.{◌≡◌, ◌+◌, ◌<◌, ◌≤◌, IfOk, IsOkUnless, IsTrue, is_some, option_map};
ghost use Rattle.shapers_plan.specs.Compiling.{are_off_flags};
ghost use Rattle.shapers_buffer.specs.declared.buffer.refusal.ShaperError.TheVariants.{Memory};
ghost use Rattle.shapers_plan.specs.Masks.{bit_count, global_mask, in_any_script, in_script, is_served, is_on_everywhere, lookups_of, mapped, feature_at_bit, value_in};

use super::FontFeatures;
use super::requests::FeatureInfo;
use shapers_base::buffer::{ShaperError, hb_tag_t};
use shapers_base::map::TableIndex;
use std::alloc::Global;

/// Where the chosen script lacks the feature, that of any script serves.
pub const F_GLOBAL_SEARCH: u32 = 16;
/// The feature picks among alternates at random.
pub const F_RANDOM: u32 = 32;

/// The first bit of a mask that a feature gets, above the glyph flags.
const FIRST_BIT: u32 = 4;
/// The bit of the features that hold for the whole text.
const GLOBAL_BIT: u32 = 31;
/// No feature gets more bits.
const MAX_BITS: u32 = 8;

/// A feature that has its bits.
#[derive(Clone, Copy, Debug, PartialEq, Eq)]
pub(crate) struct MappedFeature {
    /// The feature's tag.
    pub(crate) tag: hb_tag_t,
    /// The flags of its first request.
    pub(crate) flags: u32,
    /// Its bits.
    pub(crate) mask: u32,
    /// The lowest of them.
    pub(crate) one_mask: u32,
    /// Its value where nothing else is set.
    pub(crate) default_value: u32,
    /// How many pauses stand before it.
    pub(crate) stage: usize,
}

impl MappedFeature {
    // A feature with so many bits, from this one on.
    fn new(info: &FeatureInfo, next_bit: u32) -> Self
        requires { next_bit + bit_count info.now < 31 }
        ensures { result ≡ feature_at_bit next_bit info.now }
    {
        let (mask, one_mask) = if is_on_everywhere(info) {
            (1 << GLOBAL_BIT, 1 << GLOBAL_BIT)
        } else {
            let one_mask = 1u32 << next_bit;
            ((1 << (next_bit + count_bits(info))) - one_mask, one_mask)
        };
        MappedFeature {
            tag: info.tag,
            flags: info.flags,
            mask,
            one_mask,
            default_value: info.default_value,
            stage: info.stage,
        }
    }

    /// A value in the bits of the feature; what doesn't fit is cut off.
    pub(crate) fn value_in(&self, value: u32) -> u32
        ensures { result ≡ value_in self.now value }
    {
        value.wrapping_mul(self.one_mask) & self.mask
    }
}

// Whether a feature is on for the whole text, and has no other value anywhere.
fn is_on_everywhere(info: &FeatureInfo) -> bool
    ensures { result ≡ is_on_everywhere info.now }
{
    info.is_global && info.max_value == 1
}

// How many bits of its own a feature takes.
fn count_bits(info: &FeatureInfo) -> u32
    ensures bits { result ≡ bit_count info.now }
    ensures few { result ≤ 8 }
{
    if is_on_everywhere(info) {
        return 0;
    }
    MAX_BITS.min(32 - info.max_value.leading_zeros())
}

/// The lookups of a feature: those of the chosen script, or if the request says so of any script.
pub(super) fn lookups_of<L: FontFeatures>(
    font: &L,
    table: TableIndex,
    tag: hb_tag_t,
    flags: u32,
) -> Option<&[u16]>
    ensures { let lookups = lookups_of (L.tables font.now) table tag flags in
        option_map (λ list. list.now) result ≡ lookups }
{
    // (most features have lookups in the table, and are looked for once)
    let lookups = font.feature_lookups(table, tag);
    if lookups.is_some() || flags & F_GLOBAL_SEARCH == 0 || in_script(font, tag) {
        return lookups;
    }
    font.any_feature_lookups(table, tag)
}

// Whether the chosen script has a feature.
fn in_script<L: FontFeatures>(font: &L, tag: hb_tag_t) -> bool
    ensures { result ≡ in_script (L.tables font.now) tag }
{
    font.feature_lookups(TableIndex::GSUB, tag).is_some()
        || font.feature_lookups(TableIndex::GPOS, tag).is_some()
}

// Whether some script has a feature.
fn in_any_script<L: FontFeatures>(font: &L, tag: hb_tag_t) -> bool
    ensures { result ≡ in_any_script (L.tables font.now) tag }
{
    font.any_feature_lookups(TableIndex::GSUB, tag).is_some()
        || font.any_feature_lookups(TableIndex::GPOS, tag).is_some()
}

// Whether the font has a feature, or something stands in for it.
fn is_served<L: FontFeatures>(font: &L, info: &FeatureInfo) -> bool
    ensures { result ≡ is_served (L.tables font.now) info.now }
{
    if info.has_fallback || in_script(font, info.tag) {
        return true;
    }
    info.flags & F_GLOBAL_SEARCH != 0 && in_any_script(font, info.tag)
}

/// Gives bits to the features in their order: those that are on, have room, and that the font or
/// something else serves.
///
/// # Errors
///
/// `Memory`.
pub(super) fn mapped<L: FontFeatures>(
    alloc: Global,
    font: &L,
    infos: &[FeatureInfo],
) -> Result<Vec<MappedFeature>, ShaperError>
    ensures ok { IfOk result (λ features. features.items ≡ mapped (L.tables font.now) infos.now) }
    ensures off_flags { IfOk result (λ features. IsTrue (are_off_flags features.items)) }
    ensures refusal { IsOkUnless result Memory }
{
    let mut features = Vec::with_capacity(alloc, infos.len())?;
    let mut next_bit = FIRST_BIT;
    for info in infos {
        let bits = count_bits(info);
        if info.max_value > 0 && next_bit + bits < GLOBAL_BIT && is_served(font, info) {
            features
                .push(MappedFeature::new(info, next_bit))
                .map_err(|_| ShaperError::Memory)?;
            next_bit += bits;
        }
    }
    Ok(features)
}

/// The mask of a glyph that no range of the user's reaches.
pub(super) fn global_mask(features: &[MappedFeature]) -> u32
    ensures { result ≡ global_mask features.now }
{
    let mut mask = 1 << GLOBAL_BIT;
    for feature in features {
        mask |= feature.value_in(feature.default_value);
    }
    mask
}

//! Where a glyph formed by `pref` goes. (OpenType, development of Indic scripts: "Reorder
//! pre-base-reordering consonants".) A font may have the feature for a letter and form nothing of
//! it in some contexts, so that only what was formed moves; by which feature it was isn't looked
//! at.
ghost use Rattle.std.specs.Prelude.{◌≡◌, ◌<◌, ◌≤◌, ◌+◌, length, suc};
ghost use Rattle.std.specs.Option.{IfSome, option_map_or};
ghost use Rattle.shapers_base.specs.Masks.{has_bits};
ghost use Rattle.shapers_indic.specs.Glyphs.{greatest_place, passes};
ghost use Rattle.shapers_indic_final.specs.FinalBase.{pref_place};
ghost use Rattle.shapers_indic_final.specs.FinalGlyphs.{is_matra_or_halant};
ghost use Rattle.shapers_indic_final.specs.FinalPref.{formed_pref, is_joiner_behind_halant, pref_target};

use super::glyphs::{has_mask, is_formed, is_halant, is_matra_or_halant};
use super::rules::has_no_half_forms;
use shapers_base::buffer::{Script, hb_glyph_info_t};
use shapers_indic::ot_shaper_indic::glyphs::is_joiner;

// The first glyph after the base with the mask of `pref`, which some plans don't give.
#[inline]
pub(super) fn pref_place(pref: u32, base: usize, glyphs: &[hb_glyph_info_t]) -> Option<usize>
    requires in_range { base ≤ length glyphs.now }
    ensures place { result ≡ pref_place pref base glyphs.now }
    ensures behind { IfSome result (λ i. base < i) }
    ensures within { IfSome result (λ i. i < length glyphs.now) }
{
    if pref == 0 {
        return None;
    }
    (base + 1..glyphs.len()).find(|&place| has_mask_at(pref, glyphs, place))
}

// Whether a glyph with some bit of a mask stands at a place.
#[inline]
fn has_mask_at(bits: u32, glyphs: &[hb_glyph_info_t], place: usize) -> bool
    ensures { result ≡ passes (has_bits bits) glyphs.now place }
{
    glyphs.get(place).is_some_and(|glyph| has_mask(bits, glyph))
}

// That glyph, if it is formed.
#[inline]
pub(super) fn formed_pref(pref: u32, base: usize, glyphs: &[hb_glyph_info_t]) -> Option<usize>
    requires in_range { base ≤ length glyphs.now }
    ensures place { result ≡ formed_pref pref base glyphs.now }
    ensures behind { IfSome result (λ i. base < i) }
    ensures within { IfSome result (λ i. i < length glyphs.now) }
{
    let i = pref_place(pref, base, glyphs)?;
    if is_formed(&glyphs[i]) { Some(i) } else { None }
}

// Where a formed glyph goes: behind the nearest vowel sign or halant before the base, as left
// matras do; without half forms to the base itself, whatever chillus stand before it. A joiner there
// stays with its halant.
#[inline]
pub(super) fn pref_target(script: Option<Script>, base: usize, glyphs: &[hb_glyph_info_t]) -> usize
    requires in_range { base < length glyphs.now }
    ensures target { result ≡ pref_target script base glyphs.now }
    ensures within { result ≤ base + 1 }
{
    let place = if has_no_half_forms(script) {
        base
    } else {
        behind_sign(base, glyphs)
    };
    if is_joiner_behind_halant(glyphs, place) {
        place + 1
    } else {
        place
    }
}

// The place behind the nearest vowel sign or halant before the base, else the start.
#[inline]
fn behind_sign(base: usize, glyphs: &[hb_glyph_info_t]) -> usize
    requires in_range { base < length glyphs.now }
    ensures place { let gs = glyphs.now in
        result ≡ option_map_or suc (greatest_place (passes is_matra_or_halant gs) 0 base) 0 }
    ensures within { result ≤ base }
{
    for i in (0..base).rev() {
        if is_matra_or_halant(&glyphs[i]) {
            return i + 1;
        }
    }
    0
}

// Whether a joiner stands at a place, and a halant before it.
#[inline]
fn is_joiner_behind_halant(glyphs: &[hb_glyph_info_t], index: usize) -> bool
    requires { index < length glyphs.now }
    ensures { result ≡ is_joiner_behind_halant glyphs.now index }
{
    index > 0 && is_halant(&glyphs[index - 1]) && is_joiner(&glyphs[index])
}

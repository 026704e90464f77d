//! Where the reph of a syllable goes. (OpenType, development of Indic scripts: "Reorder reph".)
ghost use Rattle.std.specs.Prelude.{◌≡◌, ◌<◌, ◌≤◌, ◌+◌, length};
ghost use Rattle.std.specs.List.{prefix_len};
ghost use Rattle.std.specs.Option.{IfSome};
ghost use Rattle.shapers_indic.specs.Glyphs.{has_position, is_matra};
ghost use Rattle.shapers_indic_final.specs.FinalReph.{at_end, behind_base, carried_along, halant_after_start, is_moving_reph, is_with_main, is_with_sub, last_but_signs, begins_with_reph, reph_target, with_joiner};

use super::glyphs::{is_formed, is_halant, is_halant_at};
use shapers_base::buffer::hb_glyph_info_t;
use shapers_base::plan::RephPosition;
use shapers_base::plan::ot_category_t::OT_Repha;
use shapers_base::plan::ot_position_t::{
    POS_AFTER_MAIN, POS_AFTER_POST, POS_POST_C, POS_RA_TO_BECOME_REPH, POS_SMVD,
};
use shapers_indic::ot_shaper_indic::glyphs::{is_joiner, is_matra};

// Whether a reph that moves begins a syllable of two or more: a formed one, or a character of its
// own that is not formed. Ra and a halant are a reph only in a font that forms one of them. A font
// that forms a ligature of the character itself draws it where it is, and wants no reordering.
#[inline]
pub(super) fn begins_with_reph(glyphs: &[hb_glyph_info_t]) -> bool
    ensures { result ≡ begins_with_reph glyphs.now }
{
    match glyphs {
        [first, _, ..] => is_moving_reph(first),
        _ => false,
    }
}

// Whether a glyph is a reph that moves.
#[inline]
pub(super) fn is_moving_reph(glyph: &hb_glyph_info_t) -> bool
    ensures { result ≡ is_moving_reph glyph.now }
{
    glyph.auxiliary == POS_RA_TO_BECOME_REPH && (glyph.category == OT_Repha) != is_formed(glyph)
}

// Where the reph goes: behind the first halant before the base, else by the script. A halant that
// is left there belongs to a letter that the font draws in full, and the reph is drawn over that
// letter.
#[inline]
pub(super) fn reph_target(position: RephPosition, base: usize, glyphs: &[hb_glyph_info_t]) -> usize
    requires some { 0 < length glyphs.now }
    requires in_range { base ≤ length glyphs.now }
    ensures target { result ≡ reph_target position base glyphs.now }
    ensures within { result < length glyphs.now }
{
    match halant_after_start(base, glyphs) {
        Some(halant) => with_joiner(base, glyphs, halant),
        None => behind_base(position, base, glyphs),
    }
}

// Where the base stands once the reph has gone to `target`: one place before, if the reph crossed
// it.
#[inline]
pub(super) fn base_after_reph(base: usize, target: usize) -> usize
    ensures place { result ≡ carried_along base target }
    ensures within { result ≤ base }
{
    if base > 0 && base <= target {
        base - 1
    } else {
        base
    }
}

// The first halant between the start and the base.
#[inline]
fn halant_after_start(base: usize, glyphs: &[hb_glyph_info_t]) -> Option<usize>
    requires { base ≤ length glyphs.now }
    ensures place { result ≡ halant_after_start base glyphs.now }
    ensures within { IfSome result (λ h. h < base) }
{
    (1..base).find(|&place| is_halant_at(glyphs, place))
}

// A halant, or a joiner behind it that stands before the base.
#[inline]
fn with_joiner(base: usize, glyphs: &[hb_glyph_info_t], halant: usize) -> usize
    requires before { halant < base }
    requires in_range { base ≤ length glyphs.now }
    ensures place { result ≡ with_joiner base glyphs.now halant }
    ensures within { result < base }
{
    if halant + 1 < base && is_joiner(&glyphs[halant + 1]) {
        halant + 1
    } else {
        halant
    }
}

// Where the reph goes without a halant before the base: behind what the font made of the main
// consonant, as in Malayalam; behind its below-base forms, too, as in Bengali; else behind all.
#[inline]
fn behind_base(position: RephPosition, base: usize, glyphs: &[hb_glyph_info_t]) -> usize
    requires some { 0 < length glyphs.now }
    requires in_range { base ≤ length glyphs.now }
    ensures target { result ≡ behind_base position base glyphs.now }
    ensures within { result < length glyphs.now }
{
    if base == glyphs.len() {
        return at_end(base, glyphs);
    }
    match position {
        RephPosition::AfterMain => base + with_main_len(&glyphs[base + 1..]),
        RephPosition::AfterSub => base + with_sub_len(&glyphs[base + 1..]),
        RephPosition::BeforeSub | RephPosition::BeforePost | RephPosition::AfterPost => {
            at_end(base, glyphs)
        }
    }
}

// How many glyphs in front stand directly after the main consonant.
#[inline]
fn with_main_len(glyphs: &[hb_glyph_info_t]) -> usize
    ensures len { result ≡ prefix_len is_with_main glyphs.now }
    ensures within { result ≤ length glyphs.now }
{
    glyphs
        .iter()
        .take_while(|glyph| glyph.auxiliary <= POS_AFTER_MAIN)
        .count()
}

// How many glyphs in front stand before post-base forms and signs.
#[inline]
fn with_sub_len(glyphs: &[hb_glyph_info_t]) -> usize
    ensures len { result ≡ prefix_len is_with_sub glyphs.now }
    ensures within { result ≤ length glyphs.now }
{
    glyphs
        .iter()
        .take_while(|glyph| !matches!(glyph.auxiliary, POS_POST_C | POS_AFTER_POST | POS_SMVD))
        .count()
}

// The last glyph that is no sign; where it is a halant, less the vowel signs between the base and
// it. So the reph of 0930 094D 0915 094B 094D goes before the halant and can join the vowel sign,
// which Uniscribe doesn't do. Behind a consonant with a halant and no vowel sign it goes to the
// end. (HarfBuzz's issue 2298.)
#[inline]
fn at_end(base: usize, glyphs: &[hb_glyph_info_t]) -> usize
    requires { 0 < length glyphs.now }
    ensures place { result ≡ at_end base glyphs.now }
    ensures within { result < length glyphs.now }
{
    let last = last_but_signs(glyphs);
    if is_halant(&glyphs[last]) && base < last {
        let between = glyphs[base + 1..last].iter();
        last - between.filter(|glyph| is_matra(glyph)).count()
    } else {
        last
    }
}

// The last glyph that is no sign, else the start.
#[inline]
fn last_but_signs(glyphs: &[hb_glyph_info_t]) -> usize
    requires { 0 < length glyphs.now }
    ensures place { result ≡ last_but_signs glyphs.now }
    ensures within { result < length glyphs.now }
{
    for i in (0..glyphs.len()).rev() {
        if !is_sign(&glyphs[i]) {
            return i;
        }
    }
    0
}

// Whether a glyph is a sign at the end of the syllable.
#[inline]
fn is_sign(glyph: &hb_glyph_info_t) -> bool
    ensures { result ≡ has_position POS_SMVD glyph.now }
{
    glyph.auxiliary == POS_SMVD
}

//! The positions of a syllable's glyphs, by which it is ordered. (OpenType, development of Indic
//! scripts: "Reorder characters".)
ghost use Rattle.std.specs.Prelude.{◌≡◌, ◌+◌, ◌<◌, None, Some, drop, get_or, if◌then◌else◌, length, nat_le, unwrap_or};
ghost use Rattle.shapers_buffer.specs.Glyph.{default_glyph};
ghost use Rattle.shapers_indic_initial.specs.InitialPositions.{bounds, by_base, draws_sign, is_attached, position_by_base, with_marks_attached, with_owners, with_owners_after};
ghost use Rattle.shapers_indic_initial.specs.MarkWalk.{drawn_position, next_behind, next_carrier};
ghost use Rattle.shapers_syllabic.specs.Consonants.{is_consonant};

use super::base::Base;
use shapers_base::buffer::hb_glyph_info_t;
use shapers_base::plan::ot_category_t::{
    OT_CM, OT_H, OT_MPst, OT_N, OT_RS, OT_SM, OT_ZWJ, OT_ZWNJ,
};
use shapers_base::plan::ot_position_t::{
    POS_BASE_C, POS_PRE_C, POS_PRE_M, POS_RA_TO_BECOME_REPH, POS_SMVD,
};
use shapers_indic::ot_shaper_indic::glyphs::is_matra;
use shapers_syllabic::ot_shaper_syllabic::is_consonant;

/// Sets the positions of the reph, of what stands before the base, and of the base.
#[inline]
pub(super) fn set_positions_by_base(glyphs: &mut [hb_glyph_info_t], base: Base)
    ensures { glyphs.new ≡ by_base base.place base.has_reph glyphs.old }
{
    for (place, glyph) in glyphs.iter_mut().enumerate() {
        if place > base.place {
            return;
        }
        glyph.auxiliary = position_by_base(base, place, glyph.auxiliary);
    }
}

// The position of the glyph at `index`, where it has this one so far.
#[inline]
fn position_by_base(base: Base, index: usize, position: u8) -> u8
    ensures { result ≡ position_by_base base.place base.has_reph index position }
{
    if base.has_reph && index == 0 {
        POS_RA_TO_BECOME_REPH
    } else if index < base.place {
        position.min(POS_PRE_C)
    } else if index == base.place {
        POS_BASE_C
    } else {
        position
    }
}

/// Gives signs, joiners and halants the positions of what they go with.
///
/// An H stays behind where Uniscribe moves a left matra before it: 092B 093F 094D. Sinhala's
/// 0D9A 0DDA needs that, whose sign is in two parts, 0DD9, a left matra, and 0DCA, an H.
#[inline]
pub(super) fn attach_marks(glyphs: &mut [hb_glyph_info_t])
    ensures { glyphs.new ≡ with_marks_attached glyphs.old }
{
    let mut carrier = 0;
    let mut behind = POS_PRE_M;
    for i in 0..glyphs.len() {
        let (position, next) = drawn_position(glyphs, i, carrier);
        let parted = glyphs[i].category == OT_H && position == POS_PRE_M;
        glyphs[i].auxiliary = if parted { behind } else { position };
        carrier = next;
        behind = next_behind(position, behind);
    }
}

// The position of the glyph at `index` behind a carrier of this position: that of its carrier, if
// it is attached, and that of the matra directly behind it, if it is a sign that goes with it. And
// the position of the nearest carrier before what follows the glyph.
#[inline]
fn drawn_position(glyphs: &[hb_glyph_info_t], index: usize, carrier: u8) -> (u8, u8)
    requires { index < length glyphs.now }
    ensures position { let g = get_or glyphs.now index default_glyph in
        result.0 ≡ drawn_position carrier g (drop (index + 1) glyphs.now) }
    ensures carrier { result.1 ≡ next_carrier carrier (get_or glyphs.now index default_glyph) }
{
    let glyph = &glyphs[index];
    if is_attached(glyph) {
        return (carrier, carrier);
    }
    let position = glyph.auxiliary;
    let carrier = if position == POS_SMVD {
        carrier
    } else {
        position
    };
    if index + 1 < glyphs.len() && draws_sign(glyph, &glyphs[index + 1]) {
        return (glyphs[index + 1].auxiliary, carrier);
    }
    (position, carrier)
}

// Whether a glyph goes with what stands before it.
#[inline]
fn is_attached(glyph: &hb_glyph_info_t) -> bool
    ensures { result ≡ is_attached glyph.now }
{
    matches!(
        glyph.category,
        OT_ZWJ | OT_ZWNJ | OT_N | OT_RS | OT_CM | OT_H
    )
}

// Whether a glyph is a syllable modifier that goes with the one directly behind it: Gurmukhi's bindi
// may be typed before the vowel sign II that it stands on, as in 0A15 0A02 0A40.
#[inline]
fn draws_sign(glyph: &hb_glyph_info_t, next: &hb_glyph_info_t) -> bool
    ensures { result ≡ draws_sign glyph.now next.now }
{
    glyph.category == OT_SM && next.category == OT_MPst && next.auxiliary != POS_SMVD
}

// The position of the nearest glyph that doesn't go with a left matra before what follows a glyph
// of this position.
#[inline]
fn next_behind(position: u8, behind: u8) -> u8
    ensures { result ≡ next_behind behind position }
{
    if position == POS_PRE_M {
        behind
    } else {
        position
    }
}

/// Gives what stands before a consonant, after the base at this place, the consonant's position: the
/// H that joins a below-base form to the base goes where that form goes (0915 094D 0930).
#[inline]
pub(super) fn own(glyphs: &mut [hb_glyph_info_t], base: usize)
    ensures { glyphs.new ≡ with_owners_after base glyphs.old }
{
    if base < glyphs.len() {
        own_each(&mut glyphs[base + 1..]);
    }
}

// Gives each glyph that a consonant owns that consonant's position.
#[inline]
fn own_each(glyphs: &mut [hb_glyph_info_t])
    ensures { glyphs.new ≡ with_owners glyphs.old }
{
    let mut owner = None;
    for i in (0..glyphs.len()).rev() {
        if bounds(&glyphs[i]) {
            owner = consonant_position(&glyphs[i]);
        } else {
            glyphs[i].auxiliary = owned_position(owner, glyphs[i].auxiliary);
        }
    }
}

// The position of a glyph if it is a consonant.
#[inline]
fn consonant_position(glyph: &hb_glyph_info_t) -> Option<u8>
    ensures { result ≡ (if is_consonant glyph.now then Some glyph.now.auxiliary else None) }
{
    if is_consonant(glyph) {
        Some(glyph.auxiliary)
    } else {
        None
    }
}

// The position of what a consonant of this position owns, if one does, where it has `position` so
// far.
#[inline]
fn owned_position(owner: Option<u8>, position: u8) -> u8
    ensures { result ≡ (if nat_le POS_SMVD position then position else unwrap_or owner position) }
{
    if position >= POS_SMVD {
        return position;
    }
    owner.unwrap_or(position)
}

// Whether a glyph bounds what a consonant owns: it is a consonant or a matra.
#[inline]
fn bounds(glyph: &hb_glyph_info_t) -> bool
    ensures { result ≡ bounds glyph.now }
{
    is_consonant(glyph) || is_matra(glyph)
}

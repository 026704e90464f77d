//! What the final reordering reads of a glyph.
ghost use Rattle.std.specs.Prelude.{◌≡◌};
ghost use Rattle.shapers_base.specs.Masks.{has_bits};
ghost use Rattle.shapers_indic.specs.Glyphs.{passes};
ghost use Rattle.shapers_indic_final.specs.FinalGlyphs.{is_formed, is_indic_halant, is_matra_or_halant};

use shapers_base::buffer::hb_glyph_info_t;
use shapers_base::plan::ot_category_t::{OT_H, OT_M, OT_MPst};

// Whether a glyph is a halant.
#[inline]
pub(super) fn is_halant(glyph: &hb_glyph_info_t) -> bool
    ensures { result ≡ is_indic_halant glyph.now }
{
    !glyph.glyph_props.is_ligated() && glyph.category == OT_H
}

// Whether a halant stands at a place.
#[inline]
pub(super) fn is_halant_at(glyphs: &[hb_glyph_info_t], place: usize) -> bool
    ensures { result ≡ passes is_indic_halant glyphs.now place }
{
    glyphs.get(place).is_some_and(is_halant)
}

// Whether a glyph is a vowel sign or a halant, and no lookup put it in for several.
#[inline]
pub(super) fn is_matra_or_halant(glyph: &hb_glyph_info_t) -> bool
    ensures { result ≡ is_matra_or_halant glyph.now }
{
    !glyph.glyph_props.is_ligated() && matches!(glyph.category, OT_M | OT_MPst | OT_H)
}

// Whether lookups formed one glyph of several, and did not take it apart again.
#[inline]
pub(super) fn is_formed(glyph: &hb_glyph_info_t) -> bool
    ensures { result ≡ is_formed glyph.now }
{
    glyph.glyph_props.is_ligated() && !glyph.glyph_props.is_multiplied()
}

// Whether a glyph has some bit of a mask.
#[inline]
pub(super) fn has_mask(bits: u32, glyph: &hb_glyph_info_t) -> bool
    ensures { result ≡ has_bits bits glyph.now }
{
    glyph.mask & bits != 0
}

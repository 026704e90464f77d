//! What both reorderings read of a glyph.
ghost use Rattle.std.specs.Prelude.{◌≡◌};
ghost use Rattle.shapers_indic.specs.Glyphs.{is_joiner, is_matra, is_plain_consonant, number};

use shapers_base::buffer::hb_glyph_info_t;
use shapers_base::font::GlyphId;
use shapers_base::plan::ot_category_t::{OT_C, OT_M, OT_MPst, OT_ZWJ, OT_ZWNJ};
use shapers_base::plan::ot_position_t::POS_BASE_C;

/// The glyph's number, as fonts take it. No font has a glyph of a number above 65535, nor of that one.
#[inline]
pub fn number(glyph: &hb_glyph_info_t) -> GlyphId
    ensures { result ≡ number glyph.now }
{
    GlyphId(glyph.glyph_id.min(u32::from(u16::MAX)) as u16)
}

/// Whether a glyph is a joiner, and no lookup put it in for several.
#[inline]
pub fn is_joiner(glyph: &hb_glyph_info_t) -> bool
    ensures { result ≡ is_joiner glyph.now }
{
    !glyph.glyph_props.is_ligated() && matches!(glyph.category, OT_ZWJ | OT_ZWNJ)
}

/// Whether a glyph is a vowel sign.
#[inline]
pub fn is_matra(glyph: &hb_glyph_info_t) -> bool
    ensures { result ≡ is_matra glyph.now }
{
    matches!(glyph.category, OT_M | OT_MPst)
}

/// Whether a syllable is one consonant at the base, which no lookup put in for several. No
/// reordering changes anything in such a syllable.
#[inline]
pub fn is_plain_consonant(syllable: &[hb_glyph_info_t]) -> bool
    ensures { result ≡ is_plain_consonant syllable.now }
{
    match syllable {
        [glyph] => {
            glyph.category == OT_C
                && glyph.auxiliary == POS_BASE_C
                && !glyph.glyph_props.is_ligated()
        }
        _ => false,
    }
}

//! Where a lookup may begin: most lookups have nothing to do in a text.
ghost use Rattle.std.specs.Prelude.{◌≡◌, ◌<◌, ◌≤◌, ℕ, true, length, min};
ghost use Rattle.opentype_gsub.specs.Presence.{is_left};
ghost use Rattle.opentype_layout.specs.Text.{glyph_at};

use crate::pass::LookupUse;
use opentype_layout::glyph_text::GlyphView;
use opentype_layout::sight::number;
use opentype_layout::starts::LookupTable;
use shapers_buffer::buffer::hb_glyph_info_t;

/// Whether a glyph's mask or a lookup's bits say that the lookup can't begin at the glyph.
#[inline]
pub(crate) fn is_passed(
    lookup_use: &LookupUse,
    lookup: &LookupTable<'_>,
    glyph: &hb_glyph_info_t,
) -> bool
    ensures { result ≡ true → is_left lookup_use.now lookup.now glyph.now ≡ true }
{
    if glyph.mask & lookup_use.mask == 0 {
        return true;
    }
    !lookup.may_begin(false, number(glyph))
}

/// A place of a text before which a lookup can't begin; the text's length, if it begins nowhere. Where
/// the lookup has no bits, its bytes are searched.
#[inline]
pub(crate) fn first_place(
    lookup_use: &LookupUse,
    lookup: &LookupTable<'_>,
    glyphs: &[hb_glyph_info_t],
) -> usize
    ensures left { (j : ℕ) → j < result → is_left lookup_use.now lookup.now (glyph_at glyphs.now j) ≡ true }
    ensures within { result ≤ length glyphs.now }
{
    lookup.first_place(false, lookup_use.mask, glyphs, 0)
}

/// The next place of a text, from one on, that is to be tried: a lookup can't begin at the glyphs
/// before it, as their masks or the lookup's bits say. The text's length, if there is none.
#[inline]
pub(crate) fn next_place(
    lookup_use: &LookupUse,
    lookup: &LookupTable<'_>,
    glyphs: &GlyphView<'_>,
    from: usize,
) -> usize
    ensures behind { min from (length glyphs.now) ≤ result }
    ensures left { (j : ℕ) → from ≤ j → j < result →
        is_left lookup_use.now lookup.now (glyph_at glyphs.now j) ≡ true }
{
    lookup.next_place(false, lookup_use.mask, glyphs, from)
}

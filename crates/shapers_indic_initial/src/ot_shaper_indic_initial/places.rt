//! What stands at a place of a syllable, which may have no such place.
ghost use Rattle.std.specs.Prelude.{◌≡◌};
ghost use Rattle.shapers_indic.specs.Glyphs.{has_category, passes};

use shapers_base::buffer::hb_glyph_info_t;
use shapers_base::plan::Category;

/// Whether there is a glyph of this category at this place.
#[inline]
pub(super) fn is_of_category(glyphs: &[hb_glyph_info_t], place: usize, category: Category) -> bool
    ensures { result ≡ passes (has_category category) glyphs.now place }
{
    match glyphs.get(place) {
        Some(glyph) => glyph.category == category,
        None => false,
    }
}

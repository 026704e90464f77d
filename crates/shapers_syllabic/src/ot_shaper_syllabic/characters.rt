//! What several shapers look up about a character.
ghost use Rattle.std.specs.Prelude.{◌≡◌, map};
ghost use Rattle.shapers_syllabic.specs.Characters.{composed_behind, with_category, with_category_and_position};

use shapers_base::buffer::{GlyphChange, change_each_in, hb_buffer_t, hb_glyph_info_t};
use shapers_base::font::Tables;

/// The composition of two characters by the table. A mark composes with nothing behind it, so that
/// a split vowel isn't put together again.
#[inline]
pub fn compose<T: Tables>(tables: &T, a: char, b: char) -> Option<char>
    ensures { result ≡ composed_behind (T.tables tables.now) a b }
{
    if tables.general_category(a).is_mark() {
        return None;
    }
    tables.compose(a, b)
}

/// Gives each glyph the category that the table of the Indic, Khmer and Myanmar shapers has for its
/// character. It takes no memory.
#[inline]
pub fn set_categories<T: Tables>(tables: &T, buffer: &mut hb_buffer_t)
    ensures { buffer.new ≡
        record buffer.old { glyphs = map (with_category (T.tables tables.now)) buffer.old.glyphs } }
{
    buffer.change_outside(&Categories { tables });
}

/// `set_categories` for the glyphs of a slice.
#[inline]
pub fn set_categories_in<T: Tables>(tables: &T, glyphs: &mut [hb_glyph_info_t])
    ensures { glyphs.new ≡ map (with_category (T.tables tables.now)) glyphs.old }
{
    change_each_in(glyphs, &Categories { tables });
}

/// Gives each glyph the category and, as its auxiliary byte, the position that the table of the
/// Indic, Khmer and Myanmar shapers has for its character. It takes no memory.
#[inline]
pub fn set_categories_and_positions<T: Tables>(tables: &T, buffer: &mut hb_buffer_t)
    ensures { let with_both = with_category_and_position (T.tables tables.now) in
        let changed = map with_both buffer.old.glyphs in
        buffer.new ≡ record buffer.old { glyphs = changed } }
{
    buffer.change_outside(&CategoriesAndPositions { tables });
}

/// `set_categories_and_positions` for the glyphs of a slice.
#[inline]
pub fn set_categories_and_positions_in<T: Tables>(tables: &T, glyphs: &mut [hb_glyph_info_t])
    ensures { glyphs.new ≡ map (with_category_and_position (T.tables tables.now)) glyphs.old }
{
    change_each_in(glyphs, &CategoriesAndPositions { tables });
}

// Gives a glyph the category of its character.
#[derive(Clone, Copy)]
struct Categories<'a, T: Tables> {
    tables: &'a T,
}

impl<'a, T: Tables> GlyphChange for Categories<'a, T> {
    ghost use Rattle.shapers_syllabic.specs.Characters.{with_category};

    ghost changed = { λ change glyph. with_category (T.tables change.tables.now) glyph };

    #[inline]
    fn change(&self, glyph: &mut hb_glyph_info_t) {
        glyph.category = self.tables.indic_categories(glyph.glyph_id).0;
    }
}

// Gives a glyph the category and the position of its character.
#[derive(Clone, Copy)]
struct CategoriesAndPositions<'a, T: Tables> {
    tables: &'a T,
}

impl<'a, T: Tables> GlyphChange for CategoriesAndPositions<'a, T> {
    ghost use Rattle.shapers_syllabic.specs.Characters.{with_category_and_position};

    ghost changed = { λ change glyph.
        with_category_and_position (T.tables change.tables.now) glyph };

    #[inline]
    fn change(&self, glyph: &mut hb_glyph_info_t) {
        let (category, position) = self.tables.indic_categories(glyph.glyph_id);
        glyph.category = category;
        glyph.auxiliary = position;
    }
}

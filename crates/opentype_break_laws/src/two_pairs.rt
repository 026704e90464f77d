//! A font of pairs in both formats, and what its lookup leaves of a text's positions.
ghost use Rattle.std.specs.Prelude.{◌≡◌, [], length};
ghost use Rattle.opentype_font.specs.Lookups.{positioned_by};
ghost use Rattle.opentype_break_laws.specs.Pairs.{IsShortText};
ghost use Rattle.opentype_break_laws.specs.PlacedPieces.{placed_in};
ghost use Rattle.opentype_break_laws.specs.TwoPairs.{IsKernedOfPieces, two_pairs};
ghost use Rattle.opentype_break_laws.specs.TwoSingles.{first_lookup};

use crate::font_positions::font_positions_law;
use opentype_gpos::apply_along::position;
use opentype_layout::sight::Application;
use opentype_layout::tables::LayoutTable;
use shapers_buffer::buffer::hb_buffer_t;

// GPOS with one lookup: a 1 before a 3 is narrower, and a 3 behind a 2.
#[inline]
fn two_pairs() -> [u8; 88]
    ensures { result ≡ two_pairs }
{
    [
        0, 1, 0, 0, 0, 0, 0, 0, 0, 10, 0, 1, 0, 4, 0, 2, 0, 8, 0, 2, 0, 10, 0, 34, 0, 1, 0, 18, 0,
        4, 0, 0, 0, 1, 0, 12, 0, 1, 0, 3, 255, 246, 0, 1, 0, 1, 0, 1, 0, 2, 0, 20, 0, 0, 0, 4, 0,
        26, 0, 32, 0, 1, 0, 2, 0, 0, 255, 236, 0, 1, 0, 1, 0, 2, 0, 1, 0, 0, 0, 0, 0, 1, 0, 3, 0,
        1, 0, 1,
    ]
}

/// Makes a glyph 1 before a 3 narrower by 10 units, and a 3 behind a 2 by 20, by the bytes of a font,
/// at glyphs with bit 8 of their masks, and passes over marks. In a text of at most 255 glyphs, of
/// which none is ignorable, the positions are those of the text's pieces, side by side, at each place
/// that no flag forbids.
pub fn kern_glyphs(buffer: &mut hb_buffer_t)
    requires paired { length buffer.old.positions ≡ length buffer.old.glyphs }
    requires short { IsShortText buffer.old }
    ensures text { buffer.new ≡ positioned_by [] two_pairs first_lookup buffer.old }
    ensures pieces { IsKernedOfPieces buffer.old (placed_in buffer.new) }
{
    font_positions_law();
    let bytes = two_pairs();
    let how = Application {
        of_gpos: true,
        mask: 256,
        auto_zwnj: true,
        auto_zwj: true,
        per_syllable: false,
    };
    position(&[], &LayoutTable::of(&bytes), 0, &how, buffer);
}

//! A font of single adjustments in both formats, and what its lookup leaves of a text's positions.
ghost use Rattle.std.specs.Prelude.{◌≡◌, [], length};
ghost use Rattle.opentype_font.specs.Lookups.{positioned_by};
ghost use Rattle.opentype_break_laws.specs.PlacedPieces.{placed_in};
ghost use Rattle.opentype_break_laws.specs.TwoAdjustments.{IsPlacedOfPieces, two_adjustments};
ghost use Rattle.opentype_break_laws.specs.TwoSingles.{first_lookup};

use crate::font_positions::font_positions_law;
use opentype_gpos::apply_along::position;
use opentype_layout::sight::Application;
use opentype_layout::tables::LayoutTable;
use shapers_buffer::buffer::hb_buffer_t;

// GPOS with one lookup: glyph 5 is narrower, 6 stands to the right, and 9 up.
#[inline]
fn two_adjustments() -> [u8; 62]
    ensures { result ≡ two_adjustments }
{
    [
        0, 1, 0, 0, 0, 0, 0, 0, 0, 10, 0, 1, 0, 4, 0, 1, 0, 0, 0, 2, 0, 10, 0, 24, 0, 1, 0, 8, 0,
        4, 255, 246, 0, 1, 0, 1, 0, 5, 0, 2, 0, 16, 0, 3, 0, 2, 0, 3, 0, 0, 0, 0, 0, 4, 0, 1, 0, 2,
        0, 6, 0, 9,
    ]
}

/// Makes glyph 5 narrower by 10 units, and moves 6 by 3 units to the right and 9 by 4 upwards, by the
/// bytes of a font, at glyphs with bit 8 of their masks. The positions of the text are those of its
/// pieces, side by side, at each place that no flag forbids.
pub fn adjust_glyphs(buffer: &mut hb_buffer_t)
    requires { length buffer.old.positions ≡ length buffer.old.glyphs }
    ensures text { buffer.new ≡ positioned_by [] two_adjustments first_lookup buffer.old }
    ensures pieces { IsPlacedOfPieces buffer.old (placed_in buffer.new) }
{
    font_positions_law();
    let bytes = two_adjustments();
    let how = Application {
        of_gpos: true,
        mask: 256,
        auto_zwnj: true,
        auto_zwj: true,
        per_syllable: false,
    };
    position(&[], &LayoutTable::of(&bytes), 0, &how, buffer);
}

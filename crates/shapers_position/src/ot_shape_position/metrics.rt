//! What positions read of a font.
ghost use Rattle.std.specs.Prelude.{◌≡◌, ◌<◌};
ghost use Rattle.shapers_choice.specs.Choice.{is_horizontal};
ghost use Rattle.shapers_position.specs.Metrics.{along_line, line_advance};

use shapers_base::buffer::Direction;
use shapers_base::font::{GlyphId, hb_font_t};

/// A font with the metrics that positions are made of. For horizontal text alone, vertical ones may
/// be anything.
pub trait MetricsFont: hb_font_t {
    ghost use Rattle.shapers_position.specs.Metrics.{Metrics};

    /// The metrics as a value: their results.
    ghost metrics: { Self → Metrics };

    /// How many font units an em has (`unitsPerEm` of `head`).
    fn units_per_em(&self) -> u16
        ensures { result ≡ (metrics self.now).em };

    /// How far a glyph moves the pen in vertical text, in font units: below 0, as the pen moves down.
    fn glyph_v_advance(&self, glyph: GlyphId) -> i32
        ensures { result ≡ (metrics self.now).v_advance glyph };

    /// Where the origin of a glyph for vertical text lies, seen from that for horizontal text: to the
    /// right, and upwards.
    fn glyph_v_origin(&self, glyph: GlyphId) -> (i32, i32)
        ensures { result ≡ (metrics self.now).v_origin glyph };
}

#[inline]
pub(super) fn is_horizontal(direction: Direction) -> bool
    ensures { result ≡ is_horizontal direction }
{
    matches!(direction, Direction::LeftToRight | Direction::RightToLeft)
}

// The advance of a glyph along a line.
#[inline]
pub(super) fn line_advance<F: MetricsFont>(font: &F, is_horizontal: bool, glyph: GlyphId) -> i32
    ensures { result ≡ line_advance (F.font font.now) (F.metrics font.now) is_horizontal glyph }
{
    if is_horizontal {
        font.glyph_h_advance(glyph)
    } else {
        font.glyph_v_advance(glyph)
    }
}

// An advance of so many units along a line.
#[inline]
pub(super) fn along_line(is_horizontal: bool, units: u32) -> i32
    requires { units < 0x80000000 }
    ensures { result ≡ along_line is_horizontal units }
{
    let units = units as i32;
    if is_horizontal { units } else { -units }
}

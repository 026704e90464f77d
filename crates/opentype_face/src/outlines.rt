//! The outlines of glyphs, by `loca` and `glyf`.
ghost use Rattle.std.specs.Prelude.{◌≡◌, ◌≤◌};
ghost use Rattle.opentype_face.specs.Outlines.{
  box_bottom_in,
  box_top_in,
  box_width_in,
  has_box_in,
  outline_at,
  outline_count_in,
  outline_in,
};

use crate::bytes::{i16_at, offset16, offset32, stretch, u16_at};

/// How many outlines there are.
pub fn outline_count(head: &[u8], loca: &[u8]) -> usize
    ensures { result ≡ outline_count_in head.now loca.now }
{
    let format = u16_at(head, 50);
    if format > 1 || u16_at(head, 52) > 1 {
        return 0;
    }
    let offsets = if format == 0 {
        loca.len() / 2
    } else {
        loca.len() / 4
    };
    offsets.saturating_sub(1)
}

fn start_of(head: &[u8], loca: &[u8], i: usize) -> usize
    requires { i ≤ 65536 }
    ensures { result ≡ outline_at head.now loca.now i }
{
    if u16_at(head, 50) == 0 {
        2 * offset16(loca, i * 2)
    } else {
        offset32(loca, i * 4)
    }
}

/// The outline of a glyph; nothing where it isn't in the table.
pub fn outline<'a>(head: &[u8], loca: &[u8], glyf: &'a [u8], glyph: u16) -> &'a [u8]
    ensures { result.now ≡ outline_in head.now loca.now glyf.now glyph }
{
    let start = start_of(head, loca, usize::from(glyph));
    let end = start_of(head, loca, usize::from(glyph) + 1);
    if start <= end && end <= glyf.len() {
        stretch(glyf, start, end - start)
    } else {
        &[]
    }
}

/// Whether an outline has a box; an empty glyph has none, and is 0 wide and high.
pub fn has_box(outline: &[u8]) -> bool
    ensures { result ≡ has_box_in outline.now }
{
    !(outline.len() < 10 || u16_at(outline, 0) == 0)
}

/// Where the top of an outline's box is.
pub fn box_top(outline: &[u8]) -> i16
    ensures { result ≡ box_top_in outline.now }
{
    let (bottom, top) = (i16_at(outline, 4), i16_at(outline, 8));
    if top < bottom { bottom } else { top }
}

/// Where its bottom is.
pub fn box_bottom(outline: &[u8]) -> i16
    ensures { result ≡ box_bottom_in outline.now }
{
    let (bottom, top) = (i16_at(outline, 4), i16_at(outline, 8));
    if top < bottom { top } else { bottom }
}

/// How wide it is. HarfBuzz lets it begin at the glyph's left side bearing.
pub fn box_width(outline: &[u8]) -> u16
    ensures { result ≡ box_width_in outline.now }
{
    i16_at(outline, 6).abs_diff(i16_at(outline, 2))
}

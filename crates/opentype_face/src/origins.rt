//! Where the origins of glyphs for vertical text lie, by outlines.
ghost use Rattle.std.specs.Prelude.{◌≡◌, ◌≤◌, ◌<◌, ◌^◌, ◌+ℤ◌};
ghost use Rattle.opentype_face.specs.Firsts.{or_else};
ghost use Rattle.opentype_face.specs.Origins.{
  centred_in,
  centred_outline,
  component_size as component_size_in,
  lender_in,
  lent_at,
  lent_from,
  measured,
  scale_size as scale_size_in,
  top_in,
};

use crate::bytes::{i16_at, u16_at};
use crate::outlines::{box_bottom, box_top, has_box, outline};

/// HarfBuzz looks at as many components of a glyph at most, one in another counted too.
const MOST_COMPONENTS: u32 = 2048;

/// Glyphs that lend one another their metrics are followed as deep as HarfBuzz follows components.
const MOST_LENDERS: u32 = 64;

fn component_size(flags: u16) -> usize
    ensures value { result ≡ component_size_in flags }
    ensures bound { result ≤ 16 }
{
    if flags % 2 == 1 {
        8 + scale_size(flags)
    } else {
        6 + scale_size(flags)
    }
}

fn scale_size(flags: u16) -> usize
    ensures value { result ≡ scale_size_in flags }
    ensures bound { result ≤ 8 }
{
    if flags / 0x8 % 2 == 1 {
        2
    } else if flags / 0x40 % 2 == 1 {
        4
    } else if flags / 0x80 % 2 == 1 {
        8
    } else {
        0
    }
}

/// The glyph of a component, if the composite has its metrics, and else the one that was found before it.
fn lent(outline: &[u8], at: usize, before: Option<u16>) -> Option<u16>
    ensures { result ≡ or_else (lent_at outline.now at) before }
{
    if u16_at(outline, at) / 0x200 % 2 == 1 {
        Some(u16_at(outline, at + 2))
    } else {
        before
    }
}

/// The last component whose metrics a composite glyph has (USE_MY_METRICS).
fn lender(outline: &[u8]) -> Option<u16>
    ensures { result ≡ lender_in outline.now }
{
    if outline.len() < 10 || u16_at(outline, 0) < 32768 {
        None
    } else {
        last_lender(outline)
    }
}

fn last_lender(outline: &[u8]) -> Option<u16>
    ensures { result ≡ lent_from 2048 outline.now 10 }
{
    let (mut at, mut found) = (10, None);
    for _i in 0..MOST_COMPONENTS {
        found = lent(outline, at, found);
        let flags = u16_at(outline, at);
        if flags / 0x20 % 2 == 0 {
            return found;
        }
        at += component_size(flags);
    }
    found
}

/// The glyph whose metrics a glyph has: its own, or those of a component of it.
pub fn measured_glyph(head: &[u8], loca: &[u8], glyf: &[u8], glyph: u16) -> u16
    ensures { result ≡ measured 64 head.now loca.now glyf.now glyph }
{
    let mut glyph = glyph;
    for _i in 0..MOST_LENDERS {
        match lender(outline(head, loca, glyf, glyph)) {
            Some(other) => glyph = other,
            None => return glyph,
        }
    }
    glyph
}

/// The last number of an outline's box; 0 where it has none.
pub fn top(outline: &[u8]) -> i16
    ensures { result ≡ top_in outline.now }
{
    if outline.len() < 10 {
        0
    } else {
        i16_at(outline, 8)
    }
}

/// The height of the origin that is so far above the top of an outline.
pub fn above(top: i16, bearing: i16) -> i32
    ensures { result ≡ top +ℤ bearing }
{
    i32::from(top) + i32::from(bearing)
}

/// The height of the origin with which a box of a top and a height is in the middle of a line.
fn centred(top: i16, height: u16, line: u32) -> i32
    requires { line < 2 ^ 17 }
    ensures { result ≡ centred_in top height line }
{
    let height = u32::from(height);
    if height <= line {
        i32::from(top) + ((line - height) / 2) as i32
    } else {
        i32::from(top) - ((height + 1 - line) / 2) as i32
    }
}

/// The same of an outline; one without contours is a box of no height on the base line.
pub fn centred_origin(outline: &[u8], line: u32) -> i32
    requires { line < 2 ^ 17 }
    ensures { result ≡ centred_outline outline.now line }
{
    if !has_box(outline) {
        return centred(0, 0, line);
    }
    let top = box_top(outline);
    centred(top, top.abs_diff(box_bottom(outline)), line)
}

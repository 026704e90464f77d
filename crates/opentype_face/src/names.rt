//! The names of glyphs, by `post` of formats 1 and 2.
ghost use Rattle.std.specs.Prelude.{◌≡◌, ◌<◌, ◌^◌};
ghost use Rattle.opentype_face.specs.Names.{name_in, named as named_in, nth_string as nth_string_in, string_start};

use crate::bytes::{offset16, stretch, u8_at, u16_at, u32_at};
use crate::mac_names::MAC_NAMES;

/// The name of a glyph; empty where the font has none. It takes as many steps as the table has names, at
/// most 65,535.
pub fn glyph_name(post: &[u8], glyph: u16) -> &[u8]
    ensures { result.now ≡ name_in post.now glyph }
{
    match u32_at(post, 0) {
        0x1_0000 if glyph < 258 => nth_string(&MAC_NAMES, 0, glyph),
        0x2_0000 if glyph < u16_at(post, 32) => {
            named(post, u16_at(post, 34 + usize::from(glyph) * 2))
        }
        _ => &[],
    }
}

fn named(post: &[u8], i: u16) -> &[u8]
    ensures { result.now ≡ named_in post.now i }
{
    if i < 258 {
        nth_string(&MAC_NAMES, 0, i)
    } else {
        nth_string(post, 34 + offset16(post, 32) * 2, i - 258)
    }
}

/// A string, by its number, of those that begin at a place.
fn nth_string(bytes: &[u8], start: usize, n: u16) -> &[u8]
    requires { start < 2 ^ 18 }
    ensures { result.now ≡ nth_string_in n bytes.now start }
{
    let at = start_of_nth(bytes, start, n);
    let len = usize::from(u8_at(bytes, at));
    if at + len < bytes.len() {
        stretch(bytes, at + 1, len)
    } else {
        &[]
    }
}

/// Behind the end of the bytes strings have no characters, so that this rises by 256 a step at most.
fn start_of_nth(bytes: &[u8], start: usize, n: u16) -> usize
    requires { start < 2 ^ 18 }
    ensures value { result ≡ string_start n bytes.now start }
    ensures bound { result < 2 ^ 25 }
{
    let mut at = start;
    for _i in 0..n {
        at += usize::from(u8_at(bytes, at)) + 1;
    }
    at
}

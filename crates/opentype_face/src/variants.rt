//! The glyphs of characters with a selector behind them, by `cmap` of format 14.
ghost use Rattle.std.specs.Prelude.{◌≡◌, is_some};
ghost use Rattle.opentype_face.specs.Variants.{in_record, default_range_in, mapped_in, variant_in};

use crate::bytes::{capped, offset32, table_at, u16_at, u32_at};
use crate::ranges::Ranges;

/// What a font says of a character and a selector.
#[derive(Clone, Copy, Debug, PartialEq, Eq)]
pub enum GlyphVariant {
    /// Nothing.
    NotFound,
    /// Their glyph.
    Found(u16),
    /// Their glyph is the character's own.
    UseDefault,
}

/// What a subtable of format 14 says of a character and a selector, in at most 99 steps.
pub fn glyph_variant(bytes: &[u8], c: u32, selector: u32) -> GlyphVariant
    ensures { result ≡ variant_in bytes.now c selector }
{
    if u16_at(bytes, 0) != 14 {
        return GlyphVariant::NotFound;
    }
    let records = Ranges {
        bytes,
        first: 10,
        last: 10,
        size: 11,
        count: capped(u32_at(bytes, 6), bytes.len() / 11),
    };
    match records.find_24(selector) {
        Some(i) => of_record(bytes, c, i),
        None => GlyphVariant::NotFound,
    }
}

fn of_record(bytes: &[u8], c: u32, i: u32) -> GlyphVariant
    ensures { result ≡ in_record bytes.now c i }
{
    let at = i as usize * 11;
    if is_default(table_at(bytes, offset32(bytes, 13 + at)), c) {
        return GlyphVariant::UseDefault;
    }
    let glyph = mapped(table_at(bytes, offset32(bytes, 17 + at)), c);
    if glyph == 0 {
        GlyphVariant::NotFound
    } else {
        GlyphVariant::Found(glyph)
    }
}

fn is_default(bytes: &[u8], c: u32) -> bool
    ensures { result ≡ is_some (default_range_in bytes.now c) }
{
    let ranges = Ranges {
        bytes,
        first: 4,
        last: 7,
        size: 4,
        count: capped(u32_at(bytes, 0), bytes.len() / 4),
    };
    ranges.find_counted(c).is_some()
}

fn mapped(bytes: &[u8], c: u32) -> u16
    ensures { result ≡ mapped_in bytes.now c }
{
    let mappings = Ranges {
        bytes,
        first: 4,
        last: 4,
        size: 5,
        count: capped(u32_at(bytes, 0), bytes.len() / 5),
    };
    match mappings.find_24(c) {
        Some(i) => u16_at(bytes, 7 + i as usize * 5),
        None => 0,
    }
}

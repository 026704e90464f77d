//! Subtables that look at one glyph.
ghost use Rattle.std.specs.Prelude.{◌≡◌};
ghost use Rattle.std.specs.Option.{option_map};
ghost use Rattle.opentype_gsub.specs.Decided.{alternate_at, alternate_in, covered_in, set_by, set_for_glyph, single_at, single_in};

use opentype_face::bytes::{table_at, u16_at};
use opentype_face::glyph_sets::coverage;

/// The place of a glyph in the set that a subtable begins with.
#[inline]
pub fn covered(bytes: &[u8], glyph: u16) -> Option<u32>
    ensures { result ≡ covered_in bytes.now glyph }
{
    coverage(table_at(bytes, usize::from(u16_at(bytes, 2))), glyph)
}

/// One glyph for another, by a subtable of type 1.
pub fn single(bytes: &[u8], glyph: u16) -> Option<u16>
    ensures { result ≡ single_in bytes.now glyph }
{
    single_at(bytes, glyph, covered(bytes, glyph))
}

/// The same by the place of the glyph in the set that the subtable begins with.
#[inline]
pub(crate) fn single_at(bytes: &[u8], glyph: u16, place: Option<u32>) -> Option<u16>
    ensures { result ≡ single_at bytes.now glyph place }
{
    let i = place?;
    match u16_at(bytes, 0) {
        1 => Some(((u32::from(glyph) + u32::from(u16_at(bytes, 4))) % 65536) as u16),
        2 => {
            if i < u32::from(u16_at(bytes, 4)) {
                Some(u16_at(bytes, 6 + i as usize * 2))
            } else {
                None
            }
        }
        _ => None,
    }
}

/// The table that a subtable of type 2, 3 or 4 has for a glyph.
pub fn set_of(bytes: &[u8], glyph: u16) -> Option<&[u8]>
    ensures { option_map (λ set. set.now) result ≡ set_for_glyph bytes.now glyph }
{
    set_by(bytes, covered(bytes, glyph))
}

/// The same by the place of the glyph in the set that the subtable begins with.
#[inline]
pub(crate) fn set_by(bytes: &[u8], place: Option<u32>) -> Option<&[u8]>
    ensures { option_map (λ set. set.now) result ≡ set_by bytes.now place }
{
    if u16_at(bytes, 0) != 1 {
        return None;
    }
    let i = place?;
    if i < u32::from(u16_at(bytes, 4)) {
        Some(table_at(bytes, usize::from(u16_at(bytes, 6 + i as usize * 2))))
    } else {
        None
    }
}

/// The alternate that a value chooses, from 1, by a subtable of type 3.
pub fn alternate(bytes: &[u8], glyph: u16, value: u32) -> Option<u16>
    ensures { result ≡ alternate_in bytes.now glyph value }
{
    alternate_at(value, set_of(bytes, glyph))
}

/// The same by the table that the subtable has for the glyph.
#[inline]
pub(crate) fn alternate_at(value: u32, set: Option<&[u8]>) -> Option<u16>
    ensures { result ≡ alternate_at value (option_map (λ it. it.now) set.entry) }
{
    let set = set?;
    if value == 0 || value > u32::from(u16_at(set, 0)) {
        None
    } else {
        Some(u16_at(set, value as usize * 2))
    }
}

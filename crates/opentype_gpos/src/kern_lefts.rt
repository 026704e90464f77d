//! From which glyph to which the left ones of pairs are, in a table `kern`: a text that has none of
//! them is left as it is.
ghost use Rattle.std.specs.Prelude.{◌≡◌, IfSome, length};
ghost use Rattle.std.specs.List.{list_any};
ghost use Rattle.opentype_gpos.specs.KernLefts.{HasBegun, HasLefts, HoldLefts, is_within, with_left};
ghost use Rattle.opentype_gpos.specs.Kerned.{kerned};
ghost use Rattle.opentype_gpos.specs.Nearby.{number_in};

use crate::kern::{is_across, kern};
use crate::nearby::number;
use opentype_face::bytes::{table_at, u8_at, u16_at, u32_at};
use shapers_buffer::buffer::{hb_buffer_t, hb_glyph_info_t};
use std::marker::Model;

// A table of more subtables isn't looked through, so that no font takes long to prepare.
const MOST_SUBTABLES: u16 = 16;

// Glyphs from the first one to the last; none where the first one is behind the last.
#[derive(Clone, Copy, Debug)]
struct Lefts {
    first: u16,
    last: u16,
}

impl Lefts {
    // These and one more.
    #[inline]
    fn with(self, glyph: u16) -> Self
        ensures { result ≡ with_left self glyph }
    {
        Lefts {
            first: self.first.min(glyph),
            last: self.last.max(glyph),
        }
    }

    #[inline]
    fn has(self, glyph: u16) -> bool
        ensures { result ≡ is_within self glyph }
    {
        self.first <= glyph && glyph <= self.last
    }
}

/// A table `kern`, and from which glyph to which the left ones of its pairs are.
#[derive(Debug, Drop)]
pub struct KernLefts<'a> {
    table: &'a [u8],
    lefts: Lefts,
}

impl<'a> Model for KernLefts<'a> {
    ghost use Rattle.std.specs.Prelude.{ℕ, List};
    ghost use Rattle.opentype_gpos.specs.KernLefts.{AreLefts};

    ghost Value = { List ℕ };

    ghost view = { λ it. it.table.now };

    ghost invariant = { λ it. AreLefts it.table.now it.lefts };
}

impl<'a> KernLefts<'a> {
    /// A table of which nothing is known: each glyph may begin a pair.
    #[inline]
    pub fn of(table: &'a [u8]) -> Self
        ensures { result ≡ table.now }
    {
        let lefts = Lefts {
            first: 0,
            last: 65535,
        };
        KernLefts { table, lefts }
    }

    /// A table that is looked through once. Nothing is known of one that has a subtable of classes
    /// (format 2), or one that moves glyphs across their line, or more than 16 subtables.
    pub fn new(table: &'a [u8]) -> Self
        ensures { result ≡ table.now }
    {
        let count = u16_at(table, 2);
        if count > MOST_SUBTABLES {
            return Self::of(table);
        }
        match lefts_of(count, table_at(table, 4)) {
            Some(lefts) => KernLefts { table, lefts },
            None => Self::of(table),
        }
    }

    /// The table.
    #[inline]
    pub fn table(&self) -> &'a [u8]
        ensures { result.now ≡ self.now }
    {
        self.table
    }
}

// The left glyphs of so many records of pairs, which stand in any order from byte 14 on.
fn with_records(bytes: &[u8], count: u16, known: Lefts) -> Lefts
    ensures { HasLefts bytes.now count known result }
{
    let mut lefts = known;
    for i in 0..count {
        let pair = u32_at(bytes, 14 + usize::from(i) * 6);
        lefts = lefts.with((pair / 65536) as u16);
    }
    lefts
}

// The left glyphs of a subtable, unless it is one of which nothing is known.
fn with_subtable(bytes: &[u8], known: Lefts) -> Option<Lefts>
    ensures { IfSome result (HasBegun bytes.now known) }
{
    if is_across(bytes) {
        return None;
    }
    match u8_at(bytes, 4) {
        0 => Some(with_records(bytes, u16_at(bytes, 6), known)),
        2 => None,
        _ => Some(known),
    }
}

// The left glyphs of so many subtables, one after another.
fn lefts_of(count: u16, bytes: &[u8]) -> Option<Lefts>
    ensures { IfSome result (HoldLefts count bytes.now) }
{
    let mut lefts = Lefts {
        first: 65535,
        last: 0,
    };
    let mut bytes = bytes;
    for _ in 0..count {
        let len = u16_at(bytes, 2);
        if len < 6 {
            return Some(lefts);
        }
        lefts = with_subtable(bytes, lefts)?;
        bytes = table_at(bytes, usize::from(len));
    }
    Some(lefts)
}

// Whether a text has one of these glyphs.
fn has_left(lefts: Lefts, glyphs: &[hb_glyph_info_t]) -> bool
    ensures { result ≡ list_any (λ g. is_within lefts (number_in g)) glyphs.now }
{
    glyphs.iter().any(|glyph| lefts.has(number(glyph)))
}

/// The same as [`kern`](crate::kern::kern) by the table, but that the pairs of a text are looked up only
/// where it has a glyph that may begin one.
#[tactic(auto, unfolding(crate::specs::Kerned::kerned))]
pub fn kern_by_lefts(lefts: &KernLefts<'_>, mask: u32, buffer: &mut hb_buffer_t)
    requires { length buffer.old.positions ≡ length buffer.old.glyphs }
    ensures { buffer.new ≡ kerned lefts.now mask buffer.old }
{
    if has_left(lefts.lefts, buffer.glyphs()) {
        kern(lefts.table, mask, buffer);
        return;
    }
    let len = buffer.len();
    buffer.unsafe_to_concat(0, len);
}

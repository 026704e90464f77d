//! Subtables of GPOS, with tables of the glyphs in their sets.
ghost use Rattle.std.specs.Prelude.{◌≡◌, true};
ghost use Rattle.std.specs.Option.{ForSome};
ghost use Rattle.opentype_face.specs.Bytes.{table_at, u16_in};
ghost use Rattle.opentype_face.specs.Glyphs.{coverage_in};
ghost use Rattle.opentype_face.specs.Lookups.{subtable_in, type_in};
ghost use Rattle.opentype_layout.specs.PositionTables.{ArePositions, nth_position};
ghost use Rattle.opentype_layout.specs.Starts.{first_set_in};

use crate::budget::paid_for;
use crate::sets::{first_set, place_in_set, table_of_set};
use opentype_face::bytes::{offset16, table_at};
use opentype_face::glyph_tables::PreparedCoverage;
use opentype_face::lookup::{subtable, subtable_count, subtable_type};
use std::alloc::Global;
use std::marker::Model;

/// How many bytes a table costs beside the places of its glyphs.
const TABLE_COST: usize = 128;

/// A subtable of GPOS, and tables of the set of glyphs that it begins with and of its second set, if
/// it has them.
#[derive(Clone, Copy, Debug)]
pub struct PositionRef<'a> {
    /// Its type.
    pub kind: u16,
    /// Its bytes.
    pub bytes: &'a [u8],
    /// The table of the set that it begins with.
    pub first: Option<&'a PreparedCoverage<'a>>,
    /// The table of its second set.
    pub second: Option<&'a PreparedCoverage<'a>>,
    ghost first_fits: { ForSome first (λ it. it.now.set.now ≡ first_set_in true kind bytes.now) },
    ghost second_fits: { ForSome second (λ it.
        it.now.set.now ≡ table_at bytes.now (u16_in bytes.now 4)) },
}

impl<'a> PositionRef<'a> {
    /// The subtable of a lookup with a number, without tables.
    #[inline]
    pub(crate) fn of(lookup: &'a [u8], i: u16) -> Self
        ensures kind { result.kind ≡ type_in 9 lookup.now i }
        ensures bytes { result.bytes.now ≡ subtable_in 9 lookup.now i }
    {
        PositionRef {
            kind: subtable_type(9, lookup, i),
            bytes: subtable(9, lookup, i),
            first: None,
            second: None,
        }
    }

    /// The place of a glyph in the set whose offset stands at byte 2.
    #[inline]
    pub fn first_place(&self, glyph: u16) -> Option<u32>
        ensures { result
            ≡ coverage_in (table_at self.now.bytes.now (u16_in self.now.bytes.now 2)) glyph }
    {
        // (a context may begin with another set)
        if self.kind == 7 || self.kind == 8 {
            return place_in_set(self.bytes, 2, None, glyph);
        }
        place_in_set(self.bytes, 2, self.first, glyph)
    }

    /// The place of a glyph in its second set.
    #[inline]
    pub fn second_place(&self, glyph: u16) -> Option<u32>
        ensures { result
            ≡ coverage_in (table_at self.now.bytes.now (u16_in self.now.bytes.now 4)) glyph }
    {
        place_in_set(self.bytes, 4, self.second, glyph)
    }
}

/// A subtable of GPOS, with its type, and with tables of its sets.
#[derive(Debug, Drop)]
pub struct PositionTable<'a> {
    bytes: &'a [u8],
    kind: u16,
    first: PreparedCoverage<'a>,
    second: PreparedCoverage<'a>,
}

impl<'a> Model for PositionTable<'a> {
    ghost use Rattle.std.specs.Prelude.{◌≡◌, true};
    ghost use Rattle.opentype_face.specs.Bytes.{table_at, u16_in};
    ghost use Rattle.opentype_layout.specs.Starts.{first_set_in};
    ghost use Rattle.opentype_layout.specs.SubstitutionTables.{Subtable};

    ghost Value = { Subtable };

    ghost view = { λ it. record { kind = it.kind; bytes = it.bytes.now } };

    ghost invariant = { λ it. (it.first.set.now ≡ first_set_in true it.kind it.bytes.now) ×
        (it.second.set.now ≡ table_at it.bytes.now (u16_in it.bytes.now 4)) };
}

impl<'a> PositionTable<'a> {
    /// The subtable of a lookup with a number, and its tables, for which a budget in bytes pays. Marks
    /// alone have a second set.
    pub fn new(alloc: Global, lookup: &'a [u8], i: u16, budget: &mut usize) -> Self
        ensures { result ≡ nth_position lookup.now i }
    {
        let kind = subtable_type(9, lookup, i);
        let bytes = subtable(9, lookup, i);
        let first = table_of_set(first_set(true, lookup, i), alloc, budget);
        let set = table_at(bytes, offset16(bytes, 4));
        let second = if matches!(kind, 4..=6) {
            table_of_set(set, alloc, budget)
        } else {
            PreparedCoverage::new(set, alloc, &mut 0)
        };
        PositionTable {
            bytes,
            kind,
            first,
            second,
        }
    }

    /// The subtable, with its tables.
    #[inline]
    pub fn as_position(&self) -> PositionRef<'_>
        ensures kind { result.kind ≡ self.now.kind }
        ensures bytes { result.bytes.now ≡ self.now.bytes }
    {
        PositionRef {
            kind: self.kind,
            bytes: self.bytes,
            first: Some(&self.first),
            second: Some(&self.second),
        }
    }
}

/// Tables of a lookup's first subtables. Where a budget in bytes or memory doesn't suffice, there
/// are fewer.
pub(crate) fn tables_of_positions<'a>(
    alloc: Global,
    lookup: &'a [u8],
    budget: &mut usize,
) -> Vec<PositionTable<'a>>
    ensures { ArePositions lookup.now result.items }
{
    let count = paid_for(subtable_count(lookup), TABLE_COST, budget);
    let Ok(mut tables) = Vec::with_capacity(alloc, usize::from(count)) else {
        return Vec::new(alloc);
    };
    for i in 0..count {
        let table = PositionTable::new(alloc, lookup, i, budget);
        if tables.push(table).is_err() {
            return tables;
        }
    }
    tables
}

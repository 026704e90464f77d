//! Which subtables of a lookup may begin at a glyph.
ghost use Rattle.std.specs.Prelude.{◌≡◌, ◌<◌, ◌≤◌, List, ℕ, false, true, length, min, IfSome, unwrap_or};
ghost use Rattle.opentype_face.specs.Lookups.{operations_in, subtable_in, subtables_in, type_in};
ghost use Rattle.opentype_layout.specs.Bits.{Grown};
ghost use Rattle.opentype_layout.specs.LookupRows.{BeginsNot, row_bit};
ghost use Rattle.opentype_layout.specs.PairTables.{ArePairTables};
ghost use Rattle.opentype_layout.specs.PositionTables.{ArePositions, nth_position};
ghost use Rattle.opentype_layout.specs.SubstitutionTables.{AreSubtables, nth_subtable};
ghost use Rattle.opentype_layout.specs.Starts.{AreHeads, AreOthers, AreOutside, ArePassed, IsStarts, NoneStarts};

use crate::bits::first_bit;
use crate::glyph_text::GlyphView;
use crate::grid::Grid;
use crate::heads::{headed_place, heads_of, masked_place};
use crate::lookup_rows::mark_column;
use crate::pair_tables::PairTable;
use crate::position_tables::{PositionRef, PositionTable};
use crate::sets::{GlyphRange, first_set, is_of_one_glyph, nth_range, ranges, start};
use crate::sight::number;
use crate::substitution_tables::{SubstitutionTable, SubtableRef};
use crate::subtable_tables::SubtableTables;
use opentype_face::bytes::u16_at;
use opentype_face::glyph_sets::coverage;
use opentype_face::lookup::subtable_count;
use opentype_face::ranges::Ranges;
use shapers_buffer::buffer::hb_glyph_info_t;
use std::alloc::Global;
use std::marker::Model;

// The bits of a lookup's subtables.
#[derive(Debug, Drop)]
struct Marks {
    grid: Grid,
    words: Vec<u64>,
}

// The same with the bits of the glyphs that it may begin at.
#[derive(Debug, Drop)]
struct HeadedMarks {
    marks: Marks,
    heads: Vec<u64>,
}

// A range that has the glyphs of several ranges, too.
fn widen(span: GlyphRange, ranges: &Ranges<'_>) -> GlyphRange
    ensures from { result.from ≤ span.from }
    ensures to { span.to ≤ result.to }
{
    let mut span = span;
    for i in 0..ranges.count {
        let range = nth_range(ranges, i);
        if range.from <= range.to {
            span.from = span.from.min(range.from);
            span.to = span.to.max(range.to);
        }
    }
    span
}

// The range from the first glyph that a lookup begins with to the last one. A budget pays one for
// each subtable and for each range of their sets, so that the tables of a spoilt font can't take
// long.
fn span(of_gpos: bool, lookup: &[u8], budget: &mut usize) -> Option<GlyphRange> {
    let mut span = GlyphRange { from: 65535, to: 0 };
    for i in 0..subtable_count(lookup) {
        let ranges = ranges(first_set(of_gpos, lookup, i));
        let cost = ranges.count as usize + 1;
        if cost > *budget {
            return None;
        }
        *budget -= cost;
        span = widen(span, &ranges);
    }
    Some(span)
}

// The bits of a lookup's subtables, if memory and a budget suffice.
fn mark(alloc: Global, of_gpos: bool, lookup: &[u8], budget: &mut usize) -> Option<Marks>
    ensures { IfSome result (λ it.
        IsStarts of_gpos lookup.now (subtables_in lookup.now) it.grid it.words.items) }
{
    let glyphs = span(of_gpos, lookup, budget)?;
    let grid = Grid::of(&glyphs, subtable_count(lookup));
    let size = grid.word_count();
    if size > *budget / 8 {
        return None;
    }
    *budget -= size * 8;
    let Ok(mut words) = Vec::with_capacity(alloc, size) else {
        return None;
    };
    if words.resize(size, 0u64).is_err() {
        return None;
    }
    if grid.mark_lookup(&mut words, of_gpos, lookup) {
        Some(Marks { grid, words })
    } else {
        None
    }
}

// The bits of a lookup's subtables, and of the glyphs that it may begin at.
fn mark_with_heads(
    alloc: Global,
    of_gpos: bool,
    lookup: &[u8],
    budget: &mut usize,
) -> Option<HeadedMarks>
    ensures starts { IfSome result (λ it.
        IsStarts of_gpos lookup.now (subtables_in lookup.now) it.marks.grid it.marks.words.items) }
    ensures heads { IfSome result (λ it.
        AreHeads of_gpos lookup.now it.marks.grid.first it.heads.items) }
{
    let marks = mark(alloc, of_gpos, lookup, budget)?;
    let count = subtable_count(lookup);
    match heads_of(alloc, &marks.grid, &marks.words, count, budget) {
        Some(heads) => Some(HeadedMarks { marks, heads }),
        None => None,
    }
}

/// The subtables of a lookup that may begin at each glyph, as bits: asking them costs no search in
/// the font's bytes.
#[derive(Debug, Drop)]
pub struct Starts<'a> {
    lookup: &'a [u8],
    of_gpos: bool,
    is_made: bool,
    count: u16,
    grid: Grid,
    words: Vec<u64>,
    heads: Vec<u64>,
}

impl<'a> Model for Starts<'a> {
    ghost Value = { List ℕ };

    ghost view = { λ it. it.lookup.now };

    ghost invariant = { λ it. (it.count ≡ subtables_in it.lookup.now) ×
        ((it.is_made ≡ true → IsStarts it.of_gpos it.lookup.now it.count it.grid it.words.items) ×
        (it.is_made ≡ true → AreHeads it.of_gpos it.lookup.now it.grid.first it.heads.items)) };
}

impl<'a> Starts<'a> {
    /// The bits of a lookup of GSUB, or of GPOS. It has none where memory doesn't suffice, or a
    /// budget in bytes that pays for them, and one for each subtable and each range of glyphs that
    /// is read.
    pub fn new(alloc: Global, of_gpos: bool, lookup: &'a [u8], budget: &mut usize) -> Self
        ensures { result ≡ lookup.now }
    {
        let count = subtable_count(lookup);
        match mark_with_heads(alloc, of_gpos, lookup, budget) {
            Some(HeadedMarks { marks, heads }) => Starts {
                lookup,
                of_gpos,
                is_made: true,
                count,
                grid: marks.grid,
                words: marks.words,
                heads,
            },
            None => Starts {
                lookup,
                of_gpos,
                is_made: false,
                count,
                grid: Grid {
                    first: 0,
                    rows: 0,
                    width: 1,
                },
                words: Vec::new(alloc),
                heads: Vec::new(alloc),
            },
        }
    }

    // Whether it has bits.
    #[inline]
    fn is_made(&self) -> bool {
        self.is_made
    }

    /// The lookup's bytes.
    #[inline]
    pub fn lookup(&self) -> &'a [u8]
        ensures { result.now ≡ self.now }
    {
        self.lookup
    }

    /// The number from which on it begins at no glyph, as a lookup of GSUB or of GPOS. It isn't
    /// known where it has no bits, or those of the other table.
    pub(crate) fn end_of_heads(&self, of_gpos: bool) -> Option<usize>
        ensures { IfSome result (λ end. (glyph : ℕ) → end ≤ glyph →
            BeginsNot of_gpos self.now glyph) }
    {
        if of_gpos != self.of_gpos || !self.is_made {
            return None;
        }
        Some(usize::from(self.grid.first) + self.grid.rows as usize)
    }

    /// Sets the lookup's bit in the rows of the glyphs that it may begin at, as a lookup of GSUB or
    /// of GPOS. It can't where it has no bits, those of the other table, or such a glyph has no
    /// row.
    pub(crate) fn mark_rows(&self, of_gpos: bool, words: &mut [u64], index: usize) -> bool
        requires { index < 128 }
        ensures grown { Grown words.old words.new }
        ensures out { result ≡ true → (glyph : ℕ) → row_bit words.new glyph index ≡ 0 →
            BeginsNot of_gpos self.now glyph }
    {
        if of_gpos != self.of_gpos || !self.is_made {
            return false;
        }
        mark_column(words, index, self.grid.first, &self.heads)
    }

    /// The first subtable from one on that may begin at a glyph.
    #[inline]
    pub fn next(&self, of_gpos: bool, glyph: u16, from: u16) -> Option<u16>
        ensures within { IfSome result (λ next. (from ≤ next) × (next < subtables_in self.now)) }
        ensures passed { NoneStarts of_gpos self.now glyph from
            (unwrap_or result (subtables_in self.now)) }
    {
        if from >= self.count {
            return None;
        }
        if of_gpos != self.of_gpos || !self.is_made {
            return Some(from);
        }
        if !self.grid.has_row(glyph) {
            return None;
        }
        let row = self.grid.place(glyph, 0);
        let (from, end) = (row + usize::from(from), row + usize::from(self.count));
        let place = first_bit(&self.words, from, end);
        if place < end {
            Some((place - row) as u16)
        } else {
            None
        }
    }

    /// The first place of a text, from one on, where a subtable may begin at a glyph with a bit of
    /// a mask; the text's length, if there is none.
    #[inline]
    pub fn next_place(
        &self,
        of_gpos: bool,
        mask: u32,
        glyphs: &[hb_glyph_info_t],
        from: usize,
    ) -> usize
        ensures behind { min from (length glyphs.now) ≤ result }
        ensures within { result ≤ length glyphs.now }
        ensures passed { ArePassed of_gpos self.now mask glyphs.now from result }
    {
        if of_gpos != self.of_gpos || !self.is_made {
            return masked_place(mask, glyphs, from);
        }
        headed_place(self.grid.first, &self.heads, mask, glyphs, from)
    }
}

// The first subtable from one on that begins at a glyph, by its bytes. (Apart from the walks, which
// ask bits where a face is prepared.)
#[inline(never)]
fn search_start(of_gpos: bool, lookup: &[u8], glyph: u16, from: u16) -> Option<u16>
    ensures within { IfSome result (λ next. (from ≤ next) × (next < subtables_in lookup.now)) }
    ensures passed { NoneStarts of_gpos lookup.now glyph from
        (unwrap_or result (subtables_in lookup.now)) }
{
    for i in from..subtable_count(lookup) {
        if start(of_gpos, lookup, glyph, i).is_some() {
            return Some(i);
        }
    }
    None
}

// Whether a subtable may begin at a glyph, by its bytes.
fn is_start(of_gpos: bool, lookup: &[u8], glyph: u16) -> bool
    ensures { result ≡ false → NoneStarts of_gpos lookup.now glyph 0 (subtables_in lookup.now) }
{
    search_start(of_gpos, lookup, glyph, 0).is_some()
}

// The first place, from one on and before an end, whose glyph has a bit of a mask and this number;
// the end, if there is none.
#[inline]
fn first_of_number(
    only: u16,
    mask: u32,
    glyphs: &[hb_glyph_info_t],
    from: usize,
    end: usize,
) -> usize
    requires { end ≤ length glyphs.now }
    ensures behind { min from end ≤ result }
    ensures within { result ≤ end }
    ensures others { AreOthers only mask glyphs.now from result }
{
    for at in from..end {
        let glyph = &glyphs[at];
        if number(glyph) == only && glyph.mask & mask != 0 {
            return at;
        }
    }
    end
}

// The first place, from one on and before an end, whose glyph has a bit of a mask and is in a set;
// the end, if there is none. Most sets of rules have one glyph, which is compared without a search.
#[inline]
fn first_in_set(set: &[u8], mask: u32, glyphs: &[hb_glyph_info_t], from: usize, end: usize) -> usize
    requires { end ≤ length glyphs.now }
    ensures behind { min from end ≤ result }
    ensures within { result ≤ end }
    ensures out { AreOutside set.now mask glyphs.now from result }
{
    if is_of_one_glyph(set) {
        return first_of_number(u16_at(set, 4), mask, glyphs, from, end);
    }
    for at in from..end {
        let glyph = &glyphs[at];
        if glyph.mask & mask != 0 && coverage(set, number(glyph)).is_some() {
            return at;
        }
    }
    end
}

// The first place of a text, from one on, where a subtable may begin, by its bytes, at a glyph with
// a bit of a mask; the text's length, if there is none. (All glyphs are looked for in one set after
// another, since it takes longer to find a subtable's set than to look for a glyph there.)
fn search_place(
    of_gpos: bool,
    lookup: &[u8],
    mask: u32,
    glyphs: &[hb_glyph_info_t],
    from: usize,
) -> usize
    ensures behind { min from (length glyphs.now) ≤ result }
    ensures within { result ≤ length glyphs.now }
    ensures passed { ArePassed of_gpos lookup.now mask glyphs.now from result }
{
    let mut end = glyphs.len();
    for i in 0..subtable_count(lookup) {
        if end <= from {
            return end;
        }
        end = first_in_set(first_set(of_gpos, lookup, i), mask, glyphs, from, end);
    }
    end
}

/// A lookup's table, with the bits of its subtables, if it has them.
#[derive(Debug, Drop)]
pub struct LookupTable<'a> {
    bytes: &'a [u8],
    count: u16,
    starts: Option<&'a Starts<'a>>,
    pairs: &'a [PairTable<'a>],
    positions: &'a [PositionTable<'a>],
    substitutions: &'a [SubstitutionTable<'a>],
}

impl<'a> Model for LookupTable<'a> {
    ghost Value = { List ℕ };

    ghost view = { λ it. it.bytes.now };

    ghost invariant = { λ it. (it.count ≡ subtables_in it.bytes.now) ×
        (IfSome it.starts (λ starts. starts.now ≡ it.bytes.now) ×
        (ArePairTables it.bytes.now it.pairs.now ×
        (ArePositions it.bytes.now it.positions.now ×
        AreSubtables it.bytes.now it.substitutions.now))) };
}

impl<'a> LookupTable<'a> {
    /// A table without bits: each question is a search in its bytes.
    #[inline]
    pub fn of(bytes: &'a [u8]) -> Self
        ensures { result ≡ bytes.now }
    {
        LookupTable {
            bytes,
            count: subtable_count(bytes),
            starts: None,
            pairs: &[],
            positions: &[],
            substitutions: &[],
        }
    }

    /// A table with bits, if these were made.
    #[inline]
    pub fn prepared(starts: &'a Starts<'a>) -> Self
        ensures { result ≡ starts.now }
    {
        let bytes = starts.lookup();
        if !starts.is_made() {
            return Self::of(bytes);
        }
        LookupTable {
            bytes,
            count: starts.count,
            starts: Some(starts),
            pairs: &[],
            positions: &[],
            substitutions: &[],
        }
    }

    /// The same with tables of its subtables.
    #[inline]
    pub fn with_tables(self, tables: &'a SubtableTables<'a>) -> Self
        requires { tables.now ≡ self }
        ensures { result ≡ self.entry }
    {
        LookupTable {
            pairs: tables.pairs(),
            positions: tables.positions(),
            substitutions: tables.substitutions(),
            ..self
        }
    }

    /// A subtable of a lookup of GSUB, with its table, if it has one.
    // (each place of a lookup asks this, for which a call is long)
    #[inline(always)]
    pub fn subtable(&self, i: u16) -> SubtableRef<'a>
        ensures kind { result.kind ≡ (nth_subtable self.now i).kind }
        ensures bytes { result.bytes.now ≡ (nth_subtable self.now i).bytes }
    {
        match self.substitutions.get(usize::from(i)) {
            Some(table) => table.as_subtable(),
            None => SubtableRef::of(self.bytes, i),
        }
    }

    /// A subtable of a lookup of GPOS, with tables of its sets, if it has them.
    #[inline]
    pub fn position(&self, i: u16) -> PositionRef<'a>
        ensures kind { result.kind ≡ (nth_position self.now i).kind }
        ensures bytes { result.bytes.now ≡ (nth_position self.now i).bytes }
    {
        match self.positions.get(usize::from(i)) {
            Some(table) => table.as_position(),
            None => PositionRef::of(self.bytes, i),
        }
    }

    /// A subtable of pairs of a lookup of GPOS, if it has tables.
    #[inline]
    pub fn pair_table(&self, i: u16) -> Option<&'a PairTable<'a>>
        ensures { IfSome result (λ table.
            (type_in 9 self.now i ≡ 2) × (table.now ≡ subtable_in 9 self.now i)) }
    {
        self.pairs.get(usize::from(i))
    }

    /// Its bytes.
    #[inline]
    pub fn bytes(&self) -> &'a [u8]
        ensures { result.now ≡ self.now }
    {
        self.bytes
    }

    /// Whether a subtable may begin at a glyph, of a lookup of GSUB or of GPOS.
    #[inline]
    pub fn may_begin(&self, of_gpos: bool, glyph: u16) -> bool
        ensures { result ≡ false → NoneStarts of_gpos self.now glyph 0 (subtables_in self.now) }
    {
        match self.starts {
            Some(starts) => starts.next(of_gpos, glyph, 0).is_some(),
            None => is_start(of_gpos, self.bytes, glyph),
        }
    }

    /// How many subtables it has.
    #[inline]
    pub fn count(&self) -> u16
        ensures { result ≡ subtables_in self.now }
    {
        self.count
    }

    /// How many operations it takes to apply the lookup for a rule.
    #[inline]
    pub fn operations(&self) -> usize
        ensures { result ≡ operations_in self.now }
    {
        1 + usize::from(self.count) / 4
    }

    /// The next subtable from one on that is to be tried at a glyph; those between don't begin
    /// there. (A single one is quickly tried.)
    #[inline]
    pub fn next_start(&self, of_gpos: bool, glyph: u16, from: u16) -> Option<u16>
        ensures within { IfSome result (λ next. (from ≤ next) × (next < subtables_in self.now)) }
        ensures passed { NoneStarts of_gpos self.now glyph from
            (unwrap_or result (subtables_in self.now)) }
    {
        if self.count == 1 && from == 0 {
            return Some(0);
        }
        if let Some(starts) = self.starts {
            return starts.next(of_gpos, glyph, from);
        }
        if from >= self.count {
            return None;
        }
        search_start(of_gpos, self.bytes, glyph, from)
    }

    /// The first place of a text, from one on, where a subtable may begin at a glyph with a bit of
    /// a mask; the text's length, if there is none. A table without bits is searched.
    #[inline]
    pub fn first_place(
        &self,
        of_gpos: bool,
        mask: u32,
        glyphs: &[hb_glyph_info_t],
        from: usize,
    ) -> usize
        ensures behind { min from (length glyphs.now) ≤ result }
        ensures within { result ≤ length glyphs.now }
        ensures passed { ArePassed of_gpos self.now mask glyphs.now from result }
    {
        match self.starts {
            Some(starts) => starts.next_place(of_gpos, mask, glyphs, from),
            None => search_place(of_gpos, self.bytes, mask, glyphs, from),
        }
    }

    /// The next place of a list of glyphs, from one on, that is to be tried; a lookup with this mask
    /// begins at none before it. A table without bits isn't searched.
    #[inline]
    pub fn next_place_in(
        &self,
        of_gpos: bool,
        mask: u32,
        glyphs: &[hb_glyph_info_t],
        from: usize,
    ) -> usize
        ensures behind { min from (length glyphs.now) ≤ result }
        ensures within { result ≤ length glyphs.now }
        ensures passed { ArePassed of_gpos self.now mask glyphs.now from result }
    {
        match self.starts {
            Some(starts) => starts.next_place(of_gpos, mask, glyphs, from),
            None => masked_place(mask, glyphs, from),
        }
    }

    /// The next place of a text, from one on, that is to be tried; a lookup with this mask begins at
    /// none before it. (It runs along one part of the text after the other, since a glyph of a list is
    /// reached faster than one of a text.)
    #[inline]
    pub fn next_place(&self, of_gpos: bool, mask: u32, glyphs: &GlyphView<'_>, from: usize) -> usize
        ensures behind { min from (length glyphs.now) ≤ result }
        ensures within { result ≤ length glyphs.now }
        ensures passed { ArePassed of_gpos self.now mask glyphs.now from result }
    {
        let (before, behind) = glyphs.parts();
        let place = self.next_place_in(of_gpos, mask, before, from);
        if place < before.len() {
            return place;
        }
        let from = from.saturating_sub(before.len());
        before.len() + self.next_place_in(of_gpos, mask, behind, from)
    }
}

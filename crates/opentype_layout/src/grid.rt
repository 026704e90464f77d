//! A bit for each glyph and each subtable of a lookup.
ghost use Rattle.std.specs.Prelude.{◌≡◌, ◌<◌, ◌≤◌, ◌+◌, ◌*◌, ◌^◌, ℕ, true, length, None};
ghost use Rattle.opentype_face.specs.Glyphs.{ranges_in};
ghost use Rattle.opentype_face.specs.Lookups.{subtables_in};
ghost use Rattle.opentype_layout.specs.Bits.{Grown, bit_in};
ghost use Rattle.opentype_layout.specs.Starts.{HasRoom, LeavesOut, LeavesRange, has_row, place_in, starting};

use crate::bits::set_bit;
use crate::sets::{GlyphRange, first_set, nth_range, ranges};
use opentype_face::lookup::subtable_count;
use opentype_face::ranges::Ranges;

/// A row of bits for each glyph from a first one on.
#[derive(Clone, Copy, Debug)]
pub(crate) struct Grid {
    /// The glyph of the first row.
    pub first: u16,
    /// How many rows there are.
    pub rows: u32,
    /// How many bits a row has.
    pub width: u32,
}

// How many bits a row of so many columns has: a power of two or whole words, so that up to 64
// columns are in one word.
fn row_width(columns: u16) -> u32
    ensures wide { columns ≤ result }
    ensures few { result ≤ 65536 }
{
    if columns > 64 {
        return u32::from(columns).div_ceil(64) * 64;
    }
    u32::from(columns).next_power_of_two()
}

// Sets the bits of a column in the rows from one on.
fn mark_rows(words: &mut [u64], width: usize, i: usize, from: usize, end: usize)
    requires column { i < width }
    requires room { end * width ≤ 64 * length words.old }
    requires few { end * width < 2 ^ 56 }
    ensures grown { Grown words.old words.new }
    ensures marked { (row : ℕ) → from ≤ row → row < end → bit_in words.new (row * width + i) ≡ 1 }
{
    for row in from..end {
        set_bit(words, row * width + i);
    }
}

impl Grid {
    /// A row of so many columns for each glyph of a range.
    pub(crate) fn of(span: &GlyphRange, columns: u16) -> Self
        ensures wide { columns ≤ result.width }
        ensures narrow { result.width ≤ 65536 }
    {
        let rows = if span.from <= span.to {
            u32::from(span.to - span.from) + 1
        } else {
            0
        };
        Grid {
            first: span.from,
            rows,
            width: row_width(columns),
        }
    }

    /// How many words the bits take.
    pub(crate) fn word_count(&self) -> usize
        ensures { self.now.rows * self.now.width ≤ 64 * result }
    {
        // (the product may have more than 32 bits)
        (u64::from(self.rows) * u64::from(self.width)).div_ceil(64) as usize
    }

    /// Whether a glyph has a row.
    #[inline]
    pub(crate) fn has_row(&self, glyph: u16) -> bool
        ensures { result ≡ has_row self.now glyph }
    {
        glyph >= self.first && u32::from(glyph - self.first) < self.rows
    }

    /// The place of a bit.
    #[inline]
    pub(crate) fn place(&self, glyph: u16, i: u16) -> usize
        ensures { result ≡ place_in self.now glyph i }
    {
        usize::from(glyph.saturating_sub(self.first)) * self.width as usize + usize::from(i)
    }

    // Sets a subtable's bits of the glyphs of a range, if they all have a row.
    fn mark_range(&self, words: &mut [u64], i: u16, range: GlyphRange) -> bool
        requires column { i < self.now.width }
        requires room { HasRoom self.now words.old }
        ensures grown { Grown words.old words.new }
        ensures out { result ≡ true → LeavesRange self.now words.new i range.from range.to }
    {
        if range.to < range.from {
            return true;
        }
        if !self.has_row(range.from) || !self.has_row(range.to) {
            return false;
        }
        let from = usize::from(range.from - self.first);
        let end = usize::from(range.to - self.first) + 1;
        mark_rows(words, self.width as usize, usize::from(i), from, end);
        true
    }

    // The same for several ranges, if they have no more glyphs than there are rows.
    fn mark_ranges(&self, words: &mut [u64], i: u16, ranges: &Ranges<'_>) -> bool
        requires column { i < self.now.width }
        requires room { HasRoom self.now words.old }
        ensures grown { Grown words.old words.new }
        ensures out { result ≡ true → LeavesOut self.now words.new i (λ glyph.
            let it = ranges.now in
            ranges_in it.bytes.now it.first it.last it.size it.count glyph ≡ None) }
    {
        let mut left = self.rows;
        for j in 0..ranges.count {
            let range = nth_range(ranges, j);
            let size = u32::from(range.to.saturating_sub(range.from));
            if size >= left || !self.mark_range(words, i, range) {
                return false;
            }
            left -= size;
        }
        true
    }

    /// Sets the bits of a lookup's subtables, if all glyphs that they begin with have a row.
    pub(crate) fn mark_lookup(&self, words: &mut [u64], of_gpos: bool, lookup: &[u8]) -> bool
        requires columns { subtables_in lookup.now ≤ self.now.width }
        requires room { HasRoom self.now words.old }
        ensures len { length words.new ≡ length words.old }
        ensures out { result ≡ true → (i : ℕ) → i < subtables_in lookup.now →
            LeavesOut self.now words.new i (λ glyph. starting of_gpos lookup.now glyph i ≡ None) }
    {
        for i in 0..subtable_count(lookup) {
            if !self.mark_ranges(words, i, &ranges(first_set(of_gpos, lookup, i))) {
                return false;
            }
        }
        true
    }
}

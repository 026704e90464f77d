//! A row of bits for each glyph: the lookups of GSUB, or of GPOS, that may begin at the glyph.
ghost use Rattle.std.specs.Prelude.{◌≡◌, ◌<◌, ◌+◌, ℕ, length, true, min, slice_index, IfSome};
ghost use Rattle.opentype_layout.specs.Bits.{Grown, bit_in};
ghost use Rattle.opentype_layout.specs.LookupRows.{AreMarked, AreRows, AreUnset, lookup_bit, row_bit};
ghost use Rattle.opentype_layout.specs.Starts.{AreStarts};

use crate::bits::{first_bit, set_bit};
use crate::sight::number;
use crate::starts::Starts;
use crate::tables::lookup_count;
use shapers_buffer::buffer::hb_glyph_info_t;
use std::alloc::Global;

/// Sets a lookup's bit in the rows of the glyphs from a first one on whose own bits are set, if
/// they all have a row.
pub(crate) fn mark_column(words: &mut [u64], index: usize, first: u16, heads: &[u64]) -> bool
    requires { index < 128 }
    ensures grown { Grown words.old words.new }
    ensures out { result ≡ true → (k : ℕ) → row_bit words.new (first + k) index ≡ 0 →
        bit_in heads.now k ≡ 0 }
{
    // (a glyph's number has 16 bits)
    if heads.len() > 1024 {
        return false;
    }
    let end = heads.len() * 64;
    let mut k = first_bit(heads, 0, end);
    while k < end {
        let place = (usize::from(first) + k) * 128 + index;
        if place / 64 >= words.len() {
            return false;
        }
        set_bit(words, place);
        k = first_bit(heads, k + 1, end);
    }
    true
}

// How many words the rows take, two for each glyph up to the last one that a lookup may begin at,
// if that is known of all.
fn word_count(of_gpos: bool, starts: &[Starts<'_>]) -> Option<usize> {
    let mut rows = 0;
    for lookup in starts {
        rows = lookup.end_of_heads(of_gpos)?.max(rows);
    }
    Some(rows.saturating_mul(2))
}

// Sets the bits of the first 128 lookups, if all can be set.
fn mark_rows(of_gpos: bool, words: &mut [u64], starts: &[Starts<'_>]) -> bool
    ensures len { length words.new ≡ length words.old }
    ensures out { result ≡ true →
        AreMarked of_gpos starts.now words.new (min (length starts.now) 128) }
{
    for index in 0..starts.len().min(128) {
        if !starts[index].mark_rows(of_gpos, words, index) {
            return false;
        }
    }
    true
}

/// The rows of a table, if each of its lookups has bits, and memory and a budget suffice.
pub(crate) fn lookup_rows(
    alloc: Global,
    of_gpos: bool,
    bytes: &[u8],
    starts: &[Starts<'_>],
    budget: &mut usize,
) -> Option<Vec<u64>>
    requires { AreStarts bytes.now starts.now }
    ensures { IfSome result (λ words. AreRows of_gpos bytes.now words.items) }
{
    if starts.len() != usize::from(lookup_count(bytes)) {
        return None;
    }
    let size = word_count(of_gpos, starts)?;
    if size > *budget / 8 {
        return None;
    }
    *budget -= size * 8;
    let Ok(mut words) = Vec::with_capacity(alloc, size) else {
        return None;
    };
    if words.resize(size, 0u64).is_err() {
        return None;
    }
    if mark_rows(of_gpos, &mut words, starts) {
        Some(words)
    } else {
        None
    }
}

/// A bit for each of the first 128 lookups.
#[derive(Clone, Copy, Debug)]
pub struct LookupBits {
    /// Those of the first 64.
    pub low: u64,
    /// Those of the others.
    pub high: u64,
}

// The word at a place; 0 behind the last one.
#[inline]
fn word_at(words: &[u64], at: usize) -> u64
    ensures { result ≡ slice_index words.now at }
{
    if at < words.len() { words[at] } else { 0 }
}

// These bits, and those of a glyph's row.
#[inline]
fn with_row(bits: LookupBits, words: &[u64], glyph: u16) -> LookupBits
    ensures kept { (index : ℕ) → index < 128 → lookup_bit result index ≡ 0 →
        lookup_bit bits index ≡ 0 }
    ensures row { (index : ℕ) → index < 128 → lookup_bit result index ≡ 0 →
        row_bit words.now glyph index ≡ 0 }
{
    let at = usize::from(glyph) * 2;
    if at + 1 >= words.len() {
        return LookupBits {
            low: bits.low | word_at(words, at),
            high: bits.high,
        };
    }
    LookupBits {
        low: bits.low | words[at],
        high: bits.high | words[at + 1],
    }
}

/// The bits of the rows of a text's glyphs, or-ed together.
#[inline]
pub(crate) fn rows_of(words: &[u64], glyphs: &[hb_glyph_info_t]) -> LookupBits
    ensures { AreUnset words.now result glyphs.now (length glyphs.now) }
{
    let mut bits = LookupBits { low: 0, high: 0 };
    for glyph in glyphs {
        bits = with_row(bits, words, number(glyph));
    }
    bits
}

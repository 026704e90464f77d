//! A bit for each glyph that a lookup may begin at.
ghost use Rattle.std.specs.Prelude.{◌≡◌, ◌<◌, ◌≤◌, ◌+◌, ◌*◌, ◌^◌, ℕ, false, length, min, IfSome};
ghost use Rattle.opentype_layout.specs.Bits.{Grown, IsClear, bit_in};
ghost use Rattle.opentype_layout.specs.Starts.{AreBare, AreUnmasked, HasRoom, IsBare};

use crate::bits::{first_bit, is_set, set_bit};
use crate::grid::Grid;
use crate::sight::number;
use shapers_buffer::buffer::hb_glyph_info_t;
use std::alloc::Global;

// Sets the bit of a row, if one of its columns has one.
#[inline]
fn mark_head(heads: &mut [u64], row: usize, words: &[u64], from: usize, end: usize)
    requires heads { row < 64 * length heads.old }
    requires room { end ≤ 64 * length words.now }
    requires few { end < 2 ^ 56 }
    requires in_order { from ≤ end }
    ensures grown { Grown heads.old heads.new }
    ensures out { bit_in heads.new row ≡ 0 → IsClear words.now from end }
{
    if first_bit(words, from, end) < end {
        set_bit(heads, row);
    }
}

// Sets the bits of the rows of a grid that have a bit in one of so many columns.
fn mark_heads(heads: &mut [u64], grid: &Grid, words: &[u64], count: u16)
    requires wide { count ≤ grid.now.width }
    requires narrow { grid.now.width ≤ 65536 }
    requires room { HasRoom grid.now words.now }
    requires heads { grid.now.rows ≤ 64 * length heads.old }
    ensures len { length heads.new ≡ length heads.old }
    ensures out { (row : ℕ) → row < grid.now.rows → bit_in heads.new row ≡ 0 →
        IsClear words.now (row * grid.now.width) (row * grid.now.width + count) }
{
    for row in 0..grid.rows as usize {
        let from = row * grid.width as usize;
        mark_head(heads, row, words, from, from + usize::from(count));
    }
}

/// The bits of the rows of a grid that have a bit in one of so many columns, if memory and a budget
/// suffice.
pub(crate) fn heads_of(
    alloc: Global,
    grid: &Grid,
    words: &[u64],
    count: u16,
    budget: &mut usize,
) -> Option<Vec<u64>>
    requires wide { count ≤ grid.now.width }
    requires narrow { grid.now.width ≤ 65536 }
    requires room { HasRoom grid.now words.now }
    ensures { IfSome result (λ heads. (row : ℕ) → row < grid.now.rows → bit_in heads.items row ≡ 0 →
        IsClear words.now (row * grid.now.width) (row * grid.now.width + count)) }
{
    let size = (grid.rows as usize).div_ceil(64);
    if size > *budget / 8 {
        return None;
    }
    *budget -= size * 8;
    let Ok(mut heads) = Vec::with_capacity(alloc, size) else {
        return None;
    };
    if heads.resize(size, 0u64).is_err() {
        return None;
    }
    mark_heads(&mut heads, grid, words, count);
    Some(heads)
}

// Whether a glyph has a bit of a mask, and one of its own.
#[inline]
fn is_headed(first: u16, heads: &[u64], mask: u32, glyph: &hb_glyph_info_t) -> bool
    ensures { result ≡ false → IsBare first heads.now mask glyph.now }
{
    if glyph.mask & mask == 0 {
        return false;
    }
    let number = number(glyph);
    number >= first && is_set(heads, usize::from(number - first))
}

/// The first place of a text, from one on, whose glyph has a bit of a mask, and one of its own; the
/// text's length, if there is none.
#[inline]
pub(crate) fn headed_place(
    first: u16,
    heads: &[u64],
    mask: u32,
    glyphs: &[hb_glyph_info_t],
    from: usize,
) -> usize
    ensures behind { min from (length glyphs.now) ≤ result }
    ensures within { result ≤ length glyphs.now }
    ensures passed { AreBare first heads.now mask glyphs.now from result }
{
    for at in from..glyphs.len() {
        if is_headed(first, heads, mask, &glyphs[at]) {
            return at;
        }
    }
    glyphs.len()
}

/// The first place of a text, from one on, whose glyph has a bit of a mask; the text's length, if
/// there is none.
pub(crate) fn masked_place(mask: u32, glyphs: &[hb_glyph_info_t], from: usize) -> usize
    ensures behind { min from (length glyphs.now) ≤ result }
    ensures within { result ≤ length glyphs.now }
    ensures passed { AreUnmasked mask glyphs.now from result }
{
    for at in from..glyphs.len() {
        if glyphs[at].mask & mask != 0 {
            return at;
        }
    }
    glyphs.len()
}

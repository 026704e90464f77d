//! The first pass over a text whose marks stretch: whether all its numbers fit, and how many cells
//! it gains. A sequence takes one step for each of its tiles, and none for a copy.
ghost use Rattle.std.specs.Prelude.{◌≡◌, ◌≤◌, ◌<◌, ◌+◌, ◌^◌, ◌*◌, ◌≤ℤ◌, ◌*ℤ◌, ◌-ℤ◌, ◌&&◌, [], ◌∷◌, true, pos, negsuc, MatchOption, length, replicate};
ghost use Rattle.std.specs.List.{AllByRecursion, zip};
ghost use Rattle.shapers_stretch.specs.CountingWalk.{CountsAdded, IsCounted, IsLay, IsNumber, WalksPen, moves_of, offsets_fit, last_at, pen_behind, sequence_added, sequence_moves, stands_at};
ghost use Rattle.shapers_stretch.specs.Measure.{fits_i32};
ghost use Rattle.shapers_stretch.specs.Stretch.{Laying, measured, overflows};

use super::measuring::{Lay, advance_of, fits_i32, lay_of, measure};
use super::parts::{last_part, repeats};
use shapers_base::buffer::{GlyphPosition, hb_glyph_info_t};
use shapers_base::font::hb_font_t;
use shapers_base::plan::StretchStart;

/// How many cells a text has more when it is stretched, unless one of its numbers doesn't fit 32
/// bits.
#[inline]
pub(super) fn count_added<F: hb_font_t>(
    font: &F,
    choice: StretchStart,
    right_to_left: bool,
    glyphs: &[hb_glyph_info_t],
    positions: &[GlyphPosition],
) -> Option<u128>
    requires both { length glyphs.now ≡ length positions.now }
    requires numbers { AllByRecursion (λ g. g.glyph_id ≤ 65535) glyphs.now }
    ensures { let how : Laying =
        record { font = F.font font.now; choice = choice; right_to_left = right_to_left } in
        CountsAdded how (zip glyphs.now positions.now) result }
{
    let mut added = 0;
    let mut end = glyphs.len();
    while 0 < end {
        let last = count_last(
            font,
            choice,
            right_to_left,
            &glyphs[..end],
            &positions[..end],
        )?;
        added += last.added as u128;
        end = last.start;
    }
    Some(added)
}

// Where the last part of a text begins, and how many cells it gains.
#[derive(Clone, Copy)]
struct Counted {
    start: usize,
    added: usize,
}

// Counts the last part of a text, unless one of its numbers doesn't fit 32 bits.
#[inline]
fn count_last<F: hb_font_t>(
    font: &F,
    choice: StretchStart,
    right_to_left: bool,
    glyphs: &[hb_glyph_info_t],
    positions: &[GlyphPosition],
) -> Option<Counted>
    requires some { 0 < length glyphs.now }
    requires both { length glyphs.now ≡ length positions.now }
    requires numbers { AllByRecursion (λ g. g.glyph_id ≤ 65535) glyphs.now }
    ensures { let how : Laying =
        record { font = F.font font.now; choice = choice; right_to_left = right_to_left } in
        let cs = zip glyphs.now positions.now in
        MatchOption result (overflows how cs ≡ true) (λ c. IsCounted how cs c.start c.added
        × (c.start < length glyphs.now) × (c.added < 2 ^ 31)) }
{
    let part = last_part(glyphs);
    let start = part.start;
    let tiles = &glyphs[part.tiles..];
    if tiles.is_empty() {
        return Some(Counted { start, added: 0 });
    }
    let word = &positions[part.word..part.tiles];
    let added = count_sequence(font, choice, right_to_left, word, tiles)?;
    Some(Counted { start, added })
}

// How many copies a sequence adds, unless one of its numbers doesn't fit 32 bits.
#[inline]
fn count_sequence<F: hb_font_t>(
    font: &F,
    choice: StretchStart,
    right_to_left: bool,
    word: &[GlyphPosition],
    tiles: &[hb_glyph_info_t],
) -> Option<usize>
    requires numbers { AllByRecursion (λ g. g.glyph_id ≤ 65535) tiles.now }
    ensures added { let z = measured (F.font font.now) word.now tiles.now in
        result ≡ sequence_added choice right_to_left (F.font font.now) z tiles.now }
    ensures bound { MatchOption result (0 ≤ 0) (λ n. n < 2 ^ 31) }
{
    let sequence = measure(font, word, tiles)?;
    let lay = lay_of(choice, right_to_left, sequence)?;
    if offsets_fit(font, right_to_left, lay, tiles) {
        Some(lay.added * sequence.repeaters)
    } else {
        None
    }
}

// Whether the offsets of all copies of a sequence fit 32 bits.
#[inline]
fn offsets_fit<F: hb_font_t>(
    font: &F,
    right_to_left: bool,
    lay: Lay,
    tiles: &[hb_glyph_info_t],
) -> bool
    requires lay { IsLay lay }
    requires numbers { AllByRecursion (λ g. g.glyph_id ≤ 65535) tiles.now }
    ensures { result ≡ offsets_fit right_to_left lay.start
        (sequence_moves (F.font font.now) lay tiles.now) }
{
    let mut pen = lay.start;
    let mut left = tiles.len();
    while 0 < left {
        left -= 1;
        match behind_tile(font, right_to_left, lay, pen, &tiles[left]) {
            Some(behind) => pen = behind,
            None => return false,
        }
    }
    true
}

// Where the pen is behind the copies of a tile, unless an offset of theirs doesn't fit 32 bits.
#[inline]
fn behind_tile<F: hb_font_t>(
    font: &F,
    right_to_left: bool,
    lay: Lay,
    pen: i64,
    tile: &hb_glyph_info_t,
) -> Option<i64>
    requires lay { IsLay lay }
    requires pen { IsNumber pen }
    requires number { tile.now.glyph_id ≤ 65535 }
    ensures { WalksPen right_to_left pen (moves_of (F.font font.now) lay tile.now) result }
{
    let width = advance_of(font, tile);
    let behind = behind_copy(right_to_left, pen, i64::from(width))?;
    if !repeats(tile) {
        return Some(behind);
    }
    behind_copies(right_to_left, behind, step_of(width, lay), lay.added)
}

// How far each added copy of a tile moves the pen.
#[inline]
fn step_of(width: i32, lay: Lay) -> i64
    requires { IsLay lay }
    ensures value { result ≡ width -ℤ lay.overlap }
    ensures low { negsuc (2 ^ 36) ≤ℤ result }
    ensures high { result ≤ℤ pos (2 ^ 36) }
{
    i64::from(width) - lay.overlap
}

// Where the pen is behind a copy that moves it so far, unless the copy's offset doesn't fit 32
// bits.
#[inline]
fn behind_copy(right_to_left: bool, pen: i64, step: i64) -> Option<i64>
    requires pen { IsNumber pen }
    requires low { negsuc (2 ^ 36) ≤ℤ step }
    requires high { step ≤ℤ pos (2 ^ 36) }
    ensures { WalksPen right_to_left pen (step ∷ []) result }
{
    if fits_i32(first_offset(right_to_left, pen, step)) {
        Some(moved(right_to_left, pen, step))
    } else {
        None
    }
}

// The same behind so many copies that each move the pen so far: they stand at equal distances, so
// that the first and the last tell.
#[inline]
fn behind_copies(right_to_left: bool, pen: i64, step: i64, count: usize) -> Option<i64>
    requires pen { IsNumber pen }
    requires low { negsuc (2 ^ 36) ≤ℤ step }
    requires high { step ≤ℤ pos (2 ^ 36) }
    requires far_low { negsuc (3 * 2 ^ 61) ≤ℤ (pos count *ℤ step) }
    requires far_high { (pos count *ℤ step) ≤ℤ pos (3 * 2 ^ 61) }
    requires count { count ≤ 2 ^ 31 }
    ensures { WalksPen right_to_left pen (replicate count step) result }
{
    if count == 0 {
        return Some(pen);
    }
    let behind = moved(right_to_left, pen, product(count, step));
    if ends_fit(right_to_left, pen, behind, step) {
        Some(behind)
    } else {
        None
    }
}

// Whether the offsets of the first and the last of copies at equal distances fit 32 bits.
#[inline]
fn ends_fit(right_to_left: bool, pen: i64, behind: i64, step: i64) -> bool
    requires pen { IsNumber pen }
    requires low { negsuc (2 ^ 36) ≤ℤ step }
    requires high { step ≤ℤ pos (2 ^ 36) }
    requires behind_low { negsuc (7 * 2 ^ 60) ≤ℤ behind }
    requires behind_high { behind ≤ℤ pos (7 * 2 ^ 60) }
    ensures { result ≡ (fits_i32 (stands_at right_to_left pen step)
        && fits_i32 (last_at right_to_left behind step)) }
{
    fits_i32(first_offset(right_to_left, pen, step))
        && fits_i32(last_offset(right_to_left, behind, step))
}

// The offset of the first of such copies.
#[inline]
fn first_offset(right_to_left: bool, pen: i64, step: i64) -> i64
    requires pen { IsNumber pen }
    requires low { negsuc (2 ^ 36) ≤ℤ step }
    requires high { step ≤ℤ pos (2 ^ 36) }
    ensures { result ≡ stands_at right_to_left pen step }
{
    if right_to_left { pen - step } else { pen }
}

// The offset of the last of them.
#[inline]
fn last_offset(right_to_left: bool, behind: i64, step: i64) -> i64
    requires low { negsuc (2 ^ 36) ≤ℤ step }
    requires high { step ≤ℤ pos (2 ^ 36) }
    requires behind_low { negsuc (7 * 2 ^ 60) ≤ℤ behind }
    requires behind_high { behind ≤ℤ pos (7 * 2 ^ 60) }
    ensures { result ≡ last_at right_to_left behind step }
{
    if right_to_left { behind } else { behind - step }
}

// How far so many copies move the pen.
#[inline]
fn product(count: usize, step: i64) -> i64
    requires low { negsuc (3 * 2 ^ 61) ≤ℤ (pos count *ℤ step) }
    requires high { (pos count *ℤ step) ≤ℤ pos (3 * 2 ^ 61) }
    requires count { count ≤ 2 ^ 31 }
    ensures value { result ≡ pos count *ℤ step }
    ensures low { negsuc (3 * 2 ^ 61) ≤ℤ result }
    ensures high { result ≤ℤ pos (3 * 2 ^ 61) }
{
    count as i64 * step
}

/// Where the pen is when it has moved so far.
#[inline]
pub(super) fn moved(right_to_left: bool, pen: i64, move_by: i64) -> i64
    requires pen { IsNumber pen }
    requires low { negsuc (3 * 2 ^ 61) ≤ℤ move_by }
    requires high { move_by ≤ℤ pos (3 * 2 ^ 61) }
    ensures value { result ≡ pen_behind right_to_left pen move_by }
    ensures low { negsuc (7 * 2 ^ 60) ≤ℤ result }
    ensures high { result ≤ℤ pos (7 * 2 ^ 60) }
{
    if right_to_left {
        pen - move_by
    } else {
        pen + move_by
    }
}

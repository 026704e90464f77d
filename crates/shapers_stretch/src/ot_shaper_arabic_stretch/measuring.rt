//! The numbers of a sequence: what its word and tiles measure, how often the tiles repeat, and how
//! they are laid.
ghost use Rattle.std.specs.Prelude.{◌≡◌, ◌≤◌, ◌<◌, ◌^◌, ◌*◌, ◌<ℤ◌, ◌≤ℤ◌, ◌-ℤ◌, ◌-◌, nat_abs, [], ◌∷◌, if◌then◌else◌, neg_ℤ, pos, negsuc, ◌*ℤ◌, false, int_div, FitsSigned, IsTrue, MatchOption, length, map};
ghost use Rattle.std.specs.List.{list_all};
ghost use mir.Syntax.{w32};
ghost use Rattle.shapers_stretch.specs.Cells.{repeats};
ghost use Rattle.shapers_stretch.specs.Measure.{times_added, fits_i32, fitting, laid_width, left, overlap, tiles_reach, squeezes, start, total};
ghost use Rattle.shapers_stretch.specs.Stretch.{measured, width_of};
ghost use Rattle.shapers_stretch.specs.Lays.{MeasuresSequence, SequenceFits, lay_if_fits, start_if_fits};
ghost use Rattle.std.specs.List.{AllByRecursion};

use super::parts::repeats;
use shapers_base::buffer::{GlyphPosition, hb_glyph_info_t};
use shapers_base::font::{GlyphId, hb_font_t};
use shapers_base::plan::StretchStart;

/// What a sequence measures: the advance of its word, of its fixed and of its repeating tiles, and
/// how many tiles repeat.
#[derive(Clone, Copy)]
pub(super) struct TileSequence {
    pub(super) word: i64,
    pub(super) fixed: i64,
    pub(super) repeating: i64,
    pub(super) repeaters: usize,
}

/// How often the repeating tiles of a sequence are laid besides once, by how much each of these
/// copies overlaps the one before it, and where the first tile begins.
#[derive(Clone, Copy)]
pub(super) struct Lay {
    pub(super) added: usize,
    pub(super) overlap: i64,
    pub(super) start: i64,
}

// Whether a number fits 32 bits with a sign.
#[inline]
pub(super) fn fits_i32(x: i64) -> bool
    ensures value { result ≡ fits_i32 x }
    ensures fits { IsTrue result → FitsSigned w32 x }
{
    (-0x8000_0000..0x8000_0000).contains(&x)
}

/// What tiles and the word before them measure, unless a number of that doesn't fit 32 bits, or
/// what the fixed tiles leave of the word doesn't.
#[inline]
pub(super) fn measure<F: hb_font_t>(
    font: &F,
    word: &[GlyphPosition],
    tiles: &[hb_glyph_info_t],
) -> Option<TileSequence>
    requires { AllByRecursion (λ g. g.glyph_id ≤ 65535) tiles.now }
    ensures { MeasuresSequence (measured (F.font font.now) word.now tiles.now) result }
{
    if word.len() <= SHORT && tiles.len() <= SHORT {
        Some(measure_short(font, word, tiles))
    } else {
        measure_long(font, word, tiles)
    }
}

// The sum of so many numbers of 32 bits fits 64.
const SHORT: usize = 0x7FFF_FFFF;

// What few tiles and a short word before them measure, whose sums always fit.
#[inline]
fn measure_short<F: hb_font_t>(
    font: &F,
    word: &[GlyphPosition],
    tiles: &[hb_glyph_info_t],
) -> TileSequence
    requires word { length word.now < 2 ^ 31 }
    requires tiles { length tiles.now < 2 ^ 31 }
    requires numbers { AllByRecursion (λ g. g.glyph_id ≤ 65535) tiles.now }
    ensures { result ≡ measured (F.font font.now) word.now tiles.now }
{
    let word = short_advance(word);
    let mut fixed = 0;
    let mut repeating = 0;
    let mut repeaters = 0;
    for glyph in tiles {
        let width = i64::from(advance_of(font, glyph));
        if repeats(glyph) {
            repeating += width;
            repeaters += 1;
        } else {
            fixed += width;
        }
    }
    TileSequence {
        word,
        fixed,
        repeating,
        repeaters,
    }
}

// The same of any number of tiles, and a word of any length, piece by piece.
#[inline(never)]
fn measure_long<F: hb_font_t>(
    font: &F,
    word: &[GlyphPosition],
    tiles: &[hb_glyph_info_t],
) -> Option<TileSequence>
    requires { AllByRecursion (λ g. g.glyph_id ≤ 65535) tiles.now }
    ensures { MeasuresSequence (measured (F.font font.now) word.now tiles.now) result }
{
    let word = total_advance(word);
    let mut fixed = 0;
    let mut repeating = 0;
    let mut repeaters = 0;
    for piece in tiles.chunks(SHORT) {
        let measured = measure_short(font, &[], piece);
        fixed += i128::from(measured.fixed);
        repeating += i128::from(measured.repeating);
        repeaters += measured.repeaters;
    }
    Some(TileSequence {
        word: narrowed(word)?,
        fixed: narrowed(fixed)?,
        repeating: narrowed(repeating)?,
        repeaters,
    })
}

// A sum in 64 bits, unless it doesn't fit 32.
fn narrowed(sum: i128) -> Option<i64>
    ensures { MatchOption result (fits_i32 sum ≡ false) (λ x. x ≡ sum) }
{
    i64::try_from(sum).ok()
}

/// How far a glyph of the font moves the pen.
#[inline]
pub(super) fn advance_of<F: hb_font_t>(font: &F, glyph: &hb_glyph_info_t) -> i32
    requires { glyph.now.glyph_id ≤ 65535 }
    ensures { result ≡ width_of (F.font font.now) glyph.now }
{
    font.glyph_h_advance(GlyphId(u16::try_from(glyph.glyph_id).unwrap()))
}

// The advance of a short word.
#[inline]
fn short_advance(word: &[GlyphPosition]) -> i64
    requires { length word.now < 2 ^ 31 }
    ensures { result ≡ total (map (λ p. p.x_advance) word.now) }
{
    let mut sum = 0;
    for position in word {
        sum += i64::from(position.x_advance);
    }
    sum
}

// The advance of a word of any length, piece by piece.
fn total_advance(word: &[GlyphPosition]) -> i128
    ensures { result ≡ total (map (λ p. p.x_advance) word.now) }
{
    let mut sum = 0;
    for piece in word.chunks(SHORT) {
        sum += i128::from(short_advance(piece));
    }
    sum
}

/// How the sequence of these tiles behind this word is laid, unless one of its numbers doesn't fit
/// 32 bits.
#[inline]
pub(super) fn lay_of_sequence<F: hb_font_t>(
    font: &F,
    choice: StretchStart,
    right_to_left: bool,
    word: &[GlyphPosition],
    tiles: &[hb_glyph_info_t],
) -> Option<Lay>
    requires { AllByRecursion (λ g. g.glyph_id ≤ 65535) tiles.now }
    ensures { let z = measured (F.font font.now) word.now tiles.now in
        result ≡ lay_if_fits choice right_to_left z }
{
    let sequence = measure(font, word, tiles)?;
    lay_of(choice, right_to_left, sequence)
}

/// How a sequence is laid, unless one of its numbers doesn't fit 32 bits.
#[inline]
pub(super) fn lay_of(
    choice: StretchStart,
    right_to_left: bool,
    sequence: TileSequence,
) -> Option<Lay>
    ensures { result ≡ lay_if_fits choice right_to_left sequence }
{
    if !sequence_fits(sequence) {
        return None;
    }
    let rounds = rounds_of(sequence);
    if !added_fits(sequence, rounds.added) {
        return None;
    }
    let overlap = overlap(sequence, rounds);
    let start = start(choice, right_to_left, sequence, rounds, overlap)?;
    Some(Lay {
        added: rounds.added,
        overlap,
        start,
    })
}

// Whether what a sequence measures fits 32 bits, and what its fixed tiles leave of the word.
#[inline]
fn sequence_fits(sequence: TileSequence) -> bool
    ensures value { result ≡ list_all fits_i32 (sequence.word ∷ sequence.fixed ∷ sequence.repeating
        ∷ left sequence ∷ []) }
    ensures fits { IsTrue result → SequenceFits sequence }
{
    fits_i32(sequence.word)
        && fits_i32(sequence.fixed)
        && fits_i32(sequence.repeating)
        && fits_i32(sequence.word - sequence.fixed)
}

// How many times more the repeating tiles of a sequence fit into what is left.
#[tactic(auto, using(crate::proofs::Numbers::fit_yes, crate::proofs::Numbers::fit_room, crate::proofs::Numbers::fit_width))]
#[inline]
fn fitting(sequence: TileSequence) -> usize
    requires { SequenceFits sequence }
    ensures value { result ≡ fitting sequence }
    ensures bound { result < 2 ^ 31 }
{
    let left = left_of(sequence);
    if sequence.repeating < left && 0 < sequence.repeating {
        times_more(sequence, left)
    } else {
        0
    }
}

// The same where they do fit.
#[tactic(auto, using(crate::proofs::Numbers::quotient_abs))]
#[inline]
fn times_more(sequence: TileSequence, left: i64) -> usize
    requires fits { FitsSigned w32 left }
    requires some { pos 0 <ℤ sequence.repeating }
    requires room { sequence.repeating <ℤ left }
    ensures value { result ≡ nat_abs (int_div left sequence.repeating) - 1 }
    ensures bound { result < 2 ^ 31 }
{
    (left.unsigned_abs() / sequence.repeating.unsigned_abs()) as usize - 1
}

// How often the repeating tiles are laid besides once, and whether these copies overlap.
#[derive(Clone, Copy)]
struct Rounds {
    added: usize,
    squeezes: bool,
}

// How many times more they are laid, and whether that is so much that the copies overlap.
#[inline]
fn rounds_of(sequence: TileSequence) -> Rounds
    requires { SequenceFits sequence }
    ensures added { result.added ≡ times_added sequence }
    ensures bound { result.added ≤ 2 ^ 31 }
    ensures squeezes { result.squeezes ≡ squeezes sequence }
{
    let fitting = fitting(sequence);
    let left = sequence.word - sequence.fixed;
    if left <= tiles_reach(sequence, fitting) || sequence.repeaters == 0 {
        return Rounds {
            added: fitting,
            squeezes: false,
        };
    }
    let added = fitting + 1;
    Rounds {
        added,
        squeezes: 0 < excess(sequence, added),
    }
}

// How far the repeating tiles reach, laid once and these times more.
#[inline]
fn tiles_reach(sequence: TileSequence, added: usize) -> i64
    requires fits { SequenceFits sequence }
    requires bound { added ≤ 2 ^ 31 }
    ensures value { result ≡ tiles_reach sequence added }
    ensures low { negsuc (3 * 2 ^ 61) ≤ℤ result }
    ensures high { result ≤ℤ pos (3 * 2 ^ 61) }
{
    (added as i64 + 1) * sequence.repeating
}

// How far they then reach too far.
#[inline]
fn excess(sequence: TileSequence, added: usize) -> i64
    requires fits { SequenceFits sequence }
    requires bound { added ≤ 2 ^ 31 }
    ensures { result ≡ tiles_reach sequence added -ℤ left sequence }
{
    tiles_reach(sequence, added) - (sequence.word - sequence.fixed)
}

// How many copies that makes.
#[inline]
fn copies(sequence: TileSequence, added: usize) -> i64
    requires { added * sequence.repeaters < 2 ^ 31 }
    ensures { result ≡ pos (added * sequence.repeaters) }
{
    (added * sequence.repeaters) as i64
}

// Whether these numbers fit 32 bits.
#[inline]
fn added_fits(sequence: TileSequence, added: usize) -> bool
    requires fits { SequenceFits sequence }
    requires bound { added ≤ 2 ^ 31 }
    ensures value { result ≡ list_all fits_i32 (tiles_reach sequence added ∷ pos (added * sequence.repeaters)
        ∷ []) }
    ensures tiles_reach { IsTrue result → FitsSigned w32 (tiles_reach sequence added) }
{
    fits_i32(tiles_reach(sequence, added)) && few_copies(sequence, added)
}

// Whether the number of copies that this makes fits 32 bits.
#[inline]
fn few_copies(sequence: TileSequence, added: usize) -> bool
    ensures { result ≡ fits_i32 (pos (added * sequence.repeaters)) }
{
    added as u128 * (sequence.repeaters as u128) < 0x8000_0000
}

// By how much each added copy overlaps the one before it.
#[inline]
fn overlap(sequence: TileSequence, rounds: Rounds) -> i64
    requires fits { SequenceFits sequence }
    requires bound { rounds.added ≤ 2 ^ 31 }
    requires added { rounds.added ≡ times_added sequence }
    requires squeezes { rounds.squeezes ≡ squeezes sequence }
    requires tiles_reach { FitsSigned w32 (tiles_reach sequence rounds.added) }
    requires copies { rounds.added * sequence.repeaters < 2 ^ 31 }
    ensures value { result ≡ overlap sequence }
    ensures low { pos 0 ≤ℤ result }
    ensures high { result <ℤ pos (2 ^ 34) }
{
    if !rounds.squeezes {
        return 0;
    }
    quotient(
        excess(sequence, rounds.added),
        copies(sequence, rounds.added),
    )
}

// Where the first tile begins, unless a number of the choice doesn't fit 32 bits.
#[inline]
fn start(
    choice: StretchStart,
    right_to_left: bool,
    sequence: TileSequence,
    rounds: Rounds,
    shared: i64,
) -> Option<i64>
    requires fits { SequenceFits sequence }
    requires added { rounds.added ≡ times_added sequence }
    requires squeezes { rounds.squeezes ≡ squeezes sequence }
    requires bound { rounds.added ≤ 2 ^ 31 }
    requires tiles_reach { FitsSigned w32 (tiles_reach sequence rounds.added) }
    requires copies { rounds.added * sequence.repeaters < 2 ^ 31 }
    requires overlap { shared ≡ overlap sequence }
    requires low { pos 0 ≤ℤ shared }
    requires high { shared <ℤ pos (2 ^ 34) }
    ensures { result ≡ start_if_fits choice right_to_left sequence }
{
    match choice {
        StretchStart::AsCode => Some(start_as_code(sequence, rounds.squeezes)),
        StretchStart::Centred => centred_start(right_to_left, sequence, rounds.added, shared),
    }
}

// The first choice of a start.
#[inline]
fn start_as_code(sequence: TileSequence, shares: bool) -> i64
    requires fits { SequenceFits sequence }
    requires squeezes { shares ≡ squeezes sequence }
    ensures { result ≡ start StretchStart.AsCode false sequence }
{
    if shares { 0 } else { half(left_of(sequence)) }
}

// What the fixed tiles leave of the word.
#[inline]
fn left_of(sequence: TileSequence) -> i64
    requires fits { SequenceFits sequence }
    ensures { result ≡ left sequence }
{
    sequence.word - sequence.fixed
}

// The second choice: what is laid is centred on the word, unless its width, or the word less that
// width, doesn't fit 32 bits.
#[inline]
fn centred_start(
    right_to_left: bool,
    sequence: TileSequence,
    times: usize,
    shared: i64,
) -> Option<i64>
    requires fits { SequenceFits sequence }
    requires added { times ≡ times_added sequence }
    requires bound { times ≤ 2 ^ 31 }
    requires tiles_reach { FitsSigned w32 (tiles_reach sequence times) }
    requires copies { times * sequence.repeaters < 2 ^ 31 }
    requires overlap { shared ≡ overlap sequence }
    requires low { pos 0 ≤ℤ shared }
    requires high { shared <ℤ pos (2 ^ 34) }
    ensures { result ≡ start_if_fits StretchStart.Centred right_to_left sequence }
{
    let width = width_of_laid(sequence, times, shared);
    if !fits_i32(width) {
        return None;
    }
    let gap = gap(sequence, width);
    if !fits_i32(gap) {
        return None;
    }
    Some(along(right_to_left, half(gap)))
}

// How much wider the word is than what is laid.
#[inline]
fn gap(sequence: TileSequence, width: i64) -> i64
    requires word { SequenceFits sequence }
    requires width { FitsSigned w32 width }
    ensures { result ≡ sequence.word -ℤ width }
{
    sequence.word - width
}

// Half of a number.
#[inline]
fn half(x: i64) -> i64
    requires { FitsSigned w32 x }
    ensures value { result ≡ int_div x (pos 2) }
    ensures fits { FitsSigned w32 result }
{
    x / 2
}

// A number counted in the direction in which tiles follow one another.
#[inline]
fn along(right_to_left: bool, x: i64) -> i64
    requires { FitsSigned w32 x }
    ensures { result ≡ (if right_to_left then neg_ℤ x else x) }
{
    if right_to_left { -x } else { x }
}

// The width that is laid.
#[inline]
fn width_of_laid(sequence: TileSequence, times: usize, shared: i64) -> i64
    requires fits { SequenceFits sequence }
    requires added { times ≡ times_added sequence }
    requires bound { times ≤ 2 ^ 31 }
    requires tiles_reach { FitsSigned w32 (tiles_reach sequence times) }
    requires copies { times * sequence.repeaters < 2 ^ 31 }
    requires overlap { shared ≡ overlap sequence }
    requires low { pos 0 ≤ℤ shared }
    requires high { shared <ℤ pos (2 ^ 34) }
    ensures value { result ≡ laid_width sequence }
    ensures low { negsuc (2 ^ 36) <ℤ result }
    ensures high { result <ℤ pos (2 ^ 36) }
{
    sequence.fixed + tiles_reach(sequence, times) - shared_by(copies(sequence, times), shared)
}

// What so many copies overlap together.
#[inline]
fn shared_by(copies: i64, shared: i64) -> i64
    requires low { pos 0 ≤ℤ (copies *ℤ shared) }
    requires high { (copies *ℤ shared) ≤ℤ pos (2 ^ 34) }
    ensures { result ≡ copies *ℤ shared }
{
    copies * shared
}

// The quotient of a number by one above 0, rounded toward zero.
#[inline]
fn quotient(a: i64, b: i64) -> i64
    requires { pos 0 <ℤ b }
    ensures value { result ≡ int_div a b }
{
    a / b
}

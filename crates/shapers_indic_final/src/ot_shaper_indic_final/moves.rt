//! One glyph moved to the other end of a stretch, as a placement, and what merges with it.
ghost use Rattle.std.specs.Prelude.{◌≡◌, ◌+◌, ◌-◌, ◌^◌, ◌<◌, ◌≤◌, length};
ghost use Rattle.shapers_buffer.specs.Placements.{MayArrange, arranged};
ghost use Rattle.shapers_buffer.specs.declared.buffer.placement.Placement.TheVariants.{Forward, Stays};
ghost use Rattle.shapers_clusters.specs.Steps.{after_step, widened};
ghost use Rattle.shapers_indic_final.specs.FinalMatras.{matra_step};
ghost use Rattle.shapers_indic_final.specs.FinalMoveWalk.{matra_placements};
ghost use Rattle.shapers_indic_final.specs.FinalPref.{pref_move};
ghost use Rattle.shapers_indic_final.specs.FinalReph.{final_reph_step};

use shapers_base::buffer::{Placement, Placements, hb_buffer_t};

// Merges the syllable from `start` to `end`, moved so far, up to its place `target`, and moves its
// first glyph, the reph, there.
#[inline]
pub(super) fn move_reph(
    moves: Placements,
    buffer: &mut hb_buffer_t,
    start: usize,
    end: usize,
    target: usize,
) -> Placements
    requires fits { MayArrange moves start end (length buffer.old.glyphs) buffer.old.places }
    requires second { moves.second ≡ Stays }
    requires third { moves.third ≡ Stays }
    requires inside { start + target < end }
    ensures glyphs { let old = arranged moves start end buffer.old in
        let new = arranged result start end buffer.new in
        let step = widened start end (length old.glyphs) (final_reph_step (end - start) target) in
        new ≡ record old {
          glyphs = after_step old.level step old.glyphs;
          places = new.places;
        } }
    ensures fits { MayArrange result start end (length buffer.new.glyphs) buffer.new.places }
    ensures third { result.third ≡ Stays }
    ensures same_length { length buffer.new.glyphs ≡ length buffer.old.glyphs }
{
    buffer.merge_arranged(&moves, start, end, start, start + target + 1);
    Placements {
        first: moves.first,
        second: first_last(start, start + target + 1),
        third: moves.third,
    }
}

// Merges the syllable from `start` to `end`, moved so far, from its place `target` up to its place
// `from`, and moves the glyph of place `from`, which `pref` formed, to `target`.
#[inline]
pub(super) fn move_pref(
    moves: Placements,
    buffer: &mut hb_buffer_t,
    start: usize,
    end: usize,
    target: usize,
    from: usize,
) -> Placements
    requires fits { MayArrange moves start end (length buffer.old.glyphs) buffer.old.places }
    requires third { moves.third ≡ Stays }
    requires before { target ≤ from }
    requires inside { start + from < end }
    ensures glyphs { let old = arranged moves start end buffer.old in
        let new = arranged result start end buffer.new in
        let step = widened start end (length old.glyphs) (pref_move (end - start) target from) in
        new ≡ record old {
          glyphs = after_step old.level step old.glyphs;
          places = new.places;
        } }
    ensures fits { MayArrange result start end (length buffer.new.glyphs) buffer.new.places }
    ensures same_length { length buffer.new.glyphs ≡ length buffer.old.glyphs }
{
    buffer.merge_arranged(&moves, start, end, start + target, start + from + 1);
    Placements {
        first: moves.first,
        second: moves.second,
        third: last_first(start + target, start + from + 1),
    }
}

// Moves the glyph of place `matra` of the syllable from `start` to `end`, a left matra, to its
// place `target`, and merges from there up to its place `base_end`.
#[inline]
pub(super) fn move_matra(
    buffer: &mut hb_buffer_t,
    start: usize,
    end: usize,
    base_end: usize,
    matra: usize,
    target: usize,
) -> Placements
    requires before { matra ≤ target }
    requires base { target < base_end }
    requires in_order { start + base_end ≤ end }
    requires in_range { end ≤ length buffer.old.glyphs }
    ensures glyphs { let new = arranged result start end buffer.new in
        let step = matra_step (end - start) base_end matra target in
        let wide = widened start end (length buffer.old.glyphs) step in
        new ≡ record buffer.old {
          glyphs = after_step buffer.old.level wide buffer.old.glyphs;
          places = new.places;
        } }
    ensures moves { result ≡ matra_placements start matra target }
    ensures fits { MayArrange result start end (length buffer.new.glyphs) buffer.new.places }
    ensures same_length { length buffer.new.glyphs ≡ length buffer.old.glyphs }
{
    let moves = matra_placements(start, matra, target);
    buffer.merge_arranged(&moves, start, end, start + target, start + base_end);
    moves
}

// Moves and merges one left matra as `move_matra`, and writes it at once, where nothing else of the
// syllable moves.
#[inline]
pub(super) fn write_matra(
    buffer: &mut hb_buffer_t,
    start: usize,
    end: usize,
    base_end: usize,
    matra: usize,
    target: usize,
)
    requires before { matra ≤ target }
    requires base { target < base_end }
    requires in_order { start + base_end ≤ end }
    requires in_range { end ≤ length buffer.old.glyphs }
    ensures glyphs { let step = matra_step (end - start) base_end matra target in
        let wide = widened start end (length buffer.old.glyphs) step in
        buffer.new ≡ record buffer.old {
          glyphs = after_step buffer.old.level wide buffer.old.glyphs;
        } }
    ensures same_length { length buffer.new.glyphs ≡ length buffer.old.glyphs }
{
    buffer.apply(start, end, first_last(start + matra, start + target + 1));
    buffer.merge_clusters(start + target, start + base_end);
}

// The glyph of place `matra` of a syllable from `start` on moved to its place `target`, behind
// others.
#[inline]
pub(super) fn matra_placements(start: usize, matra: usize, target: usize) -> Placements
    requires before { matra ≤ target }
    requires fits { start + target + 1 < 2 ^ 64 }
    ensures { result ≡ matra_placements start matra target }
{
    Placements {
        first: first_last(start + matra, start + target + 1),
        second: Placement::Stays,
        third: Placement::Stays,
    }
}

// The first glyph of the stretch from `start` to `end` behind the others.
#[inline]
fn first_last(start: usize, end: usize) -> Placement
    requires { start < end }
    ensures { result ≡ Forward start (start + 1) (end - start - 1) }
{
    Placement::Forward {
        to: start,
        from: start + 1,
        count: end - start - 1,
    }
}

// The last glyph of the stretch from `start` to `end` before the others.
#[inline]
fn last_first(start: usize, end: usize) -> Placement
    requires { start < end }
    ensures { result ≡ Forward start (end - 1) 1 }
{
    Placement::Forward {
        to: start,
        from: end - 1,
        count: 1,
    }
}

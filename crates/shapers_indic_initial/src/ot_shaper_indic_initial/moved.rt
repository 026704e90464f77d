//! A syllable whose first moves aren't written yet: what comes later reads it as it will be.
ghost use Rattle.std.specs.Prelude.{◌≡◌, ◌<◌, ◌≤◌, length, slice_index_or};
ghost use Rattle.shapers_buffer.specs.Placements.{MayArrange, moves_nothing, placed_by_all};
ghost use Rattle.shapers_buffer.specs.declared.buffer.placement.Placement.TheVariants.{Stays};
ghost use Rattle.shapers_indic_initial.specs.MovedWalk.{MovesUnlisted, as_moved, moves_then};

use shapers_base::buffer::{Placement, Placements, hb_buffer_t, hb_glyph_info_t};

/// A syllable, and the placements of its first two moves, neither of which is listed.
#[derive(Clone, Copy)]
pub(super) struct MovedSyllable {
    pub(super) first: Placement,
    pub(super) second: Placement,
    pub(super) start: usize,
    pub(super) end: usize,
}

impl MovedSyllable {
    /// The moves, and one behind them.
    #[inline]
    pub(super) fn moves_then(&self, third: Placement) -> Placements
        ensures { result ≡ moves_then self.now third }
    {
        Placements {
            first: self.first,
            second: self.second,
            third,
        }
    }

    /// Whether both moves leave all where it is.
    #[inline]
    pub(super) fn stays(&self) -> bool
        ensures { result ≡ moves_nothing (moves_then self.now Stays) }
    {
        self.moves_then(Placement::Stays).moves_nothing()
    }

    /// Writes the syllable by the moves and one behind them. It takes no memory.
    //
    // It is always inlined: in the copies of its callers for what stays rustc knows that the first two
    // moves move nothing, and no test is left.
    #[inline(always)]
    pub(super) fn write_then(&self, buffer: &mut hb_buffer_t, third: Placement)
        requires { let ps = moves_then self.now third in
            MayArrange ps self.now.start self.now.end
            (length buffer.old.glyphs) buffer.old.places }
        ensures { let ps = moves_then self.now third in
            let moved = placed_by_all ps self.now.start self.now.end
            buffer.old.places buffer.old.glyphs in
            buffer.new ≡ record buffer.old { glyphs = moved } }
    {
        if self.stays() {
            buffer.apply(self.start, self.end, third);
        } else {
            self.write_moved(buffer, third);
        }
    }

    // Writes the moves as `write_then`, where one of the first two moves something. It takes a copy, so
    // that the syllable needs no place in memory where it is known.
    #[cold]
    #[inline(never)]
    fn write_moved(self, buffer: &mut hb_buffer_t, third: Placement)
        requires { let ps = moves_then self third in
            MayArrange ps self.start self.end (length buffer.old.glyphs) buffer.old.places }
        ensures { let ps = moves_then self third in
            let moved = placed_by_all ps self.start self.end
            buffer.old.places buffer.old.glyphs in
            buffer.new ≡ record buffer.old { glyphs = moved } }
    {
        buffer.apply_all(self.start, self.end, &self.moves_then(third));
    }

    /// The glyph at `index` of the text so moved.
    #[inline]
    pub(super) fn glyph(&self, buffer: &hb_buffer_t, index: usize) -> hb_glyph_info_t
        requires unlisted { MovesUnlisted self.now }
        requires in_order { self.now.start ≤ self.now.end }
        requires in_range { self.now.end ≤ length buffer.now.glyphs }
        requires inside { index < length buffer.now.glyphs }
        ensures { let gs = as_moved self.now buffer.now.glyphs in
            result ≡ slice_index_or gs index result }
    {
        let moves = self.moves_then(Placement::Stays);
        if moves.moves_nothing() {
            return buffer.get(index);
        }
        buffer.arranged(&moves, self.start, self.end).get(index)
    }
}

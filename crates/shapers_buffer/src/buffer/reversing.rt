//! The buffer backwards.
ghost use Rattle.std.specs.Prelude.{◌≡◌, ◌<◌, ◌≤◌, length, reverse};
ghost use Rattle.shapers_buffer.specs.Clusters.{with_stretch};

use super::{GlyphPosition, hb_buffer_t};

impl hb_buffer_t {
    /// Reverses the glyphs, with their positions.
    #[inline]
    pub fn reverse(&mut self)
        ensures { self.new ≡ record self.old {
          glyphs = reverse self.old.glyphs;
          positions = reverse self.old.positions;
        } }
    {
        self.info.reverse();
        self.pos.reverse();
    }

    /// Reverses the glyphs from `start` to `end`, with their positions.
    ///
    /// # Panics
    ///
    /// Where `start` is above `end`, or `end` above the length.
    #[inline]
    pub fn reverse_range(&mut self, start: usize, end: usize)
        requires in_order { start ≤ end }
        requires in_range { end ≤ length self.old.glyphs }
        ensures { self.new ≡ record self.old {
          glyphs = with_stretch start end reverse self.old.glyphs;
          positions = with_stretch start end reverse self.old.positions;
        } }
    {
        self.info[start..end].reverse();
        reverse_positions(&mut self.pos, start, end);
    }
}

// Reverses the positions from `start` to `end`, if there are any.
#[inline]
fn reverse_positions(positions: &mut [GlyphPosition], start: usize, end: usize)
    requires in_order { start ≤ end }
    requires in_range { 0 < length positions.old → end ≤ length positions.old }
    ensures { positions.new ≡ with_stretch start end reverse positions.old }
{
    if !positions.is_empty() {
        positions[start..end].reverse();
    }
}

//! Changes of positions, each by its glyph.
ghost use Rattle.std.specs.Prelude.{◌≡◌, length};
ghost use Rattle.shapers_position.specs.Widths.{positions_changed};

use shapers_base::buffer::{GlyphPosition, PositionedWalk, hb_buffer_t, hb_glyph_info_t};

/// A change of a position, by the glyph that has it.
pub(super) trait PositionChange {
    ghost use Rattle.shapers_buffer.specs.declared.buffer.glyph.GlyphPosition.{GlyphPosition};
    ghost use Rattle.shapers_buffer.specs.declared.buffer.glyph.hb_glyph_info_t.{hb_glyph_info_t};

    ghost changed: { Self → hb_glyph_info_t → GlyphPosition → GlyphPosition };

    /// Changes the position.
    fn change(&self, glyph: &hb_glyph_info_t, position: &mut GlyphPosition)
        ensures { position.new ≡ changed self.now glyph.now position.old };
}

// Changes each position of the buffer. A change that panics leaves the empty buffer, and no text with
// some of its positions changed.
#[inline]
pub(super) fn change_positions<C: PositionChange>(change: &C, buffer: &mut hb_buffer_t)
    ensures { let f = C.changed change.now in
        let changed = positions_changed f buffer.old.glyphs buffer.old.positions in
        buffer.new ≡ record buffer.old { positions = changed } }
{
    if buffer.positions_len() > 0 {
        buffer.walk_positioned_outside(&Changing { change });
    }
}

// The walk over the positions of a text.
#[derive(Drop)]
struct Changing<'a, C: PositionChange> {
    change: &'a C,
}

impl<'a, C: PositionChange> PositionedWalk for Changing<'a, C> {
    ghost use Rattle.std.specs.Prelude.{◌≡◌, length};
    ghost use Rattle.shapers_position.specs.Widths.{positions_changed};

    ghost can_walk = { λ w gs ps. length ps ≡ length gs };

    ghost walks = { λ w gs ps hs qs.
        (hs ≡ gs) × (qs ≡ positions_changed (C.changed w.change.now) gs ps) };

    #[inline]
    fn walk(&self, glyphs: &mut [hb_glyph_info_t], positions: &mut [GlyphPosition]) {
        change_each_position(self.change, glyphs, positions);
    }
}

// Changes the position of each of these glyphs.
#[inline]
pub(super) fn change_each_position<C: PositionChange>(
    change: &C,
    glyphs: &[hb_glyph_info_t],
    positions: &mut [GlyphPosition],
)
    requires { length positions.old ≡ length glyphs.now }
    ensures { let f = C.changed change.now in
        positions.new ≡ positions_changed f glyphs.now positions.old }
{
    for (i, position) in positions.iter_mut().enumerate() {
        change.change(&glyphs[i], position);
    }
}

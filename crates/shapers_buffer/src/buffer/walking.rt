//! Changes and walks of the glyphs in place, over the slice that the buffer keeps them in.
ghost use Rattle.std.specs.Prelude.{◌≡◌, ◌<◌, ◌≤◌, List, [], length, map};
ghost use Rattle.std.specs.Fn.{FnOnceReturnsAtMut};
ghost use Rattle.shapers_buffer.specs.Clusters.{with_stretch};
ghost use Rattle.shapers_buffer.specs.Glyphs.{Glyph, Glyphs};
ghost use Rattle.shapers_buffer.specs.Changes.{ChangesAs};
ghost use Rattle.std.specs.Fn.{FnOnceTakesAtMut};

use super::glyph::{GlyphPosition, hb_glyph_info_t};
use super::hb_buffer_t;
use std::mem;

/// A change of one glyph, which looks at nothing else.
pub trait GlyphChange {
    ghost use Rattle.shapers_buffer.specs.declared.buffer.glyph.hb_glyph_info_t.{hb_glyph_info_t};

    ghost changed: { Self → hb_glyph_info_t → hb_glyph_info_t };

    /// Changes the glyph.
    fn change(&self, glyph: &mut hb_glyph_info_t)
        ensures { glyph.new ≡ changed self.now glyph.old };
}

/// A walk over all glyphs, which may carry a state from one to the next and keep what it found.
pub trait GlyphWalk {
    ghost use Rattle.shapers_buffer.specs.declared.buffer.glyph.hb_glyph_info_t.{hb_glyph_info_t};

    ghost can_walk: { Self → Glyphs → Type 0 };

    ghost walks: { Self → Self → Glyphs → Glyphs → Type 0 };

    /// Walks over the glyphs.
    fn walk(&mut self, glyphs: &mut [hb_glyph_info_t])
        requires { can_walk self.old glyphs.old }
        ensures { walks self.old self.new glyphs.old glyphs.new };
}

/// A walk over all glyphs with their positions.
pub trait PositionedWalk {
    ghost use Rattle.shapers_buffer.specs.declared.buffer.glyph.GlyphPosition.{GlyphPosition};
    ghost use Rattle.shapers_buffer.specs.declared.buffer.glyph.hb_glyph_info_t.{hb_glyph_info_t};

    ghost can_walk: { Self → Glyphs → List GlyphPosition → Type 0 };

    ghost walks: { Self → Glyphs → List GlyphPosition
        → Glyphs → List GlyphPosition → Type 0 };

    /// Walks over the glyphs and their positions.
    fn walk(&self, glyphs: &mut [hb_glyph_info_t], positions: &mut [GlyphPosition])
        requires { can_walk self.now glyphs.old positions.old }
        ensures { walks self.now glyphs.old positions.old glyphs.new positions.new };
}

/// A change of the whole list of glyphs, which doesn't get longer.
pub trait GlyphEditing {
    ghost can_edit: { Self → Glyphs → Type 0 };

    ghost edits: { Self → Self → Glyphs → Glyphs → Type 0 };

    /// Changes the list.
    fn edit(&mut self, glyphs: Vec<hb_glyph_info_t>) -> Vec<hb_glyph_info_t>
        requires { can_edit self.old glyphs.items }
        ensures edited { edits self.old self.new glyphs.items result.items }
        ensures few { length result.items ≤ length glyphs.items };
}

impl hb_buffer_t {
    /// Changes each glyph from `start` to `end`. It takes no memory.
    ///
    /// # Panics
    ///
    /// Where `start` is above `end`, or `end` above the length.
    #[inline]
    pub fn change_each<C: GlyphChange>(&mut self, start: usize, end: usize, change: &C)
        requires in_order { start ≤ end }
        requires in_range { end ≤ length self.old.glyphs }
        ensures { let changed = map (C.changed change.now) in
            self.new ≡ record self.old {
              glyphs = with_stretch start end changed self.old.glyphs;
            } }
    {
        change_each_in(&mut self.info[start..end], change);
    }

    /// Changes each glyph from `start` to `end` by a closure. It takes no memory.
    ///
    /// # Panics
    ///
    /// Where `start` is above `end`, or `end` above the length.
    #[inline]
    pub fn change_each_by<F: Fn(&mut hb_glyph_info_t)>(
        &mut self,
        start: usize,
        end: usize,
        change: F,
    )
        requires in_order { start ≤ end }
        requires in_range { end ≤ length self.old.glyphs }
        requires callable { F.IsAlwaysCallable change }
        ensures { (f : Glyph → Glyph) → ChangesAs F.Fn change f → self.new ≡ record self.old {
          glyphs = with_stretch start end (map f) self.old.glyphs;
        } }
    {
        change_each_by_in(&mut self.info[start..end], change);
    }

    /// Changes each glyph by a closure. It takes no memory.
    #[inline]
    pub fn change_all_by<F: Fn(&mut hb_glyph_info_t)>(&mut self, change: F)
        requires callable { F.IsAlwaysCallable change }
        ensures { (f : Glyph → Glyph) → ChangesAs F.Fn change f
            → self.new ≡ record self.old { glyphs = map f self.old.glyphs } }
    {
        change_each_by_in(&mut self.info, change);
    }

    /// Changes each glyph, while the text is out of the buffer: a change that panics leaves the buffer
    /// empty, and no text of which some glyphs have changed. It takes no memory.
    #[inline]
    pub fn change_outside<C: GlyphChange>(&mut self, change: &C)
        ensures { self.new ≡
            record self.old { glyphs = map (C.changed change.now) self.old.glyphs } }
    {
        let alloc = self.alloc();
        let mut glyphs = mem::replace(&mut self.info, Vec::new(alloc));
        let positions = mem::replace(&mut self.pos, Vec::new(alloc));
        change_each_in(&mut glyphs, change);
        self.info = glyphs;
        self.pos = positions;
    }

    /// Walks over all glyphs, while the text is out of the buffer: a walk that panics leaves the buffer
    /// empty, and no text that it went over in part. It takes no memory.
    #[inline]
    pub fn walk_outside<W: GlyphWalk>(&mut self, walk: &mut W)
        requires { W.can_walk walk.old self.old.glyphs }
        ensures walked { W.walks walk.old walk.new self.old.glyphs self.new.glyphs }
        ensures same_length { length self.new.glyphs ≡ length self.old.glyphs }
        ensures others { self.new ≡ record self.old { glyphs = self.new.glyphs } }
    {
        let alloc = self.alloc();
        let mut glyphs = mem::replace(&mut self.info, Vec::new(alloc));
        let positions = mem::replace(&mut self.pos, Vec::new(alloc));
        walk.walk(&mut glyphs);
        self.info = glyphs;
        self.pos = positions;
    }

    /// Changes the list of glyphs, while it is out of the buffer: a change that panics leaves the
    /// buffer empty. The buffer has no positions afterwards. It takes no memory.
    #[inline]
    pub fn edit_outside<E: GlyphEditing>(&mut self, editing: &mut E)
        requires { E.can_edit editing.old self.old.glyphs }
        ensures edited { E.edits editing.old editing.new self.old.glyphs self.new.glyphs }
        ensures others { self.new ≡ record self.old { glyphs = self.new.glyphs; positions = [] } }
    {
        let (alloc, len) = (self.alloc(), self.info.len());
        let glyphs = mem::replace(&mut self.info, Vec::new(alloc));
        self.pos.clear();
        let mut glyphs = editing.edit(glyphs);
        // (in plain Rust a caller's change may make the list longer than it should)
        glyphs.truncate(len);
        self.info = glyphs;
    }

    /// Walks over all glyphs. It takes no memory.
    #[inline]
    pub fn walk<W: GlyphWalk>(&mut self, walk: &mut W)
        requires { W.can_walk walk.old self.old.glyphs }
        ensures walked { W.walks walk.old walk.new self.old.glyphs self.new.glyphs }
        ensures same_length { length self.new.glyphs ≡ length self.old.glyphs }
        ensures others { self.new ≡ record self.old { glyphs = self.new.glyphs } }
    {
        walk.walk(&mut self.info);
    }

    /// Calls `change` with all glyphs, which it may rewrite, and returns what it returned. It takes
    /// no memory.
    #[inline]
    pub fn with_glyphs_mut<R, F: FnOnce(&mut [hb_glyph_info_t]) -> R>(&mut self, change: F) -> R
        requires { FnOnceTakesAtMut F.FnOnce change self.old.glyphs }
        ensures changed { let call = FnOnceReturnsAtMut F.FnOnce change in
            call self.old.glyphs result self.new.glyphs }
        ensures same_length { length self.new.glyphs ≡ length self.old.glyphs }
        ensures others { self.new ≡ record self.old { glyphs = self.new.glyphs } }
    {
        change(&mut self.info)
    }

    /// Calls `change` with all positions, which it may rewrite, and returns what it returned. It
    /// takes no memory.
    #[inline]
    pub fn with_positions_mut<R, F: FnOnce(&mut [GlyphPosition]) -> R>(&mut self, change: F) -> R
        requires { FnOnceTakesAtMut F.FnOnce change self.old.positions }
        ensures changed { let call = FnOnceReturnsAtMut F.FnOnce change in
            call self.old.positions result self.new.positions }
        ensures same_length { length self.new.positions ≡ length self.old.positions }
        ensures others { self.new ≡ record self.old { positions = self.new.positions } }
    {
        change(&mut self.pos)
    }

    /// Walks over all glyphs and their positions. It takes no memory.
    #[inline]
    pub fn walk_positioned<W: PositionedWalk>(&mut self, walk: &W)
        requires { W.can_walk walk.now self.old.glyphs self.old.positions }
        ensures walked { W.walks walk.now
            self.old.glyphs self.old.positions self.new.glyphs self.new.positions }
        ensures others { self.new ≡ record self.old {
          glyphs = self.new.glyphs;
          positions = self.new.positions;
        } }
    {
        walk.walk(&mut self.info, &mut self.pos);
    }

    /// Walks over all glyphs and their positions, while the text is out of the buffer: a walk that
    /// panics leaves the buffer empty, and no text that it went over in part. It takes no memory.
    #[inline]
    pub fn walk_positioned_outside<W: PositionedWalk>(&mut self, walk: &W)
        requires { W.can_walk walk.now self.old.glyphs self.old.positions }
        ensures walked { W.walks walk.now
            self.old.glyphs self.old.positions self.new.glyphs self.new.positions }
        ensures others { self.new ≡ record self.old {
          glyphs = self.new.glyphs;
          positions = self.new.positions;
        } }
    {
        let alloc = self.alloc();
        let mut glyphs = mem::replace(&mut self.info, Vec::new(alloc));
        let mut positions = mem::replace(&mut self.pos, Vec::new(alloc));
        walk.walk(&mut glyphs, &mut positions);
        self.info = glyphs;
        self.pos = positions;
    }
}

/// Changes each of these glyphs.
#[inline]
pub fn change_each_in<C: GlyphChange>(glyphs: &mut [hb_glyph_info_t], change: &C)
    ensures { glyphs.new ≡ map (C.changed change.now) glyphs.old }
{
    for glyph in glyphs.iter_mut() {
        change.change(glyph);
    }
}

/// Changes each of these glyphs by a closure.
#[inline]
pub fn change_each_by_in<F: Fn(&mut hb_glyph_info_t)>(glyphs: &mut [hb_glyph_info_t], change: F)
    requires { F.IsAlwaysCallable change }
    ensures { (f : Glyph → Glyph) → ChangesAs F.Fn change f → glyphs.new ≡ map f glyphs.old }
{
    for glyph in glyphs.iter_mut() {
        change(glyph);
    }
}

//! Other glyphs for the buffer's, texts rewritten, and glyphs copied with their positions.
ghost use Rattle.std.specs.Prelude.{◌≡◌, ◌<◌, ◌≤◌, [], length, vec_capacity, OnOk, OnErr};
ghost use Rattle.shapers_buffer.specs.Buffer.{copied_to, with_copy};
ghost use Rattle.shapers_buffer.specs.Refusals.{RefusesLength};
ghost use Rattle.shapers_buffer.specs.Glyphs.{Glyphs};

use super::glyph::hb_glyph_info_t;
use super::hb_buffer_t;
use super::placement::make_room;
use super::refusal::ShaperError;
use std::mem;

/// A rewriting of a whole text, which may change the glyphs that it reads.
pub trait GlyphRewriting {
    ghost use Rattle.shapers_buffer.specs.declared.buffer.glyph.hb_glyph_info_t.{hb_glyph_info_t};

    ghost can_rewrite: { Self → Glyphs → Type 0 };

    ghost rewrites: { Self → Glyphs → Glyphs };

    /// Writes what these glyphs become to an empty list, which has room for it.
    fn rewrite(&self, glyphs: &mut [hb_glyph_info_t], to: &mut Vec<hb_glyph_info_t>)
        requires can { can_rewrite self.now glyphs.old }
        requires empty { to.old.items ≡ [] }
        requires room { length (rewrites self.now glyphs.old) ≤ vec_capacity to.old }
        ensures text { to.new.items ≡ rewrites self.now glyphs.old }
        ensures capacity { vec_capacity to.old ≤ vec_capacity to.new };
}

impl hb_buffer_t {
    /// Rewrites the text to `len` glyphs; the buffer has no positions afterwards. Refuses by their
    /// number, before anything changes. The text is out of the buffer meanwhile: a rewriting that
    /// panics leaves the buffer empty.
    ///
    /// # Errors
    ///
    /// `TooLong` and `Memory`; nothing has changed then.
    #[inline]
    pub fn rewrite<R: GlyphRewriting>(
        &mut self,
        len: usize,
        rewriting: &R,
    ) -> Result<(), ShaperError>
        requires can { R.can_rewrite rewriting.now self.old.glyphs }
        requires length { length (R.rewrites rewriting.now self.old.glyphs) ≡ len }
        ensures ok { OnOk result (self.new ≡ record self.old {
          glyphs = R.rewrites rewriting.now self.old.glyphs;
          positions = [];
        }) }
        ensures length { RefusesLength self.old.max_len len result }
        ensures err { OnErr result (self.new ≡ self.old) }
    {
        if len > self.max_len {
            return Err(ShaperError::TooLong);
        }
        make_room(&mut self.places, &mut self.spare, &mut self.group_room, len)?;
        self.info.reserve(len.saturating_sub(self.info.len()))?;
        self.spare.clear();
        self.pos.clear();
        let alloc = self.alloc();
        let mut glyphs = mem::replace(&mut self.info, Vec::new(alloc));
        rewriting.rewrite(&mut glyphs, &mut self.spare);
        // (in plain Rust a caller's rewriting may write more than it should)
        self.spare.truncate(len);
        self.info = mem::replace(&mut self.spare, glyphs);
        Ok(())
    }

    /// Puts these glyphs in the place of the buffer's, which has no positions afterwards, and keeps
    /// the list that they replace as room for [`take_list`](Self::take_list). Refuses by their
    /// number, whatever the buffer held.
    ///
    /// # Errors
    ///
    /// `TooLong` and `Memory`; nothing has changed then.
    #[inline]
    pub fn replace_glyphs(&mut self, glyphs: Vec<hb_glyph_info_t>) -> Result<(), ShaperError>
        ensures ok { OnOk result (self.new ≡
            record self.old { glyphs = glyphs.items; positions = [] }) }
        ensures length { RefusesLength self.old.max_len (length glyphs.items) result }
        ensures err { OnErr result (self.new ≡ self.old) }
    {
        if glyphs.len() > self.max_len {
            return Err(ShaperError::TooLong);
        }
        make_room(
            &mut self.places,
            &mut self.spare,
            &mut self.group_room,
            glyphs.len(),
        )?;
        self.rooms.list = mem::replace(&mut self.info, glyphs);
        self.pos.clear();
        Ok(())
    }

    /// Copies the glyph at `from`, with its position, to `to`.
    ///
    /// # Panics
    ///
    /// Where one of the places is none of the buffer.
    #[inline]
    pub fn copy_glyph(&mut self, from: usize, to: usize)
        requires from_in_range { from < length self.old.glyphs }
        requires to_in_range { to < length self.old.glyphs }
        ensures { self.new ≡ copied_to from to self.old }
    {
        copy_in(&mut self.info, from, to);
        if !self.pos.is_empty() {
            copy_in(&mut self.pos, from, to);
        }
    }
}

// Puts a copy of the item at one place at another, too.
#[inline]
fn copy_in<T: Copy>(items: &mut [T], from: usize, to: usize)
    requires from_in_range { from < length items.old }
    requires to_in_range { to < length items.old }
    ensures { items.new ≡ with_copy from to items.old }
{
    items[to] = items[from];
}

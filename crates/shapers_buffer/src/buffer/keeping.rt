//! A copy of a text that is kept while the text changes. Its lists are used again for the next
//! copy, so that a buffer that is shaped again takes no memory for it.
ghost use Rattle.std.specs.Prelude.{◌≡◌, ◌≤◌, IfErr, IfOk, OnOk, length, vec_capacity};
ghost use Rattle.shapers_buffer.specs.declared.buffer.refusal.ShaperError.TheVariants.{Memory};

use super::glyph::{GlyphPosition, hb_glyph_info_t};
use super::group_room::GroupRoom;
use super::hb_buffer_t;
use super::placement::enlarge;
use super::refusal::ShaperError;
use std::alloc::Global;
use std::mem;

// The lists of a copy that is no longer needed.
#[derive(Debug, Drop)]
pub(super) struct KeptRoom {
    pub(super) info: Vec<hb_glyph_info_t>,
    pub(super) pos: Vec<GlyphPosition>,
    pub(super) places: Vec<usize>,
    pub(super) spare: Vec<hb_glyph_info_t>,
}

impl KeptRoom {
    // No room; it takes no memory.
    #[inline]
    pub(super) fn new(alloc: Global) -> Self {
        KeptRoom {
            info: Vec::new(alloc),
            pos: Vec::new(alloc),
            places: Vec::new(alloc),
            spare: Vec::new(alloc),
        }
    }

    // Puts these lists of a text into the room, and makes room for a place and a glyph per glyph.
    #[inline]
    pub(super) fn fill(
        &mut self,
        info: &[hb_glyph_info_t],
        pos: &[GlyphPosition],
        places: &[usize],
    ) -> Result<(), ShaperError>
        ensures info { OnOk result (self.new.info.items ≡ info.now) }
        ensures pos { OnOk result (self.new.pos.items ≡ pos.now) }
        ensures places { OnOk result (self.new.places.items ≡ places.now) }
        ensures places_room { OnOk result (length info.now ≤ vec_capacity self.new.places) }
        ensures spare_room { OnOk result (length info.now ≤ vec_capacity self.new.spare) }
        ensures refusal { IfErr result (λ e. e ≡ Memory) }
    {
        refill(&mut self.info, info, info.len())?;
        refill(&mut self.pos, pos, pos.len())?;
        refill(&mut self.places, places, info.len())?;
        refill(&mut self.spare, &[], info.len())
    }
}

impl hb_buffer_t {
    /// An equal buffer, to be kept while this one changes. Where an earlier copy of a text that was
    /// as long has been handed to [`recycle`](Self::recycle), it takes no memory. Nothing changes.
    ///
    /// # Errors
    ///
    /// `Memory`.
    #[inline]
    pub fn keep(&mut self) -> Result<hb_buffer_t, ShaperError>
        ensures ok { IfOk result (λ kept. kept ≡ self.old) }
        ensures err { IfErr result (λ e. e ≡ Memory) }
        ensures same { self.new ≡ self.old }
    {
        let alloc = self.alloc();
        let room = mem::replace(&mut self.rooms.kept, KeptRoom::new(alloc));
        self.copy_into(room, GroupRoom::new(alloc))
    }

    /// Keeps the lists of a copy that is no longer needed as room for the next. Nothing changes.
    #[inline]
    pub fn recycle(&mut self, kept: hb_buffer_t)
        ensures { self.new ≡ self.old }
    {
        self.rooms.kept = KeptRoom {
            info: kept.info,
            pos: kept.pos,
            places: kept.places,
            spare: kept.spare,
        };
    }

    /// Puts the kept copy in the place of what the buffer has become. The buffer's room stays.
    pub fn restore(&mut self, kept: hb_buffer_t)
        ensures { self.new ≡ kept }
    {
        let changed = mem::replace(self, kept);
        self.group_room = changed.group_room;
        self.rooms = changed.rooms;
        self.rooms.kept = KeptRoom {
            info: changed.info,
            pos: changed.pos,
            places: changed.places,
            spare: changed.spare,
        };
    }
}

// Puts these items alone into the list, and makes room for `len`.
#[inline]
fn refill<T: Copy>(list: &mut Vec<T>, items: &[T], len: usize) -> Result<(), ShaperError>
    ensures items { OnOk result (list.new.items ≡ items.now) }
    ensures room { OnOk result (len ≤ vec_capacity list.new) }
    ensures refusal { IfErr result (λ e. e ≡ Memory) }
{
    let len = len.max(items.len());
    list.clear();
    if list.capacity() < len {
        enlarge(list, len)?;
    }
    list.extend_from_slice(items).unwrap();
    Ok(())
}

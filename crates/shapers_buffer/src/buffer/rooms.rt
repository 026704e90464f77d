//! Room that the buffer lends to its callers, and keeps for the next text: lists of glyphs and of
//! positions. None is a part of the text.
ghost use Rattle.std.specs.Prelude.{◌≡◌, []};

use super::glyph::{GlyphPosition, hb_glyph_info_t};
use super::hb_buffer_t;
use super::keeping::KeptRoom;
use std::alloc::Global;
use std::mem;

// Room for the copy that is kept of a text, and for another list of glyphs.
#[derive(Debug, Drop)]
pub(super) struct Rooms {
    pub(super) kept: KeptRoom,
    pub(super) list: Vec<hb_glyph_info_t>,
}

impl Rooms {
    // No room; it takes no memory.
    #[inline]
    pub(super) fn new(alloc: Global) -> Self {
        Rooms {
            kept: KeptRoom::new(alloc),
            list: Vec::new(alloc),
        }
    }
}

impl hb_buffer_t {
    /// Takes out an empty list of glyphs, with the room that it has. Nothing else changes.
    #[inline]
    pub fn take_list(&mut self) -> Vec<hb_glyph_info_t>
        ensures empty { result.items ≡ [] }
        ensures same { self.new ≡ self.old }
    {
        emptied(&mut self.rooms.list)
    }

    /// Keeps a list of glyphs as room for the next. Nothing else changes.
    #[inline]
    pub fn give_list(&mut self, list: Vec<hb_glyph_info_t>)
        ensures { self.new ≡ self.old }
    {
        self.rooms.list = list;
    }

    /// An empty list of positions: in a buffer without positions the one that the last positions
    /// stood in, with its room. Nothing else changes.
    #[inline]
    pub fn take_position_list(&mut self) -> Vec<GlyphPosition>
        ensures empty { result.items ≡ [] }
        ensures same { self.new ≡ self.old }
    {
        let none = Vec::new(self.alloc());
        if self.pos.is_empty() {
            mem::replace(&mut self.pos, none)
        } else {
            none
        }
    }
}

// Takes out the list, which is empty then and keeps its room. A list without room stands in its
// place.
#[inline]
fn emptied(list: &mut Vec<hb_glyph_info_t>) -> Vec<hb_glyph_info_t>
    ensures { result.items ≡ [] }
{
    let none = Vec::new(*list.allocator());
    let mut taken = mem::replace(list, none);
    taken.clear();
    taken
}

//! Room that the buffer lends to a walk over its text, so that the walk takes no memory.
ghost use Rattle.std.specs.Prelude.{◌≡◌, IfErr, IsOkUnless};
ghost use Rattle.shapers_buffer.specs.declared.buffer.refusal.ShaperError.TheVariants.{Memory};

use super::glyph::hb_glyph_info_t;
use super::hb_buffer_t;
use super::placement::enlarge;
use super::refusal::ShaperError;
use std::alloc::Global;
use std::mem;

/// Glyphs that stand together in one cluster: how many they are, and the cluster.
#[derive(Clone, Copy, Debug)]
pub struct ClusterGroup {
    /// How many glyphs they are.
    pub len: usize,
    /// Their cluster.
    pub cluster: u32,
}

/// Room for a group of glyphs and for one glyph per glyph of a text. Where the clusters of syllables
/// fall, merges flood what stands before them again and again: a walk that writes it once keeps
/// these groups and the glyphs that it writes over.
#[derive(Debug, Drop)]
pub struct GroupRoom {
    /// Room for groups.
    pub groups: Vec<ClusterGroup>,
    /// Room for glyphs.
    pub glyphs: Vec<hb_glyph_info_t>,
}

impl GroupRoom {
    /// No room; it takes no memory.
    #[inline]
    pub fn new(alloc: Global) -> Self {
        GroupRoom {
            groups: Vec::new(alloc),
            glyphs: Vec::new(alloc),
        }
    }

    // Room for a text of `len` glyphs.
    #[inline]
    pub(super) fn with_capacity(alloc: Global, len: usize) -> Result<Self, ShaperError>
        ensures { IfErr result (λ e. e ≡ Memory) }
    {
        Ok(GroupRoom {
            groups: Vec::with_capacity(alloc, len)?,
            glyphs: Vec::with_capacity(alloc, len)?,
        })
    }

    // Makes room for a text of `len` glyphs.
    #[inline]
    pub(super) fn enlarge(&mut self, len: usize) -> Result<(), ShaperError>
        ensures { IsOkUnless result Memory }
    {
        if self.groups.capacity() < len {
            enlarge(&mut self.groups, len)?;
        }
        if self.glyphs.capacity() < len {
            enlarge(&mut self.glyphs, len)?;
        }
        Ok(())
    }
}

impl hb_buffer_t {
    /// Takes out the room for groups, which is enough for the buffer's glyphs unless it is out
    /// already. Nothing else changes.
    #[inline]
    pub fn take_group_room(&mut self) -> GroupRoom
        ensures { self.new ≡ self.old }
    {
        let none = GroupRoom::new(self.alloc());
        mem::replace(&mut self.group_room, none)
    }

    /// Puts the room back that was taken out. Nothing else changes.
    #[inline]
    pub fn put_group_room_back(&mut self, room: GroupRoom)
        ensures { self.new ≡ self.old }
    {
        self.group_room = room;
    }
}

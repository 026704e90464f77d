//! The glyph flags: the low three bits of a mask, from which line breakers and the like see what a
//! change of the text at a glyph would do.
ghost use Rattle.std.specs.Prelude.{◌≡◌, ◌≤◌, length, map};
ghost use Rattle.shapers_buffer.specs.Buffer.{asks, flags_concat, flags_tatweel, has_flag};
ghost use Rattle.shapers_buffer.specs.GlyphFlags.{flagged, with_bits, unsafe_inside, unsafe_to_concat_in, tatweel_inside};

use super::glyph::hb_glyph_info_t;
use super::merging::least_cluster;
use super::{BufferFlags, hb_buffer_t};
use bitflags::Flags;

/// The glyph flags, by their bits.
pub mod glyph_flag {
    /// A line broken before the glyph's cluster wants shaping again.
    pub const UNSAFE_TO_BREAK: u32 = 1;
    /// A text cut or joined before the glyph's cluster wants shaping again.
    pub const UNSAFE_TO_CONCAT: u32 = 2;
    /// A tatweel may be put in before the glyph's cluster.
    pub const SAFE_TO_INSERT_TATWEEL: u32 = 4;
}

use glyph_flag::{SAFE_TO_INSERT_TATWEEL, UNSAFE_TO_BREAK, UNSAFE_TO_CONCAT};

impl hb_buffer_t {
    /// Flags the places from `start` to `end` whose cluster isn't the least one there: unsafe to
    /// break, and unsafe to concatenate.
    ///
    /// # Panics
    ///
    /// Where `start` is above `end`, or `end` above the length.
    #[inline]
    pub fn unsafe_to_break(&mut self, start: usize, end: usize)
        requires in_order { start ≤ end }
        requires in_range { end ≤ length self.old.glyphs }
        ensures { self.new ≡ record self.old { glyphs = unsafe_inside start end self.old.glyphs } }
    {
        unsafe_to_break_in(&mut self.info, start, end);
    }

    /// Flags every place from `start` to `end` as unsafe to concatenate, where the buffer wants
    /// that flag.
    ///
    /// # Panics
    ///
    /// Where `start` is above `end`, or `end` above the length.
    #[inline]
    pub fn unsafe_to_concat(&mut self, start: usize, end: usize)
        requires in_order { start ≤ end }
        requires in_range { end ≤ length self.old.glyphs }
        ensures { let asked = asks flags_concat self.old in
            let flagged = unsafe_to_concat_in asked start end self.old.glyphs in
            self.new ≡ record self.old { glyphs = flagged } }
    {
        unsafe_to_concat_in(self.flags, &mut self.info, start, end);
    }

    /// Flags the places from `start` to `end` whose cluster isn't the least one there: safe to
    /// insert a tatweel, where the buffer wants that flag, else as `unsafe_to_break`.
    ///
    /// # Panics
    ///
    /// Where `start` is above `end`, or `end` above the length.
    #[inline]
    pub fn safe_to_insert_tatweel(&mut self, start: usize, end: usize)
        requires in_order { start ≤ end }
        requires in_range { end ≤ length self.old.glyphs }
        ensures { let asked = asks flags_tatweel self.old in
            let flagged = tatweel_inside asked start end self.old.glyphs in
            self.new ≡ record self.old { glyphs = flagged } }
    {
        safe_to_insert_tatweel_in(self.flags, &mut self.info, start, end);
    }
}

/// No break inside the stretch, over glyphs in a slice, as `hb_buffer_t::unsafe_to_break`.
///
/// # Panics
///
/// Where `start` is above `end`, or `end` above the length.
#[inline]
pub fn unsafe_to_break_in(glyphs: &mut [hb_glyph_info_t], start: usize, end: usize)
    requires in_order { start ≤ end }
    requires in_range { end ≤ length glyphs.old }
    ensures { glyphs.new ≡ unsafe_inside start end glyphs.old }
{
    flag(&mut glyphs[start..end], UNSAFE_TO_BREAK | UNSAFE_TO_CONCAT);
}

/// No concatenation in the stretch, where the flags want that, over glyphs in a slice, as
/// `hb_buffer_t::unsafe_to_concat`.
///
/// # Panics
///
/// Where `start` is above `end`, or `end` above the length.
#[inline]
pub fn unsafe_to_concat_in(
    flags: BufferFlags,
    glyphs: &mut [hb_glyph_info_t],
    start: usize,
    end: usize,
)
    requires in_order { start ≤ end }
    requires in_range { end ≤ length glyphs.old }
    ensures { glyphs.new ≡ unsafe_to_concat_in (has_flag flags_concat flags) start end glyphs.old }
{
    if flags.contains(BufferFlags::PRODUCE_UNSAFE_TO_CONCAT) {
        flag_all(&mut glyphs[start..end], UNSAFE_TO_CONCAT);
    }
}

/// A join inside the stretch, over glyphs in a slice, as `hb_buffer_t::safe_to_insert_tatweel`.
///
/// # Panics
///
/// Where `start` is above `end`, or `end` above the length.
#[inline]
pub fn safe_to_insert_tatweel_in(
    flags: BufferFlags,
    glyphs: &mut [hb_glyph_info_t],
    start: usize,
    end: usize,
)
    requires in_order { start ≤ end }
    requires in_range { end ≤ length glyphs.old }
    ensures { glyphs.new ≡ tatweel_inside (has_flag flags_tatweel flags) start end glyphs.old }
{
    let bits = if flags.contains(BufferFlags::PRODUCE_SAFE_TO_INSERT_TATWEEL) {
        SAFE_TO_INSERT_TATWEEL
    } else {
        UNSAFE_TO_BREAK | UNSAFE_TO_CONCAT
    };
    flag(&mut glyphs[start..end], bits);
}

// Adds mask bits to every glyph whose cluster isn't the least one of the stretch.
#[inline]
fn flag(stretch: &mut [hb_glyph_info_t], bits: u32)
    ensures { stretch.new ≡ flagged bits stretch.old }
{
    if stretch.is_empty() {
        return;
    }
    let least = least_cluster(stretch);
    for glyph in stretch.iter_mut() {
        if glyph.cluster != least {
            glyph.mask |= bits;
        }
    }
}

// Adds mask bits to every glyph of the stretch.
#[inline]
fn flag_all(stretch: &mut [hb_glyph_info_t], bits: u32)
    ensures { stretch.new ≡ map (with_bits bits) stretch.old }
{
    for glyph in stretch.iter_mut() {
        glyph.mask |= bits;
    }
}

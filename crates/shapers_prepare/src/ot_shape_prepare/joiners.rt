//! Flags of the graphemes that begin with ZWNJ.
ghost use Rattle.std.specs.Prelude.{◌≡◌, false};
ghost use Rattle.shapers_clusters.specs.FlagLaw.{OnlyFlagsAdded};
ghost use Rattle.shapers_prepare.specs.JoinerFlags.{begins_with_zwnj, flagged_if_zwnj, zwnj_flagged, zwnj_flagged_behind};

use shapers_base::buffer::glyph_flag::{UNSAFE_TO_BREAK, UNSAFE_TO_CONCAT};
use shapers_base::buffer::{hb_buffer_t, hb_glyph_info_t};
use shapers_base::plan::BreakFlags;

// ZWNJ, which keeps characters from joining and begins a grapheme.
const ZERO_WIDTH_NON_JOINER: u32 = 0x200C;

/// With `Sound`, flags each glyph of a grapheme that begins with ZWNJ unsafe to break and to
/// concatenate, as texts of the Indic shaper want it: its grammar takes ZWNJ to the syllable before
/// it, and its reordering moves that to the front, away from the rest of the grapheme. With `AsCode`
/// nothing changes.
pub fn flag_zwnj_graphemes(break_flags: BreakFlags, buffer: &mut hb_buffer_t)
    ensures glyphs { let text = zwnj_flagged break_flags buffer.old.glyphs in
        buffer.new ≡ record buffer.old { glyphs = text } }
    ensures flags { OnlyFlagsAdded buffer.old.glyphs buffer.new.glyphs }
{
    match break_flags {
        BreakFlags::AsCode => {}
        BreakFlags::Sound => buffer.with_glyphs_mut(flag_zwnj_graphemes_in),
    }
}

// Flags each grapheme of these glyphs that begins with ZWNJ.
fn flag_zwnj_graphemes_in(glyphs: &mut [hb_glyph_info_t])
    ensures { glyphs.new ≡ zwnj_flagged_behind false glyphs.old }
{
    let mut begins = false;
    for glyph in glyphs.iter_mut() {
        begins = begins_with_zwnj(begins, glyph);
        flag_if(begins, glyph);
    }
}

// Whether a glyph's grapheme begins with ZWNJ, where the one before it did or didn't.
#[inline]
fn begins_with_zwnj(before: bool, glyph: &hb_glyph_info_t) -> bool
    ensures { result ≡ begins_with_zwnj before glyph.now }
{
    if glyph.unicode_props.is_continuation() {
        before
    } else {
        glyph.glyph_id == ZERO_WIDTH_NON_JOINER
    }
}

// Flags a glyph whose grapheme begins with ZWNJ.
#[inline]
fn flag_if(begins: bool, glyph: &mut hb_glyph_info_t)
    ensures { glyph.new ≡ flagged_if_zwnj begins glyph.old }
{
    if begins {
        glyph.mask |= UNSAFE_TO_BREAK | UNSAFE_TO_CONCAT;
    }
}

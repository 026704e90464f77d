//! Clearing what one pause left on the glyphs for another.
ghost use Rattle.std.specs.Prelude.{◌≡◌, map};
ghost use Rattle.shapers_syllabic.specs.Syllabic.{unsubstituted};
ghost use Rattle.shapers_buffer.specs.Syllables.{in_syllable};

use shapers_base::buffer::{change_each_by_in, hb_buffer_t, hb_glyph_info_t};

/// Takes every glyph out of its syllable: its syllable byte becomes 0. It takes no memory.
#[inline]
pub fn clear_syllables(buffer: &mut hb_buffer_t)
    ensures { buffer.new ≡ record buffer.old { glyphs = map (in_syllable 0) buffer.old.glyphs } }
{
    buffer.change_all_by(|glyph| glyph.syllable = 0);
}

/// Takes these glyphs out of their syllables, as `clear_syllables` does those of a buffer.
#[inline]
pub fn clear_syllables_in(glyphs: &mut [hb_glyph_info_t])
    ensures { glyphs.new ≡ map (in_syllable 0) glyphs.old }
{
    change_each_by_in(glyphs, |glyph| glyph.syllable = 0);
}

/// Takes back from every glyph the mark that a lookup substituted it. It takes no memory.
#[inline]
pub fn clear_substitution_flags(buffer: &mut hb_buffer_t)
    ensures { buffer.new ≡ record buffer.old { glyphs = map unsubstituted buffer.old.glyphs } }
{
    buffer.change_all_by(|glyph| glyph.glyph_props.set_substituted(false));
}

/// Takes back from these glyphs the mark that a lookup substituted them.
#[inline]
pub fn clear_substitution_flags_in(glyphs: &mut [hb_glyph_info_t])
    ensures { glyphs.new ≡ map unsubstituted glyphs.old }
{
    change_each_by_in(glyphs, |glyph| glyph.glyph_props.set_substituted(false));
}

//! The opening of syllables: a left matra gets the mask of `init` at the start of a word, and inside
//! a word a break before it is unsafe: Bengali's 09C7 has a form of its own at the start, in which a
//! piece of text that begins there would be drawn.
ghost use Rattle.std.specs.Prelude.{◌%◌, ◌≡◌, ◌<◌, ◌≤◌, length};
ghost use Rattle.shapers_indic_final.specs.FinalWordStart.{WordsStarted, before_place, continues_word, opened, starts_syllable, word_goes_on};

use super::matras::is_left;
use shapers_base::buffer::{hb_buffer_t, hb_glyph_info_t, hb_unicode_general_category_t};

// Opens each syllable of the text.
#[inline]
pub(super) fn start_words(init: u32, buffer: &mut hb_buffer_t)
    requires init { init % 8 ≡ 0 }
    ensures { WordsStarted init buffer.old buffer.new }
{
    for place in 0..buffer.len() {
        if starts_syllable(buffer.glyphs(), place) {
            start_syllable(init, buffer, place);
        }
    }
}

// Whether a syllable starts at `place`.
#[inline]
fn starts_syllable(glyphs: &[hb_glyph_info_t], place: usize) -> bool
    requires { place < length glyphs.now }
    ensures { result ≡ starts_syllable place glyphs.now }
{
    place == 0 || glyphs[place].syllable != glyphs[place - 1].syllable
}

// Opens the syllable at `place`.
#[inline]
fn start_syllable(init: u32, buffer: &mut hb_buffer_t, place: usize)
    requires { place < length buffer.old.glyphs }
    ensures { buffer.new ≡ record buffer.old { glyphs = opened init place buffer.old.glyphs } }
{
    if !is_left(&buffer.glyphs()[place]) {
        return;
    }
    if word_continues(buffer.glyphs(), place) {
        buffer.unsafe_to_break(place.saturating_sub(1), place + 1);
        return;
    }
    buffer.change_each_by(place, place + 1, |glyph| glyph.mask |= init);
}

// Whether a word goes on behind what stands before a place.
#[inline]
fn word_continues(glyphs: &[hb_glyph_info_t], place: usize) -> bool
    requires { place ≤ length glyphs.now }
    ensures { result ≡ word_goes_on (before_place place glyphs.now) }
{
    if place == 0 {
        return false;
    }
    continues_word(glyphs[place - 1].unicode_props.general_category())
}

// Whether a word goes on behind a glyph of this category.
#[inline]
fn continues_word(category: hb_unicode_general_category_t) -> bool
    ensures { result ≡ continues_word category }
{
    matches!(
        category,
        hb_unicode_general_category_t::Cf
            | hb_unicode_general_category_t::Cn
            | hb_unicode_general_category_t::Co
            | hb_unicode_general_category_t::Cs
            | hb_unicode_general_category_t::Ll
            | hb_unicode_general_category_t::Lm
            | hb_unicode_general_category_t::Lo
            | hb_unicode_general_category_t::Lt
            | hb_unicode_general_category_t::Lu
            | hb_unicode_general_category_t::Mc
            | hb_unicode_general_category_t::Me
            | hb_unicode_general_category_t::Mn
    )
}

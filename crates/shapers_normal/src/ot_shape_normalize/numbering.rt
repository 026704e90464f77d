//! The numbers of the glyphs of a word of which nothing comes apart, as most are.
ghost use Rattle.std.specs.Prelude.{◌≡◌, ◌≤◌, IfSome, false, length, true};
ghost use Rattle.shapers_normal.specs.NumberedWords.{AreNumbers, IsNumbered, are_numbered};

use super::context::NormalizeContext;
use super::decomposing::is_short_alone;
use super::properties::GRAPHEME_JOINER;
use super::sorting::is_mark;
use arrayvec::ArrayVec;
use shapers_base::buffer::{GlyphProps, hb_buffer_t, hb_glyph_info_t};

// How many glyphs a word has at most whose numbers are kept in place.
const MAX_WORD: usize = 32;

type Numbers = ArrayVec<u16, MAX_WORD>;

/// Gives the glyphs of a word their numbers where normalization does nothing else: the font has each
/// character, the shaper leaves letters whole, and no glyph is a mark or a grapheme joiner. The font
/// is asked once for each character. Returns whether that is so and the text has at most 32 glyphs;
/// else nothing has changed.
#[inline]
pub(super) fn number_word<C: NormalizeContext>(context: &C, buffer: &mut hb_buffer_t) -> bool
    ensures word { result ≡ true → IsNumbered (C.context context.now) buffer.old buffer.new }
    ensures others { result ≡ false → buffer.new ≡ buffer.old }
{
    if buffer.len() > MAX_WORD || !is_short_alone(context.normalization_preference()) {
        return false;
    }
    let Some(numbers) = numbers_of(context, buffer.glyphs()) else {
        return false;
    };
    buffer.with_glyphs_mut(|glyphs| write_numbers(numbers.as_slice(), glyphs));
    true
}

// The numbers of these glyphs, unless one is a mark, a joiner, or of a character that the font lacks.
#[inline]
fn numbers_of<C: NormalizeContext>(context: &C, glyphs: &[hb_glyph_info_t]) -> Option<Numbers>
    requires { length glyphs.now ≤ 32 }
    ensures { IfSome result (λ numbers. AreNumbers (C.context context.now) numbers.items glyphs.now) }
{
    let mut numbers = Numbers::new();
    for glyph in glyphs {
        if is_mark(glyph) || glyph.glyph_id == GRAPHEME_JOINER {
            return None;
        }
        numbers.push(context.get_nominal_glyph(glyph.glyph_id)?.0);
    }
    Some(numbers)
}

// Gives each glyph its number.
#[inline]
fn write_numbers(numbers: &[u16], glyphs: &mut [hb_glyph_info_t])
    requires { length numbers.now ≤ length glyphs.old }
    ensures { glyphs.new ≡ are_numbered numbers.now glyphs.old }
{
    for (i, number) in numbers.iter().enumerate() {
        glyphs[i].glyph_props = GlyphProps(*number);
    }
}

//! The parts of a text: what stands before a word, the word, and the sequence of tiles behind it.
ghost use Rattle.std.specs.Prelude.{◌≡◌, ◌≤◌, ◌+◌, not, length, take};
ghost use Rattle.std.specs.List.{suffix_len};
ghost use Rattle.shapers_stretch.specs.Cells.{in_word, is_tile, is_word_category, repeats};

use shapers_arabic::ot_shaper_arabic::arabic_action_t::{STRETCHING_REPEATING, is_stch};
use shapers_base::buffer::{hb_glyph_info_t, hb_unicode_general_category_t};

/// Where the last part of a text begins, and in it the word and the tiles.
#[derive(Clone, Copy)]
pub(super) struct LastPart {
    pub(super) start: usize,
    pub(super) word: usize,
    pub(super) tiles: usize,
}

/// The last part of these glyphs.
#[inline]
pub(super) fn last_part(glyphs: &[hb_glyph_info_t]) -> LastPart
    ensures tiles { result.tiles + suffix_len is_tile glyphs.now ≡ length glyphs.now }
    ensures word { result.word + suffix_len in_word (take result.tiles glyphs.now) ≡ result.tiles }
    ensures start { result.start + suffix_len (λ g. not (is_tile g)) (take result.word glyphs.now)
        ≡ result.word }
{
    let tiles = glyphs.len() - count_last_tiles(glyphs);
    let word = tiles - count_last_in_word(&glyphs[..tiles]);
    let start = word - count_last_others(&glyphs[..word]);
    LastPart { start, word, tiles }
}

// How many tiles stand at the end.
#[inline]
fn count_last_tiles(glyphs: &[hb_glyph_info_t]) -> usize
    ensures counted { result ≡ suffix_len is_tile glyphs.now }
    ensures within { result ≤ length glyphs.now }
{
    glyphs
        .iter()
        .rev()
        .take_while(|glyph| is_tile(glyph))
        .count()
}

// How many glyphs at the end can belong to the word before a sequence.
#[inline]
fn count_last_in_word(glyphs: &[hb_glyph_info_t]) -> usize
    ensures counted { result ≡ suffix_len in_word glyphs.now }
    ensures within { result ≤ length glyphs.now }
{
    glyphs
        .iter()
        .rev()
        .take_while(|glyph| in_word(glyph))
        .count()
}

// How many glyphs at the end are no tiles.
#[inline]
fn count_last_others(glyphs: &[hb_glyph_info_t]) -> usize
    ensures counted { result ≡ suffix_len (λ g. not (is_tile g)) glyphs.now }
    ensures within { result ≤ length glyphs.now }
{
    glyphs
        .iter()
        .rev()
        .take_while(|glyph| !is_tile(glyph))
        .count()
}

/// Whether a glyph is a tile.
#[inline]
pub(super) fn is_tile(glyph: &hb_glyph_info_t) -> bool
    ensures { result ≡ is_tile glyph.now }
{
    is_stch(glyph.auxiliary)
}

/// Whether a glyph is a tile that repeats.
#[inline]
pub(super) fn repeats(glyph: &hb_glyph_info_t) -> bool
    ensures { result ≡ repeats glyph.now }
{
    glyph.auxiliary == STRETCHING_REPEATING
}

// Whether a glyph can belong to the word before a sequence.
#[inline]
fn in_word(glyph: &hb_glyph_info_t) -> bool
    ensures { result ≡ in_word glyph.now }
{
    let ignorable = glyph.unicode_props.is_ignorable() && !glyph.glyph_props.is_substituted();
    !is_tile(glyph) && (ignorable || is_word_category(glyph.unicode_props.general_category()))
}

// Whether a character of this category can belong to the word before a sequence.
#[inline]
fn is_word_category(category: hb_unicode_general_category_t) -> bool
    ensures { result ≡ is_word_category category }
{
    use hb_unicode_general_category_t::{Cn, Co, Lm, Lo, Mc, Me, Mn, Nd, Nl, No, Sc, Sk, Sm, So};
    matches!(
        category,
        Cn | Co | Lm | Lo | Mc | Me | Mn | Nd | Nl | No | Sc | Sk | Sm | So
    )
}

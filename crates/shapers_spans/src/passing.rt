//! What the universal grammar passes over.
ghost use Rattle.std.specs.Prelude.{◌≡◌, ◌+◌, ◌<◌, ◌≤◌, drop, length};
ghost use Rattle.shapers_spans.specs.Grammar.{reach_of};
ghost use Rattle.shapers_spans.specs.Passing.{next_is_mark, begins_passed};

use shapers_base::buffer::hb_glyph_info_t;

// The categories of the joiners.
const CGJ: u8 = 6;

const ZWNJ: u8 = 14;

// Whether the first glyph that isn't CGJ is a mark.
#[inline]
fn next_is_mark(glyphs: &[hb_glyph_info_t]) -> bool
    ensures { result ≡ next_is_mark glyphs.now }
{
    for glyph in glyphs {
        if glyph.category != CGJ {
            return glyph.unicode_props.general_category().is_mark();
        }
    }
    false
}

// Whether the text begins with a glyph that is passed over.
#[inline]
fn begins_passed(glyphs: &[hb_glyph_info_t]) -> bool
    requires { 0 < length glyphs.now }
    ensures { result ≡ begins_passed glyphs.now }
{
    match glyphs[0].category {
        CGJ => true,
        ZWNJ => next_is_mark(&glyphs[1..]),
        _ => false,
    }
}

/// The first place from `n` on whose glyph is neither CGJ nor a ZWNJ before a mark.
#[inline]
pub(crate) fn next_read(glyphs: &[hb_glyph_info_t], n: usize) -> usize
    requires { n ≤ length glyphs.now }
    ensures place { result ≡ n + reach_of begins_passed (drop n glyphs.now) 0 }
    ensures within { result ≤ length glyphs.now }
{
    // nearly all glyphs are neither, and then a call would cost more than the answer
    if n < glyphs.len() && glyphs[n].category != CGJ && glyphs[n].category != ZWNJ {
        return n;
    }
    behind_passed(glyphs, n)
}

// The first place from `n` on whose glyph isn't passed over, found glyph by glyph.
#[inline(never)]
fn behind_passed(glyphs: &[hb_glyph_info_t], n: usize) -> usize
    requires { n ≤ length glyphs.now }
    ensures place { result ≡ n + reach_of begins_passed (drop n glyphs.now) 0 }
    ensures within { result ≤ length glyphs.now }
{
    for place in n..glyphs.len() {
        if !begins_passed(&glyphs[place..]) {
            return place;
        }
    }
    glyphs.len()
}

//! Where the left matras of a syllable go. (OpenType, development of Indic scripts: "Reorder
//! matras".)
ghost use Rattle.std.specs.Prelude.{◌≡◌, ◌<◌, ◌≤◌, ◌+◌, ◌-◌, length, unwrap_or};
ghost use Rattle.std.specs.Option.{IfSome};
ghost use Rattle.shapers_indic.specs.Glyphs.{greatest_place, least_place, passes};
ghost use Rattle.shapers_indic_final.specs.FinalMatras.{end_of_base, ends_search, is_free_halant, is_left, matra_target, takes_matras, nearest_halant};

use super::glyphs::{is_halant, is_matra_or_halant};
use super::rules::has_no_half_forms;
use shapers_base::buffer::{Script, hb_glyph_info_t};
use shapers_base::plan::ot_category_t::OT_ZWJ;
use shapers_base::plan::ot_position_t::POS_PRE_M;

// Whether a glyph is a left matra.
#[inline]
pub(super) fn is_left(glyph: &hb_glyph_info_t) -> bool
    ensures { result ≡ is_left glyph.now }
{
    glyph.auxiliary == POS_PRE_M
}

// Whether left matras go to a place: one past the start, where none stands.
#[inline]
pub(super) fn takes_matras(target: usize, glyphs: &[hb_glyph_info_t]) -> bool
    requires { target < length glyphs.now }
    ensures { result ≡ takes_matras target glyphs.now }
{
    target > 0 && !is_left(&glyphs[target])
}

// The end of what merges with a left matra: the base with it, if there is one.
#[inline]
pub(super) fn end_of_base(base: usize, glyphs: &[hb_glyph_info_t]) -> usize
    requires { base ≤ length glyphs.now }
    ensures place { result ≡ end_of_base base glyphs.now }
    ensures within { result ≤ length glyphs.now }
    ensures behind { base ≤ result }
{
    if base < glyphs.len() {
        base + 1
    } else {
        glyphs.len()
    }
}

// The first left matra before the base.
#[inline]
pub(super) fn first_left(base: usize, glyphs: &[hb_glyph_info_t]) -> Option<usize>
    requires { base ≤ length glyphs.now }
    ensures place { result ≡ least_place (passes is_left glyphs.now) 0 base }
    ensures within { IfSome result (λ i. i < base) }
{
    (0..base).find(|&place| is_left_at(glyphs, place))
}

// Whether a left matra stands at a place.
#[inline]
fn is_left_at(glyphs: &[hb_glyph_info_t], place: usize) -> bool
    ensures { result ≡ passes is_left glyphs.now place }
{
    glyphs.get(place).is_some_and(is_left)
}

// The place that left matras go to, the start if they stay. They were put in front of all half
// forms, and are drawn behind those that the font left as letters with a halant. Malayalam and
// Tamil have none: what `half` forms there are chillus and ligatures with a virama, and a left
// matra goes behind them, directly before the base. Of a syllable whose base is lost the last glyph
// counts as one.
#[inline]
pub(super) fn matra_target(script: Option<Script>, base: usize, glyphs: &[hb_glyph_info_t]) -> usize
    requires two { 1 < length glyphs.now }
    requires some { 0 < base }
    requires in_range { base ≤ length glyphs.now }
    ensures target { result ≡ matra_target script base glyphs.now }
    ensures within { result < base }
    ensures inside { result + 1 < length glyphs.now }
{
    let before = if base == glyphs.len() {
        base - 2
    } else {
        base - 1
    };
    if has_no_half_forms(script) {
        before
    } else {
        nearest_halant(before, glyphs)
    }
}

// The halant that left matras go behind: the nearest from a place leftwards, if nothing ends the
// search before it; else the start. A halant with the position of a left matra came to the front
// with one, and says nothing of the consonants.
#[inline]
fn nearest_halant(from: usize, glyphs: &[hb_glyph_info_t]) -> usize
    requires in_range { from + 1 < length glyphs.now }
    ensures target { result ≡ nearest_halant from glyphs.now }
    ensures within { result ≤ from }
{
    let end = search_end(from, glyphs);
    if is_free_halant(&glyphs[end]) { end } else { 0 }
}

// Where the search for a halant ends, else the start.
#[inline]
fn search_end(from: usize, glyphs: &[hb_glyph_info_t]) -> usize
    requires in_range { from + 1 < length glyphs.now }
    ensures end { result ≡ unwrap_or (greatest_place (ends_search glyphs.now) 0 (from + 1)) 0 }
    ensures within { result ≤ from }
{
    for i in (0..from + 1).rev() {
        if ends_search(glyphs, i) {
            return i;
        }
    }
    0
}

// Whether the glyph at `index` ends the search for a halant. One before a ZWJ doesn't: the
// specification has left matras go behind a joiner, but Uniscribe leaves them where they are, so
// that 091F 094D 200D 092F 093F begins with the vowel sign. In 091F 094D 200C 092F 093F it stands
// in the middle; no ZWNJ need be looked for, since behind a halant it ends the syllable. (Fonts that
// show it are Adobe Devanagari and Nirmala UI: HarfBuzz's issue 1070.)
#[inline]
fn ends_search(glyphs: &[hb_glyph_info_t], index: usize) -> bool
    requires { index + 1 < length glyphs.now }
    ensures { result ≡ ends_search glyphs.now index }
{
    is_matra_or_halant(&glyphs[index])
        && !(is_free_halant(&glyphs[index]) && glyphs[index + 1].category == OT_ZWJ)
}

// Whether a glyph is a halant that belongs to no left matra.
#[inline]
fn is_free_halant(glyph: &hb_glyph_info_t) -> bool
    ensures { result ≡ is_free_halant glyph.now }
{
    is_halant(glyph) && !is_left(glyph)
}

//! Hebrew: the order of marks, and the letters that compose with points where the font places no
//! marks.
ghost use Rattle.std.specs.Prelude.{◌≡◌, ◌==◌, ◌&&◌, ◌||◌, ◌≤◌, find, length, option_map, is_some, false, swap, ◌+◌, ◌^◌, ◌<◌, IfSome};
ghost use Rattle.shapers_buffer.specs.Clusters.{merge};
ghost use Rattle.shapers_buffer.specs.Glyph.{order_view};
ghost use Rattle.shapers_buffer.specs.Properties.{modified_combining_class};
ghost use Rattle.shapers_clusters.specs.Steps.{after_step};
ghost use Rattle.shapers_text.specs.Hebrew.{hebrew_mark_step, marks_swapped, HebrewMarksReordered, second_of_triple, begins_triple, hebrew_form, composed_in_hebrew, lacks_dagesh, is_in_dagesh_row, pairs};

use shapers_base::buffer::modified_combining_class::{BELOW, CCC10, CCC14, CCC17, CCC18, CCC22};
use shapers_base::buffer::{
    BufferClusterLevel, UnicodeProps, hb_buffer_t, hb_glyph_info_t, merge_clusters_in,
};
use shapers_base::font::Tables;
use shapers_base::plan::hb_ot_shape_plan_t;

/// Among the marks from `start` to `end`, at the first three neighbours of the classes (patah or
/// qamats), (sheva or hiriq), (meteg or below), merges the last two and swaps them: a meteg stands
/// before the point that it is written left of. It can't refuse and takes no memory.
#[inline]
pub fn reorder_marks(_plan: &hb_ot_shape_plan_t, buffer: &mut hb_buffer_t, start: usize, end: usize)
    requires in_order { start ≤ end }
    requires in_range { end ≤ length buffer.old.glyphs }
    ensures step { let step = hebrew_mark_step start end buffer.old.glyphs in
        let moved = after_step buffer.old.level step buffer.old.glyphs in
        buffer.new ≡ record buffer.old { glyphs = moved } }
    ensures order { let old = order_view buffer.old.glyphs in
        order_view buffer.new.glyphs ≡ marks_swapped start end old }
    ensures laws { HebrewMarksReordered start end buffer.old buffer.new }
{
    let level = buffer.cluster_level();
    buffer.with_glyphs_mut(|glyphs| reorder_marks_in(level, glyphs, start, end));
}

/// `reorder_marks` of glyphs in a slice, whose clusters merge at this level. Returns whether marks
/// changed places: where it returns false nothing changed.
pub fn reorder_marks_in(
    level: BufferClusterLevel,
    glyphs: &mut [hb_glyph_info_t],
    start: usize,
    end: usize,
) -> bool
    requires in_order { start ≤ end }
    requires in_range { end ≤ length glyphs.old }
    ensures step { glyphs.new ≡ after_step level (hebrew_mark_step start end glyphs.old) glyphs.old }
    ensures moved { result ≡ is_some (second_of_triple start end glyphs.old) }
    ensures unchanged { result ≡ false → glyphs.new ≡ glyphs.old }
{
    let Some(i) = find_triple(glyphs, start, end) else {
        return false;
    };
    merge_and_swap(level, glyphs, i);
    true
}

// Merges the glyphs at `i` and behind it, and swaps them.
#[inline(never)]
fn merge_and_swap(level: BufferClusterLevel, glyphs: &mut [hb_glyph_info_t], i: usize)
    requires in_range { i + 1 < length glyphs.old }
    requires fits { i + 2 < 2 ^ 64 }
    ensures { glyphs.new ≡ swap (merge level i (i + 2) glyphs.old) i (i + 1) }
{
    merge_clusters_in(level, glyphs, i, i + 2);
    glyphs.swap(i, i + 1);
}

// The place of the second of the first three such neighbours.
#[inline]
#[allow(clippy::explicit_counter_loop)]
fn find_triple(glyphs: &[hb_glyph_info_t], start: usize, end: usize) -> Option<usize>
    requires in_order { start ≤ end }
    requires in_range { end ≤ length glyphs.now }
    ensures first { result ≡ second_of_triple start end glyphs.now }
    ensures within { IfSome result (λ i. i + 1 < end) }
{
    let marks = &glyphs[start..end];
    let mut second = start + 1;
    for triple in marks.windows(3) {
        if begins_triple(triple) {
            return Some(second);
        }
        second += 1;
    }
    None
}

// Whether the first three are of such classes that the last two change places.
#[inline]
fn begins_triple(marks: &[hb_glyph_info_t]) -> bool
    ensures { result ≡ begins_triple marks.now }
{
    let [a, b, c, ..] = marks else {
        return false;
    };
    is_of_class(a.unicode_props, CCC17, CCC18)
        && is_of_class(b.unicode_props, CCC10, CCC14)
        && is_of_class(c.unicode_props, CCC22, BELOW)
}

// Whether a character's class is one of these two, which aren't 0. (The category says whether the
// high byte is a class; it is read only where the byte would be one of them.)
#[inline]
#[tactic(auto, unfolding(shapers_buffer::specs::Properties::modified_combining_class))]
fn is_of_class(props: UnicodeProps, first: u8, second: u8) -> bool
    requires first { 0 < first }
    requires second { 0 < second }
    ensures { let class = modified_combining_class props in
        result ≡ (class == first || class == second) }
{
    let byte = props.high_byte();
    (byte == first || byte == second) && props.general_category().has_class()
}

/// The composition of two characters: the table's, or else, where GPOS places no marks, the Hebrew
/// presentation form of a letter and a point.
#[inline]
pub fn compose<T: Tables>(plan: &hb_ot_shape_plan_t, tables: &T, a: char, b: char) -> Option<char>
    ensures { let composed = (T.tables tables.now).composed a b in
        result ≡ composed_in_hebrew composed plan.now.has_gpos_mark a b }
{
    match tables.compose(a, b) {
        Some(composed) => Some(composed),
        None if plan.has_gpos_mark => None,
        None => form_of(a, b),
    }
}

/// A letter, a point and the form that they compose to.
const PAIRS: [(char, char, char); 14] = [
    ('\u{05D9}', '\u{05B4}', '\u{FB1D}'),
    ('\u{05F2}', '\u{05B7}', '\u{FB1F}'),
    ('\u{05D0}', '\u{05B7}', '\u{FB2E}'),
    ('\u{05D0}', '\u{05B8}', '\u{FB2F}'),
    ('\u{05D5}', '\u{05B9}', '\u{FB4B}'),
    ('\u{05D1}', '\u{05BF}', '\u{FB4C}'),
    ('\u{05DB}', '\u{05BF}', '\u{FB4D}'),
    ('\u{05E4}', '\u{05BF}', '\u{FB4E}'),
    ('\u{05E9}', '\u{05C1}', '\u{FB2A}'),
    ('\u{FB49}', '\u{05C1}', '\u{FB2C}'),
    ('\u{05E9}', '\u{05C2}', '\u{FB2B}'),
    ('\u{FB49}', '\u{05C2}', '\u{FB2D}'),
    ('\u{FB2A}', '\u{05BC}', '\u{FB2C}'),
    ('\u{FB2B}', '\u{05BC}', '\u{FB2D}'),
];

/// Alef with dagesh, where the row of letters with dagesh begins.
const ALEF_WITH_DAGESH: u32 = 0xFB30;

// The presentation form of a letter and a point.
#[inline]
fn form_of(a: char, b: char) -> Option<char>
    ensures { result ≡ hebrew_form a b }
{
    if is_in_dagesh_row(a, b) {
        return char::from_u32(ALEF_WITH_DAGESH + (a as u32 - 0x05D0));
    }
    listed_form(a, b)
}

// Whether a letter and dagesh stand in the row of letters with dagesh.
#[inline]
fn is_in_dagesh_row(a: char, b: char) -> bool
    ensures { result ≡ is_in_dagesh_row a b }
{
    b == '\u{05BC}' && matches!(a, '\u{05D0}'..='\u{05EA}') && !lacks_dagesh(a)
}

// Whether a letter has no form with dagesh.
#[inline]
fn lacks_dagesh(a: char) -> bool
    ensures { result ≡ lacks_dagesh a }
{
    matches!(
        a,
        '\u{05D7}' | '\u{05DD}' | '\u{05DF}' | '\u{05E2}' | '\u{05E5}'
    )
}

// The form in the list of pairs.
#[inline]
fn listed_form(a: char, b: char) -> Option<char>
    ensures { result ≡ option_map (λ p. p.2) (find (λ p. (p.0 == a) && (p.1 == b)) pairs) }
{
    PAIRS
        .iter()
        .find(|pair| pair.0 == a && pair.1 == b)
        .map(|pair| pair.2)
}

//! The order of Arabic marks: those that modify a letter come first. (Unicode Technical Report 53.)
ghost use Rattle.std.specs.Prelude.{◌≡◌, ◌==◌, ◌+◌, ◌≤◌, false, length, map};
ghost use Rattle.std.specs.List.{list_any, prefix_len};
ghost use Rattle.shapers_buffer.specs.Clusters.{merge_all, stretch_of};
ghost use Rattle.shapers_buffer.specs.Glyph.{order_view};
ghost use Rattle.shapers_clusters.specs.Steps.{shifted};
ghost use Rattle.shapers_arabic.specs.MarkParts.{is_among_modifiers, is_modifier, may_modify, lengths_of, end_of, passed_by, last_marks_first};
ghost use Rattle.shapers_arabic.specs.Marks.{ArabicMarksReordered, ModifiersTakeClasses, in_class, has_lower_class, is_modifier_of, marks_merged, marks_reordered, merged_for, modifiers, split_marks, with_modifiers_first};

use shapers_base::buffer::modified_combining_class::{BELOW, CCC22, CCC26};
use shapers_base::buffer::{BufferClusterLevel, hb_buffer_t, hb_glyph_info_t, merge_clusters_in};
use shapers_base::plan::hb_ot_shape_plan_t;

/// The marks that modify a letter.
const MODIFIERS: [u32; 14] = [
    0x0654, 0x0655, 0x0658, 0x06DC, 0x06E3, 0x06E7, 0x06E8, 0x08CA, 0x08CB, 0x08CD, 0x08CE, 0x08CF,
    0x08D3, 0x08F3,
];

/// The class of marks above.
const ABOVE: u8 = 230;

/// Among the marks from `start` to `end`, brings those that modify a letter to the front, in
/// classes of their own: first the ones below it, then the ones above it. What they pass merges
/// with them. It can't refuse and takes no memory. (Unicode Technical Report 53.)
#[inline]
pub fn reorder_marks(_plan: &hb_ot_shape_plan_t, buffer: &mut hb_buffer_t, start: usize, end: usize)
    requires in_order { start ≤ end }
    requires in_range { end ≤ length buffer.old.glyphs }
    requires at_most_32 { end ≤ start + 32 }
    ensures marks { let merged = marks_merged buffer.old.level start end buffer.old.glyphs in
        buffer.new ≡ record buffer.old { glyphs = marks_reordered start end merged } }
    ensures order { let view = order_view buffer.old.glyphs in
        order_view buffer.new.glyphs ≡ marks_reordered start end view }
    ensures classes { ModifiersTakeClasses start end buffer.old.glyphs buffer.new.glyphs }
    ensures laws { ArabicMarksReordered start end buffer.old buffer.new }
{
    let level = buffer.cluster_level();
    buffer.with_glyphs_mut(|glyphs| reorder_marks_in(level, glyphs, start, end));
}

/// `reorder_marks` of glyphs in a slice, whose clusters merge at this level. Returns whether one of
/// the marks modifies a letter: where it returns false nothing changed.
pub fn reorder_marks_in(
    level: BufferClusterLevel,
    glyphs: &mut [hb_glyph_info_t],
    start: usize,
    end: usize,
) -> bool
    requires in_order { start ≤ end }
    requires in_range { end ≤ length glyphs.old }
    ensures marks { glyphs.new
        ≡ marks_reordered start end (marks_merged level start end glyphs.old) }
    ensures moved { let marks = stretch_of start end glyphs.old in
        result ≡ list_any is_modifier marks }
    ensures unchanged { result ≡ false → glyphs.new ≡ glyphs.old }
    ensures classes { ModifiersTakeClasses start end glyphs.old glyphs.new }
{
    if !may_have_modifier(&glyphs[start..end]) {
        return false;
    }
    reorder_modifiers(level, glyphs, start, end)
}

// Whether one of these marks may modify a letter.
#[inline]
fn may_have_modifier(marks: &[hb_glyph_info_t]) -> bool
    ensures { result ≡ list_any may_modify marks.now }
{
    marks.iter().any(may_modify)
}

// Whether the mark may modify a letter: by its class, if its category has one, and by where its
// character stands. (Few marks may, and it is faster to ask this of all marks first.)
#[inline]
fn may_modify(mark: &hb_glyph_info_t) -> bool
    ensures { result ≡ may_modify mark.now }
{
    matches!(mark.unicode_props.high_byte(), BELOW | ABOVE) && is_among_modifiers(mark.glyph_id)
}

// Whether a character is in one of the three ranges of `MODIFIERS`.
#[inline]
fn is_among_modifiers(character: u32) -> bool
    ensures { result ≡ is_among_modifiers character }
{
    matches!(
        character,
        0x0654..=0x0658 | 0x06DC..=0x06E8 | 0x08CA..=0x08F3
    )
}

// `reorder_marks_in`, where one of the marks may modify a letter.
#[inline(never)]
fn reorder_modifiers(
    level: BufferClusterLevel,
    glyphs: &mut [hb_glyph_info_t],
    start: usize,
    end: usize,
) -> bool
    requires in_order { start ≤ end }
    requires in_range { end ≤ length glyphs.old }
    ensures marks { glyphs.new
        ≡ marks_reordered start end (marks_merged level start end glyphs.old) }
    ensures moved { let marks = stretch_of start end glyphs.old in
        result ≡ list_any is_modifier marks }
    ensures unchanged { result ≡ false → glyphs.new ≡ glyphs.old }
{
    if !has_modifier(&glyphs[start..end]) {
        return false;
    }
    move_modifiers(level, glyphs, start, end);
    true
}

// Whether one of these marks modifies a letter.
#[inline]
fn has_modifier(marks: &[hb_glyph_info_t]) -> bool
    ensures { result ≡ list_any is_modifier marks.now }
{
    marks.iter().any(|mark| is_modifier_of(BELOW, mark) || is_modifier_of(ABOVE, mark))
}

// Merges what the modifiers pass with them, and brings them to the front.
#[inline]
fn move_modifiers(
    level: BufferClusterLevel,
    glyphs: &mut [hb_glyph_info_t],
    start: usize,
    end: usize,
)
    requires in_order { start ≤ end }
    requires in_range { end ≤ length glyphs.old }
    ensures { glyphs.new ≡ marks_reordered start end (marks_merged level start end glyphs.old) }
{
    let parts = mark_lengths(&glyphs[start..end]);
    merge_passed(level, glyphs, start, parts);
    bring_forward(&mut glyphs[start..end], parts);
}

// How many marks stand in the first four of the five parts.
#[derive(Clone, Copy)]
struct Lengths {
    low: usize,
    modifiers_below: usize,
    middle: usize,
    modifiers_above: usize,
}

// The lengths of the parts of these marks.
#[inline]
fn mark_lengths(marks: &[hb_glyph_info_t]) -> Lengths
    ensures lengths { result ≡ lengths_of (split_marks marks.now) }
    ensures within { end_of result ≤ length marks.now }
{
    let low = count_below(BELOW, marks);
    let second = &marks[low..];
    let modifiers_below = count_modifiers(BELOW, second);
    let third = &second[modifiers_below..];
    let middle = count_below(ABOVE, third);
    let modifiers_above = count_modifiers(ABOVE, &third[middle..]);
    Lengths {
        low,
        modifiers_below,
        middle,
        modifiers_above,
    }
}

// How many marks in front are of classes below this one.
#[inline]
fn count_below(class: u8, marks: &[hb_glyph_info_t]) -> usize
    ensures counted { result ≡ prefix_len (has_lower_class class) marks.now }
    ensures within { result ≤ length marks.now }
{
    marks
        .iter()
        .take_while(|mark| mark.unicode_props.modified_combining_class() < class)
        .count()
}

// How many marks in front are of this class and modify a letter.
#[inline]
fn count_modifiers(class: u8, marks: &[hb_glyph_info_t]) -> usize
    ensures counted { result ≡ prefix_len (is_modifier_of class) marks.now }
    ensures within { result ≤ length marks.now }
{
    marks
        .iter()
        .take_while(|mark| is_modifier_of(class, mark))
        .count()
}

// Whether a mark is of this class and modifies a letter.
#[inline]
fn is_modifier_of(class: u8, mark: &hb_glyph_info_t) -> bool
    ensures { result ≡ is_modifier_of class mark.now }
{
    mark.unicode_props.modified_combining_class() == class && modifies(mark.glyph_id)
}

// Whether this mark modifies a letter.
#[inline]
fn modifies(character: u32) -> bool
    ensures { result ≡ list_any (λ c. c == character) modifiers }
{
    MODIFIERS.contains(&character)
}

// Merges what the modifiers pass with them.
#[inline]
fn merge_passed(
    level: BufferClusterLevel,
    glyphs: &mut [hb_glyph_info_t],
    start: usize,
    parts: Lengths,
)
    requires { start + end_of parts ≤ length glyphs.old }
    ensures { glyphs.new ≡ merge_all level (shifted start (passed_by parts)) glyphs.old }
{
    let second = start + parts.modifiers_below;
    let third = start + parts.low + parts.modifiers_below;
    merge_for(level, glyphs, parts.modifiers_below, start, third);
    let last = third + parts.middle + parts.modifiers_above;
    merge_for(level, glyphs, parts.modifiers_above, second, last);
}

// Merges the glyphs from `s` to `e`, unless no marks move.
#[inline]
fn merge_for(
    level: BufferClusterLevel,
    glyphs: &mut [hb_glyph_info_t],
    moved: usize,
    s: usize,
    e: usize,
)
    requires in_order { s ≤ e }
    requires in_range { e ≤ length glyphs.old }
    ensures { glyphs.new ≡ merge_all level (merged_for moved s e) glyphs.old }
{
    if moved == 0 {
        return;
    }
    merge_clusters_in(level, glyphs, s, e);
}

// Brings the modifiers to the front, those below first.
#[inline]
fn bring_forward(marks: &mut [hb_glyph_info_t], parts: Lengths)
    requires { parts ≡ lengths_of (split_marks marks.old) }
    ensures { marks.new ≡ with_modifiers_first (split_marks marks.old) }
{
    let first = parts.modifiers_below;
    let passed = parts.low + parts.modifiers_below;
    bring_last(&mut marks[..passed], first, CCC22);
    let last = passed + parts.middle + parts.modifiers_above;
    bring_last(&mut marks[first..last], parts.modifiers_above, CCC26);
}

// Brings the last `count` marks before the others, and gives them a class below all others of Arabic:
// normalization relies on classes that rise along the marks (HarfBuzz's issue 554).
#[inline]
fn bring_last(marks: &mut [hb_glyph_info_t], count: usize, class: u8)
    requires { count ≤ length marks.old }
    ensures { marks.new ≡ last_marks_first count class marks.old }
{
    if count == 0 {
        return;
    }
    marks.rotate_right(count);
    set_class(&mut marks[..count], class);
}

// Gives all these marks a class.
#[inline]
fn set_class(marks: &mut [hb_glyph_info_t], class: u8)
    ensures { marks.new ≡ map (in_class class) marks.old }
{
    for mark in marks.iter_mut() {
        mark.unicode_props.set_modified_combining_class(class);
    }
}

//! Type 4: a ligature in the place of several glyphs, and the marks that belong to it.
ghost use Rattle.std.specs.Prelude.{◌≡◌, ◌==◌, ◌<◌, ◌≤◌, ◌-◌, ◌+◌, length, slice_set};
ghost use Rattle.std.specs.List.{list_all, list_any};
ghost use Rattle.opentype_gsub.specs.Edits.{last_place};
ghost use Rattle.opentype_gsub.specs.Ligated.{as_letter, as_mark, components_of, counted_too, followed_by_marks, guess_for, is_mark_at, is_base_at, is_of_base, is_of_last, is_of_marks, ligature_joined, ligated, ligature_glyph, marks_inside, marked_one, number_before, number_for, with_followers};
ghost use Rattle.opentype_layout.specs.Text.{glyph_at};

use crate::edits::{last_of, merge_up_to, place_behind, remove_all, replacement};
use opentype_face::class_table::ClassTable;
use opentype_layout::glyph_text::GlyphText;
use shapers_buffer::buffer::{
    BufferClusterLevel, GlyphProps, LigProps, UnicodeProps, hb_glyph_info_t,
};

/// The components of a ligature as far as they are counted.
#[derive(Clone, Copy, Debug)]
pub struct Counted {
    // how many they are
    pub(crate) all: usize,
    // how many the last glyph has
    pub(crate) last: usize,
    // its ligature's number
    pub(crate) number: u8,
}

// How many components a glyph has.
#[inline]
#[tactic(auto, unfolding(crate::specs::Ligated::components_of))]
fn components(glyph: &hb_glyph_info_t) -> usize
    ensures value { result ≡ components_of glyph.now }
    ensures few { result ≤ 15 }
{
    let props = glyph.lig_props.0;
    if glyph.glyph_props.0 & 4 == 4 && props / 16 % 2 == 1 {
        usize::from(props % 16)
    } else {
        1
    }
}

impl Counted {
    // With one more glyph of the ligature.
    #[inline]
    #[tactic(auto, unfolding(crate::specs::Ligated::counted_too))]
    fn with(self, glyph: &hb_glyph_info_t) -> Self
        ensures { result ≡ counted_too self glyph.now }
    {
        let count = components(glyph);
        Counted {
            all: self.all.saturating_add(count),
            last: count,
            number: glyph.lig_props.0 / 32,
        }
    }
}

// Whether the glyph at a place is a mark.
#[inline]
fn is_mark(glyphs: &GlyphText, place: usize) -> bool
    ensures { result ≡ is_mark_at glyphs.now place }
{
    if place < glyphs.len() {
        glyphs.at(place).glyph_props.0 & 8 == 8
    } else {
        false
    }
}

#[inline]
fn is_base(glyphs: &GlyphText, place: usize) -> bool
    ensures { result ≡ is_base_at glyphs.now place }
{
    if place < glyphs.len() {
        glyphs.at(place).glyph_props.0 & 2 == 2
    } else {
        false
    }
}

// Whether all glyphs at some places are marks.
fn all_marks(glyphs: &GlyphText, places: &[usize]) -> bool
    ensures { result ≡ list_all (is_mark_at glyphs.now) places.now }
{
    places.iter().all(|place| is_mark(glyphs, *place))
}

#[tactic(auto, unfolding(crate::specs::Ligated::is_of_marks))]
fn of_marks(glyphs: &GlyphText, at: usize, places: &[usize]) -> bool
    ensures { result ≡ is_of_marks glyphs.now at places.now }
{
    if !is_mark(glyphs, at) {
        return false;
    }
    all_marks(glyphs, places)
}

#[tactic(auto, unfolding(crate::specs::Ligated::is_of_base))]
fn of_base(glyphs: &GlyphText, at: usize, places: &[usize]) -> bool
    ensures { result ≡ is_of_base glyphs.now at places.now }
{
    if !is_base(glyphs, at) {
        return false;
    }
    all_marks(glyphs, places)
}

// The number of the nearest ligature before a place, or 0.
fn nearest_number(glyphs: &GlyphText, at: usize) -> u8
    requires { at ≤ length glyphs.now }
    ensures { result ≡ number_before at glyphs.now }
{
    for i in (0..at).rev() {
        let number = glyphs.at(i).lig_props.0 / 32;
        if number != 0 {
            return number;
        }
    }
    0
}

// The number of a ligature; 0 where marks don't belong to it.
#[tactic(auto, unfolding(crate::specs::Ligated::number_for))]
fn number(glyphs: &GlyphText, at: usize, places: &[usize]) -> u8
    requires { at ≤ length glyphs.now }
    ensures value { result ≡ number_for glyphs.now at places.now }
    ensures few { result < 8 }
{
    if of_marks(glyphs, at, places) || of_base(glyphs, at, places) {
        return 0;
    }
    nearest_number(glyphs, at) % 7 + 1
}

// A glyph as a mark of a ligature with a number.
#[inline]
#[tactic(auto, unfolding(crate::specs::Ligated::as_mark))]
fn mark(number: u8, counted: Counted, glyph: hb_glyph_info_t) -> hb_glyph_info_t
    requires { number < 8 }
    ensures { result ≡ as_mark number counted glyph }
{
    let own = usize::from(glyph.lig_props.component());
    let inside = if own == 0 {
        counted.last
    } else {
        own.min(counted.last)
    };
    let component = counted.all.saturating_sub(counted.last) + inside;
    let mut new = glyph;
    new.lig_props = LigProps(number * 32 + (component % 16) as u8);
    new
}

// The glyph at a place becomes a mark of a ligature with a number.
fn mark_at(text: &mut GlyphText, i: usize, number: u8, counted: Counted)
    requires few { number < 8 }
    requires here { i < length text.old }
    ensures { text.new ≡ slice_set text.old i (as_mark number counted (glyph_at text.old i)) }
{
    let glyph = *text.at(i);
    text.set(i, mark(number, counted, glyph));
}

// With the glyph at a place.
fn with_glyph(counted: Counted, glyphs: &GlyphText, i: usize) -> Counted
    requires { i < length glyphs.now }
    ensures { result ≡ counted_too counted (glyph_at glyphs.now i) }
{
    counted.with(glyphs.at(i))
}

// Whether a place is one of the ligature's.
fn is_among(places: &[usize], i: usize) -> bool
    ensures { result ≡ list_any (λ p. p == i) places.now }
{
    places.iter().any(|place| *place == i)
}

// The glyph at a place: one of the ligature's, or a mark among them.
#[tactic(auto, unfolding(crate::specs::Ligated::marked_one))]
fn mark_one(
    text: &mut GlyphText,
    i: usize,
    places: &[usize],
    number: u8,
    counted: Counted,
) -> Counted
    requires few { number < 8 }
    requires here { i < length text.old }
    ensures { marked_one number places.now text.old i counted ≡ record { text = text.new; counted = result } }
{
    if is_among(places, i) {
        return with_glyph(counted, text, i);
    }
    if number == 0 {
        return counted;
    }
    mark_at(text, i, number, counted);
    counted
}

// The glyphs between the ligature's, up to its last one.
fn mark_inside(
    text: &mut GlyphText,
    at: usize,
    last: usize,
    places: &[usize],
    number: u8,
    counted: Counted,
) -> Counted
    requires few { number < 8 }
    requires behind { last < length text.old }
    requires here { at < length text.old }
    ensures { marks_inside (last - at) number places.now text.old (at + 1) counted
        ≡ record { text = text.new; counted = result } }
{
    let (first, end) = (place_behind(text, at), place_behind(text, last));
    let mut counted = counted;
    for i in first..end {
        counted = mark_one(text, i, places, number, counted);
    }
    counted
}

// Whether the glyph at a place is a mark of the last one's component.
#[inline]
#[tactic(auto, unfolding(crate::specs::Ligated::is_of_last))]
fn follows(counted: Counted, glyphs: &GlyphText, i: usize) -> bool
    requires { i < length glyphs.now }
    ensures { result ≡ is_of_last counted (glyph_at glyphs.now i) }
{
    let props = glyphs.at(i).lig_props;
    props.0 / 32 == counted.number && props.component() != 0
}

// The marks from a place on that were of the last glyph.
fn mark_followers(text: &mut GlyphText, from: usize, number: u8, counted: Counted)
    requires { number < 8 }
    ensures { text.new ≡ followed_by_marks (length text.old - from) number counted text.old from }
{
    for i in from..text.len() {
        if !follows(counted, text, i) {
            return;
        }
        mark_at(text, i, number, counted);
    }
}

#[tactic(auto, unfolding(crate::specs::Ligated::with_followers))]
fn mark_behind(text: &mut GlyphText, of_marks: bool, from: usize, number: u8, counted: Counted)
    requires { number < 8 }
    ensures { text.new ≡ with_followers of_marks number counted text.old from }
{
    if of_marks || counted.number == 0 {
        return;
    }
    mark_followers(text, from, number, counted);
}

#[inline]
#[tactic(auto, unfolding(crate::specs::Ligated::as_letter))]
fn letter(props: UnicodeProps) -> UnicodeProps
    ensures { result ≡ as_letter props }
{
    if props.0 % 32 == 12 {
        UnicodeProps(props.0 - 5)
    } else {
        props
    }
}

// A ligature's class, where the font has none.
#[inline]
fn guess(number: u8) -> u16
    ensures { result ≡ guess_for number }
{
    if number == 0 { 0 } else { 4 }
}

// A glyph that comes in for several.
#[tactic(auto, unfolding(crate::specs::Ligated::ligature_glyph))]
fn ligature(
    classes: &ClassTable<'_>,
    to: u16,
    number: u8,
    count: usize,
    glyph: hb_glyph_info_t,
) -> hb_glyph_info_t
    requires { number < 8 }
    ensures { result ≡ ligature_glyph classes.now.gdef.now to number count glyph }
{
    let mut new = replacement(classes, to, guess(number), glyph);
    new.glyph_props = GlyphProps((new.glyph_props.0 | 32) & 65471);
    if number == 0 {
        return new;
    }
    new.lig_props = LigProps(number * 32 + 16 + (count % 16) as u8);
    new.unicode_props = letter(new.unicode_props);
    new
}

// The ligature in the place of the first glyph, in the cluster of all.
#[tactic(auto, unfolding(crate::specs::Ligated::ligature_joined))]
fn join(
    classes: &ClassTable<'_>,
    level: BufferClusterLevel,
    text: &mut GlyphText,
    at: usize,
    places: &[usize],
    to: u16,
)
    requires here { at < length text.old }
    requires behind { last_place at places.now < length text.old }
    ensures { text.new ≡ ligature_joined classes.now.gdef.now level at places.now to text.old }
{
    let last = last_of(at, places);
    merge_up_to(level, text, at, last);
    let first = *text.at(at);
    let number = number(text, at, places);
    let of_marks = of_marks(text, at, places);
    let none = Counted {
        all: 0,
        last: 0,
        number: 0,
    };
    let counted = mark_inside(text, at, last, places, number, none.with(&first));
    let behind = place_behind(text, last);
    mark_behind(text, of_marks, behind, number, counted);
    text.set(at, ligature(classes, to, number, counted.all, first));
}

/// Puts one glyph in for the one at a place and those at other places behind it.
#[tactic(auto, unfolding(crate::specs::Ligated::ligated))]
pub fn ligate(
    classes: &ClassTable<'_>,
    level: BufferClusterLevel,
    text: &mut GlyphText,
    at: usize,
    places: &[usize],
    to: u16,
)
    requires here { at < length text.old }
    requires behind { last_place at places.now < length text.old }
    ensures { text.new ≡ ligated classes.now.gdef.now level at places.now to text.old }
{
    join(classes, level, text, at, places, to);
    remove_all(text, places);
}

//! Where the input of a rule finds its glyphs.
ghost use Rattle.std.specs.Prelude.{◌≡◌, ◌<◌, ◌≤◌, ℕ, [], true, length, IfSome, None, Some, slice_index, if◌then◌else◌};
ghost use Rattle.std.specs.List.{list_any};
ghost use Rattle.opentype_layout.specs.Ligatures.{base_before, base_seen, input_in, is_apart, is_attached, is_seen_through, ligature_in};
ghost use Rattle.opentype_layout.specs.Pattern.{fits};
ghost use Rattle.opentype_layout.specs.Text.{glyph_at};

use crate::glyph_text::GlyphView;
use crate::pattern::Pattern;
use crate::places::{Places, find_places};
use crate::sight::{Sight, ignores_glyph};
use shapers_buffer::buffer::LigProps;

// The ligature that the glyph at a place is or belongs to.
#[inline]
fn props_at(glyphs: &GlyphView<'_>, at: usize) -> LigProps
    ensures { result ≡ (glyph_at glyphs.now at).lig_props }
{
    if at < glyphs.len() {
        glyphs.at(at).lig_props
    } else {
        LigProps::NONE
    }
}

#[inline]
fn ligature(props: LigProps) -> u8
    ensures { result ≡ ligature_in props }
{
    props.0 / 32
}

// Whether a glyph is a mark of a ligature's component.
#[inline]
fn attached(props: LigProps) -> bool
    ensures { result ≡ is_attached props }
{
    ligature(props) != 0 && props.component() != 0
}

// What a search backwards for a ligature makes of a glyph.
#[inline]
fn sees_base(number: u8, props: LigProps) -> Option<bool>
    ensures { result ≡ base_seen number props }
{
    if ligature(props) != number {
        return Some(false);
    }
    if props.component() == 0 {
        return Some(true);
    }
    None
}

// How many glyphs stand between a mark and its ligature.
fn find_base(glyphs: &GlyphView<'_>, number: u8, at: usize) -> Option<usize>
    requires { at ≤ length glyphs.now }
    ensures value { result ≡ base_before glyphs.now number at }
    ensures within { IfSome result (λ i. i < at) }
{
    for i in 0..at {
        let seen = sees_base(number, glyphs.at(at - 1 - i).lig_props);
        if let Some(is_found) = seen {
            return if is_found { Some(i) } else { None };
        }
    }
    None
}

// Whether a lookup ignores the ligature of a mark.
fn sees_through(gdef: &[u8], sight: &Sight, glyphs: &GlyphView<'_>, number: u8, at: usize) -> bool
    requires { at ≤ length glyphs.now }
    ensures { result ≡ is_seen_through gdef.now sight.now glyphs.now number at }
{
    if sight.of_gpos {
        return false;
    }
    match find_base(glyphs, number, at) {
        Some(i) => ignores_glyph(gdef, sight.flag, sight.set, glyphs.at(at - 1 - i)),
        None => false,
    }
}

// Whether a glyph can't be of an input, by the ligatures that both belong to.
#[tactic(auto, unfolding(crate::specs::Ligatures::is_apart))]
fn apart(gdef: &[u8], sight: &Sight, glyphs: &GlyphView<'_>, at: usize, place: usize) -> bool
    requires { at ≤ length glyphs.now }
    ensures { result ≡ is_apart gdef.now sight.now glyphs.now at place }
{
    let first = props_at(glyphs, at);
    let other = props_at(glyphs, place);
    let is_same = ligature(other) == ligature(first);
    if !attached(first) {
        return attached(other) && !is_same;
    }
    if is_same && other.component() == first.component() {
        return false;
    }
    !sees_through(gdef, sight, glyphs, ligature(first), at)
}

// Whether one of these places can't be of an input.
fn is_any_apart(
    gdef: &[u8],
    sight: &Sight,
    glyphs: &GlyphView<'_>,
    at: usize,
    places: &[usize],
) -> bool
    requires { at ≤ length glyphs.now }
    ensures { result ≡ list_any (is_apart gdef.now sight.now glyphs.now at) places.now }
{
    places
        .iter()
        .any(|place| apart(gdef, sight, glyphs, at, *place))
}

/// Puts into an empty list where the glyphs of an input are behind its first one, at `at`: so many
/// places of a pattern, from place 0. Marks of different components of a ligature aren't of one
/// input. Returns whether all are found; where they aren't, what the list has is of no use.
#[tactic(auto, unfolding(crate::specs::Ligatures::input_in))]
pub fn find_input(
    gdef: &[u8],
    sight: &Sight,
    pattern: &Pattern<'_>,
    count: u16,
    glyphs: &GlyphView<'_>,
    at: usize,
    places: &mut Places,
) -> bool
    requires few { count ≤ 63 }
    requires inside { at < length glyphs.now }
    requires none { places.old.items ≡ [] }
    ensures within { (j : ℕ) → j < length places.new.items →
        slice_index places.new.items j < length glyphs.now }
    ensures number { result ≡ true → length places.new.items ≡ count }
    ensures value { (if result then Some places.new.items else None)
        ≡ input_in gdef.now sight.now (fits pattern.now) count glyphs.now at }
{
    let from = glyphs.after(at);
    if !find_places(gdef, sight, pattern, count, glyphs, from, places) {
        return false;
    }
    !is_any_apart(gdef, sight, glyphs, at, places.as_slice())
}

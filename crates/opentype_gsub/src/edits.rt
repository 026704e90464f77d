//! What lookups do to glyphs.
ghost use Rattle.std.specs.Prelude.{◌≡◌, ◌<◌, ◌+◌, ◌^◌, length, OnOk, slice_set};
ghost use Rattle.opentype_gsub.specs.Edits.{count_in, handed_on, last_place, merged_up_to, multiplied, new_props, sequence_glyph, removed_all, replaced};
ghost use Rattle.opentype_layout.specs.Text.{glyph_at};
ghost use Rattle.std.specs.List.{remove};

use opentype_face::bytes::u16_at;
use opentype_face::class_table::ClassTable;
use opentype_layout::glyph_text::GlyphText;
use shapers_buffer::buffer::{
    BufferClusterLevel, GlyphProps, LigProps, ShaperError, hb_glyph_info_t,
};

// The properties of a glyph that is put in.
#[inline]
#[tactic(auto, unfolding(crate::specs::Edits::new_props))]
fn props_for(classes: &ClassTable<'_>, to: u16, guess: u16, old: u16) -> u16
    ensures { result ≡ new_props classes.now.gdef.now to guess old }
{
    let props = old | 16;
    match classes.glyph_props(to) {
        Some(class) => props & 112 | class,
        None if guess == 0 => props,
        None => props & 112 | guess,
    }
}

/// A glyph with another number; `guess` is its class where the font has none.
#[inline]
#[tactic(auto, unfolding(crate::specs::Edits::replaced))]
pub fn replacement(
    classes: &ClassTable<'_>,
    to: u16,
    guess: u16,
    glyph: hb_glyph_info_t,
) -> hb_glyph_info_t
    ensures { result ≡ replaced classes.now.gdef.now to guess glyph }
{
    let mut new = glyph;
    new.glyph_id = u32::from(to);
    new.glyph_props = GlyphProps(props_for(classes, to, guess, glyph.glyph_props.0));
    new
}

/// Puts another glyph in.
pub fn replace(classes: &ClassTable<'_>, text: &mut GlyphText, at: usize, to: u16, guess: u16)
    requires { at < length text.old }
    ensures text { let gdef = classes.now.gdef.now in text.new ≡
        slice_set text.old at (replaced gdef to guess (glyph_at text.old at)) }
    ensures next { at + 1 < 2 ^ 64 }
{
    let glyph = *text.at(at);
    text.set(at, replacement(classes, to, guess, glyph));
}

// One of a sequence of glyphs that come in for one.
#[inline]
#[tactic(auto, unfolding(crate::specs::Edits::sequence_glyph, crate::specs::Edits::replaced))]
fn glyph_of_sequence(
    classes: &ClassTable<'_>,
    sequence: &[u8],
    glyph: hb_glyph_info_t,
    k: u16,
) -> hb_glyph_info_t
    ensures { result ≡ sequence_glyph classes.now.gdef.now sequence.now glyph k }
{
    let guess = if glyph.glyph_props.0 & 4 == 0 { 0 } else { 2 };
    let to = u16_at(sequence, 2 + usize::from(k) * 2);
    let mut new = replacement(classes, to, guess, glyph);
    new.glyph_props = GlyphProps(new.glyph_props.0 | 64);
    if glyph.lig_props.0 < 32 {
        new.lig_props = LigProps((k % 16) as u8);
    }
    new
}

/// How many glyphs a sequence has.
#[inline]
pub fn count_of(sequence: &[u8]) -> u16
    ensures { result ≡ count_in sequence.now }
{
    u16_at(sequence, 0)
}

/// Puts the glyphs of a sequence in for one.
///
/// # Errors
///
/// `Memory`.
pub fn multiply(
    classes: &ClassTable<'_>,
    text: &mut GlyphText,
    at: usize,
    sequence: &[u8],
) -> Result<(), ShaperError>
    requires { at < length text.old }
    ensures { OnOk result (text.new ≡ multiplied classes.now.gdef.now sequence.now at text.old) }
{
    let glyph = *text.at(at);
    text.remove(at);
    let count = count_of(sequence);
    for k in (0..count).rev() {
        text.insert(at, glyph_of_sequence(classes, sequence, glyph, k))?;
    }
    Ok(())
}

// Hands the cluster of a glyph that goes on to a neighbour.
#[tactic(auto, unfolding(crate::specs::Edits::handed_on))]
fn hand_on(level: BufferClusterLevel, text: &mut GlyphText, at: usize)
    requires { at < length text.old }
    ensures { text.new ≡ handed_on level at text.old }
{
    let here = text.at(at).cluster;
    if at + 1 < text.len() && text.at(at + 1).cluster == here {
        return;
    }
    if at == 0 {
        if at + 1 < text.len() {
            text.merge_clusters(level, at, at + 2);
        }
        return;
    }
    if here < text.at(at - 1).cluster {
        text.merge_clusters(level, at - 1, at + 1);
    }
}

/// Takes a glyph out, but not its place in the text.
pub fn delete(level: BufferClusterLevel, text: &mut GlyphText, at: usize)
    requires { at < length text.old }
    ensures { text.new ≡ remove (handed_on level at text.old) at }
{
    hand_on(level, text, at);
    text.remove(at);
}

// Takes glyphs out, the last first.
pub(crate) fn remove_all(text: &mut GlyphText, places: &[usize])
    ensures { text.new ≡ removed_all places.now text.old }
{
    for i in (0..places.len()).rev() {
        let place = places[i];
        if place < text.len() {
            text.remove(place);
        }
    }
}

// The place behind a glyph. (A text's length fits a `usize`, and so does this.)
#[inline]
pub(crate) fn place_behind(text: &GlyphText, at: usize) -> usize
    requires { at < length text.now }
    ensures { result ≡ at + 1 }
{
    let _len = text.len();
    at + 1
}

// The last of a place and those behind it.
#[inline]
pub(crate) fn last_of(at: usize, places: &[usize]) -> usize
    ensures { result ≡ last_place at places.now }
{
    if places.is_empty() {
        at
    } else {
        places[places.len() - 1]
    }
}

// Merges the clusters of a stretch by its first place and its last one.
#[inline]
#[tactic(auto, unfolding(crate::specs::Edits::merged_up_to))]
pub(crate) fn merge_up_to(level: BufferClusterLevel, text: &mut GlyphText, at: usize, last: usize)
    requires { last < length text.old }
    ensures { text.new ≡ merged_up_to level at last text.old }
{
    if at < last {
        let end = place_behind(text, last);
        text.merge_clusters(level, at, end);
    }
}

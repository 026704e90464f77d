//! How an engine finds the syllables of a word, and what it reads in the laws of found syllables.
ghost use Rattle.std.specs.Prelude.{◌≡◌, ◌==◌, ◌<◌, ◌≤◌, All, IfOk, IfSome, IsOkUnless, length};
ghost use Rattle.std.specs.List.{list_all, list_any};
ghost use Rattle.shapers_bench.specs.BorderedWords.{HasBorders, is_whole_syllable, khmer_word, opens_grapheme};
ghost use Rattle.shapers_buffer.specs.declared.buffer.refusal.ShaperError.TheVariants.{Memory};
ghost use Rattle.shapers_found_laws.specs.FoundSyllables.{OpensWithOne};
ghost use Rattle.shapers_syllabic.specs.Syllabic.{unsafe_spans};

use crate::calling::plain_plan;
use crate::caret::buffer_with_room;
use rustybuzz_shapers::shaper::KHMER_SHAPER;
use shapers_base::buffer::{Script, ShaperError, Span, hb_buffer_t, hb_glyph_info_t};
use shapers_base::font::{Tables, hb_font_t};
use shapers_found_laws::{found_borders_law, found_kinds_law, found_rephas_law};
use shapers_prepare::ot_shape_prepare::{
    UnicodeProperties, form_clusters, graphemes_law, set_unicode_properties,
};
use shapers_spans::{Khmer, spans_of};
use std::alloc::Global;

/// The syllables of glyphs with Khmer's categories. Their kinds are those that the reordering of
/// Khmer knows; and set up by them, no syllable opens with two rephas (category 14), so that circles
/// keep clusters rising or falling. Refuses with `Memory` alone.
pub fn khmer_syllables(glyphs: &[hb_glyph_info_t], alloc: Global) -> Result<Vec<Span>, ShaperError>
    ensures known { IfOk result (λ spans. All (λ span. span.kind ≤ 2) spans.items) }
    ensures rephas { IfOk result (λ spans. OpensWithOne 14 (unsafe_spans spans.items glyphs.now)) }
    ensures refusal { IsOkUnless result Memory }
{
    found_kinds_law();
    found_rephas_law();
    spans_of(&Khmer, glyphs, alloc)
}

/// A word of Khmer, each grapheme of it in one cluster, and its syllables. No two syllables share a
/// cluster where they meet, so that a border of syllables is one of clusters. None where a syllable
/// isn't whole, or where a letter, a placeholder or a circle carries on a grapheme, as none of
/// Unicode's does. Refuses with `Memory` alone.
pub fn khmer_borders<F: hb_font_t, T: Tables + UnicodeProperties>(
    alloc: Global,
    font: &F,
    tables: &T,
    word: &[char],
) -> Result<Option<(hb_buffer_t, Vec<Span>)>, ShaperError>
    requires short { length word.now < 2147483648 }
    ensures { let properties = T.properties tables.now in
        let categories = T.tables tables.now in
        IfOk result (λ made. IfSome made (λ found.
        HasBorders properties categories word.now found.0.glyphs found.1.items)) }
{
    let buffer = khmer_word(alloc, font, tables, word)?;
    let spans = spans_of(&Khmer, buffer.glyphs(), alloc)?;
    let opening = [1, 2, 10, 11, 15];
    if !are_whole(spans.as_slice()) || !open_graphemes(&opening, buffer.glyphs()) {
        return Ok(None);
    }
    found_borders_law();
    graphemes_law();
    Ok(Some((buffer, spans)))
}

// A word with the properties and Khmer's categories of its characters, each grapheme in one cluster.
fn khmer_word<F: hb_font_t, T: Tables + UnicodeProperties>(
    alloc: Global,
    font: &F,
    tables: &T,
    word: &[char],
) -> Result<hb_buffer_t, ShaperError>
    requires short { length word.now < 2147483648 }
    ensures { let properties = T.properties tables.now in
        let categories = T.tables tables.now in
        IfOk result (λ buffer. buffer.glyphs ≡ khmer_word properties categories word.now) }
{
    let plan = KHMER_SHAPER.with_data(plain_plan(alloc, Script(*b"Khmr")));
    let mut buffer = buffer_with_room(alloc, word, usize::MAX)?;
    set_unicode_properties(tables, &mut buffer);
    form_clusters(&mut buffer);
    let _ = KHMER_SHAPER.setup_masks(&plan, font, tables, &mut buffer);
    Ok(buffer)
}

// Whether each syllable is whole.
fn are_whole(spans: &[Span]) -> bool
    ensures { result ≡ list_all is_whole_syllable spans.now }
{
    spans.iter().all(|span| span.kind == 0)
}

// Whether each glyph of these categories begins a grapheme.
fn open_graphemes(categories: &[u8], glyphs: &[hb_glyph_info_t]) -> bool
    ensures { result ≡ list_all (opens_grapheme categories.now) glyphs.now }
{
    glyphs.iter().all(|glyph| opens_grapheme(categories, glyph))
}

// Whether a glyph, if it is of one of these categories, begins a grapheme.
fn opens_grapheme(categories: &[u8], glyph: &hb_glyph_info_t) -> bool
    ensures { result ≡ opens_grapheme categories.now glyph.now }
{
    !has_category(categories, glyph) || !glyph.unicode_props.is_continuation()
}

// Whether a glyph is of one of these categories.
fn has_category(categories: &[u8], glyph: &hb_glyph_info_t) -> bool
    ensures { let glyph = glyph.now in
        result ≡ list_any (λ c. c == glyph.category) categories.now }
{
    categories.iter().any(|c| *c == glyph.category)
}

//! How an engine normalizes by Unicode's tables, and what it reads in the laws of equivalence.
ghost use Rattle.std.specs.Prelude.{◌≡◌, ◌<◌, ◌≤◌, None, Some, length, IfOk, IfSome};
ghost use Rattle.shapers_bench.specs.EquivalentWords.{AreEquivalent, IsNormalized, are_low};
ghost use Rattle.shapers_buffer.specs.Glyph.{characters};

use crate::calling::plain_plan;
use crate::caret::buffer_with_room;
use crate::normal::SETTINGS;
use rustybuzz_shapers::buffer::{Script, ShaperError, hb_buffer_t};
use rustybuzz_shapers::shaper::{HANGUL_SHAPER, THAI_SHAPER, hb_ot_shaper_t};
use shapers_equivalence_laws::{equivalence_law, order_law, sequences_law, shapers_law};
use shapers_pipeline::{NormalizeFont, ot_shape_normalize};
use shapers_prepare::ot_shape_prepare::set_unicode_properties;
use shapers_unicode::UnicodeTables;
use std::alloc::Global;

/// A syllable of up to three characters, normalized by Unicode's tables whatever the font has. It is
/// canonically equivalent to what it was: taken apart to the end, with each sequence of marks in the
/// order of its classes, both are the same characters. None where a character stands behind the
/// surrogates. Refuses with `Memory` alone.
pub fn equivalent_syllable<F: NormalizeFont>(
    alloc: Global,
    font: &F,
    syllable: &[char],
) -> Result<Option<hb_buffer_t>, ShaperError>
    requires few { length syllable.now ≤ 3 }
    ensures { let read = F.font font.now in
        let variants = F.variants font.now in
        IfOk result (λ made. IfSome made (λ buffer.
        AreEquivalent read variants (characters buffer.glyphs) syllable.now)) }
{
    order_law();
    sequences_law();
    normalized_by_unicode(alloc, None, font, syllable)
}

/// A syllable of Thai of up to three characters, normalized by Unicode's tables whatever the font
/// has. It is canonically equivalent to what it was, by the classes that Thai's shaper has. None
/// where a character stands behind the surrogates. Refuses with `Memory` alone.
pub fn equivalent_in_thai<F: NormalizeFont>(
    alloc: Global,
    font: &F,
    syllable: &[char],
) -> Result<Option<hb_buffer_t>, ShaperError>
    requires few { length syllable.now ≤ 3 }
    ensures { let read = F.font font.now in
        let variants = F.variants font.now in
        IfOk result (λ made. IfSome made (λ buffer.
        AreEquivalent read variants (characters buffer.glyphs) syllable.now)) }
{
    order_law();
    shapers_law();
    normalized_by_unicode(alloc, Some(THAI_SHAPER), font, syllable)
}

/// A word of Hangul of any length, normalized by Unicode's tables whatever the font has. It is
/// canonically equivalent to what it was, since its shaper composes nothing. None where a character
/// stands behind the surrogates. Refuses with `Memory` alone.
pub fn equivalent_in_hangul<F: NormalizeFont>(
    alloc: Global,
    font: &F,
    word: &[char],
) -> Result<Option<hb_buffer_t>, ShaperError>
    requires short { length word.now < 2147483648 }
    ensures { let read = F.font font.now in
        let variants = F.variants font.now in
        IfOk result (λ made. IfSome made (λ buffer.
        AreEquivalent read variants (characters buffer.glyphs) word.now)) }
{
    equivalence_law();
    order_law();
    normalized_by_unicode(alloc, Some(HANGUL_SHAPER), font, word)
}

// A word normalized for a shaper; None where a character stands behind the surrogates.
fn normalized_by_unicode<F: NormalizeFont>(
    alloc: Global,
    shaper: Option<hb_ot_shaper_t>,
    font: &F,
    word: &[char],
) -> Result<Option<hb_buffer_t>, ShaperError>
    requires short { length word.now < 2147483648 }
    ensures { let read = F.font font.now in
        let variants = F.variants font.now in
        IfOk result (λ made. IfSome made (λ buffer.
        IsNormalized shaper read variants word.now buffer)) }
{
    if !are_low(word) {
        return Ok(None);
    }
    let plan = plain_plan(alloc, Script(*b"Zyyy"));
    let mut buffer = buffer_with_room(alloc, word, usize::MAX)?;
    set_unicode_properties(&UnicodeTables, &mut buffer);
    ot_shape_normalize(shaper, &plan, font, &UnicodeTables, &SETTINGS, &mut buffer)?;
    Ok(Some(buffer))
}

// Whether each character stands before the surrogates.
fn are_low(word: &[char]) -> bool
    ensures { result ≡ are_low word.now }
{
    word.iter().all(|c| u32::from(*c) < 0xD800)
}

//! How an editor normalizes a word, and what it reads in the laws of normalization: of edits, of texts
//! that stay, and of equivalence.
ghost use Rattle.std.specs.Prelude.{◌≡◌, ◌<◌, None, Some, false, length, map, IfOk, IfSome};
ghost use Rattle.rustybuzz_shapers.specs.declared.shaper.hb_ot_shaper_t.TheVariants as shaper;
ghost use Rattle.shapers_base.specs.declared.plan.hb_ot_shape_plan_t.{hb_ot_shape_plan_t};
ghost use Rattle.shapers_bench.specs.NormalWords.{IsItsParts, are_drawn_syllables, is_drawn_syllable};
ghost use Rattle.shapers_bench.specs.Words.{letters_from};
ghost use Rattle.shapers_normal.specs.Decomposition.{with_own_glyph};
ghost use Rattle.shapers_normal.specs.Normalization.{joiners_shown};
ghost use Rattle.shapers_pipeline.specs.ByShaper.{shaper_context};

use crate::calling::plain_plan;
use crate::caret::buffer_with_room;
use rustybuzz_shapers::buffer::{Script, ShaperError, hb_buffer_t};
use rustybuzz_shapers::font::hb_font_t;
use rustybuzz_shapers::shaper::HANGUL_SHAPER;
use shapers_editing::normalization_edits_law;
use shapers_equivalence_laws::staying_law;
use shapers_normal::ot_shape_normalize::Rounds;
use shapers_pipeline::{
    NormalizeFont, NormalizeSettings, NormalizeTables, orders_alone_law, ot_shape_normalize,
};
use std::alloc::Global;

// The later rounds in each text, and nothing for what isn't drawn.
pub(crate) const SETTINGS: NormalizeSettings = NormalizeSettings {
    rounds: Rounds::Always,
    invisible_glyph: None,
    draws_selectors: false,
};

/// A word of Hangul's syllables, normalized for a font that has them all; None for other words. It is
/// any three parts of it, each normalized by itself, so that an edit of the middle one leaves the
/// others; and it stays as it is, but for the numbers of its glyphs. Refuses with `Memory` alone.
pub fn normalized_hangul<F: NormalizeFont, T: NormalizeTables>(
    alloc: Global,
    font: &F,
    tables: &T,
    word: &[char],
) -> Result<Option<hb_buffer_t>, ShaperError>
    requires short { length word.now < 2147483648 }
    ensures parts { (plan : hb_ot_shape_plan_t) →
        let context = shaper_context (Some shaper.Hangul) plan (F.font font.now)
        (F.variants font.now) (T.tables tables.now) (T.texts tables.now) None false in
        IfOk result (λ made. IfSome made (λ buffer.
        IsItsParts context buffer.level word.now buffer.glyphs)) }
    ensures stays { (plan : hb_ot_shape_plan_t) →
        let context = shaper_context (Some shaper.Hangul) plan (F.font font.now)
        (F.variants font.now) (T.tables tables.now) (T.texts tables.now) None false in
        IfOk result (λ made. IfSome made (λ buffer.
        buffer.glyphs ≡ joiners_shown (map (with_own_glyph context) (letters_from 0 word.now)))) }
{
    if !are_drawn_syllables(font, word) {
        return Ok(None);
    }
    orders_alone_law();
    normalization_edits_law();
    staying_law();
    let plan = plain_plan(alloc, Script(*b"Hang"));
    let mut buffer = buffer_with_room(alloc, word, usize::MAX)?;
    ot_shape_normalize(
        Some(HANGUL_SHAPER),
        &plan,
        font,
        tables,
        &SETTINGS,
        &mut buffer,
    )?;
    Ok(Some(buffer))
}

// Whether each character is a syllable of Hangul that the font has.
fn are_drawn_syllables<F: hb_font_t>(font: &F, word: &[char]) -> bool
    ensures { result ≡ are_drawn_syllables (F.font font.now) word.now }
{
    word.iter().all(|c| is_drawn_syllable(font, *c))
}

// Whether a character is such a syllable.
fn is_drawn_syllable<F: hb_font_t>(font: &F, c: char) -> bool
    ensures { result ≡ is_drawn_syllable (F.font font.now) c }
{
    '\u{AC00}' <= c && c <= '\u{D7A3}' && font.has_glyph(u32::from(c))
}

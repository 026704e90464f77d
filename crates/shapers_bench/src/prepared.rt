//! How an engine prepares a word for a font's lookups, and what it reads in the law of prepared texts.
ghost use Rattle.std.specs.Prelude.{◌≡◌, ◌≤◌, length, IfOk, IfSome};
ghost use Rattle.std.specs.List.{list_any};
ghost use Rattle.shapers_bench.specs.PreparedWords.{IsPreparedWord};
ghost use Rattle.shapers_normal.specs.Variants.{selects_form};

use crate::calling::plain_plan;
use crate::caret::buffer_with_room;
use crate::normal::SETTINGS;
use rustybuzz_shapers::buffer::{Direction, Script, hb_buffer_t};
use rustybuzz_shapers::shaper::checked::CallError;
use shapers_equivalence_laws::{order_law, prepared_law};
use shapers_pipeline::{NormalizeFont, TextPlan, prepare_text};
use shapers_plan::ot_shape_plan::DriverMasks;
use shapers_unicode::UnicodeTables;
use std::alloc::Global;

// No feature is turned on glyph by glyph.
const NO_MASKS: DriverMasks = DriverMasks {
    frac: 0,
    numr: 0,
    dnom: 0,
    rtlm: 0,
    vert: 0,
};

/// A syllable of Latin of up to three characters, prepared by Unicode's tables for the lookups of
/// whatever font. What is handed to normalization is plain and has the syllable's characters, and
/// what normalization makes of it is canonically equivalent to the syllable. None where a variation
/// selector stands in it. Refuses as `prepare_text` does.
pub fn prepared_syllable<F: NormalizeFont>(
    alloc: Global,
    font: &F,
    syllable: &[char],
) -> Result<Option<hb_buffer_t>, CallError>
    requires few { length syllable.now ≤ 3 }
    ensures { let read = F.font font.now in
        let variants = F.variants font.now in
        IfOk result (λ made. IfSome made (λ buffer.
        IsPreparedWord read variants syllable.now buffer)) }
{
    if has_selector(syllable) {
        return Ok(None);
    }
    let plan = plain_plan(alloc, Script(*b"Latn"));
    let text_plan = TextPlan {
        shaper: None,
        plan: &plan,
        direction: Direction::LeftToRight,
        masks: NO_MASKS,
        ranges: &[],
    };
    let mut buffer = buffer_with_room(alloc, syllable, usize::MAX)?;
    prepare_text(&text_plan, &SETTINGS, font, &UnicodeTables, &mut buffer)?;
    order_law();
    prepared_law();
    Ok(Some(buffer))
}

// Whether a variation selector stands in a word.
fn has_selector(word: &[char]) -> bool
    ensures { result ≡ list_any selects_form word.now }
{
    word.iter().any(|c| selects_form(*c))
}

// Whether a character is a variation selector.
fn selects_form(c: char) -> bool
    ensures { result ≡ selects_form c }
{
    ('\u{FE00}' <= c && c <= '\u{FE0F}') || ('\u{E0100}' <= c && c <= '\u{E01EF}')
}

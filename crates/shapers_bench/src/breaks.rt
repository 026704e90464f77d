//! How a caller breaks a word behind a stage of lookups, and what it reads in the law of breaks.
ghost use Rattle.std.specs.Prelude.{◌<◌, IfOk, length};
ghost use Rattle.shapers_bench.specs.Substituted.{SubstitutedBy};
ghost use Rattle.shapers_bench.specs.Words.{word_in};
ghost use Rattle.shapers_buffer.specs.Buffer.{Buffer};
ghost use Rattle.shapers_editing.specs.PipelineBreaks.{Numbering, StepLeavesPieces};

use crate::calling::plain_plan;
use crate::caret::{EVERY_GLYPH, buffer_with_room};
use rustybuzz_shapers::buffer::{Direction, Script, hb_buffer_t};
use rustybuzz_shapers::font::hb_font_t;
use rustybuzz_shapers::shaper::checked::CallError;
use shapers_editing::pipeline_breaks_law;
use shapers_pipeline::{Single, SingleLookups, StagePlan, run_stages};
use shapers_plan::ot_map::{Stage, StageLookup};
use std::alloc::Global;

// A font's first lookup, applied to each glyph.
pub(crate) const FIRST_LOOKUP: StageLookup = StageLookup {
    index: 0,
    mask: EVERY_GLYPH,
    auto_zwnj: true,
    auto_zwj: true,
    random: false,
    per_syllable: false,
};

/// A word of Latin after the single substitutions of a font's first lookup. It may be broken at each
/// clear place: what the substitutions make of each piece by itself, as part of whatever text, is
/// what they made of it here. Refuses with `Memory` alone.
pub fn substituted_word<F: hb_font_t>(
    alloc: Global,
    font: &F,
    singles: &[Single],
    word: &[char],
) -> Result<hb_buffer_t, CallError>
    requires short { length word.now < 2147483648 }
    ensures breaks { let whole = word_in (length word.now) word.now in
        IfOk result (λ buffer. (numbered : Numbering) (text : Buffer) →
        StepLeavesPieces numbered text (SubstitutedBy singles.now) whole buffer) }
{
    let plan = plain_plan(alloc, Script(*b"Latn"));
    let stages = [Stage {
        start: 0,
        end: 1,
        pause: None,
    }];
    let list = [FIRST_LOOKUP];
    let stage_plan = StagePlan {
        plan: &plan,
        direction: Direction::LeftToRight,
        stages: &stages,
        lookups: &list,
    };
    let mut buffer = buffer_with_room(alloc, word, word.len())?;
    run_stages(&stage_plan, font, &SingleLookups { singles }, &mut buffer)?;
    pipeline_breaks_law();
    Ok(buffer)
}

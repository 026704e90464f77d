//! How an engine runs the stages of a shaper of syllables, and what it reads in the laws of found
//! syllables and of clusters.
ghost use Rattle.std.specs.Prelude.{◌≡◌, ◌≢◌, ◌<◌, ℕ, Some, length, IfErr, IfOk};
ghost use Rattle.rustybuzz_shapers.specs.declared.shaper.checked.CallError.TheVariants as call;
ghost use Rattle.shapers_bench.specs.IndicWords.{IndicReordered};
ghost use Rattle.shapers_buffer.specs.Glyph.{clusters};
ghost use Rattle.shapers_buffer.specs.declared.buffer.refusal.ShaperError.TheVariants.{UnknownSyllable};
ghost use Rattle.shapers_clusters.specs.Cuts.{IsMonotone};

use crate::breaks::FIRST_LOOKUP;
use crate::calling::plain_plan;
use crate::caret::buffer_with_room;
use rustybuzz_shapers::buffer::{Direction, Script, hb_buffer_t};
use rustybuzz_shapers::font::{Tables, hb_font_t};
use rustybuzz_shapers::shaper::checked::CallError;
use rustybuzz_shapers::shaper::{INDIC_SHAPER, KHMER_SHAPER, Pause};
use shapers_found_laws::{found_indic_law, found_pauses_law};
use shapers_pipeline::{Single, SingleLookups, StagePlan, pipeline_clusters_law, run_stages};
use shapers_plan::ot_map::Stage;
use std::alloc::Global;

/// A word of Khmer behind the stages of its shaper, with single substitutions before its syllables
/// are reordered. Its clusters rise or fall along it, and no syllable is of a kind that the
/// reordering doesn't know, whatever the font. Refuses as circles do.
pub fn khmer_stages<F: hb_font_t, T: Tables>(
    alloc: Global,
    font: &F,
    tables: &T,
    singles: &[Single],
    word: &[char],
) -> Result<hb_buffer_t, CallError>
    requires short { length word.now < 2147483648 }
    ensures sorted { IfOk result (λ buffer. IsMonotone (clusters buffer.glyphs)) }
    ensures known { IfErr result (λ e. (place : ℕ) → e ≢ call.Refused (UnknownSyllable place)) }
{
    let plan = KHMER_SHAPER.with_data(plain_plan(alloc, Script(*b"Khmr")));
    let stages = [
        stage(0, 0, Pause::SetupSyllablesKhmer),
        stage(0, 1, Pause::ReorderKhmer),
        stage(1, 1, Pause::SyllabicClearVar),
    ];
    let list = [FIRST_LOOKUP];
    let stage_plan = StagePlan {
        plan: &plan,
        direction: Direction::LeftToRight,
        stages: &stages,
        lookups: &list,
    };
    let mut buffer = buffer_with_room(alloc, word, usize::MAX)?;
    let _ = KHMER_SHAPER.setup_masks(&plan, font, tables, &mut buffer);
    found_pauses_law();
    pipeline_clusters_law();
    run_stages(&stage_plan, font, &SingleLookups { singles }, &mut buffer)?;
    Ok(buffer)
}

// The stages of Indic as far as they reorder, with one lookup before the initial reordering.
const INDIC_STAGES: [Stage; 3] = [
    Stage {
        start: 0,
        end: 0,
        pause: Some(Pause::SetupSyllablesIndic),
    },
    Stage {
        start: 0,
        end: 1,
        pause: Some(Pause::InitialReordering),
    },
    Stage {
        start: 1,
        end: 1,
        pause: Some(Pause::FinalReordering),
    },
];

/// A word of Devanagari behind the stages of its shaper, with single substitutions before its
/// syllables are reordered. No syllable that the initial reordering gets opens with two rephas where
/// it opens circles, and with these circles clusters still rise or fall along the word; and no
/// syllable is of a kind that it doesn't know, whatever the font. Refuses as circles do.
pub fn indic_stages<F: hb_font_t, T: Tables>(
    alloc: Global,
    font: &F,
    tables: &T,
    singles: &[Single],
    word: &[char],
) -> Result<hb_buffer_t, CallError>
    requires short { length word.now < 2147483648 }
    ensures reordered { let read = F.font font.now in
        IfOk result (λ buffer. IndicReordered read singles.now buffer) }
    ensures known { IfErr result (λ e. (place : ℕ) → e ≢ call.Refused (UnknownSyllable place)) }
{
    let plan = INDIC_SHAPER.with_data(plain_plan(alloc, Script(*b"Deva")));
    let list = [FIRST_LOOKUP];
    let stage_plan = StagePlan {
        plan: &plan,
        direction: Direction::LeftToRight,
        stages: &INDIC_STAGES,
        lookups: &list,
    };
    let mut buffer = buffer_with_room(alloc, word, usize::MAX)?;
    let _ = INDIC_SHAPER.setup_masks(&plan, font, tables, &mut buffer);
    found_indic_law();
    pipeline_clusters_law();
    run_stages(&stage_plan, font, &SingleLookups { singles }, &mut buffer)?;
    Ok(buffer)
}

// A stage of these lookups, and the pause behind them.
fn stage(start: usize, end: usize, pause: Pause) -> Stage
    ensures { result ≡ record { start = start; end = end; pause = Some pause } }
{
    Stage {
        start,
        end,
        pause: Some(pause),
    }
}

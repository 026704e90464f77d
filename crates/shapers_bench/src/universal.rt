//! How an engine runs the stages of the universal shaper, and what it reads in its law of found
//! syllables.
ghost use Rattle.std.specs.Prelude.{◌≡◌, ◌≢◌, ◌<◌, ℕ, length, IfErr, IfOk, IsOkUnless};
ghost use Rattle.rustybuzz_shapers.specs.declared.shaper.checked.CallError.TheVariants as call;
ghost use Rattle.shapers_bench.specs.UniversalWords.{javanese_plan};
ghost use Rattle.shapers_buffer.specs.Glyph.{clusters};
ghost use Rattle.shapers_buffer.specs.declared.buffer.refusal.ShaperError.TheVariants.{Memory, UnknownSyllable};
ghost use Rattle.shapers_clusters.specs.Cuts.{IsMonotone};

use crate::breaks::FIRST_LOOKUP;
use crate::caret::{EVERY_GLYPH, buffer_with_room};
use rustybuzz_shapers::buffer::{Direction, Script, ShaperError, hb_buffer_t, hb_tag_t};
use rustybuzz_shapers::font::{Tables, hb_font_t};
use rustybuzz_shapers::map::{feature_map_t, hb_ot_map_t};
use rustybuzz_shapers::plan::hb_ot_shape_plan_t;
use rustybuzz_shapers::shaper::checked::CallError;
use rustybuzz_shapers::shaper::{Pause, UNIVERSAL_SHAPER};
use shapers_found_laws::{found_indic_law, found_universal_law};
use shapers_pipeline::{Single, SingleLookups, StagePlan, pipeline_clusters_law, run_stages};
use shapers_plan::ot_map::Stage;
use std::alloc::Global;

// The feature rphf, with a bit of its own.
const RPHF: feature_map_t = feature_map_t {
    tag: hb_tag_t(*b"rphf"),
    mask: 0x10,
    stage: 2,
};

// The stages of the universal shaper as far as they reorder, with one lookup for rphf.
const UNIVERSAL_STAGES: [Stage; 7] = [
    Stage {
        start: 0,
        end: 0,
        pause: Some(Pause::SetupSyllablesUse),
    },
    Stage {
        start: 0,
        end: 0,
        pause: Some(Pause::ClearSubstitutionFlags),
    },
    Stage {
        start: 0,
        end: 1,
        pause: Some(Pause::RecordRphf),
    },
    Stage {
        start: 0,
        end: 0,
        pause: Some(Pause::ClearSubstitutionFlags),
    },
    Stage {
        start: 0,
        end: 0,
        pause: Some(Pause::RecordPref),
    },
    Stage {
        start: 0,
        end: 0,
        pause: Some(Pause::ReorderUse),
    },
    Stage {
        start: 0,
        end: 0,
        pause: Some(Pause::SyllabicClearVar),
    },
];

/// A word of Javanese behind the stages of the universal shaper, with single substitutions for rphf
/// before it is recorded what these put in. Its clusters rise or fall along it, although rephas were
/// recorded, and no syllable is of an unknown kind, whatever the font. Refuses as circles do.
pub fn universal_stages<F: hb_font_t, T: Tables>(
    alloc: Global,
    font: &F,
    tables: &T,
    singles: &[Single],
    word: &[char],
) -> Result<hb_buffer_t, CallError>
    requires short { length word.now < 2147483648 }
    ensures sorted { IfOk result (λ buffer. IsMonotone (clusters buffer.glyphs)) }
    ensures known { IfErr result (λ e. (place : ℕ) → e ≢ call.Refused (UnknownSyllable place)) }
{
    let plan = UNIVERSAL_SHAPER.with_data(javanese_plan(alloc)?);
    let list = [FIRST_LOOKUP];
    let stage_plan = StagePlan {
        plan: &plan,
        direction: Direction::LeftToRight,
        stages: &UNIVERSAL_STAGES,
        lookups: &list,
    };
    let mut buffer = buffer_with_room(alloc, word, usize::MAX)?;
    let _ = UNIVERSAL_SHAPER.setup_masks(&plan, font, tables, &mut buffer);
    found_indic_law();
    found_universal_law();
    pipeline_clusters_law();
    run_stages(&stage_plan, font, &SingleLookups { singles }, &mut buffer)?;
    Ok(buffer)
}

// The plan of Javanese for a font that has the feature rphf.
fn javanese_plan(alloc: Global) -> Result<hb_ot_shape_plan_t, ShaperError>
    ensures plan { IfOk result (λ plan. plan ≡ javanese_plan) }
    ensures refusal { IsOkUnless result Memory }
{
    let mut features = Vec::new(alloc);
    features.push(RPHF).map_err(|_| ShaperError::Memory)?;
    let map = hb_ot_map_t::new(
        features,
        Vec::new(alloc),
        Vec::new(alloc),
        EVERY_GLYPH,
        None,
        true,
    );
    Ok(hb_ot_shape_plan_t::new(Some(Script(*b"Java")), map.unwrap()))
}

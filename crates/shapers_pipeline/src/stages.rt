//! The stages of a plan: the lookups of each, and what the shaper does behind them.
ghost use Rattle.std.specs.Prelude.{◌≡◌, ◌≤◌, ◌*◌, [], length, IfErr, OnErr, OnOk};
ghost use Rattle.rustybuzz_shapers.specs.FoundSyllables.{PauseRun};
ghost use Rattle.rustybuzz_shapers.specs.Lengths.{pause_growth};
ghost use Rattle.shapers_pipeline.specs.Lengths.{NotTooLong, stage_bound, stages_bound};
ghost use Rattle.shapers_buffer.specs.Buffer.{Buffer};
ghost use Rattle.shapers_pipeline.specs.Lookups.{lookups_of_stage};
ghost use Rattle.shapers_pipeline.specs.Planned.{as_planned, put_back};
ghost use Rattle.shapers_pipeline.specs.Stages.{PauseStopped, StageRun, StageStopped, StagesRun, StagesStopped, Substitution};

use crate::lookups::{Lookups, apply_lookups};
use crate::plan::StagePlan;
use crate::planned::set_script_and_direction;
use rustybuzz_shapers::shaper::checked::{CallError, checked_run_pause_found};
use shapers_base::buffer::hb_buffer_t;
use shapers_base::font::hb_font_t;
use shapers_base::plan::{Pause, hb_ot_shape_plan_t};
use shapers_plan::ot_map::{Stage, StageLookup};

/// Runs the stages of a plan over a text of glyphs without positions: the lookups of each, one
/// after another, and then what the shaper does behind the stage. Syllables are found by the
/// shaper's grammar where a pause writes them. Script and direction are the plan's, and those of
/// the buffer stay.
///
/// # Errors
///
/// The refusal of a lookup; or of a pause, the first of its conditions that isn't met, or its
/// refusal, which a pause that sets up syllables doesn't have. The glyphs are as they were before
/// that lookup or pause, and the script and direction of the buffer as they were. `TooLong` doesn't
/// come where `max_len` is as much as the text may grow.
pub fn run_stages<F: hb_font_t, L: Lookups>(
    plan: &StagePlan,
    font: &F,
    lookups: &L,
    buffer: &mut hb_buffer_t,
) -> Result<(), CallError>
    requires { buffer.old.positions ≡ [] }
    ensures ok { let r : Substitution = record {
      plan = plan.now.plan.now;
      font = F.font font.now;
      substituted = L.substituted lookups.now;
      list = plan.now.lookups.now;
    } in
        let text = as_planned plan.now.plan.now.script plan.now.direction buffer.old in
        OnOk result ((last : Buffer) × (StagesRun r plan.now.stages.now text last
        × (buffer.new ≡ put_back buffer.old last))) }
    ensures err { let r : Substitution = record {
      plan = plan.now.plan.now;
      font = F.font font.now;
      substituted = L.substituted lookups.now;
      list = plan.now.lookups.now;
    } in
        let text = as_planned plan.now.plan.now.script plan.now.direction buffer.old in
        let refusals = L.substituting_refuses lookups.now in
        IfErr result (λ e. (left : Buffer)
        × (StagesStopped r refusals plan.now.stages.now text left e
        × (buffer.new ≡ put_back buffer.old left))) }
    ensures room { let growth = L.growth_of lookups.now in
        stages_bound growth plan.now.lookups.now plan.now.stages.now (length buffer.old.glyphs)
        ≤ buffer.old.max_len → NotTooLong result }
    ensures positions { OnOk result (buffer.new.positions ≡ []) }
{
    let script = buffer.script();
    let direction = buffer.direction();
    set_script_and_direction(plan.plan.script, plan.direction, buffer);
    let run = run_planned_stages(plan, font, lookups, buffer);
    set_script_and_direction(script, direction, buffer);
    run
}

// The same of a text in the script of the plan.
pub(crate) fn run_planned_stages<F: hb_font_t, L: Lookups>(
    plan: &StagePlan,
    font: &F,
    lookups: &L,
    buffer: &mut hb_buffer_t,
) -> Result<(), CallError>
    requires { buffer.old.positions ≡ [] }
    ensures ok { let r : Substitution = record {
      plan = plan.now.plan.now;
      font = F.font font.now;
      substituted = L.substituted lookups.now;
      list = plan.now.lookups.now;
    } in
        OnOk result (StagesRun r plan.now.stages.now buffer.old buffer.new) }
    ensures err { let r : Substitution = record {
      plan = plan.now.plan.now;
      font = F.font font.now;
      substituted = L.substituted lookups.now;
      list = plan.now.lookups.now;
    } in
        let refusals = L.substituting_refuses lookups.now in
        let stages = plan.now.stages.now in
        IfErr result (λ e. StagesStopped r refusals stages buffer.old buffer.new e) }
    ensures room { let growth = L.growth_of lookups.now in
        stages_bound growth plan.now.lookups.now plan.now.stages.now (length buffer.old.glyphs)
        ≤ buffer.old.max_len → NotTooLong result }
    ensures positions { OnOk result (buffer.new.positions ≡ []) }
    ensures limit { OnOk result (buffer.new.max_len ≡ buffer.old.max_len) }
{
    for stage in plan.stages {
        run_stage(plan, *stage, font, lookups, buffer)?;
    }
    Ok(())
}

// Runs one stage.
fn run_stage<F: hb_font_t, L: Lookups>(
    plan: &StagePlan,
    stage: Stage,
    font: &F,
    lookups: &L,
    buffer: &mut hb_buffer_t,
) -> Result<(), CallError>
    requires { buffer.old.positions ≡ [] }
    ensures ok { let r : Substitution = record {
      plan = plan.now.plan.now;
      font = F.font font.now;
      substituted = L.substituted lookups.now;
      list = plan.now.lookups.now;
    } in
        OnOk result (StageRun r stage buffer.old buffer.new) }
    ensures err { let r : Substitution = record {
      plan = plan.now.plan.now;
      font = F.font font.now;
      substituted = L.substituted lookups.now;
      list = plan.now.lookups.now;
    } in
        let refusals = L.substituting_refuses lookups.now in
        IfErr result (λ e. StageStopped r refusals stage buffer.old buffer.new e) }
    ensures length { let growth = L.growth_of lookups.now in
        OnOk result (length buffer.new.glyphs
        ≤ stage_bound growth plan.now.lookups.now (length buffer.old.glyphs) stage) }
    ensures room { let growth = L.growth_of lookups.now in
        stage_bound growth plan.now.lookups.now (length buffer.old.glyphs) stage
        ≤ buffer.old.max_len → NotTooLong result }
    ensures positions { OnOk result (buffer.new.positions ≡ []) }
    ensures limit { buffer.new.max_len ≡ buffer.old.max_len }
{
    apply_lookups(lookups, lookups_of_stage(stage, plan.lookups), buffer)?;
    match stage.pause {
        Some(pause) => run_stage_pause(pause, plan.plan, font, buffer),
        None => Ok(()),
    }
}

// The lookups of a stage, as far as the list goes.
#[inline]
#[tactic(auto, using(crate::proofs::StageLengths::no_lookups))]
pub(crate) fn lookups_of_stage(stage: Stage, list: &[StageLookup]) -> &[StageLookup]
    ensures { result.now ≡ lookups_of_stage stage list.now }
{
    // (many stages have a pause alone, or nothing of this font)
    if stage.end <= stage.start {
        return &[];
    }
    let end = stage.end.min(list.len());
    let start = stage.start.min(end);
    &list[start..end]
}

// Runs the pause of a stage.
#[tactic(auto, using(crate::proofs::Pausing::pause_positions))]
fn run_stage_pause<F: hb_font_t>(
    pause: Pause,
    plan: &hb_ot_shape_plan_t,
    font: &F,
    buffer: &mut hb_buffer_t,
) -> Result<(), CallError>
    requires { buffer.old.positions ≡ [] }
    ensures ok { OnOk result (PauseRun pause plan.now (F.font font.now) buffer.old buffer.new) }
    ensures refusal { let font = F.font font.now in
        IfErr result (λ e. PauseStopped pause plan.now font buffer.old e) }
    ensures err { OnErr result (buffer.new ≡ buffer.old) }
    ensures length { OnOk result
        (length buffer.new.glyphs ≤ length buffer.old.glyphs * pause_growth pause) }
    ensures room { length buffer.old.glyphs * pause_growth pause ≤ buffer.old.max_len →
        NotTooLong result }
    ensures positions { OnOk result (buffer.new.positions ≡ []) }
    ensures limit { buffer.new.max_len ≡ buffer.old.max_len }
{
    checked_run_pause_found(pause, plan, font, buffer)?;
    Ok(())
}

//! From characters to the glyphs behind the last stage of lookups.
ghost use Rattle.std.specs.Prelude.{◌≡◌, ◌⊎◌, ◌≤◌, [], length, IfErr, OnErr, OnOk};
ghost use Rattle.rustybuzz_shapers.specs.declared.shaper.checked.CallError.TheVariants as call;
ghost use Rattle.shapers_buffer.specs.Buffer.{Buffer};
ghost use Rattle.shapers_buffer.specs.declared.buffer.refusal.ShaperError.TheVariants.{Memory};
ghost use Rattle.shapers_pipeline.specs.Lengths.{NotTooLong, PreparationGrows, PreparationHasRoom, shaped_bound};
ghost use Rattle.shapers_pipeline.specs.Lookups.{text_noted};
ghost use Rattle.shapers_pipeline.specs.Planned.{as_planned, put_back};
ghost use Rattle.shapers_pipeline.specs.Prepared.{text_prepared};
ghost use Rattle.shapers_pipeline.specs.Refusals.{IsStopped};
ghost use Rattle.shapers_pipeline.specs.Stages.{StagesRun, StagesStopped};
ghost use Rattle.shapers_pipeline.specs.Substituted.{preparation_by, substitution_by};
ghost use Rattle.shapers_pipeline.specs.Substituting.{to_substitute};

use crate::lookups::{Lookups, note_glyphs};
use crate::normalizing::{NormalizeFont, NormalizeSettings, NormalizeTables};
use crate::plan::{StagePlan, TextPlan};
use crate::planned::{put_back, set_to_plan};
use crate::prepare::Preparing;
use crate::stages::run_planned_stages;
use rustybuzz_shapers::shaper::checked::CallError;
use shapers_base::buffer::hb_buffer_t;
use shapers_plan::ot_shape_plan::EnginePlan;
use shapers_prepare::ot_shape_prepare::UnicodeProperties;

/// Makes glyphs of a text's characters, and substitutes them: `prepare_text`, what the lookups keep
/// beside each glyph, and then `run_stages` over the stages of the plan. Script and direction are the
/// plan's, and those of the buffer stay: the glyphs stand in the order of their script's own
/// direction, whichever that is.
///
/// # Errors
///
/// Those of both, and `Memory` for a copy of the text, as which it is given back: nothing has changed
/// then. By `pipeline_lengths_law` never `TooLong` with the `max_len` that `length_bound` tells.
pub fn substitute_text<F: NormalizeFont, T: NormalizeTables + UnicodeProperties, L: Lookups>(
    plan: &EnginePlan,
    settings: &NormalizeSettings,
    font: &F,
    tables: &T,
    lookups: &L,
    buffer: &mut hb_buffer_t,
) -> Result<(), CallError>
    ensures ok { let p = preparation_by plan.now settings.now (F.font font.now)
        (F.variants font.now) (T.properties tables.now) (T.tables tables.now)
        (T.texts tables.now) in
        let r = substitution_by plan.now (F.font font.now) (L.substituted lookups.now) in
        let text = as_planned plan.now.plan.script plan.now.direction buffer.old in
        let noted = text_noted (L.noted lookups.now) (text_prepared p text) in
        OnOk result ((last : Buffer) × (StagesRun r plan.now.stages noted last
        × (buffer.new ≡ put_back buffer.old last))) }
    ensures err { OnErr result (buffer.new ≡ buffer.old) }
    ensures refusal { let p = preparation_by plan.now settings.now (F.font font.now)
        (F.variants font.now) (T.properties tables.now) (T.tables tables.now)
        (T.texts tables.now) in
        let r = substitution_by plan.now (F.font font.now) (L.substituted lookups.now) in
        let text = as_planned plan.now.plan.script plan.now.direction buffer.old in
        let noted = text_noted (L.noted lookups.now) (text_prepared p text) in
        let refusals = L.substituting_refuses lookups.now in
        IfErr result (λ e. (e ≡ call.Refused Memory) ⊎ ((left : Buffer)
        × (IsStopped p text left e
        ⊎ StagesStopped r refusals plan.now.stages noted left e))) }
    ensures room { let growth = L.growth_of lookups.now in
        PreparationGrows → PreparationHasRoom →
        shaped_bound plan.now.shaper growth plan.now.lookups plan.now.stages
        (length buffer.old.glyphs) ≤ buffer.old.max_len → NotTooLong result }
    ensures positions { OnOk result (buffer.new.positions ≡ []) }
{
    let kept = buffer.keep()?;
    set_to_plan(plan, buffer);
    let substituting = Substituting {
        plan,
        settings,
        font,
        tables,
        lookups,
    };
    match substituting.substitute(buffer) {
        Ok(()) => {
            put_back(&kept, buffer);
            buffer.recycle(kept);
            Ok(())
        }
        Err(error) => {
            buffer.restore(kept);
            Err(error)
        }
    }
}

// What a text is substituted by.
#[derive(Drop)]
pub(crate) struct Substituting<'a, F, T, L> {
    pub(crate) plan: &'a EnginePlan,
    pub(crate) settings: &'a NormalizeSettings,
    pub(crate) font: &'a F,
    pub(crate) tables: &'a T,
    pub(crate) lookups: &'a L,
}

impl<'a, F: NormalizeFont, T: NormalizeTables + UnicodeProperties, L: Lookups> Substituting<
    'a,
    F,
    T,
    L,
> {
    // Substitutes a text in the script and direction of the plan, whose direction is then its
    // script's.
    pub(crate) fn substitute(&self, buffer: &mut hb_buffer_t) -> Result<(), CallError>
        ensures ok { let p = to_substitute F.font F.variants T.properties T.tables T.texts self.now in
            let r = substitution_by self.now.plan.now (F.font self.now.font.now)
            (L.substituted self.now.lookups.now) in
            let noted = text_noted (L.noted self.now.lookups.now) (text_prepared p buffer.old) in
            OnOk result (StagesRun r self.now.plan.now.stages noted buffer.new) }
        ensures err { let p = to_substitute F.font F.variants T.properties T.tables T.texts self.now in
            let r = substitution_by self.now.plan.now (F.font self.now.font.now)
            (L.substituted self.now.lookups.now) in
            let noted = text_noted (L.noted self.now.lookups.now) (text_prepared p buffer.old) in
            let refusals = L.substituting_refuses self.now.lookups.now in
            IfErr result (λ e. IsStopped p buffer.old buffer.new e
            ⊎ StagesStopped r refusals self.now.plan.now.stages noted buffer.new e) }
        ensures room { let growth = L.growth_of self.now.lookups.now in
            let plan = self.now.plan.now in
            PreparationGrows → PreparationHasRoom →
            shaped_bound plan.shaper growth plan.lookups plan.stages (length buffer.old.glyphs)
            ≤ buffer.old.max_len → NotTooLong result }
        ensures positions { OnOk result (buffer.new.positions ≡ []) }
        ensures limit { OnOk result (buffer.new.max_len ≡ buffer.old.max_len) }
    {
        let plan = self.plan;
        let text = TextPlan {
            shaper: plan.shaper(),
            plan: plan.plan(),
            direction: plan.direction(),
            masks: plan.masks(),
            ranges: plan.ranges(),
        };
        let preparing = Preparing {
            plan: &text,
            settings: self.settings,
            font: self.font,
            tables: self.tables,
        };
        preparing.prepare(buffer)?;
        note_glyphs(self.lookups, buffer);
        let stages = StagePlan {
            plan: plan.plan(),
            direction: plan.direction(),
            stages: plan.stages(),
            lookups: plan.lookups(),
        };
        run_planned_stages(&stages, self.font, self.lookups, buffer)
    }
}

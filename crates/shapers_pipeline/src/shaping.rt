//! From characters to glyphs with positions.
ghost use Rattle.std.specs.Prelude.{◌≡◌, ◌≤◌, ◌⊎◌, length, IfErr, OnErr, OnOk};
ghost use Rattle.rustybuzz_shapers.specs.declared.shaper.checked.CallError.TheVariants as call;
ghost use Rattle.shapers_buffer.specs.declared.buffer.refusal.ShaperError.TheVariants.{Memory, TooLong};
ghost use Rattle.shapers_pipeline.specs.Lengths.{PreparationGrows, PreparationHasRoom, shaped_bound};
ghost use Rattle.shapers_buffer.specs.Buffer.{Buffer};
ghost use Rattle.shapers_pipeline.specs.Lookups.{text_noted};
ghost use Rattle.shapers_pipeline.specs.Planned.{given_back, shape_limit, text_to_shape};
ghost use Rattle.shapers_pipeline.specs.Positioned.{text_flagged, text_postprocessed, text_shaped};
ghost use Rattle.shapers_pipeline.specs.Prepared.{text_prepared};
ghost use Rattle.shapers_pipeline.specs.Refusals.{IsStopped};
ghost use Rattle.shapers_pipeline.specs.Shaped.{FinishStopped, positioning_by};
ghost use Rattle.shapers_pipeline.specs.Shaping.{to_position, to_shape};
ghost use Rattle.shapers_pipeline.specs.Stages.{StagesRun, StagesStopped};
ghost use Rattle.shapers_pipeline.specs.Substituted.{preparation_by, substitution_by};

use crate::lookups::Lookups;
use crate::normalizing::{NormalizeFont, NormalizeTables};
use crate::planned::{put_back, set_to_plan};
use crate::positions::position_text;
use crate::settings::ShapeSettings;
use crate::substitution::Substituting;
use rustybuzz_shapers::shaper::checked::CallError;
use shapers_base::buffer::hb_buffer_t;
use shapers_plan::ot_shape_plan::EnginePlan;
use shapers_position::ot_shape_position::{MetricsFont, propagate_flags};
use shapers_prepare::ot_shape_prepare::UnicodeProperties;

// The greatest length of a buffer for which none is set, as HarfBuzz has it.
const MAX_LEN_UNSET: usize = 0x3FFF_FFFF;

/// Shapes a text, in HarfBuzz's order: its characters become glyphs, which lookups substitute;
/// glyphs get positions, in the order that the text is drawn in; those that need not be drawn are
/// hidden, Arabic marks stretch, and the glyph flags of each cluster are spread over it. Script and
/// direction are the plan's, and those of the buffer stay.
///
/// The text gets no longer than `max_len`; where none is set, as in a new buffer, no longer than 256
/// times its length, or 65,536 if that is more, as in HarfBuzz 12.
///
/// Without GPOS no mark is placed by its class, as HarfBuzz places some.
///
/// # Errors
///
/// Those of `substitute_text`, so that with the `max_len` of `length_bound` `TooLong` comes behind
/// the lookups of GSUB alone; `Memory` for the positions; the refusal of a lookup of GPOS; the
/// condition `Glyphs` where a number above 65535 stands in a text whose marks may stretch, and the
/// refusal of stretching them. Nothing has changed then.
pub fn shape<F: NormalizeFont + MetricsFont, T: NormalizeTables + UnicodeProperties, L: Lookups>(
    plan: &EnginePlan,
    settings: &ShapeSettings,
    font: &F,
    tables: &T,
    lookups: &L,
    buffer: &mut hb_buffer_t,
) -> Result<(), CallError>
    ensures ok { let p = preparation_by plan.now settings.now.normalize (F.font font.now)
        (F.variants font.now) (T.properties tables.now) (T.tables tables.now)
        (T.texts tables.now) in
        let r = substitution_by plan.now (F.font font.now) (L.substituted lookups.now) in
        let q = positioning_by plan.now settings.now (F.font font.now) (F.metrics font.now)
        (L.marks lookups.now) (L.positioned lookups.now) (L.finished lookups.now) in
        let text = text_to_shape plan.now buffer.old in
        let noted = text_noted (L.noted lookups.now) (text_prepared p text) in
        OnOk result ((mid : Buffer) × (StagesRun r plan.now.stages noted mid
        × (buffer.new ≡ given_back buffer.old (text_shaped q buffer.old.direction mid)))) }
    ensures err { OnErr result (buffer.new ≡ buffer.old) }
    ensures refusal { let p = preparation_by plan.now settings.now.normalize (F.font font.now)
        (F.variants font.now) (T.properties tables.now) (T.tables tables.now)
        (T.texts tables.now) in
        let r = substitution_by plan.now (F.font font.now) (L.substituted lookups.now) in
        let q = positioning_by plan.now settings.now (F.font font.now) (F.metrics font.now)
        (L.marks lookups.now) (L.positioned lookups.now) (L.finished lookups.now) in
        let text = text_to_shape plan.now buffer.old in
        let noted = text_noted (L.noted lookups.now) (text_prepared p text) in
        let substituting = L.substituting_refuses lookups.now in
        let positioning = L.positioning_refuses lookups.now in
        IfErr result (λ e. (e ≡ call.Refused Memory)
        ⊎ ((left : Buffer) × (IsStopped p text left e
        ⊎ (StagesStopped r substituting plan.now.stages noted left e
        ⊎ ((mid : Buffer) × (StagesRun r plan.now.stages noted mid
        × FinishStopped q positioning mid left e)))))) }
    ensures room { let p = preparation_by plan.now settings.now.normalize (F.font font.now)
        (F.variants font.now) (T.properties tables.now) (T.tables tables.now)
        (T.texts tables.now) in
        let r = substitution_by plan.now (F.font font.now) (L.substituted lookups.now) in
        let q = positioning_by plan.now settings.now (F.font font.now) (F.metrics font.now)
        (L.marks lookups.now) (L.positioned lookups.now) (L.finished lookups.now) in
        let text = text_to_shape plan.now buffer.old in
        let noted = text_noted (L.noted lookups.now) (text_prepared p text) in
        let growth = L.growth_of lookups.now in
        let refusals = L.positioning_refuses lookups.now in
        PreparationGrows → PreparationHasRoom →
        shaped_bound plan.now.shaper growth plan.now.lookups plan.now.stages
        (length buffer.old.glyphs) ≤ shape_limit buffer.old.max_len (length buffer.old.glyphs) →
        IfErr result (λ e. e ≡ call.Refused TooLong → (mid : Buffer)
        × (StagesRun r plan.now.stages noted mid × ((left : Buffer)
        × FinishStopped q refusals mid left e))) }
{
    let kept = buffer.keep()?;
    set_to_shape(plan, buffer);
    let shaping = Shaping {
        plan,
        settings,
        font,
        tables,
        lookups,
    };
    match shaping.shape(buffer) {
        Ok(()) => {
            give_back(&kept, buffer);
            buffer.recycle(kept);
            Ok(())
        }
        Err(error) => {
            buffer.restore(kept);
            Err(error)
        }
    }
}

// How long a text of so many characters may get while it is shaped.
fn shape_limit(max_len: usize, len: usize) -> usize
    requires { len ≤ max_len }
    ensures limit { result ≡ shape_limit max_len len }
    ensures fits { len ≤ result }
    ensures within { result ≤ max_len }
{
    if max_len != MAX_LEN_UNSET {
        return max_len;
    }
    let in_proportion = len.saturating_mul(256).max(65536);
    in_proportion.min(MAX_LEN_UNSET)
}

// Sets the script, direction and greatest length by which a plan shapes the text.
fn set_to_shape(plan: &EnginePlan, buffer: &mut hb_buffer_t)
    ensures text { buffer.new ≡ text_to_shape plan.now buffer.old }
    ensures within { buffer.new.max_len ≤ buffer.old.max_len }
{
    let limit = shape_limit(buffer.max_len(), buffer.len());
    buffer.set_max_len(limit);
    set_to_plan(plan, buffer);
}

// Puts back what the text had of these.
fn give_back(kept: &hb_buffer_t, buffer: &mut hb_buffer_t)
    requires { buffer.old.max_len ≤ kept.now.max_len }
    ensures { buffer.new ≡ given_back kept.now buffer.old }
{
    prove!(buffer.len() <= buffer.max_len());
    buffer.set_max_len(kept.max_len());
    put_back(kept, buffer);
}

// What a text is shaped by.
#[derive(Drop)]
struct Shaping<'a, F, T, L> {
    plan: &'a EnginePlan,
    settings: &'a ShapeSettings,
    font: &'a F,
    tables: &'a T,
    lookups: &'a L,
}

impl<
    'a,
    F: NormalizeFont + MetricsFont,
    T: NormalizeTables + UnicodeProperties,
    L: Lookups,
> Shaping<'a, F, T, L> {
    // Shapes a text in the script and direction of the plan; its direction is then its script's.
    fn shape(&self, buffer: &mut hb_buffer_t) -> Result<(), CallError>
        ensures ok { let p = to_shape F.font F.variants T.properties T.tables T.texts self.now in
            let r = substitution_by self.now.plan.now (F.font self.now.font.now)
            (L.substituted self.now.lookups.now) in
            let q = to_position F.font F.metrics L.marks L.positioned L.finished self.now in
            let noted = text_noted (L.noted self.now.lookups.now) (text_prepared p buffer.old) in
            OnOk result ((mid : Buffer) × (StagesRun r self.now.plan.now.stages noted mid
            × (buffer.new ≡ text_flagged q mid))) }
        ensures err { let p = to_shape F.font F.variants T.properties T.tables T.texts self.now in
            let r = substitution_by self.now.plan.now (F.font self.now.font.now)
            (L.substituted self.now.lookups.now) in
            let q = to_position F.font F.metrics L.marks L.positioned L.finished self.now in
            let noted = text_noted (L.noted self.now.lookups.now) (text_prepared p buffer.old) in
            let substituting = L.substituting_refuses self.now.lookups.now in
            let positioning = L.positioning_refuses self.now.lookups.now in
            let stages = self.now.plan.now.stages in
            IfErr result (λ e. IsStopped p buffer.old buffer.new e
            ⊎ (StagesStopped r substituting stages noted buffer.new e
            ⊎ ((mid : Buffer) × (StagesRun r stages noted mid
            × FinishStopped q positioning mid buffer.new e)))) }
        ensures room { let p = to_shape F.font F.variants T.properties T.tables T.texts self.now in
            let r = substitution_by self.now.plan.now (F.font self.now.font.now)
            (L.substituted self.now.lookups.now) in
            let q = to_position F.font F.metrics L.marks L.positioned L.finished self.now in
            let noted = text_noted (L.noted self.now.lookups.now) (text_prepared p buffer.old) in
            let growth = L.growth_of self.now.lookups.now in
            let refusals = L.positioning_refuses self.now.lookups.now in
            let plan = self.now.plan.now in
            PreparationGrows → PreparationHasRoom →
            shaped_bound plan.shaper growth plan.lookups plan.stages (length buffer.old.glyphs)
            ≤ buffer.old.max_len →
            IfErr result (λ e. e ≡ call.Refused TooLong → (mid : Buffer)
            × (StagesRun r plan.stages noted mid × FinishStopped q refusals mid buffer.new e)) }
        ensures limit { OnOk result (buffer.new.max_len ≡ buffer.old.max_len) }
    {
        let substituting = Substituting {
            plan: self.plan,
            settings: &self.settings.normalize,
            font: self.font,
            tables: self.tables,
            lookups: self.lookups,
        };
        substituting.substitute(buffer)?;
        self.finish(buffer)?;
        propagate_flags(buffer);
        Ok(())
    }

    // Gives glyphs positions, and stretches marks.
    fn finish(&self, buffer: &mut hb_buffer_t) -> Result<(), CallError>
        ensures ok { let q = to_position F.font F.metrics L.marks L.positioned L.finished self.now in
            OnOk result (buffer.new ≡ text_postprocessed q buffer.old) }
        ensures err { let q = to_position F.font F.metrics L.marks L.positioned L.finished self.now in
            let refusals = L.positioning_refuses self.now.lookups.now in
            IfErr result (λ e. FinishStopped q refusals buffer.old buffer.new e) }
    {
        finish_text(self.plan, self.settings, self.font, self.lookups, buffer)
    }
}

// Gives glyphs positions by a plan, and stretches marks.
#[inline]
fn finish_text<F: MetricsFont, L: Lookups>(
    plan: &EnginePlan,
    settings: &ShapeSettings,
    font: &F,
    lookups: &L,
    buffer: &mut hb_buffer_t,
) -> Result<(), CallError>
    ensures ok { let q = positioning_by plan.now settings.now (F.font font.now) (F.metrics font.now)
        (L.marks lookups.now) (L.positioned lookups.now) (L.finished lookups.now) in
        OnOk result (buffer.new ≡ text_postprocessed q buffer.old) }
    ensures err { let q = positioning_by plan.now settings.now (F.font font.now) (F.metrics font.now)
        (L.marks lookups.now) (L.positioned lookups.now) (L.finished lookups.now) in
        let refusals = L.positioning_refuses lookups.now in
        IfErr result (λ e. FinishStopped q refusals buffer.old buffer.new e) }
{
    position_text(plan, settings, font, lookups, buffer)?;
    if let Some(shaper) = plan.shaper() {
        shaper.checked_postprocess_glyphs(plan.plan(), font, buffer)?;
    }
    Ok(())
}

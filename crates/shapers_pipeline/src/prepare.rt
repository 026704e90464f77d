//! A text before the font's lookups, from characters to glyphs.
ghost use Rattle.std.specs.Prelude.{◌≡◌, [], IfErr, OnOk, map};
ghost use Rattle.shapers_prepare.specs.GlyphProperties.{properties_set};
ghost use Rattle.shapers_prepare.specs.Graphemes.{clusters_formed};
ghost use Rattle.shapers_prepare.specs.NativeDirection.{in_native_direction};
ghost use Rattle.shapers_buffer.specs.Buffer.{Buffer};
ghost use Rattle.shapers_pipeline.specs.Masks.{with_mask_alone};
ghost use Rattle.shapers_pipeline.specs.Planned.{as_planned, put_back};
ghost use Rattle.shapers_pipeline.specs.Prepared.{growths, growths_from, normalized_from, preparation, rotation_to, text_normalized, text_prepared};
ghost use Rattle.shapers_pipeline.specs.Preparing.{prepared_by};
ghost use Rattle.shapers_pipeline.specs.Refusals.{AllHadRoom, IsPrepared, IsStopped, OneRefused};

use crate::fractions::set_fractions;
use crate::masks::{initialize_masks, map_glyphs, set_features};
use crate::normalizing::{NormalizeFont, NormalizeSettings, NormalizeTables, ot_shape_normalize};
use crate::plan::TextPlan;
use crate::planned::set_script_and_direction;
use crate::preprocessing::{plan_fits, preprocess_text, setup_masks};
use rustybuzz_shapers::shaper::checked::{CallError, Condition};
use rustybuzz_shapers::shaper::lacks_positions;
use shapers_base::buffer::{Direction, ShaperError, hb_buffer_t};
use shapers_plan::ot_shape_plan::DriverMasks;
use shapers_prepare::ot_shape_prepare::{
    CharRotation, UnicodeProperties, ensure_native_direction, form_clusters, insert_dotted_circle,
    rotate_chars, set_unicode_properties,
};

/// Does all that comes before the font's lookups, in HarfBuzz's order: the features of the whole
/// text and the properties of its characters are set, a circle comes before a first mark, graphemes
/// form clusters, the text turns to its own direction, its shaper rewrites it, characters rotate,
/// the text is normalized, fractions, the shaper and the caller's features in ranges set masks, and
/// each character becomes its glyph. Script and direction are the plan's, and those of the buffer
/// stay: the glyphs stand in the order of their script's own direction, whichever that is.
///
/// # Errors
///
/// `Condition`: `Positions` and `PlanData`, and nothing has changed then; `Glyphs` where a number
/// isn't a character's, and the text is normalized then. `Refused` with `TooLong` and `Memory`: the
/// text is as it was before the step that wanted more room. The script and direction of the buffer
/// are as they were.
pub fn prepare_text<F: NormalizeFont, T: NormalizeTables + UnicodeProperties>(
    plan: &TextPlan,
    settings: &NormalizeSettings,
    font: &F,
    tables: &T,
    buffer: &mut hb_buffer_t,
) -> Result<(), CallError>
    ensures ok { let p = preparation plan.now settings.now (F.font font.now) (F.variants font.now)
        (T.properties tables.now) (T.tables tables.now) (T.texts tables.now) in
        let text = as_planned plan.now.plan.now.script plan.now.direction buffer.old in
        OnOk result (buffer.new ≡ put_back buffer.old (text_prepared p text)) }
    ensures met { let p = preparation plan.now settings.now (F.font font.now) (F.variants font.now)
        (T.properties tables.now) (T.tables tables.now) (T.texts tables.now) in
        let text = as_planned plan.now.plan.now.script plan.now.direction buffer.old in
        OnOk result (IsPrepared p text) }
    ensures err { let p = preparation plan.now settings.now (F.font font.now) (F.variants font.now)
        (T.properties tables.now) (T.tables tables.now) (T.texts tables.now) in
        let text = as_planned plan.now.plan.now.script plan.now.direction buffer.old in
        IfErr result (λ e. (left : Buffer) × (IsStopped p text left e
        × (buffer.new ≡ put_back buffer.old left))) }
    ensures positions { OnOk result (buffer.new.positions ≡ []) }
{
    let script = buffer.script();
    let direction = buffer.direction();
    set_script_and_direction(plan.plan.script, plan.direction, buffer);
    let preparing = Preparing {
        plan,
        settings,
        font,
        tables,
    };
    let prepared = preparing.prepare(buffer);
    set_script_and_direction(script, direction, buffer);
    prepared
}

// What a text is prepared by.
#[derive(Drop)]
pub(crate) struct Preparing<'a, F, T> {
    pub(crate) plan: &'a TextPlan<'a>,
    pub(crate) settings: &'a NormalizeSettings,
    pub(crate) font: &'a F,
    pub(crate) tables: &'a T,
}

impl<'a, F: NormalizeFont, T: NormalizeTables + UnicodeProperties> Preparing<'a, F, T> {
    // Prepares a text in the script and direction of the plan, whose direction is then its script's.
    pub(crate) fn prepare(&self, buffer: &mut hb_buffer_t) -> Result<(), CallError>
        ensures ok { let p = prepared_by F.font F.variants T.properties T.tables T.texts self.now in
            OnOk result (buffer.new ≡ text_prepared p buffer.old) }
        ensures met { let p = prepared_by F.font F.variants T.properties T.tables T.texts self.now in
            OnOk result (IsPrepared p buffer.old) }
        ensures err { let p = prepared_by F.font F.variants T.properties T.tables T.texts self.now in
            IfErr result (λ e. IsStopped p buffer.old buffer.new e) }
        ensures positions { OnOk result (buffer.new.positions ≡ []) }
    {
        let plan = self.plan;
        if !lacks_positions(buffer) {
            return Err(CallError::Condition(Condition::Positions));
        }
        if !plan_fits(plan.shaper, plan.plan) {
            return Err(CallError::Condition(Condition::PlanData));
        }
        self.prepare_characters(buffer)?;
        set_fractions(&plan.masks, buffer);
        setup_masks(plan.shaper, plan.plan, self.font, self.tables, buffer)?;
        set_features(plan.ranges, buffer);
        map_glyphs(buffer);
        Ok(())
    }

    // Does all that is done to the characters: from their masks and properties to normalization.
    fn prepare_characters(&self, buffer: &mut hb_buffer_t) -> Result<(), ShaperError>
        requires { buffer.old.positions ≡ [] }
        ensures ok { let p = prepared_by F.font F.variants T.properties T.tables T.texts self.now in
            OnOk result (buffer.new ≡ text_normalized p buffer.old) }
        ensures room { let p = prepared_by F.font F.variants T.properties T.tables T.texts self.now in
            OnOk result (AllHadRoom buffer.old.max_len (growths p buffer.old)) }
        ensures err { let p = prepared_by F.font F.variants T.properties T.tables T.texts self.now in
            IfErr result (λ e. OneRefused buffer.old.max_len (growths p buffer.old) e buffer.new) }
        ensures positions { OnOk result (buffer.new.positions ≡ []) }
    {
        let direction = buffer.direction();
        set_masks_and_properties(self.plan, self.tables, buffer);
        insert_dotted_circle(self.tables, self.font, buffer)?;
        form_clusters_and_direct(buffer);
        self.preprocess_and_normalize(direction, buffer)
    }

    // Lets the shaper rewrite a text that stands in its own direction, rotates its characters and
    // normalizes it, for a caller who wants `direction`.
    fn preprocess_and_normalize(
        &self,
        direction: Direction,
        buffer: &mut hb_buffer_t,
    ) -> Result<(), ShaperError>
        requires { buffer.old.positions ≡ [] }
        ensures ok { let p = prepared_by F.font F.variants T.properties T.tables T.texts self.now in
            OnOk result (buffer.new ≡ normalized_from p direction buffer.old) }
        ensures room { let p = prepared_by F.font F.variants T.properties T.tables T.texts self.now in
            OnOk result (AllHadRoom buffer.old.max_len (growths_from p direction buffer.old)) }
        ensures err { let p = prepared_by F.font F.variants T.properties T.tables T.texts self.now in
            let growths = growths_from p direction buffer.old in
            IfErr result (λ e. OneRefused buffer.old.max_len growths e buffer.new) }
        ensures positions { OnOk result (buffer.new.positions ≡ []) }
    {
        let plan = self.plan;
        preprocess_text(plan.shaper, plan.plan, self.font, buffer)?;
        let rotation = rotation_to(&plan.masks, direction);
        rotate_chars(self.tables, self.font, &rotation, buffer);
        ot_shape_normalize(
            plan.shaper,
            plan.plan,
            self.font,
            self.tables,
            self.settings,
            buffer,
        )
    }
}

// What characters are rotated by, where the caller wants this direction.
#[inline]
fn rotation_to(masks: &DriverMasks, direction: Direction) -> CharRotation
    ensures { result ≡ rotation_to masks.now direction }
{
    CharRotation {
        direction,
        rtlm_mask: masks.rtlm,
        has_vert: masks.vert != 0,
    }
}

// Sets the features of the whole text and the properties of its characters.
#[inline]
fn set_masks_and_properties<T: UnicodeProperties>(
    plan: &TextPlan,
    tables: &T,
    buffer: &mut hb_buffer_t,
)
    ensures { let global = plan.now.plan.now.ot_map.global in
        let masked = map (with_mask_alone global) buffer.old.glyphs in
        let text = properties_set (T.properties tables.now) masked in
        buffer.new ≡ record buffer.old { glyphs = text } }
{
    initialize_masks(plan.plan.ot_map.get_global_mask(), buffer);
    set_unicode_properties(tables, buffer);
}

// Forms the clusters of the graphemes, and turns the text to its own direction.
#[tactic(auto, using(crate::proofs::Directed::positions_stay, crate::proofs::Directed::limit_stays))]
fn form_clusters_and_direct(buffer: &mut hb_buffer_t)
    requires { buffer.old.positions ≡ [] }
    ensures text { let formed : Buffer = record buffer.old {
      glyphs = clusters_formed buffer.old.level buffer.old.glyphs;
    } in
        buffer.new ≡ in_native_direction formed }
    ensures positions { buffer.new.positions ≡ [] }
    ensures limit { buffer.new.max_len ≡ buffer.old.max_len }
{
    form_clusters(buffer);
    ensure_native_direction(buffer);
}

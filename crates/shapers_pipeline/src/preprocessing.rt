//! What a shaper's hooks do to a text before its lookups.
ghost use Rattle.std.specs.Prelude.{◌≡◌, ◌↔◌, [], IsOkUnless, IsTrue, OnErr, OnOk};
ghost use Rattle.shapers_buffer.specs.Refusals.{RefusesLength};
ghost use Rattle.rustybuzz_shapers.specs.declared.shaper.checked.Condition.TheVariants.{Glyphs};
ghost use Rattle.shapers_pipeline.specs.ShaperSteps.{GlyphsFitFor, PlanFitsFor, masks_set_for, preprocessed_for, preprocessed_len};

use rustybuzz_shapers::shaper::checked::Condition;
use rustybuzz_shapers::shaper::hb_ot_shaper_t;
use shapers_base::buffer::{ShaperError, hb_buffer_t};
use shapers_base::font::{Tables, hb_font_t};
use shapers_base::plan::hb_ot_shape_plan_t;
use shapers_prepare::ot_shape_prepare::{flag_zwnj_graphemes, preprocess_text_vowel_constraints};

// Rewrites a text as its shaper wants it. The shapers that leave the vowel constraints to their
// caller have no other preprocessing, but for the flags that the choice adds in Indic texts.
pub(crate) fn preprocess_text<F: hb_font_t>(
    shaper: Option<hb_ot_shaper_t>,
    plan: &hb_ot_shape_plan_t,
    face: &F,
    buffer: &mut hb_buffer_t,
) -> Result<(), ShaperError>
    requires { buffer.old.positions ≡ [] }
    ensures ok { let font = F.font face.now in
        OnOk result (buffer.new ≡ preprocessed_for shaper plan.now font buffer.old) }
    ensures length { let font = F.font face.now in
        RefusesLength buffer.old.max_len (preprocessed_len shaper font buffer.old) result }
    ensures err { OnErr result (buffer.new ≡ buffer.old) }
    ensures positions { buffer.new.positions ≡ [] }
    ensures limit { buffer.new.max_len ≡ buffer.old.max_len }
{
    // so that a return with nothing changed keeps the promise on lengths, too
    prove!(buffer.len() <= buffer.max_len());
    match shaper {
        Some(hb_ot_shaper_t::Indic) => {
            preprocess_text_vowel_constraints(buffer)?;
            flag_zwnj_graphemes(plan.break_flags, buffer);
            Ok(())
        }
        Some(hb_ot_shaper_t::Universal) => preprocess_text_vowel_constraints(buffer),
        Some(shaper) => {
            shaper.preprocess_text(plan, face, buffer)?;
            Ok(())
        }
        None => Ok(()),
    }
}

// Whether the plan has the data that the shaper's masks are read from.
#[inline]
pub(crate) fn plan_fits(shaper: Option<hb_ot_shaper_t>, plan: &hb_ot_shape_plan_t) -> bool
    ensures { IsTrue result ↔ PlanFitsFor shaper plan.now }
{
    match shaper {
        Some(shaper) => shaper.plan_fits(plan),
        None => true,
    }
}

// Sets the masks and categories of the shaper, or returns the condition of it that the glyphs don't
// meet; the buffer is unchanged then.
#[tactic(auto, using(crate::proofs::HookResults::masks_are, crate::proofs::HookResults::masked_positions))]
pub(crate) fn setup_masks<F: hb_font_t, T: Tables>(
    shaper: Option<hb_ot_shaper_t>,
    plan: &hb_ot_shape_plan_t,
    face: &F,
    tables: &T,
    buffer: &mut hb_buffer_t,
) -> Result<(), Condition>
    requires without_positions { buffer.old.positions ≡ [] }
    requires data { PlanFitsFor shaper plan.now }
    ensures ok { let tables = T.tables tables.now in
        OnOk result (buffer.new ≡ masks_set_for shaper plan.now tables buffer.old) }
    ensures fit { OnOk result (GlyphsFitFor shaper plan.now buffer.old.glyphs) }
    ensures unfit { OnErr result (GlyphsFitFor shaper plan.now buffer.old.glyphs → ⊥) }
    ensures refusal { IsOkUnless result Glyphs }
    ensures err { OnErr result (buffer.new ≡ buffer.old) }
    ensures positions { buffer.new.positions ≡ [] }
{
    let Some(shaper) = shaper else {
        return Ok(());
    };
    if !shaper.glyphs_fit(plan, buffer) {
        return Err(Condition::Glyphs);
    }
    // (a shaper that has no masks of its own leaves the glyphs as they are)
    let _ = shaper.setup_masks(plan, face, tables, buffer);
    Ok(())
}

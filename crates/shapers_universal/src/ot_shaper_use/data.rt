//! What the universal shaper keeps in the plan.
ghost use Rattle.std.specs.Prelude.{◌≡◌, ◌%◌, None, Some, nat_eq, if◌then◌else◌};
ghost use Rattle.shapers_arabic.specs.PlanData.{arabic_plan};
ghost use Rattle.shapers_base.specs.declared.plan.PlanData.TheVariants.{Universal};
ghost use Rattle.std.specs.List.{AllByRecursion, list_any};
ghost use Rattle.std.specs.Cmp.Lexicographic.{pointwise};
ghost use Rattle.shapers_universal.specs.PlanData.{joining_scripts, joins_letters, universal_plan};
ghost use Rattle.shapers_base.specs.Masks.{joining_masks, masks_stored};

use shapers_arabic::ot_shaper_arabic::data_create_arabic;
use shapers_base::buffer::{Script, hb_tag_t};
use shapers_base::plan::{PlanData, arabic_shape_plan_t, hb_ot_shape_plan_t, use_shape_plan_t};

// The scripts of this shaper whose letters join. (Unicode, ArabicShaping.txt.) A new one is also a
// line in joining_scripts of specs/PlanData.antt and in the row `joining` of proofs/SyllableRows.antt.
const JOINING_SCRIPTS: [Script; 13] = [
    Script(*b"Adlm"),
    Script(*b"Arab"),
    Script(*b"Chrs"),
    Script(*b"Rohg"),
    Script(*b"Mand"),
    Script(*b"Mani"),
    Script(*b"Mong"),
    Script(*b"Nkoo"),
    Script(*b"Ougr"),
    Script(*b"Phag"),
    Script(*b"Phlp"),
    Script(*b"Sogd"),
    Script(*b"Syrc"),
];

/// What the shaper keeps in the plan: the mask of `rphf` and, for a script whose letters join, the
/// plan of Arabic. No mask touches a glyph flag bit. It can't refuse and takes no memory.
pub fn create_data(plan: &hb_ot_shape_plan_t) -> PlanData
    ensures data { let start = plan.now.stretch_start in
        let breaks = plan.now.break_flags in
        result ≡ Universal (universal_plan start breaks plan.now.script plan.now.ot_map) }
    ensures off_flags { AllByRecursion (λ mask. mask % 8 ≡ 0) (masks_stored result) }
{
    PlanData::Universal(use_shape_plan_t {
        rphf_mask: plan.ot_map.get_1_mask(hb_tag_t(*b"rphf")),
        arabic_plan: arabic_plan_for(plan),
    })
}

// The plan of Arabic, for a script whose letters join.
#[inline]
fn arabic_plan_for(plan: &hb_ot_shape_plan_t) -> Option<arabic_shape_plan_t>
    ensures data { let start = plan.now.stretch_start in
        let breaks = plan.now.break_flags in
        let plan_of_arabic = arabic_plan start breaks plan.now.ot_map in
        result ≡ (if joins_letters plan.now.script then Some plan_of_arabic else None) }
    ensures off_flags { AllByRecursion (λ mask. mask % 8 ≡ 0) (joining_masks result) }
{
    if has_arabic_joining(plan.script) {
        Some(data_create_arabic(plan))
    } else {
        None
    }
}

// Whether the letters of a script join, where it is known.
#[inline]
fn has_arabic_joining(script: Option<Script>) -> bool
    ensures { result ≡ joins_letters script }
{
    match script {
        None => false,
        Some(script) => is_joining(script),
    }
}

// Whether the letters of this script join.
#[inline]
fn is_joining(script: Script) -> bool
    ensures { result ≡ list_any (λ t. pointwise nat_eq t.0 script.0) joining_scripts }
{
    JOINING_SCRIPTS.contains(&script)
}

//! What the shaper keeps in the plan.
ghost use Rattle.std.specs.Prelude.{◌≡◌, ◌%◌};
ghost use Rattle.std.specs.List.{AllByRecursion};
ghost use Rattle.shapers_arabic.specs.PlanData.{arabic_plan, masks_of};

use shapers_base::buffer::hb_tag_t;
use shapers_base::plan::{PlanData, arabic_shape_plan_t, hb_ot_shape_plan_t};

/// What the shaper keeps in the plan: the masks of the joining forms, which touch no glyph flag
/// bit, whether marks stretch, where these begin, and which breaks are flagged.
pub fn data_create_arabic(plan: &hb_ot_shape_plan_t) -> arabic_shape_plan_t
    ensures data { let start = plan.now.stretch_start in
        let breaks = plan.now.break_flags in
        result ≡ arabic_plan start breaks plan.now.ot_map }
    ensures off_flags { AllByRecursion (λ mask. mask % 8 ≡ 0) result.mask_array }
{
    let map = &plan.ot_map;
    arabic_shape_plan_t {
        mask_array: [
            map.get_1_mask(hb_tag_t(*b"isol")),
            map.get_1_mask(hb_tag_t(*b"fina")),
            map.get_1_mask(hb_tag_t(*b"fin2")),
            map.get_1_mask(hb_tag_t(*b"fin3")),
            map.get_1_mask(hb_tag_t(*b"medi")),
            map.get_1_mask(hb_tag_t(*b"med2")),
            map.get_1_mask(hb_tag_t(*b"init")),
            0,
        ],
        has_stch: map.get_1_mask(hb_tag_t(*b"stch")) != 0,
        stretch_start: plan.stretch_start,
        break_flags: plan.break_flags,
    }
}

/// What the shaper keeps in the plan. It can't refuse and takes no memory.
pub fn create_data(plan: &hb_ot_shape_plan_t) -> PlanData
    ensures data { let start = plan.now.stretch_start in
        let breaks = plan.now.break_flags in
        result ≡ PlanData.Arabic (arabic_plan start breaks plan.now.ot_map) }
    ensures off_flags { AllByRecursion (λ mask. mask % 8 ≡ 0) (masks_of result) }
{
    PlanData::Arabic(data_create_arabic(plan))
}

//! What the initial reordering reads of the plan and the font.
use shapers_base::font::hb_font_t;
use shapers_base::map::hb_ot_map_t;
use shapers_base::plan::indic_shape_plan_t;

/// What the initial reordering reads: Indic's data in the plan, and of which glyphs a feature would
/// substitute, by the plan's lookups and the font.
#[derive(Drop)]
pub(super) struct Rules<'a, F: hb_font_t> {
    pub(super) plan: &'a indic_shape_plan_t,
    pub(super) map: &'a hb_ot_map_t,
    pub(super) font: &'a F,
}

//! The pause of the final reordering.
ghost use Rattle.std.specs.Prelude.{◌≡◌, [], true};
ghost use Rattle.shapers_indic.specs.Plan.{indic_in, is_indic_data};
ghost use Rattle.shapers_indic_final.specs.FinalLaws.{FinallyKept};
ghost use Rattle.shapers_indic_final.specs.FinalWordStart.{FinallyLinked, FinallyReordered};
ghost use Rattle.shapers_indic_final.specs.FinalRules.{final_rules};
ghost use Rattle.shapers_syllabic.specs.CircleLaws.{NoNewCluster};

use super::reordering::FinalOrder;
use super::rules::Rules;
use super::word_start::start_words;
use shapers_base::buffer::hb_buffer_t;
use shapers_base::font::hb_font_t;
use shapers_base::plan::hb_ot_shape_plan_t;
use shapers_indic::ot_shaper_indic::indic_in;
use shapers_syllabic::ot_shaper_syllabic::reorder_syllables_by_steps;

/// Reorders each syllable again, now that the basic features formed its glyphs: its base, its left
/// matras, its reph and a glyph that `pref` formed; and gives a left matra at the start of a word
/// `init`. Every cluster afterwards is one that the text had, and the placement list is empty. It
/// refuses nothing and takes no memory.
/// (OpenType, development of Indic scripts: "Final reordering".)
#[inline]
pub fn final_reordering<F: hb_font_t>(plan: &hb_ot_shape_plan_t, face: &F, buffer: &mut hb_buffer_t)
    requires without_positions { buffer.old.positions ≡ [] }
    requires kept { is_indic_data plan.now.plan_data ≡ true }
    ensures reordered { let rules = final_rules (F.font face.now) (indic_in plan.now) in
        FinallyReordered rules buffer.old buffer.new }
    ensures linked { let rules = final_rules (F.font face.now) (indic_in plan.now) in
        FinallyLinked rules buffer.old buffer.new }
    ensures laws { let rules = final_rules (F.font face.now) (indic_in plan.now) in
        FinallyKept rules buffer.old buffer.new }
    ensures clusters { NoNewCluster buffer.old.glyphs buffer.new.glyphs }
{
    let rules = Rules::new(indic_in(plan), face);
    let order = FinalOrder {
        rules: &rules,
        script: buffer.script(),
    };
    // (this order never refuses)
    reorder_syllables_by_steps(&order, buffer).unwrap();
    start_words(rules.init, buffer);
}

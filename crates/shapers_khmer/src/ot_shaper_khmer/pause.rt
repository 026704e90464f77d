//! The reordering pause of Khmer.
ghost use Rattle.std.specs.Prelude.{◌≡◌, [], IfOk, IsOk, None, OnErr, OnOk, is_some, length, true};
ghost use Rattle.shapers_buffer.specs.Glyph.{order_view};
ghost use Rattle.shapers_buffer.specs.Refusals.{Refuses};
ghost use Rattle.shapers_buffer.specs.Syllables.{unknown_refusal};
ghost use Rattle.shapers_clusters.specs.Laws.{ReorderedHold};
ghost use Rattle.shapers_khmer.specs.Khmer.{khmer_circles, khmer_order, khmer_steps, order_in};
ghost use Rattle.shapers_khmer.specs.KhmerMovers.{ordered_by_movers, steps_by_movers};
ghost use Rattle.shapers_khmer.specs.Plan.{is_khmer_data};
ghost use Rattle.shapers_syllabic.specs.declared.ot_shaper_syllabic.kinds.khmer_syllable.TheConstants.{NON_KHMER_CLUSTER};
ghost use Rattle.shapers_syllabic.specs.CircleLaws.{NoNewCluster};
ghost use Rattle.shapers_syllabic.specs.Circles.{circled};
ghost use Rattle.shapers_syllabic.specs.Reordering.{PauseLinked, PauseReordered, SyllableReordered, carried, script_circles, text_steps};
ghost use Rattle.shapers_syllabic.specs.ReorderingLaws.{PauseCutsAtBorders};

use super::khmer_feature::{ABVF, BLWF, CFAR, PREF, PSTF};
use super::reordering::KhmerOrder;
use shapers_base::buffer::{ShaperError, hb_buffer_t};
use shapers_base::font::hb_font_t;
use shapers_base::plan::ot_category_t::{OT_DOTTEDCIRCLE, OT_Repha};
use shapers_base::plan::{PlanData, hb_ot_shape_plan_t};
use shapers_syllabic::ot_shaper_syllabic::khmer_syllable::{BROKEN_CLUSTER, NON_KHMER_CLUSTER};
use shapers_syllabic::ot_shaper_syllabic::{ScriptCircles, reorder_pause};

// The dotted circles of Khmer.
const CIRCLES: ScriptCircles = ScriptCircles {
    broken_kind: BROKEN_CLUSTER,
    category: OT_DOTTEDCIRCLE,
    repha: Some(OT_Repha),
    position: None,
};

/// Gives broken syllables their dotted circles, and then brings Coeng Ro and the vowels that stand
/// before their base to the front of each syllable, with the masks of the plan; in a regular
/// syllable these are its movers, the last one first. Returns whether circles were wanted. Every
/// cluster afterwards is one that the text had. Refuses with `UnknownSyllable`, before anything
/// changes; with `TooLong`; and with `Memory`, but not where no circle is put in. (OpenType,
/// "Developing OpenType Fonts for Khmer".)
#[inline]
pub fn reorder_khmer<F: hb_font_t>(
    plan: &hb_ot_shape_plan_t,
    face: &F,
    buffer: &mut hb_buffer_t,
) -> Result<bool, ShaperError>
    requires kept { is_khmer_data plan.now.plan_data ≡ true }
    requires without_positions { buffer.old.positions ≡ [] }
    ensures answer { let circles = script_circles khmer_circles (F.font face.now) buffer.old in
        IfOk result (λ answer. answer ≡ is_some circles) }
    ensures ok { let circles = script_circles khmer_circles (F.font face.now) buffer.old in
        OnOk result (PauseReordered circles
        (khmer_order (order_in plan.now.plan_data)) khmer_steps buffer.old buffer.new) }
    ensures linked { let circles = script_circles khmer_circles (F.font face.now) buffer.old in
        let order = khmer_order (order_in plan.now.plan_data) in
        OnOk result (PauseLinked circles
        (SyllableReordered order khmer_steps) buffer.old buffer.new) }
    ensures movers { let circles = script_circles khmer_circles (F.font face.now) buffer.old in
        OnOk result (PauseReordered circles
        (ordered_by_movers (order_in plan.now.plan_data)) steps_by_movers buffer.old buffer.new) }
    ensures cut { let circles = script_circles khmer_circles (F.font face.now) buffer.old in
        OnOk result (PauseCutsAtBorders circles
        (khmer_order (order_in plan.now.plan_data)) khmer_steps buffer.old buffer.new) }
    ensures laws { let circles = script_circles khmer_circles (F.font face.now) buffer.old in
        let opened = circled circles buffer.old.glyphs in
        OnOk result (ReorderedHold carried buffer.old.level
        (text_steps khmer_steps (order_view opened)) opened buffer.new.glyphs) }
    ensures clusters { OnOk result (NoNewCluster buffer.old.glyphs buffer.new.glyphs) }
    ensures refusal { let circles = script_circles khmer_circles (F.font face.now) buffer.old in
        Refuses (unknown_refusal NON_KHMER_CLUSTER buffer.old.glyphs)
        buffer.old.max_len (length (circled circles buffer.old.glyphs)) result }
    ensures err { OnErr result (buffer.new ≡ buffer.old) }
    ensures without_memory { let circles =
        script_circles khmer_circles (F.font face.now) buffer.old in
        unknown_refusal NON_KHMER_CLUSTER buffer.old.glyphs ≡ None →
        circled circles buffer.old.glyphs ≡ buffer.old.glyphs → IsOk result }
{
    let order = order_of(&plan.plan_data);
    reorder_pause(face, &order, &CIRCLES, Some(NON_KHMER_CLUSTER), buffer)
}

// The masks of the order, as the plan keeps them.
#[inline]
fn order_of(plan_data: &PlanData) -> KhmerOrder
    requires { is_khmer_data plan_data.now ≡ true }
    ensures { result ≡ order_in plan_data.now }
{
    match plan_data {
        PlanData::Khmer(kept) => {
            let masks = &kept.mask_array;
            KhmerOrder {
                others: masks[BLWF] | masks[ABVF] | masks[PSTF],
                pref: masks[PREF],
                cfar: masks[CFAR],
            }
        }
        _ => unreachable!("the plan has no data of the Khmer shaper"),
    }
}

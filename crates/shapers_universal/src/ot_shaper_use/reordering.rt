//! The reordering of a text in the universal shaper.
ghost use Rattle.std.specs.Prelude.{◌≡◌, [], IfOk, IsOk, OnErr, OnOk, is_some, length};
ghost use Rattle.shapers_buffer.specs.Glyph.{order_view};
ghost use Rattle.shapers_buffer.specs.Refusals.{RefusesLength};
ghost use Rattle.shapers_clusters.specs.Laws.{ReorderedHold};
ghost use Rattle.shapers_syllabic.specs.CircleLaws.{NoNewCluster};
ghost use Rattle.shapers_syllabic.specs.Circles.{circled};
ghost use Rattle.shapers_syllabic.specs.Reordering.{PauseLinked, PauseReordered, SyllableReordered, carried, script_circles, text_steps};
ghost use Rattle.shapers_syllabic.specs.ReorderingLaws.{PauseCutsAtBorders};
ghost use Rattle.shapers_universal.specs.Universal.{universal_order, universal_steps};
ghost use Rattle.shapers_universal.specs.UniversalText.{universal_circles};

use super::category;
use super::ordering::UniversalOrder;
use shapers_base::buffer::{ShaperError, hb_buffer_t};
use shapers_base::font::hb_font_t;
use shapers_syllabic::ot_shaper_syllabic::use_syllable::BROKEN_CLUSTER;
use shapers_syllabic::ot_shaper_syllabic::{ScriptCircles, reorder_pause};

// The dotted circles of broken syllables: bases, behind their leading rephas.
const CIRCLES: ScriptCircles = ScriptCircles {
    broken_kind: BROKEN_CLUSTER,
    category: category::B,
    repha: Some(category::R),
    position: None,
};

/// Gives each broken syllable a dotted circle, behind its leading rephas, and then each syllable
/// its order; returns whether circles are wanted. Every cluster afterwards is one that the text
/// had. Refuses with `TooLong` where the text would be longer than `max_len`, and with `Memory`;
/// where no circle is put in it takes none. (OpenType, the Universal Shaping Engine.)
#[inline]
pub fn reorder_use<F: hb_font_t>(face: &F, buffer: &mut hb_buffer_t) -> Result<bool, ShaperError>
    requires { buffer.old.positions ≡ [] }
    ensures answer { let circles = script_circles universal_circles (F.font face.now) buffer.old in
        IfOk result (λ answer. answer ≡ is_some circles) }
    ensures ok { let circles = script_circles universal_circles (F.font face.now) buffer.old in
        OnOk result (PauseReordered circles universal_order universal_steps buffer.old buffer.new) }
    ensures linked { let circles = script_circles universal_circles (F.font face.now) buffer.old in
        OnOk result (PauseLinked circles
        (SyllableReordered universal_order universal_steps) buffer.old buffer.new) }
    ensures laws { let circles = script_circles universal_circles (F.font face.now) buffer.old in
        let opened = circled circles buffer.old.glyphs in
        OnOk result (ReorderedHold carried buffer.old.level
        (text_steps universal_steps (order_view opened)) opened buffer.new.glyphs) }
    ensures cut { let circles = script_circles universal_circles (F.font face.now) buffer.old in
        OnOk result
        (PauseCutsAtBorders circles universal_order universal_steps buffer.old buffer.new) }
    ensures clusters { OnOk result (NoNewCluster buffer.old.glyphs buffer.new.glyphs) }
    ensures length { let circles = script_circles universal_circles (F.font face.now) buffer.old in
        RefusesLength buffer.old.max_len (length (circled circles buffer.old.glyphs)) result }
    ensures err { OnErr result (buffer.new ≡ buffer.old) }
    ensures without_memory { let circles =
        script_circles universal_circles (F.font face.now) buffer.old in
        circled circles buffer.old.glyphs ≡ buffer.old.glyphs → IsOk result }
{
    reorder_pause(face, &UniversalOrder, &CIRCLES, None, buffer)
}

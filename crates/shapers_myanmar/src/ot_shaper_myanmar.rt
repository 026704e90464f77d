//! The shaper of Myanmar.
ghost use Rattle.std.specs.Prelude.{◌≡◌, [], IfOk, IsOk, IsOkUnless, None, OnErr, OnOk, is_some, length, map};
ghost use Rattle.shapers_buffer.specs.declared.buffer.refusal.ShaperError.TheVariants.{Memory};
ghost use Rattle.shapers_base.specs.declared.plan.ot_category_t.TheConstants.{OT_DOTTEDCIRCLE};
ghost use Rattle.shapers_base.specs.Planner.{with_requests};
ghost use Rattle.shapers_buffer.specs.Glyph.{order_view};
ghost use Rattle.shapers_clusters.specs.Laws.{ReorderedHold};
ghost use Rattle.shapers_buffer.specs.Refusals.{Refuses};
ghost use Rattle.shapers_buffer.specs.Syllables.{unknown_refusal};
ghost use Rattle.shapers_syllabic.specs.declared.ot_shaper_syllabic.kinds.myanmar_syllable.TheConstants.{NON_MYANMAR_CLUSTER};
ghost use Rattle.shapers_syllabic.specs.Characters.{with_category};
ghost use Rattle.shapers_syllabic.specs.CircleLaws.{NoNewCluster};
ghost use Rattle.shapers_syllabic.specs.Circles.{circled};
ghost use Rattle.shapers_syllabic.specs.Reordering.{PauseLinked, PauseReordered, SyllableReordered, carried, script_circles, text_steps};
ghost use Rattle.shapers_syllabic.specs.ReorderingLaws.{PauseCutsAtBorders};
ghost use Rattle.shapers_myanmar.specs.Myanmar.{myanmar_circles, myanmar_order, myanmar_steps};
ghost use Rattle.shapers_myanmar.specs.Requests.{myanmar_list};

mod laws;
mod moving;
mod positions;
mod reordering;

pub use laws::{
    myanmar_cuts_between_spans, myanmar_drawing_order, myanmar_reads_no_serials,
    myanmar_reorder_laws,
};
pub use reordering::MyanmarOrder;
use shapers_base::buffer::{hb_buffer_t, hb_tag_t};
use shapers_base::font::{Tables, hb_font_t};
use shapers_base::map::{F_GLOBAL, F_MANUAL_ZWJ, F_PER_SYLLABLE};
use shapers_base::plan::ot_category_t::OT_DOTTEDCIRCLE;
use shapers_base::plan::{Pause, Request, ShaperError, hb_ot_shape_planner_t};
use shapers_syllabic::ot_shaper_syllabic::{
    ScriptCircles, myanmar_syllable, reorder_pause, set_categories,
};

// A basic feature: in the whole text, within syllables, and it sees joiners.
const BASIC: u32 = F_GLOBAL | F_MANUAL_ZWJ | F_PER_SYLLABLE;

// The basic features run one by one after the reordering, the others at once after them.
const REQUESTS: [Request; 17] = [
    Request::Pause(Some(Pause::SetupSyllablesMyanmar)),
    Request::Feature(hb_tag_t(*b"locl"), F_GLOBAL | F_PER_SYLLABLE, 1),
    Request::Feature(hb_tag_t(*b"ccmp"), F_GLOBAL | F_PER_SYLLABLE, 1),
    Request::Pause(Some(Pause::ReorderMyanmar)),
    Request::Feature(hb_tag_t(*b"rphf"), BASIC, 1),
    Request::Pause(None),
    Request::Feature(hb_tag_t(*b"pref"), BASIC, 1),
    Request::Pause(None),
    Request::Feature(hb_tag_t(*b"blwf"), BASIC, 1),
    Request::Pause(None),
    Request::Feature(hb_tag_t(*b"pstf"), BASIC, 1),
    Request::Pause(None),
    Request::Pause(Some(Pause::SyllabicClearVar)),
    Request::Feature(hb_tag_t(*b"pres"), F_GLOBAL | F_MANUAL_ZWJ, 1),
    Request::Feature(hb_tag_t(*b"abvs"), F_GLOBAL | F_MANUAL_ZWJ, 1),
    Request::Feature(hb_tag_t(*b"blws"), F_GLOBAL | F_MANUAL_ZWJ, 1),
    Request::Feature(hb_tag_t(*b"psts"), F_GLOBAL | F_MANUAL_ZWJ, 1),
];

/// Requests the features of Myanmar, in the order of its OpenType specification.
/// The only refusal is `Memory`, which leaves the planner as it was.
pub fn collect_features(planner: &mut hb_ot_shape_planner_t) -> Result<(), ShaperError>
    ensures ok { OnOk result (planner.new ≡ with_requests myanmar_list planner.old) }
    ensures refusal { IsOkUnless result Memory }
    ensures err { OnErr result (planner.new ≡ planner.old) }
{
    planner.add_requests(&REQUESTS)
}

/// Gives each glyph the category that the tables have for its character. It takes no memory.
#[inline]
pub fn setup_masks<T: Tables>(tables: &T, buffer: &mut hb_buffer_t)
    ensures { buffer.new ≡
        record buffer.old { glyphs = map (with_category (T.tables tables.now)) buffer.old.glyphs } }
{
    set_categories(tables, buffer);
}

// The circles of broken syllables stand in front of them.
const CIRCLES: ScriptCircles = ScriptCircles {
    broken_kind: myanmar_syllable::BROKEN_CLUSTER,
    category: OT_DOTTEDCIRCLE,
    repha: None,
    position: None,
};

/// Gives broken syllables their dotted circles, and then brings each syllable into the order in
/// which it is drawn. (OpenType, Myanmar script development.) Returns whether circles were wanted.
/// Every cluster afterwards is one that the text had. Refuses with `UnknownSyllable` where a kind
/// is unknown, with `TooLong`, and with `Memory`, but not where no circle is put in.
#[inline]
pub fn reorder_myanmar<F: hb_font_t>(
    face: &F,
    buffer: &mut hb_buffer_t,
) -> Result<bool, ShaperError>
    requires { buffer.old.positions ≡ [] }
    ensures answer { let circles = script_circles myanmar_circles (F.font face.now) buffer.old in
        IfOk result (λ answer. answer ≡ is_some circles) }
    ensures order { let circles = script_circles myanmar_circles (F.font face.now) buffer.old in
        OnOk result (PauseReordered circles myanmar_order myanmar_steps buffer.old buffer.new) }
    ensures linked { let circles = script_circles myanmar_circles (F.font face.now) buffer.old in
        OnOk result (PauseLinked circles
        (SyllableReordered myanmar_order myanmar_steps) buffer.old buffer.new) }
    ensures cut { let circles = script_circles myanmar_circles (F.font face.now) buffer.old in
        OnOk result (PauseCutsAtBorders circles myanmar_order myanmar_steps buffer.old buffer.new) }
    ensures laws { let circles = script_circles myanmar_circles (F.font face.now) buffer.old in
        let opened = record buffer.old { glyphs = circled circles buffer.old.glyphs } in
        let steps = text_steps myanmar_steps (order_view opened.glyphs) in
        OnOk result (ReorderedHold carried opened.level steps opened.glyphs buffer.new.glyphs) }
    ensures clusters { OnOk result (NoNewCluster buffer.old.glyphs buffer.new.glyphs) }
    ensures refusal { let circles = script_circles myanmar_circles (F.font face.now) buffer.old in
        Refuses (unknown_refusal NON_MYANMAR_CLUSTER buffer.old.glyphs)
        buffer.old.max_len (length (circled circles buffer.old.glyphs)) result }
    ensures err { OnErr result (buffer.new ≡ buffer.old) }
    ensures without_memory { let font = F.font face.now in
        let circles = script_circles myanmar_circles font buffer.old in
        unknown_refusal NON_MYANMAR_CLUSTER buffer.old.glyphs ≡ None →
        circled circles buffer.old.glyphs ≡ buffer.old.glyphs → IsOk result }
{
    let last_kind = Some(myanmar_syllable::NON_MYANMAR_CLUSTER);
    reorder_pause(face, &MyanmarOrder, &CIRCLES, last_kind, buffer)
}

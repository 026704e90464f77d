//! The shaper of Arabic and of the scripts that join like it.
ghost use Rattle.std.specs.Prelude.{◌≡◌, ◌+◌, ◌<◌, OnOk, OnErr, IsOkUnless};
ghost use Rattle.shapers_buffer.specs.declared.buffer.refusal.ShaperError.TheVariants.{Memory};
ghost use Rattle.shapers_base.specs.Planner.{with_requests};
ghost use Rattle.shapers_arabic.specs.Requests.{arabic_list, is_arabic, joining_list, rclt};
ghost use Rattle.shapers_arabic.specs.Breaks.{BreaksWhereClear, NoneNeedless};
ghost use Rattle.shapers_arabic.specs.FirstPiece.{FirstKeepsAsFlagged};
ghost use Rattle.shapers_arabic.specs.JoinedText.{AreCharacters, CutsAsHalves, buffer_joined, look_ups, text_of};
ghost use Rattle.shapers_arabic.specs.PlanData.{IsArabic, breaks_of, masks_of};
ghost use Rattle.shapers_arabic.specs.TextJoined.{TextJoined};
ghost use Rattle.shapers_clusters.specs.FlagLaw.{OnlyFlagsAdded};

use arrayvec::ArrayVec;
use shapers_base::buffer::{Script, hb_buffer_t, hb_tag_t};
use shapers_base::font::{Tables, hb_font_t};
use shapers_base::map::{F_GLOBAL, F_HAS_FALLBACK, F_MANUAL_ZWJ, F_NONE};
use shapers_base::plan::{
    Pause, PlanData, Request, ShaperError, hb_ot_shape_plan_t, hb_ot_shape_planner_t,
};
use std::marker::Brand;
use std::sync::ledger::{Blank, Ledger};

pub mod arabic_action_t;
mod breaks;
mod data;
mod joining;
mod laws;
mod look_ups;
mod marks;
mod masks;
mod walk;

pub use data::{create_data, data_create_arabic};
use joining::nearest_in;
pub use laws::{
    copied_contexts_law, joining_breaks_law, joining_concatenation_law, joining_edits_law,
};
pub use look_ups::LookUps;
pub use marks::{reorder_marks, reorder_marks_in};
pub use shapers_base::plan::{arabic_shape_plan_t, hb_arabic_joining_type_t};
use walk::JoiningWalk;

// A feature that holds for the whole text and sees joiners.
const GLOBAL_ZWJ: u32 = F_GLOBAL | F_MANUAL_ZWJ;

// What comes before the joining forms.
const FIRST_REQUESTS: [Request; 5] = [
    Request::Feature(hb_tag_t(*b"stch"), F_GLOBAL, 1),
    Request::Pause(Some(Pause::RecordStch)),
    Request::Feature(hb_tag_t(*b"ccmp"), GLOBAL_ZWJ, 1),
    Request::Feature(hb_tag_t(*b"locl"), GLOBAL_ZWJ, 1),
    Request::Pause(None),
];

// What comes last.
const LAST_REQUESTS: [Request; 3] = [
    Request::Feature(hb_tag_t(*b"liga"), GLOBAL_ZWJ, 1),
    Request::Feature(hb_tag_t(*b"clig"), GLOBAL_ZWJ, 1),
    Request::Feature(hb_tag_t(*b"mset"), GLOBAL_ZWJ, 1),
];

/// Requests the features of Arabic, in the order of its OpenType specification; for the script
/// Arabic itself with the pause of the fallback shaper.
/// The only refusal is `Memory`, which leaves the planner as it was.
pub fn collect_features<F: hb_font_t>(
    face: &F,
    planner: &mut hb_ot_shape_planner_t,
) -> Result<(), ShaperError>
    ensures ok { let has_rclt = (F.font face.now).offers rclt in
        let list = arabic_list (is_arabic planner.old.script) has_rclt in
        OnOk result (planner.new ≡ with_requests list planner.old) }
    ensures refusal { IsOkUnless result Memory }
    ensures err { OnErr result (planner.new ≡ planner.old) }
{
    let is_arabic = planner.script() == Some(Script(*b"Arab"));
    let has_rclt = planner.has_feature(face, hb_tag_t(*b"rclt"));
    let requests = arabic_requests(is_arabic, has_rclt);
    planner.add_requests(requests.as_slice())
}

// The list for the script Arabic or another one, for a font that has `rclt` or has it not.
#[inline]
fn arabic_requests(is_arabic: bool, has_rclt: bool) -> ArrayVec<Request, 26>
    ensures { result.items ≡ arabic_list is_arabic has_rclt }
{
    let fallback = if is_arabic { F_HAS_FALLBACK } else { F_NONE };
    let mut requests = ArrayVec::new();
    requests.try_extend_from_slice(&FIRST_REQUESTS).unwrap();
    requests
        .try_extend_from_slice(&joining_requests(F_MANUAL_ZWJ | fallback))
        .unwrap();
    requests.push(Request::Feature(hb_tag_t(*b"rlig"), GLOBAL_ZWJ | F_HAS_FALLBACK, 1));
    if is_arabic {
        requests.push(Request::Pause(Some(Pause::ArabicFallbackShape)));
    }
    requests.push(Request::Feature(hb_tag_t(*b"calt"), GLOBAL_ZWJ, 1));
    // (KFGQPC's fonts want the pause, and those with `rclt` none: HarfBuzz's issues 505 and 1573)
    if !has_rclt {
        requests.push(Request::Pause(None));
    }
    requests.try_extend_from_slice(&LAST_REQUESTS).unwrap();
    requests
}

// The joining forms, each followed by a pause; the forms of Syriac alone never have a fallback.
#[inline]
fn joining_requests(flags: u32) -> [Request; 14]
    ensures { result ≡ joining_list flags }
{
    [
        Request::Feature(hb_tag_t(*b"isol"), flags, 1),
        Request::Pause(None),
        Request::Feature(hb_tag_t(*b"fina"), flags, 1),
        Request::Pause(None),
        Request::Feature(hb_tag_t(*b"fin2"), F_MANUAL_ZWJ, 1),
        Request::Pause(None),
        Request::Feature(hb_tag_t(*b"fin3"), F_MANUAL_ZWJ, 1),
        Request::Pause(None),
        Request::Feature(hb_tag_t(*b"medi"), flags, 1),
        Request::Pause(None),
        Request::Feature(hb_tag_t(*b"med2"), F_MANUAL_ZWJ, 1),
        Request::Pause(None),
        Request::Feature(hb_tag_t(*b"init"), flags, 1),
        Request::Pause(None),
    ]
}

/// Gives each glyph the form that its neighbours require, in its auxiliary byte, the form's mask
/// and the glyph flags of joining, and counts the joining types that it looks up. It can't refuse
/// and takes no memory.
#[inline]
pub fn setup_masks_counted<T: Tables, L: Ledger>(
    arabic_plan: &arabic_shape_plan_t,
    script: Option<Script>,
    buffer: &mut hb_buffer_t,
    tables: &T,
    count: &mut LookUps<L>,
)
    requires { AreCharacters buffer.old.glyphs }
    ensures joined { let table = T.tables tables.now in
        let masks = arabic_plan.now.mask_array in let breaks = arabic_plan.now.break_flags in
        buffer.new ≡ buffer_joined breaks masks script table.joining table.general buffer.old }
    ensures counted { let table = T.tables tables.now in
        count.new ≡ count.old + look_ups (text_of table.joining table.general buffer.old) }
    ensures cut { let table = T.tables tables.now in
        CutsAsHalves script table.joining table.general buffer.old buffer.new }
    ensures breaks { let table = T.tables tables.now in
        let masks = arabic_plan.now.mask_array in let breaks = arabic_plan.now.break_flags in
        let before = buffer.old in let after = buffer.new in
        BreaksWhereClear breaks masks script table.joining table.general before after }
    ensures needless { let table = T.tables tables.now in
        let masks = arabic_plan.now.mask_array in let breaks = arabic_plan.now.break_flags in
        let before = buffer.old in let after = buffer.new in
        NoneNeedless breaks masks script table.joining table.general before after }
    ensures first { let table = T.tables tables.now in
        let masks = arabic_plan.now.mask_array in let breaks = arabic_plan.now.break_flags in
        let before = buffer.old in let after = buffer.new in
        FirstKeepsAsFlagged breaks masks script table.joining table.general before after }
    ensures flags { OnlyFlagsAdded buffer.old.glyphs buffer.new.glyphs }
{
    let before = nearest_in(buffer.pre_context(), tables, count);
    let after = nearest_in(buffer.post_context(), tables, count);
    let flags = buffer.flags();
    let mut walk = JoiningWalk {
        masks: &arabic_plan.mask_array,
        breaks: arabic_plan.break_flags,
        script,
        flags,
        before,
        after,
        tables,
        count,
    };
    buffer.walk_outside(&mut walk);
}

/// Gives each glyph the form that its neighbours require, in its auxiliary byte, the form's mask
/// and the glyph flags of joining; a text that is cut acts as the whole where the halves see their
/// neighbours. It can't refuse and takes no memory.
#[inline]
pub fn setup_masks_inner<T: Tables>(
    arabic_plan: &arabic_shape_plan_t,
    script: Option<Script>,
    buffer: &mut hb_buffer_t,
    tables: &T,
)
    requires { AreCharacters buffer.old.glyphs }
    ensures joined { let table = T.tables tables.now in
        let masks = arabic_plan.now.mask_array in let breaks = arabic_plan.now.break_flags in
        buffer.new ≡ buffer_joined breaks masks script table.joining table.general buffer.old }
    ensures cut { let table = T.tables tables.now in
        CutsAsHalves script table.joining table.general buffer.old buffer.new }
    ensures breaks { let table = T.tables tables.now in
        let masks = arabic_plan.now.mask_array in let breaks = arabic_plan.now.break_flags in
        let before = buffer.old in let after = buffer.new in
        BreaksWhereClear breaks masks script table.joining table.general before after }
    ensures needless { let table = T.tables tables.now in
        let masks = arabic_plan.now.mask_array in let breaks = arabic_plan.now.break_flags in
        let before = buffer.old in let after = buffer.new in
        NoneNeedless breaks masks script table.joining table.general before after }
    ensures first { let table = T.tables tables.now in
        let masks = arabic_plan.now.mask_array in let breaks = arabic_plan.now.break_flags in
        let before = buffer.old in let after = buffer.new in
        FirstKeepsAsFlagged breaks masks script table.joining table.general before after }
    ensures flags { OnlyFlagsAdded buffer.old.glyphs buffer.new.glyphs }
{
    setup_masks_with::<T, Brand>(arabic_plan, script, buffer, tables, Blank::new(1));
}

// Sets masks up as `setup_masks_inner`, with a count of look-ups of its own.
#[inline]
fn setup_masks_with<T: Tables, L: Ledger>(
    arabic_plan: &arabic_shape_plan_t,
    script: Option<Script>,
    buffer: &mut hb_buffer_t,
    tables: &T,
    blank: Blank,
)
    requires name { blank.name ≡ L.name }
    requires parts { blank.parts ≡ L.parts }
    requires some { 0 < blank.parts }
    requires characters { AreCharacters buffer.old.glyphs }
    ensures { let table = T.tables tables.now in
        let masks = arabic_plan.now.mask_array in let breaks = arabic_plan.now.break_flags in
        TextJoined breaks masks script table.joining table.general buffer.old buffer.new }
{
    let mut count = LookUps::<L>::new(blank);
    setup_masks_counted(arabic_plan, script, buffer, tables, &mut count);
}

/// Gives each glyph its form, the form's mask and the glyph flags of joining, with the script and
/// the data of the plan. It can't refuse and takes no memory.
#[inline]
pub fn setup_masks<T: Tables>(plan: &hb_ot_shape_plan_t, tables: &T, buffer: &mut hb_buffer_t)
    requires data { IsArabic plan.now.plan_data }
    requires characters { AreCharacters buffer.old.glyphs }
    ensures joined { let table = T.tables tables.now in let masks = masks_of plan.now.plan_data in
        let breaks = breaks_of plan.now.plan_data in
        buffer.new ≡ buffer_joined breaks masks plan.now.script table.joining table.general buffer.old }
    ensures cut { let table = T.tables tables.now in
        CutsAsHalves plan.now.script table.joining table.general buffer.old buffer.new }
    ensures breaks { let table = T.tables tables.now in let script = plan.now.script in
        let masks = masks_of plan.now.plan_data in let breaks = breaks_of plan.now.plan_data in
        let before = buffer.old in let after = buffer.new in
        BreaksWhereClear breaks masks script table.joining table.general before after }
    ensures needless { let table = T.tables tables.now in let script = plan.now.script in
        let masks = masks_of plan.now.plan_data in let breaks = breaks_of plan.now.plan_data in
        let before = buffer.old in let after = buffer.new in
        NoneNeedless breaks masks script table.joining table.general before after }
    ensures first { let table = T.tables tables.now in let script = plan.now.script in
        let masks = masks_of plan.now.plan_data in let breaks = breaks_of plan.now.plan_data in
        let before = buffer.old in let after = buffer.new in
        FirstKeepsAsFlagged breaks masks script table.joining table.general before after }
    ensures flags { OnlyFlagsAdded buffer.old.glyphs buffer.new.glyphs }
{
    match &plan.plan_data {
        PlanData::Arabic(arabic_plan) => {
            setup_masks_inner(arabic_plan, plan.script, buffer, tables);
        }
        _ => unreachable!("the plan has no data of the Arabic shaper"),
    }
}

//! The shaper of Khmer.
ghost use Rattle.std.specs.Prelude.{◌≡◌, ◌%◌, map, OnOk, OnErr, IsOkUnless};
ghost use Rattle.std.specs.List.{All};
ghost use Rattle.shapers_buffer.specs.declared.buffer.refusal.ShaperError.TheVariants.{Memory};
ghost use Rattle.shapers_base.specs.Planner.{with_requests};
ghost use Rattle.shapers_khmer.specs.Khmer.{decomposed_in_khmer};
ghost use Rattle.shapers_khmer.specs.Plan.{khmer_masks};
ghost use Rattle.shapers_base.specs.Masks.{masks_stored};
ghost use Rattle.shapers_khmer.specs.Requests.{khmer_list, khmer_overrides};
ghost use Rattle.shapers_syllabic.specs.Characters.{composed_behind, with_category};
ghost use Rattle.shapers_base.specs.declared.plan.PlanData.TheVariants.{Khmer};

use shapers_base::buffer::{hb_buffer_t, hb_tag_t};
use shapers_base::font::Tables;
use shapers_base::map::{F_GLOBAL, F_MANUAL_JOINERS, F_PER_SYLLABLE};
use shapers_base::plan::{
    Pause, PlanData, Request, ShaperError, hb_ot_shape_plan_t, hb_ot_shape_planner_t,
    khmer_shape_plan_t,
};
use shapers_syllabic::ot_shaper_syllabic;

pub mod khmer_feature;
mod laws;
mod pause;
mod reordering;

pub use laws::{
    khmer_cuts_between_spans, khmer_orders_by_movers, khmer_reads_no_serials, khmer_reorder_laws,
};
pub use pause::reorder_khmer;
pub use reordering::KhmerOrder;

// The basic features run at once, after the reordering: Uniscribe makes no pause between them, as
// KhmerUI.ttf shows of 1789 17BC, 1789 17D2 1789 and 1789 17D2 1789 17BC (HarfBuzz's issue 974). The
// features behind them may join glyphs over the borders of syllables, which are cleared before (its
// issue 3531).
const REQUESTS: [Request; 14] = [
    Request::Pause(Some(Pause::SetupSyllablesKhmer)),
    Request::Pause(Some(Pause::ReorderKhmer)),
    Request::Feature(hb_tag_t(*b"locl"), F_GLOBAL | F_PER_SYLLABLE, 1),
    Request::Feature(hb_tag_t(*b"ccmp"), F_GLOBAL | F_PER_SYLLABLE, 1),
    Request::Feature(hb_tag_t(*b"pref"), F_MANUAL_JOINERS | F_PER_SYLLABLE, 1),
    Request::Feature(hb_tag_t(*b"blwf"), F_MANUAL_JOINERS | F_PER_SYLLABLE, 1),
    Request::Feature(hb_tag_t(*b"abvf"), F_MANUAL_JOINERS | F_PER_SYLLABLE, 1),
    Request::Feature(hb_tag_t(*b"pstf"), F_MANUAL_JOINERS | F_PER_SYLLABLE, 1),
    Request::Feature(hb_tag_t(*b"cfar"), F_MANUAL_JOINERS | F_PER_SYLLABLE, 1),
    Request::Pause(Some(Pause::SyllabicClearVar)),
    Request::Feature(hb_tag_t(*b"pres"), F_GLOBAL | F_MANUAL_JOINERS, 1),
    Request::Feature(hb_tag_t(*b"abvs"), F_GLOBAL | F_MANUAL_JOINERS, 1),
    Request::Feature(hb_tag_t(*b"blws"), F_GLOBAL | F_MANUAL_JOINERS, 1),
    Request::Feature(hb_tag_t(*b"psts"), F_GLOBAL | F_MANUAL_JOINERS, 1),
];

// The contextual ligatures come on, the standard ones stay off.
const OVERRIDES: [Request; 2] = [
    Request::Feature(hb_tag_t(*b"clig"), F_GLOBAL, 1),
    Request::Feature(hb_tag_t(*b"liga"), F_GLOBAL, 0),
];

/// Requests the features of Khmer, in the order of its OpenType specification.
/// The only refusal is `Memory`, which leaves the planner as it was.
pub fn collect_features(planner: &mut hb_ot_shape_planner_t) -> Result<(), ShaperError>
    ensures ok { OnOk result (planner.new ≡ with_requests khmer_list planner.old) }
    ensures refusal { IsOkUnless result Memory }
    ensures err { OnErr result (planner.new ≡ planner.old) }
{
    planner.add_requests(&REQUESTS)
}

/// Requests contextual ligatures, and turns off the others.
/// The only refusal is `Memory`, which leaves the planner as it was.
pub fn override_features(planner: &mut hb_ot_shape_planner_t) -> Result<(), ShaperError>
    ensures ok { OnOk result (planner.new ≡ with_requests khmer_overrides planner.old) }
    ensures refusal { IsOkUnless result Memory }
    ensures err { OnErr result (planner.new ≡ planner.old) }
{
    planner.add_requests(&OVERRIDES)
}

/// What the shaper keeps in the plan: the masks of the basic features, and none for those that hold
/// for the whole text. None of them touches a glyph flag bit.
pub fn create_data(plan: &hb_ot_shape_plan_t) -> PlanData
    ensures masks { result ≡ Khmer (record { mask_array = khmer_masks plan.now.ot_map }) }
    ensures off_flags { All (λ mask. mask % 8 ≡ 0) (masks_stored result) }
{
    let map = &plan.ot_map;
    PlanData::Khmer(khmer_shape_plan_t {
        mask_array: [
            map.get_1_mask(hb_tag_t(*b"pref")),
            map.get_1_mask(hb_tag_t(*b"blwf")),
            map.get_1_mask(hb_tag_t(*b"abvf")),
            map.get_1_mask(hb_tag_t(*b"pstf")),
            map.get_1_mask(hb_tag_t(*b"cfar")),
            0,
            0,
            0,
            0,
        ],
    })
}

/// The composition of two characters by the table; a mark composes with nothing behind it, so that
/// a split vowel isn't put together again.
#[inline]
pub fn compose<T: Tables>(tables: &T, a: char, b: char) -> Option<char>
    ensures { result ≡ composed_behind (T.tables tables.now) a b }
{
    ot_shaper_syllabic::compose(tables, a, b)
}

/// The decomposition of a character: a split vowel into the part that stands before its base and
/// itself, else the table's.
#[inline]
pub fn decompose<T: Tables>(tables: &T, ab: char) -> Option<(char, char)>
    ensures { result ≡ decomposed_in_khmer (T.tables tables.now) ab }
{
    match ab {
        '\u{17BE}' | '\u{17BF}' | '\u{17C0}' | '\u{17C4}' | '\u{17C5}' => Some(('\u{17C1}', ab)),
        _ => tables.decompose(ab),
    }
}

/// Gives each glyph its category by the table; the masks wait for the reordering. It takes no
/// memory.
#[inline]
pub fn setup_masks<T: Tables>(tables: &T, buffer: &mut hb_buffer_t)
    ensures { buffer.new ≡
        record buffer.old { glyphs = map (with_category (T.tables tables.now)) buffer.old.glyphs } }
{
    ot_shaper_syllabic::set_categories(tables, buffer);
}

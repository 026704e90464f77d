//! The universal shaper.
ghost use Rattle.std.specs.Prelude.{◌≡◌, OnOk, OnErr, IsOkUnless};
ghost use Rattle.shapers_buffer.specs.declared.buffer.refusal.ShaperError.TheVariants.{Memory};
ghost use Rattle.shapers_base.specs.Planner.{with_requests};
ghost use Rattle.shapers_universal.specs.Requests.{universal_list};

use shapers_base::buffer::hb_tag_t;
use shapers_base::map::{F_GLOBAL, F_MANUAL_ZWJ, F_NONE, F_PER_SYLLABLE};
pub use shapers_base::plan::Category;
use shapers_base::plan::{Pause, Request, ShaperError, hb_ot_shape_planner_t};

pub mod category;
mod data;
mod forms;
mod laws;
mod masks;
mod ordering;
mod records;
mod reordering;
mod setup;
mod syllable_walk;

pub use data::create_data;
pub use laws::{universal_cuts_between_spans, universal_reads_no_serials, universal_reorder_laws};
pub use masks::{set_categories_in, setup_masks};
pub use ordering::UniversalOrder;
pub use records::{record_pref, record_pref_in, record_rphf, record_rphf_in};
pub use reordering::reorder_use;
pub use setup::{setup_syllables_use, setup_syllables_use_by_bytes};
pub use shapers_base::plan::use_shape_plan_t;
pub use shapers_syllabic::ot_shaper_syllabic::compose;

// A basic feature: in the whole text, within syllables, and it sees joiners.
const BASIC: u32 = F_GLOBAL | F_MANUAL_ZWJ | F_PER_SYLLABLE;

// The basic features run in groups: the reph and the forms before the base are recorded apart.
const REQUESTS: [Request; 30] = [
    Request::Pause(Some(Pause::SetupSyllablesUse)),
    Request::Feature(hb_tag_t(*b"locl"), F_GLOBAL | F_PER_SYLLABLE, 1),
    Request::Feature(hb_tag_t(*b"ccmp"), F_GLOBAL | F_PER_SYLLABLE, 1),
    Request::Feature(hb_tag_t(*b"nukt"), F_GLOBAL | F_PER_SYLLABLE, 1),
    Request::Feature(hb_tag_t(*b"akhn"), BASIC, 1),
    Request::Pause(Some(Pause::ClearSubstitutionFlags)),
    Request::Feature(hb_tag_t(*b"rphf"), F_MANUAL_ZWJ | F_PER_SYLLABLE, 1),
    Request::Pause(Some(Pause::RecordRphf)),
    Request::Pause(Some(Pause::ClearSubstitutionFlags)),
    Request::Feature(hb_tag_t(*b"pref"), BASIC, 1),
    Request::Pause(Some(Pause::RecordPref)),
    Request::Feature(hb_tag_t(*b"rkrf"), BASIC, 1),
    Request::Feature(hb_tag_t(*b"abvf"), BASIC, 1),
    Request::Feature(hb_tag_t(*b"blwf"), BASIC, 1),
    Request::Feature(hb_tag_t(*b"half"), BASIC, 1),
    Request::Feature(hb_tag_t(*b"pstf"), BASIC, 1),
    Request::Feature(hb_tag_t(*b"vatu"), BASIC, 1),
    Request::Feature(hb_tag_t(*b"cjct"), BASIC, 1),
    Request::Pause(Some(Pause::ReorderUse)),
    Request::Pause(Some(Pause::SyllabicClearVar)),
    Request::Feature(hb_tag_t(*b"isol"), F_NONE, 1),
    Request::Feature(hb_tag_t(*b"init"), F_NONE, 1),
    Request::Feature(hb_tag_t(*b"medi"), F_NONE, 1),
    Request::Feature(hb_tag_t(*b"fina"), F_NONE, 1),
    Request::Pause(None),
    Request::Feature(hb_tag_t(*b"abvs"), F_GLOBAL | F_MANUAL_ZWJ, 1),
    Request::Feature(hb_tag_t(*b"blws"), F_GLOBAL | F_MANUAL_ZWJ, 1),
    Request::Feature(hb_tag_t(*b"haln"), F_GLOBAL | F_MANUAL_ZWJ, 1),
    Request::Feature(hb_tag_t(*b"pres"), F_GLOBAL | F_MANUAL_ZWJ, 1),
    Request::Feature(hb_tag_t(*b"psts"), F_GLOBAL | F_MANUAL_ZWJ, 1),
];

/// Requests the features of the universal shaper, in the order of its OpenType specification.
/// The only refusal is `Memory`, which leaves the planner as it was.
pub fn collect_features(planner: &mut hb_ot_shape_planner_t) -> Result<(), ShaperError>
    ensures ok { OnOk result (planner.new ≡ with_requests universal_list planner.old) }
    ensures refusal { IsOkUnless result Memory }
    ensures err { OnErr result (planner.new ≡ planner.old) }
{
    planner.add_requests(&REQUESTS)
}

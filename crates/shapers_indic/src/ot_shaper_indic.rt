//! The shaper of the Indic scripts.
ghost use Rattle.std.specs.Prelude.{◌≡◌, map, OnOk, OnErr, IsOkUnless};
ghost use Rattle.shapers_buffer.specs.declared.buffer.refusal.ShaperError.TheVariants.{Memory};
ghost use Rattle.shapers_base.specs.Planner.{with_requests};
ghost use Rattle.shapers_indic.specs.Characters.{composed_in_indic, decomposed_in_indic};
ghost use Rattle.shapers_indic.specs.Requests.{indic_list, indic_overrides};
ghost use Rattle.shapers_syllabic.specs.Characters.{with_category_and_position};

use shapers_base::buffer::{hb_buffer_t, hb_tag_t};
use shapers_base::font::Tables;
use shapers_base::map::{F_GLOBAL, F_MANUAL_JOINERS, F_PER_SYLLABLE};
pub use shapers_base::plan::{
    Category, IndicWouldSubstituteFeature, Position, ot_category_t, ot_position_t,
};
use shapers_base::plan::{Pause, Request, ShaperError, hb_ot_shape_planner_t};
use shapers_syllabic::ot_shaper_syllabic;

mod data;
pub mod glyphs;
pub mod indic_feature;

pub use data::{create_data, indic_in, virama_glyph};

// A feature within syllables that sees both joiners: on where a mask says so, or in the whole text.
const MASKED: u32 = F_MANUAL_JOINERS | F_PER_SYLLABLE;

const WHOLE_TEXT: u32 = F_GLOBAL | MASKED;

// The basic features run one by one between the two reorderings, the others at once after them.
const REQUESTS: [Request; 33] = [
    Request::Pause(Some(Pause::SetupSyllablesIndic)),
    Request::Feature(hb_tag_t(*b"locl"), F_GLOBAL | F_PER_SYLLABLE, 1),
    Request::Feature(hb_tag_t(*b"ccmp"), F_GLOBAL | F_PER_SYLLABLE, 1),
    Request::Pause(Some(Pause::InitialReordering)),
    Request::Feature(hb_tag_t(*b"nukt"), WHOLE_TEXT, 1),
    Request::Pause(None),
    Request::Feature(hb_tag_t(*b"akhn"), WHOLE_TEXT, 1),
    Request::Pause(None),
    Request::Feature(hb_tag_t(*b"rphf"), MASKED, 1),
    Request::Pause(None),
    Request::Feature(hb_tag_t(*b"rkrf"), WHOLE_TEXT, 1),
    Request::Pause(None),
    Request::Feature(hb_tag_t(*b"pref"), MASKED, 1),
    Request::Pause(None),
    Request::Feature(hb_tag_t(*b"blwf"), MASKED, 1),
    Request::Pause(None),
    Request::Feature(hb_tag_t(*b"abvf"), MASKED, 1),
    Request::Pause(None),
    Request::Feature(hb_tag_t(*b"half"), MASKED, 1),
    Request::Pause(None),
    Request::Feature(hb_tag_t(*b"pstf"), MASKED, 1),
    Request::Pause(None),
    Request::Feature(hb_tag_t(*b"vatu"), WHOLE_TEXT, 1),
    Request::Pause(None),
    Request::Feature(hb_tag_t(*b"cjct"), WHOLE_TEXT, 1),
    Request::Pause(None),
    Request::Pause(Some(Pause::FinalReordering)),
    Request::Feature(hb_tag_t(*b"init"), MASKED, 1),
    Request::Feature(hb_tag_t(*b"pres"), WHOLE_TEXT, 1),
    Request::Feature(hb_tag_t(*b"abvs"), WHOLE_TEXT, 1),
    Request::Feature(hb_tag_t(*b"blws"), WHOLE_TEXT, 1),
    Request::Feature(hb_tag_t(*b"psts"), WHOLE_TEXT, 1),
    Request::Feature(hb_tag_t(*b"haln"), WHOLE_TEXT, 1),
];

// The standard ligatures stay off.
const OVERRIDES: [Request; 2] = [
    Request::Feature(hb_tag_t(*b"liga"), F_GLOBAL, 0),
    Request::Pause(Some(Pause::SyllabicClearVar)),
];

/// Requests the features of Indic, in the order of its OpenType specification.
/// The only refusal is `Memory`, which leaves the planner as it was.
pub fn collect_features(planner: &mut hb_ot_shape_planner_t) -> Result<(), ShaperError>
    ensures ok { OnOk result (planner.new ≡ with_requests indic_list planner.old) }
    ensures refusal { IsOkUnless result Memory }
    ensures err { OnErr result (planner.new ≡ planner.old) }
{
    planner.add_requests(&REQUESTS)
}

/// Turns off ligatures, and requests that syllables be cleared.
/// The only refusal is `Memory`, which leaves the planner as it was.
pub fn override_features(planner: &mut hb_ot_shape_planner_t) -> Result<(), ShaperError>
    ensures ok { OnOk result (planner.new ≡ with_requests indic_overrides planner.old) }
    ensures refusal { IsOkUnless result Memory }
    ensures err { OnErr result (planner.new ≡ planner.old) }
{
    planner.add_requests(&OVERRIDES)
}

/// The composition of two characters: Bengali YYA, which Unicode excludes from composition, else
/// the table's. A mark composes with nothing behind it, so that a split vowel isn't put together
/// again.
#[inline]
pub fn compose<T: Tables>(tables: &T, a: char, b: char) -> Option<char>
    ensures { result ≡ composed_in_indic (T.tables tables.now) a b }
{
    match (a, b) {
        ('\u{09AF}', '\u{09BC}') if !tables.general_category(a).is_mark() => Some('\u{09DF}'),
        _ => ot_shaper_syllabic::compose(tables, a, b),
    }
}

/// The decomposition of a character by the table, but for four letters that stay whole.
#[inline]
pub fn decompose<T: Tables>(tables: &T, ab: char) -> Option<(char, char)>
    ensures { result ≡ decomposed_in_indic (T.tables tables.now) ab }
{
    match ab {
        // Devanagari RRA, Bengali RRA and RHA (HarfBuzz's issue 779), Tamil AU.
        '\u{0931}' | '\u{09DC}' | '\u{09DD}' | '\u{0B94}' => None,
        _ => tables.decompose(ab),
    }
}

/// Gives each glyph its category and its position in the syllable by the table; the masks wait for
/// the reordering. It takes no memory.
#[inline]
pub fn setup_masks<T: Tables>(tables: &T, buffer: &mut hb_buffer_t)
    ensures { let changed = map (with_category_and_position (T.tables tables.now))
        buffer.old.glyphs in
        buffer.new ≡ record buffer.old { glyphs = changed } }
{
    ot_shaper_syllabic::set_categories_and_positions(tables, buffer);
}

//! What the shaper keeps in the plan.
ghost use Rattle.std.specs.Prelude.{◌≡◌, ◌%◌, find, true};
ghost use Rattle.std.specs.List.{AllByRecursion};
ghost use Rattle.shapers_base.specs.declared.plan.PlanData.TheVariants.{Indic};
ghost use Rattle.shapers_indic.specs.Plan.{config_of, feature_masks, has_old_spec, indic_in, indic_plan, is_indic_data, is_old_script, is_script, scripts, virama_glyph, zero_context};
ghost use Rattle.shapers_base.specs.Masks.{masks_stored};

use BlwfMode::{PostOnly, PreAndPost};
use RephMode::{Explicit, Implicit, LogRepha};
use RephPosition::{AfterMain, AfterPost, AfterSub, BeforePost, BeforeSub};
use shapers_base::buffer::{Script, hb_tag_t};
use shapers_base::font::{GlyphId, hb_font_t};
use shapers_base::map::{TableIndex, hb_ot_map_t};
use shapers_base::plan::{
    BlwfMode, IndicConfig, IndicWouldSubstituteFeature, PlanData, RephMode, RephPosition,
    ZeroContext, hb_ot_shape_plan_t, indic_shape_plan_t,
};

const MALAYALAM: Script = Script(*b"Mlym");

// Any other script.
const DEFAULT: IndicConfig = IndicConfig {
    script: None,
    has_old_spec: false,
    virama: 0,
    reph_pos: BeforePost,
    reph_mode: Implicit,
    blwf_mode: PreAndPost,
};

// Script, whether there is an older specification, virama, where a reph goes, how it is written,
// and where below-base forms apply. (OpenType, development of Indic scripts.)
static INDIC_CONFIGS: [IndicConfig; 10] = [
    IndicConfig {
        script: Some(Script(*b"Deva")),
        has_old_spec: true,
        virama: 0x094D,
        reph_pos: BeforePost,
        reph_mode: Implicit,
        blwf_mode: PreAndPost,
    },
    IndicConfig {
        script: Some(Script(*b"Beng")),
        has_old_spec: true,
        virama: 0x09CD,
        reph_pos: AfterSub,
        reph_mode: Implicit,
        blwf_mode: PreAndPost,
    },
    IndicConfig {
        script: Some(Script(*b"Guru")),
        has_old_spec: true,
        virama: 0x0A4D,
        reph_pos: BeforeSub,
        reph_mode: Implicit,
        blwf_mode: PreAndPost,
    },
    IndicConfig {
        script: Some(Script(*b"Gujr")),
        has_old_spec: true,
        virama: 0x0ACD,
        reph_pos: BeforePost,
        reph_mode: Implicit,
        blwf_mode: PreAndPost,
    },
    IndicConfig {
        script: Some(Script(*b"Orya")),
        has_old_spec: true,
        virama: 0x0B4D,
        reph_pos: AfterMain,
        reph_mode: Implicit,
        blwf_mode: PreAndPost,
    },
    IndicConfig {
        script: Some(Script(*b"Taml")),
        has_old_spec: true,
        virama: 0x0BCD,
        reph_pos: AfterPost,
        reph_mode: Implicit,
        blwf_mode: PreAndPost,
    },
    IndicConfig {
        script: Some(Script(*b"Telu")),
        has_old_spec: true,
        virama: 0x0C4D,
        reph_pos: AfterPost,
        reph_mode: Explicit,
        blwf_mode: PostOnly,
    },
    IndicConfig {
        script: Some(Script(*b"Knda")),
        has_old_spec: true,
        virama: 0x0CCD,
        reph_pos: AfterPost,
        reph_mode: Implicit,
        blwf_mode: PostOnly,
    },
    IndicConfig {
        script: Some(Script(*b"Mlym")),
        has_old_spec: true,
        virama: 0x0D4D,
        reph_pos: AfterMain,
        reph_mode: LogRepha,
        blwf_mode: PreAndPost,
    },
    IndicConfig {
        script: Some(Script(*b"Sinh")),
        has_old_spec: false,
        virama: 0x0DCA,
        reph_pos: AfterPost,
        reph_mode: Explicit,
        blwf_mode: PreAndPost,
    },
];

// The properties of a script.
#[inline]
fn config_of(script: Option<Script>) -> IndicConfig
    ensures { result ≡ config_of script }
{
    listed_config(script).unwrap_or(DEFAULT)
}

// The row of a script in the table, if there is one.
#[inline]
fn listed_config(script: Option<Script>) -> Option<IndicConfig>
    ensures { result ≡ find (λ c. is_script c.script script) scripts }
{
    INDIC_CONFIGS
        .iter()
        .copied()
        .find(|config| config.script == script)
}

// Whether a font's script isn't one of the newer specification, whose tags end in 2; so is none.
#[inline]
fn is_old_script(chosen: Option<hb_tag_t>) -> bool
    ensures { result ≡ is_old_script chosen }
{
    match chosen {
        Some(tag) => tag.0[3] != b'2',
        None => true,
    }
}

// The masks of the features by `indic_feature`: none for those that hold for the whole text.
fn masks_of(map: &hb_ot_map_t) -> [u32; 17]
    ensures masks { result ≡ feature_masks map.now }
    ensures off_flags { AllByRecursion (λ mask. mask % 8 ≡ 0) result }
{
    [
        0,
        0,
        map.get_1_mask(hb_tag_t(*b"rphf")),
        0,
        map.get_1_mask(hb_tag_t(*b"pref")),
        map.get_1_mask(hb_tag_t(*b"blwf")),
        map.get_1_mask(hb_tag_t(*b"abvf")),
        map.get_1_mask(hb_tag_t(*b"half")),
        map.get_1_mask(hb_tag_t(*b"pstf")),
        0,
        0,
        map.get_1_mask(hb_tag_t(*b"init")),
        0,
        0,
        0,
        0,
        0,
    ]
}

/// What the shaper keeps in the plan: the script's row of the table, whether the font follows the
/// older specification, among which consonants the base is looked for, its questions to the font,
/// and the masks of its features. Questions leave contexts out where the plan's `zero_context` says
/// so. No mask touches a glyph flag bit. It can't refuse and takes no memory.
pub fn create_data(plan: &hb_ot_shape_plan_t) -> PlanData
    ensures data { let it = plan.now in
        result ≡ Indic (indic_plan it.base_search it.zero_context it.script it.ot_map) }
    ensures off_flags { AllByRecursion (λ mask. mask % 8 ≡ 0) (masks_stored result) }
{
    let map = &plan.ot_map;
    let config = config_of(plan.script);
    let is_old_spec = config.has_old_spec && is_old_script(map.chosen_script(TableIndex::GSUB));
    // (Uniscribe counts rules with context in Malayalam's fonts of both specifications.)
    let zero_context = match plan.zero_context {
        ZeroContext::OldSpec => is_old_spec && plan.script != Some(MALAYALAM),
        ZeroContext::NewSpec => !is_old_spec && plan.script != Some(MALAYALAM),
    };
    let question = |tag: [u8; 4]| IndicWouldSubstituteFeature::new(
        map,
        hb_tag_t(tag),
        zero_context,
    );
    PlanData::Indic(indic_shape_plan_t {
        config,
        is_old_spec,
        base_search: plan.base_search,
        rphf: question(*b"rphf"),
        pref: question(*b"pref"),
        blwf: question(*b"blwf"),
        pstf: question(*b"pstf"),
        vatu: question(*b"vatu"),
        mask_array: masks_of(map),
    })
}

/// What the plan keeps for Indic.
#[inline]
pub fn indic_in(plan: &hb_ot_shape_plan_t) -> &indic_shape_plan_t
    requires { is_indic_data plan.now.plan_data ≡ true }
    ensures { result.now ≡ indic_in plan.now }
{
    match &plan.plan_data {
        PlanData::Indic(kept) => kept,
        _ => unreachable!("the plan has no data of the Indic shaper"),
    }
}

/// The font's glyph for the script's virama.
#[inline]
pub fn virama_glyph<F: hb_font_t>(plan: &indic_shape_plan_t, face: &F) -> Option<GlyphId>
    ensures { result ≡ virama_glyph (F.font face.now) plan.now }
{
    if plan.config.virama == 0 {
        return None;
    }
    face.get_nominal_glyph(plan.config.virama)
}

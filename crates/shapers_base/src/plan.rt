//! The planner and the plan: what the shapers request of a font, and what they decided for one
//! script and font before they see a text. With them what two shapers or more name.
ghost use Rattle.std.specs.Prelude.{◌≡◌};
ghost use Rattle.std.specs.Option.{option_copied};
ghost use Rattle.shapers_base.specs.Plan.{as_arabic, as_hangul, as_indic, as_khmer, as_universal, new_plan};

use crate::buffer::Script;
pub use crate::buffer::ShaperError;
use crate::map::hb_ot_map_t;

mod arabic;
mod breaks;
mod hangul;
mod indic;
mod joining;
mod khmer;
pub mod ot_category_t;
pub mod ot_position_t;
mod pause;
mod planner;
mod record;
mod universal;

pub use arabic::{StretchStart, arabic_shape_plan_t};
pub use breaks::BreakFlags;
pub use hangul::hangul_shape_plan_t;
pub use indic::{
    BaseSearch, BlwfMode, IndicConfig, IndicWouldSubstituteFeature, RephMode, RephPosition,
    ZeroContext, indic_shape_plan_t,
};
pub use joining::hb_arabic_joining_type_t;
pub use khmer::khmer_shape_plan_t;
pub use pause::Pause;
pub use planner::{Request, hb_ot_shape_planner_t};
pub use record::{NormalizationMode, ZeroWidthMarks};
pub use universal::use_shape_plan_t;

/// The category of a character among those of `ot_category_t` or of the universal shaper.
pub type Category = u8;

/// The position of a glyph in its syllable, among those of `ot_position_t`.
pub type Position = u8;

/// What a shaper does to a text of one script. A later version may add fields.
#[derive(Debug, Drop)]
#[non_exhaustive]
pub struct hb_ot_shape_plan_t {
    /// The script of the text, where it is known.
    pub script: Option<Script>,
    /// The features and lookups of the font.
    pub ot_map: hb_ot_map_t,
    /// Whether GPOS places marks.
    pub has_gpos_mark: bool,
    /// Where the tiles of a stretched mark begin.
    pub stretch_start: StretchStart,
    /// Which places are flagged unsafe to break.
    pub break_flags: BreakFlags,
    /// Among which consonants Indic looks for the base of a syllable.
    pub base_search: BaseSearch,
    /// Where Indic's questions to the font leave out rules that need context.
    pub zero_context: ZeroContext,
    /// What the shaper itself keeps.
    pub plan_data: PlanData,
}

impl hb_ot_shape_plan_t {
    /// A plan whose shaper keeps nothing yet, for a font whose GPOS places no marks; tiles begin
    /// and breaks are flagged as the code of HarfBuzz has it, and Indic's base is looked for as in
    /// rustybuzz 0.20.1.
    #[inline]
    pub fn new(script: Option<Script>, ot_map: hb_ot_map_t) -> Self
        ensures { result ≡ new_plan script ot_map }
    {
        hb_ot_shape_plan_t {
            script,
            ot_map,
            has_gpos_mark: false,
            stretch_start: StretchStart::AsCode,
            break_flags: BreakFlags::AsCode,
            base_search: BaseSearch::WithoutMedials,
            zero_context: ZeroContext::OldSpec,
            plan_data: PlanData::None,
        }
    }
}

/// What a shaper keeps in the plan.
#[derive(Debug, PartialEq, Eq, Drop)]
pub enum PlanData {
    /// Nothing.
    None,
    /// The masks of the joining forms.
    Arabic(arabic_shape_plan_t),
    /// What Hangul keeps.
    Hangul(hangul_shape_plan_t),
    /// What the universal shaper keeps.
    Universal(use_shape_plan_t),
    /// The masks of Khmer's basic features.
    Khmer(khmer_shape_plan_t),
    /// What the shaper of the Indic scripts keeps.
    Indic(indic_shape_plan_t),
}

impl PlanData {
    /// What Arabic keeps, if these are its data.
    #[inline]
    pub fn arabic(&self) -> Option<&arabic_shape_plan_t>
        ensures { option_copied result ≡ as_arabic self.now }
    {
        match self {
            PlanData::Arabic(kept) => Some(kept),
            _ => None,
        }
    }

    /// What Hangul keeps, if these are its data.
    #[inline]
    pub fn hangul(&self) -> Option<&hangul_shape_plan_t>
        ensures { option_copied result ≡ as_hangul self.now }
    {
        match self {
            PlanData::Hangul(kept) => Some(kept),
            _ => None,
        }
    }

    /// What the universal shaper keeps, if these are its data.
    #[inline]
    pub fn universal(&self) -> Option<&use_shape_plan_t>
        ensures { option_copied result ≡ as_universal self.now }
    {
        match self {
            PlanData::Universal(kept) => Some(kept),
            _ => None,
        }
    }

    /// What Khmer keeps, if these are its data.
    #[inline]
    pub fn khmer(&self) -> Option<&khmer_shape_plan_t>
        ensures { option_copied result ≡ as_khmer self.now }
    {
        match self {
            PlanData::Khmer(kept) => Some(kept),
            _ => None,
        }
    }

    /// What the shaper of the Indic scripts keeps, if these are its data.
    #[inline]
    pub fn indic(&self) -> Option<&indic_shape_plan_t>
        ensures { option_copied result ≡ as_indic self.now }
    {
        match self {
            PlanData::Indic(kept) => Some(kept),
            _ => None,
        }
    }
}

/// What `preprocess_text` left to its caller.
#[derive(Clone, Copy, Debug, PartialEq, Eq)]
pub enum Preprocess {
    /// Nothing: the text is rewritten.
    Done,
    /// The caller runs the vowel constraints; nothing changed.
    CallerRunsVowelConstraints,
}

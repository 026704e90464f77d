//! What the final reordering reads of the plan and the font.
ghost use Rattle.std.specs.Prelude.{◌≡◌};
ghost use Rattle.shapers_indic.specs.Plan.{is_malayalam};
ghost use Rattle.shapers_indic_final.specs.FinalRules.{has_no_half_forms, final_rules};

use shapers_base::buffer::Script;
use shapers_base::font::{GlyphId, hb_font_t};
use shapers_base::plan::{RephPosition, indic_shape_plan_t};
use shapers_indic::ot_shaper_indic::indic_feature::{INIT, PREF};
use shapers_indic::ot_shaper_indic::virama_glyph;

const MALAYALAM: Script = Script(*b"Mlym");

const TAMIL: Script = Script(*b"Taml");

/// What the final reordering reads of the plan and the font.
#[derive(Clone, Copy, Debug, PartialEq, Eq)]
pub struct Rules {
    /// Where the script wants its reph.
    pub reph_pos: RephPosition,
    /// The glyph of its virama, if it has one and the font knows it.
    pub virama: Option<GlyphId>,
    /// The mask of `pref`, without glyph flag bits.
    pub pref: u32,
    /// The mask of `init`, without glyph flag bits.
    pub init: u32,
}

impl Rules {
    /// The rules by a plan and a font.
    #[inline]
    pub fn new<F: hb_font_t>(plan: &indic_shape_plan_t, face: &F) -> Self
        ensures { result ≡ final_rules (F.font face.now) plan.now }
    {
        Rules {
            reph_pos: plan.config.reph_pos,
            virama: virama_glyph(plan, face),
            pref: plan.mask_array[PREF] & !7,
            init: plan.mask_array[INIT] & !7,
        }
    }
}

// Whether a script is Malayalam.
#[inline]
pub(super) fn is_malayalam(script: Option<Script>) -> bool
    ensures { result ≡ is_malayalam script }
{
    script == Some(MALAYALAM)
}

// Whether a script has neither half forms nor explicit viramas: Malayalam and Tamil.
#[inline]
pub(super) fn has_no_half_forms(script: Option<Script>) -> bool
    ensures { result ≡ has_no_half_forms script }
{
    is_malayalam(script) || script == Some(TAMIL)
}

//! The consonants of Indic and Myanmar.
ghost use Rattle.std.specs.Prelude.{◌≡◌};
ghost use Rattle.shapers_syllabic.specs.Consonants.{is_consonant};

use shapers_base::buffer::hb_glyph_info_t;
use shapers_base::plan::ot_category_t::{
    OT_C, OT_CM, OT_CS, OT_DOTTEDCIRCLE, OT_PLACEHOLDER, OT_Ra, OT_V,
};

/// Whether a glyph is a consonant: of a category that may carry a syllable, and not put in by a
/// lookup for several. (OpenType.)
#[inline]
pub fn is_consonant(glyph: &hb_glyph_info_t) -> bool
    ensures { result ≡ is_consonant glyph.now }
{
    !glyph.glyph_props.is_ligated()
        && matches!(
            glyph.category,
            OT_C | OT_CS | OT_Ra | OT_CM | OT_V | OT_PLACEHOLDER | OT_DOTTEDCIRCLE
        )
}

//! Where the base of a syllable stands once its glyphs are in order.
ghost use Rattle.std.specs.Prelude.{◌≡◌, ◌≤◌, length, position};
ghost use Rattle.shapers_base.specs.declared.plan.ot_position_t.TheConstants.{POS_BASE_C};
ghost use Rattle.shapers_indic.specs.Glyphs.{has_position};
ghost use Rattle.shapers_indic_initial.specs.InitialOrder.{ordered_base};

use shapers_base::buffer::hb_glyph_info_t;
use shapers_base::plan::ot_position_t::POS_BASE_C;

/// The place of the first glyph of position `BASE_C` in an ordered syllable, or its length.
#[tactic(auto, using(crate::proofs::OrderedBase::base_is))]
#[inline]
pub(super) fn ordered_base(glyphs: &[hb_glyph_info_t]) -> usize
    ensures base { result ≡ ordered_base glyphs.now }
    ensures within { result ≤ length glyphs.now }
{
    first_base(glyphs).unwrap_or(glyphs.len())
}

// The place of the first glyph of position BASE_C.
#[inline]
fn first_base(glyphs: &[hb_glyph_info_t]) -> Option<usize>
    ensures { result ≡ position (has_position POS_BASE_C) glyphs.now }
{
    glyphs
        .iter()
        .position(|glyph| glyph.auxiliary == POS_BASE_C)
}

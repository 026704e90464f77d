//! What lookups did, kept as categories for the reordering.
ghost use Rattle.std.specs.Prelude.{◌≡◌, ◌∷◌, if◌then◌else◌, true};
ghost use Rattle.std.specs.List.{flat_map};
ghost use Rattle.shapers_buffer.specs.Syllables.{syllables};
ghost use Rattle.shapers_buffer.specs.declared.buffer.glyph.hb_glyph_info_t.{hb_glyph_info_t};
ghost use Rattle.shapers_universal.specs.declared.ot_shaper_use.category.TheConstants.{VPre};
ghost use Rattle.shapers_universal.specs.PlanData.{is_universal, rphf_of};
ghost use Rattle.shapers_universal.specs.UniversalSyllables.{first_recorded, rphf_recorded, with_pref_recorded, with_rphf_recorded};
ghost use Rattle.shapers_buffer.specs.Glyphs.{Glyphs};

use super::category;
use super::syllable_walk::{FrontChange, change_fronts};
use shapers_base::buffer::{hb_buffer_t, hb_glyph_info_t};
use shapers_base::plan::{PlanData, hb_ot_shape_plan_t};

/// Among the leading glyphs of each syllable that have the mask of `rphf`, the first that a lookup
/// put in becomes a reph. It takes no memory.
#[inline]
pub fn record_rphf(plan: &hb_ot_shape_plan_t, buffer: &mut hb_buffer_t)
    requires { is_universal plan.now.plan_data ≡ true }
    ensures { buffer.new ≡ with_rphf_recorded (rphf_of plan.now.plan_data) buffer.old }
{
    match &plan.plan_data {
        PlanData::Universal(universal_plan) => {
            // no glyph has the mask of a feature that the font lacks
            if universal_plan.rphf_mask == 0 {
                return;
            }
            let mask = universal_plan.rphf_mask;
            buffer.with_glyphs_mut(|glyphs| record_rphf_in(mask, glyphs));
        }
        _ => unreachable!("the plan has no data of the universal shaper"),
    }
}

/// In each syllable the first glyph that a lookup put in becomes one that stands before the base:
/// what `pref` made is drawn there, as a vowel before the base is. It takes no memory.
#[inline]
pub fn record_pref(buffer: &mut hb_buffer_t)
    ensures { buffer.new ≡ with_pref_recorded buffer.old }
{
    buffer.with_glyphs_mut(record_pref_in);
}

/// `record_rphf` for the syllables of a slice, where `mask` is that of `rphf`.
#[inline]
pub fn record_rphf_in(mask: u32, glyphs: &mut [hb_glyph_info_t])
    ensures { glyphs.new ≡ flat_map (rphf_recorded mask) (syllables glyphs.old) }
{
    change_fronts(&RecordRphf { mask }, glyphs);
}

/// In each syllable of a slice the first glyph that a lookup put in becomes one that stands before
/// the base.
#[inline]
pub fn record_pref_in(glyphs: &mut [hb_glyph_info_t])
    ensures { glyphs.new ≡ flat_map (first_recorded VPre) (syllables glyphs.old) }
{
    change_fronts(&RecordPref, glyphs);
}

// The record of `rphf`.
#[derive(Clone, Copy)]
struct RecordRphf {
    mask: u32,
}

impl FrontChange for RecordRphf {
    ghost use Rattle.shapers_universal.specs.UniversalSyllables.{rphf_recorded};

    ghost changed = { λ change glyphs. rphf_recorded change.mask glyphs };

    #[inline]
    fn change(&self, glyph: &mut hb_glyph_info_t) -> bool {
        glyph.mask & self.mask != 0 && record_glyph(glyph, category::R)
    }
}

// The record of `pref`.
#[derive(Clone, Copy)]
struct RecordPref;

impl FrontChange for RecordPref {
    ghost use Rattle.shapers_universal.specs.UniversalSyllables.{first_recorded};
    ghost use Rattle.shapers_universal.specs.declared.ot_shaper_use.category.TheConstants.{VPre};

    ghost changed = { λ _ glyphs. first_recorded VPre glyphs };

    #[inline]
    fn change(&self, glyph: &mut hb_glyph_info_t) -> bool {
        record_glyph(glyph, category::VPre)
    }
}

// Gives the glyph another category if a lookup put it in, and returns whether none did.
#[inline]
fn record_glyph(glyph: &mut hb_glyph_info_t, category: u8) -> bool
    ensures { (rest : Glyphs) → first_recorded category (glyph.old ∷ rest)
        ≡ glyph.new ∷ (if result then first_recorded category rest else rest) }
{
    if !glyph.glyph_props.is_substituted() {
        return true;
    }
    glyph.category = category;
    false
}

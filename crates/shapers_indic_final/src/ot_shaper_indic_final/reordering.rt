//! The final reordering of one syllable.
ghost use Rattle.std.specs.Prelude.{◌≡◌};
ghost use Rattle.shapers_indic_final.specs.FinalWalk.{changes_syllable};

use super::base::search_base;
use super::glyphs::has_mask;
use super::placing::{place_matras, place_pref, place_reph};
use super::rules::{Rules, is_malayalam};
use super::viramas::{is_lost_virama, recover_viramas};
use shapers_base::buffer::{Script, ShaperError, hb_buffer_t, hb_glyph_info_t};
use shapers_base::plan::ot_position_t::{POS_BELOW_C, POS_PRE_M, POS_RA_TO_BECOME_REPH};
use shapers_syllabic::ot_shaper_syllabic::{MayChange, Reorder, ReorderBySteps};

/// The final reordering of syllables, under rules, in a text of a script.
#[derive(Clone, Copy)]
pub(super) struct FinalOrder<'a> {
    pub(super) rules: &'a Rules,
    pub(super) script: Option<Script>,
}

impl<'a> MayChange for FinalOrder<'a> {
    ghost use Rattle.shapers_indic_final.specs.FinalWalk.{changes_syllable};

    ghost changes = { λ it. changes_syllable it.rules.now it.script };

    #[inline]
    fn may_change(&self, glyph: &hb_glyph_info_t) -> bool {
        changes_syllable(self.rules, self.script, glyph)
    }
}

impl<'a> Reorder for FinalOrder<'a> {
    ghost use Rattle.std.specs.Prelude.{◌%◌, ◌≡◌, false};
    ghost use Rattle.std.proofs.Common.{arith};
    ghost use Rattle.shapers_indic_final.specs.FinalReordering.{final_order, final_steps};
    ghost use Rattle.shapers_indic_final.specs.Proved.FinalLaws.{final_laws};
    ghost use Rattle.shapers_indic_final.specs.Proved.FinalStill.{final_stays};
    ghost use Rattle.shapers_syllabic.specs.Reordering.{SyllableReordered};
    ghost use Rattle.shapers_syllabic.proofs.LinkedSyllables.{ordered_by_steps};
    ghost use Rattle.shapers_syllabic.proofs.ReorderingLaws.{numbers_kept};

    ghost meaning = { λ it _. final_order it.rules.now it.script };

    // Nothing of glyph numbers; the mask of `pref` has no bit of a glyph flag.
    ghost takes = { λ it _. it.rules.now.pref % 8 ≡ 0 };

    ghost may_refuse = { λ _. false };

    ghost relation = { λ it. SyllableReordered
        (final_order it.rules.now it.script) (final_steps it.rules.now it.script) };

    // its viramas, its base, its left matras, its reph, and a glyph that `pref` formed
    #[inline]
    fn reorder(
        &self,
        buffer: &mut hb_buffer_t,
        start: usize,
        end: usize,
    ) -> Result<(), ShaperError> {
        recover_viramas(self.rules.virama, buffer, start, end);
        let based = search_base(self.rules, self.script, buffer, start, end);
        let (tries, pref) = (based.tries_pref, self.rules.pref);
        let forming = if tries { pref } else { 0 };
        let mut moves = place_matras(self.script, based.base, forming, buffer, start, end);
        let reph_pos = self.rules.reph_pos;
        let base = place_reph(reph_pos, based.base, &mut moves, buffer, start, end);
        place_pref(
            tries,
            self.script,
            pref,
            base,
            &mut moves,
            buffer,
            start,
            end,
        );
        buffer.apply_all(start, end, &moves);
        Ok(())
    }

    ghost permutes = { λ it _. numbers_kept (final_order it.rules.now it.script)
        (final_steps it.rules.now it.script) (final_laws it.rules.now it.script) };

    ghost orders = { λ it. ordered_by_steps
        (final_order it.rules.now it.script) (final_steps it.rules.now it.script) };

    ghost stays = { λ it s e b some _ none.
        final_stays it.rules.now it.script s e b (omega arith) none };
}

impl<'a> ReorderBySteps for FinalOrder<'a> {
    ghost use Rattle.shapers_indic_final.specs.FinalReordering.{final_steps};
    ghost use Rattle.shapers_indic_final.specs.Proved.FinalLaws.{final_laws};

    ghost steps = { λ it _. final_steps it.rules.now it.script };

    ghost laws = { λ it _. final_laws it.rules.now it.script };

    ghost leads = { λ _ _ _ _ _ done. done };

    ghost suffices = { λ _ _ _ _ _ done. done };
}

// Whether a glyph may change its syllable: a left matra, a reph, what `pref` may form, a virama to
// be recovered; in Malayalam what stands below the base, too.
#[inline]
fn changes_syllable(rules: &Rules, script: Option<Script>, glyph: &hb_glyph_info_t) -> bool
    ensures { result ≡ changes_syllable rules.now script glyph.now }
{
    matches!(glyph.auxiliary, POS_PRE_M | POS_RA_TO_BECOME_REPH)
        || has_mask(rules.pref, glyph)
        || is_lost_virama(rules.virama, glyph)
        || (glyph.auxiliary == POS_BELOW_C && is_malayalam(script))
}

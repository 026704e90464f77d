//! The initial reordering of one syllable.
ghost use Rattle.std.specs.Prelude.{◌≡◌, ◌-◌, ◌≤◌, [], length, true};
ghost use Rattle.shapers_buffer.specs.Clusters.{stretch_of};
ghost use Rattle.shapers_indic_initial.specs.InitialOrder.{ordered_base};
ghost use Rattle.shapers_indic_initial.specs.InitialReordering.{is_reordered_in_indic, masked_in_order};
ghost use Rattle.shapers_indic_initial.specs.InitialRules.{initial_rules};
ghost use Rattle.shapers_syllabic.specs.Reordering.{SyllableReordered};

use super::masks::set_masks;
use super::order::order_syllable;
use super::preparing::prepare_for_order;
use super::rules::Rules;
use shapers_base::buffer::{GlyphWalk, Script, ShaperError, hb_buffer_t, hb_glyph_info_t};
use shapers_base::font::hb_font_t;
use shapers_indic::ot_shaper_indic::glyphs::is_plain_consonant;
use shapers_syllabic::ot_shaper_syllabic::indic_syllable::{
    BROKEN_CLUSTER, CONSONANT_SYLLABLE, STANDALONE_CLUSTER, VOWEL_SYLLABLE,
};
use shapers_syllabic::ot_shaper_syllabic::{MayChange, Reorder, ReorderBySteps};

/// The initial reordering of a syllable that has positions by the font: its order, and its masks.
#[derive(Drop)]
pub(super) struct InitialOrder<'a, F: hb_font_t> {
    pub(super) rules: &'a Rules<'a, F>,
}

impl<'a, F: hb_font_t> MayChange for InitialOrder<'a, F> {
    ghost use Rattle.std.specs.Prelude.{true};

    ghost changes = { λ _ _. true };

    // each may: it gets a position and masks
    #[inline]
    fn may_change(&self, _: &hb_glyph_info_t) -> bool {
        true
    }
}

impl<'a, F: hb_font_t> Reorder for InitialOrder<'a, F> {
    ghost use Rattle.std.specs.Prelude.{false};
    ghost use Rattle.shapers_indic_initial.specs.InitialReordering.{InitialRelation, initial_order, initial_steps};
    ghost use Rattle.shapers_indic_initial.specs.InitialRules.{initial_rules};
    ghost use Rattle.shapers_indic_initial.specs.Proved.InitialLaws.{initial_laws};
    ghost use Rattle.shapers_syllabic.proofs.LinkedSyllables.{each_may, ordered_by_steps};
    ghost use Rattle.shapers_syllabic.proofs.ReorderingLaws.{numbers_kept};

    ghost meaning = { λ it.
        let rules = it.rules.now in
        initial_order (initial_rules (F.font rules.font.now) rules.map.now rules.plan.now) };

    ghost takes = { λ _ _. Unit {0} };

    ghost may_refuse = { λ _. false };

    ghost relation = { λ it.
        let rules = it.rules.now in
        InitialRelation (initial_rules (F.font rules.font.now) rules.map.now rules.plan.now) };

    #[inline]
    fn reorder(
        &self,
        buffer: &mut hb_buffer_t,
        start: usize,
        end: usize,
    ) -> Result<(), ShaperError> {
        if is_plain_consonant(&buffer.glyphs()[start..end]) {
            return Ok(());
        }
        if is_reordered(&buffer.glyphs()[start..end]) {
            let moved = prepare_for_order(self.rules, buffer, start, end);
            let base = order_syllable(self.rules.plan.is_old_spec, &moved, buffer);
            self.mask_syllable(buffer, base, start, end);
        }
        Ok(())
    }

    ghost permutes = { λ it script.
        let rules = it.rules.now in
        let r = initial_rules (F.font rules.font.now) rules.map.now rules.plan.now in
        numbers_kept (initial_order r script) (initial_steps r script) (initial_laws r script) };

    ghost orders = { λ it s e old new.
        let rules = it.rules.now in
        let r = initial_rules (F.font rules.font.now) rules.map.now rules.plan.now in
        ordered_by_steps (initial_order r old.script) (initial_steps r old.script) s e old new };

    ghost stays = { λ it.
        let rules = it.rules.now in
        each_may (InitialRelation
        (initial_rules (F.font rules.font.now) rules.map.now rules.plan.now)) };
}

impl<'a, F: hb_font_t> ReorderBySteps for InitialOrder<'a, F> {
    ghost use Rattle.shapers_indic_initial.specs.InitialReordering.{initial_steps};
    ghost use Rattle.shapers_indic_initial.specs.InitialRules.{initial_rules};
    ghost use Rattle.shapers_indic_initial.specs.Proved.InitialLaws.{initial_laws};

    ghost steps = { λ it.
        let rules = it.rules.now in
        initial_steps (initial_rules (F.font rules.font.now) rules.map.now rules.plan.now) };

    ghost laws = { λ it.
        let rules = it.rules.now in
        initial_laws (initial_rules (F.font rules.font.now) rules.map.now rules.plan.now) };

    ghost leads = { λ _ _ _ _ _ done. done };

    ghost suffices = { λ _ _ _ _ _ done. done };
}

impl<'a, F: hb_font_t> InitialOrder<'a, F> {
    // Gives the glyphs of an ordered syllable with its base at this place their masks.
    #[inline]
    fn mask_syllable(&self, buffer: &mut hb_buffer_t, base: usize, start: usize, end: usize)
        requires in_order { start ≤ end }
        requires in_range { end ≤ length buffer.old.glyphs }
        requires base { base ≡ ordered_base (stretch_of start end buffer.old.glyphs) }
        requires within { base ≤ end - start }
        ensures { let rules = self.now.rules.now in
            let r = initial_rules (F.font rules.font.now) rules.map.now rules.plan.now in
            SyllableReordered (masked_in_order r buffer.old.script) (λ _. [])
            start end buffer.old buffer.new }
    {
        let mut masks = Masks {
            rules: self.rules,
            script: buffer.script(),
            base,
            start,
            end,
        };
        buffer.walk(&mut masks);
    }
}

// Where a syllable stands whose glyphs get their masks.
#[derive(Drop)]
struct Masks<'a, F: hb_font_t> {
    rules: &'a Rules<'a, F>,
    script: Option<Script>,
    base: usize,
    start: usize,
    end: usize,
}

impl<'a, F: hb_font_t> GlyphWalk for Masks<'a, F> {
    ghost use Rattle.std.specs.Prelude.{◌≡◌, ◌-◌, ◌<◌, ◌≤◌, ◌^◌, length};
    ghost use Rattle.shapers_buffer.specs.Clusters.{stretch_of, with_stretch};
    ghost use Rattle.shapers_indic.specs.declared.ot_shaper_indic.indic_feature.TheConstants.{HALF};
    ghost use Rattle.shapers_indic_initial.specs.InitialMasks.{bits_of};
    ghost use Rattle.shapers_indic_initial.specs.InitialOrder.{ordered_base};
    ghost use Rattle.shapers_indic_initial.specs.InitialReordering.{masked_in_order};
    ghost use Rattle.shapers_indic_initial.specs.InitialRules.{initial_rules};

    ghost can_walk = { λ w gs. (w.start ≤ w.end) × (w.end ≤ length gs)
        × (w.base ≡ ordered_base (stretch_of w.start w.end gs)) × (w.base ≤ w.end - w.start) };

    ghost walks = { λ v w gs hs.
        let rules = v.rules.now in
        let r = initial_rules (F.font rules.font.now) rules.map.now rules.plan.now in
        (hs ≡ with_stretch v.start v.end (masked_in_order r v.script) gs)
        × (bits_of r HALF < 2 ^ 32) };

    #[inline]
    fn walk(&mut self, glyphs: &mut [hb_glyph_info_t]) {
        let syllable = &mut glyphs[self.start..self.end];
        set_masks(self.rules, self.script, self.base, syllable);
    }
}

// Whether a syllable is reordered.
#[inline]
fn is_reordered(syllable: &[hb_glyph_info_t]) -> bool
    ensures { result ≡ is_reordered_in_indic syllable.now }
{
    match syllable {
        [] => false,
        [first, ..] => matches!(
            first.syllable % 16,
            CONSONANT_SYLLABLE | VOWEL_SYLLABLE | STANDALONE_CLUSTER | BROKEN_CLUSTER
        ),
    }
}

//! Positions by the font: consonants that it has below-base or post-base forms of.
ghost use Rattle.std.specs.Prelude.{◌≡◌, find, map};
ghost use Rattle.shapers_indic.specs.Glyphs.{has_position};
ghost use Rattle.shapers_base.specs.declared.plan.ot_position_t.TheConstants.{POS_BASE_C};
ghost use Rattle.shapers_indic_initial.specs.InitialFont.{by_virama, consonant_position, joins_virama, positions_by_font};
ghost use Rattle.shapers_indic_initial.specs.KnownWalk.{AllKnown, IsKnown, has_forms};

use super::rules::Rules;
use shapers_base::buffer::{GlyphWalk, hb_buffer_t, hb_glyph_info_t};
use shapers_base::font::{GlyphId, hb_font_t};
use shapers_base::map::hb_ot_map_t;
use shapers_base::plan::ot_position_t::{POS_BASE_C, POS_BELOW_C, POS_POST_C};
use shapers_base::plan::{IndicWouldSubstituteFeature, Position, indic_shape_plan_t};
use shapers_indic::ot_shaper_indic::glyphs::number;
use shapers_indic::ot_shaper_indic::virama_glyph;

/// Gives consonants of position `BASE_C` for which the font has a below-base or a post-base form, by
/// its glyph for the script's virama, that form's position. It takes no memory.
#[inline]
pub(super) fn update_consonant_positions<F: hb_font_t>(rules: &Rules<F>, buffer: &mut hb_buffer_t)
    ensures { let r = rules.now in
        let font = F.font r.font.now in
        let changed = positions_by_font font r.map.now r.plan.now buffer.old.glyphs in
        buffer.new ≡ record buffer.old { glyphs = changed } }
{
    if !has_forms(rules.plan, rules.map) {
        return;
    }
    if let Some(virama) = virama_glyph(rules.plan, rules.font) {
        buffer.walk(&mut ByVirama { rules, virama });
    }
}

// Whether a feature that gives consonants forms with the virama has lookups. Where none has, the
// font isn't asked about any consonant.
#[inline]
fn has_forms(plan: &indic_shape_plan_t, map: &hb_ot_map_t) -> bool
    ensures { result ≡ has_forms map.now plan.now }
{
    !plan.blwf.lookups(map).is_empty()
        || !plan.vatu.lookups(map).is_empty()
        || !plan.pstf.lookups(map).is_empty()
        || !plan.pref.lookups(map).is_empty()
}

// How many consonants are known at once.
const KNOWN: usize = 32;

// A consonant and its position by the font, kept so that the font isn't queried again.
#[derive(Clone, Copy)]
struct Known {
    consonant: GlyphId,
    position: Position,
}

// Positions by the forms that consonants have with a virama.
#[derive(Drop)]
struct ByVirama<'a, F: hb_font_t> {
    rules: &'a Rules<'a, F>,
    virama: GlyphId,
}

impl<'a, F: hb_font_t> ByVirama<'a, F> {
    // The position of a consonant. Below-base forms of Ra may be in `vatu` alone (HarfBuzz's issue
    // 1587).
    #[inline]
    fn consonant_position_from_face(&self, consonant: GlyphId) -> Position
        ensures { let r = self.now.rules.now in
            let font = F.font r.font.now in
            result ≡
            consonant_position font r.map.now r.plan.now self.now.virama consonant }
    {
        let plan = self.rules.plan;
        if self.joins(&plan.blwf, consonant) || self.joins(&plan.vatu, consonant) {
            return POS_BELOW_C;
        }
        if self.joins(&plan.pstf, consonant) || self.joins(&plan.pref, consonant) {
            return POS_POST_C;
        }
        POS_BASE_C
    }

    // A consonant with its position.
    #[inline]
    fn asked(&self, consonant: GlyphId) -> Known
        ensures consonant { result.consonant ≡ consonant }
        ensures known { let r = self.now.rules.now in
            let font = F.font r.font.now in
            IsKnown font r.map.now r.plan.now self.now.virama result }
    {
        Known {
            consonant,
            position: self.consonant_position_from_face(consonant),
        }
    }

    // The position of a consonant, for which the font is queried only where it isn't known.
    #[inline]
    fn position_of(&self, known: &mut [Known; KNOWN], consonant: GlyphId) -> Position
        requires { let r = self.now.rules.now in
            let font = F.font r.font.now in
            AllKnown font r.map.now r.plan.now self.now.virama known.old }
        ensures known { let r = self.now.rules.now in
            let font = F.font r.font.now in
            AllKnown font r.map.now r.plan.now self.now.virama known.new }
        ensures position { let r = self.now.rules.now in
            let font = F.font r.font.now in
            result ≡
            consonant_position font r.map.now r.plan.now self.now.virama consonant }
    {
        let slot = usize::from(consonant.0) % KNOWN;
        let kept = known[slot];
        if kept.consonant.0 == consonant.0 {
            return kept.position;
        }
        let asked = self.asked(consonant);
        known[slot] = asked;
        asked.position
    }

    // Gives a glyph its position, if it is a consonant of position BASE_C.
    #[inline]
    fn position_one(&self, known: &mut [Known; KNOWN], glyph: &mut hb_glyph_info_t)
        requires { let r = self.now.rules.now in
            let font = F.font r.font.now in
            AllKnown font r.map.now r.plan.now self.now.virama known.old }
        ensures known { let r = self.now.rules.now in
            let font = F.font r.font.now in
            AllKnown font r.map.now r.plan.now self.now.virama known.new }
        ensures glyph { let r = self.now.rules.now in
            let font = F.font r.font.now in
            glyph.new ≡
            by_virama font r.map.now r.plan.now self.now.virama glyph.old }
    {
        if glyph.auxiliary == POS_BASE_C {
            glyph.auxiliary = self.position_of(known, number(glyph));
        }
    }

    // Gives all consonants of position BASE_C their positions, where that of one is known.
    #[inline]
    fn position_each(&self, first: Known, glyphs: &mut [hb_glyph_info_t])
        requires { let r = self.now.rules.now in
            let font = F.font r.font.now in
            IsKnown font r.map.now r.plan.now self.now.virama first }
        ensures { let r = self.now.rules.now in
            let font = F.font r.font.now in
            glyphs.new ≡
            map (by_virama font r.map.now r.plan.now self.now.virama) glyphs.old }
    {
        let mut known = [first; KNOWN];
        for glyph in glyphs.iter_mut() {
            self.position_one(&mut known, glyph);
        }
    }

    // Gives all consonants of position BASE_C their positions.
    #[inline]
    fn position_all(&self, glyphs: &mut [hb_glyph_info_t])
        ensures { let r = self.now.rules.now in
            let font = F.font r.font.now in
            glyphs.new ≡
            map (by_virama font r.map.now r.plan.now self.now.virama) glyphs.old }
    {
        if let Some(first) = first_consonant(glyphs) {
            self.position_each(self.asked(number(&first)), glyphs);
        }
    }

    // Whether a feature would substitute the virama and a consonant, in either order. Lookups of the
    // older specification have the consonant first. Some fonts, FreeSans among them, have these for
    // the newer one, too, and Uniscribe goes by them: in 0924 094D 0930 the base is the first
    // consonant.
    #[inline(always)]
    fn joins(&self, feature: &IndicWouldSubstituteFeature, consonant: GlyphId) -> bool
        ensures { let r = self.now.rules.now in
            let font = F.font r.font.now in
            result ≡ joins_virama font r.map.now feature.now self.now.virama consonant }
    {
        let font = self.rules.font;
        let lookups = feature.lookups(self.rules.map);
        let zero_context = feature.zero_context();
        !lookups.is_empty()
            && (font.would_apply_any(lookups, &[self.virama, consonant], zero_context)
                || font.would_apply_any(lookups, &[consonant, self.virama], zero_context))
    }
}

impl<'a, F: hb_font_t> GlyphWalk for ByVirama<'a, F> {
    ghost use Rattle.std.specs.Prelude.{◌≡◌, map};
    ghost use Rattle.shapers_indic_initial.specs.InitialFont.{by_virama};

    ghost can_walk = { λ _ _. Unit {0} };

    ghost walks = { λ v w gs hs.
        let r = v.rules.now in
        hs ≡ map (by_virama (F.font r.font.now) r.map.now r.plan.now v.virama) gs };

    #[inline]
    fn walk(&mut self, glyphs: &mut [hb_glyph_info_t]) {
        self.position_all(glyphs);
    }
}

// The first consonant of position BASE_C.
#[inline]
fn first_consonant(glyphs: &[hb_glyph_info_t]) -> Option<hb_glyph_info_t>
    ensures { result ≡ find (has_position POS_BASE_C) glyphs.now }
{
    glyphs
        .iter()
        .copied()
        .find(|glyph| glyph.auxiliary == POS_BASE_C)
}

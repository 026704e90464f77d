//! The masks of a syllable in its new order. (OpenType, development of Indic scripts: which
//! features apply where.)
ghost use Rattle.std.specs.Prelude.{◌≡◌, ◌+◌, ◌<◌, ◌≤◌, ◌^◌, ◌&&◌, ◌||◌, ◌∷◌, [], if◌then◌else◌, length, map, MatchOption, not, slice_index};
ghost use Rattle.std.specs.List.{enumerate_from, list_any, prefix_len};
ghost use Rattle.shapers_buffer.specs.Clusters.{with_stretch};
ghost use Rattle.shapers_buffer.specs.Glyph.{without_flags};
ghost use Rattle.shapers_buffer.specs.GlyphFlags.{with_bits};
ghost use Rattle.shapers_base.specs.Font.{Font};
ghost use Rattle.shapers_base.specs.Map.{Map};
ghost use Rattle.shapers_base.specs.declared.plan.ot_category_t.TheConstants.{OT_ZWNJ};
ghost use Rattle.shapers_base.specs.declared.plan.ot_position_t.TheConstants.{POS_RA_TO_BECOME_REPH};
ghost use Rattle.shapers_indic.specs.declared.ot_shaper_indic.indic_feature.TheConstants.{HALF};
ghost use Rattle.shapers_indic.specs.Glyphs.{has_position, is_one_of};
ghost use Rattle.shapers_syllabic.specs.Consonants.{is_consonant};
ghost use Rattle.shapers_indic_initial.specs.InitialMasks.{applies_before_base, bits_of, has_eyelash, is_in_eyelash, mask_after_base, mask_before_base, begins_eyelash, pref_pair, with_eyelash_mask, with_initial_masks, with_pref_mask, without_half};
ghost use Rattle.shapers_indic_initial.specs.InitialRules.{initial_rules};

use super::places::is_of_category;
use super::rules::Rules;
use shapers_base::buffer::{Script, hb_glyph_info_t};
use shapers_base::font::hb_font_t;
use shapers_base::plan::ot_category_t::{OT_H, OT_Ra, OT_ZWJ, OT_ZWNJ};
use shapers_base::plan::ot_position_t::POS_RA_TO_BECOME_REPH;
use shapers_base::plan::{BlwfMode, indic_shape_plan_t};
use shapers_indic::ot_shaper_indic::glyphs::number;
use shapers_indic::ot_shaper_indic::indic_feature::{ABVF, BLWF, HALF, PREF, PSTF, RPHF};
use shapers_syllabic::ot_shaper_syllabic::is_consonant;

const DEVANAGARI: Script = Script(*b"Deva");

/// Gives the glyphs of an ordered syllable with its base at this place the masks of the basic
/// features, which touch no glyph flag.
#[inline]
pub(super) fn set_masks<F: hb_font_t>(
    rules: &Rules<F>,
    script: Option<Script>,
    base: usize,
    glyphs: &mut [hb_glyph_info_t],
)
    requires { base ≤ length glyphs.old }
    ensures masks { let font = F.font rules.now.font.now in
        let r = initial_rules font rules.now.map.now rules.now.plan.now in
        glyphs.new ≡ with_initial_masks r script base glyphs.old }
    ensures fits { let font = F.font rules.now.font.now in
        let r = initial_rules font rules.now.map.now rules.now.plan.now in
        bits_of r HALF < 2 ^ 32 }
{
    let plan = rules.plan;
    set_reph_bits(bits_of(plan, RPHF), glyphs);
    set_bits_around(bits_before_base(plan), bits_after_base(plan), base, glyphs);
    set_eyelash_mask(plan, script, base, glyphs);
    set_pref_mask(rules, base, glyphs);
    clear_half(bits_of(plan, HALF), glyphs);
}

// The bits that a feature gives: its mask, but for the glyph flags.
#[inline]
fn bits_of(plan: &indic_shape_plan_t, feature: usize) -> u32
    requires { feature < 17 }
    ensures { result ≡ without_flags (slice_index plan.now.mask_array feature) }
{
    plan.mask_array[feature] & !7
}

// Gives all these glyphs mask bits.
#[inline]
fn add_bits(bits: u32, glyphs: &mut [hb_glyph_info_t])
    ensures { glyphs.new ≡ map (with_bits bits) glyphs.old }
{
    for glyph in glyphs.iter_mut() {
        glyph.mask |= bits;
    }
}

// Gives the glyphs of a reph that begins the syllable mask bits.
#[inline]
fn set_reph_bits(bits: u32, glyphs: &mut [hb_glyph_info_t])
    ensures { let len = prefix_len (has_position POS_RA_TO_BECOME_REPH) glyphs.old in
        glyphs.new ≡ with_stretch 0 len (map (with_bits bits)) glyphs.old }
{
    let len = leading_reph_len(glyphs);
    add_bits(bits, &mut glyphs[..len]);
}

// How many glyphs of the reph's position stand in front.
#[inline]
fn leading_reph_len(glyphs: &[hb_glyph_info_t]) -> usize
    ensures len { result ≡ prefix_len (has_position POS_RA_TO_BECOME_REPH) glyphs.now }
    ensures within { result ≤ length glyphs.now }
{
    glyphs
        .iter()
        .take_while(|glyph| glyph.auxiliary == POS_RA_TO_BECOME_REPH)
        .count()
}

// Gives the glyphs before the base some mask bits, and those after it others.
#[inline]
fn set_bits_around(before: u32, after: u32, base: usize, glyphs: &mut [hb_glyph_info_t])
    requires { base ≤ length glyphs.old }
    ensures { let front = with_stretch 0 base (map (with_bits before)) glyphs.old in
        glyphs.new ≡
        with_stretch (base + 1) (length glyphs.old) (map (with_bits after)) front }
{
    add_bits(before, &mut glyphs[..base]);
    if base < glyphs.len() {
        add_bits(after, &mut glyphs[base + 1..]);
    }
}

// The bits before the base.
#[inline]
fn bits_before_base(plan: &indic_shape_plan_t) -> u32
    ensures { (font : Font) (m : Map) → result ≡ mask_before_base (initial_rules font m plan.now) }
{
    let half = bits_of(plan, HALF);
    if !plan.is_old_spec && applies_before_base(plan.config.blwf_mode) {
        half | bits_of(plan, BLWF)
    } else {
        half
    }
}

// Whether below-base forms stand before the base, too.
#[inline]
fn applies_before_base(mode: BlwfMode) -> bool
    ensures { result ≡ applies_before_base mode }
{
    match mode {
        BlwfMode::PreAndPost => true,
        BlwfMode::PostOnly => false,
    }
}

// The bits after the base.
#[inline]
fn bits_after_base(plan: &indic_shape_plan_t) -> u32
    ensures { (font : Font) (m : Map) → result ≡ mask_after_base (initial_rules font m plan.now) }
{
    bits_of(plan, BLWF) | bits_of(plan, ABVF) | bits_of(plan, PSTF)
}

// Gives each Ra and H of an eyelash Ra the mask of below-base forms, where they have one. The older
// specification has `blwf` for Ra below half forms, too, so before the base: in
// 0924 094D 0930 094D 0915. A ZWJ behind its H requests the eyelash form in place of that one:
// 0924 094D 0930 094D 200D 0915.
#[inline]
fn set_eyelash_mask(
    plan: &indic_shape_plan_t,
    script: Option<Script>,
    base: usize,
    glyphs: &mut [hb_glyph_info_t],
)
    ensures { (font : Font) (m : Map) →
        glyphs.new ≡ with_eyelash_mask (initial_rules font m plan.now) script base glyphs.old }
{
    if has_eyelash(plan, script) {
        set_eyelash_bits(bits_of(plan, BLWF), base, glyphs);
    }
}

// Whether Ra and H before the base get the mask of below-base forms: in the older specification of
// Devanagari.
#[inline]
fn has_eyelash(plan: &indic_shape_plan_t, script: Option<Script>) -> bool
    ensures { (font : Font) (m : Map) →
        result ≡ has_eyelash (initial_rules font m plan.now) script }
{
    plan.is_old_spec && script == Some(DEVANAGARI)
}

// Gives each Ra and H of an eyelash Ra mask bits.
#[inline]
fn set_eyelash_bits(bits: u32, base: usize, glyphs: &mut [hb_glyph_info_t])
    ensures { glyphs.new ≡
        map (λ t. if is_in_eyelash base glyphs.old t.0 then with_bits bits t.1 else t.1)
        (enumerate_from 0 glyphs.old) }
{
    for i in 0..glyphs.len() {
        if is_in_eyelash(base, glyphs, i) {
            glyphs[i].mask |= bits;
        }
    }
}

// Whether the glyph at `index` belongs to an eyelash Ra.
#[inline]
fn is_in_eyelash(base: usize, glyphs: &[hb_glyph_info_t], index: usize) -> bool
    requires { index < length glyphs.now }
    ensures { result ≡ is_in_eyelash base glyphs.now index }
{
    begins_eyelash(base, glyphs, index) || (0 < index && begins_eyelash(base, glyphs, index - 1))
}

// Whether an eyelash Ra stands at `index`: Ra and H before the base, and no ZWJ behind them before
// it.
#[inline]
fn begins_eyelash(base: usize, glyphs: &[hb_glyph_info_t], index: usize) -> bool
    requires { index < length glyphs.now }
    ensures { result ≡ begins_eyelash base glyphs.now index }
{
    index + 1 < base
        && is_of_category(glyphs, index, OT_Ra)
        && is_of_category(glyphs, index + 1, OT_H)
        && !(index + 2 < base && is_of_category(glyphs, index + 2, OT_ZWJ))
}

// Gives the first two neighbours after the base that pref would substitute its mask: the H and Ra of
// Malayalam's 0D15 0D4D 0D30, which the final reordering puts before the base.
#[inline]
fn set_pref_mask<F: hb_font_t>(rules: &Rules<F>, base: usize, glyphs: &mut [hb_glyph_info_t])
    requires { base ≤ length glyphs.old }
    ensures { let font = F.font rules.now.font.now in
        let r = initial_rules font rules.now.map.now rules.now.plan.now in
        glyphs.new ≡ with_pref_mask r base glyphs.old }
{
    if let Some(pair) = pref_pair(rules, base, glyphs) {
        add_bits(bits_of(rules.plan, PREF), &mut glyphs[pair..pair + 2]);
    }
}

// The place of the first two neighbours after the base that pref would substitute.
#[inline]
fn pref_pair<F: hb_font_t>(
    rules: &Rules<F>,
    base: usize,
    glyphs: &[hb_glyph_info_t],
) -> Option<usize>
    requires { base ≤ length glyphs.now }
    ensures pair { let font = F.font rules.now.font.now in
        let r = initial_rules font rules.now.map.now rules.now.plan.now in
        result ≡ pref_pair r base glyphs.now }
    ensures within { MatchOption result (Unit {0}) (λ place. place + 2 ≤ length glyphs.now) }
{
    let plan = rules.plan;
    if plan.mask_array[PREF] == 0 || base + 2 >= glyphs.len() {
        return None;
    }
    for i in base + 1..glyphs.len() - 1 {
        let pair = [number(&glyphs[i]), number(&glyphs[i + 1])];
        if plan.pref.would_substitute(rules.map, rules.font, &pair) {
            return Some(i);
        }
    }
    None
}

// A ZWNJ takes mask bits from the glyphs before it back to the nearest consonant, that one
// included: 0915 094D 200C 0937 shows its H and has no half form. Most syllables have none.
#[inline]
fn clear_half(bits: u32, glyphs: &mut [hb_glyph_info_t])
    ensures { glyphs.new ≡ without_half bits glyphs.old }
{
    if has_non_joiner(glyphs) {
        clear_half_each(bits, glyphs);
    }
}

// Whether there is a ZWNJ.
#[inline]
fn has_non_joiner(glyphs: &[hb_glyph_info_t]) -> bool
    ensures { result ≡ list_any (is_one_of (OT_ZWNJ ∷ [])) glyphs.now }
{
    glyphs.iter().any(is_non_joiner)
}

// Takes the bits of half forms from the glyphs before each ZWNJ, from the last glyph on.
#[inline]
fn clear_half_each(bits: u32, glyphs: &mut [hb_glyph_info_t])
    ensures { glyphs.new ≡ without_half bits glyphs.old }
{
    let mut loses = false;
    for i in (0..glyphs.len()).rev() {
        let glyph = &mut glyphs[i];
        if loses {
            glyph.mask &= !bits;
        }
        loses = keeps_losing(glyph, loses);
    }
}

// Whether the glyph before this one loses half, where this one does so or doesn't.
#[inline]
fn keeps_losing(glyph: &hb_glyph_info_t, loses: bool) -> bool
    ensures { result ≡
        (not (is_consonant glyph.now) && (is_one_of (OT_ZWNJ ∷ []) glyph.now || loses)) }
{
    if loses {
        return !is_consonant(glyph);
    }
    is_non_joiner(glyph)
}

// Whether a glyph is a ZWNJ, and no lookup put it in for several.
#[inline]
fn is_non_joiner(glyph: &hb_glyph_info_t) -> bool
    ensures { result ≡ is_one_of (OT_ZWNJ ∷ []) glyph.now }
{
    glyph.category == OT_ZWNJ && !glyph.glyph_props.is_ligated()
}

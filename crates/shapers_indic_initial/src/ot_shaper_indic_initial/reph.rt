//! The reph that begins a syllable, and the limit of the search for its base. (OpenType,
//! development of Indic scripts.)
ghost use Rattle.std.specs.Prelude.{◌≡◌, ◌≤◌, length};
ghost use Rattle.std.specs.List.{prefix_len};
ghost use Rattle.shapers_indic_initial.specs.InitialBase.{limit_behind, begins_with_repha, reph_is_formed, indic_reph_len, third_lets_reph};
ghost use Rattle.shapers_indic.specs.Glyphs.{is_joiner};
ghost use Rattle.shapers_indic_initial.specs.InitialRules.{initial_rules};

use super::rules::Rules;
use shapers_base::buffer::hb_glyph_info_t;
use shapers_base::font::hb_font_t;
use shapers_base::plan::RephMode;
use shapers_base::plan::ot_category_t::{OT_Repha, OT_ZWJ};
use shapers_indic::ot_shaper_indic::glyphs::{is_joiner, number};
use shapers_indic::ot_shaper_indic::indic_feature::RPHF;

/// How many glyphs the reph that begins a syllable has, without joiners behind it; 0 if there is
/// none. Most scripts have one where the font forms it of Ra, H (0930 094D 0915), Telugu of
/// Ra, H, ZWJ (0C30 0C4D 200D 0C15), and Malayalam has a character for it (0D4E 0D15).
#[inline]
pub(crate) fn reph_len<F: hb_font_t>(rules: &Rules<F>, glyphs: &[hb_glyph_info_t]) -> usize
    ensures len { let font = F.font rules.now.font.now in
        let r = initial_rules font rules.now.map.now rules.now.plan.now in
        result ≡ indic_reph_len r glyphs.now }
    ensures within { result ≤ length glyphs.now }
{
    let mode = rules.plan.config.reph_mode;
    if rules.plan.mask_array[RPHF] != 0 && third_lets_reph(mode, glyphs) {
        return if is_formed(rules, glyphs) { 2 } else { 0 };
    }
    if begins_with_repha(mode, glyphs) {
        1
    } else {
        0
    }
}

/// Where the search for the base ends, if no ZWJ ends it before: behind the reph and the joiners
/// that follow it, or at the start.
#[inline]
pub(crate) fn limit(glyphs: &[hb_glyph_info_t], reph_len: usize) -> usize
    requires { reph_len ≤ length glyphs.now }
    ensures limit { result ≡ limit_behind reph_len glyphs.now }
    ensures within { result ≤ length glyphs.now }
{
    if reph_len == 0 {
        return 0;
    }
    reph_len + joiners_len(&glyphs[reph_len..])
}

// How many joiners stand in front.
#[inline]
fn joiners_len(glyphs: &[hb_glyph_info_t]) -> usize
    ensures len { result ≡ prefix_len is_joiner glyphs.now }
    ensures within { result ≤ length glyphs.now }
{
    glyphs.iter().take_while(|glyph| is_joiner(glyph)).count()
}

// Whether the third glyph lets the first two be a reph.
#[inline]
fn third_lets_reph(mode: RephMode, glyphs: &[hb_glyph_info_t]) -> bool
    ensures { result ≡ third_lets_reph mode glyphs.now }
{
    match (glyphs, mode) {
        ([_, _, third, ..], RephMode::Implicit) => !is_joiner(third),
        ([_, _, third, ..], RephMode::Explicit) => third.category == OT_ZWJ,
        _ => false,
    }
}

// Whether the font forms a reph of what begins the syllable.
#[inline]
fn is_formed<F: hb_font_t>(rules: &Rules<F>, glyphs: &[hb_glyph_info_t]) -> bool
    requires { 3 ≤ length glyphs.now }
    ensures { let font = F.font rules.now.font.now in
        let r = initial_rules font rules.now.map.now rules.now.plan.now in
        result ≡ reph_is_formed r.config.reph_mode r.forms_reph glyphs.now }
{
    let opening = [number(&glyphs[0]), number(&glyphs[1]), number(&glyphs[2])];
    let rphf = &rules.plan.rphf;
    match rules.plan.config.reph_mode {
        RephMode::Implicit => rphf.would_substitute(rules.map, rules.font, &opening[..2]),
        RephMode::Explicit => {
            rphf.would_substitute(rules.map, rules.font, &opening[..2])
                || rphf.would_substitute(rules.map, rules.font, &opening)
        }
        RephMode::LogRepha => false,
    }
}

// Whether the syllable begins with a reph that is a character of its own, in a script that writes
// it so.
#[inline]
fn begins_with_repha(mode: RephMode, glyphs: &[hb_glyph_info_t]) -> bool
    ensures { result ≡ begins_with_repha mode glyphs.now }
{
    match (glyphs, mode) {
        ([first, ..], RephMode::LogRepha) => first.category == OT_Repha,
        _ => false,
    }
}

//! The glyphs near another one that lookups look at.
ghost use Rattle.std.specs.Prelude.{◌≡◌, ◌<◌, ◌≤◌, ℕ, List, Some, true, length, IfSome};
ghost use Rattle.opentype_gpos.specs.Nearby.{any_seen, are_beside, base_glyph_before, base_behind, carries_on, glyphs_between, is_base_at, is_later_multiple, marks_glyph, is_whole_ligature, ligature_id, mark_sight, next_any, number_in, previous_any};
ghost use Rattle.opentype_face.specs.Firsts.{first_from};

use opentype_face::glyph_sets::coverage;
use opentype_layout::sight::Sight;
use shapers_buffer::buffer::hb_glyph_info_t;

/// The number of a glyph, of two bytes.
#[inline]
pub fn number(glyph: &hb_glyph_info_t) -> u16
    ensures { result ≡ number_in glyph.now }
{
    (glyph.glyph_id % 65536) as u16
}

// What a search for any glyph makes of one.
#[inline]
#[tactic(auto, unfolding(crate::specs::Nearby::any_seen))]
pub(crate) fn any(gdef: &[u8], sight: &Sight, glyph: &hb_glyph_info_t) -> Option<bool>
    ensures { result ≡ any_seen gdef.now sight.now glyph.now }
{
    let is_seen = !sight.may_pass(glyph);
    sight.sees(gdef, is_seen, glyph)
}

// The next glyph from a place on that a lookup sees, by a search.
#[inline(never)]
fn next_behind(gdef: &[u8], sight: &Sight, glyphs: &[hb_glyph_info_t], from: usize) -> Option<usize>
    ensures value { result ≡ next_any gdef.now sight.now glyphs.now from }
    ensures within { IfSome result (λ i. i < length glyphs.now) }
{
    for i in from..glyphs.len() {
        let seen = any(gdef, sight, &glyphs[i]);
        if let Some(is_found) = seen {
            return if is_found { Some(i) } else { None };
        }
    }
    None
}

// Whether a lookup sees a glyph that is no mark, and that no search passes over: most glyphs are so.
#[inline]
#[tactic(auto, unfolding(crate::specs::Nearby::any_seen, opentype_layout::specs::Sight::seen_as, opentype_layout::specs::Sight::ignores, opentype_layout::specs::Sight::may_pass))]
fn sees_plainly(sight: &Sight, glyph: &hb_glyph_info_t) -> bool
    ensures { (gdef : List ℕ) → result ≡ true → any_seen gdef sight.now glyph.now ≡ Some true }
{
    let props = glyph.glyph_props.0;
    if props & sight.flag & 0x0E != 0 || props & 8 == 8 {
        return false;
    }
    if glyph.unicode_props.0 & 32 == 32 || sight.syllable != 0 {
        return false;
    }
    glyph.mask & sight.mask != 0
}

/// The next glyph from a place on that a lookup sees. Most often it is the first one, which is looked
/// at without a loop.
#[inline]
pub fn next_glyph(
    gdef: &[u8],
    sight: &Sight,
    glyphs: &[hb_glyph_info_t],
    from: usize,
) -> Option<usize>
    ensures value { result ≡ next_any gdef.now sight.now glyphs.now from }
    ensures within { IfSome result (λ i. i < length glyphs.now) }
{
    if from >= glyphs.len() {
        return None;
    }
    if sees_plainly(sight, &glyphs[from]) {
        return Some(from);
    }
    next_behind(gdef, sight, glyphs, from)
}

// The nearest glyph before a place that a lookup sees, by how many glyphs stand between.
fn count_between(gdef: &[u8], sight: &Sight, glyphs: &[hb_glyph_info_t], at: usize) -> Option<usize>
    requires { at ≤ length glyphs.now }
    ensures value { result ≡ glyphs_between gdef.now sight.now glyphs.now at }
    ensures within { IfSome result (λ i. i < at) }
{
    for i in 0..at {
        let seen = any(gdef, sight, &glyphs[at - 1 - i]);
        if let Some(is_found) = seen {
            return if is_found { Some(i) } else { None };
        }
    }
    None
}

/// The nearest glyph before a place that a lookup sees.
#[tactic(auto, unfolding(crate::specs::Nearby::previous_any))]
pub fn previous_glyph(
    gdef: &[u8],
    sight: &Sight,
    glyphs: &[hb_glyph_info_t],
    at: usize,
) -> Option<usize>
    requires { at ≤ length glyphs.now }
    ensures value { result ≡ previous_any gdef.now sight.now glyphs.now at }
    ensures within { IfSome result (λ i. i < at) }
{
    match count_between(gdef, sight, glyphs, at) {
        Some(i) => Some(at - 1 - i),
        None => None,
    }
}

/// Whether a glyph is a mark, by its class.
#[inline]
pub fn is_mark_glyph(glyph: &hb_glyph_info_t) -> bool
    ensures { result ≡ marks_glyph glyph.now }
{
    glyph.glyph_props.0 & 8 == 8
}

/// The number of the ligature that a glyph is or belongs to.
#[inline]
pub fn ligature_number(glyph: &hb_glyph_info_t) -> u8
    ensures { result ≡ ligature_id glyph.now }
{
    glyph.lig_props.0 / 32
}

// Whether two glyphs stand one after the other in what a lookup put in for one.
#[inline]
#[tactic(auto, unfolding(crate::specs::Nearby::carries_on))]
fn carries_on(before: &hb_glyph_info_t, glyph: &hb_glyph_info_t) -> bool
    ensures { result ≡ carries_on before.now glyph.now }
{
    glyph.glyph_props.is_multiplied()
        && glyph.lig_props.component() != 0
        && !is_mark_glyph(before)
        && before.glyph_props.is_multiplied()
        && ligature_number(before) == ligature_number(glyph)
        && u16::from(glyph.lig_props.component()) == u16::from(before.lig_props.component()) + 1
}

// Whether a glyph is one that a lookup put in for another with more, and not the first.
#[inline]
#[tactic(auto, unfolding(crate::specs::Nearby::is_later_multiple))]
fn is_later_multiple(glyphs: &[hb_glyph_info_t], at: usize) -> bool
    requires { at < length glyphs.now }
    ensures { result ≡ is_later_multiple glyphs.now at }
{
    if at == 0 {
        return false;
    }
    carries_on(&glyphs[at - 1], &glyphs[at])
}

// Whether the glyph at a place is one that a mark attaches to.
#[tactic(auto, unfolding(crate::specs::Nearby::is_base_at))]
fn is_base_at(
    gdef: &[u8],
    sight: &Sight,
    is_any: bool,
    bases: &[u8],
    glyphs: &[hb_glyph_info_t],
    at: usize,
) -> bool
    requires { at < length glyphs.now }
    ensures { result ≡ is_base_at gdef.now sight.now is_any bases.now glyphs.now at }
{
    match any(gdef, sight, &glyphs[at]) {
        Some(true) => {
            is_any
                || !is_later_multiple(glyphs, at)
                || coverage(bases, number(&glyphs[at])).is_some()
        }
        _ => false,
    }
}

// The glyph before a place with so many between, if a mark attaches to it.
#[tactic(auto, unfolding(crate::specs::Nearby::base_behind))]
fn base_behind(
    gdef: &[u8],
    sight: &Sight,
    is_any: bool,
    bases: &[u8],
    glyphs: &[hb_glyph_info_t],
    at: usize,
    i: usize,
) -> Option<usize>
    requires within { at ≤ length glyphs.now }
    requires behind { i < at }
    ensures value { result ≡ base_behind gdef.now sight.now is_any bases.now glyphs.now at i }
    ensures within { IfSome result (λ base. base < at) }
{
    if is_base_at(gdef, sight, is_any, bases, glyphs, at - 1 - i) {
        Some(at - 1 - i)
    } else {
        None
    }
}

// The first of these glyphs before a place that a mark attaches to.
fn first_base(
    gdef: &[u8],
    sight: &Sight,
    is_any: bool,
    bases: &[u8],
    glyphs: &[hb_glyph_info_t],
    at: usize,
) -> Option<usize>
    requires { at ≤ length glyphs.now }
    ensures value { result
        ≡ first_from at (base_behind gdef.now sight.now is_any bases.now glyphs.now at) 0 }
    ensures within { IfSome result (λ base. base < at) }
{
    for i in 0..at {
        let base = base_behind(gdef, sight, is_any, bases, glyphs, at, i);
        if base.is_some() {
            return base;
        }
    }
    None
}

/// The glyph before a mark that it attaches to: the nearest that is no mark. Of glyphs that came in
/// for one it is the first, unless the table `bases` has another; with `is_any` it is any.
#[tactic(auto, unfolding(crate::specs::Nearby::base_glyph_before))]
pub fn base_glyph(
    gdef: &[u8],
    sight: &Sight,
    is_any: bool,
    bases: &[u8],
    glyphs: &[hb_glyph_info_t],
    at: usize,
) -> Option<usize>
    requires { at ≤ length glyphs.now }
    ensures value { result ≡ base_glyph_before gdef.now sight.now is_any bases.now glyphs.now at }
    ensures within { IfSome result (λ base. base < at) }
{
    let mut of_bases = *sight;
    of_bases.flag = 8;
    of_bases.set = 0;
    first_base(gdef, &of_bases, is_any, bases, glyphs, at)
}

/// The glyph before a mark that it may attach to as to another mark.
pub fn glyph_before_mark(
    gdef: &[u8],
    sight: &Sight,
    glyphs: &[hb_glyph_info_t],
    at: usize,
) -> Option<usize>
    requires { at ≤ length glyphs.now }
    ensures value { result ≡ previous_any gdef.now (mark_sight sight.now) glyphs.now at }
    ensures within { IfSome result (λ i. i < at) }
{
    let mut of_marks = *sight;
    of_marks.flag = sight.flag & 0xFFF1;
    previous_glyph(gdef, &of_marks, glyphs, at)
}

#[inline]
fn is_whole_ligature(glyph: &hb_glyph_info_t) -> bool
    ensures { result ≡ is_whole_ligature glyph.now }
{
    ligature_number(glyph) != 0 && glyph.lig_props.component() == 0
}

/// Whether two marks are of the same base, or of the same component of a ligature.
#[inline]
#[tactic(auto, unfolding(crate::specs::Nearby::are_beside))]
pub fn are_beside(a: &hb_glyph_info_t, b: &hb_glyph_info_t) -> bool
    ensures { result ≡ are_beside a.now b.now }
{
    if ligature_number(a) == ligature_number(b) {
        return ligature_number(a) == 0 || a.lig_props.component() == b.lig_props.component();
    }
    is_whole_ligature(a) || is_whole_ligature(b)
}

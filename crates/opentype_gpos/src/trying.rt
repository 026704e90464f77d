//! Which flags of concatenation a lookup sets at a place, by what it looks at in vain there.
ghost use Rattle.std.specs.Prelude.{◌≡◌, ◌<◌, ◌+◌, length, Some};
ghost use Rattle.opentype_gpos.specs.Coming.{setting_of};
ghost use Rattle.opentype_gpos.specs.Looked.{base_looked, cursive_looked, from_it, has_components, is_idle, is_mark_of, is_second_in, ligature_looked, looked_before, lookup_looked, mark_looked, move_looked, pair_looked, pair_tried, span_at, stop_any, subtable_looked, tried};
ghost use Rattle.opentype_gpos.specs.Moves.{covered_by, number_at, pair_with};
ghost use Rattle.opentype_gpos.specs.Nearby.{any_seen};
ghost use Rattle.opentype_layout.specs.Looking.{unjoined};
ghost use Rattle.opentype_layout.specs.Sight.{is_passed};

use crate::anchors::joint_of;
use crate::coming::come_by;
use crate::moved::{does_move, is_vertical};
use crate::moves::{Move, pair_of};
use crate::nearby::{
    any, are_beside, base_glyph, glyph_before_mark, is_mark_glyph, next_glyph, number,
    previous_glyph,
};
use crate::pass::{Pass, Sights};
use opentype_face::bytes::{table_at, u16_at};
use opentype_face::lookup::subtable_count;
use opentype_layout::glyph_text::GlyphView;
use opentype_layout::looking::{Stretch, context_rules, count, flag_joins};
use opentype_layout::position_tables::PositionRef;
use opentype_layout::sight::Sight;
use opentype_layout::starts::LookupTable;
use shapers_buffer::buffer::{Direction, hb_glyph_info_t};

// Whether a search for any glyph passes over one.
#[inline]
fn passes_any(gdef: &[u8], sight: &Sight, glyph: &hb_glyph_info_t) -> bool
    ensures { result ≡ is_passed (any_seen gdef.now sight.now glyph.now) }
{
    any(gdef, sight, glyph).is_none()
}

// The place behind the glyph at which a search from a place on ends.
fn stop_behind(gdef: &[u8], sight: &Sight, glyphs: &[hb_glyph_info_t], from: usize) -> usize
    ensures { result ≡ stop_any gdef.now sight.now glyphs.now from }
{
    for i in from..glyphs.len() {
        if !passes_any(gdef, sight, &glyphs[i]) {
            return i + 1;
        }
    }
    from.max(glyphs.len())
}

// How many glyphs before a place a search backwards looks at.
fn count_back(gdef: &[u8], sight: &Sight, glyphs: &[hb_glyph_info_t], at: usize) -> usize
    requires { at < length glyphs.now }
    ensures { result ≡ looked_before gdef.now sight.now glyphs.now at }
{
    for i in 0..at {
        if !passes_any(gdef, sight, &glyphs[at - 1 - i]) {
            return i + 1;
        }
    }
    at
}

// A stretch that a subtable looked at from a place.
#[inline]
fn span(at: usize, start: usize, stop: usize, glyphs: &[hb_glyph_info_t]) -> Stretch
    ensures { result ≡ span_at at start stop glyphs.now }
{
    count(at, glyphs.len(), glyphs.len(), start, stop)
}

// Whether the values of a pair move nothing.
fn is_idle(direction: Direction, change: &Move) -> bool
    ensures { result ≡ is_idle direction change.now }
{
    match change {
        Move::Kerns(pair) => {
            let vertical = is_vertical(direction);
            !(does_move(vertical, &pair.first_value) || does_move(vertical, &pair.second_value))
        }
        Move::Adds(_) | Move::Attaches(_) | Move::Joins(_) => false,
    }
}

// What a pair's subtable looked at, where there is a second glyph.
fn look_at_pair(
    direction: Direction,
    bytes: &[u8],
    place: u32,
    glyphs: &[hb_glyph_info_t],
    at: usize,
    second: usize,
) -> Stretch
    requires first { at < length glyphs.now }
    requires second { second < length glyphs.now }
    requires covered { covered_by bytes.now 2 (number_at glyphs.now at) ≡ Some place }
    ensures { result ≡ pair_tried bytes.now direction glyphs.now at second
        (pair_with bytes.now glyphs.now at second) }
{
    match pair_of(bytes, place, glyphs, at, second) {
        Some(change) => {
            if u16_at(bytes, 0) == 2 && is_idle(direction, &change) {
                span(at, at, second + 1, glyphs)
            } else {
                Stretch::none(at)
            }
        }
        None => span(at, at, second + 1, glyphs),
    }
}

#[tactic(auto, unfolding(crate::specs::Looked::pair_looked))]
fn look_for_pair(
    pass: &Pass<'_>,
    sight: &Sight,
    bytes: &[u8],
    place: u32,
    glyphs: &[hb_glyph_info_t],
    at: usize,
) -> Stretch
    requires first { at < length glyphs.now }
    requires covered { covered_by bytes.now 2 (number_at glyphs.now at) ≡ Some place }
    ensures { result ≡ pair_looked pass.now.gdef.now sight.now pass.now.direction bytes.now glyphs.now at }
{
    match next_glyph(pass.gdef, sight, glyphs, at + 1) {
        Some(second) => look_at_pair(pass.direction, bytes, place, glyphs, at, second),
        None => {
            let stop = stop_behind(pass.gdef, sight, glyphs, at + 1);
            span(at, at, stop, glyphs)
        }
    }
}

// The glyphs from one before a place on, if it has no part in what the subtable does.
#[inline]
fn from_it(fits: bool, at: usize, to: usize, glyphs: &[hb_glyph_info_t]) -> Stretch
    requires { at < length glyphs.now }
    ensures { result ≡ from_it fits at to glyphs.now }
{
    if fits {
        return Stretch::none(at);
    }
    span(at, to, at + 1, glyphs)
}

#[tactic(auto, unfolding(crate::specs::Looked::cursive_looked))]
fn look_for_exit(
    gdef: &[u8],
    sight: &Sight,
    it: &PositionRef<'_>,
    glyphs: &[hb_glyph_info_t],
    at: usize,
) -> Stretch
    requires { at < length glyphs.now }
    ensures { result ≡ cursive_looked gdef.now sight.now it.now.bytes.now glyphs.now at }
{
    if joint_of(it, 0, number(&glyphs[at])).is_none() {
        return Stretch::none(at);
    }
    match previous_glyph(gdef, sight, glyphs, at) {
        Some(to) => {
            let fits = joint_of(it, 2, number(&glyphs[to])).is_some();
            from_it(fits, at, to, glyphs)
        }
        None => {
            let back = count_back(gdef, sight, glyphs, at);
            span(
                at,
                at.saturating_sub(back.saturating_add(1)),
                at + 1,
                glyphs,
            )
        }
    }
}

// Whether a subtable's second set has a glyph.
#[inline]
fn is_second(it: &PositionRef<'_>, glyphs: &[hb_glyph_info_t], to: usize) -> bool
    requires { to < length glyphs.now }
    ensures { result ≡ is_second_in it.now.bytes.now glyphs.now to }
{
    it.second_place(number(&glyphs[to])).is_some()
}

#[tactic(auto, unfolding(crate::specs::Looked::base_looked))]
fn look_for_base(
    gdef: &[u8],
    sight: &Sight,
    it: &PositionRef<'_>,
    glyphs: &[hb_glyph_info_t],
    at: usize,
) -> Stretch
    requires { at < length glyphs.now }
    ensures { result ≡ base_looked gdef.now sight.now it.now.bytes.now glyphs.now at }
{
    let bases = table_at(it.bytes, usize::from(u16_at(it.bytes, 4)));
    match base_glyph(gdef, sight, false, bases, glyphs, at) {
        Some(to) => from_it(is_second(it, glyphs, to), at, to, glyphs),
        None => span(at, 0, at + 1, glyphs),
    }
}

// Whether a ligature of a subtable has components.
#[tactic(auto, unfolding(crate::specs::Looked::has_components))]
fn has_components(it: &PositionRef<'_>, glyphs: &[hb_glyph_info_t], to: usize) -> bool
    requires { to < length glyphs.now }
    ensures { result ≡ has_components it.now.bytes.now (covered_by it.now.bytes.now 4 (number_at glyphs.now to)) }
{
    let Some(i) = it.second_place(number(&glyphs[to])) else {
        return false;
    };
    let ligatures = table_at(it.bytes, usize::from(u16_at(it.bytes, 10)));
    if i >= u32::from(u16_at(ligatures, 0)) {
        return false;
    }
    let place = usize::from(u16_at(ligatures, 2 + i as usize * 2));
    u16_at(table_at(ligatures, place), 0) != 0
}

#[tactic(auto, unfolding(crate::specs::Looked::ligature_looked))]
fn look_for_ligature(
    gdef: &[u8],
    sight: &Sight,
    it: &PositionRef<'_>,
    glyphs: &[hb_glyph_info_t],
    at: usize,
) -> Stretch
    requires { at < length glyphs.now }
    ensures { result ≡ ligature_looked gdef.now sight.now it.now.bytes.now glyphs.now at }
{
    match base_glyph(gdef, sight, true, &[], glyphs, at) {
        Some(to) => from_it(has_components(it, glyphs, to), at, to, glyphs),
        None => span(at, 0, at + 1, glyphs),
    }
}

// Whether a glyph is a mark of a subtable that is of the same base.
#[tactic(auto, unfolding(crate::specs::Looked::is_mark_of))]
fn is_mark_of(it: &PositionRef<'_>, glyphs: &[hb_glyph_info_t], at: usize, to: usize) -> bool
    requires mark { at < length glyphs.now }
    requires other { to < length glyphs.now }
    ensures { result ≡ is_mark_of it.now.bytes.now glyphs.now at to }
{
    is_mark_glyph(&glyphs[to]) && are_beside(&glyphs[at], &glyphs[to]) && is_second(it, glyphs, to)
}

#[tactic(auto, unfolding(crate::specs::Looked::mark_looked))]
fn look_for_mark(
    gdef: &[u8],
    sight: &Sight,
    it: &PositionRef<'_>,
    glyphs: &[hb_glyph_info_t],
    at: usize,
) -> Stretch
    requires { at < length glyphs.now }
    ensures { result ≡ mark_looked gdef.now sight.now it.now.bytes.now glyphs.now at }
{
    match glyph_before_mark(gdef, sight, glyphs, at) {
        Some(to) => from_it(is_mark_of(it, glyphs, at, to), at, to, glyphs),
        None => {
            let mut of_marks = *sight;
            of_marks.flag = sight.flag & 0xFFF1;
            let back = count_back(gdef, &of_marks, glyphs, at);
            span(
                at,
                at.saturating_sub(back.saturating_add(1)),
                at + 1,
                glyphs,
            )
        }
    }
}

// What a subtable of one of types 1 to 6 looked at.
#[tactic(auto, unfolding(crate::specs::Looked::move_looked))]
fn look_by_move(
    pass: &Pass<'_>,
    sight: &Sight,
    it: &PositionRef<'_>,
    glyphs: &[hb_glyph_info_t],
    at: usize,
) -> Stretch
    requires { at < length glyphs.now }
    ensures { result ≡ move_looked pass.now.gdef.now sight.now pass.now.direction it.now.kind it.now.bytes.now glyphs.now at }
{
    let Some(place) = it.first_place(number(&glyphs[at])) else {
        return Stretch::none(at);
    };
    match it.kind {
        2 => look_for_pair(pass, sight, it.bytes, place, glyphs, at),
        3 => look_for_exit(pass.gdef, sight, it, glyphs, at),
        4 => look_for_base(pass.gdef, sight, it, glyphs, at),
        5 => look_for_ligature(pass.gdef, sight, it, glyphs, at),
        6 => look_for_mark(pass.gdef, sight, it, glyphs, at),
        _ => Stretch::none(at),
    }
}

// What one of a lookup's subtables looked at.
#[tactic(auto, unfolding(crate::specs::Looked::subtable_looked))]
fn look_by(
    pass: &Pass<'_>,
    sights: &Sights,
    table: &LookupTable<'_>,
    i: u16,
    glyphs: &[hb_glyph_info_t],
    at: usize,
) -> Stretch
    requires { at < length glyphs.now }
    ensures { result ≡ subtable_looked (setting_of pass.now) sights.now table.now glyphs.now at i }
{
    let it = table.position(i);
    let (input, context) = (&sights.input, &sights.context);
    if it.kind == 7 || it.kind == 8 {
        return match context_rules(it.kind == 8, it.bytes, number(&glyphs[at])) {
            Some(rules) => {
                let text = GlyphView::of(glyphs);
                rules.look(pass.gdef, input, context, glyphs.len(), &text, at)
            }
            None => Stretch::none(at),
        };
    }
    look_by_move(pass, input, &it, glyphs, at)
}

// What the subtables of a lookup looked at, up to the first that does something.
fn look_among(
    pass: &Pass<'_>,
    sights: &Sights,
    lookup: &LookupTable<'_>,
    glyphs: &[hb_glyph_info_t],
    at: usize,
) -> Stretch
    requires { at < length glyphs.now }
    ensures { result ≡ lookup_looked (setting_of pass.now) sights.now lookup.now glyphs.now at }
{
    let mut looked = Stretch::none(at);
    let count = subtable_count(lookup.bytes());
    for i in 0..count {
        looked = looked.join(look_by(pass, sights, lookup, i, glyphs, at));
        if come_by(pass, sights, lookup, i, glyphs, at).is_some() {
            return looked;
        }
    }
    looked
}

// Flags what a lookup looks at in vain at a place.
#[inline(never)]
fn flag_looked(
    pass: &Pass<'_>,
    sights: &Sights,
    lookup: &LookupTable<'_>,
    glyphs: &mut [hb_glyph_info_t],
    at: usize,
)
    requires { at < length glyphs.old }
    ensures { glyphs.new
        ≡ unjoined (lookup_looked (setting_of pass.now) sights.now lookup.now glyphs.old at) glyphs.old }
{
    let looked = look_among(pass, sights, lookup, glyphs, at);
    flag_joins(glyphs, looked);
}

/// Flags what a lookup looks at in vain at a place, where that is wanted.
#[inline]
#[tactic(auto, unfolding(crate::specs::Looked::tried))]
pub(crate) fn flag_tried(
    pass: &Pass<'_>,
    sights: &Sights,
    lookup: &LookupTable<'_>,
    glyphs: &mut [hb_glyph_info_t],
    at: usize,
)
    ensures { glyphs.new ≡ tried (setting_of pass.now) sights.now lookup.now glyphs.old at }
{
    if !pass.concat {
        return;
    }
    if at >= glyphs.len() {
        return;
    }
    flag_looked(pass, sights, lookup, glyphs, at);
}

//! What subtables do at a place of a text.
ghost use Rattle.std.specs.Prelude.{◌≡◌, ◌<◌, length, Some};
ghost use Rattle.std.specs.Option.{option_map};
ghost use Rattle.opentype_gpos.specs.Anchors.{points_by};
ghost use Rattle.opentype_face.specs.Bytes.{u16_in};
ghost use Rattle.opentype_gpos.specs.declared.moves.Move.TheVariants.{Kerns};
ghost use Rattle.opentype_gpos.specs.Moves.{attaching, base_move, component_for, covered_by, cursive_move, joined_from, joined_with, ligature_move, ligature_with, mark_move, mark_with, number_at, one_move, pair_found, pair_move, pair_with, single_move};

use crate::anchors::{Point, joint_of, ligature_points, points};
use crate::nearby::{
    are_beside, base_glyph, glyph_before_mark, is_mark_glyph, ligature_number, next_glyph, number,
    previous_glyph,
};
use crate::values::{Value, pair, pair_in_table, single, size, value_at};
use opentype_face::bytes::{table_at, u16_at};
use opentype_layout::pair_tables::PairTable;
use opentype_layout::position_tables::PositionRef;
use opentype_layout::sight::Sight;
use shapers_buffer::buffer::hb_glyph_info_t;

/// What a lookup does at a place of a text.
#[derive(Clone, Copy, Debug, PartialEq, Eq)]
pub enum Move {
    /// A value is added to the glyph's position.
    Adds(Value),
    /// Values are added to two positions.
    Kerns(PairMove),
    /// The glyph comes upon another one.
    Attaches(MarkMove),
    /// The glyph joins the one before it in a cursive line.
    Joins(CursiveMove),
}

/// Values for a pair of glyphs.
#[derive(Clone, Copy, Debug, PartialEq, Eq)]
pub struct PairMove {
    /// The place of the second glyph.
    pub second: usize,
    /// What is added to the first one's position.
    pub first_value: Value,
    /// What is added to the second one's.
    pub second_value: Value,
    /// Whether the second one has values of its own, so that it begins no pair.
    pub has_second: bool,
}

/// Where a subtable has the values of a pair.
#[derive(Clone, Copy, Debug)]
pub struct PairPlace<'a> {
    /// The subtable.
    pub bytes: &'a [u8],
    /// The place of the second glyph.
    pub second: usize,
    /// Where the values stand, from the subtable's start.
    pub place: usize,
}

/// A mark upon another glyph.
#[derive(Clone, Copy, Debug, PartialEq, Eq)]
pub struct MarkMove {
    /// The place of the other glyph.
    pub to: usize,
    /// How far right of the other's origin the mark's is.
    pub x: i32,
    /// How far above it.
    pub y: i32,
}

/// A glyph that joins the one before it.
#[derive(Clone, Copy, Debug, PartialEq, Eq)]
pub struct CursiveMove {
    /// The place of the glyph before it.
    pub before: usize,
    /// The point where that is left.
    pub exit: Point,
    /// The point where the glyph is entered.
    pub entry: Point,
    /// Whether the last glyph of a line stays where it is, and not the first one.
    pub from_end: bool,
}

#[tactic(auto, unfolding(crate::specs::Moves::single_move))]
fn single_of(it: &PositionRef<'_>, glyphs: &[hb_glyph_info_t], at: usize) -> Option<Move>
    requires { at < length glyphs.now }
    ensures { result ≡ single_move it.now.bytes.now glyphs.now at }
{
    match single(it, number(&glyphs[at])) {
        Some(place) => {
            let value = value_at(table_at(it.bytes, place), 0, u16_at(it.bytes, 4));
            Some(Move::Adds(value))
        }
        None => None,
    }
}

/// The values of a pair.
pub fn values_of(pair: &PairPlace<'_>) -> PairMove
    ensures value { Kerns result ≡ pair_found pair.now }
    ensures second { result.second ≡ pair.now.second }
{
    let (format, second_format) = (u16_at(pair.bytes, 4), u16_at(pair.bytes, 6));
    let values = table_at(pair.bytes, pair.place);
    PairMove {
        second: pair.second,
        first_value: value_at(values, 0, format),
        second_value: value_at(values, usize::from(size(format)), second_format),
        has_second: second_format != 0,
    }
}

/// The same where the first glyph has an advance along the line, and the second one nothing.
#[inline]
pub fn advance_of(pair: &PairPlace<'_>) -> PairMove
    requires first { u16_in pair.now.bytes.now 4 ≡ 4 }
    requires second { u16_in pair.now.bytes.now 6 ≡ 0 }
    ensures value { Kerns result ≡ pair_found pair.now }
    ensures second { result.second ≡ pair.now.second }
{
    let values = table_at(pair.bytes, pair.place);
    PairMove {
        second: pair.second,
        first_value: value_at(values, 0, 4),
        second_value: value_at(values, 2, 0),
        has_second: false,
    }
}

// The values of a pair, by the place of the first glyph in the subtable's set.
#[tactic(auto, unfolding(crate::specs::Moves::pair_with))]
pub(crate) fn pair_of(
    bytes: &[u8],
    i: u32,
    glyphs: &[hb_glyph_info_t],
    at: usize,
    second: usize,
) -> Option<Move>
    requires first { at < length glyphs.now }
    requires second { second < length glyphs.now }
    requires covered { covered_by bytes.now 2 (number_at glyphs.now at) ≡ Some i }
    ensures { result ≡ pair_with bytes.now glyphs.now at second }
{
    match pair(bytes, i, number(&glyphs[at]), number(&glyphs[second])) {
        Some(place) => Some(Move::Kerns(values_of(&PairPlace {
            bytes,
            second,
            place,
        }))),
        None => None,
    }
}

#[tactic(auto, unfolding(crate::specs::Moves::pair_move))]
fn pair_at(
    gdef: &[u8],
    sight: &Sight,
    it: &PositionRef<'_>,
    glyphs: &[hb_glyph_info_t],
    at: usize,
) -> Option<Move>
    requires { at < length glyphs.now }
    ensures { result ≡ pair_move gdef.now sight.now it.now.bytes.now glyphs.now at }
{
    let i = it.first_place(number(&glyphs[at]))?;
    match next_glyph(gdef, sight, glyphs, at + 1) {
        Some(second) => pair_of(it.bytes, i, glyphs, at, second),
        None => None,
    }
}

// Where the values are, by tables of the subtable's glyphs.
#[inline]
#[tactic(auto, unfolding(crate::specs::Moves::pair_with))]
fn pair_of_table<'a>(
    table: &PairTable<'a>,
    i: u32,
    glyphs: &[hb_glyph_info_t],
    at: usize,
    second: usize,
) -> Option<PairPlace<'a>>
    requires first { at < length glyphs.now }
    requires second { second < length glyphs.now }
    requires covered { covered_by table.now 2 (number_at glyphs.now at) ≡ Some i }
    ensures { option_map pair_found result ≡ pair_with table.now glyphs.now at second }
{
    match pair_in_table(table, i, number(&glyphs[at]), number(&glyphs[second])) {
        Some(place) => Some(PairPlace {
            bytes: table.bytes(),
            second,
            place,
        }),
        None => None,
    }
}

/// The pair that a subtable of type 2 has at a place, by tables of its glyphs.
#[inline]
#[tactic(auto, unfolding(crate::specs::Moves::pair_move))]
pub fn pair_by_table<'a>(
    gdef: &[u8],
    sight: &Sight,
    table: &PairTable<'a>,
    glyphs: &[hb_glyph_info_t],
    at: usize,
) -> Option<PairPlace<'a>>
    requires { at < length glyphs.now }
    ensures { option_map pair_found result
        ≡ pair_move gdef.now sight.now table.now glyphs.now at }
{
    let i = table.place(number(&glyphs[at]))?;
    match next_glyph(gdef, sight, glyphs, at + 1) {
        Some(second) => pair_of_table(table, i, glyphs, at, second),
        None => None,
    }
}

// A mark, by its place in the subtable's set, upon another glyph.
fn attached(it: &PositionRef<'_>, mark: u32, glyphs: &[hb_glyph_info_t], to: usize) -> Option<Move>
    requires { to < length glyphs.now }
    ensures { result
        ≡ option_map (attaching to) (points_by it.now.bytes.now (Some mark) (number_at glyphs.now to)) }
{
    match points(it, mark, number(&glyphs[to])) {
        Some((point, own)) => Some(attach(to, point, own)),
        None => None,
    }
}

#[inline]
fn attach(to: usize, point: Point, own: Point) -> Move
    ensures { result ≡ attaching to (point, own) }
{
    Move::Attaches(MarkMove {
        to,
        x: point.x.saturating_sub(own.x),
        y: point.y.saturating_sub(own.y),
    })
}

#[tactic(auto, unfolding(crate::specs::Moves::base_move, crate::specs::Moves::attached_by))]
fn mark_to_base(
    gdef: &[u8],
    sight: &Sight,
    it: &PositionRef<'_>,
    glyphs: &[hb_glyph_info_t],
    at: usize,
) -> Option<Move>
    requires { at < length glyphs.now }
    ensures { result ≡ base_move gdef.now sight.now it.now.bytes.now glyphs.now at }
{
    let mark = it.first_place(number(&glyphs[at]))?;
    let bases = table_at(it.bytes, usize::from(u16_at(it.bytes, 4)));
    match base_glyph(gdef, sight, false, bases, glyphs, at) {
        Some(base) => attached(it, mark, glyphs, base),
        None => None,
    }
}

#[tactic(auto, unfolding(crate::specs::Moves::mark_with, crate::specs::Moves::attached_by))]
fn mark_to(
    it: &PositionRef<'_>,
    mark: u32,
    glyphs: &[hb_glyph_info_t],
    at: usize,
    to: usize,
) -> Option<Move>
    requires mark { at < length glyphs.now }
    requires other { to < length glyphs.now }
    requires covered { covered_by it.now.bytes.now 2 (number_at glyphs.now at) ≡ Some mark }
    ensures { result ≡ mark_with it.now.bytes.now glyphs.now at to }
{
    if is_mark_glyph(&glyphs[to]) && are_beside(&glyphs[at], &glyphs[to]) {
        attached(it, mark, glyphs, to)
    } else {
        None
    }
}

#[tactic(auto, unfolding(crate::specs::Moves::mark_move))]
fn mark_to_mark(
    gdef: &[u8],
    sight: &Sight,
    it: &PositionRef<'_>,
    glyphs: &[hb_glyph_info_t],
    at: usize,
) -> Option<Move>
    requires { at < length glyphs.now }
    ensures { result ≡ mark_move gdef.now sight.now it.now.bytes.now glyphs.now at }
{
    let mark = it.first_place(number(&glyphs[at]))?;
    match glyph_before_mark(gdef, sight, glyphs, at) {
        Some(other) => mark_to(it, mark, glyphs, at, other),
        None => None,
    }
}

// The component of a ligature that a mark is of; 0 where it is of none.
#[tactic(auto, unfolding(crate::specs::Moves::component_for))]
fn component_for(mark: &hb_glyph_info_t, ligature: &hb_glyph_info_t) -> u8
    ensures { result ≡ component_for mark.now ligature.now }
{
    if ligature_number(ligature) != 0 && ligature_number(ligature) == ligature_number(mark) {
        mark.lig_props.component()
    } else {
        0
    }
}

#[tactic(auto, unfolding(crate::specs::Moves::ligature_with))]
fn attached_to_ligature(
    it: &PositionRef<'_>,
    mark: u32,
    glyphs: &[hb_glyph_info_t],
    at: usize,
    to: usize,
) -> Option<Move>
    requires mark { at < length glyphs.now }
    requires other { to < length glyphs.now }
    requires covered { covered_by it.now.bytes.now 2 (number_at glyphs.now at) ≡ Some mark }
    ensures { result ≡ ligature_with it.now.bytes.now glyphs.now at to }
{
    let component = u16::from(component_for(&glyphs[at], &glyphs[to]));
    match ligature_points(it, mark, number(&glyphs[to]), component) {
        Some((point, own)) => Some(attach(to, point, own)),
        None => None,
    }
}

#[tactic(auto, unfolding(crate::specs::Moves::ligature_move))]
fn mark_to_ligature(
    gdef: &[u8],
    sight: &Sight,
    it: &PositionRef<'_>,
    glyphs: &[hb_glyph_info_t],
    at: usize,
) -> Option<Move>
    requires { at < length glyphs.now }
    ensures { result ≡ ligature_move gdef.now sight.now it.now.bytes.now glyphs.now at }
{
    let mark = it.first_place(number(&glyphs[at]))?;
    match base_glyph(gdef, sight, true, &[], glyphs, at) {
        Some(ligature) => attached_to_ligature(it, mark, glyphs, at, ligature),
        None => None,
    }
}

#[tactic(auto, unfolding(crate::specs::Moves::joined_with))]
fn joined_to(
    it: &PositionRef<'_>,
    from_end: bool,
    entry: Point,
    glyphs: &[hb_glyph_info_t],
    before: usize,
) -> Option<Move>
    requires { before < length glyphs.now }
    ensures { result ≡ joined_with it.now.bytes.now glyphs.now from_end entry before }
{
    match joint_of(it, 2, number(&glyphs[before])) {
        Some(exit) => Some(Move::Joins(CursiveMove {
            before,
            exit,
            entry,
            from_end,
        })),
        None => None,
    }
}

#[tactic(auto, unfolding(crate::specs::Moves::joined_from))]
fn joined_from(
    gdef: &[u8],
    sight: &Sight,
    it: &PositionRef<'_>,
    entry: Point,
    glyphs: &[hb_glyph_info_t],
    at: usize,
) -> Option<Move>
    requires { at < length glyphs.now }
    ensures { result ≡ joined_from gdef.now sight.now it.now.bytes.now glyphs.now at entry }
{
    match previous_glyph(gdef, sight, glyphs, at) {
        Some(before) => joined_to(it, sight.flag & 1 == 1, entry, glyphs, before),
        None => None,
    }
}

#[tactic(auto, unfolding(crate::specs::Moves::cursive_move))]
fn cursive(
    gdef: &[u8],
    sight: &Sight,
    it: &PositionRef<'_>,
    glyphs: &[hb_glyph_info_t],
    at: usize,
) -> Option<Move>
    requires { at < length glyphs.now }
    ensures { result ≡ cursive_move gdef.now sight.now it.now.bytes.now glyphs.now at }
{
    match joint_of(it, 0, number(&glyphs[at])) {
        Some(entry) => joined_from(gdef, sight, it, entry, glyphs, at),
        None => None,
    }
}

/// What a subtable of one of types 1 to 6 does at a place.
#[tactic(auto, unfolding(crate::specs::Moves::one_move))]
pub fn move_by(
    gdef: &[u8],
    sight: &Sight,
    it: &PositionRef<'_>,
    glyphs: &[hb_glyph_info_t],
    at: usize,
) -> Option<Move>
    requires { at < length glyphs.now }
    ensures { result ≡ one_move gdef.now sight.now it.now.kind it.now.bytes.now glyphs.now at }
{
    match it.kind {
        1 => single_of(it, glyphs, at),
        2 => pair_at(gdef, sight, it, glyphs, at),
        3 => cursive(gdef, sight, it, glyphs, at),
        4 => mark_to_base(gdef, sight, it, glyphs, at),
        5 => mark_to_ligature(gdef, sight, it, glyphs, at),
        6 => mark_to_mark(gdef, sight, it, glyphs, at),
        _ => None,
    }
}

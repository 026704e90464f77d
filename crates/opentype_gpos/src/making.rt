//! Moves at a place of a text.
ghost use Rattle.std.specs.Prelude.{◌≡◌, ◌<◌, length};
ghost use Rattle.opentype_gpos.specs.Making.{moved};
ghost use Rattle.opentype_gpos.specs.Moves.{pair_found};

use crate::joins::move_cursive;
use crate::moved::{add, move_mark, move_pair};
use crate::moves::{Move, PairPlace, advance_of, values_of};
use opentype_face::bytes::u16_at;
use shapers_buffer::buffer::{Direction, GlyphPosition, hb_glyph_info_t};

/// Makes a move at a place of a text, and returns the place that comes next.
#[tactic(auto, unfolding(crate::specs::Making::moved))]
pub fn make_move(
    direction: Direction,
    change: &Move,
    at: usize,
    glyphs: &mut [hb_glyph_info_t],
    positions: &mut [GlyphPosition],
) -> usize
    requires here { at < length positions.old }
    ensures { moved direction change.now at glyphs.old positions.old
        ≡ record { glyphs = glyphs.new; positions = positions.new; next = result } }
{
    match change {
        Move::Adds(value) => {
            add(direction, value, at, positions);
            at + 1
        }
        Move::Kerns(pair) => {
            if pair.second >= glyphs.len() {
                return at + 1;
            }
            move_pair(direction, pair, at, glyphs, positions)
        }
        Move::Attaches(mark) => move_mark(mark, at, glyphs, positions),
        Move::Joins(it) => {
            if it.before >= positions.len() {
                return at + 1;
            }
            move_cursive(direction, it, at, glyphs, positions)
        }
    }
}

// Adds the values of a pair, of any formats.
#[inline(never)]
fn make_any_pair(
    direction: Direction,
    pair: &PairPlace<'_>,
    at: usize,
    glyphs: &mut [hb_glyph_info_t],
    positions: &mut [GlyphPosition],
) -> usize
    requires { pair.now.second < length glyphs.old }
    ensures { moved direction (pair_found pair.now) at glyphs.old positions.old
        ≡ record { glyphs = glyphs.new; positions = positions.new; next = result } }
{
    move_pair(direction, &values_of(pair), at, glyphs, positions)
}

/// Adds the values of a pair, and returns the place that comes next. In most fonts the first glyph has
/// an advance along the line, and the second one nothing.
#[tactic(auto, unfolding(crate::specs::Making::moved))]
pub fn make_pair(
    direction: Direction,
    pair: &PairPlace<'_>,
    at: usize,
    glyphs: &mut [hb_glyph_info_t],
    positions: &mut [GlyphPosition],
) -> usize
    requires here { at < length positions.old }
    ensures { moved direction (pair_found pair.now) at glyphs.old positions.old
        ≡ record { glyphs = glyphs.new; positions = positions.new; next = result } }
{
    if pair.second >= glyphs.len() {
        return at + 1;
    }
    if u16_at(pair.bytes, 4) == 4 && u16_at(pair.bytes, 6) == 0 {
        return move_pair(direction, &advance_of(pair), at, glyphs, positions);
    }
    make_any_pair(direction, pair, at, glyphs, positions)
}

//! Cursive lines: what moves of type 3 make of positions.
ghost use Rattle.std.specs.Prelude.{◌≡◌, ◌<◌, length, IfSome};
ghost use Rattle.opentype_gpos.specs.Moved.{position_at};
ghost use Rattle.opentype_gpos.specs.Joined.{aligned, beginning_at, begun, between, cursive_moved, ended, ending_at, hung, is_at, cursive_joined, line_var, cursive_linked, next_in_line, off_line, separated, reversed, reversed_on, with_across};

use crate::anchors::Point;
use crate::finish::{is_backward, let_go, target};
use crate::moved::{flag_up_to, is_vertical};
use crate::moves::CursiveMove;
use shapers_buffer::buffer::{Direction, GlyphPosition, hb_glyph_info_t};

#[inline]
#[tactic(auto, unfolding(crate::specs::Joined::ending_at))]
fn ending_at(vertical: bool, point: &Point, position: GlyphPosition) -> GlyphPosition
    ensures { result ≡ ending_at vertical point.now position }
{
    if vertical {
        return GlyphPosition {
            y_advance: point.y.saturating_add(position.y_offset),
            ..position
        };
    }
    GlyphPosition {
        x_advance: point.x.saturating_add(position.x_offset),
        ..position
    }
}

#[inline]
#[tactic(auto, unfolding(crate::specs::Joined::beginning_at))]
fn beginning_at(vertical: bool, point: &Point, position: GlyphPosition) -> GlyphPosition
    ensures { result ≡ beginning_at vertical point.now position }
{
    if vertical {
        let moved = point.y.saturating_add(position.y_offset);
        return GlyphPosition {
            y_advance: position.y_advance.saturating_sub(moved),
            y_offset: position.y_offset.saturating_sub(moved),
            ..position
        };
    }
    let moved = point.x.saturating_add(position.x_offset);
    GlyphPosition {
        x_advance: position.x_advance.saturating_sub(moved),
        x_offset: position.x_offset.saturating_sub(moved),
        ..position
    }
}

#[tactic(auto, unfolding(crate::specs::Joined::ended))]
fn end_at(vertical: bool, point: &Point, at: usize, positions: &mut [GlyphPosition])
    requires { at < length positions.old }
    ensures { positions.new ≡ ended vertical point.now at positions.old }
{
    positions[at] = ending_at(vertical, point, positions[at]);
}

#[tactic(auto, unfolding(crate::specs::Joined::begun))]
fn begin_at(vertical: bool, point: &Point, at: usize, positions: &mut [GlyphPosition])
    requires { at < length positions.old }
    ensures { positions.new ≡ begun vertical point.now at positions.old }
{
    positions[at] = beginning_at(vertical, point, positions[at]);
}

// Brings the points of two glyphs together along the line.
#[tactic(auto, unfolding(crate::specs::Joined::aligned))]
fn align(direction: Direction, it: &CursiveMove, at: usize, positions: &mut [GlyphPosition])
    requires at { at < length positions.old }
    requires before { it.now.before < length positions.old }
    ensures { positions.new ≡ aligned direction it.now at positions.old }
{
    let vertical = is_vertical(direction);
    if is_backward(direction) {
        begin_at(vertical, &it.exit, it.before, positions);
        end_at(vertical, &it.entry, at, positions);
        return;
    }
    end_at(vertical, &it.exit, it.before, positions);
    begin_at(vertical, &it.entry, at, positions);
}

#[inline]
#[tactic(auto, unfolding(crate::specs::Joined::with_across))]
pub(crate) fn with_across(vertical: bool, off: i32, position: GlyphPosition) -> GlyphPosition
    ensures { result ≡ with_across vertical off position }
{
    if vertical {
        return GlyphPosition {
            x_offset: off,
            ..position
        };
    }
    GlyphPosition {
        y_offset: off,
        ..position
    }
}

#[inline]
#[tactic(auto, unfolding(crate::specs::Joined::off_line))]
fn off_line(vertical: bool, position: &GlyphPosition) -> i32
    ensures { result ≡ off_line vertical position.now }
{
    if vertical {
        return position.x_offset;
    }
    position.y_offset
}

#[inline]
#[tactic(auto, unfolding(crate::specs::Joined::between))]
fn between(vertical: bool, a: &Point, b: &Point) -> i32
    ensures { result ≡ between vertical a.now b.now }
{
    if vertical {
        return a.x.saturating_sub(b.x);
    }
    a.y.saturating_sub(b.y)
}

// What is kept of an attachment from one place to another.
#[tactic(auto, unfolding(crate::specs::Joined::line_var))]
fn line_var(at: usize, to: usize) -> u32
    ensures { result ≡ line_var at to }
{
    if at < to {
        if to - at < 32768 {
            return (to - at) as u32 + 131072;
        }
        return 0;
    }
    if to < at && at - to <= 32768 {
        return (65536 - (at - to)) as u32 + 131072;
    }
    0
}

// The place that a glyph of a line is attached to, if that isn't its new parent.
#[tactic(auto, unfolding(crate::specs::Joined::next_in_line))]
fn next_in_line(var: u32, at: usize, parent: usize, len: usize) -> Option<usize>
    requires { at < len }
    ensures value { result ≡ next_in_line var at parent len }
    ensures within { IfSome result (λ to. to < len) }
{
    if var / 65536 % 256 != 2 {
        return None;
    }
    match target(var, at, len) {
        Some(to) => {
            if to == parent {
                return None;
            }
            Some(to)
        }
        None => None,
    }
}

#[inline]
#[tactic(auto, unfolding(crate::specs::Joined::reversed_on))]
fn reversed_on(
    vertical: bool,
    old: &GlyphPosition,
    at: usize,
    to: usize,
    position: GlyphPosition,
) -> GlyphPosition
    ensures { result ≡ reversed_on vertical old.now at to position }
{
    let off = 0_i32.saturating_sub(off_line(vertical, old));
    let across = with_across(vertical, off, position);
    GlyphPosition {
        var: line_var(to, at),
        ..across
    }
}

// Reverses the line from a glyph on, up to its new parent.
fn reverse_line(vertical: bool, parent: usize, start: usize, positions: &mut [GlyphPosition])
    requires { start < length positions.old }
    ensures { positions.new
        ≡ reversed 64 vertical parent positions.old start (position_at positions.old start) }
{
    let mut at = start;
    let mut old = positions[start];
    for _ in 0_usize..64 {
        let found = next_in_line(old.var, at, parent, positions.len());
        match found {
            Some(to) => {
                let next = positions[to];
                positions[to] = reversed_on(vertical, &old, at, to, next);
                old = next;
                at = to;
            }
            None => return,
        }
    }
}

#[inline]
fn is_at(place: usize, target: Option<usize>) -> bool
    ensures { result ≡ is_at place target }
{
    match target {
        Some(to) => to == place,
        None => false,
    }
}

// Lets a glyph go that is attached to one that is attached to it.
#[tactic(auto, unfolding(crate::specs::Joined::separated))]
fn separate(vertical: bool, child: usize, parent: usize, positions: &mut [GlyphPosition])
    requires { parent < length positions.old }
    ensures { positions.new ≡ separated vertical child parent positions.old }
{
    let mut position = positions[parent];
    if !is_at(child, target(position.var, parent, positions.len())) {
        return;
    }
    position.var = position.var / 65536 * 65536;
    positions[parent] = with_across(vertical, 0, position);
}

// Attaches a glyph to another, so far off it.
#[tactic(auto, unfolding(crate::specs::Joined::hung))]
fn hang(vertical: bool, child: usize, parent: usize, off: i32, positions: &mut [GlyphPosition])
    requires child { child < length positions.old }
    requires parent { parent < length positions.old }
    ensures { positions.new ≡ hung vertical child parent off positions.old }
{
    let var = line_var(child, parent);
    if var == 0 {
        let_go(positions, child);
        return;
    }
    let across = with_across(vertical, off, positions[child]);
    positions[child] = GlyphPosition { var, ..across };
    separate(vertical, child, parent, positions);
}

#[tactic(auto, unfolding(crate::specs::Joined::cursive_linked))]
fn link(vertical: bool, child: usize, parent: usize, off: i32, positions: &mut [GlyphPosition])
    requires child { child < length positions.old }
    requires parent { parent < length positions.old }
    ensures { positions.new ≡ cursive_linked vertical child parent off positions.old }
{
    reverse_line(vertical, parent, child, positions);
    hang(vertical, child, parent, off, positions);
}

#[tactic(auto, unfolding(crate::specs::Joined::cursive_joined))]
fn join(direction: Direction, it: &CursiveMove, at: usize, positions: &mut [GlyphPosition])
    requires at { at < length positions.old }
    requires before { it.now.before < length positions.old }
    ensures { positions.new ≡ cursive_joined direction it.now at positions.old }
{
    align(direction, it, at, positions);
    let vertical = is_vertical(direction);
    if it.from_end {
        link(
            vertical,
            it.before,
            at,
            between(vertical, &it.entry, &it.exit),
            positions,
        );
        return;
    }
    link(
        vertical,
        at,
        it.before,
        between(vertical, &it.exit, &it.entry),
        positions,
    );
}

/// Joins a glyph to the one before it, and returns the place that comes next.
#[tactic(auto, unfolding(crate::specs::Joined::cursive_moved))]
pub fn move_cursive(
    direction: Direction,
    it: &CursiveMove,
    at: usize,
    glyphs: &mut [hb_glyph_info_t],
    positions: &mut [GlyphPosition],
) -> usize
    requires at { at < length positions.old }
    requires before { it.now.before < length positions.old }
    ensures { cursive_moved direction it.now at glyphs.old positions.old
        ≡ record { glyphs = glyphs.new; positions = positions.new; next = result } }
{
    flag_up_to(true, it.before, at, glyphs);
    join(direction, it, at, positions);
    at + 1
}

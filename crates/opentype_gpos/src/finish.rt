//! What attachments do behind the last lookup.
ghost use Rattle.std.specs.Prelude.{◌≡◌, ◌<◌, ◌≤◌, ◌-◌, ◌%◌, ◌==◌, length, IfSome};
ghost use Rattle.shapers_buffer.specs.declared.buffer.level.Direction.{Direction as TextDirection};
ghost use Rattle.opentype_gpos.specs.Finished.{drawn_place, finished, finished_from, chain_followed, hung_on, is_backward, joined_to, let_go, link_at, pen_behind, pen_between, pen_from, placed_along, placed_on, attached_moved, target_in};

use crate::moved::is_vertical;
use arrayvec::ArrayVec;
use shapers_buffer::buffer::{
    Direction, GlyphPosition, PositionedWalk, hb_buffer_t, hb_glyph_info_t,
};

/// An attachment of a glyph to another.
#[derive(Clone, Copy, Debug, Default, PartialEq, Eq)]
pub struct Attachment {
    /// The place of the glyph.
    pub at: usize,
    /// The place of the other one.
    pub to: usize,
    /// Whether it is one of a cursive line.
    pub is_cursive: bool,
}

#[inline]
pub(crate) fn is_backward(direction: Direction) -> bool
    ensures { result ≡ is_backward direction }
{
    match direction {
        Direction::RightToLeft | Direction::BottomToTop => true,
        Direction::LeftToRight | Direction::TopToBottom | Direction::Invalid => false,
    }
}

// The place that a glyph is attached to, by what is kept with its position.
#[tactic(auto, unfolding(crate::specs::Finished::target_in))]
pub(crate) fn target(var: u32, at: usize, len: usize) -> Option<usize>
    requires { at < len }
    ensures value { result ≡ target_in var at len }
    ensures within { IfSome result (λ to. to < len) }
{
    let places = (var % 65536) as usize;
    if places == 0 {
        return None;
    }
    if places < 32768 {
        return if places < len - at {
            Some(at + places)
        } else {
            None
        };
    }
    let back = 65536 - places;
    if back <= at { Some(at - back) } else { None }
}

#[tactic(auto, unfolding(crate::specs::Finished::link_at))]
fn attachment_of(positions: &[GlyphPosition], at: usize) -> Option<Attachment>
    requires { at < length positions.now }
    ensures value { result ≡ link_at positions.now at }
    ensures within { IfSome result (λ link. link.to < length positions.now) }
{
    let var = positions[at].var;
    match target(var, at, positions.len()) {
        Some(to) => Some(Attachment {
            at,
            to,
            is_cursive: var / 65536 % 256 == 2,
        }),
        None => None,
    }
}

#[tactic(auto, unfolding(crate::specs::Finished::let_go))]
pub(crate) fn let_go(positions: &mut [GlyphPosition], at: usize)
    requires { at < length positions.old }
    ensures { positions.new ≡ let_go positions.old at }
{
    let mut position = positions[at];
    position.var = position.var / 65536 * 65536;
    positions[at] = position;
}

#[inline]
#[tactic(auto, unfolding(crate::specs::Finished::pen_behind))]
fn pen_behind(pen: GlyphPosition, position: &GlyphPosition) -> GlyphPosition
    ensures { result ≡ pen_behind pen position.now }
{
    GlyphPosition {
        x_advance: pen.x_advance.saturating_add(position.x_advance),
        y_advance: pen.y_advance.saturating_add(position.y_advance),
        ..pen
    }
}

// How far the glyphs from a place to another one move the pen.
fn pen_along(positions: &[GlyphPosition], start: usize, end: usize) -> GlyphPosition
    requires { end ≤ length positions.now }
    ensures { result ≡ pen_from start end positions.now }
{
    let mut pen = GlyphPosition::ZERO;
    for i in start..end {
        pen = pen_behind(pen, &positions[i]);
    }
    pen
}

#[inline]
#[tactic(auto, unfolding(crate::specs::Finished::joined_to))]
fn joined_to(vertical: bool, to: &GlyphPosition, position: GlyphPosition) -> GlyphPosition
    ensures { result ≡ joined_to vertical to.now position }
{
    if vertical {
        return GlyphPosition {
            x_offset: position.x_offset.saturating_add(to.x_offset),
            ..position
        };
    }
    GlyphPosition {
        y_offset: position.y_offset.saturating_add(to.y_offset),
        ..position
    }
}

#[inline]
#[tactic(auto, unfolding(crate::specs::Finished::hung_on))]
fn hung_on(
    backward: bool,
    pen: &GlyphPosition,
    to: &GlyphPosition,
    position: GlyphPosition,
) -> GlyphPosition
    ensures { result ≡ hung_on backward pen.now to.now position }
{
    let x = position.x_offset.saturating_add(to.x_offset);
    let y = position.y_offset.saturating_add(to.y_offset);
    if backward {
        return GlyphPosition {
            x_offset: x.saturating_add(pen.x_advance),
            y_offset: y.saturating_add(pen.y_advance),
            ..position
        };
    }
    GlyphPosition {
        x_offset: x.saturating_sub(pen.x_advance),
        y_offset: y.saturating_sub(pen.y_advance),
        ..position
    }
}

#[tactic(auto, unfolding(crate::specs::Finished::pen_between))]
fn pen_between(backward: bool, positions: &[GlyphPosition], link: &Attachment) -> GlyphPosition
    requires at { link.now.at < length positions.now }
    requires to { link.now.to < length positions.now }
    ensures { result ≡ pen_between backward positions.now link.now }
{
    if backward {
        pen_along(positions, link.to + 1, link.at + 1)
    } else {
        pen_along(positions, link.to, link.at)
    }
}

// A glyph's position where it is attached.
#[inline]
fn placed(direction: Direction, link: &Attachment, positions: &[GlyphPosition]) -> GlyphPosition
    requires at { link.now.at < length positions.now }
    requires to { link.now.to < length positions.now }
    ensures { result ≡ placed_along direction link.now positions.now }
{
    let (to, position) = (&positions[link.to], positions[link.at]);
    if link.is_cursive {
        return joined_to(is_vertical(direction), to, position);
    }
    let backward = is_backward(direction);
    hung_on(
        backward,
        &pen_between(backward, positions, link),
        to,
        position,
    )
}

// Moves a glyph with the one that it is attached to.
#[tactic(auto, unfolding(crate::specs::Finished::placed_on))]
fn place_on(direction: Direction, link: &Attachment, positions: &mut [GlyphPosition])
    ensures { positions.new ≡ placed_on direction link.now positions.old }
{
    if link.at >= positions.len() || link.to >= positions.len() {
        return;
    }
    positions[link.at] = placed(direction, link, positions);
}

// The attachments in a row from a glyph on. The glyphs aren't attached any longer.
fn climb(start: usize, positions: &mut [GlyphPosition]) -> ArrayVec<Attachment, 64>
    requires { start < length positions.old }
    ensures { (direction : TextDirection) → attached_moved direction result.items positions.new
        ≡ chain_followed 64 direction positions.old start }
{
    let mut links = ArrayVec::new();
    let mut at = start;
    for _ in 0_usize..64 {
        let found = attachment_of(positions, at);
        let_go(positions, at);
        match found {
            Some(link) => {
                links.push(link);
                at = link.to;
            }
            None => return links,
        }
    }
    let_go(positions, at);
    links
}

// Moves the glyphs of these attachments, the last one first.
fn move_attached(direction: Direction, links: &[Attachment], positions: &mut [GlyphPosition])
    ensures { positions.new ≡ attached_moved direction links.now positions.old }
{
    for i in 0..links.len() {
        let link = links[links.len() - 1 - i];
        place_on(direction, &link, positions);
    }
}

// Whether a glyph is attached to none.
#[inline]
fn is_loose(position: &GlyphPosition) -> bool
    ensures { result ≡ position.now.var % 65536 == 0 }
{
    position.var % 65536 == 0
}

// Moves a glyph behind those of its chain of attachments, which has more than one. (Not inlined, since
// its list of attachments takes many bytes.)
#[inline(never)]
fn follow_chain(direction: Direction, at: usize, positions: &mut [GlyphPosition])
    requires { at < length positions.old }
    ensures { positions.new ≡ chain_followed 64 direction positions.old at }
{
    let links = climb(at, positions);
    move_attached(direction, links.as_slice(), positions);
}

// Moves a glyph behind those of its chain; mostly that is one glyph, which isn't attached itself.
fn follow_link(direction: Direction, at: usize, positions: &mut [GlyphPosition])
    requires { at < length positions.old }
    ensures { positions.new ≡ chain_followed 64 direction positions.old at }
{
    if let Some(link) = attachment_of(positions, at) {
        if is_loose(&positions[link.to]) {
            let_go(positions, at);
            place_on(direction, &link, positions);
            return;
        }
    }
    follow_chain(direction, at, positions);
}

// Moves a glyph behind those of its chain, if it is attached to any.
#[inline]
fn follow(direction: Direction, at: usize, positions: &mut [GlyphPosition])
    requires { at < length positions.old }
    ensures { positions.new ≡ chain_followed 64 direction positions.old at }
{
    if is_loose(&positions[at]) {
        return;
    }
    follow_link(direction, at, positions);
}

#[inline]
fn drawn_place(backward: bool, len: usize, i: usize) -> usize
    requires { i < len }
    ensures value { result ≡ drawn_place backward len i }
    ensures within { result < len }
{
    if backward { len - 1 - i } else { i }
}

// Moves each glyph that is attached to another.
fn finish(direction: Direction, positions: &mut [GlyphPosition])
    ensures { positions.new ≡ finished_from (length positions.old) direction positions.old 0 }
{
    let backward = is_backward(direction);
    for i in 0..positions.len() {
        let at = drawn_place(backward, positions.len(), i);
        follow(direction, at, positions);
    }
}

// The walk over positions that does so.
#[derive(Drop)]
struct Finishing {
    direction: Direction,
}

impl PositionedWalk for Finishing {
    ghost use Rattle.std.specs.Prelude.{⊤, ◌≡◌, length};
    ghost use Rattle.opentype_gpos.specs.Finished.{finished_from};

    ghost can_walk = { λ w gs ps. ⊤ };

    ghost walks = { λ w gs ps hs qs.
        (hs ≡ gs) × (qs ≡ finished_from (length ps) w.direction ps 0) };

    fn walk(&self, _glyphs: &mut [hb_glyph_info_t], positions: &mut [GlyphPosition]) {
        finish(self.direction, positions);
    }
}

/// Moves each glyph that lookups attached to another one with that, behind the last lookup of GPOS; of
/// attachments in a row 64 are followed. Offsets that pass 32 bits stop at their bound.
#[tactic(auto, unfolding(crate::specs::Finished::finished))]
pub fn finish_positions(buffer: &mut hb_buffer_t)
    requires { length buffer.old.positions ≡ length buffer.old.glyphs }
    ensures { buffer.new ≡ finished buffer.old }
{
    let finishing = Finishing {
        direction: buffer.direction(),
    };
    buffer.walk_positioned(&finishing);
}

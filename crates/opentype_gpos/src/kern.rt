//! Pairs of glyphs by the table `kern`.
ghost use Rattle.std.specs.Prelude.{◌≡◌, ◌<◌, ◌+◌, ◌*◌, ℕ, length, map, reverse};
ghost use Rattle.opentype_face.specs.Bytes.{u32_in};
ghost use Rattle.opentype_face.specs.Ranges.{bisect};
ghost use Rattle.opentype_gpos.specs.Kerned.{as_drawn, in_one_line, is_across, is_for, kern_class, kern_half, kern_rest, kern_sight, kern_stepped, kern_value, kern_whole, kerned, kerned_along, kerned_by, kerned_by_subtables, kerned_text, line_step, pair_kerned, value_of_pair, with_half, with_rest, with_step};
ghost use Rattle.opentype_gpos.specs.Along.{applied_along};

use crate::finish::{is_backward, let_go};
use crate::joins::with_across;
use crate::moved::{flag_up_to, is_vertical};
use crate::nearby::{next_glyph, number};
use opentype_face::bytes::{table_at, u8_at, u16_at, u32_at};
use opentype_layout::sight::Sight;
use shapers_buffer::buffer::{
    Direction, GlyphPosition, PositionedWalk, hb_buffer_t, hb_glyph_info_t,
};

// The record of a pair, among so many of six bytes from byte 14 on. (It is searched for here, since
// each record is read once, and distances that the code knows make a step shorter.)
fn find_listed(bytes: &[u8], count: u16, pair: u32) -> Option<u32>
    ensures { let listed : ℕ → ℕ = λ i. u32_in bytes.now (14 + i * 6) in
        result ≡ bisect count listed listed pair 0 count }
{
    let (mut low, mut high) = (0, u32::from(count));
    while low < high {
        let middle = (low + high - 1) / 2;
        let found = u32_at(bytes, 14 + middle as usize * 6);
        if pair < found {
            high = middle;
        } else if found < pair {
            low = middle + 1;
        } else {
            return Some(middle);
        }
    }
    None
}

// What a list of pairs says of one.
#[tactic(auto, unfolding(crate::specs::Kerned::value_of_pair))]
fn listed_value(bytes: &[u8], left: u16, right: u16) -> u16
    ensures { result ≡ value_of_pair bytes.now left right }
{
    let pair = 65536 * u32::from(left) + u32::from(right);
    match find_listed(bytes, u16_at(bytes, 6), pair) {
        Some(i) => u16_at(bytes, 18 + i as usize * 6),
        None => 0,
    }
}

// The class of a glyph by a subtable of format 2.
#[tactic(auto, unfolding(crate::specs::Kerned::kern_class))]
fn class_of(classes: &[u8], glyph: u16) -> Option<u16>
    ensures { result ≡ kern_class classes.now glyph }
{
    let first = u16_at(classes, 0);
    if glyph < first || glyph - first >= u16_at(classes, 2) {
        return None;
    }
    match u16_at(classes, 4 + usize::from(glyph - first) * 2) {
        1 => None,
        class => Some(class),
    }
}

// What a subtable says of a pair, in two bytes.
#[tactic(auto, unfolding(crate::specs::Kerned::kern_value))]
fn value(bytes: &[u8], left: u16, right: u16) -> u16
    ensures { result ≡ kern_value bytes.now left right }
{
    match u8_at(bytes, 4) {
        0 => listed_value(bytes, left, right),
        2 => {
            let left = class_of(table_at(bytes, usize::from(u16_at(bytes, 8))), left);
            let right = class_of(table_at(bytes, usize::from(u16_at(bytes, 10))), right);
            let array = usize::from(u16_at(bytes, 12));
            match (left, right) {
                (Some(left), Some(right)) => {
                    let place = usize::from(left) + usize::from(right);
                    if place < array {
                        return 0;
                    }
                    u16_at(bytes, array + (place - array) / 2 * 2)
                }
                _ => 0,
            }
        }
        _ => 0,
    }
}

#[inline]
fn whole(value: u16) -> i32
    ensures { result ≡ kern_whole value }
{
    if value < 32768 {
        i32::from(value)
    } else {
        i32::from(value) - 65536
    }
}

#[inline]
fn half(value: u16) -> i32
    ensures { result ≡ kern_half value }
{
    if value < 32768 {
        i32::from(value / 2)
    } else {
        i32::from(value / 2) - 32768
    }
}

#[inline]
fn rest(value: u16) -> i32
    ensures { result ≡ kern_rest value }
{
    whole(value) - half(value)
}

#[inline]
#[tactic(auto, unfolding(crate::specs::Kerned::with_half))]
fn with_half(vertical: bool, value: u16, position: GlyphPosition) -> GlyphPosition
    ensures { result ≡ with_half vertical value position }
{
    let half = half(value);
    if vertical {
        return GlyphPosition {
            y_advance: position.y_advance.saturating_add(half),
            ..position
        };
    }
    GlyphPosition {
        x_advance: position.x_advance.saturating_add(half),
        ..position
    }
}

#[inline]
#[tactic(auto, unfolding(crate::specs::Kerned::with_rest))]
fn with_rest(vertical: bool, value: u16, position: GlyphPosition) -> GlyphPosition
    ensures { result ≡ with_rest vertical value position }
{
    let rest = rest(value);
    if vertical {
        return GlyphPosition {
            y_advance: position.y_advance.saturating_add(rest),
            y_offset: position.y_offset.saturating_add(rest),
            ..position
        };
    }
    GlyphPosition {
        x_advance: position.x_advance.saturating_add(rest),
        x_offset: position.x_offset.saturating_add(rest),
        ..position
    }
}

// Moves two glyphs by a value.
#[tactic(auto, unfolding(crate::specs::Kerned::pair_kerned))]
fn kern_pair(
    vertical: bool,
    across: bool,
    value: u16,
    i: usize,
    j: usize,
    positions: &mut [GlyphPosition],
)
    requires first { i < length positions.old }
    requires second { j < length positions.old }
    ensures { positions.new ≡ pair_kerned vertical across value i j positions.old }
{
    if across {
        positions[j] = with_across(vertical, whole(value), positions[j]);
        return;
    }
    positions[i] = with_half(vertical, value, positions[i]);
    positions[j] = with_rest(vertical, value, positions[j]);
}

#[inline]
pub(crate) fn is_across(bytes: &[u8]) -> bool
    ensures { result ≡ is_across bytes.now }
{
    u8_at(bytes, 5) / 4 % 2 == 1
}

#[inline]
fn is_for(direction: Direction, bytes: &[u8]) -> bool
    ensures { result ≡ is_for direction bytes.now }
{
    let is_horizontal = u8_at(bytes, 5) % 2 == 1;
    if is_vertical(direction) {
        return !is_horizontal;
    }
    is_horizontal
}

#[inline]
fn sight(mask: u32) -> Sight
    ensures { result ≡ kern_sight mask }
{
    Sight {
        flag: 8,
        set: 0,
        mask,
        syllable: 0,
        over_zwnj: true,
        over_zwj: true,
        of_gpos: true,
    }
}

// What a subtable does at a glyph; returns the place that comes next.
#[tactic(auto, unfolding(crate::specs::Kerned::kern_stepped))]
fn step(
    bytes: &[u8],
    mask: u32,
    vertical: bool,
    glyphs: &mut [hb_glyph_info_t],
    positions: &mut [GlyphPosition],
    at: usize,
) -> usize
    requires here { at < length glyphs.old }
    requires paired { length positions.old ≡ length glyphs.old }
    ensures { kern_stepped bytes.now mask vertical glyphs.old positions.old at
        ≡ record { glyphs = glyphs.new; positions = positions.new; next = result } }
{
    if glyphs[at].mask & mask == 0 {
        return at + 1;
    }
    match next_glyph(&[], &sight(mask), glyphs, at + 1) {
        Some(j) => {
            let value = value(bytes, number(&glyphs[at]), number(&glyphs[j]));
            if value != 0 {
                flag_up_to(true, at, j, glyphs);
                kern_pair(vertical, is_across(bytes), value, at, j, positions);
            }
            j
        }
        None => at + 1,
    }
}

// Moves pairs along a text.
fn move_pairs(
    bytes: &[u8],
    mask: u32,
    vertical: bool,
    glyphs: &mut [hb_glyph_info_t],
    positions: &mut [GlyphPosition],
)
    requires { length positions.old ≡ length glyphs.old }
    ensures glyphs { let end = applied_along (length glyphs.old) (kern_stepped bytes.now mask vertical)
        glyphs.old positions.old 0 in glyphs.new ≡ end.glyphs }
    ensures positions { let end = applied_along (length glyphs.old) (kern_stepped bytes.now mask vertical)
        glyphs.old positions.old 0 in positions.new ≡ end.positions }
{
    let mut at = 0;
    for _ in 0..glyphs.len() {
        if at >= glyphs.len() {
            return;
        }
        at = step(bytes, mask, vertical, glyphs, positions, at);
    }
}

// Attaches each glyph to the one so many places away, in a line.
fn set_steps(step: u32, positions: &mut [GlyphPosition])
    requires { step < 65536 }
    ensures { positions.new ≡ map (with_step step) positions.old }
{
    for position in positions.iter_mut() {
        position.var = step + 131072;
    }
}

// Attaches each glyph but the first one to another, in a line.
#[tactic(auto, unfolding(crate::specs::Kerned::in_one_line))]
fn line_up(step: u32, positions: &mut [GlyphPosition])
    requires { step < 65536 }
    ensures { positions.new ≡ in_one_line step positions.old }
{
    set_steps(step, positions);
    if !positions.is_empty() {
        let_go(positions, 0);
    }
}

#[inline]
fn line_step(direction: Direction) -> u32
    ensures value { result ≡ line_step direction }
    ensures few { result < 65536 }
{
    if is_backward(direction) { 1 } else { 65535 }
}

// What a subtable makes of a text as it is drawn.
#[tactic(auto, unfolding(crate::specs::Kerned::kerned_along))]
fn kern_along(
    bytes: &[u8],
    mask: u32,
    direction: Direction,
    glyphs: &mut [hb_glyph_info_t],
    positions: &mut [GlyphPosition],
)
    requires { length positions.old ≡ length glyphs.old }
    ensures { kerned_along bytes.now mask direction
        (record { glyphs = glyphs.old; positions = positions.old })
        ≡ record { glyphs = glyphs.new; positions = positions.new } }
{
    if is_across(bytes) {
        line_up(line_step(direction), positions);
    }
    move_pairs(bytes, mask, is_vertical(direction), glyphs, positions);
}

// The same, if the subtable is for lines of this direction.
#[tactic(auto, unfolding(crate::specs::Kerned::kerned_by))]
fn kern_by(
    mask: u32,
    direction: Direction,
    bytes: &[u8],
    glyphs: &mut [hb_glyph_info_t],
    positions: &mut [GlyphPosition],
)
    requires { length positions.old ≡ length glyphs.old }
    ensures { kerned_by mask direction bytes.now
        (record { glyphs = glyphs.old; positions = positions.old })
        ≡ record { glyphs = glyphs.new; positions = positions.new } }
{
    if is_for(direction, bytes) {
        kern_along(bytes, mask, direction, glyphs, positions);
    }
}

// The subtables, one after another.
fn kern_by_subtables(
    count: u16,
    mask: u32,
    direction: Direction,
    bytes: &[u8],
    glyphs: &mut [hb_glyph_info_t],
    positions: &mut [GlyphPosition],
)
    requires { length positions.old ≡ length glyphs.old }
    ensures { kerned_by_subtables count (kerned_by mask direction) bytes.now
        (record { glyphs = glyphs.old; positions = positions.old })
        ≡ record { glyphs = glyphs.new; positions = positions.new } }
{
    let mut bytes = bytes;
    for _ in 0..count {
        let len = u16_at(bytes, 2);
        if len < 6 {
            return;
        }
        kern_by(mask, direction, bytes, glyphs, positions);
        bytes = table_at(bytes, usize::from(len));
    }
}

// Reverses a backward text.
#[inline]
fn reverse_backward(
    direction: Direction,
    glyphs: &mut [hb_glyph_info_t],
    positions: &mut [GlyphPosition],
)
    requires { length positions.old ≡ length glyphs.old }
    ensures { as_drawn direction (record { glyphs = glyphs.old; positions = positions.old })
        ≡ record { glyphs = glyphs.new; positions = positions.new } }
{
    if is_backward(direction) {
        glyphs.reverse();
        positions.reverse();
    }
}

// What the table makes of a text.
#[tactic(auto, unfolding(crate::specs::Kerned::kerned_text))]
fn kern_text(
    table: &[u8],
    mask: u32,
    direction: Direction,
    glyphs: &mut [hb_glyph_info_t],
    positions: &mut [GlyphPosition],
)
    requires { length positions.old ≡ length glyphs.old }
    ensures { kerned_text table.now mask direction
        (record { glyphs = glyphs.old; positions = positions.old })
        ≡ record { glyphs = glyphs.new; positions = positions.new } }
{
    if u16_at(table, 0) != 0 {
        return;
    }
    reverse_backward(direction, glyphs, positions);
    let (count, bytes) = (u16_at(table, 2), table_at(table, 4));
    kern_by_subtables(count, mask, direction, bytes, glyphs, positions);
    reverse_backward(direction, glyphs, positions);
}

// A walk that moves pairs.
#[derive(Drop)]
struct Kerning<'a> {
    table: &'a [u8],
    mask: u32,
    direction: Direction,
}

impl<'a> PositionedWalk for Kerning<'a> {
    ghost use Rattle.std.specs.Prelude.{◌≡◌, length};
    ghost use Rattle.opentype_gpos.specs.Kerned.{kerned_text};

    ghost can_walk = { λ w gs ps. length ps ≡ length gs };

    ghost walks = { λ w gs ps hs qs.
        kerned_text w.table.now w.mask w.direction (record { glyphs = gs; positions = ps })
        ≡ record { glyphs = hs; positions = qs } };

    fn walk(&self, glyphs: &mut [hb_glyph_info_t], positions: &mut [GlyphPosition]) {
        kern_text(self.table, self.mask, self.direction, glyphs, positions);
    }
}

/// Moves pairs of glyphs, of those whose mask has a bit of this one, by the table `kern` of version 0:
/// formats 0 and 2, in font units. It writes positions and glyph flags alone.
#[tactic(auto, unfolding(crate::specs::Kerned::kerned))]
pub fn kern(table: &[u8], mask: u32, buffer: &mut hb_buffer_t)
    requires { length buffer.old.positions ≡ length buffer.old.glyphs }
    ensures { buffer.new ≡ kerned table.now mask buffer.old }
{
    let len = buffer.len();
    buffer.unsafe_to_concat(0, len);
    let kerning = Kerning {
        table,
        mask,
        direction: buffer.direction(),
    };
    buffer.walk_positioned(&kerning);
}

//! Lookups along a text.
ghost use Rattle.std.specs.Prelude.{◌≡◌, ◌<◌, length};
ghost use Rattle.opentype_gpos.specs.Coming.{setting_of};
ghost use Rattle.opentype_gpos.specs.Along.{positioned, position_stepped, applied_whole};

use crate::calling::apply_rule;
use crate::coming::{Came, come_to};
use crate::making::{make_move, make_pair};
use crate::pass::{Pass, Sights};
use crate::trying::flag_tried;
use opentype_layout::looking::wants_concat;
use opentype_layout::sight::{Application, ignores_glyph};
use opentype_layout::starts::LookupTable;
use opentype_layout::tables::LayoutTable;
use shapers_buffer::buffer::{GlyphPosition, PositionedWalk, hb_buffer_t, hb_glyph_info_t};

// What a lookup does at a place; returns the place that comes next.
#[inline]
#[tactic(auto, unfolding(crate::specs::Along::position_stepped))]
fn step(
    pass: &Pass<'_>,
    sights: &Sights,
    lookup: &LookupTable<'_>,
    glyphs: &mut [hb_glyph_info_t],
    positions: &mut [GlyphPosition],
    at: usize,
) -> usize
    requires here { at < length glyphs.old }
    requires paired { length positions.old ≡ length glyphs.old }
    ensures { position_stepped (setting_of pass.now) sights.now lookup.now glyphs.old positions.old at
        ≡ record { glyphs = glyphs.new; positions = positions.new; next = result } }
{
    let (sight, glyph) = (&sights.input, &glyphs[at]);
    if glyph.mask & sight.mask == 0 || ignores_glyph(pass.gdef, sight.flag, sight.set, glyph) {
        return at + 1;
    }
    let came = come_to(pass, sights, lookup, glyphs, at);
    flag_tried(pass, sights, lookup, glyphs, at);
    match came {
        Some(Came::Moves(change)) => make_move(pass.direction, &change, at, glyphs, positions),
        Some(Came::Pairs(pair)) => make_pair(pass.direction, &pair, at, glyphs, positions),
        Some(Came::Fits(rule)) => {
            apply_rule(pass, &rule, glyphs, positions);
            rule.end
        }
        None => at + 1,
    }
}

// Applies a lookup along a text. Most lookups begin nowhere in it, and the others at few glyphs.
fn apply_along(
    pass: &Pass<'_>,
    lookup: &LookupTable<'_>,
    glyphs: &mut [hb_glyph_info_t],
    positions: &mut [GlyphPosition],
)
    requires { length positions.old ≡ length glyphs.old }
    ensures glyphs { let end = applied_whole (setting_of pass.now) lookup.now
        glyphs.old positions.old in glyphs.new ≡ end.glyphs }
    ensures positions { let end = applied_whole (setting_of pass.now) lookup.now
        glyphs.old positions.old in positions.new ≡ end.positions }
{
    let mask = pass.how.mask;
    let first = lookup.first_place(true, mask, glyphs, 0);
    if first >= glyphs.len() {
        return;
    }
    let sights = pass.sights(lookup.bytes());
    let (mut at, mut steps) = (first, glyphs.len() - first);
    while steps > 0 {
        at = step(pass, &sights, lookup, glyphs, positions, at);
        steps -= 1;
        let place = lookup.next_place_in(true, mask, glyphs, at);
        if place >= glyphs.len() || place - at >= steps {
            return;
        }
        steps -= place - at;
        at = place;
    }
}

// A lookup over a text with positions.
#[derive(Drop)]
struct Walking<'a> {
    pass: Pass<'a>,
    lookup: LookupTable<'a>,
}

impl<'a> PositionedWalk for Walking<'a> {
    ghost use Rattle.std.specs.Prelude.{◌≡◌, length};
    ghost use Rattle.opentype_gpos.specs.Coming.{setting_of};
    ghost use Rattle.opentype_gpos.specs.Along.{applied_whole};

    ghost can_walk = { λ w gs ps. length ps ≡ length gs };

    ghost walks = { λ w gs ps hs qs.
        let end = applied_whole (setting_of w.pass) w.lookup gs ps in
        (hs ≡ end.glyphs) × (qs ≡ end.positions) };

    fn walk(&self, glyphs: &mut [hb_glyph_info_t], positions: &mut [GlyphPosition]) {
        apply_along(&self.pass, &self.lookup, glyphs, positions);
    }
}

/// Applies a lookup of GPOS, by its number, to a text with positions, as a plan has it applied. It writes
/// positions and glyph flags alone.
#[tactic(auto, unfolding(crate::specs::Along::positioned))]
pub fn position(
    gdef: &[u8],
    gpos: &LayoutTable<'_>,
    index: u16,
    how: &Application,
    buffer: &mut hb_buffer_t,
)
    requires { length buffer.old.positions ≡ length buffer.old.glyphs }
    ensures { buffer.new ≡ positioned gdef.now gpos.now index how.now buffer.old }
{
    let walking = Walking {
        pass: Pass {
            gdef,
            gpos,
            direction: buffer.direction(),
            how: *how,
            concat: wants_concat(buffer.flags()),
        },
        lookup: gpos.lookup(index),
    };
    buffer.walk_positioned(&walking);
}

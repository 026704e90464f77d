//! Left matras, the reph and a formed pref glyph of one syllable, each given its place: as three
//! placements, one after another, since where one goes depends on where those before it went.
ghost use Rattle.std.specs.Prelude.{◌≡◌, ◌<◌, ◌≤◌, ◌+◌, ◌-◌, [], length, map, if◌then◌else◌};
ghost use Rattle.std.specs.List.{list_any};
ghost use Rattle.std.specs.Option.{IfSome};
ghost use Rattle.shapers_base.specs.Masks.{has_bits};
ghost use Rattle.shapers_buffer.specs.Clusters.{stretch_of};
ghost use Rattle.shapers_buffer.specs.Placements.{MayArrange, arranged, placed_by_all};
ghost use Rattle.shapers_buffer.specs.declared.buffer.placement.Placement.TheVariants.{Stays};
ghost use Rattle.shapers_clusters.specs.Steps.{after_steps, widened};
ghost use Rattle.shapers_indic_final.specs.FinalMatras.{end_of_base, matra_steps, staying_steps};
ghost use Rattle.shapers_indic_final.specs.FinalMoveWalk.{pref_goes, reph_goes};
ghost use Rattle.shapers_indic_final.specs.FinalPref.{pref_steps};
ghost use Rattle.shapers_indic_final.specs.FinalReph.{base_after_reph, begins_with_reph, reph_steps};

use super::glyphs::has_mask;
use super::left_matras::gather_matras;
use super::matras::{end_of_base, first_left, matra_target, takes_matras};
use super::moves::{move_pref, move_reph};
use super::pref::{formed_pref, pref_target};
use super::reph::{base_after_reph, begins_with_reph, is_moving_reph, reph_target};
use shapers_base::buffer::{
    Arranged, Placements, Script, SyllableReading, hb_buffer_t, hb_glyph_info_t,
};
use shapers_base::plan::RephPosition;

// Gives the reph of the syllable from `start` to `end`, moved so far, its place, and returns where
// the base is then.
#[inline]
pub(super) fn place_reph(
    position: RephPosition,
    base: usize,
    moves: &mut Placements,
    buffer: &mut hb_buffer_t,
    start: usize,
    end: usize,
) -> usize
    requires fits { MayArrange moves.old start end (length buffer.old.glyphs) buffer.old.places }
    requires second { moves.old.second ≡ Stays }
    requires third { moves.old.third ≡ Stays }
    requires in_syllable { base ≤ end - start }
    ensures glyphs { let old = arranged moves.old start end buffer.old in
        let new = arranged moves.new start end buffer.new in
        let steps = reph_steps position base (stretch_of start end old.glyphs) in
        let wide = map (widened start end (length old.glyphs)) steps in
        new ≡ record old { glyphs = after_steps old.level wide old.glyphs; places = new.places } }
    ensures fits { MayArrange moves.new start end (length buffer.new.glyphs) buffer.new.places }
    ensures third { moves.new.third ≡ Stays }
    ensures same_length { length buffer.new.glyphs ≡ length buffer.old.glyphs }
    ensures place { let old = arranged moves.old start end buffer.old in
        result ≡ base_after_reph position base (stretch_of start end old.glyphs) }
    ensures within { result ≤ end - start }
{
    if !begins_moved(moves, buffer, start, end) {
        return base;
    }
    let mut search = RephSearch {
        position,
        base,
        target: None,
    };
    buffer.read_arranged(moves, start, end, &mut search);
    match search.target {
        None => base,
        Some(target) => {
            *moves = move_reph(*moves, buffer, start, end, target);
            base_after_reph(base, target)
        }
    }
}

// Whether a reph that moves begins the syllable from `start` to `end`, moved so far.
#[inline]
fn begins_moved(moves: &Placements, buffer: &hb_buffer_t, start: usize, end: usize) -> bool
    requires { MayArrange moves.now start end (length buffer.now.glyphs) buffer.now.places }
    ensures { let gs = placed_by_all moves.now start end buffer.now.places buffer.now.glyphs in
        result ≡ begins_with_reph (stretch_of start end gs) }
{
    if moves.moves_nothing() {
        return begins_with_reph(&buffer.glyphs()[start..end]);
    }
    begins_arranged(&buffer.arranged(moves, start, end), start, end)
}

// Whether a reph that moves begins the syllable from `start` to `end` of a text that is seen as
// moved.
#[inline]
fn begins_arranged(glyphs: &Arranged, start: usize, end: usize) -> bool
    requires in_order { start ≤ end }
    requires in_range { end ≤ length glyphs.now }
    ensures { result ≡ begins_with_reph (stretch_of start end glyphs.now) }
{
    end - start >= 2 && is_moving_reph(&glyphs.get(start))
}

// A look for where the reph goes.
#[derive(Drop)]
struct RephSearch {
    position: RephPosition,
    base: usize,
    target: Option<usize>,
}

impl SyllableReading for RephSearch {
    ghost use Rattle.std.specs.Prelude.{◌≡◌, ◌<◌, ◌≤◌, length};
    ghost use Rattle.std.specs.Option.{IfSome};
    ghost use Rattle.shapers_indic_final.specs.FinalMoveWalk.{reph_goes};

    ghost can_read = { λ look gs. look.base ≤ length gs };

    ghost reads = { λ old new gs. (new.target ≡ reph_goes old.position old.base gs)
        × IfSome new.target (λ j. j < length gs) };

    #[inline]
    fn read(&mut self, syllable: &[hb_glyph_info_t]) {
        self.target = reph_goes(self.position, self.base, syllable);
    }
}

// Where the reph of a syllable goes, if one moves.
#[inline]
fn reph_goes(position: RephPosition, base: usize, glyphs: &[hb_glyph_info_t]) -> Option<usize>
    requires { base ≤ length glyphs.now }
    ensures target { result ≡ reph_goes position base glyphs.now }
    ensures within { IfSome result (λ j. j < length glyphs.now) }
{
    if begins_with_reph(glyphs) {
        Some(reph_target(position, base, glyphs))
    } else {
        None
    }
}

// Gives the glyph of the syllable from `start` to `end`, moved so far, that `pref` formed its
// place, if one is tried.
#[inline]
pub(super) fn place_pref(
    tries: bool,
    script: Option<Script>,
    pref: u32,
    base: usize,
    moves: &mut Placements,
    buffer: &mut hb_buffer_t,
    start: usize,
    end: usize,
)
    requires fits { MayArrange moves.old start end (length buffer.old.glyphs) buffer.old.places }
    requires third { moves.old.third ≡ Stays }
    requires in_syllable { base ≤ end - start }
    ensures glyphs { let old = arranged moves.old start end buffer.old in
        let new = arranged moves.new start end buffer.new in
        let part = stretch_of start end old.glyphs in
        let steps = if tries then pref_steps pref script base part else [] in
        let wide = map (widened start end (length old.glyphs)) steps in
        new ≡ record old { glyphs = after_steps old.level wide old.glyphs; places = new.places } }
    ensures fits { MayArrange moves.new start end (length buffer.new.glyphs) buffer.new.places }
    ensures same_length { length buffer.new.glyphs ≡ length buffer.old.glyphs }
{
    if !tries {
        return;
    }
    let mut search = PrefSearch {
        script,
        pref,
        base,
        places: None,
    };
    buffer.read_arranged(moves, start, end, &mut search);
    if let Some((target, i)) = search.places {
        *moves = move_pref(*moves, buffer, start, end, target, i);
    }
}

// A look for a glyph that `pref` formed, and where it goes.
#[derive(Drop)]
struct PrefSearch {
    script: Option<Script>,
    pref: u32,
    base: usize,
    places: Option<(usize, usize)>,
}

impl SyllableReading for PrefSearch {
    ghost use Rattle.std.specs.Prelude.{◌≡◌, ◌<◌, ◌≤◌, length};
    ghost use Rattle.std.specs.Option.{IfSome};
    ghost use Rattle.shapers_indic_final.specs.FinalMoveWalk.{pref_goes};

    ghost can_read = { λ look gs. look.base ≤ length gs };

    ghost reads = { λ old new gs. (new.places ≡ pref_goes old.pref old.script old.base gs)
        × IfSome new.places (λ t. (t.0 ≤ t.1) × (t.1 < length gs)) };

    #[inline]
    fn read(&mut self, syllable: &[hb_glyph_info_t]) {
        self.places = pref_goes(self.pref, self.script, self.base, syllable);
    }
}

// Where a glyph that `pref` formed goes, and its place.
#[inline]
fn pref_goes(
    pref: u32,
    script: Option<Script>,
    base: usize,
    glyphs: &[hb_glyph_info_t],
) -> Option<(usize, usize)>
    requires { base ≤ length glyphs.now }
    ensures places { result ≡ pref_goes pref script base glyphs.now }
    ensures in_order { IfSome result (λ t. (t.0 ≤ t.1) × (t.1 < length glyphs.now)) }
{
    let i = formed_pref(pref, base, glyphs)?;
    Some((pref_target(script, base, glyphs), i))
}

// Gives the left matras of the syllable from `start` to `end` their place: written at once, if one
// moves alone, and behind it nothing but a reph may, since no glyph has a bit of `forming`.
#[inline]
pub(super) fn place_matras(
    script: Option<Script>,
    base: usize,
    forming: u32,
    buffer: &mut hb_buffer_t,
    start: usize,
    end: usize,
) -> Placements
    requires in_order { start ≤ end }
    requires in_range { end ≤ length buffer.old.glyphs }
    requires in_syllable { base ≤ end - start }
    ensures glyphs { let new = arranged result start end buffer.new in
        let steps = matra_steps script base (stretch_of start end buffer.old.glyphs) in
        let wide = map (widened start end (length buffer.old.glyphs)) steps in
        new ≡ record buffer.old {
          glyphs = after_steps buffer.old.level wide buffer.old.glyphs;
          places = new.places;
        } }
    ensures fits { MayArrange result start end (length buffer.new.glyphs) buffer.new.places }
    ensures second { result.second ≡ Stays }
    ensures third { result.third ≡ Stays }
    ensures same_length { length buffer.new.glyphs ≡ length buffer.old.glyphs }
{
    if base == 0 || end - start < 2 {
        return Placements::STAY;
    }
    let base_end = end_of_base(base, &buffer.glyphs()[start..end]);
    let target = matra_target(script, base, &buffer.glyphs()[start..end]);
    if takes_matras(target, &buffer.glyphs()[start..end]) {
        let others = has_any(forming, &buffer.glyphs()[start..end]);
        gather_matras(target, base_end, others, buffer, start, end)
    } else {
        merge_matras(base, base_end, buffer, start, end);
        Placements::STAY
    }
}

// Whether some glyph has a bit of a mask.
#[inline]
fn has_any(bits: u32, glyphs: &[hb_glyph_info_t]) -> bool
    ensures { result ≡ list_any (has_bits bits) glyphs.now }
{
    glyphs.iter().any(|glyph| has_mask(bits, glyph))
}

// Merges the syllable from `start` to `end` from its first left matra before the base up to place
// `base_end`.
#[inline]
fn merge_matras(base: usize, base_end: usize, buffer: &mut hb_buffer_t, start: usize, end: usize)
    requires in_order { start ≤ end }
    requires in_range { end ≤ length buffer.old.glyphs }
    requires in_syllable { base ≤ end - start }
    requires end { base_end ≡ end_of_base base (stretch_of start end buffer.old.glyphs) }
    ensures glyphs { let steps = staying_steps base (stretch_of start end buffer.old.glyphs) in
        let wide = map (widened start end (length buffer.old.glyphs)) steps in
        buffer.new ≡ record buffer.old {
          glyphs = after_steps buffer.old.level wide buffer.old.glyphs;
          places = buffer.new.places;
        } }
    ensures same_length { length buffer.new.glyphs ≡ length buffer.old.glyphs }
{
    let first = first_left(base, &buffer.glyphs()[start..end]);
    if let Some(i) = first {
        buffer.merge_clusters(start + i, start + base_end);
    }
}

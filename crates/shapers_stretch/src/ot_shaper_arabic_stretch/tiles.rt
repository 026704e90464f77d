//! The second pass over a text whose marks stretch: from behind, in place, each sequence is laid
//! over its word. The writer never overtakes the reader.
ghost use Rattle.std.specs.Prelude.{◌≡◌, ◌≤◌, ◌<◌, ◌^◌, ◌+◌, ◌-◌, ◌≤ℤ◌, ◌++◌, [], ◌∷◌, pos, negsuc, true, length, replicate, reverse, take, drop};
ghost use Rattle.std.specs.List.{AllByRecursion, zip};
ghost use Rattle.shapers_buffer.specs.Clusters.{stretch_of};
ghost use Rattle.shapers_stretch.specs.Cells.{Cell, glyphs_of, positions_of};
ghost use Rattle.shapers_stretch.specs.CountingWalk.{IsNumber, stands_at};
ghost use Rattle.shapers_stretch.specs.LayingWalk.{CanLay, CanLaySequence, HasRoomForTiles, IsLaidFrom, IsUnlaid, Lays, copies_by, laying_by, sequence_copies, text_in_slices, stretched_whole};
ghost use Rattle.shapers_stretch.specs.Measure.{fits_i32};
ghost use Rattle.shapers_stretch.specs.Stretch.{Copy, copies, laid_sequence, measured, stretched, unbroken};

use super::counting::moved;
use super::measuring::{Lay, advance_of, lay_of_sequence};
use super::parts::{LastPart, last_part, repeats};
use shapers_base::buffer::{GlyphPosition, PositionedWalk, hb_glyph_info_t, unsafe_to_break_in};
use shapers_base::font::hb_font_t;
use shapers_base::plan::StretchStart;
use std::ops::Range;

/// How the tiles of a text are laid, over slices whose first `len` cells are the text in working
/// order, and which are just as long as the stretched text.
#[derive(Clone, Copy)]
pub(super) struct TileLaying<'a, F> {
    pub(super) font: &'a F,
    pub(super) choice: StretchStart,
    pub(super) right_to_left: bool,
    pub(super) len: usize,
}

impl<'a, F: hb_font_t> PositionedWalk for TileLaying<'a, F> {
    ghost use Rattle.std.specs.Prelude.{◌≡◌};
    ghost use Rattle.shapers_stretch.specs.Cells.{glyphs_of, positions_of};
    ghost use Rattle.shapers_stretch.specs.LayingWalk.{HasRoomForTiles, laying_by, text_in_slices};
    ghost use Rattle.shapers_stretch.specs.Stretch.{stretched};

    ghost can_walk = { λ w gs ps.
        HasRoomForTiles (laying_by (F.font w.font.now) w.choice w.right_to_left) gs ps w.len };

    ghost walks = { λ w gs ps hs qs.
        let how = laying_by (F.font w.font.now) w.choice w.right_to_left in
        let cs = stretched how (text_in_slices w.len gs ps) in
        (hs ≡ glyphs_of cs) × (qs ≡ positions_of cs) };

    #[inline]
    fn walk(&self, glyphs: &mut [hb_glyph_info_t], positions: &mut [GlyphPosition]) {
        self.lay_all(glyphs, positions);
    }
}

impl<'a, F: hb_font_t> TileLaying<'a, F> {
    // Stretches the text of the first `len` cells over the whole slices.
    #[inline]
    fn lay_all(&self, glyphs: &mut [hb_glyph_info_t], positions: &mut [GlyphPosition])
        requires { HasRoomForTiles
            (laying_by (F.font self.now.font.now) self.now.choice self.now.right_to_left)
            glyphs.old positions.old self.now.len }
        ensures glyphs { let how =
            laying_by (F.font self.now.font.now) self.now.choice self.now.right_to_left in
            glyphs.new ≡ glyphs_of (stretched how
            (text_in_slices self.now.len glyphs.old positions.old)) }
        ensures positions { let how =
            laying_by (F.font self.now.font.now) self.now.choice self.now.right_to_left in
            positions.new ≡ positions_of (stretched how
            (text_in_slices self.now.len glyphs.old positions.old)) }
    {
        let mut unlaid = Unlaid {
            end: self.len,
            place: glyphs.len(),
        };
        while 0 < unlaid.end {
            unlaid = self.lay_last(glyphs, positions, unlaid);
        }
    }

    // Lays the last part of the unlaid text: its sequence first, then what stands before it moves
    // up.
    #[inline]
    fn lay_last(
        &self,
        glyphs: &mut [hb_glyph_info_t],
        positions: &mut [GlyphPosition],
        unlaid: Unlaid,
    ) -> Unlaid
        requires some { 0 < unlaid.end }
        requires unlaid { IsUnlaid
            (laying_by (F.font self.now.font.now) self.now.choice self.now.right_to_left)
            glyphs.old positions.old unlaid.end unlaid.place }
        ensures laid { let how =
            laying_by (F.font self.now.font.now) self.now.choice self.now.right_to_left in
            let whole = stretched_whole how glyphs.old positions.old unlaid.end unlaid.place in
            IsLaidFrom how whole glyphs.new positions.new result.end result.place }
        ensures shorter { result.end < unlaid.end }
    {
        let part = last_part(&glyphs[..unlaid.end]);
        if part.tiles == unlaid.end {
            move_up(glyphs, positions, part.start, part.tiles, unlaid.place);
            return Unlaid {
                end: part.start,
                place: unlaid.place - (part.tiles - part.start),
            };
        }
        let place = self.lay_sequence(glyphs, positions, part, unlaid);
        move_up(glyphs, positions, part.start, part.tiles, place);
        Unlaid {
            end: part.start,
            place: place - (part.tiles - part.start),
        }
    }

    // Lays the sequence of the last part, and flags it and its word; where it then begins.
    fn lay_sequence(
        &self,
        glyphs: &mut [hb_glyph_info_t],
        positions: &mut [GlyphPosition],
        part: LastPart,
        unlaid: Unlaid,
    ) -> usize
        requires word { part.word ≤ part.tiles }
        requires sequence { let how =
            laying_by (F.font self.now.font.now) self.now.choice self.now.right_to_left in
            let old = zip glyphs.old positions.old in
            let word = stretch_of part.word part.tiles old in
            let tiles = stretch_of part.tiles unlaid.end old in
            CanLaySequence how word tiles part.tiles unlaid.end unlaid.place glyphs.old positions.old }
        ensures both { length glyphs.new ≡ length positions.new }
        ensures same_length { length glyphs.new ≡ length glyphs.old }
        ensures flagged { let old = zip glyphs.old positions.old in
            let word = stretch_of part.word part.tiles old in
            let whole = unbroken (word ++ stretch_of part.tiles unlaid.end old) in
            take part.tiles (zip glyphs.new positions.new) ≡ take part.word old
            ++ take (length word) whole }
        ensures laid { let how =
            laying_by (F.font self.now.font.now) self.now.choice self.now.right_to_left in
            let old = zip glyphs.old positions.old in
            let word = stretch_of part.word part.tiles old in
            let tiles = stretch_of part.tiles unlaid.end old in
            let z = measured how.font (positions_of word) (glyphs_of tiles) in
            let sequence = drop (length word) (unbroken (word ++ tiles)) in
            drop result (zip glyphs.new positions.new) ≡ reverse (laid_sequence how z sequence)
            ++ drop unlaid.place old }
        ensures place { let old = zip glyphs.old positions.old in
            let word = stretch_of part.word part.tiles old in
            let tiles = stretch_of part.tiles unlaid.end old in
            let z = measured (F.font self.now.font.now) (positions_of word) (glyphs_of tiles) in
            result + length (copies (F.font self.now.font.now) z tiles) ≡ unlaid.place }
    {
        let found = lay_of_sequence(
            self.font,
            self.choice,
            self.right_to_left,
            &positions[part.word..part.tiles],
            &glyphs[part.tiles..unlaid.end],
        );
        unsafe_to_break_in(glyphs, part.word, unlaid.end);
        match found {
            Some(lay) => {
                let pen = Pen {
                    at: lay.start,
                    place: unlaid.place,
                };
                let tiles = part.tiles..unlaid.end;
                self.lay_tiles(lay, glyphs, positions, tiles, pen).place
            }
            None => unreachable!("a sequence whose copies were counted has no lay"),
        }
    }

    // Lays these tiles, the last one first.
    #[inline]
    fn lay_tiles(
        &self,
        lay: Lay,
        glyphs: &mut [hb_glyph_info_t],
        positions: &mut [GlyphPosition],
        tiles: Range<usize>,
        pen: Pen,
    ) -> Pen
        requires overlap_low { pos 0 ≤ℤ lay.overlap }
        requires overlap_high { lay.overlap ≤ℤ pos (2 ^ 34) }
        requires near { IsNumber pen.at }
        requires in_order { tiles.start ≤ tiles.end }
        requires ahead { tiles.end ≤ pen.place }
        requires numbers { AllByRecursion (λ g. g.glyph_id ≤ 65535) (take tiles.end glyphs.old) }
        requires can { let cs = stretch_of tiles.start tiles.end (zip glyphs.old positions.old) in
            CanLay self.now.right_to_left (sequence_copies (F.font self.now.font.now) lay cs)
            pen glyphs.old positions.old }
        requires room { let cs = stretch_of tiles.start tiles.end (zip glyphs.old positions.old) in
            tiles.start + length (sequence_copies (F.font self.now.font.now) lay cs) ≤ pen.place }
        ensures both { length glyphs.new ≡ length positions.new }
        ensures same_length { length glyphs.new ≡ length glyphs.old }
        ensures lays { let old = zip glyphs.old positions.old in
            let laid =
            sequence_copies (F.font self.now.font.now) lay (stretch_of tiles.start tiles.end old) in
            Lays self.now.right_to_left laid pen result old (zip glyphs.new positions.new) }
    {
        let mut pen = pen;
        for i in (tiles.start..tiles.end).rev() {
            let tile = Tile {
                glyph: glyphs[i],
                position: positions[i],
            };
            pen = self.lay_tile(lay, glyphs, positions, tile, pen);
        }
        pen
    }

    // Lays a tile, and where it repeats the added copies of it.
    #[inline]
    fn lay_tile(
        &self,
        lay: Lay,
        glyphs: &mut [hb_glyph_info_t],
        positions: &mut [GlyphPosition],
        tile: Tile,
        pen: Pen,
    ) -> Pen
        requires overlap_low { pos 0 ≤ℤ lay.overlap }
        requires overlap_high { lay.overlap ≤ℤ pos (2 ^ 34) }
        requires near { IsNumber pen.at }
        requires number { tile.glyph.glyph_id ≤ 65535 }
        requires can { let cell : Cell = (tile.glyph, tile.position) in
            CanLay self.now.right_to_left (copies_by (F.font self.now.font.now) lay cell)
            pen glyphs.old positions.old }
        ensures both { length glyphs.new ≡ length positions.new }
        ensures same_length { length glyphs.new ≡ length glyphs.old }
        ensures near { IsNumber result.at }
        ensures lays { let cell : Cell = (tile.glyph, tile.position) in
            let laid = copies_by (F.font self.now.font.now) lay cell in
            Lays self.now.right_to_left laid pen result
            (zip glyphs.old positions.old) (zip glyphs.new positions.new) }
    {
        let width = i64::from(advance_of(self.font, &tile.glyph));
        let pen = lay_copies(self.right_to_left, width, 1, glyphs, positions, tile, pen);
        if !repeats(&tile.glyph) {
            return pen;
        }
        let step = width - lay.overlap;
        let added = lay.added;
        lay_copies(
            self.right_to_left,
            step,
            added,
            glyphs,
            positions,
            tile,
            pen,
        )
    }
}

// What is still to be laid: what the text before `end` becomes, over the places before `place`.
#[derive(Clone, Copy)]
struct Unlaid {
    end: usize,
    place: usize,
}

// Moves the cells from `start` to `end` up, so that they end at `place`.
#[inline]
fn move_up(
    glyphs: &mut [hb_glyph_info_t],
    positions: &mut [GlyphPosition],
    start: usize,
    end: usize,
    place: usize,
)
    requires in_order { start ≤ end }
    requires ahead { end ≤ place }
    requires within { place ≤ length glyphs.old }
    requires both { length glyphs.old ≡ length positions.old }
    ensures both { length glyphs.new ≡ length positions.new }
    ensures same_length { length glyphs.new ≡ length glyphs.old }
    ensures kept { let to = place - (end - start) in
        take to (zip glyphs.new positions.new) ≡ take to (zip glyphs.old positions.old) }
    ensures up { let to = place - (end - start) in
        let old = zip glyphs.old positions.old in
        drop to (zip glyphs.new positions.new) ≡ stretch_of start end old ++ drop place old }
{
    if end < place {
        let to = place - (end - start);
        glyphs.copy_within(start..end, to);
        positions.copy_within(start..end, to);
    }
}

// Where the pen is, and the place before which the next copy is laid.
#[derive(Clone, Copy)]
struct Pen {
    at: i64,
    place: usize,
}

// A tile with its position.
#[derive(Clone, Copy)]
struct Tile {
    glyph: hb_glyph_info_t,
    position: GlyphPosition,
}

// Lays so many copies of a tile that each move the pen so far.
#[inline]
fn lay_copies(
    right_to_left: bool,
    step: i64,
    count: usize,
    glyphs: &mut [hb_glyph_info_t],
    positions: &mut [GlyphPosition],
    tile: Tile,
    pen: Pen,
) -> Pen
    requires step_low { negsuc (2 ^ 36) ≤ℤ step }
    requires step_high { step ≤ℤ pos (2 ^ 36) }
    requires near { IsNumber pen.at }
    requires can { let cell : Cell = (tile.glyph, tile.position) in
        let copy : Copy = record { tile = cell; move = step } in
        CanLay right_to_left (replicate count copy) pen glyphs.old positions.old }
    ensures both { length glyphs.new ≡ length positions.new }
    ensures same_length { length glyphs.new ≡ length glyphs.old }
    ensures near { IsNumber result.at }
    ensures lays { let cell : Cell = (tile.glyph, tile.position) in
        let copy : Copy = record { tile = cell; move = step } in
        Lays right_to_left (replicate count copy) pen result
        (zip glyphs.old positions.old) (zip glyphs.new positions.new) }
{
    let mut pen = pen;
    for _ in 0..count {
        pen = lay_copy(right_to_left, step, glyphs, positions, tile, pen);
    }
    pen
}

// Lays one copy of a tile.
#[inline]
fn lay_copy(
    right_to_left: bool,
    step: i64,
    glyphs: &mut [hb_glyph_info_t],
    positions: &mut [GlyphPosition],
    tile: Tile,
    pen: Pen,
) -> Pen
    requires step_low { negsuc (2 ^ 36) ≤ℤ step }
    requires step_high { step ≤ℤ pos (2 ^ 36) }
    requires near { IsNumber pen.at }
    requires can { let cell : Cell = (tile.glyph, tile.position) in
        let copy : Copy = record { tile = cell; move = step } in
        CanLay right_to_left (copy ∷ []) pen glyphs.old positions.old }
    ensures both { length glyphs.new ≡ length positions.new }
    ensures same_length { length glyphs.new ≡ length glyphs.old }
    ensures near { IsNumber result.at }
    ensures lays { let cell : Cell = (tile.glyph, tile.position) in
        let copy : Copy = record { tile = cell; move = step } in
        Lays right_to_left (copy ∷ []) pen result
        (zip glyphs.old positions.old) (zip glyphs.new positions.new) }
{
    let place = pen.place - 1;
    glyphs[place] = tile.glyph;
    let mut position = tile.position;
    position.x_advance = 0;
    position.x_offset = offset_of(right_to_left, pen.at, step);
    positions[place] = position;
    Pen {
        at: moved(right_to_left, pen.at, step),
        place,
    }
}

// Where a copy stands.
#[inline]
fn offset_of(right_to_left: bool, at: i64, step: i64) -> i32
    requires step_low { negsuc (2 ^ 36) ≤ℤ step }
    requires step_high { step ≤ℤ pos (2 ^ 36) }
    requires near { IsNumber at }
    requires fits { fits_i32 (stands_at right_to_left at step) ≡ true }
    ensures { result ≡ stands_at right_to_left at step }
{
    let offset = if right_to_left { at - step } else { at };
    i32::try_from(offset).unwrap()
}

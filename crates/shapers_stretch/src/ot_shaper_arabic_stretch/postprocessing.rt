//! The hook behind positioning: marks stretch over the words before them.
ghost use Rattle.std.specs.Prelude.{◌≡◌, ◌≤◌, ◌+◌, All, Err, IsOk, OnErr, OnOk, false, true, length, reverse};
ghost use Rattle.shapers_buffer.specs.Buffer.{grown};
ghost use Rattle.shapers_buffer.specs.Refusals.{Refuses, RefusesLength};
ghost use Rattle.shapers_arabic.specs.PlanData.{IsArabic};
ghost use Rattle.shapers_stretch.specs.CountingWalk.{text_refusal};
ghost use Rattle.shapers_stretch.specs.LayingWalk.{laying_by};
ghost use Rattle.shapers_stretch.specs.Recorded.{start_of};
ghost use Rattle.shapers_stretch.specs.Stretch.{cells, copies_in, marks_stretched, stretch_refusal, stretched, with_cells};
ghost use Rattle.shapers_stretch.specs.StretchLaws.{AreCopies, IsLaidOver};

use super::counting::count_added;
use super::tiles::TileLaying;
use shapers_base::buffer::{Direction, ShaperError, hb_buffer_t};
use shapers_base::font::hb_font_t;
use shapers_base::plan::{PlanData, StretchStart, hb_ot_shape_plan_t};
use std::mem;

/// Stretches marks: where the buffer is marked to have some, the tiles of each sequence of them are
/// laid, and laid again, over the word before it, and no break is left inside. Refuses with
/// `StretchOverflow` where a number of a sequence doesn't fit 32 bits, and then as a growth to the
/// length of the result does: longer by the copies that are added. What is laid is as wide as
/// `widths_law` says. (OpenType `stch`.)
#[inline]
pub fn postprocess_glyphs<F: hb_font_t>(
    plan: &hb_ot_shape_plan_t,
    face: &F,
    buffer: &mut hb_buffer_t,
) -> Result<(), ShaperError>
    requires kind { IsArabic plan.now.plan_data }
    requires positions { length buffer.old.positions ≡ length buffer.old.glyphs }
    requires numbers { All (λ g. g.glyph_id ≤ 65535) buffer.old.glyphs }
    ensures ok { OnOk result (buffer.new ≡ marks_stretched (F.font face.now)
        (start_of plan.now.plan_data) buffer.old) }
    ensures refusal { let choice = start_of plan.now.plan_data in
        let after = marks_stretched (F.font face.now) choice buffer.old in
        Refuses (stretch_refusal (F.font face.now) choice buffer.old) buffer.old.max_len
        (length after.glyphs) result }
    ensures longer { let added = copies_in (F.font face.now) buffer.old in
        OnOk result (length buffer.new.glyphs ≡ length buffer.old.glyphs + added) }
    ensures copies { OnOk result (AreCopies buffer.old.glyphs buffer.new.glyphs) }
    ensures widths { let choice = start_of plan.now.plan_data in
        OnOk result (IsLaidOver (F.font face.now) choice buffer.old buffer.new) }
    ensures err { OnErr result (buffer.new ≡ buffer.old) }
    ensures unmarked { buffer.old.stch ≡ false → IsOk result }
{
    match &plan.plan_data {
        PlanData::Arabic(arabic_plan) => stretch_marks(face, arabic_plan.stretch_start, buffer),
        _ => unreachable!("the plan has no data of the Arabic shaper"),
    }
}

// The same, where stretches begin so.
#[inline]
fn stretch_marks<F: hb_font_t>(
    font: &F,
    choice: StretchStart,
    buffer: &mut hb_buffer_t,
) -> Result<(), ShaperError>
    requires positions { length buffer.old.positions ≡ length buffer.old.glyphs }
    requires numbers { All (λ g. g.glyph_id ≤ 65535) buffer.old.glyphs }
    ensures ok { OnOk result (buffer.new ≡ marks_stretched (F.font font.now) choice buffer.old) }
    ensures refusal { let after = marks_stretched (F.font font.now) choice buffer.old in
        Refuses (stretch_refusal (F.font font.now) choice buffer.old) buffer.old.max_len
        (length after.glyphs) result }
    ensures err { OnErr result (buffer.new ≡ buffer.old) }
    ensures unmarked { buffer.old.stch ≡ false → IsOk result }
{
    prove!(buffer.len() <= buffer.max_len());
    if !buffer.has_stch() {
        return Ok(());
    }
    stretch_apart(font, choice, buffer)
}

// Stretches a text that has tiles apart from the buffer: a font that panics leaves that empty, and
// none that is reversed or half laid. (Texts without tiles should have a short way past this.)
#[inline(never)]
fn stretch_apart<F: hb_font_t>(
    font: &F,
    choice: StretchStart,
    buffer: &mut hb_buffer_t,
) -> Result<(), ShaperError>
    requires marked { buffer.old.stch ≡ true }
    requires positions { length buffer.old.positions ≡ length buffer.old.glyphs }
    requires numbers { All (λ g. g.glyph_id ≤ 65535) buffer.old.glyphs }
    ensures ok { OnOk result (buffer.new ≡ marks_stretched (F.font font.now) choice buffer.old) }
    ensures refusal { let after = marks_stretched (F.font font.now) choice buffer.old in
        Refuses (stretch_refusal (F.font font.now) choice buffer.old) buffer.old.max_len
        (length after.glyphs) result }
    ensures err { OnErr result (buffer.new ≡ buffer.old) }
{
    let empty = hb_buffer_t::new(buffer.alloc(), buffer.max_len());
    let mut text = mem::replace(buffer, empty);
    let result = stretch_in_order(font, choice, &mut text);
    *buffer = text;
    result
}

// Stretches a text that has tiles, in working order: from right to left it stands in it.
#[inline]
fn stretch_in_order<F: hb_font_t>(
    font: &F,
    choice: StretchStart,
    buffer: &mut hb_buffer_t,
) -> Result<(), ShaperError>
    requires marked { buffer.old.stch ≡ true }
    requires positions { length buffer.old.positions ≡ length buffer.old.glyphs }
    requires numbers { All (λ g. g.glyph_id ≤ 65535) buffer.old.glyphs }
    ensures ok { OnOk result (buffer.new ≡ marks_stretched (F.font font.now) choice buffer.old) }
    ensures refusal { let after = marks_stretched (F.font font.now) choice buffer.old in
        Refuses (stretch_refusal (F.font font.now) choice buffer.old) buffer.old.max_len
        (length after.glyphs) result }
    ensures err { OnErr result (buffer.new ≡ buffer.old) }
{
    match buffer.direction() {
        Direction::RightToLeft => stretch_text(font, choice, true, buffer),
        _ => stretch_backwards(font, choice, buffer),
    }
}

// Stretches a text that is in working order backwards.
#[inline]
fn stretch_backwards<F: hb_font_t>(
    font: &F,
    choice: StretchStart,
    buffer: &mut hb_buffer_t,
) -> Result<(), ShaperError>
    requires positions { length buffer.old.positions ≡ length buffer.old.glyphs }
    requires numbers { All (λ g. g.glyph_id ≤ 65535) buffer.old.glyphs }
    ensures ok { let how = laying_by (F.font font.now) choice false in
        OnOk result (buffer.new ≡ with_cells (reverse (stretched how
        (reverse (cells buffer.old)))) buffer.old) }
    ensures refusal { let how = laying_by (F.font font.now) choice false in
        let cs = reverse (cells buffer.old) in
        Refuses (text_refusal how cs) buffer.old.max_len (length (stretched how cs)) result }
    ensures err { OnErr result (buffer.new ≡ buffer.old) }
{
    buffer.reverse();
    let result = stretch_text(font, choice, false, buffer);
    buffer.reverse();
    result
}

// Stretches a text that stands in working order: all room is made before anything is written.
fn stretch_text<F: hb_font_t>(
    font: &F,
    choice: StretchStart,
    right_to_left: bool,
    buffer: &mut hb_buffer_t,
) -> Result<(), ShaperError>
    requires positions { length buffer.old.positions ≡ length buffer.old.glyphs }
    requires numbers { All (λ g. g.glyph_id ≤ 65535) buffer.old.glyphs }
    ensures ok { let how = laying_by (F.font font.now) choice right_to_left in
        OnOk result (buffer.new ≡ with_cells (stretched how (cells buffer.old)) buffer.old) }
    ensures refusal { let how = laying_by (F.font font.now) choice right_to_left in
        let cs = cells buffer.old in
        Refuses (text_refusal how cs) buffer.old.max_len (length (stretched how cs)) result }
    ensures err { OnErr result (buffer.new ≡ buffer.old) }
{
    let len = buffer.len();
    let glyphs = buffer.glyphs();
    let positions = buffer.positions();
    let Some(added) = count_added(font, choice, right_to_left, glyphs, positions) else {
        return Err(ShaperError::StretchOverflow);
    };
    match make_room(buffer, added) {
        Ok(()) => {
            buffer.walk_positioned(&TileLaying {
                font,
                choice,
                right_to_left,
                len,
            });
            Ok(())
        }
        Err(refusal) => Err(refusal),
    }
}

// Makes room for so many glyphs more.
#[inline]
fn make_room(buffer: &mut hb_buffer_t, added: u128) -> Result<(), ShaperError>
    ensures ok { OnOk result (buffer.new ≡ grown added buffer.old) }
    ensures length { RefusesLength buffer.old.max_len (length buffer.old.glyphs + added) result }
    ensures err { OnErr result (buffer.new ≡ buffer.old) }
{
    let room = buffer.max_len() - buffer.len();
    if (room as u128) < added {
        return Err(ShaperError::TooLong);
    }
    buffer.grow(added as usize)
}

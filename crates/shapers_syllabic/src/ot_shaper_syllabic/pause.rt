//! A reordering pause: dotted circles, and then the order of each syllable.
ghost use Rattle.std.specs.Prelude.{◌≡◌, [], false, IfOk, IsOk, OnErr, OnOk, is_some, length, None};
ghost use Rattle.shapers_buffer.specs.Refusals.{Refuses};
ghost use Rattle.shapers_syllabic.specs.CircleLaws.{NoNewCluster};
ghost use Rattle.shapers_syllabic.specs.Circles.{circled};
ghost use Rattle.shapers_syllabic.specs.Reordering.{PauseLinked, PauseReordered, TakesText, script_circles, first_unknown, kind_refusal};
ghost use Rattle.shapers_syllabic.specs.ReorderingLaws.{PauseCutsAtBorders, TextReordered};

use super::circles::ScriptCircles;
use super::reordering::{ReorderBySteps, reorder_syllables_by_steps};
use shapers_base::buffer::{ShaperError, hb_buffer_t};
use shapers_base::font::hb_font_t;

/// Gives broken syllables their dotted circles and then reorders each syllable. Returns whether
/// circles were wanted. Refuses with `UnknownSyllable` where a kind is above the last known one, if
/// there is one; with `TooLong`; and with `Memory`, but not where no circle is put in and the order
/// never refuses. After a refusal the buffer is as it was, unless it is the order's. Every cluster
/// afterwards is one that the text had before its circles.
#[inline]
pub fn reorder_pause<F: hb_font_t, R: ReorderBySteps>(
    face: &F,
    order: &R,
    script: &ScriptCircles,
    last_kind: Option<u8>,
    buffer: &mut hb_buffer_t,
) -> Result<bool, ShaperError>
    requires without_positions { buffer.old.positions ≡ [] }
    requires takes { let circles = script_circles script.now (F.font face.now) buffer.old in
        TakesText (R.takes order.now) (circled circles buffer.old.glyphs) }
    ensures answer { let circles = script_circles script.now (F.font face.now) buffer.old in
        IfOk result (λ answer. answer ≡ is_some circles) }
    ensures ok { let circles = script_circles script.now (F.font face.now) buffer.old in
        OnOk result (PauseReordered circles
        (R.meaning order.now buffer.old.script) (R.steps order.now buffer.old.script)
        buffer.old buffer.new) }
    ensures linked { let circles = script_circles script.now (F.font face.now) buffer.old in
        OnOk result (PauseLinked circles (R.relation order.now) buffer.old buffer.new) }
    ensures cut { let circles = script_circles script.now (F.font face.now) buffer.old in
        OnOk result (PauseCutsAtBorders circles
        (R.meaning order.now buffer.old.script) (R.steps order.now buffer.old.script)
        buffer.old buffer.new) }
    ensures laws { let circles = script_circles script.now (F.font face.now) buffer.old in
        let opened = record buffer.old { glyphs = circled circles buffer.old.glyphs } in
        OnOk result (TextReordered (R.steps order.now buffer.old.script) opened buffer.new) }
    ensures clusters { OnOk result (NoNewCluster buffer.old.glyphs buffer.new.glyphs) }
    ensures refusal { let circles = script_circles script.now (F.font face.now) buffer.old in
        Refuses (kind_refusal last_kind buffer.old.glyphs)
        buffer.old.max_len (length (circled circles buffer.old.glyphs)) result }
    ensures err { R.may_refuse order.now ≡ false → OnErr result (buffer.new ≡ buffer.old) }
    ensures without_memory { let circles = script_circles script.now (F.font face.now) buffer.old in
        R.may_refuse order.now ≡ false → kind_refusal last_kind buffer.old.glyphs ≡ None →
        circled circles buffer.old.glyphs ≡ buffer.old.glyphs → IsOk result }
{
    if let Some(place) = first_unknown(buffer, last_kind) {
        return Err(ShaperError::UnknownSyllable(place));
    }
    let circles = script.insert(face, buffer)?;
    reorder_syllables_by_steps(order, buffer)?;
    Ok(circles)
}

// The first place of the first syllable of unknown kind, where there is a last known one.
#[inline]
fn first_unknown(buffer: &hb_buffer_t, last_kind: Option<u8>) -> Option<usize>
    ensures { result ≡ first_unknown last_kind buffer.now.glyphs }
{
    match last_kind {
        None => None,
        Some(last_kind) => buffer.unknown_syllable(last_kind),
    }
}

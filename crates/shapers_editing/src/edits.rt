//! What is shaped again where a stretch of a text is replaced.
ghost use Rattle.std.specs.Prelude.{◌≡◌, ◌<◌, ◌≤◌, length, reverse, slice_get, IfOk, IsOkUnless, Some};
ghost use Rattle.shapers_buffer.specs.declared.buffer.refusal.ShaperError.TheVariants.{Memory};
ghost use Rattle.shapers_editing.specs.Affected.{SharedAreApart, SharedIsMost, glyphs_in, shared, from_either_end};
ghost use Rattle.shapers_editing.specs.EditedTexts.{IsUnaffected, UnaffectedIsShared, with_edit};
ghost use Rattle.shapers_editing.specs.EditedSyllables.{EditsStayOutside, IndicStaysOutside, PausesStayOutside, UniversalStaysOutside};
ghost use Rattle.shapers_editing.specs.SpanEdits.{OneCut, SpansBehindStay, SpansInFrontStay};
ghost use Rattle.shapers_base.specs.declared.plan.pause.Pause.TheVariants.{SetupSyllablesIndic, SetupSyllablesKhmer, SetupSyllablesMyanmar, InitialReordering, ReorderKhmer, ReorderMyanmar};
ghost use Rattle.rustybuzz_shapers.specs.Pauses.{by_initial, by_khmer, by_myanmar};

use rustybuzz_shapers::shaper::cuts_at_borders_law;
use shapers_buffer::buffer::{ShaperError, Span, hb_glyph_info_t};
use shapers_spans::{Machine, spans_of};
use std::alloc::Global;

/// An edit of a text: glyphs in the place of a stretch of it.
#[derive(Clone, Copy, Debug)]
pub struct Edit<'a> {
    /// Where the stretch that goes begins.
    pub start: usize,
    /// Where it ends: at most the text's length, and no less than `start`.
    pub end: usize,
    /// The glyphs in its place.
    pub glyphs: &'a [hb_glyph_info_t],
}

/// What an edit leaves of a text of syllables: the glyphs in front and behind that come out as
/// before. What lies between them, of the old text and of the new, is what is shaped again.
#[derive(Clone, Copy, Debug, PartialEq, Eq)]
pub struct Unaffected {
    /// How many glyphs in front.
    pub front: usize,
    /// How many glyphs behind.
    pub back: usize,
}

/// Which glyphs of a text an edit affects, where the machine of a grammar finds its syllables: those
/// between what this returns. Glyphs have the categories that set-up gives them.
///
/// The syllables that meet the edit aren't enough, since a grammar reads on through joiners: of
/// Khmer `1780 200C` are two syllables, and with `17B7` behind them one.
///
/// # Errors
///
/// `Memory`.
///
/// # Panics
///
/// If the stretch begins or ends behind the text.
pub fn affected<M: Machine>(
    machine: &M,
    text: &[hb_glyph_info_t],
    edit: &Edit,
    alloc: Global,
) -> Result<Unaffected, ShaperError>
    requires in_order { edit.now.start ≤ edit.now.end }
    requires in_range { edit.now.end ≤ length text.now }
    ensures left { let g = M.grammar machine.now in
        IfOk result (λ left. IsUnaffected g text.now edit.now left) }
    ensures refusal { IsOkUnless result Memory }
{
    let old = spans_of(machine, text, alloc)?;
    let glyphs = edited_text(text, edit, alloc)?;
    let new = spans_of(machine, glyphs.as_slice(), alloc)?;
    let back = text.len() - edit.end;
    Ok(affected_spans(old.as_slice(), new.as_slice(), edit.start, back))
}

// The text with the edit.
fn edited_text(
    text: &[hb_glyph_info_t],
    edit: &Edit,
    alloc: Global,
) -> Result<Vec<hb_glyph_info_t>, ShaperError>
    requires in_order { edit.now.start ≤ edit.now.end }
    requires in_range { edit.now.end ≤ length text.now }
    ensures text { IfOk result (λ glyphs. glyphs.items ≡ with_edit edit.now text.now) }
    ensures refusal { IsOkUnless result Memory }
{
    let mut glyphs = Vec::new(alloc);
    glyphs.extend_from_slice(&text[..edit.start])?;
    glyphs.extend_from_slice(edit.glyphs)?;
    glyphs.extend_from_slice(&text[edit.end..])?;
    Ok(glyphs)
}

/// The same by the spans of the text before and after the edit, for a caller who has them; `front`
/// glyphs stand in front of what was replaced and `back` behind it, the same in both texts, so
/// together no more than either has.
pub fn affected_spans(old: &[Span], new: &[Span], front: usize, back: usize) -> Unaffected
    ensures front { result.front ≡ glyphs_in (shared front old.now new.now) }
    ensures back { result.back ≡ glyphs_in (shared back (reverse old.now) (reverse new.now)) }
{
    Unaffected {
        front: shared_len(old, new, front, false),
        back: shared_len(old, new, back, true),
    }
}

// How many glyphs the spans cover that the lists share, at their starts or at their ends, as long
// as that is at most `room`.
fn shared_len(old: &[Span], new: &[Span], room: usize, from_end: bool) -> usize
    ensures { result ≡ glyphs_in (shared room
        (from_either_end from_end old.now) (from_either_end from_end new.now)) }
{
    let mut left = room;
    for k in 0..old.len().min(new.len()) {
        let span = span_at(old, k, from_end);
        let other = span_at(new, k, from_end);
        if span.len != other.len || span.kind != other.kind || span.len > left {
            return room - left;
        }
        left -= span.len;
    }
    room - left
}

// The span at a place, counted from the start or from the end.
fn span_at(spans: &[Span], k: usize, from_end: bool) -> Span
    requires { k < length spans.now }
    ensures { slice_get (from_either_end from_end spans.now) k ≡ Some result }
{
    if from_end {
        spans[spans.len() - 1 - k]
    } else {
        spans[k]
    }
}

/// The spans that two lists share in front, or behind, are the most that cover no more glyphs than
/// the texts share there; and those in front and those behind are apart. So what an edit doesn't
/// affect are parts of both texts, with their spans, of which `syllable_edits_law` speaks.
pub fn affected_law()
    ensures most { SharedIsMost }
    ensures apart { SharedAreApart }
    ensures parts { UnaffectedIsShared }
{}

/// Spans of a text that is edited. In front of the edit those stay with each of which the grammar
/// is done before it; behind the edit all stay from the first border on that both texts have.
pub fn span_edits_law()
    ensures front { SpansInFrontStay }
    ensures back { SpansBehindStay }
    ensures one { OneCut }
{}

/// Texts of syllables that differ in their middle part alone, each set up by its spans and
/// reordered directly behind that, where both open circles or neither does: outside that part they
/// come out the same, in the order view, and where parts share no cluster in the clusters.
pub fn syllable_edits_law()
    ensures any { EditsStayOutside }
    ensures khmer { PausesStayOutside SetupSyllablesKhmer ReorderKhmer by_khmer }
    ensures myanmar { PausesStayOutside SetupSyllablesMyanmar ReorderMyanmar (λ plan. by_myanmar) }
    ensures universal { UniversalStaysOutside }
    ensures initial { PausesStayOutside SetupSyllablesIndic InitialReordering by_initial }
    ensures both { IndicStaysOutside }
{
    cuts_at_borders_law();
}

//! How an editor finds what an edit of a word leaves, and what it reads in the laws of edits.
ghost use Rattle.std.specs.Prelude.{◌≡◌, ◌≤◌, List, ◌++◌, length, ◌↔◌, IfOk, IfSome, IsOkUnless, IsTrue};
ghost use Rattle.shapers_buffer.specs.declared.buffer.refusal.ShaperError.TheVariants.{Memory};
ghost use Rattle.shapers_buffer.specs.declared.buffer.syllables.Span.{Span};
ghost use Rattle.shapers_bench.specs.EditedKhmer.{KhmerReordered, SameAround};
ghost use Rattle.shapers_editing.specs.EditedSyllables.{AlikeAtEnds};
ghost use Rattle.shapers_editing.specs.EditedTexts.{SharesParts, with_edit};
ghost use Rattle.shapers_spans.specs.Cuts.{AreSpansOf};
ghost use Rattle.shapers_spans.specs.Khmer.{khmer_grammar};

use crate::calling::plain_plan;
use rustybuzz_shapers::shaper::checked::{CallError, checked_run_pause_found};
use rustybuzz_shapers::shaper::{KHMER_SHAPER, Pause};
use shapers_base::buffer::{Script, ShaperError, hb_buffer_t, hb_glyph_info_t};
use shapers_base::font::hb_font_t;
use shapers_base::plan::hb_ot_shape_plan_t;
use shapers_editing::{
    Edit, Unaffected, affected, affected_law, span_edits_law, syllable_edits_law,
};
use shapers_spans::Khmer;
use std::alloc::Global;

/// What an edit leaves of a text of glyphs with Khmer's categories: how many glyphs at its front, and
/// how many at its back. Both texts have these glyphs, and the same syllables among them.
///
/// # Errors
///
/// `Memory`.
pub fn khmer_unaffected(
    text: &[hb_glyph_info_t],
    edit: &Edit,
    alloc: Global,
) -> Result<Unaffected, ShaperError>
    requires in_order { edit.now.start ≤ edit.now.end }
    requires in_range { edit.now.end ≤ length text.now }
    ensures ends { let edited = with_edit edit.now text.now in
        IfOk result (λ left. AlikeAtEnds left.front left.back text.now edited) }
    ensures parts { let edited = with_edit edit.now text.now in
        IfOk result (λ left. (old new : List Span) → AreSpansOf khmer_grammar text.now old →
        AreSpansOf khmer_grammar edited new → SharesParts text.now edited old new left) }
    ensures refusal { IsOkUnless result Memory }
{
    affected_law();
    span_edits_law();
    affected(&Khmer, text, edit, alloc)
}

/// Glyphs with Khmer's categories, reordered before and after an edit.
#[derive(Drop)]
pub struct ReorderedTexts {
    /// What the edit leaves of the text.
    pub left: Unaffected,
    /// The text before the edit.
    pub old: hb_buffer_t,
    /// The text with it.
    pub new: hb_buffer_t,
}

/// Reorders glyphs with Khmer's categories before and after an edit. Around what the edit affects
/// both come out the same. None where one of them wants dotted circles and the other doesn't, since
/// then they are reordered by different rules. Refuses as reorderings do.
pub fn khmer_reordered_around<F: hb_font_t>(
    alloc: Global,
    face: &F,
    text: &[hb_glyph_info_t],
    edit: &Edit,
) -> Result<Option<ReorderedTexts>, CallError>
    requires in_order { edit.now.start ≤ edit.now.end }
    requires in_range { edit.now.end ≤ length text.now }
    ensures { let edited = with_edit edit.now text.now in
        IfOk result (λ made. IfSome made (λ texts.
        SameAround texts.left text.now edited texts.old.glyphs texts.new.glyphs)) }
{
    let left = affected(&Khmer, text, edit, alloc)?;
    let plan = KHMER_SHAPER.with_data(plain_plan(alloc, Script(*b"Khmr")));
    let (old, circled) = reordered(alloc, &plan, face, glyphs_of(&[], &[], text, alloc)?)?;
    let edited = edited_glyphs(text, edit, alloc)?;
    let (new, circled_too) = reordered(alloc, &plan, face, edited)?;
    if !are_alike(circled, circled_too) {
        return Ok(None);
    }
    affected_law();
    span_edits_law();
    syllable_edits_law();
    Ok(Some(ReorderedTexts { left, old, new }))
}

// Whether both are wanted, or neither.
fn are_alike(first: bool, second: bool) -> bool
    ensures { IsTrue result ↔ first ≡ second }
{
    first == second
}

// The text with the edit.
fn edited_glyphs(
    text: &[hb_glyph_info_t],
    edit: &Edit,
    alloc: Global,
) -> Result<Vec<hb_glyph_info_t>, ShaperError>
    requires in_order { edit.now.start ≤ edit.now.end }
    requires in_range { edit.now.end ≤ length text.now }
    ensures { IfOk result (λ glyphs. glyphs.items ≡ with_edit edit.now text.now) }
{
    let front = &text[..edit.start];
    let back = &text[edit.end..];
    let glyphs = glyphs_of(front, edit.glyphs, back, alloc)?;
    Ok(glyphs)
}

// Three stretches of glyphs, one behind another.
fn glyphs_of(
    front: &[hb_glyph_info_t],
    middle: &[hb_glyph_info_t],
    back: &[hb_glyph_info_t],
    alloc: Global,
) -> Result<Vec<hb_glyph_info_t>, ShaperError>
    ensures { IfOk result (λ glyphs. glyphs.items ≡ front.now ++ (middle.now ++ back.now)) }
{
    let mut glyphs = Vec::new(alloc);
    glyphs.extend_from_slice(front)?;
    glyphs.extend_from_slice(middle)?;
    glyphs.extend_from_slice(back)?;
    Ok(glyphs)
}

// Finds the syllables of glyphs with Khmer's categories, reorders them, and tells whether dotted
// circles were wanted.
fn reordered<F: hb_font_t>(
    alloc: Global,
    plan: &hb_ot_shape_plan_t,
    face: &F,
    glyphs: Vec<hb_glyph_info_t>,
) -> Result<(hb_buffer_t, bool), CallError>
    ensures { let font = F.font face.now in
        IfOk result (λ made. KhmerReordered plan.now font glyphs.items made.0 made.1) }
{
    let mut buffer = hb_buffer_t::new(alloc, usize::MAX);
    buffer.replace_glyphs(glyphs)?;
    checked_run_pause_found(Pause::SetupSyllablesKhmer, plan, face, &mut buffer)?;
    let circled = checked_run_pause_found(Pause::ReorderKhmer, plan, face, &mut buffer)?;
    Ok((buffer, circled))
}

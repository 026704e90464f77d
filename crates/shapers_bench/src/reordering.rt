//! How a pipeline calls two pauses, one after the other, and what it reads in their contract.
ghost use Rattle.std.specs.Prelude.{◌<◌, ◌≤◌, All, IfOk, length};
ghost use Rattle.rustybuzz_shapers.specs.buffer.Glyph.{clusters};

use crate::calling::{buffer_of, plain_plan};
use rustybuzz_shapers::buffer::{Script, ShaperError, Span, hb_buffer_t};
use rustybuzz_shapers::font::hb_font_t;
use rustybuzz_shapers::shaper::{KHMER_SHAPER, Pause, run_pause};
use std::alloc::Global;

/// A text of Khmer, cut into these syllables and reordered, for a font without features. Each glyph
/// of it leads back to the text: its cluster is the place of a character. Refuses where the spans
/// don't cover the text, where a kind of syllable is unknown, and as growths do.
pub fn khmer_glyphs<F: hb_font_t>(
    alloc: Global,
    face: &F,
    text: &[char],
    spans: &[Span],
) -> Result<hb_buffer_t, ShaperError>
    requires { All (λ span. span.kind ≤ 15) spans.now }
    ensures { IfOk result (λ buffer. All (λ cluster. cluster < length text.now)
        (clusters buffer.glyphs)) }
{
    let plan = KHMER_SHAPER.with_data(plain_plan(alloc, Script(*b"Khmr")));
    let mut buffer = buffer_of(alloc, text)?;
    run_pause(Pause::SetupSyllablesKhmer, &plan, face, spans, &mut buffer)?;
    run_pause(Pause::ReorderKhmer, &plan, face, spans, &mut buffer)?;
    Ok(buffer)
}

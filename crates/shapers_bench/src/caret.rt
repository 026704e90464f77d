//! How a terminal finds where a caret may stand in a word, and what it reads in the contracts.
ghost use Rattle.std.specs.Prelude.{◌≡◌, ◌≢◌, ◌<◌, ◌≤◌, [], ℕ, List, All, IfOk, IsOkUnless, length};
ghost use Rattle.shapers_buffer.specs.Glyph.{clusters};
ghost use Rattle.shapers_buffer.specs.declared.buffer.refusal.ShaperError.TheVariants.{Memory};
ghost use Rattle.shapers_bench.specs.Words.{word_in};
ghost use Rattle.shapers_editing.specs.Carets.{IsCaretMap};

use crate::calling::plain_plan;
use rustybuzz_shapers::buffer::{
    Direction, Script, ShaperError, Span, hb_buffer_t, hb_glyph_info_t,
};
use rustybuzz_shapers::font::hb_font_t;
use rustybuzz_shapers::shaper::{KHMER_SHAPER, Pause, run_pause};
use shapers_editing::{caret_law, caret_stops};
use std::alloc::Global;

// The bit of a mask that each glyph of a text has.
pub(crate) const EVERY_GLYPH: u32 = 0x8000_0000;

/// The places in a word of Khmer, cut into these syllables, where a caret may stand besides its
/// end, for a font without features. They map the word up to its end: they rise, and each glyph
/// stands for one of the intervals between them. There is room for the glyphs, so that it refuses
/// where the spans don't cover the word, where a kind of syllable is unknown, and with `Memory`.
pub fn khmer_carets<F: hb_font_t>(
    alloc: Global,
    face: &F,
    word: &[char],
    spans: &[Span],
) -> Result<Vec<u32>, ShaperError>
    requires kinds { All (λ span. span.kind ≤ 15) spans.now }
    requires short { length word.now < 2147483648 }
    ensures map { IfOk result (λ stops. (cs : List ℕ) × (All (λ c. c < length word.now) cs
        × IsCaretMap (length word.now) cs stops.items)) }
    ensures room { result ≢ Err ShaperError.TooLong }
{
    let plan = KHMER_SHAPER.with_data(plain_plan(alloc, Script(*b"Khmr")));
    let mut buffer = buffer_with_room(alloc, word, KHMER_SHAPER.length_bound(word.len()))?;
    run_pause(Pause::SetupSyllablesKhmer, &plan, face, spans, &mut buffer)?;
    run_pause(Pause::ReorderKhmer, &plan, face, spans, &mut buffer)?;
    let mut stops = Vec::new(alloc);
    caret_stops(buffer.glyphs(), Direction::LeftToRight, &mut stops)?;
    caret_law();
    Ok(stops)
}

// A buffer with a glyph for each character, whose cluster is the character's place, and room for so
// many glyphs. The mask of each has the bit that lookups of the whole text ask for.
pub(crate) fn buffer_with_room(
    alloc: Global,
    text: &[char],
    room: usize,
) -> Result<hb_buffer_t, ShaperError>
    requires short { length text.now < 2147483648 }
    requires room { length text.now ≤ room }
    ensures word { IfOk result (λ buffer. buffer ≡ word_in room text.now) }
    ensures places { IfOk result (λ buffer. All (λ cluster. cluster < length text.now)
        (clusters buffer.glyphs)) }
    ensures filled { IfOk result (λ buffer. length buffer.glyphs ≡ length text.now) }
    ensures limit { IfOk result (λ buffer. buffer.max_len ≡ room) }
    ensures unplaced { IfOk result (λ buffer. buffer.positions ≡ []) }
    ensures short { result ≢ Err ShaperError.TooLong }
    ensures refusal { IsOkUnless result Memory }
{
    let mut buffer = hb_buffer_t::new(alloc, room);
    for (place, character) in text.iter().enumerate() {
        buffer.push(hb_glyph_info_t {
            glyph_id: u32::from(*character),
            mask: EVERY_GLYPH,
            cluster: place as u32,
            ..hb_glyph_info_t::DEFAULT
        })?;
    }
    Ok(buffer)
}

//! How a pipeline calls a hook, and what it reads in the hook's contract.
ghost use Rattle.std.specs.Prelude.{◌≡◌, ◌<◌, [], All, Some, IfOk, length};
ghost use Rattle.shapers_buffer.specs.Glyph.{clusters};

use rustybuzz_shapers::buffer::{Script, ShaperError, hb_buffer_t, hb_glyph_info_t};
use rustybuzz_shapers::font::hb_font_t;
use rustybuzz_shapers::map::hb_ot_map_t;
use rustybuzz_shapers::plan::hb_ot_shape_plan_t;
use rustybuzz_shapers::shaper::THAI_SHAPER;
use std::alloc::Global;

/// A text as Thai's shaper rewrites it, for a font without features. Each glyph of it leads back to
/// the text: its cluster is the place of a character. Refuses as growths do.
pub fn thai_glyphs<F: hb_font_t>(
    alloc: Global,
    face: &F,
    text: &[char],
) -> Result<hb_buffer_t, ShaperError>
    ensures { IfOk result (λ buffer. All (λ cluster. cluster < length text.now)
        (clusters buffer.glyphs)) }
{
    let plan = plain_plan(alloc, Script(*b"Thai"));
    let mut buffer = buffer_of(alloc, text)?;
    THAI_SHAPER.preprocess_text(&plan, face, &mut buffer)?;
    Ok(buffer)
}

// The plan for a script where the font has no features.
pub(crate) fn plain_plan(alloc: Global, script: Script) -> hb_ot_shape_plan_t
    ensures { result.script ≡ Some script }
{
    let map = hb_ot_map_t::new(
        Vec::new(alloc),
        Vec::new(alloc),
        Vec::new(alloc),
        0,
        None,
        false,
    );
    hb_ot_shape_plan_t::new(Some(script), map.unwrap())
}

// A buffer with a glyph for each character, whose cluster is the character's place.
pub(crate) fn buffer_of(alloc: Global, text: &[char]) -> Result<hb_buffer_t, ShaperError>
    ensures places { IfOk result (λ buffer. All (λ cluster. cluster < length text.now)
        (clusters buffer.glyphs)) }
    ensures unplaced { IfOk result (λ buffer. buffer.positions ≡ []) }
{
    let mut buffer = hb_buffer_t::new(alloc, text.len().saturating_mul(2));
    for (place, character) in text.iter().enumerate() {
        buffer.push(hb_glyph_info_t {
            glyph_id: u32::from(*character),
            cluster: u32::try_from(place).map_err(|_| ShaperError::TooLong)?,
            ..hb_glyph_info_t::DEFAULT
        })?;
    }
    Ok(buffer)
}

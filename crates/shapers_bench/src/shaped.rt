//! How an engine shapes a word whole, and what it reads in the laws of carets and of lengths.
ghost use Rattle.std.specs.Prelude.{◌≡◌, ◌<◌, ◌≤◌, IfOk, length};
ghost use Rattle.shapers_bench.specs.Words.{letters_from};
ghost use Rattle.shapers_editing.specs.Carets.{caret_stops};
ghost use Rattle.shapers_editing.specs.ShapedCarets.{StopsAreBorders};
ghost use Rattle.shapers_pipeline.specs.Lengths.{NotTooLong, shaped_bound};

use crate::caret::buffer_with_room;
use rustybuzz_shapers::buffer::{ShaperError, hb_buffer_t};
use rustybuzz_shapers::shaper::checked::CallError;
use shapers_editing::{caret_stops, pipeline_carets_law};
use shapers_pipeline::{
    NormalizeFont, NormalizeSettings, NormalizeTables, ShapeSettings, Single, SingleLookups,
    length_bound, pipeline_lengths_law, shape, substitute_text,
};
use shapers_plan::ot_shape_plan::EnginePlan;
use shapers_position::ot_shape_position::MetricsFont;
use shapers_prepare::ot_shape_prepare::UnicodeProperties;
use std::alloc::Global;

/// A word shaped by a plan, for a font with single substitutions alone, and the places where a caret
/// may stand in it besides its end. They map the word up to its end, and each is that of one of its
/// characters. Refuses as `shape` does.
pub fn shaped_carets<F: NormalizeFont + MetricsFont, T: NormalizeTables + UnicodeProperties>(
    alloc: Global,
    plan: &EnginePlan,
    settings: &ShapeSettings,
    font: &F,
    tables: &T,
    singles: &[Single],
    word: &[char],
) -> Result<(hb_buffer_t, Vec<u32>), CallError>
    requires short { length word.now < 2147483648 }
    ensures borders { let characters = letters_from 0 word.now in
        IfOk result (λ made.
        StopsAreBorders (length word.now) characters made.0.glyphs made.0.direction) }
    ensures stops { IfOk result (λ made.
        made.1.items ≡ caret_stops made.0.direction made.0.glyphs) }
{
    let mut buffer = buffer_with_room(alloc, word, word.len().max(65536))?;
    let lookups = SingleLookups { singles };
    shape(plan, settings, font, tables, &lookups, &mut buffer)?;
    let mut stops = Vec::new(alloc);
    caret_stops(buffer.glyphs(), buffer.direction(), &mut stops)?;
    pipeline_carets_law();
    Ok((buffer, stops))
}

/// The glyphs of a word behind its single substitutions, in a buffer with room for as many as there
/// may be: there are no more, and the word isn't too long. Refuses as `substitute_text` does, and
/// with `Memory` where no memory has so much room.
pub fn substituted_in_room<F: NormalizeFont, T: NormalizeTables + UnicodeProperties>(
    alloc: Global,
    plan: &EnginePlan,
    settings: &NormalizeSettings,
    font: &F,
    tables: &T,
    singles: &[Single],
    word: &[char],
) -> Result<hb_buffer_t, CallError>
    requires short { length word.now < 2147483648 }
    ensures room { NotTooLong result }
    ensures length { let plan = plan.now in
        let bound = shaped_bound plan.shaper (λ lookup. 1) plan.lookups plan.stages in
        IfOk result (λ buffer. length buffer.glyphs ≤ bound (length word.now)) }
{
    let lookups = SingleLookups { singles };
    let room = length_bound(plan, &lookups, word.len());
    if room == usize::MAX {
        return Err(CallError::Refused(ShaperError::Memory));
    }
    let mut buffer = buffer_with_room(alloc, word, room)?;
    pipeline_lengths_law();
    substitute_text(plan, settings, font, tables, &lookups, &mut buffer)?;
    Ok(buffer)
}

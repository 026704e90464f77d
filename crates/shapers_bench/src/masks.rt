//! How an engine sets the masks of a word again, and what it reads in the law of masks set twice.
ghost use Rattle.std.specs.Prelude.{◌≡◌, ◌<◌, IfOk, length};

use crate::calling::plain_plan;
use crate::caret::buffer_with_room;
use rustybuzz_shapers::buffer::{Script, hb_buffer_t};
use rustybuzz_shapers::font::{Tables, hb_font_t};
use rustybuzz_shapers::shaper::ARABIC_SHAPER;
use rustybuzz_shapers::shaper::checked::CallError;
use shapers_editing::masks_again_law;
use std::alloc::Global;

/// A word of Arabic whose letters were joined once, and the same word joined again, by whatever
/// tables: they are alike. Refuses with `Memory` alone.
pub fn joined_again<F: hb_font_t, T: Tables>(
    alloc: Global,
    face: &F,
    tables: &T,
    word: &[char],
) -> Result<(hb_buffer_t, hb_buffer_t), CallError>
    requires short { length word.now < 2147483648 }
    ensures { IfOk result (λ joined. joined.1 ≡ joined.0) }
{
    let plan = ARABIC_SHAPER.with_data(plain_plan(alloc, Script(*b"Arab")));
    let mut buffer = buffer_with_room(alloc, word, word.len())?;
    ARABIC_SHAPER.checked_setup_masks(&plan, face, tables, &mut buffer)?;
    let once = buffer.keep()?;
    ARABIC_SHAPER.checked_setup_masks(&plan, face, tables, &mut buffer)?;
    masks_again_law();
    Ok((once, buffer))
}

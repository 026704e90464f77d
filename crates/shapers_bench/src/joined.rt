//! How an editor joins a word that was edited, and what it reads in the law of edits that stay near.
ghost use Rattle.std.specs.Prelude.{◌≡◌, ◌≤◌, length};
ghost use Rattle.shapers_arabic.specs.Edited.{StayNear, edited};
ghost use Rattle.shapers_arabic.specs.JoinedText.{AreCharacters};

use shapers_arabic::ot_shaper_arabic::{arabic_shape_plan_t, joining_edits_law, setup_masks_inner};
use shapers_base::buffer::{Script, hb_buffer_t};
use shapers_base::font::Tables;
use shapers_editing::Edit;

/// Joins a word, and the word with an edit, given as a buffer of its own. Outside the edit each glyph
/// has the form that it has in the other word, except for the nearest letters on both sides and
/// Mongolian selectors behind letters and the edit.
pub fn join_edited<T: Tables>(
    plan: &arabic_shape_plan_t,
    script: Option<Script>,
    tables: &T,
    edit: &Edit,
    word: &mut hb_buffer_t,
    other: &mut hb_buffer_t,
)
    requires in_order { edit.now.start ≤ edit.now.end }
    requires in_range { edit.now.end ≤ length word.old.glyphs }
    requires characters { AreCharacters word.old.glyphs }
    requires others { AreCharacters other.old.glyphs }
    requires edited { other.old ≡ edited edit.now.start edit.now.end edit.now.glyphs.now word.old }
    ensures { let table = T.tables tables.now in
        StayNear script table.joining edit.now.start edit.now.end (length edit.now.glyphs.now)
        word.old.glyphs word.new.glyphs other.new.glyphs }
{
    joining_edits_law();
    setup_masks_inner(plan, script, word, tables);
    setup_masks_inner(plan, script, other, tables);
}

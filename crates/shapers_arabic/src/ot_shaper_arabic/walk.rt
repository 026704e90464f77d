//! One walk over the glyphs of a buffer: joining, the flags of breaks, the selectors, and the masks.
ghost use Rattle.std.specs.Prelude.{◌≡◌, None, map, if◌then◌else◌};
ghost use Rattle.shapers_arabic.specs.JoinedText.{is_mongolian};
ghost use Rattle.shapers_arabic.specs.JoiningWalk.{HaveMasks, with_copied};
ghost use Rattle.shapers_base.specs.Masks.{with_numbered_mask};

use super::breaks::flag_breaks;
use super::joining::join;
use super::look_ups::LookUps;
use super::masks::{add_masks, copy_to_selectors, is_mongolian};
use shapers_base::buffer::{BufferFlags, GlyphWalk, Script, hb_glyph_info_t};
use shapers_base::font::Tables;
use shapers_base::plan::{BreakFlags, hb_arabic_joining_type_t};
use std::sync::ledger::Ledger;

// What joining needs besides the glyphs: the masks of the forms, and the nearest letters before and
// after the text.
#[derive(Drop)]
pub(super) struct JoiningWalk<'a, T: Tables, L: Ledger> {
    pub(super) masks: &'a [u32; 8],
    pub(super) breaks: BreakFlags,
    pub(super) script: Option<Script>,
    pub(super) flags: BufferFlags,
    pub(super) before: Option<hb_arabic_joining_type_t>,
    pub(super) after: Option<hb_arabic_joining_type_t>,
    pub(super) tables: &'a T,
    pub(super) count: &'a mut LookUps<L>,
}

impl<'a, T: Tables, L: Ledger> GlyphWalk for JoiningWalk<'a, T, L> {
    ghost use Rattle.std.specs.Prelude.{◌≡◌, ◌+◌, length};
    ghost use Rattle.shapers_arabic.specs.JoinedText.{AreCharacters};
    ghost use Rattle.shapers_arabic.specs.JoiningWalk.{IsNearest, JoinsAll};

    ghost can_walk = { λ w gs. AreCharacters gs × IsNearest w.before × IsNearest w.after };

    ghost walks = { λ v w gs hs.
        JoinsAll v.breaks v.masks.now v.flags v.script (T.tables v.tables.now).joining v.before v.after gs hs
        × (w.count.now ≡ v.count.now + length gs)
        × (w.count.ghost_name ≡ v.count.ghost_name) };

    #[inline]
    fn walk(&mut self, glyphs: &mut [hb_glyph_info_t]) {
        join(
            self.flags,
            glyphs,
            self.before,
            self.after,
            self.tables,
            self.count,
        );
        flag_breaks(self.breaks, self.script, glyphs);
        finish_forms(self.script, self.masks, glyphs);
    }
}

// Gives the selectors their forms, with the script Mongolian alone, and all glyphs their masks.
#[inline]
fn finish_forms(script: Option<Script>, masks: &[u32; 8], glyphs: &mut [hb_glyph_info_t])
    requires { HaveMasks glyphs.old }
    ensures { let copied = with_copied None glyphs.old in
        let formed = if is_mongolian script then copied else glyphs.old in
        glyphs.new ≡ map (with_numbered_mask masks.now) formed }
{
    if is_mongolian(script) {
        copy_to_selectors(glyphs);
        add_masks(masks, glyphs);
    } else {
        add_masks(masks, glyphs);
    }
}

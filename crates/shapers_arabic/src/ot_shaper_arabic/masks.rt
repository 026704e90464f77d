//! What follows joining: the selectors of Mongolian, and the masks of the forms.
ghost use Rattle.std.specs.Prelude.{◌≡◌, None, map};
ghost use Rattle.shapers_arabic.specs.JoinedText.{is_mongolian};
ghost use Rattle.shapers_arabic.specs.Joining.{is_selector};
ghost use Rattle.shapers_arabic.specs.JoiningWalk.{HaveMasks, copied, with_copied};
ghost use Rattle.shapers_base.specs.Masks.{with_numbered_mask};

use shapers_base::buffer::{Script, hb_glyph_info_t};

// Whether the script is Mongolian.
#[inline]
pub(super) fn is_mongolian(script: Option<Script>) -> bool
    ensures { result ≡ is_mongolian script }
{
    script == Some(Script(*b"Mong"))
}

// Whether a character is a free variation selector of Mongolian.
#[inline]
fn is_selector(c: u32) -> bool
    ensures { result ≡ is_selector c }
{
    matches!(c, 0x180B..=0x180D | 0x180F)
}

// The form of a glyph behind one of the form `previous`.
#[inline]
pub(super) fn form_behind(previous: Option<u8>, glyph: &hb_glyph_info_t) -> u8
    ensures { result ≡ copied previous glyph.now }
{
    match previous {
        Some(form) if is_selector(glyph.glyph_id) => form,
        _ => glyph.auxiliary,
    }
}

// Gives each selector the form of the glyph before it.
#[inline]
pub(super) fn copy_to_selectors(glyphs: &mut [hb_glyph_info_t])
    ensures { glyphs.new ≡ with_copied None glyphs.old }
{
    let mut previous = None;
    for glyph in glyphs.iter_mut() {
        let form = form_behind(previous, glyph);
        glyph.auxiliary = form;
        previous = Some(form);
    }
}

// Gives each glyph the mask of its form. The remainder is the form itself; it spares the test that
// the index is below 8.
#[inline]
pub(super) fn add_masks(masks: &[u32; 8], glyphs: &mut [hb_glyph_info_t])
    requires { HaveMasks glyphs.old }
    ensures { glyphs.new ≡ map (with_numbered_mask masks.now) glyphs.old }
{
    for glyph in glyphs.iter_mut() {
        glyph.mask |= masks[usize::from(glyph.auxiliary % 8)];
    }
}

//! The flags that the choice `Sound` adds: where the pieces of a broken text would lose a form.
ghost use Rattle.std.specs.Prelude.{◌≡◌, ◌≤◌, length, map, None};
ghost use Rattle.shapers_arabic.specs.JoinedText.{is_mongolian};
ghost use Rattle.shapers_arabic.specs.JoiningWalk.{Called, IsWithin, calls_added, copied_calls, form_calls, form_calls_along, place_of, sound_calls_at, written};
ghost use Rattle.shapers_arabic.specs.SoundFlags.{is_second_or_third, is_taken};

use super::arabic_action_t::{FIN2, FIN3, FINA, MED2, MEDI, NONE};
use super::masks::{form_behind, is_mongolian};
use shapers_base::buffer::{Script, hb_glyph_info_t, unsafe_to_break_in};
use shapers_base::plan::BreakFlags;

// Whether an Alaph takes this form from a letter that doesn't join on.
#[inline]
fn is_second_or_third(form: u8) -> bool
    ensures { result ≡ is_second_or_third form }
{
    matches!(form, FIN2 | FIN3)
}

// Whether a letter takes this form from what stands before it.
#[inline]
fn is_taken(form: u8) -> bool
    ensures { result ≡ is_taken form }
{
    matches!(form, FINA | FIN2 | FIN3 | MEDI | MED2)
}

// Flags a letter in its final form, which ends before `end`: from the last place with a form on, or
// from the text's start on.
#[inline]
fn flag_form(glyphs: &mut [hb_glyph_info_t], last: Option<usize>, end: usize, form: u8)
    requires within { IsWithin last end }
    requires in_range { end ≤ length glyphs.old }
    ensures { Called (form_calls last form end) glyphs.old glyphs.new }
{
    match last {
        None => {
            if is_taken(form) {
                unsafe_to_break_in(glyphs, 0, end);
            }
        }
        Some(last) => {
            if is_second_or_third(form) {
                unsafe_to_break_in(glyphs, last, end);
            }
        }
    }
}

// Flags each letter whose final form is FIN2 or FIN3 with the letter before it, and the first one
// where it took its form from the context.
#[inline]
fn flag_forms(glyphs: &mut [hb_glyph_info_t])
    ensures { Called (form_calls_along None 0 (written glyphs.old)) glyphs.old glyphs.new }
{
    let mut last = None;
    for i in 0..glyphs.len() {
        let form = glyphs[i].auxiliary;
        if form != NONE {
            flag_form(glyphs, last, i + 1, form);
            last = Some(i);
        }
    }
}

// Flags each selector whose copied form isn't its own with the glyph before it.
#[inline]
fn flag_selectors(glyphs: &mut [hb_glyph_info_t])
    ensures { Called (copied_calls None 0 (map place_of glyphs.old)) glyphs.old glyphs.new }
{
    let mut previous = None;
    for i in 0..glyphs.len() {
        let form = form_behind(previous, &glyphs[i]);
        if form != glyphs[i].auxiliary {
            unsafe_to_break_in(glyphs, i - 1, i + 1);
        }
        previous = Some(form);
    }
}

// Flags what Sound adds: selectors with the script Mongolian alone.
#[inline]
fn flag_sound(script: Option<Script>, glyphs: &mut [hb_glyph_info_t])
    ensures { Called (sound_calls_at script glyphs.old) glyphs.old glyphs.new }
{
    flag_forms(glyphs);
    if is_mongolian(script) {
        flag_selectors(glyphs);
    }
}

// Flags what the choice adds, in glyphs with their forms by the joining rule.
#[inline]
pub(super) fn flag_breaks(
    breaks: BreakFlags,
    script: Option<Script>,
    glyphs: &mut [hb_glyph_info_t],
)
    ensures { Called (calls_added breaks script glyphs.old) glyphs.old glyphs.new }
{
    match breaks {
        BreakFlags::AsCode => {}
        BreakFlags::Sound => flag_sound(script, glyphs),
    }
}

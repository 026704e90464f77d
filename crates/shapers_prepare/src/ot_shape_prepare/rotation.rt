//! Characters for another direction.
ghost use Rattle.std.specs.Prelude.{◌≡◌, ◌&&◌, ◌||◌, map, not};
ghost use Rattle.shapers_prepare.specs.Rotation.{mirrored_glyph, rotated_glyph, goes_backward, goes_vertically, upright_glyph, which_font_has};

use super::unicode::UnicodeProperties;
use shapers_base::buffer::{Direction, GlyphChange, hb_buffer_t, hb_glyph_info_t};
use shapers_base::font::hb_font_t;

/// What characters are rotated by: the direction that the caller wants of the text, and of the plan
/// the mask of the feature that mirrors (`rtlm`) and whether the font has a feature for vertical
/// forms (`vert`).
#[derive(Clone, Copy, Debug, PartialEq, Eq)]
pub struct CharRotation {
    /// The direction that the caller wants.
    pub direction: Direction,
    /// The mask of `rtlm`.
    pub rtlm_mask: u32,
    /// Whether the font has `vert`.
    pub has_vert: bool,
}

/// In text that goes backward each character becomes its mirrored one where the font has that, and
/// else gets the mask of `rtlm`; in vertical text without `vert` its vertical form where the font
/// has that. The properties of the characters stay. (Unicode's Bidi_Mirroring_Glyph and vertical
/// compatibility mappings.)
pub fn rotate_chars<U: UnicodeProperties, F: hb_font_t>(
    unicode: &U,
    font: &F,
    rotation: &CharRotation,
    buffer: &mut hb_buffer_t,
)
    ensures { let p = U.properties unicode.now in
        let text = map (rotated_glyph p (F.font font.now) rotation.now) buffer.old.glyphs in
        buffer.new ≡ record buffer.old { glyphs = text } }
{
    if !rotates(*rotation) {
        return;
    }
    rotate_each(unicode, font, *rotation, buffer);
}

// Rotates each character, in a text that goes in such a direction.
fn rotate_each<U: UnicodeProperties, F: hb_font_t>(
    unicode: &U,
    font: &F,
    rotation: CharRotation,
    buffer: &mut hb_buffer_t,
)
    ensures { let p = U.properties unicode.now in
        let text = map (rotated_glyph p (F.font font.now) rotation) buffer.old.glyphs in
        buffer.new ≡ record buffer.old { glyphs = text } }
{
    // (a font that panics leaves the empty buffer, and no text with some characters rotated)
    match rotation.direction {
        // (so that the direction isn't asked for at each character)
        Direction::RightToLeft => {
            let rtlm_mask = rotation.rtlm_mask;
            buffer.change_outside(&Mirroring {
                unicode,
                font,
                rtlm_mask,
            });
        }
        _ => buffer.change_outside(&Rotating {
            unicode,
            font,
            rotation,
        }),
    }
}

// Whether a text goes in a direction for which characters are rotated.
#[inline]
fn rotates(rotation: CharRotation) -> bool
    ensures { result ≡
        (goes_backward rotation.direction
        || (goes_vertically rotation.direction && not rotation.has_vert)) }
{
    goes_backward(rotation.direction) || (goes_vertically(rotation.direction) && !rotation.has_vert)
}

// The change of one glyph in text from right to left.
#[derive(Drop)]
struct Mirroring<'a, U: UnicodeProperties, F: hb_font_t> {
    unicode: &'a U,
    font: &'a F,
    rtlm_mask: u32,
}

impl<'a, U: UnicodeProperties, F: hb_font_t> GlyphChange for Mirroring<'a, U, F> {
    ghost use Rattle.shapers_prepare.specs.Rotation.{mirrored_glyph};

    ghost changed = { λ m g. mirrored_glyph (U.properties m.unicode.now) (F.font m.font.now) m.rtlm_mask g };

    #[inline]
    fn change(&self, glyph: &mut hb_glyph_info_t) {
        mirror(self.unicode, self.font, self.rtlm_mask, glyph);
    }
}

// The change of one glyph, whatever the direction.
#[derive(Drop)]
struct Rotating<'a, U: UnicodeProperties, F: hb_font_t> {
    unicode: &'a U,
    font: &'a F,
    rotation: CharRotation,
}

impl<'a, U: UnicodeProperties, F: hb_font_t> GlyphChange for Rotating<'a, U, F> {
    ghost use Rattle.shapers_prepare.specs.Rotation.{rotated_glyph};

    ghost changed = { λ r g. rotated_glyph (U.properties r.unicode.now) (F.font r.font.now) r.rotation g };

    #[inline]
    fn change(&self, glyph: &mut hb_glyph_info_t) {
        if goes_backward(self.rotation.direction) {
            mirror(self.unicode, self.font, self.rotation.rtlm_mask, glyph);
        }
        if goes_vertically(self.rotation.direction) && !self.rotation.has_vert {
            stand_upright(self.unicode, self.font, glyph);
        }
    }
}

// The mirrored character where the font has it, else the feature that mirrors.
#[inline]
fn mirror<U: UnicodeProperties, F: hb_font_t>(
    unicode: &U,
    font: &F,
    rtlm_mask: u32,
    glyph: &mut hb_glyph_info_t,
)
    ensures { let p = U.properties unicode.now in
        glyph.new ≡ mirrored_glyph p (F.font font.now) rtlm_mask glyph.old }
{
    match which_font_has(font, unicode.mirrored(glyph.glyph_id)) {
        Some(c) => glyph.glyph_id = c,
        None => glyph.mask |= rtlm_mask,
    }
}

// The vertical form where the font has it.
#[inline]
fn stand_upright<U: UnicodeProperties, F: hb_font_t>(
    unicode: &U,
    font: &F,
    glyph: &mut hb_glyph_info_t,
)
    ensures { let p = U.properties unicode.now in
        glyph.new ≡ upright_glyph p (F.font font.now) glyph.old }
{
    if let Some(c) = which_font_has(font, unicode.vertical_form(glyph.glyph_id)) {
        glyph.glyph_id = c;
    }
}

// A character that the font has, if there is one.
#[inline]
fn which_font_has<F: hb_font_t>(font: &F, c: Option<u32>) -> Option<u32>
    ensures { result ≡ which_font_has (F.font font.now) c }
{
    match c {
        Some(c) if font.has_glyph(c) => Some(c),
        _ => None,
    }
}

#[inline]
fn goes_backward(direction: Direction) -> bool
    ensures { result ≡ goes_backward direction }
{
    matches!(direction, Direction::RightToLeft | Direction::BottomToTop)
}

#[inline]
fn goes_vertically(direction: Direction) -> bool
    ensures { result ≡ goes_vertically direction }
{
    matches!(direction, Direction::TopToBottom | Direction::BottomToTop)
}

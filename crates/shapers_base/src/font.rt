//! What the shapers read of a font and of the Unicode tables. Both are functions: the same question
//! has the same result.
ghost use Rattle.std.specs.Prelude.{◌≡◌};
ghost use Rattle.shapers_base.specs.Font.{CharacterTables, Font, has_nominal};
ghost use Rattle.shapers_base.specs.Map.{would_one};

use crate::buffer::{hb_tag_t, hb_unicode_general_category_t};
use crate::plan::{Category, Position, hb_arabic_joining_type_t};

/// A glyph of a font, by its number, in two bytes.
#[repr(transparent)]
#[derive(Clone, Copy, Debug, PartialEq, Eq)]
pub struct GlyphId(pub u16);

/// A font, as far as the shapers read it.
pub trait hb_font_t {
    /// The font as a value: its results.
    ghost font: { Self → Font };

    /// The font's own glyph for a character, before any lookup.
    fn get_nominal_glyph(&self, c: u32) -> Option<GlyphId>
        ensures { result ≡ (font self.now).nominal c };

    /// Whether the font has a nominal glyph for a character. An impl overrides this where it knows
    /// without making the glyph.
    #[inline]
    fn has_glyph(&self, c: u32) -> bool
        ensures { result ≡ has_nominal (font self.now) c }
    {
        self.get_nominal_glyph(c).is_some()
    }

    /// How far a glyph moves the pen, in font units.
    fn glyph_h_advance(&self, glyph: GlyphId) -> i32
        ensures { result ≡ (font self.now).advance glyph };

    /// Whether the lookup of this number in GSUB would apply to exactly these glyphs; with
    /// `zero_context`, only if it needs no context around them.
    fn would_apply(&self, lookup: u16, glyphs: &[GlyphId], zero_context: bool) -> bool
        ensures { result ≡ (font self.now).applies lookup glyphs.now zero_context };

    /// Whether one of these lookups would apply to exactly these glyphs. This calls `would_apply`
    /// for each up to the first that would; an impl overrides it where it knows that at once.
    #[inline]
    fn would_apply_any(&self, lookups: &[u16], glyphs: &[GlyphId], zero_context: bool) -> bool
        ensures { result ≡ would_one (font self.now).applies lookups.now glyphs.now zero_context }
    {
        lookups
            .iter()
            .any(|lookup| self.would_apply(*lookup, glyphs, zero_context))
    }

    /// Whether the font has a feature by this tag.
    fn has_feature(&self, tag: hb_tag_t) -> bool
        ensures { result ≡ (font self.now).offers tag };

    /// Whether a question to the font may panic. An impl overrides this where none does: then a text
    /// needn't stand outside its buffer while the font is asked.
    #[inline]
    fn may_panic(&self) -> bool {
        true
    }
}

/// The tables of the Unicode Character Database and of the shapers, as far as they are read.
pub trait Tables {
    /// The tables as a value: their results.
    ghost tables: { Self → CharacterTables };

    /// How a character joins its neighbours.
    fn joining_type(&self, c: char) -> hb_arabic_joining_type_t
        ensures { result ≡ (tables self.now).joining c };

    /// The general category of a character.
    fn general_category(&self, c: char) -> hb_unicode_general_category_t
        ensures { result ≡ (tables self.now).general c };

    /// The category and the position of a character in the Indic, Khmer and Myanmar shapers.
    fn indic_categories(&self, c: u32) -> (Category, Position)
        ensures { result ≡ (tables self.now).indic c };

    /// The category of a character in the universal shaper.
    fn use_category(&self, c: u32) -> Category
        ensures { result ≡ (tables self.now).universal c };

    /// The character that two characters compose to, as Unicode's canonical composition has it.
    fn compose(&self, a: char, b: char) -> Option<char>
        ensures { result ≡ (tables self.now).composed a b };

    /// The two characters that a character decomposes to by Unicode's canonical decomposition.
    fn decompose(&self, ab: char) -> Option<(char, char)>
        ensures { result ≡ (tables self.now).decomposed ab };

    /// Whether a question to the tables may panic. An impl overrides this where none does.
    #[inline]
    fn may_panic(&self) -> bool {
        true
    }
}

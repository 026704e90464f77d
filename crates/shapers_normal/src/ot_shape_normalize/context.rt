//! What normalization reads of the shaper, the font and Unicode.
ghost use Rattle.std.specs.Prelude.{◌≡◌, ◌+◌, ◌<◌, ◌≤◌, drop, length};
ghost use Rattle.shapers_normal.specs.Context.{Context, has_glyph};
ghost use Rattle.shapers_normal.specs.Sorting.{classes};

use shapers_base::buffer::{BufferClusterLevel, hb_glyph_info_t, hb_unicode_general_category_t};
use shapers_base::font::GlyphId;
use shapers_base::plan::NormalizationMode;

/// A shaper with its plan, a font and Unicode's tables, as normalization reads them. Each is a
/// function: the same call has the same result.
pub trait NormalizeContext {
    /// All of them as a value: their results.
    ghost context: { Self → Context };

    /// Which form of the text the shaper prefers.
    fn normalization_preference(&self) -> NormalizationMode
        ensures { result ≡ (context self.now).mode };

    /// The two characters that one comes apart into for the shaper; the second is 0 where there is
    /// one alone.
    fn decompose(&self, ab: u32) -> Option<(u32, u32)>
        ensures { result ≡ (context self.now).decomposed ab };

    /// The character that two compose to for the shaper.
    fn compose(&self, a: u32, b: u32) -> Option<u32>
        ensures { result ≡ (context self.now).composed a b };

    /// The font's own glyph for a character.
    fn get_nominal_glyph(&self, c: u32) -> Option<GlyphId>
        ensures { result ≡ (context self.now).nominal c };

    /// The font's glyph for a character in the form that a variation selector selects.
    fn get_variation_glyph(&self, c: u32, selector: u32) -> Option<GlyphId>
        ensures { result ≡ (context self.now).variant c selector };

    /// Whether the font has a glyph for a character. An impl overrides this where it knows without
    /// making the glyph.
    #[inline]
    fn has_glyph(&self, c: u32) -> bool
        ensures { result ≡ has_glyph (context self.now) c }
    {
        self.get_nominal_glyph(c).is_some()
    }

    /// The general category of a character.
    fn general_category(&self, c: u32) -> hb_unicode_general_category_t
        ensures { result ≡ (context self.now).general c };

    /// The combining class of a mark, as the shapers renumber it.
    fn modified_combining_class(&self, c: u32) -> u8
        ensures { result ≡ (context self.now).class c };

    /// Whether a character is ignored by default, as the shapers have it.
    fn is_default_ignorable(&self, c: u32) -> bool
        ensures { result ≡ (context self.now).ignorable c };

    /// The glyph for what isn't drawn, if the caller has one.
    fn invisible_glyph(&self) -> Option<GlyphId>
        ensures { result ≡ (context self.now).invisible };

    /// Whether the caller has a glyph for selectors that select nothing: they aren't ignorable
    /// then.
    fn draws_selectors(&self) -> bool
        ensures { result ≡ (context self.now).draws_selectors };

    /// Orders the marks from `start` to `end`, at most 32 that are sorted by class, as the shaper
    /// wants them. What stands behind them keeps its classes.
    fn reorder_marks(
        &self,
        level: BufferClusterLevel,
        glyphs: &mut [hb_glyph_info_t],
        start: usize,
        end: usize,
    )
        requires in_order { start < end }
        requires in_range { end ≤ length glyphs.old }
        requires few { end ≤ start + 32 }
        ensures marks { glyphs.new ≡ (context self.now).reordered level start end glyphs.old }
        ensures behind { drop end (classes glyphs.new) ≡ drop end (classes glyphs.old) };
}

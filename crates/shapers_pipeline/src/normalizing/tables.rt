//! What normalization reads of a font and of Unicode besides what the shapers read.
ghost use Rattle.std.specs.Prelude.{◌≡◌};
ghost use Rattle.shapers_pipeline.specs.TextTables.{TextTables, VariantForms};

use shapers_base::font::{GlyphId, Tables, hb_font_t};
use shapers_unicode::{UnicodeTables, is_default_ignorable, modified_combining_class};

/// A font that has the forms that variation selectors select.
pub trait NormalizeFont: hb_font_t {
    /// Its forms as a value.
    ghost variants: { Self → VariantForms };

    /// The font's glyph for a character in the form that a variation selector selects, by the
    /// mapping's format 14.
    fn get_variation_glyph(&self, c: u32, selector: u32) -> Option<GlyphId>
        ensures { result ≡ variants self.now c selector };
}

/// Unicode's tables with the classes of marks and the ignorable characters.
pub trait NormalizeTables: Tables {
    /// These as a value: their results.
    ghost texts: { Self → TextTables };

    /// The class by which a mark is ordered: its canonical combining class as the shapers change
    /// it.
    fn modified_combining_class(&self, c: char) -> u8
        ensures { result ≡ (texts self.now).class c };

    /// Whether a character is ignored by default, as the shapers have it.
    fn is_default_ignorable(&self, c: char) -> bool
        ensures { result ≡ (texts self.now).ignorable c };
}

impl NormalizeTables for UnicodeTables {
    ghost use Rattle.shapers_unicode.specs.Classes.{modified_class};
    ghost use Rattle.shapers_unicode.specs.Ignorable.{default_ignorable};

    ghost texts = { λ _. record { class = modified_class; ignorable = default_ignorable } };

    #[inline]
    fn modified_combining_class(&self, c: char) -> u8
        ensures { result ≡ modified_class c }
    {
        modified_combining_class(c)
    }

    #[inline]
    fn is_default_ignorable(&self, c: char) -> bool
        ensures { result ≡ default_ignorable c }
    {
        is_default_ignorable(c)
    }
}

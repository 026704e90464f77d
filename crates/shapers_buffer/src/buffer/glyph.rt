ghost use Rattle.std.specs.Prelude.{◌≡◌};
ghost use Rattle.shapers_buffer.specs.Properties.{SUBSTITUTED, LIGATED, MULTIPLIED, IGNORABLE, CONTINUATION, component, general_category, is_continuation, is_ignorable, is_ligated, is_multiplied, is_substituted, modified_combining_class, set_mark, set_property, with_component, with_general_category, with_modified_combining_class};

use super::category::hb_unicode_general_category_t;
use super::glyph_props::GlyphProps;
use super::lig_props::LigProps;
use super::unicode_props::UnicodeProps;

/// One glyph of the buffer, or before the font's mapping one character: 20 bytes, each where
/// HarfBuzz's glyph info has it.
#[repr(C)]
#[derive(Clone, Copy, Debug, PartialEq, Eq)]
pub struct hb_glyph_info_t {
    /// A character before the font's mapping, a glyph number after it.
    pub glyph_id: u32,
    /// The features that are on, above the three glyph flags.
    pub mask: u32,
    /// The place in the text that the glyph leads back to.
    pub cluster: u32,
    /// What lookups did to the glyph.
    pub glyph_props: GlyphProps,
    /// The ligature that the glyph is or belongs to.
    pub lig_props: LigProps,
    /// The syllable: a serial in the high four bits, the kind in the low four.
    pub syllable: u8,
    /// What the glyph's character is.
    pub unicode_props: UnicodeProps,
    /// What the character is in its syllable, by the shaper's own table (HarfBuzz's Indic and
    /// universal categories).
    pub category: u8,
    /// What else its shaper notes of it: an Arabic form, a Hangul jamo's feature, an Indic or Myanmar
    /// position.
    pub auxiliary: u8,
}

impl hb_glyph_info_t {
    /// All zero, of category Cc, with no marks.
    pub const DEFAULT: Self = hb_glyph_info_t {
        glyph_id: 0,
        mask: 0,
        cluster: 0,
        glyph_props: GlyphProps::NONE,
        lig_props: LigProps::NONE,
        syllable: 0,
        unicode_props: UnicodeProps::NONE,
        category: 0,
        auxiliary: 0,
    };

    /// The `General_Category` of the glyph's character in the Unicode Character Database.
    #[inline]
    pub fn general_category(&self) -> hb_unicode_general_category_t
        ensures { result ≡ general_category self.now.unicode_props }
    {
        self.unicode_props.general_category()
    }

    /// The canonical combining class of the glyph's character, as HarfBuzz renumbers it.
    #[inline]
    pub fn modified_combining_class(&self) -> u8
        ensures { result ≡ modified_combining_class self.now.unicode_props }
    {
        self.unicode_props.modified_combining_class()
    }

    /// The component of a ligature that a mark is attached to, or which part of several the glyph
    /// is, 0 to 15: 0 for a ligature itself.
    #[inline]
    pub fn lig_comp(&self) -> u8
        ensures { result ≡ component self.now.lig_props }
    {
        self.lig_props.component()
    }

    /// Whether a lookup put the glyph in.
    #[inline]
    pub fn substituted(&self) -> bool
        ensures { result ≡ is_substituted self.now.glyph_props }
    {
        self.glyph_props.is_substituted()
    }

    /// Whether a lookup put the glyph in for several.
    #[inline]
    pub fn ligated(&self) -> bool
        ensures { result ≡ is_ligated self.now.glyph_props }
    {
        self.glyph_props.is_ligated()
    }

    /// Whether a lookup put the glyph in as one of several for one.
    #[inline]
    pub fn multiplied(&self) -> bool
        ensures { result ≡ is_multiplied self.now.glyph_props }
    {
        self.glyph_props.is_multiplied()
    }

    /// Whether the glyph's character may stay undrawn (`Default_Ignorable_Code_Point`).
    #[inline]
    pub fn ignorable(&self) -> bool
        ensures { result ≡ is_ignorable self.now.unicode_props }
    {
        self.unicode_props.is_ignorable()
    }

    /// Whether the glyph's character carries on the grapheme of the one before it.
    #[inline]
    pub fn continuation(&self) -> bool
        ensures { result ≡ is_continuation self.now.unicode_props }
    {
        self.unicode_props.is_continuation()
    }

    /// Sets the category, as `UnicodeProps::set_general_category` does.
    #[inline]
    pub fn set_general_category(&mut self, category: hb_unicode_general_category_t)
        ensures { self.new ≡ record self.old {
          unicode_props = with_general_category category self.old.unicode_props;
        } }
    {
        self.unicode_props.set_general_category(category);
    }

    /// Sets the class, as `UnicodeProps::set_modified_combining_class` does.
    #[inline]
    pub fn set_modified_combining_class(&mut self, class: u8)
        ensures { self.new ≡ record self.old {
          unicode_props = with_modified_combining_class class self.old.unicode_props;
        } }
    {
        self.unicode_props.set_modified_combining_class(class);
    }

    /// Sets the component, of which the low four bits count; the glyph isn't a ligature itself then.
    #[inline]
    pub fn set_lig_comp(&mut self, component: u8)
        ensures { self.new ≡ record self.old {
          lig_props = with_component component self.old.lig_props;
        } }
    {
        self.lig_props.set_component(component);
    }

    /// Sets whether a lookup put the glyph in.
    #[inline]
    pub fn set_substituted(&mut self, on: bool)
        ensures { self.new ≡ record self.old {
          glyph_props = set_mark SUBSTITUTED on self.old.glyph_props;
        } }
    {
        self.glyph_props.set_substituted(on);
    }

    /// Sets whether a lookup put the glyph in for several.
    #[inline]
    pub fn set_ligated(&mut self, on: bool)
        ensures { self.new ≡ record self.old {
          glyph_props = set_mark LIGATED on self.old.glyph_props;
        } }
    {
        self.glyph_props.set_ligated(on);
    }

    /// Sets whether a lookup put the glyph in as one of several for one.
    #[inline]
    pub fn set_multiplied(&mut self, on: bool)
        ensures { self.new ≡ record self.old {
          glyph_props = set_mark MULTIPLIED on self.old.glyph_props;
        } }
    {
        self.glyph_props.set_multiplied(on);
    }

    /// Sets whether the glyph's character may stay undrawn (`Default_Ignorable_Code_Point`).
    #[inline]
    pub fn set_ignorable(&mut self, on: bool)
        ensures { self.new ≡ record self.old {
          unicode_props = set_property IGNORABLE on self.old.unicode_props;
        } }
    {
        self.unicode_props.set_ignorable(on);
    }

    /// Sets whether the glyph's character carries on the grapheme of the one before it.
    #[inline]
    pub fn set_continuation(&mut self, on: bool)
        ensures { self.new ≡ record self.old {
          unicode_props = set_property CONTINUATION on self.old.unicode_props;
        } }
    {
        self.unicode_props.set_continuation(on);
    }
}

/// Where a glyph is drawn and how far it moves the pen, in font units: 20 bytes, each where HarfBuzz's
/// `hb_glyph_position_t` has it.
#[repr(C)]
#[derive(Clone, Copy, Debug, PartialEq, Eq)]
pub struct GlyphPosition {
    /// How far the pen moves to the right behind the glyph.
    pub x_advance: i32,
    /// How far the pen moves up behind the glyph.
    pub y_advance: i32,
    /// How far to the right of the pen the glyph is drawn.
    pub x_offset: i32,
    /// How far above the pen the glyph is drawn.
    pub y_offset: i32,
    /// What the caller's lookups keep with the position; the hooks carry it along and never read it.
    pub var: u32,
}

impl GlyphPosition {
    /// All zero.
    pub const ZERO: Self = GlyphPosition {
        x_advance: 0,
        y_advance: 0,
        x_offset: 0,
        y_offset: 0,
        var: 0,
    };
}

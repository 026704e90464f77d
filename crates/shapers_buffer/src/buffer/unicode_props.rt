//! What a glyph's character is, in the bits in which HarfBuzz keeps it.
ghost use Rattle.std.specs.Prelude.{◌≡◌};
ghost use Rattle.shapers_buffer.specs.Properties.{IGNORABLE, HIDDEN, CONTINUATION, general_category, high_byte, is_continuation, is_ignorable, is_hidden, modified_combining_class, properties, set_property, with_general_category, with_high_byte, with_modified_combining_class};

use super::bits::set_bit;
use super::category::hb_unicode_general_category_t;
use bitflags::{Flag, Flags, bitflag_items};

/// What the glyph's character is (HarfBuzz's `unicode_props`): its general category in the low five
/// bits, three bits of their own, and in the high byte the canonical combining class.
#[repr(transparent)]
#[derive(Clone, Copy, Debug, PartialEq, Eq)]
pub struct UnicodeProps(pub u16);

bitflag_items! {
    impl UnicodeProps: u16 {
        /// The character may stay undrawn (`Default_Ignorable_Code_Point`).
        const IGNORABLE = 0x20;
        /// Lookups see the character, though it is ignorable.
        const HIDDEN = 0x40;
        /// The character carries on the grapheme of the one before it.
        const CONTINUATION = 0x80;
    }
}

impl Flags for UnicodeProps {
    ghost use Rattle.std.specs.Prelude.{⊤, [], ◌∷◌, codes};

    type Bits = u16;

    ghost exact = { ⊤ };

    ghost table = { (codes "IGNORABLE", 0x20) ∷ (codes "HIDDEN", 0x40)
        ∷ (codes "CONTINUATION", 0x80) ∷ [] };

    ghost set_of = { λ props. props.0 };

    #[inline]
    fn flags<'a>() -> &'a [Flag<UnicodeProps>] {
        UnicodeProps::FLAGS
    }

    #[inline]
    fn bits(&self) -> u16 {
        self.0
    }

    #[inline]
    fn from_bits_retain(bits: u16) -> UnicodeProps {
        UnicodeProps(bits)
    }
}

impl UnicodeProps {
    /// All zero: category Cc.
    pub const NONE: Self = UnicodeProps(0);

    /// The properties of a character of this category, with this high byte and no bit between.
    #[inline]
    pub fn new(category: hb_unicode_general_category_t, high_byte: u8) -> Self
        ensures { result ≡ properties category high_byte }
    {
        UnicodeProps(u16::from(category.number()) + 256 * u16::from(high_byte))
    }

    /// The character's `General_Category` in the Unicode Character Database; Cn for the two numbers
    /// that are none.
    #[inline]
    pub fn general_category(self) -> hb_unicode_general_category_t
        ensures { result ≡ general_category self }
    {
        hb_unicode_general_category_t::from_number_or_unassigned((self.0 % 32) as u8)
    }

    /// The high byte: the combining class, which joiner a format character is, a space's kind.
    #[inline]
    pub fn high_byte(self) -> u8
        ensures { result ≡ high_byte self }
    {
        (self.0 >> 8) as u8
    }

    /// The canonical combining class, as HarfBuzz renumbers it (`modified_combining_class`): 0
    /// where the category is Cf or Zs, which have none.
    #[inline]
    #[tactic(auto, unfolding(crate::specs::Properties::modified_combining_class))]
    pub fn modified_combining_class(self) -> u8
        ensures { result ≡ modified_combining_class self }
    {
        if self.general_category().has_class() {
            self.high_byte()
        } else {
            0
        }
    }

    /// Whether the character may stay undrawn (`Default_Ignorable_Code_Point`).
    #[inline]
    pub fn is_ignorable(self) -> bool
        ensures { result ≡ is_ignorable self }
    {
        self.contains(UnicodeProps::IGNORABLE)
    }

    /// Whether lookups see the character, though it is ignorable.
    #[inline]
    pub fn is_hidden(self) -> bool
        ensures { result ≡ is_hidden self }
    {
        self.contains(UnicodeProps::HIDDEN)
    }

    /// Whether the character carries on the grapheme of the one before it.
    #[inline]
    pub fn is_continuation(self) -> bool
        ensures { result ≡ is_continuation self }
    {
        self.contains(UnicodeProps::CONTINUATION)
    }

    /// Sets the category. The combining class stays; where the old category or the new one is Cf or
    /// Zs, which have none, the high byte is 0 then.
    #[inline]
    pub fn set_general_category(&mut self, category: hb_unicode_general_category_t)
        ensures { self.new ≡ with_general_category category self.old }
    {
        let class = if category.has_class() {
            self.modified_combining_class()
        } else {
            0
        };
        let bits = self.0 / 32 % 8 * 32 + u16::from(category.number());
        self.0 = bits + 256 * u16::from(class);
    }

    /// Sets the high byte.
    #[inline]
    pub fn set_high_byte(&mut self, byte: u8)
        ensures { self.new ≡ with_high_byte byte self.old }
    {
        self.0 = self.0 & 0xFF | u16::from(byte) << 8;
    }

    /// Sets the combining class; where the category is Cf or Zs, which have none, nothing changes.
    #[inline]
    pub fn set_modified_combining_class(&mut self, class: u8)
        ensures { self.new ≡ with_modified_combining_class class self.old }
    {
        if self.general_category().has_class() {
            self.set_high_byte(class);
        }
    }

    /// Sets whether the character may stay undrawn (`Default_Ignorable_Code_Point`).
    #[inline]
    pub fn set_ignorable(&mut self, on: bool)
        ensures { self.new ≡ set_property IGNORABLE on self.old }
    {
        self.0 = set_bit(self.0, UnicodeProps::IGNORABLE.0, on);
    }

    /// Sets whether lookups see the character, though it is ignorable.
    #[inline]
    pub fn set_hidden(&mut self, on: bool)
        ensures { self.new ≡ set_property HIDDEN on self.old }
    {
        self.0 = set_bit(self.0, UnicodeProps::HIDDEN.0, on);
    }

    /// Sets whether the character carries on the grapheme of the one before it.
    #[inline]
    pub fn set_continuation(&mut self, on: bool)
        ensures { self.new ≡ set_property CONTINUATION on self.old }
    {
        self.0 = set_bit(self.0, UnicodeProps::CONTINUATION.0, on);
    }
}

//! What preparing a text reads of Unicode.
ghost use Rattle.std.specs.Prelude.{◌≡◌};
ghost use Rattle.shapers_buffer.specs.Settings.{character_of};
ghost use Rattle.shapers_prepare.specs.CharacterProperties.{CharacterProperties};
ghost use Rattle.shapers_prepare.specs.GlyphProperties.{is_mark_character, stored_properties};

use super::properties::properties_of_kind;
use shapers_base::buffer::{UnicodeProps, hb_unicode_general_category_t};
use shapers_unicode::UnicodeTables;

/// Properties of characters, by their numbers. Each is a function: the same call has the same
/// result.
pub trait UnicodeProperties {
    /// All of them as a value: their results.
    ghost properties: { Self → CharacterProperties };

    /// The general category of a character.
    fn general_category(&self, c: u32) -> hb_unicode_general_category_t
        ensures { result ≡ (properties self.now).general c };

    /// The combining class of a mark, as the shapers renumber it.
    fn modified_combining_class(&self, c: u32) -> u8
        ensures { result ≡ (properties self.now).class c };

    /// Whether a character is ignored by default, as the shapers have it.
    fn is_default_ignorable(&self, c: u32) -> bool
        ensures { result ≡ (properties self.now).ignorable c };

    /// The first three at once. An impl overrides this where one look-up tells them all.
    #[inline]
    fn character_kind(&self, c: u32) -> (hb_unicode_general_category_t, u8, bool)
        ensures { let p = properties self.now in
            result ≡ (p.general c, p.class c, p.ignorable c) }
    {
        (
            self.general_category(c),
            self.modified_combining_class(c),
            self.is_default_ignorable(c),
        )
    }

    /// What a glyph keeps of a character that carries on a grapheme only if it is a mark. An impl
    /// overrides this where one look-up tells it.
    #[inline]
    #[tactic(auto, using(crate::proofs::StoredKinds::alone))]
    fn stored_properties(&self, c: u32) -> UnicodeProps
        ensures { let p = properties self.now in
            result ≡ stored_properties p (is_mark_character p c) c }
    {
        let (general, class, ignorable) = self.character_kind(c);
        properties_of_kind(general, class, ignorable, false, c)
    }

    /// Whether a character is a pictograph of emoji (`Extended_Pictographic`).
    fn is_extended_pictographic(&self, c: u32) -> bool
        ensures { result ≡ (properties self.now).pictographic c };

    /// The mirrored character, if there is one.
    fn mirrored(&self, c: u32) -> Option<u32>
        ensures { result ≡ (properties self.now).mirroring c };

    /// The form for vertical text, if there is one.
    fn vertical_form(&self, c: u32) -> Option<u32>
        ensures { result ≡ (properties self.now).vertical c };
}

// Unicode's tables, in which a number that is no character has the properties of U+FFFD.
impl UnicodeProperties for UnicodeTables {
    ghost use Rattle.shapers_prepare.specs.UnicodeValues.{unicode_properties};

    ghost properties = { λ _. unicode_properties };

    #[inline]
    fn general_category(&self, c: u32) -> hb_unicode_general_category_t {
        shapers_unicode::general_category(character(c))
    }

    #[inline]
    fn modified_combining_class(&self, c: u32) -> u8 {
        shapers_unicode::modified_combining_class(character(c))
    }

    #[inline]
    fn is_default_ignorable(&self, c: u32) -> bool {
        shapers_unicode::is_default_ignorable(character(c))
    }

    #[inline(always)]
    fn character_kind(&self, c: u32) -> (hb_unicode_general_category_t, u8, bool) {
        shapers_unicode::character_kind(character(c))
    }

    // (in the walk, with the look-up, as a call for each character takes longer than both)
    #[inline(always)]
    #[tactic(auto, using(crate::proofs::StoredKinds::kept, crate::proofs::StoredKinds::alone))]
    fn stored_properties(&self, c: u32) -> UnicodeProps {
        let props = UnicodeProps(shapers_unicode::character_bits(c));
        if props.is_ignorable() {
            let (general, class, ignorable) = shapers_unicode::character_kind(character(c));
            return properties_of_kind(general, class, ignorable, false, c);
        }
        props
    }

    #[inline]
    fn is_extended_pictographic(&self, c: u32) -> bool {
        shapers_unicode::is_extended_pictographic(character(c))
    }

    #[inline]
    fn mirrored(&self, c: u32) -> Option<u32> {
        number(shapers_unicode::mirrored(character(c)))
    }

    #[inline]
    fn vertical_form(&self, c: u32) -> Option<u32> {
        number(shapers_unicode::vertical_form(character(c)))
    }
}

// The character of this number, or U+FFFD where it is none.
#[inline]
fn character(number: u32) -> char
    ensures { result ≡ character_of number }
{
    char::from_u32(number).unwrap_or(char::REPLACEMENT_CHARACTER)
}

// The number of a character.
#[inline]
fn number(character: Option<char>) -> Option<u32>
    ensures { result ≡ character }
{
    Some(character? as u32)
}

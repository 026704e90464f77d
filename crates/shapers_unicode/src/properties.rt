//! Properties of characters.
ghost use Rattle.std.specs.Prelude.{◌≡◌, ◌<◌};
ghost use Rattle.shapers_buffer.specs.Settings.{character_of};
ghost use Rattle.shapers_unicode.specs.CharacterBits.{character_bits};
ghost use Rattle.shapers_unicode.specs.Classes.{modified_class};
ghost use Rattle.shapers_unicode.specs.General.{category_of_character};
ghost use Rattle.shapers_unicode.specs.Ignorable.{default_ignorable};
ghost use Rattle.shapers_unicode.specs.Pictographic.{extended_pictographic};
ghost use Rattle.shapers_unicode.specs.Universal.{universal_category};
ghost use Rattle.shapers_unicode.specs.Indic.{indic_categories};
ghost use Rattle.shapers_unicode.specs.Joining.{joining_type};

use crate::table::value_of;
use crate::tables::character::{
    CHARACTER_BLOCKS, CHARACTER_INDEX, CHARACTER_KINDS, CHARACTER_TAIL,
};
use crate::tables::indic::{INDIC_BLOCKS, INDIC_INDEX, INDIC_PAIRS, INDIC_TAIL};
use crate::tables::joining::{JOINING_BLOCKS, JOINING_INDEX, JOINING_TAIL};
use crate::tables::pictographic::{PICTOGRAPHIC_BLOCKS, PICTOGRAPHIC_INDEX, PICTOGRAPHIC_TAIL};
use crate::tables::universal::{UNIVERSAL_BLOCKS, UNIVERSAL_INDEX, UNIVERSAL_TAIL};
use shapers_base::plan::{Category, Position, hb_arabic_joining_type_t};
use shapers_buffer::buffer::hb_unicode_general_category_t;

/// What a glyph keeps of a character that is always drawn, in one number that one look-up tells: the
/// general category, whether a font need not draw the character, whether it is a mark, and its class.
/// A number that is no character has those of U+FFFD.
// (in a caller's walk, as a call for each character takes longer than the look-up)
#[inline(always)]
pub fn character_bits(c: u32) -> u16
    ensures { result ≡ character_bits (character_of c) }
{
    // (one test for most characters, which are before the surrogates)
    if c < 0xD800 {
        bits_at(c)
    } else {
        bits_beyond(c)
    }
}

// The same of a number beyond them.
// (a call, so that its test isn't made for all)
#[inline(never)]
fn bits_beyond(c: u32) -> u16
    ensures { result ≡ character_bits (character_of c) }
{
    bits_at(char::from_u32(c).unwrap_or(char::REPLACEMENT_CHARACTER) as u32)
}

// The same of a code point.
#[inline(always)]
fn bits_at(c: u32) -> u16
    requires { c < 0x110000 }
    ensures { result ≡ character_bits c }
{
    let kind = value_of(&CHARACTER_INDEX, &CHARACTER_BLOCKS, &CHARACTER_TAIL, c);
    CHARACTER_KINDS[kind as usize]
}

/// The general category of a character.
#[inline]
pub fn general_category(c: char) -> hb_unicode_general_category_t
    ensures { result ≡ category_of_character c }
{
    let number = bits_at(c as u32) % 32;
    hb_unicode_general_category_t::from_number_or_unassigned(number as u8)
}

/// How a character joins its neighbours.
pub fn joining_type(c: char) -> hb_arabic_joining_type_t
    ensures { result ≡ joining_type c }
{
    let number = value_of(&JOINING_INDEX, &JOINING_BLOCKS, &JOINING_TAIL, c as u32);
    hb_arabic_joining_type_t::from_number(number).unwrap_or(hb_arabic_joining_type_t::U)
}

/// The class by which a mark is ordered: its canonical combining class as HarfBuzz changes it.
#[inline]
pub fn modified_combining_class(c: char) -> u8
    ensures { result ≡ modified_class c }
{
    (bits_at(c as u32) / 256) as u8
}

/// Whether a font need not draw a character: Unicode's default ignorable characters but Hangul's fillers
/// and Duployan's format controls.
#[inline]
pub fn is_default_ignorable(c: char) -> bool
    ensures { result ≡ default_ignorable c }
{
    bits_at(c as u32) / 32 % 2 == 1
}

/// The general category of a character, the class by which a mark is ordered, and whether a font need
/// not draw the character: all that one look-up tells.
// (in a caller's walk, as a call for each character takes longer than the look-up)
#[inline(always)]
pub fn character_kind(c: char) -> (hb_unicode_general_category_t, u8, bool)
    ensures { result ≡ (category_of_character c, modified_class c, default_ignorable c) }
{
    let bits = bits_at(c as u32);
    (
        hb_unicode_general_category_t::from_number_or_unassigned((bits % 32) as u8),
        (bits / 256) as u8,
        bits / 32 % 2 == 1,
    )
}

/// Whether a character is a pictograph that may be part of an emoji sequence (`Extended_Pictographic`).
pub fn is_extended_pictographic(c: char) -> bool
    ensures { result ≡ extended_pictographic c }
{
    value_of(
        &PICTOGRAPHIC_INDEX,
        &PICTOGRAPHIC_BLOCKS,
        &PICTOGRAPHIC_TAIL,
        c as u32,
    ) == 1
}

/// The category of a character in the universal shaper.
pub fn universal_category(c: u32) -> Category
    ensures { result ≡ universal_category c }
{
    value_of(&UNIVERSAL_INDEX, &UNIVERSAL_BLOCKS, &UNIVERSAL_TAIL, c)
}

/// The category and the position of a character in the Indic, Khmer and Myanmar shapers.
pub fn indic_categories(c: u32) -> (Category, Position)
    ensures { result ≡ indic_categories c }
{
    INDIC_PAIRS[value_of(&INDIC_INDEX, &INDIC_BLOCKS, &INDIC_TAIL, c) as usize]
}

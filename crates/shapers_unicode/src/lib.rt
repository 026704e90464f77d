//! Unicode's tables, as the shapers read them: what the trait `Tables` returns, and what else a text
//! needs before the shapers' hooks.
#![tactic(auto)]

ghost use Rattle.std.specs.Prelude.{◌≡◌};
ghost use Rattle.shapers_unicode.specs.Answers.{unicode_tables};
ghost use Rattle.shapers_unicode.specs.General.{category_of_character};
ghost use Rattle.shapers_unicode.specs.Indic.{indic_categories};
ghost use Rattle.shapers_unicode.specs.Joining.{joining_type};
ghost use Rattle.shapers_unicode.specs.Pairs.{composed, decomposed};
ghost use Rattle.shapers_unicode.specs.Universal.{universal_category};

use shapers_base::font::Tables;
use shapers_base::plan::{Category, Position, hb_arabic_joining_type_t};
use shapers_buffer::buffer::hb_unicode_general_category_t;

mod pairs;
mod properties;
mod table;
mod tables;
mod vertical;

pub use pairs::{compose, decompose, mirrored};
pub use properties::{
    character_bits, character_kind, general_category, indic_categories, is_default_ignorable,
    is_extended_pictographic, joining_type, modified_combining_class, universal_category,
};
pub use vertical::vertical_form;

/// The version of Unicode that the tables have.
pub const UNICODE_VERSION: (u8, u8, u8) = (17, 0, 0);

/// Unicode's tables. A character that decomposes to one other decomposes to it and U+0000, as in
/// HarfBuzz.
#[derive(Clone, Copy, Debug, Default, PartialEq, Eq)]
pub struct UnicodeTables;

impl Tables for UnicodeTables {
    ghost tables = { λ _. unicode_tables };

    #[inline]
    fn joining_type(&self, c: char) -> hb_arabic_joining_type_t
        ensures { result ≡ joining_type c }
    {
        properties::joining_type(c)
    }

    #[inline]
    fn general_category(&self, c: char) -> hb_unicode_general_category_t
        ensures { result ≡ category_of_character c }
    {
        properties::general_category(c)
    }

    #[inline]
    fn indic_categories(&self, c: u32) -> (Category, Position)
        ensures { result ≡ indic_categories c }
    {
        properties::indic_categories(c)
    }

    #[inline]
    fn use_category(&self, c: u32) -> Category
        ensures { result ≡ universal_category c }
    {
        properties::universal_category(c)
    }

    #[inline]
    fn compose(&self, a: char, b: char) -> Option<char>
        ensures { result ≡ composed a b }
    {
        pairs::compose(a, b)
    }

    #[inline]
    fn decompose(&self, ab: char) -> Option<(char, char)>
        ensures { result ≡ decomposed ab }
    {
        pairs::decompose(ab)
    }
}

//! A text before normalization, in the order of HarfBuzz's steps: properties, circle, clusters,
//! direction, vowels, ZWNJ's flags, rotation.

mod circle;
mod clusters;
mod direction;
mod joiners;
mod laws;
mod properties;
mod rotation;
mod unicode;
mod vowel_pairs;
mod vowels;

pub use circle::{BEGINNING_OF_TEXT, insert_dotted_circle};
pub use clusters::form_clusters;
pub use direction::ensure_native_direction;
pub use joiners::flag_zwnj_graphemes;
pub use laws::graphemes_law;
pub use properties::set_unicode_properties;
pub use rotation::{CharRotation, rotate_chars};
pub use unicode::UnicodeProperties;
pub use vowels::preprocess_text_vowel_constraints;

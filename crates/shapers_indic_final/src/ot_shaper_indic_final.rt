//! The final reordering of Indic syllables: after substitutions each finds its base again, and its
//! left matras, its reph and a formed pref glyph go to their places. (OpenType, development of
//! Indic scripts: "Final reordering".)
mod base;
mod glyphs;
pub mod laws;
mod left_matras;
mod matras;
mod moves;
mod pause;
mod placing;
mod pref;
mod reordering;
mod reph;
pub mod rules;
mod viramas;
mod word_start;

pub use pause::final_reordering;

//! The buffer of glyphs, and what every hook needs of it.
#![tactic(auto)]

pub mod buffer;

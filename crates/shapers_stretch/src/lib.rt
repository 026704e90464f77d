//! Marks of Arabic and Syriac that stretch over a word.
#![tactic(auto)]

pub mod ot_shaper_arabic_stretch;

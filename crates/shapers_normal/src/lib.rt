//! Normalization: the characters of a text become those that the font has glyphs for, in the order
//! that its lookups expect.
#![tactic(auto)]

pub mod ot_shape_normalize;

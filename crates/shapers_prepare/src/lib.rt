//! What is done to a text before normalization: the properties of its characters, its graphemes'
//! clusters, a circle in front, its direction, characters for another direction, and circles between
//! vowels.
#![tactic(auto)]

pub mod ot_shape_prepare;

//! The shaper of Hangul.
#![tactic(auto)]

pub mod ot_shaper_hangul;

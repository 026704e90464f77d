//! The shaper of Khmer.
#![tactic(auto)]

pub mod ot_shaper_khmer;

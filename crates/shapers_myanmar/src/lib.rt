//! The shaper of Myanmar.
#![tactic(auto)]

pub mod ot_shaper_myanmar;

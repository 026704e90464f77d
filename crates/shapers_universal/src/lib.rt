//! The universal shaper.
#![tactic(auto)]

pub mod ot_shaper_use;

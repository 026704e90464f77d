//! The shaper of the Indic scripts.
#![tactic(auto)]

pub mod ot_shaper_indic;

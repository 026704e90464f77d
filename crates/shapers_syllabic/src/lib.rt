//! What the shapers of syllabic scripts share.
#![tactic(auto)]

pub mod ot_shaper_syllabic;

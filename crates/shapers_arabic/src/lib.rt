//! The shaper of Arabic and of the scripts that join like it.
#![tactic(auto)]

pub mod ot_shaper_arabic;

//! The final reordering of Indic syllables.
#![tactic(auto)]

pub mod ot_shaper_indic_final;

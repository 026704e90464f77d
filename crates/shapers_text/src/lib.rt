//! The shapers that rewrite a text by rules of single scripts.
#![tactic(auto)]

pub mod ot_shaper_hebrew;
pub mod ot_shaper_thai;

//! A font file as the shapers, normalization, plans and positions read it.
#![tactic(auto)]

pub mod font;
pub mod lookups;
pub mod script_features;
mod stages;
pub mod text_tags;
pub mod would_apply;

//! The lookups of GSUB.
#![tactic(auto)]

pub mod apply;
pub mod apply_along;
pub mod decided;
pub mod edits;
pub mod flagging;
pub mod growth;
pub mod laws;
pub mod ligating;
pub mod machine;
pub mod matching;
pub mod pass;
mod plain;
pub mod presence;
pub mod reverse;
pub mod shifting;
pub mod substitute;
pub mod trying;

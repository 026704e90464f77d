//! How a caller calls the hooks, proved: `calling` in a pipeline, `reordering` pauses, `caret` where
//! a caret may stand in a word, `syllables` what a grammar finds in one, `edit` what an edit leaves of
//! one, `joined` what it leaves of the forms of letters, `masks` what a second joining leaves,
//! `breaks` where a word behind lookups may be broken, `shaped` what becomes of a word all the way,
//! `prepared` what lookups get of one, `normal` and `equivalent` what normalization leaves of one,
//! `stages` and `universal` what becomes of its syllables; and what is generic in the hooks, once at a
//! concrete type.
#![tactic(auto)]

pub mod breaks;
pub mod calling;
pub mod caret;
pub mod edit;
pub mod equivalent;
pub mod joined;
#[cfg(test)]
mod joining;
pub mod masks;
pub mod normal;
pub mod prepared;
pub mod reordering;
pub mod shaped;
pub mod stages;
pub mod syllables;
pub mod universal;

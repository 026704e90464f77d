//! Normalization keeps a text canonically equivalent.
#![tactic(auto)]

mod laws;

pub use laws::{equivalence_law, order_law, prepared_law, sequences_law, shapers_law, staying_law};

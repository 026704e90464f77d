//! The three rounds: decompose, reorder, recompose.

mod context;
mod decomposing;
mod laws;
mod normalizing;
mod numbering;
mod properties;
mod recomposing;
mod sorting;
mod variants;

pub use context::NormalizeContext;
pub use decomposing::{MAX_STEPS, decompose};
pub use laws::{
    clusters_law, halves_law, length_bound, monotone_law, normalization_halves_law, parts_law,
    whole_texts_law,
};
pub use normalizing::{Rounds, normalize};
pub use recomposing::recompose_in;
pub use sorting::{MAX_COMBINING_MARKS, order_marks_in, sort_marks_in};

//! What cursors, terminals and editors need of a shaped text: where a caret may stand, and what is
//! shaped again where a stretch of the text is replaced.
#![tactic(auto)]

mod caret;
mod edits;
mod masks;
mod pipeline;

pub use caret::{caret_law, caret_stops};
pub use edits::{
    Edit, Unaffected, affected, affected_law, affected_spans, span_edits_law, syllable_edits_law,
};
pub use masks::masks_again_law;
pub use pipeline::{normalization_edits_law, pipeline_breaks_law, pipeline_carets_law};

//! The syllables of a text, found by the grammars of the scripts.
#![tactic(auto)]

mod finding;
mod indic;
mod khmer;
mod laws;
mod machine;
mod myanmar;
mod passing;
mod reads;
mod spans;
mod syllables;
mod universal;

pub use indic::Indic;
pub use khmer::Khmer;
pub use laws::{spans_cut_between_spans, universal_reads_alike};
pub use machine::Machine;
pub use myanmar::Myanmar;
pub use reads::Reads;
pub use spans::{spans_into, spans_into_counted, spans_of};
pub use syllables::{find_syllables, find_syllables_counted, find_syllables_in};
pub use universal::Universal;

//! The lines of the program as commands: reads them, keeps what they set, and reports what is wrong
//! with them.
#![tactic(auto)]

mod command;
mod expected;
mod fault;
mod font;
mod input;
mod printing;
mod settings;
mod tables;

pub use command::{
    Command, GlyphField, HookCall, LineKind, Setting, Side, kind_of_line, read_line,
};
pub use expected::Expected;
pub use fault::{Fault, LineFault};
pub use font::LineFont;
pub use input::{lines_of, read_input};
pub use printing::{explain, print_buffer, report, write_text};
pub use settings::{Feature, Settings};
pub use tables::{CanonicalPair, CharacterEntry, LineTables};

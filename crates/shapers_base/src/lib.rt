//! What a shaper is given: the buffer, the font, the Unicode tables, the map and the plan.
#![tactic(auto)]

pub mod font;
pub mod map;
pub mod plan;

pub use shapers_buffer::buffer;

//! Marks that stretch: their tiles are laid, and laid again, over the word before them. (OpenType
//! `stch`.)

mod counting;
mod laws;
mod measuring;
mod parts;
mod postprocessing;
mod recording;
mod tiles;

pub use laws::widths_law;
pub use postprocessing::postprocess_glyphs;
pub use recording::{record_stch, record_stch_in};

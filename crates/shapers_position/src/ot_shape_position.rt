//! Glyphs around GPOS and behind it, in the order of HarfBuzz's steps: advances, marks without a
//! width, ignorable glyphs without one and then hidden, and the flags of each cluster.

mod advances;
mod flags;
mod hiding;
mod ignorables;
mod laws;
mod metrics;
mod positions;
mod spaces;
mod widths;

pub use advances::set_advances;
pub use flags::propagate_flags;
pub use hiding::hide_default_ignorables;
pub use ignorables::DefaultIgnorables;
pub use laws::{flags_law, hiding_law, positions_law};
pub use metrics::MetricsFont;
pub use spaces::set_space_widths;
pub use widths::{GlyphClasses, zero_mark_widths, zero_width_default_ignorables};

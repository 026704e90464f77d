//! What is done to glyphs around a font's positioning lookups and behind them: advances, marks and
//! ignorable characters without a width, ignorable glyphs hidden, flags of whole clusters.
#![tactic(auto)]

pub mod ot_shape_position;

//! The script shapers behind one enum, and everything that its callers name.
#![tactic(auto)]

pub mod shaper;

pub use shapers_arabic::ot_shaper_arabic;
pub use shapers_base::{buffer, font, map, plan};
pub use shapers_hangul::ot_shaper_hangul;
pub use shapers_indic::ot_shaper_indic;
pub use shapers_indic_final::ot_shaper_indic_final;
pub use shapers_indic_initial::ot_shaper_indic_initial;
pub use shapers_khmer::ot_shaper_khmer;
pub use shapers_myanmar::ot_shaper_myanmar;
pub use shapers_stretch::ot_shaper_arabic_stretch;
pub use shapers_syllabic::ot_shaper_syllabic;
pub use shapers_text::{ot_shaper_hebrew, ot_shaper_thai};
pub use shapers_universal::ot_shaper_use;

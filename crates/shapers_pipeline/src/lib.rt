//! From a text to glyphs: normalization for a shaper, all that comes before the font's lookups as
//! one call, and the stages of lookups with what the shaper does behind them.
#![tactic(auto)]

mod fractions;
mod laws;
mod lengths;
mod lookups;
mod masks;
mod normalizing;
mod plan;
mod planned;
mod positions;
mod prepare;
mod preprocessing;
mod settings;
mod shaping;
mod singles;
mod stages;
mod substitution;

pub use laws::{orders_alone_law, orders_monotone_law, pipeline_clusters_law};
pub use lengths::{length_bound, pipeline_lengths_law};
pub use lookups::Lookups;
pub use normalizing::{NormalizeFont, NormalizeSettings, NormalizeTables, ot_shape_normalize};
pub use plan::{StagePlan, TextPlan};
pub use prepare::prepare_text;
pub use settings::ShapeSettings;
pub use shaping::shape;
pub use singles::{Single, SingleLookups};
pub use stages::run_stages;
pub use substitution::substitute_text;

//! From requests for features to masks and stages of lookups (HarfBuzz's map).
mod compiling;
pub mod font_features;
pub mod lookups;
mod masks;
mod ordered;
mod requests;

pub(crate) use compiling::CompiledMap;
pub use font_features::FontFeatures;
pub use lookups::{Stage, StageLookup};
pub(crate) use masks::MappedFeature;
pub use masks::{F_GLOBAL_SEARCH, F_RANDOM};

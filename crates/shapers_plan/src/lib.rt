//! What a text's shaping takes of a font: features requested and joined, the bits of their masks,
//! the stages of their lookups, and the plan of a script's shaper over them.
#![tactic(auto)]

pub mod ot_map;
pub mod ot_shape_plan;

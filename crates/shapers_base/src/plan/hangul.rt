/// What Hangul keeps in the plan.
#[derive(Clone, Copy, Debug, PartialEq, Eq)]
pub struct hangul_shape_plan_t {
    /// The masks of the features of unmarked glyphs (none) and of leading, vowel and trailing jamo.
    pub mask_array: [u32; 4],
}

/// What Khmer keeps in the plan.
#[derive(Clone, Copy, Debug, PartialEq, Eq)]
pub struct khmer_shape_plan_t {
    /// The masks of `pref`, `blwf`, `abvf`, `pstf` and `cfar`, and 0 for `pres`, `abvs`, `blws` and
    /// `psts`, which hold for the whole text.
    pub mask_array: [u32; 9],
}

use super::arabic_shape_plan_t;

/// What the universal shaper keeps in the plan.
#[derive(Clone, Copy, Debug, PartialEq, Eq)]
pub struct use_shape_plan_t {
    /// The mask of `rphf`.
    pub rphf_mask: u32,
    /// The plan of Arabic, for scripts whose letters join.
    pub arabic_plan: Option<arabic_shape_plan_t>,
}

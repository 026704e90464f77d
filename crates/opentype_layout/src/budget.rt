//! Budgets in bytes, which pay for tables.
ghost use Rattle.std.specs.Prelude.{◌<◌, ◌≤◌};

/// How many of so many tables a budget pays for, at so many bytes each.
pub(crate) fn paid_for(count: u16, cost: usize, budget: &mut usize) -> u16
    requires { 0 < cost }
    ensures { result ≤ count }
{
    let paid = usize::from(count).min(*budget / cost);
    *budget = budget.saturating_sub(paid.saturating_mul(cost));
    paid as u16
}

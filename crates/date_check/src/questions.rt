// What is asked before any row is judged.
ghost use Rattle.std.specs.Prelude.{◌≡◌, ◌≤◌, true, length, OnOk};
ghost use Rattle.std.specs.List.{AllByRecursion};
ghost use Rattle.plan.specs.Plans.{closed};
ghost use Rattle.plan.specs.Rules.{banks_of, places_of};
ghost use Rattle.date_check.specs.Sound.{Fits};
ghost use Rattle.date_check.specs.Verdict.{all_in_range, arbiters_fit, questions};

use crate::dates::Dates;
use crate::refusal::Refusal;
use arbiter::Arbiter;
use plan::closed::ClosedPlan;

// Is there one arbiter per bank, and none narrower than the places?
pub fn arbiters_fit<A: Arbiter>(plan: &ClosedPlan, arbiters: &[A]) -> bool
    ensures answer { result ≡ arbiters_fit A.model (closed plan.now) arbiters.now }
    ensures facts { result ≡ true → (length arbiters.now ≡ banks_of (closed plan.now).head) × AllByRecursion (λ a. places_of (closed plan.now).head ≤ A.model.width a) arbiters.now }
{
    let head = plan.extent();
    arbiters.len() == head.banks
        && arbiters
            .iter()
            .all(|arbiter| head.places <= arbiter.width())
}

// Are all these dates in range?
fn all_in_range(dates: &[Dates]) -> bool
    ensures { result ≡ all_in_range dates.now (length dates.now) }
{
    dates.iter().all(|row| row.is_in_range())
}

// The questions about plan, arbiters and table. Analysis and set-up ask the first three too, and refuse in their own words: three conversions would be longer than the questions.
pub(crate) fn ask<A: Arbiter>(
    plan: &ClosedPlan,
    arbiters: &[A],
    dates: &[Dates],
) -> Result<(), Refusal>
    ensures answer { result ≡ questions A.model (closed plan.now) arbiters.now dates.now }
    ensures fits { OnOk result (Fits A.model (closed plan.now) arbiters.now dates.now) }
{
    if plan.is_empty() {
        return Err(Refusal::NoTask);
    }
    if !arbiters_fit(plan, arbiters) {
        return Err(Refusal::Arbiters);
    }
    let rows = plan.len();
    if dates.len() < rows {
        return Err(Refusal::Table);
    }
    if !all_in_range(&dates[..rows]) {
        return Err(Refusal::Range);
    }
    Ok(())
}

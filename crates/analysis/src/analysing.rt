// The analysis.
ghost use Rattle.std.specs.Prelude.{OnOk};
ghost use Rattle.plan.specs.Plans.{closed};
ghost use Rattle.date_check.specs.Sound.{Fits, Sound};
ghost use Rattle.analysis.specs.Answers.{Answer};

use crate::refusal::Refusal;
use crate::system::System;
use arbiter::Arbiter;
use date_check::{Dates, arbiters_fit};
use plan::closed::ClosedPlan;

// Finds the consistent dates of a plan. If all of them end within the period, they are written into the first rows of the table, one for each task, and the answer is the number of rounds.
#[tactic(auto, using(crate::proofs::Times::few_rows))]
pub fn analyse<A: Arbiter>(
    plan: &ClosedPlan,
    arbiters: &[A],
    dates: &mut [Dates],
) -> Result<u32, Refusal>
    ensures answer { Answer A.model (closed plan.now) arbiters.now dates.old dates.new result }
    ensures sound { OnOk result (Fits A.model (closed plan.now) arbiters.now dates.new × Sound A.model (closed plan.now) arbiters.now dates.new) }
{
    // The check says why it asks the first three on its own.
    if plan.is_empty() {
        return Err(Refusal::NoTask);
    }
    if !arbiters_fit(plan, arbiters) {
        return Err(Refusal::Arbiters);
    }
    let tasks = plan.len();
    if dates.len() < tasks {
        return Err(Refusal::Table);
    }
    let found = System { plan, arbiters }.find_dates();
    found.grant(plan.extent().period, &mut dates[..tasks])
}

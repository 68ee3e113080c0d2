// What set-up asks.
ghost use Rattle.std.specs.Prelude.{◌≡◌, length, OnOk};
ghost use Rattle.std.specs.Result.{result_err};
ghost use Rattle.plan.specs.Plans.{closed};
ghost use Rattle.cluster.specs.Calls.{all_in_range, all_quiet, is_late, runs_in_range, set_up_refusal};
ghost use Rattle.cluster.specs.Cycles.{lowest};
ghost use Rattle.setup.specs.Questions.{Rests, dates_refusal};

use arbiter::Arbiter;
use cluster::SetUpRefusal;
use date_check::{Dates, arbiters_fit};
use plan::closed::ClosedPlan;

// Does nobody wait at the arbiters?
fn all_quiet<A: Arbiter>(arbiters: &[A]) -> bool
    ensures { result ≡ all_quiet A.model arbiters.now }
{
    arbiters.iter().all(|arbiter| !arbiter.anyone())
}

// Are release and response in the check's range, and is the response at least 1?
fn in_range(dates: Dates) -> bool
    ensures { result ≡ runs_in_range dates }
{
    dates.is_in_range() && 1 <= dates.response
}

// Is that so of all rows?
fn all_in_range(dates: &[Dates]) -> bool
    ensures { result ≡ all_in_range dates.now (length dates.now) }
{
    dates.iter().all(|row| in_range(*row))
}

// The lowest row that finishes after the period.
fn first_late(plan: &ClosedPlan, dates: &[Dates]) -> Option<usize>
    ensures { result ≡ lowest (length dates.now) (is_late (closed plan.now) dates.now) }
{
    let period = plan.extent().period;
    dates.iter().position(|row| period < row.finish())
}

// What is asked of the tasks' dates, a row for each task.
fn ask_dates(plan: &ClosedPlan, dates: &[Dates]) -> Result<(), SetUpRefusal>
    requires { length dates.now ≡ length (closed plan.now).rows }
    ensures { result_err result ≡ dates_refusal (closed plan.now) dates.now }
{
    if !all_in_range(dates) {
        return Err(SetUpRefusal::Range);
    }
    match first_late(plan, dates) {
        Some(row) => Err(SetUpRefusal::Late(row)),
        None => Ok(()),
    }
}

// The first question with a no; without one, a run can rest on what was asked about.
pub fn ask<A: Arbiter>(
    plan: &ClosedPlan,
    dates: &[Dates],
    arbiters: &[A],
) -> Result<(), SetUpRefusal>
    ensures refusal { result_err result ≡ set_up_refusal A.model (closed plan.now) dates.now arbiters.now }
    ensures rests { OnOk result (Rests (closed plan.now) dates.now arbiters.now) }
{
    // The check says why it asks the first three on its own.
    if plan.is_empty() {
        return Err(SetUpRefusal::NoTask);
    }
    if !arbiters_fit(plan, arbiters) {
        return Err(SetUpRefusal::Arbiters);
    }
    let rows = plan.len();
    if dates.len() < rows {
        return Err(SetUpRefusal::Table);
    }
    if !all_quiet(arbiters) {
        return Err(SetUpRefusal::Waiting);
    }
    ask_dates(plan, &dates[..rows])
}

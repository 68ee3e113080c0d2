// The check.
ghost use Rattle.std.specs.Prelude.{◌≡◌};
ghost use Rattle.plan.specs.Plans.{closed};
ghost use Rattle.date_check.specs.Verdict.{Exact, verdict};

use crate::case::Case;
use crate::dates::Dates;
use crate::questions::ask;
use crate::refusal::Refusal;
use arbiter::Arbiter;
use plan::closed::ClosedPlan;

// Are the dates sound? The first question with a no gives the refusal.
pub fn check<A: Arbiter>(plan: &ClosedPlan, arbiters: &[A], dates: &[Dates]) -> Result<(), Refusal>
    ensures answer { result ≡ verdict A.model (closed plan.now) arbiters.now dates.now }
    ensures exact { Exact A.model (closed plan.now) arbiters.now dates.now result }
{
    ask(plan, arbiters, dates)?;
    let case = Case {
        plan,
        arbiters,
        dates,
    };
    case.judge()
}

// A case to be judged.
ghost use Rattle.std.specs.Prelude.{◌≡◌, ◌<◌, IfSome};
ghost use Rattle.plan.specs.Plans.{closed};
ghost use Rattle.plan.specs.Rows.{row, row_of};
ghost use Rattle.plan.specs.Waits.{previous_of};
ghost use Rattle.date_check.specs.Fitting.{Fits-prop};
ghost use Rattle.date_check.specs.Sound.{Fits};

use crate::dates::Dates;
use arbiter::Arbiter;
use plan::closed::ClosedPlan;
use plan::rows::Task;

// A plan with its arbiters and a table of dates, which fit each other.
// Rows go by their numbers, with the premise `HasRow`: a type for a known row would be made and taken apart at each turn of a loop.
#[derive(Drop)]
pub(crate) struct Case<'t, A: Arbiter> {
    pub(crate) plan: &'t ClosedPlan,
    pub(crate) arbiters: &'t [A],
    pub(crate) dates: &'t [Dates],
    ghost fits: { Fits A.model (closed plan.now) arbiters.now dates.now } by { Fits-prop A.model (closed plan.now) arbiters.now dates.now },
}

impl<A: Arbiter> Case<'_, A> {
    ghost use Rattle.date_check.specs.Cases.{HasRow, plan_of};

    // The task of row i.
    pub(crate) fn task(&self, i: usize) -> &Task
        requires { HasRow self.now i }
        ensures { row_of result.now ≡ row (plan_of self.now).rows i }
    {
        &self.plan.tasks()[i]
    }

    // The task before row i at its place; it is an earlier row.
    pub(crate) fn previous(&self, i: usize) -> Option<usize>
        requires { HasRow self.now i }
        ensures value { result ≡ previous_of (plan_of self.now).rows i }
        ensures earlier { IfSome result (λ k. k < i) }
    {
        self.plan.previous(i).unwrap()
    }
}

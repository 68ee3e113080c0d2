// Setting a run up.
ghost use Rattle.std.specs.Prelude.{None, Ok};
ghost use Rattle.plan.specs.Plans.{closed};
ghost use Rattle.cluster.specs.Calls.{set_up_refusal};
ghost use Rattle.setup.specs.Questions.{Rests};
ghost use Rattle.run.specs.Views.{SetsUp};

use crate::state::{Refused, Run};
use arbiter::Arbiter;
use cluster::{Place, Stage};
use date_check::Dates;
use plan::closed::ClosedPlan;

impl<'r, A: Arbiter> Run<'r, A> {
    // At first all places are idle, all tasks ahead, the time is 0 and no bank serves; then follow the releases of time 0.
    fn begin(plan: &'r ClosedPlan, dates: &'r [Dates], arbiters: Vec<A>) -> Run<'r, A>
        requires { Rests (closed plan.now) dates.now arbiters.items }
        ensures { SetsUp None plan.now dates.now arbiters.items (Ok result) }
    {
        let mut run = Run {
            plan,
            dates,
            time: 0,
            stages: [Stage::Ahead; 256],
            places: [Place::Idle; 32],
            services: [None; 16],
            arbiters,
            breach: None,
        };
        run.release_all();
        run
    }

    // A run, or the first question with a no and the arbiters as they were.
    pub fn set_up(
        plan: &'r ClosedPlan,
        dates: &'r [Dates],
        arbiters: Vec<A>,
    ) -> Result<Run<'r, A>, Refused<A>>
        ensures { SetsUp (set_up_refusal A.model (closed plan.now) dates.now arbiters.items) plan.now dates.now arbiters.items result }
    {
        match setup::ask(plan, dates, arbiters.as_slice()) {
            Ok(()) => Ok(Run::begin(plan, dates, arbiters)),
            Err(refusal) => Err(Refused { refusal, arbiters }),
        }
    }
}

// A plan and the arbiters of its banks, as the analysis reads them.
ghost use Rattle.std.specs.Prelude.{◌≡◌, true};
ghost use Rattle.plan.specs.Plans.{closed};
ghost use Rattle.date_check.specs.Verdict.{arbiters_fit};

use arbiter::Arbiter;
use plan::closed::ClosedPlan;

// There is one arbiter for each bank, and none is narrower than the places. Rows go by their numbers, with the premise that they are known, as those of the check do.
#[derive(Drop)]
pub(crate) struct System<'s, A: Arbiter> {
    pub(crate) plan: &'s ClosedPlan,
    pub(crate) arbiters: &'s [A],
    ghost fit: { arbiters_fit A.model (closed plan.now) arbiters.now ≡ true },
}

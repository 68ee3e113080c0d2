// Which tasks meet.
ghost use Rattle.std.specs.Prelude.{◌≡◌, ◌<◌};
ghost use Rattle.date_check.specs.Cases.{HasRow, plan_of};
ghost use Rattle.date_check.specs.Sound.{meets};

use crate::case::Case;
use arbiter::Arbiter;

impl<A: Arbiter> Case<'_, A> {
    // Are tasks i and k at different places, each released before the other's finish?
    pub(crate) fn meet(&self, i: usize, k: usize) -> bool
        requires { (HasRow self.now i) × (HasRow self.now k) }
        ensures { result ≡ meets (plan_of self.now).rows self.now.dates.now i k }
    {
        self.task(i).place != self.task(k).place && self.dates[i].overlaps(self.dates[k])
    }
}

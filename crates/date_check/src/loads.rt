// How much the tasks that meet a task load a bank.
ghost use Rattle.std.specs.Prelude.{◌≡◌, ◌<◌};
ghost use Rattle.date_check.specs.Cases.{HasRow, plan_of};
ghost use Rattle.date_check.specs.Sound.{loads, meets};

use crate::case::Case;
use arbiter::Arbiter;

impl<A: Arbiter> Case<'_, A> {
    // The accesses to a bank of all tasks that meet task i, added up by place.
    pub(crate) fn count_loads(&self, i: usize, bank: usize) -> [u64; 32]
        requires { (HasRow self.now i) × (bank < 16) }
        ensures { result ≡ loads (plan_of self.now).rows (meets (plan_of self.now).rows self.now.dates.now i) bank }
    {
        let mut counts = [0; 32];
        for (k, task) in self.plan.tasks().iter().enumerate() {
            if self.meet(i, k) {
                counts[task.place] += task.demands[bank];
            }
        }
        counts
    }
}

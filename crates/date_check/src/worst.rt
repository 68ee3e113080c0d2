// What a task takes at worst.
ghost use Rattle.std.specs.Prelude.{◌≡◌, ◌<◌, ◌≤◌, ◌*◌};
ghost use Rattle.plan.specs.Rows.{accesses, row};
ghost use Rattle.plan.specs.Rules.{places_of};
ghost use Rattle.arbiter.specs.Counts.{limit};
ghost use Rattle.date_check.specs.Cases.{HasRow, plan_of};
ghost use Rattle.date_check.specs.Sound.{loads, meets, services, worst};

use crate::case::Case;
use arbiter::Arbiter;

impl<A: Arbiter> Case<'_, A> {
    // How many services may pass at one bank, with its arbiter, until the accesses of task i are served.
    fn bank_services(&self, i: usize, bank: usize, arbiter: &A) -> u64
        requires { (HasRow self.now i) × (bank < 16) × (places_of (plan_of self.now).head ≤ A.model.width arbiter.now) }
        ensures value { result ≡ A.model.bound arbiter.now (row (plan_of self.now).rows i).place (accesses (row (plan_of self.now).rows i) bank) (loads (plan_of self.now).rows (meets (plan_of self.now).rows self.now.dates.now i) bank) }
        ensures bound { result ≤ limit }
    {
        let task = self.task(i);
        let counts = self.count_loads(i, bank);
        arbiter
            .bound(task.place, task.demands[bank], &counts)
            .unwrap()
    }

    // The same over all banks.
    fn count_services(&self, i: usize) -> u64
        requires { HasRow self.now i }
        ensures value { result ≡ services A.model (plan_of self.now).rows (meets (plan_of self.now).rows self.now.dates.now i) i 0 self.now.arbiters.now }
        ensures bound { result ≤ 16 * limit }
    {
        let mut count = 0;
        for (bank, arbiter) in self.arbiters.iter().enumerate() {
            count += self.bank_services(i, bank, arbiter);
        }
        count
    }

    // The cycles of task i, and the latency of each service that may pass.
    pub(crate) fn worst_time(&self, i: usize) -> u64
        requires { HasRow self.now i }
        ensures { result ≡ worst A.model (plan_of self.now) self.now.arbiters.now self.now.dates.now i }
    {
        self.task(i).cycles + self.plan.extent().latency * self.count_services(i)
    }
}

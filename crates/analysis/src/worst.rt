// What a task takes at worst if it meets certain tasks.
ghost use Rattle.std.specs.Prelude.{◌≡◌, ◌^◌, ◌<◌, false, length};
ghost use Rattle.analysis.specs.Systems.{plan_in, system_of};
ghost use Rattle.analysis.specs.Workings.{Loaded, marked};

use crate::system::System;
use crate::tables::Meetings;
use arbiter::Arbiter;

impl<A: Arbiter> System<'_, A> {
    // The cycles of task i, and the latency of each service that may pass until its accesses are served. A bank that it does not access adds none.
    // The check works it out for itself, from dates: it must know nothing of the analysis.
    pub(crate) fn work_time(&self, i: usize, meetings: &Meetings) -> u64
        requires known { i < length (plan_in self.now).rows }
        requires loaded { Loaded (plan_in self.now).rows meetings.now }
        requires alone { marked meetings.now.met i ≡ false }
        ensures value { result ≡ (system_of self.now).work i (marked meetings.now.met) }
        ensures low { result < 2 ^ 35 }
    {
        let task = &self.plan.tasks()[i];
        let mut services = 0;
        for (bank, arbiter) in self.arbiters.iter().enumerate() {
            let own = task.demands[bank];
            if own > 0 {
                let loads = &meetings.loads[bank];
                services += arbiter.bound(task.place, own, loads).unwrap();
            }
        }
        task.cycles + self.plan.extent().latency * services
    }
}

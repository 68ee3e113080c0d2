// The smallest responses for given releases.
ghost use Rattle.std.specs.Prelude.{◌≡◌, ◌<◌, length};
ghost use Rattle.consistency.specs.Dates.{Same, SmallestResponses, alone as alone_of};
ghost use Rattle.analysis.specs.Systems.{plan_in, system_of};
ghost use Rattle.analysis.specs.Workings.{Rising, Settled, column, release_in, response_in};

use crate::order::first_open;
use crate::system::System;
use crate::tables::{Meetings, Releases, Responses, Windows};
use arbiter::Arbiter;

impl<A: Arbiter> System<'_, A> {
    // Raises the response of task i from below until it is what the task takes at worst.
    fn settle(&self, windows: &mut Windows, i: usize)
        requires known { i < length (plan_in self.now).rows }
        requires rising { Rising (system_of self.now) (release_in windows.old) (response_in windows.old) }
        ensures settled { Settled (system_of self.now) (release_in windows.old) (response_in windows.old) (response_in windows.new) i }
        ensures releases { windows.new.releases ≡ windows.old.releases }
    {
        let mut meetings = Meetings::none();
        loop {
            meetings.meet_all(self.plan, windows, i);
            let worst = self.work_time(i, &meetings);
            if worst <= windows.responses.rows[i] {
                return;
            }
            windows.responses.rows[i] = worst;
        }
    }

    // From the times without meetings up. Whether two tasks meet depends only on the response of the one released first,
    // so the tasks are settled in the order of release, and none has to be settled again.
    #[tactic(auto, using(crate::proofs::Times::few_rows))]
    pub(crate) fn smallest_responses(&self, releases: &Releases, alone: &Responses) -> Responses
        requires { Same (system_of self.now) (column alone.now) (alone_of (system_of self.now)) }
        ensures { SmallestResponses (system_of self.now) (column releases.now) (column result) }
    {
        let tasks = self.plan.len();
        let mut windows = Windows {
            releases: *releases,
            responses: *alone,
        };
        let mut settled = [false; 256];
        while let Some(i) = first_open(&settled[..tasks], releases) {
            self.settle(&mut windows, i);
            settled[i] = true;
        }
        windows.responses
    }
}

// The rounds.
ghost use Rattle.analysis.specs.Systems.{system_of};
ghost use Rattle.analysis.specs.Workings.{FoundBy};

use crate::releases::renew;
use crate::system::System;
use crate::tables::{Found, Windows};
use arbiter::Arbiter;

impl<A: Arbiter> System<'_, A> {
    // From the first dates on, round after round, up to the one that changes no release: it is counted, too.
    #[tactic(auto, using(crate::proofs::Times::few_rows))]
    pub(crate) fn find_dates(&self) -> Found
        ensures { FoundBy (system_of self.now) result }
    {
        let tasks = self.plan.len();
        let alone = self.times_alone();
        let mut releases = renew(self.plan, &alone);
        let mut changing = 0;
        loop {
            let responses = self.smallest_responses(&releases, &alone);
            let renewed = renew(self.plan, &responses);
            if releases.rows[..tasks] == renewed.rows[..tasks] {
                return Found {
                    rounds: changing + 1,
                    windows: Windows {
                        releases: renewed,
                        responses,
                    },
                };
            }
            releases = renewed;
            changing += 1;
        }
    }
}

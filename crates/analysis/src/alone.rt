// What each task takes without meetings.
ghost use Rattle.std.specs.Prelude.{◌<◌};
ghost use Rattle.consistency.specs.Dates.{Same, alone};
ghost use Rattle.analysis.specs.Systems.{system_of};
ghost use Rattle.analysis.specs.Workings.{column};

use crate::system::System;
use crate::tables::{Meetings, Responses};
use arbiter::Arbiter;

impl<A: Arbiter> System<'_, A> {
    pub(crate) fn times_alone(&self) -> Responses
        ensures { Same (system_of self.now) (column result) (alone (system_of self.now)) }
    {
        let none = Meetings::none();
        let mut rows = [0; 256];
        for (i, time) in rows[..self.plan.len()].iter_mut().enumerate() {
            *time = self.work_time(i, &none);
        }
        Responses { rows }
    }
}

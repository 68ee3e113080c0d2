// Steps 3 and 4 of a cycle: services end, and tasks are done.
ghost use Rattle.std.specs.Prelude.{◌<◌};
ghost use Rattle.cluster.specs.Cycles.{all_ended, all_retired, end_service, retire};
ghost use Rattle.run.specs.Views.{Goes, planned};

use crate::state::Run;
use arbiter::Arbiter;
use cluster::{Event, Job, Place, Service, Stage};

impl<A: Arbiter> Run<'_, A> {
    // The service of bank b ends if it has no cycle left, and its place works.
    fn end_service(&mut self, b: usize)
        requires { b < 16 }
        ensures { Goes (end_service b) self.old self.new }
    {
        if let Some(Service { place, left: 0 }) = self.services[b] {
            self.services[b] = None;
            self.happen(place, Event::ServiceEnded);
        }
    }

    pub(crate) fn end_services(&mut self)
        ensures { Goes (all_ended (planned self.old)) self.old self.new }
    {
        for b in 0..self.plan.extent().banks {
            self.end_service(b);
        }
    }

    // A working place with no task cycles left is idle, and its task done.
    fn retire(&mut self, place: usize)
        requires { place < 32 }
        ensures { Goes (retire place) self.old self.new }
    {
        if let Place::Working(job) = self.places[place]
            && job.cycles == 0
        {
            self.places[place] = Place::Idle;
            self.mark(job.task, Stage::Done);
        }
    }

    pub(crate) fn retire_all(&mut self)
        ensures { Goes (all_retired (planned self.old)) self.old self.new }
    {
        for place in 0..self.plan.extent().places {
            self.retire(place);
        }
    }
}

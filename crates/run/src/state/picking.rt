// Step 1 of a cycle: each bank without a service picks.
ghost use Rattle.plan.specs.Rules.{banks_of, latency_of};
ghost use Rattle.cluster.specs.Cycles.{Picking, Turn, Turns};
ghost use Rattle.run.specs.Views.{HasBank, Moves, planned};

use crate::state::Run;
use arbiter::Arbiter;
use cluster::{Event, Service};

impl<A: Arbiter> Run<'_, A> {
    // The arbiter of bank b picks; the place that it has picked is served for the latency.
    fn pick(&mut self, b: usize)
        requires { HasBank self.old b }
        ensures { Moves (Picking A.model (latency_of (planned self.old).head) b) self.old self.new }
    {
        let left = self.plan.extent().latency;
        if let Some(place) = self.arbiters[b].pick() {
            self.services[b] = Some(Service { place, left });
            self.happen(place, Event::Picked);
        }
    }

    // A bank with a service does not pick.
    fn turn(&mut self, b: usize)
        requires { HasBank self.old b }
        ensures { Moves (Turn A.model (latency_of (planned self.old).head) b) self.old self.new }
    {
        if self.services[b].is_none() {
            self.pick(b);
        }
    }

    // The banks in turn.
    pub(crate) fn pick_all(&mut self)
        ensures { Moves (Turns A.model (latency_of (planned self.old).head) (banks_of (planned self.old).head)) self.old self.new }
    {
        for b in 0..self.plan.extent().banks {
            self.turn(b);
        }
    }
}

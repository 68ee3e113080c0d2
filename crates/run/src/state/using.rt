// Step 2 of a cycle: each service and each working place uses one cycle.
ghost use Rattle.std.specs.Prelude.{◌≡◌, map};
ghost use Rattle.cluster.specs.declared.place.Event.TheVariants.{CycleUsed};
ghost use Rattle.cluster.specs.Cycles.{service_used, used};
ghost use Rattle.cluster.specs.Places.{after};
ghost use Rattle.cluster.specs.States.{with_places, with_services};
ghost use Rattle.run.specs.Views.{Goes};

use crate::state::Run;
use arbiter::Arbiter;
use cluster::{Event, Service};

fn one_used(service: Option<Service>) -> Option<Service>
    ensures { result ≡ service_used service }
{
    service.map(|service| Service {
        left: service.left.saturating_sub(1),
        ..service
    })
}

impl<A: Arbiter> Run<'_, A> {
    fn use_places(&mut self)
        ensures { Goes (λ s. with_places s (map (λ x. after x CycleUsed) s.places)) self.old self.new }
    {
        for place in &mut self.places {
            place.on(Event::CycleUsed);
        }
    }

    fn use_services(&mut self)
        ensures { Goes (λ s. with_services s (map service_used s.services)) self.old self.new }
    {
        for service in &mut self.services {
            *service = one_used(*service);
        }
    }

    pub(crate) fn use_cycles(&mut self)
        ensures { Goes used self.old self.new }
    {
        self.use_places();
        self.use_services();
    }
}

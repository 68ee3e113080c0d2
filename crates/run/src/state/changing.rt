// Changes of one place and of one task.
ghost use Rattle.cluster.specs.States.{happen, with_stage};
ghost use Rattle.run.specs.Views.{Goes};

use crate::state::Run;
use arbiter::Arbiter;
use cluster::{Event, Stage};

impl<A: Arbiter> Run<'_, A> {
    // There is no place from 32 on. (A write through `get_mut` tells the proof nothing of the places.)
    pub(crate) fn happen(&mut self, place: usize, event: Event)
        ensures { Goes (λ s. happen s place event) self.old self.new }
    {
        if place < 32 {
            self.places[place].on(event);
        }
    }

    // There is no row from 256 on.
    pub(crate) fn mark(&mut self, row: usize, stage: Stage)
        ensures { Goes (λ s. with_stage s row stage) self.old self.new }
    {
        if row < 256 {
            self.stages[row] = stage;
        }
    }
}

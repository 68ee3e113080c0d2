// What a run tells; questions change nothing.
ghost use Rattle.std.specs.Prelude.{◌≡◌};
ghost use Rattle.run.specs.Views.{place_told, state, task_told};

use crate::state::Run;
use arbiter::Arbiter;
use cluster::{Breach, CallRefusal, Place, Stage};

impl<A: Arbiter> Run<'_, A> {
    pub fn time(&self) -> u64
        ensures { result ≡ (state self.now).time }
    {
        self.time
    }

    // How far the task of a row is.
    pub fn task(&self, row: usize) -> Result<Stage, CallRefusal>
        ensures { result ≡ task_told self.now row }
    {
        if row >= self.plan.len() {
            return Err(CallRefusal::Unknown);
        }
        Ok(self.stages[row])
    }

    pub fn place(&self, place: usize) -> Result<Place, CallRefusal>
        ensures { result ≡ place_told self.now place }
    {
        if place >= self.plan.extent().places {
            return Err(CallRefusal::Unknown);
        }
        Ok(self.places[place])
    }

    pub fn breach(&self) -> Option<Breach>
        ensures { result ≡ (state self.now).breach }
    {
        self.breach
    }
}

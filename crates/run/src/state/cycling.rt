// A cycle of the cluster.
ghost use Rattle.std.specs.Prelude.{◌≡◌, None};
ghost use Rattle.cluster.specs.Calls.{Cycle, Cycling};
ghost use Rattle.run.specs.Views.{Moves, Stays, planned, state, table};

use crate::state::Run;
use arbiter::Arbiter;
use cluster::CallRefusal;

impl<A: Arbiter> Run<'_, A> {
    // The steps of a cycle, in their order.
    fn advance(&mut self)
        requires { self.old.breach ≡ None }
        ensures { Moves (Cycling A.model (planned self.old) (table self.old)) self.old self.new }
    {
        self.pick_all();
        self.use_cycles();
        self.end_services();
        self.retire_all();
        self.close();
    }

    // One cycle of the cluster.
    pub fn cycle(&mut self) -> Result<(), CallRefusal>
        ensures cycles { Cycle A.model (planned self.old) (table self.old) (state self.old) result (state self.new) }
        ensures stays { Stays self.old self.new }
    {
        if self.breach.is_some() {
            return Err(CallRefusal::Breached);
        }
        self.advance();
        Ok(())
    }
}

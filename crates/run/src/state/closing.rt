// Step 5 of a cycle: time grows, finish dates are looked at, and releases follow.
ghost use Rattle.std.specs.Prelude.{◌≡◌, ◌+◌, ◌≤◌, None};
ghost use Rattle.plan.specs.Rules.{period_of};
ghost use Rattle.cluster.specs.Cycles.{close, overdue, wrapped};
ghost use Rattle.cluster.specs.States.{with_time};
ghost use Rattle.run.specs.Views.{Goes, planned, state, table};

use crate::state::Run;
use arbiter::Arbiter;
use cluster::{Breach, Stage};

impl<A: Arbiter> Run<'_, A> {
    // The lowest row whose task is at work at its finish date.
    fn overdue(&self, time: u64) -> Option<usize>
        ensures { result ≡ overdue (planned self.now) (table self.now) (with_time (state self.now) time) }
    {
        (0..self.plan.len()).find(|&row| self.stages[row].is_at_work()
            && self.dates[row].finish() == time)
    }

    // At the period, time becomes 0 and all tasks are ahead.
    fn move_to(&mut self, time: u64)
        requires later { 1 ≤ time }
        requires within { time ≤ period_of (planned self.old).head }
        ensures { Goes (λ s. wrapped (planned self.old) (with_time s time)) self.old self.new }
    {
        if time == self.plan.extent().period {
            self.time = 0;
            self.stages = [Stage::Ahead; 256];
        } else {
            self.time = time;
        }
    }

    pub(crate) fn close(&mut self)
        requires { self.old.breach ≡ None }
        ensures { Goes (λ s. close (planned self.old) (table self.old) (with_time s (s.time + 1))) self.old self.new }
    {
        let time = self.time + 1;
        if let Some(row) = self.overdue(time) {
            self.time = time;
            self.breach = Some(Breach::Overdue(row));
            return;
        }
        self.move_to(time);
        self.release_all();
    }
}

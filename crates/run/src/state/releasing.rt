// Releases, by rows. They go by their numbers, with the premise `HasRow`, as those of the check do.
ghost use Rattle.std.specs.Prelude.{◌≡◌, ◌<◌, length};
ghost use Rattle.plan.specs.Rows.{row as row_in, row_of};
ghost use Rattle.plan.specs.Waits.{waits_for};
ghost use Rattle.cluster.specs.Cycles.{all_done, ready, release, releases, start};
ghost use Rattle.run.specs.Views.{Goes, HasRow, planned, state, table};

use crate::state::Run;
use arbiter::Arbiter;
use cluster::{Breach, Job, Place, Stage};
use plan::rows::Task;

impl<A: Arbiter> Run<'_, A> {
    fn task_at(&self, row: usize) -> &Task
        requires { HasRow self.now row }
        ensures task { row_of result.now ≡ row_in (planned self.now).rows row }
        ensures placed { result.now.place < 32 }
    {
        &self.plan.tasks()[row]
    }

    // Does one row wait for another?
    fn waits_for(&self, row: usize, other: usize) -> bool
        requires row { HasRow self.now row }
        requires other { HasRow self.now other }
        ensures { result ≡ waits_for (planned self.now).rows row other }
    {
        self.plan.waits(row, other).unwrap()
    }

    // Are all done that a row waits for?
    fn all_done(&self, row: usize) -> bool
        requires { HasRow self.now row }
        ensures { result ≡ all_done (planned self.now) (state self.now) row (length (planned self.now).rows) }
    {
        (0..self.plan.len()).all(|k| !self.waits_for(row, k) || self.stages[k].is_done())
    }

    fn is_ready(&self, row: usize) -> bool
        requires { HasRow self.now row }
        ensures { result ≡ ready (planned self.now) (state self.now) row }
    {
        self.places[self.task_at(row).place].is_idle() && self.all_done(row)
    }

    // The task is at work, with its full cycles and accesses, and its place works.
    fn start(&mut self, row: usize)
        requires { HasRow self.old row }
        ensures { Goes (start (planned self.old) (table self.old) row) self.old self.new }
    {
        let task = self.task_at(row);
        let job = Job {
            task: row,
            cycles: task.cycles,
            accesses: task.demands,
        };
        self.places[task.place] = Place::Working(job);
        self.mark(row, Stage::AtWork);
    }

    // A task whose date is the time starts if it is ready, else there is a breach. After a breach there are no releases.
    fn release(&mut self, row: usize)
        requires { HasRow self.old row }
        ensures { Goes (release (planned self.old) (table self.old) row) self.old self.new }
    {
        if self.breach.is_some() || u64::from(self.dates[row].release) != self.time {
            return;
        }
        if self.is_ready(row) {
            self.start(row);
        } else {
            self.breach = Some(Breach::Unready(row));
        }
    }

    pub(crate) fn release_all(&mut self)
        ensures { Goes (releases (planned self.old) (table self.old) (length (planned self.old).rows)) self.old self.new }
    {
        for row in 0..self.plan.len() {
            self.release(row);
        }
    }
}

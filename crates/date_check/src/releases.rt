// Is a task released on time?
ghost use Rattle.std.specs.Prelude.{◌≡◌, ◌<◌, ◌≤◌, length, IsTrue, ◌↔◌};
ghost use Rattle.std.specs.List.{All};
ghost use Rattle.date_check.specs.Cases.{HasRow, plan_of};
ghost use Rattle.date_check.specs.Sound.{dated, finish};
ghost use Rattle.date_check.specs.Verdict.{all_finished, on_time};

use crate::case::Case;
use crate::dates::Dates;
use arbiter::Arbiter;

// Do all these rows finish by that date?
fn finished_by(dates: &[Dates], rows: &[usize], date: u64) -> bool
    requires { All (λ k. k < length dates.now) rows.now }
    ensures { IsTrue result ↔ All (λ k. finish (dated dates.now k) ≤ date) rows.now }
{
    rows.iter().all(|k| dates[*k].finish() <= date)
}

impl<A: Arbiter> Case<'_, A> {
    // Have all tasks that task i waits for finished when it is released?
    fn awaited_finished(&self, i: usize) -> bool
        requires { HasRow self.now i }
        ensures { result ≡ all_finished (plan_of self.now).rows self.now.dates.now i (length (plan_of self.now).rows) }
    {
        let release = u64::from(self.dates[i].release);
        finished_by(self.dates, self.task(i).after.as_slice(), release)
            && self
                .previous(i)
                .is_none_or(|k| self.dates[k].finish() <= release)
    }

    // Is task i released no earlier than its earliest date and the finishes that it waits for?
    pub(crate) fn released_on_time(&self, i: usize) -> bool
        requires { HasRow self.now i }
        ensures { result ≡ on_time (plan_of self.now).rows self.now.dates.now i }
    {
        self.task(i).earliest <= u64::from(self.dates[i].release) && self.awaited_finished(i)
    }
}

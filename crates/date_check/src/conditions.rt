// The conditions of one row, and of all rows in turn.
ghost use Rattle.std.specs.Prelude.{◌≡◌, ◌<◌, length};
ghost use Rattle.date_check.specs.Cases.{HasRow, plan_of};
ghost use Rattle.date_check.specs.Verdict.{row_verdict, rows_verdict};

use crate::case::Case;
use crate::refusal::Refusal;
use arbiter::Arbiter;

impl<A: Arbiter> Case<'_, A> {
    // The three conditions of row i.
    fn judge_row(&self, i: usize) -> Result<(), Refusal>
        requires { HasRow self.now i }
        ensures { result ≡ row_verdict A.model (plan_of self.now) self.now.arbiters.now self.now.dates.now i }
    {
        if !self.released_on_time(i) {
            return Err(Refusal::Early(i));
        }
        if u64::from(self.dates[i].response) < self.worst_time(i) {
            return Err(Refusal::Short(i));
        }
        if self.plan.extent().period < self.dates[i].finish() {
            return Err(Refusal::Late(i));
        }
        Ok(())
    }

    // All rows, from row 0 on.
    pub(crate) fn judge(&self) -> Result<(), Refusal>
        ensures { result ≡ rows_verdict A.model (plan_of self.now) self.now.arbiters.now self.now.dates.now (length (plan_of self.now).rows) }
    {
        for i in 0..self.plan.len() {
            self.judge_row(i)?;
        }
        Ok(())
    }
}

// Releases by the rule, row by row.
ghost use Rattle.std.specs.Prelude.{◌≡◌, ◌<◌, All, fold, length, max, slice_index};
ghost use Rattle.plan.specs.Plans.{closed};
ghost use Rattle.analysis.specs.Workings.{ReleasedRows, column};

use crate::tables::{Releases, Responses};
use plan::closed::ClosedPlan;

// The latest of a date and of the finishes of the rows in a list.
fn latest_finish(finishes: &[u64], list: &[usize], date: u64) -> u64
    requires { All (λ k. k < length finishes.now) list.now }
    ensures { result ≡ fold (λ latest k. max latest (slice_index finishes.now k)) date list.now }
{
    list.iter().fold(date, |latest, &k| latest.max(finishes[k]))
}

// Each task is released at the latest of its earliest date and of the finishes that it waits for; these have these responses and the releases found here.
// For each place, the finish of the task before is at hand.
#[tactic(auto, using(crate::proofs::Times::few_rows, date_check::proofs::Reading::read_count))]
pub(crate) fn renew(plan: &ClosedPlan, responses: &Responses) -> Releases
    ensures { ReleasedRows (closed plan.now).rows (column result) (column responses.now) }
{
    let mut rows = [0; 256];
    let mut finishes = [0; 256];
    let mut ends = [0; 32];
    for (i, task) in plan.tasks().iter().enumerate() {
        let ready = task.earliest.max(ends[task.place]);
        let release = latest_finish(&finishes, &task.after, ready);
        let finish = release + responses.rows[i];
        rows[i] = release;
        finishes[i] = finish;
        ends[task.place] = finish;
    }
    Releases { rows }
}

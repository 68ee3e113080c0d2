// Which tasks meet a task, and the loads that they add up to.
ghost use Rattle.std.specs.Prelude.{◌≡◌, ℕ, ◌<◌, true, false, List, length, slice_set};
ghost use Rattle.plan.specs.Plans.{closed};
ghost use Rattle.plan.specs.Rows.{Row};
ghost use Rattle.analysis.specs.Workings.{Loaded, MetAll, MetInPart, marked, release_in, response_in};

use crate::tables::{Meetings, Windows};
use plan::closed::ClosedPlan;

impl Meetings {
    // Nobody is met yet.
    pub(crate) fn none() -> Meetings
        ensures loads { (rows : List Row) → Loaded rows result }
        ensures nobody { (k : ℕ) → marked result.met k ≡ false }
    {
        Meetings {
            met: [false; 256],
            loads: [[0; 32]; 16],
        }
    }

    // Task k is met, too.
    #[tactic(auto, using(crate::proofs::Times::few_rows))]
    fn add(&mut self, plan: &ClosedPlan, k: usize)
        requires known { k < length (closed plan.now).rows }
        requires free { marked self.old.met k ≡ false }
        requires loaded { Loaded (closed plan.now).rows self.old }
        ensures marks { self.new.met ≡ slice_set self.old.met k true }
        ensures loads { Loaded (closed plan.now).rows self.new }
    {
        let task = &plan.tasks()[k];
        // By index: tried with `iter_mut`, after which the proof did not know what an inner array holds.
        for bank in 0..16 {
            self.loads[bank][task.place] += task.demands[bank];
        }
        self.met[k] = true;
    }

    // All tasks that task i meets in these windows are met. Those that are marked already stay so, since responses only grow.
    pub(crate) fn meet_all(&mut self, plan: &ClosedPlan, windows: &Windows, i: usize)
        requires known { i < length (closed plan.now).rows }
        requires met { MetInPart (closed plan.now).rows (release_in windows.now) (response_in windows.now) i self.old }
        ensures { MetAll (closed plan.now).rows (release_in windows.now) (response_in windows.now) i self.new }
    {
        let tasks = plan.tasks();
        let task = &tasks[i];
        for (k, other) in tasks.iter().enumerate() {
            if !self.met[k] && task.place != other.place && windows.overlap(i, k) {
                self.add(plan, k);
            }
        }
    }
}

// The questions that an open plan puts before it takes a row.
ghost use Rattle.std.specs.Prelude.{◌≡◌, ◌<◌, ◌≤◌, length, MatchOption};
ghost use Rattle.plan.specs.Plans.{opened};
ghost use Rattle.plan.specs.Rows.{row_of};
ghost use Rattle.plan.specs.Rules.{after_refusal, banks_of, demand_refusal, head_refusal, judged, legal_head, named, newest as newest_of, task_refusal};

use crate::open::OpenPlan;
use crate::rows::{Head, Refusal, Task};

impl OpenPlan {
    // How many tasks it has.
    pub(crate) fn rows(&self) -> usize
        ensures { result ≡ length (opened self.now).rows }
    {
        self.tasks.len()
    }

    // The newest task, if there is one.
    fn newest(&self) -> Option<&Task>
        ensures { MatchOption result (length (opened self.now).rows ≡ 0) (λ t. (0 < length (opened self.now).rows) × (row_of t.now ≡ newest_of (opened self.now))) }
    {
        self.tasks.last()
    }

    // A plan without a head has no banks.
    fn banks(&self) -> usize
        ensures value { result ≡ banks_of (opened self.now).head }
        ensures few { result ≤ 16 }
    {
        self.head.map_or(0, |head| head.banks)
    }

    // How many rows its tasks name in all.
    fn links(&self) -> usize
        ensures { result ≡ named (opened self.now).rows }
    {
        self.tasks.iter().map(|task| task.after.len()).sum()
    }

    pub(crate) fn ask_head(&self, head: Head) -> Result<(), Refusal>
        ensures { result ≡ judged (head_refusal (opened self.now) head) }
    {
        if self.head.is_some() {
            return Err(Refusal::Order);
        }
        if !is_legal(head) {
            return Err(Refusal::Range);
        }
        Ok(())
    }

    pub(crate) fn ask_task(&self, place: usize, cycles: u64, earliest: u64) -> Result<(), Refusal>
        ensures { result ≡ judged (task_refusal (opened self.now) place cycles earliest) }
    {
        let Some(head) = self.head else {
            return Err(Refusal::Order);
        };
        if head.places <= place {
            return Err(Refusal::Unknown);
        }
        if !(1..=1_000_000).contains(&cycles) || 1_000_000_000 < earliest {
            return Err(Refusal::Range);
        }
        if 256 <= self.rows() {
            return Err(Refusal::Full);
        }
        Ok(())
    }

    pub(crate) fn ask_demand(&self, bank: usize, count: u64) -> Result<(), Refusal>
        ensures { result ≡ judged (demand_refusal (opened self.now) bank count) }
    {
        let Some(newest) = self.newest() else {
            return Err(Refusal::Order);
        };
        if self.banks() <= bank {
            return Err(Refusal::Unknown);
        }
        if !(1..=65_535).contains(&count) {
            return Err(Refusal::Range);
        }
        if newest.demands[bank] != 0 {
            return Err(Refusal::Twice);
        }
        Ok(())
    }

    pub(crate) fn ask_after(&self, k: usize) -> Result<(), Refusal>
        ensures { result ≡ judged (after_refusal (opened self.now) k) }
    {
        let Some(newest) = self.newest() else {
            return Err(Refusal::Order);
        };
        if self.rows() - 1 <= k {
            return Err(Refusal::Unknown);
        }
        if newest.after.contains(&k) {
            return Err(Refusal::Twice);
        }
        if 2_048 <= self.links() {
            return Err(Refusal::Full);
        }
        Ok(())
    }
}

// Are the head's values within their limits?
fn is_legal(head: Head) -> bool
    ensures { result ≡ legal_head head }
{
    (1..=32).contains(&head.places)
        && (1..=16).contains(&head.banks)
        && (1..=64).contains(&head.latency)
        && (1..=1_000_000_000).contains(&head.period)
}

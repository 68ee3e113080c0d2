// The calls of an open plan.
ghost use Rattle.std.specs.Prelude.{◌≡◌, [], length, None, Err};
ghost use Rattle.plan.specs.declared.rows.Refusal.TheVariants.{Memory};
ghost use Rattle.plan.specs.Plans.{NamesFull, TasksFull, closed, opened};
ghost use Rattle.plan.specs.Rules.{Answered, Attempted, after_refusal, demand_refusal, head_refusal, task_refusal, with_after, with_demand, with_head, with_task};

use crate::closed::ClosedPlan;
use crate::open::OpenPlan;
use crate::rows::{Head, Refusal};
use std::alloc::Global;

impl OpenPlan {
    // A plan with no head and no row.
    pub fn new(heap: Global) -> OpenPlan
        ensures { opened result ≡ record { head = None; rows = [] } }
    {
        OpenPlan {
            head: None,
            tasks: Vec::new(heap),
            heap,
        }
    }

    // The head of a plan that has none yet.
    pub fn head(&mut self, head: Head) -> Result<(), Refusal>
        ensures { Answered (head_refusal (opened self.old) head) result tt (opened self.old) (opened self.new) (with_head (opened self.old) head) }
    {
        self.ask_head(head)?;
        self.set_head(head);
        Ok(())
    }

    // One task more; the answer is its row. Three numbers and no struct: a caller has them apart, and a struct would be made for this call alone.
    pub fn task(&mut self, place: usize, cycles: u64, earliest: u64) -> Result<usize, Refusal>
        ensures call { Attempted (task_refusal (opened self.old) place cycles earliest) result (length (opened self.old).rows) (opened self.old) (opened self.new) (with_task (opened self.old) place cycles earliest) }
        ensures memory { result ≡ Err Memory → TasksFull self.old }
    {
        self.ask_task(place, cycles, earliest)?;
        let row = self.rows();
        self.add_task(place, cycles, earliest)?;
        Ok(row)
    }

    // A demand of the newest task.
    pub fn demand(&mut self, bank: usize, count: u64) -> Result<(), Refusal>
        ensures { Answered (demand_refusal (opened self.old) bank count) result tt (opened self.old) (opened self.new) (with_demand (opened self.old) bank count) }
    {
        self.ask_demand(bank, count)?;
        self.add_demand(bank, count);
        Ok(())
    }

    // An earlier row that the newest task waits for.
    pub fn after(&mut self, k: usize) -> Result<(), Refusal>
        ensures call { Attempted (after_refusal (opened self.old) k) result tt (opened self.old) (opened self.new) (with_after (opened self.old) k) }
        ensures memory { result ≡ Err Memory → NamesFull self.old }
    {
        self.ask_after(k)?;
        self.add_after(k)
    }

    // The plan with its rows, to which no more can be added.
    pub fn close(self) -> ClosedPlan
        ensures { closed result ≡ opened self }
    {
        let OpenPlan {
            head,
            tasks,
            heap: _,
        } = self;
        ClosedPlan { head, tasks }
    }
}

// How an open plan takes a row that its questions let pass.
ghost use Rattle.std.specs.Prelude.{◌≡◌, None, Err};
ghost use Rattle.plan.specs.declared.rows.Refusal.TheVariants.{Memory};
ghost use Rattle.plan.specs.Plans.{NamesFull, TasksFull, opened};
ghost use Rattle.plan.specs.Rules.{Tried, after_refusal, demand_refusal, head_refusal, task_refusal, with_after, with_demand, with_head, with_task};

use crate::open::OpenPlan;
use crate::rows::{Head, Refusal, Task};

impl OpenPlan {
    pub(crate) fn set_head(&mut self, head: Head)
        requires { head_refusal (opened self.old) head ≡ None }
        ensures { opened self.new ≡ with_head (opened self.old) head }
    {
        self.head = Some(head);
    }

    pub(crate) fn add_task(
        &mut self,
        place: usize,
        cycles: u64,
        earliest: u64,
    ) -> Result<(), Refusal>
        requires { task_refusal (opened self.old) place cycles earliest ≡ None }
        ensures tried { Tried result (opened self.old) (opened self.new) (with_task (opened self.old) place cycles earliest) }
        ensures memory { result ≡ Err Memory → TasksFull self.old }
    {
        let task = Task {
            place,
            cycles,
            earliest,
            demands: [0; 16],
            after: Vec::new(self.heap),
        };
        self.tasks.push(task)?;
        Ok(())
    }

    pub(crate) fn add_demand(&mut self, bank: usize, count: u64)
        requires { demand_refusal (opened self.old) bank count ≡ None }
        ensures { opened self.new ≡ with_demand (opened self.old) bank count }
    {
        if let Some(newest) = self.tasks.last_mut() {
            newest.demands[bank] = count;
        }
    }

    pub(crate) fn add_after(&mut self, k: usize) -> Result<(), Refusal>
        requires { after_refusal (opened self.old) k ≡ None }
        ensures tried { Tried result (opened self.old) (opened self.new) (with_after (opened self.old) k) }
        ensures memory { result ≡ Err Memory → NamesFull self.old }
    {
        if let Some(newest) = self.tasks.last_mut() {
            newest.after.push(k)?;
        }
        Ok(())
    }
}

// What a closed plan tells.
ghost use Rattle.std.specs.Prelude.{◌≡◌, ◌<◌, ◌≤◌, true, map, length, Ok};
ghost use Rattle.plan.specs.Plans.{TaskTold, closed, demand_told, previous_told, waits_told};
ghost use Rattle.plan.specs.Rows.{row as row_in, row_of};
ghost use Rattle.plan.specs.Waits.{LastAt, latest_at, waits_for};

use crate::closed::ClosedPlan;
use crate::rows::{Head, Refusal, Task};

impl ClosedPlan {
    pub fn head(&self) -> Option<Head>
        ensures { result ≡ (closed self.now).head }
    {
        self.head
    }

    // All tasks, from row 0 on.
    pub fn tasks(&self) -> &[Task]
        ensures { map row_of result.now ≡ (closed self.now).rows }
    {
        self.tasks.as_slice()
    }

    pub fn task(&self, row: usize) -> Result<&Task, Refusal>
        ensures { TaskTold (closed self.now) row result }
    {
        if self.len() <= row {
            return Err(Refusal::Unknown);
        }
        Ok(self.at(row))
    }

    // A task's accesses to a bank.
    pub fn demand(&self, row: usize, bank: usize) -> Result<u64, Refusal>
        ensures { result ≡ demand_told (closed self.now) row bank }
    {
        let task = self.task(row)?;
        if self.extent().banks <= bank {
            return Err(Refusal::Unknown);
        }
        Ok(task.demands[bank])
    }

    // The task before it at its place.
    pub fn previous(&self, row: usize) -> Result<Option<usize>, Refusal>
        ensures { result ≡ previous_told (closed self.now) row }
    {
        let task = self.task(row)?;
        Ok(self.latest_at(task.place, row))
    }

    // Does one task wait for another? Only an earlier one is waited for.
    pub fn waits(&self, row: usize, other: usize) -> Result<bool, Refusal>
        ensures answer { result ≡ waits_told (closed self.now) row other }
        ensures earlier { result ≡ Ok true → other < row }
    {
        if self.len() <= row || self.len() <= other {
            return Err(Refusal::Unknown);
        }
        Ok(self.waits_for(row, other))
    }

    fn at(&self, row: usize) -> &Task
        requires { row < length (closed self.now).rows }
        ensures { row_of result.now ≡ row_in (closed self.now).rows row }
    {
        &self.tasks[row]
    }

    fn waits_for(&self, row: usize, other: usize) -> bool
        requires { row < length (closed self.now).rows }
        ensures answer { result ≡ waits_for (closed self.now).rows row other }
        ensures earlier { result ≡ true → other < row }
    {
        let task = self.at(row);
        task.after.contains(&other) || self.latest_at(task.place, row) == Some(other)
    }

    // The latest row below this one at a place.
    fn latest_at(&self, place: usize, row: usize) -> Option<usize>
        requires { row ≤ length (closed self.now).rows }
        ensures { result ≡ latest_at (closed self.now).rows place row }
    {
        last_at(&self.tasks[..row], place)
    }
}

// The last of these tasks at a place.
fn last_at(tasks: &[Task], place: usize) -> Option<usize>
    ensures { LastAt tasks.now place result }
{
    tasks.iter().rposition(|task| task.place == place)
}

// The task that a program follows through the layers.
ghost use Rattle.std.specs.Prelude.{◌≡◌, ◌≤◌, length, IfSome, IsNone, Some, Ok, vec_items};
ghost use Rattle.plan.specs.Plans.{TaskTold, closed};
ghost use Rattle.request.specs.Rows.{wanted_row};

use loader::noting::Loaded;
use plan::closed::ClosedPlan;
use plan::rows::Task;

#[derive(Clone, Copy)]
pub struct Followed<'a> {
    pub plan: &'a ClosedPlan,
    pub row: usize,
    pub task: &'a Task,
}

impl<'a> Followed<'a> {
    pub fn new(plan: &'a ClosedPlan, row: usize) -> Option<Followed<'a>>
        ensures plan { IfSome result (λ f. f.plan.now ≡ plan.now) }
        ensures row { IfSome result (λ f. f.row ≡ row) }
        ensures task { IfSome result (λ f. TaskTold (closed plan.now) row (Ok f.task)) }
        ensures none { IsNone result → length (closed plan.now).rows ≤ row }
    {
        let Ok(task) = plan.task(row) else {
            return None;
        };
        Some(Followed { plan, row, task })
    }
}

// The first row of this name; for an empty name the newest.
pub fn wanted_row(loaded: &Loaded, name: &[u8]) -> Option<usize>
    ensures { result ≡ wanted_row name.now (vec_items loaded.now.names) }
{
    if name.is_empty() {
        return loaded.names.len().checked_sub(1);
    }
    loaded.row_of(name)
}

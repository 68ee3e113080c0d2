// A closed plan.
ghost use Rattle.plan.specs.Rows.{plan_of};
ghost use Rattle.plan.specs.Rules.{Kept};

use crate::rows::{Head, Task};

mod extent;
mod questions;

// It takes no more rows, and keeps what it has. (∥ ∥₁ marks what it holds as a fact, not data.)
// No Model: callers and the theorem on runs rest on `kept`, and of a Model they would see the view alone.
#[derive(Drop)]
pub struct ClosedPlan {
    pub(crate) head: Option<Head>,
    pub(crate) tasks: Vec<Task>,
    ghost kept: { ∥ Kept (plan_of head tasks.items) ∥₁ },
}

// An open plan.
ghost use Rattle.plan.specs.Rows.{plan_of};
ghost use Rattle.plan.specs.Rules.{Kept};

use crate::rows::{Head, Task};
use std::alloc::Global;

mod adds;
mod asks;
mod calls;

// Rows may be added to it. (∥ ∥₁ marks what it holds as a fact, not data.)
// No Model: where memory may be wanting is told by the capacities of its fields.
#[derive(Drop)]
pub struct OpenPlan {
    head: Option<Head>,
    tasks: Vec<Task>,
    heap: Global,
    ghost kept: { ∥ Kept (plan_of head tasks.items) ∥₁ },
}

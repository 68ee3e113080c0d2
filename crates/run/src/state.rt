// A run: its plan and its dates, and how far it has come.
ghost use Rattle.std.specs.Prelude.{◌≡◌, ◌<◌, ◌≤◌, length};
ghost use Rattle.std.specs.Option.{ForNone};
ghost use Rattle.plan.specs.Plans.{closed};
ghost use Rattle.plan.specs.Rules.{banks_of, period_of};

use cluster::{Breach, Place, Service, SetUpRefusal, Stage};
use date_check::Dates;
use plan::closed::ClosedPlan;

mod asking;
mod changing;
mod closing;
mod cycling;
mod ending;
mod picking;
mod questions;
mod releasing;
mod setting_up;
mod using;

// There is room for the largest plan, in fixed memory, as a set-up has no refusal for want of memory; only the plan's rows, places and banks are used.
// Without a breach the time is below the period.
// No Model: the rules take plan, dates and state one by one, so `planned`, `table` and `state` are words over the fields.
#[derive(Drop)]
pub struct Run<'r, A> {
    plan: &'r ClosedPlan,
    dates: &'r [Dates],
    time: u64,
    stages: [Stage; 256],
    places: [Place; 32],
    services: [Option<Service>; 16],
    arbiters: Vec<A>,
    breach: Option<Breach>,
    ghost some: { 1 ≤ length (closed plan.now).rows },
    ghost few: { length (closed plan.now).rows ≤ 256 },
    ghost tabled: { length (closed plan.now).rows ≤ length dates.now },
    ghost staged: { length stages ≡ 256 },
    ghost placed: { length places ≡ 32 },
    ghost served: { length services ≡ 16 },
    ghost arbitrated: { length arbiters.items ≡ banks_of (closed plan.now).head },
    ghost timed: { ForNone breach (time < period_of (closed plan.now).head) },
}

// A set-up that was refused, and the arbiters as they were.
#[derive(Drop)]
pub struct Refused<A> {
    pub refusal: SetUpRefusal,
    pub arbiters: Vec<A>,
}

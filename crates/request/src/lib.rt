// What the programs share: the sheet that they are given, the task that they follow, and how they tell what the check says.
#![tactic(auto)]

mod following;
mod reading;
mod verdicts;

pub use following::{Followed, wanted_row};
pub use reading::read_sheet;

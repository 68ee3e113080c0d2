// The theory of consistent dates: there is one table of them, and the rounds find it.
#![tactic(auto)]

mod determined;
mod ending;

pub use determined::dates_are_determined;
pub use ending::rounds_end;

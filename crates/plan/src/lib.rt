// The plan of one period: rows are added to an open plan, and a closed plan keeps them.
#![tactic(auto)]

pub mod closed;
pub mod open;
pub mod rows;

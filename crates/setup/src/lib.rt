// What is asked before a run is set up.
#![tactic(auto)]

mod conditions;

pub use conditions::ask;

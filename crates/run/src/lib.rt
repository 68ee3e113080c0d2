// The run of a cluster.
#![tactic(auto)]

mod state;

pub use state::{Refused, Run};

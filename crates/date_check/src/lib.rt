// The check: are dates sound for a plan and its arbiters? It knows nothing of how they were found.
#![tactic(auto)]

mod case;
mod checking;
mod conditions;
mod dates;
mod keeping;
mod loads;
mod meeting;
mod questions;
mod refusal;
mod releases;
mod worst;

pub use checking::check;
pub use dates::Dates;
pub use keeping::soundness_keeps;
pub use questions::arbiters_fit;
pub use refusal::Refusal;

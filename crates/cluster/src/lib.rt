// The rules of a run: what a cluster is made of, and what asks and cycles make of it.
#![tactic(auto)]

mod breach;
mod place;
mod refusal;
mod service;
mod stage;

pub use breach::Breach;
pub use place::{Event, Job, Place};
pub use refusal::{CallRefusal, SetUpRefusal};
pub use service::Service;
pub use stage::Stage;

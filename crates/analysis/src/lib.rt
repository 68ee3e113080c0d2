// The dates of plans: every plan has one table of consistent dates, the analysis finds it, and where it fits the period it is sound.
#![tactic(auto)]

mod alone;
mod analysing;
mod dating;
mod granting;
mod meeting;
mod order;
mod refusal;
mod releases;
mod responses;
mod rounds;
mod system;
mod tables;
mod windows;
mod worst;

pub use analysing::analyse;
pub use dating::plans_are_dated;
pub use refusal::Refusal;

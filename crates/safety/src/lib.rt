// No run breaches sound dates.
#![tactic(auto)]

mod unbreached;

pub use unbreached::never_breached;

// Rings: arbiters that serve their sources in turn.
#![tactic(auto)]

mod lawful;
mod ring;

pub use lawful::laws;
pub use ring::Ring;

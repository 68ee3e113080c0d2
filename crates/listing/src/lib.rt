// The listing of an answer, written into memory that the caller lends.
#![tactic(auto)]

mod answer;
mod lines;
mod parts;
mod sizes;
#[cfg(test)]
mod tests;
mod writing;

pub use answer::{Answer, Row, Short};
pub use sizes::size;
pub use writing::list;

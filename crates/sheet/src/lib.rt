// Reads a sheet line by line: the head of a plan, its tasks, their demands and their dependencies.
#![tactic(auto)]

mod cutting;
pub mod faults;
mod fields;
pub mod laws;
pub mod lines;
mod parsing;
pub mod reader;

// A sheet has at most this many bytes.
pub const LIMIT: usize = 65_536;

// The number of the refusal of a longer one.
pub const TOO_LONG: u32 = 11;

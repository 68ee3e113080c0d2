// Layers: arbiters made of two arbiters of any make.
// The two layers are two types: they differ in their rule for picks and their formula for bounds, not in a type or a constant, and one
// layer over a trait of rules would have to state rules, formulas and their laws in that trait to save four calls of one line.
#![tactic(auto)]

mod alternation;
mod lawful;
mod pair;
mod precedence;

pub use alternation::Alternation;
pub use lawful::{alternation_laws, precedence_laws};
pub use precedence::Precedence;

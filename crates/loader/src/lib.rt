// Loads a sheet into an open plan, line by line.
#![tactic(auto)]

mod entering;
pub mod faults;
pub mod loading;
pub mod noting;

// Sheets that are refused, and lines that are accepted, with what the rules say of each.
#![tactic(auto)]

#[cfg(test)]
mod faults;
#[cfg(test)]
mod rows;

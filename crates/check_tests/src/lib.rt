// Dates worked by hand, and one for each refusal, with what the rules say of each.
#![tactic(auto)]

#[cfg(test)]
mod worked;

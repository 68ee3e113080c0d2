// The way in for programs in C or Rust that link the proved code.
#![tactic(auto)]

mod lending;

pub use lending::jemmaril_listing;

//! Worked examples of a work and a list that two passes share.
#![tactic(auto)]

mod numbers;
#[cfg(test)]
mod passes;

pub use numbers::{Numbers, Tally};

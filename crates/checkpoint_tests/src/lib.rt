//! Worked examples of checkpoints: texts that are one, and texts that are none.
#![tactic(auto)]

#[cfg(test)]
mod texts;

//! Worked examples of a log that two passes share, and of threads that append to it at once.
#![tactic(auto)]

#[cfg(test)]
mod beside;
#[cfg(test)]
mod passes;
#[cfg(test)]
mod races;
#[cfg(test)]
mod runs;

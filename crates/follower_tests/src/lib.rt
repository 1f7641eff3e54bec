//! Worked examples of a zone that catches up over connections in memory: what it takes, what is
//! asked, and how it ends.
#![tactic(auto)]

#[cfg(test)]
mod ends;
#[cfg(test)]
mod pairs;
#[cfg(test)]
mod peers;
#[cfg(test)]
mod taken;

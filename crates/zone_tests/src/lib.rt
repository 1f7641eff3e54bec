//! Worked examples of zones: what they answer, what they keep, and what a crash or a failing call
//! leaves of them.
#![tactic(auto)]

#[cfg(test)]
mod cases;
#[cfg(test)]
mod crashes;
#[cfg(test)]
mod openings;
#[cfg(test)]
mod searches;
#[cfg(test)]
mod tables;

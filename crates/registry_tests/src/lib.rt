//! Worked examples of a registry, alone and shared, and what a crash or a failing call
//! leaves of it.
#![tactic(auto)]

#[cfg(test)]
mod calls;
#[cfg(test)]
mod crashes;
#[cfg(test)]
mod openings;
#[cfg(test)]
mod shared;
#[cfg(test)]
mod states;

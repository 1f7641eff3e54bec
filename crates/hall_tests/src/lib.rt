//! Worked examples of logs that passes share by their slots.
#![tactic(auto)]

#[cfg(test)]
mod calls;
#[cfg(test)]
mod halls;
#[cfg(test)]
mod slots;
#[cfg(test)]
mod threads;

//! Worked examples of a zone that two passes share: what each is answered and what the other sees
//! then, how it catches up, and what failing calls leave.
#![tactic(auto)]

#[cfg(test)]
mod calls;
#[cfg(test)]
mod cases;
#[cfg(test)]
mod faults;
#[cfg(test)]
mod halls;
#[cfg(test)]
mod meddling;
#[cfg(test)]
mod peers;

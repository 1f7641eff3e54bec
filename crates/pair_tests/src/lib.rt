//! Worked examples of zones on two files: what they answer and keep, what their files hold behind a
//! checkpoint, and what a stop or a failing call leaves of them.
#![tactic(auto)]

#[cfg(test)]
mod cases;
#[cfg(test)]
mod crashes;
#[cfg(test)]
mod tables;

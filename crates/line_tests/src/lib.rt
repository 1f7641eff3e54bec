//! Worked examples of logs of lines, and of sorted lines.
#![tactic(auto)]

#[cfg(test)]
mod logs;
#[cfg(test)]
mod orders;

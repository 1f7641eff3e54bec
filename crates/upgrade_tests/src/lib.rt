//! Worked examples of files that are brought to the new form.
#![tactic(auto)]

#[cfg(test)]
mod directories;
#[cfg(test)]
mod stopping;
#[cfg(test)]
mod upgrades;

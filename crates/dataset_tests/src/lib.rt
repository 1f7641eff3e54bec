//! Worked examples of numbered terms, of keys in six orders, and of datasets.
//!
//! Where memory is wanting once, an example compares what stands, and succeeds at a second try.
#![tactic(auto)]

#[cfg(test)]
mod changes;
#[cfg(test)]
mod changing;
#[cfg(test)]
mod contents;
#[cfg(test)]
mod generated;
#[cfg(test)]
mod indexes;
#[cfg(test)]
mod numbers;
#[cfg(test)]
mod patches;
#[cfg(test)]
mod searching;
#[cfg(test)]
mod terms;

//! Worked examples of worlds: what is accepted, what a stop leaves, what a zone takes and a
//! mirror has, and many worlds made by rule.
#![tactic(auto)]

#[cfg(test)]
mod cases;
#[cfg(test)]
mod events;
#[cfg(test)]
mod mirrors;
#[cfg(test)]
mod parts;
#[cfg(test)]
mod plain;
#[cfg(test)]
mod random;
#[cfg(test)]
mod stops;

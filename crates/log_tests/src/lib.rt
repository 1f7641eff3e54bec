//! Worked examples of chains, disks, journals, logs and the files of them, and what a crash or a
//! failing call leaves.
#![tactic(auto)]

#[cfg(test)]
mod chains;
#[cfg(test)]
mod disks;
#[cfg(test)]
mod files;
#[cfg(test)]
mod forms;
#[cfg(test)]
mod fronts;
#[cfg(test)]
mod journals;
#[cfg(test)]
mod logs;
#[cfg(test)]
mod parts;
#[cfg(test)]
mod rewrites;
#[cfg(test)]
mod runs;
#[cfg(test)]
mod shelves;
#[cfg(test)]
mod steps;
#[cfg(test)]
mod tables;

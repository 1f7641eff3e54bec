//! Worked examples over threads and sockets. Of runs of the server: its statuses and lines, what connections are sent,
//! and what stands on the shelf and at the gates behind it. Of passes of a hall that serve connections side by side. Of
//! a client's calls over the system's sockets. `program_cases` has those of one pass after another, `rpc_cases` those
//! of calls over connections in memory.
#![tactic(auto)]

#[cfg(test)]
mod calls;
#[cfg(test)]
mod files;
#[cfg(test)]
mod runs;
#[cfg(test)]
mod same_patch;
#[cfg(test)]
mod side_by_side;
#[cfg(test)]
mod sockets;
#[cfg(test)]
mod words;

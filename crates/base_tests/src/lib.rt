//! Worked examples of ids, lists, texts and tables, of sources, sinks and links that fail in
//! mid-stream, and of whole texts that are written.
#![tactic(auto)]

#[cfg(test)]
mod ids;
#[cfg(test)]
mod lists;
#[cfg(test)]
mod outside;
#[cfg(test)]
mod tables;
#[cfg(test)]
mod writing;

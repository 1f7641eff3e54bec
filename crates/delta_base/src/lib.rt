//! Ids, texts, lists and the traits of the outside, on which every other crate stands.
//!
//! Nothing here knows of RDF. Sources, sinks and links tell their bytes to contracts where
//! they can, and count their failed calls, so that a caller's contract can say that a fault
//! has its cause outside.
#![tactic(auto)]

mod count;
mod fault;
mod id;
mod link;
mod list;
mod memory;
mod outside;
mod standard;
mod text;

pub use count::CallCount;
pub use fault::{Failed, OutOfMemory};
pub use id::{Id, exact_id, id_string, id_text, random_id, read_id};
pub use link::{Link, MemLink, StdLink};
pub use list::{Back, Calls, Listing};
pub use memory::{MemSink, MemSource};
pub use outside::{Sink, Source};
pub use standard::{StdSink, StdSource};
pub use text::{Bytes, Text};

//! The registry of named sources: its events, their texts, and what each call makes of them.
//!
//! Events fold into the sources that live. What a call replies is told by `registry_reply` in
//! `specs/Replies`, and which payloads are a registry's by `IsRegistryFile` in `specs/Events`.
//! Nothing here knows of disks or threads.
#![tactic(auto)]

mod answer;
mod checks;
mod event;
mod laws;
mod living;
mod lookups;
mod names;
mod opening;
mod reading;
mod registry;
mod texts;

pub use answer::{ChangeAnswer, CreateAnswer};
pub use event::{Entry, Event};
pub use laws::sources_are_apart;
pub use living::copies;
pub use lookups::{find_named, find_with_id, find_with_uri, listed};
pub use names::{name_fault, uri_fault};
pub use opening::{PayloadFault, read_registry};
pub use registry::{Ready, Registry};
pub use texts::{event_text, first_payload};

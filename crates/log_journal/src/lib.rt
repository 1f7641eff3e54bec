//! A journal of payloads, each on the disk before it is acknowledged.
//!
//! A file is a header and then payloads, each behind a gate of one byte. A gate is opened only
//! once what stands behind it is on the disk, so that a crash at any moment leaves the payloads
//! with the newest one or without it. Layers above cite `StandsFor` and `StandsInDoubt`, and say
//! nothing of bytes.
#![tactic(auto)]

mod at_front;
mod block;
mod either;
mod fault;
mod filling;
mod first_payload;
mod form;
mod front_laws;
mod journal;
mod laws;
mod making;
mod open;
mod reading;
mod receiver;
mod restarting;
mod synced_writes;
mod writing;

pub use at_front::{Front, FrontFault};
pub use block::Block;
pub use either::{FormLimits, read_either, write_anew};
pub use fault::{FormatFault, JournalFault};
pub use filling::FillFault;
pub use first_payload::front;
pub use form::Form;
pub use front_laws::one_front;
pub use journal::{AppendFault, Journal, OpenRefusal, StartRefusal};
pub use laws::one_reading;
pub use making::make_block;
pub use open::{Payloads, format};
pub use receiver::Receiver;
pub use writing::write;

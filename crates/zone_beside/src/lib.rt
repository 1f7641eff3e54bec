//! The file beside the current one of a zone on two disks: found, settled, and written anew.
//!
//! Whatever call of its disk fails, each image of it leaves the current file as it is, or holds
//! alone the payload that was to be written.
#![tactic(auto)]

mod beside;
mod fault;
mod filling;
mod finding;
mod looking;
mod one_payload;

pub use beside::{Beside, WriteRefusal, file_number};
pub use fault::{FindFault, WriteFault};
pub use finding::{FindRefusal, Found, find_current};
pub use one_payload::OnePayload;

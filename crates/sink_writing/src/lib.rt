//! Writing whole texts to a sink, short ones together, and to a link.
#![tactic(auto)]

mod room;
mod sending;
mod texts;
mod whole;

pub use room::{PIECE, Room};
pub use sending::{send_all, send_both};
pub use texts::write_texts;
pub use whole::write_all;

//! Which HTTP/1.x messages the bytes of a stream are, and the steps by which one is read: its
//! head, a body of a known length, chunks and trailers.
//!
//! `specs/Messages.antt` says which messages the bytes of a stream are, and how it ends.
#![tactic(auto)]

mod chunk;
mod front;
mod line;
mod stage;

pub use chunk::{step_content, step_content_end, step_line, step_trailers};
pub use line::LineAt;
pub use stage::{BodyPart, HeadEnd, MOST_HEAD, step_head, step_sized};

//! Heads of HTTP/1.x messages (RFC 9112): where one ends, its fields, how the length of the body
//! behind it is told, and the messages as values.
//!
//! `specs/Heads.antt` says which texts are heads and which faults one can have;
//! `specs/Framing.antt` how a body is framed.
#![tactic(auto)]

mod fields;
mod framing;
mod heads;
mod message;
mod progress;
mod room;

pub use fields::{closes, first_named, is_blank, split_at_byte, trim_blanks};
pub use framing::{
    FrameFault, Framing, MOST_BODY, are_digits, digits_value, expects, read_framing,
};
pub use heads::{HeadStep, ends_in_reason, is_head, read_reply_head, read_request_head};
pub use message::{Kind, Message, RawReply, RawRequest};
pub use progress::{HeadProgress, follow};
pub use room::make_room;

//! One call to a server over a connection, and calls one after another over as many connections
//! as it takes.
//!
//! Connections are made by a `Dial`, one value each. `ask` sends a request and reads the next
//! reply; `ask_again` does so over the connection that a `Line` has open, or over a new one.
//! `specs/Lines.antt` says which connections a call goes over, what is sent on them, and which
//! reply it answers.
#![tactic(auto)]

mod asking;
mod dial;
mod fault;
mod kind;
mod line;
mod memory_dial;
mod reply;
mod tcp_dial;

pub use asking::{Asked, ask, is_host};
pub use dial::{Dial, DialFault};
pub use fault::AskFault;
pub use line::{Line, Open, ask_again};
pub use memory_dial::MemDial;
pub use tcp_dial::TcpDial;

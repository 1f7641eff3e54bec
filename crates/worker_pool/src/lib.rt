//! Workers, each with a gate through which its connections come.
//!
//! A gate gives connections one after another and takes each back; a worker serves one at a time;
//! `serve_all` has the workers serve side by side, on threads. What a worker does on a connection
//! is the worker's own relation, so nothing here knows of logs; of HTTP one text is known to the
//! link over a socket.
#![tactic(auto)]

mod budget;
mod client_link;
mod door;
mod gate;
mod memory_gate;
mod pool;
mod tcp_gate;
mod worker;

pub use client_link::ClientLink;
pub use door::Door;
pub use gate::{Arrival, Gate};
pub use memory_gate::MemGate;
pub use pool::{Post, serve_all};
pub use tcp_gate::TcpGate;
pub use worker::Worker;

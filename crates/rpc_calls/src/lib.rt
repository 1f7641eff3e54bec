//! Calls: what a request asks of the server, and the request by which a client asks it.
//!
//! `specs/Calls.antt` says what a request asks, or the first reason why it is no call, and
//! `specs/Surfaces.antt` which calls a server takes; `specs/Requests.antt` says which request a
//! client sends for a call. None knows of connections or of logs.
#![tactic(auto)]

mod call;
mod count;
mod media;
mod members;
mod operations;
mod path;
mod print;
mod read;
mod route;
mod service;
mod surface;
mod values;

pub use call::{Call, CallFault};
pub use media::has_refused_media;
pub use members::text_of;
pub use path::{cut_path, read_segment};
pub use print::print_call;
pub use read::{read_call, read_call_on};
pub use service::{check_get, check_post, read_object, read_service};
pub use surface::Surface;

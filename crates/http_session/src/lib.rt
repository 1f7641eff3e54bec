//! One connection of a server: requests are read in pieces, each is answered, and the replies are
//! written in their order.
//!
//! Who answers is an `Answerer`; all that is HTTP stands here. `specs/Talks.antt` says what a
//! session has read and written when it ends, and why it ends.
#![tactic(auto)]

mod answerer;
mod session;
mod texts;

pub use answerer::{Answerer, Said};
pub use session::{MOST_REQUESTS, converse};

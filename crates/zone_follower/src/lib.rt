//! A zone that threads share, and that catches up with a log of a server over one of its passes.
//!
//! `follow` is to such a zone what `sync` of `follower` is to one that nobody shares: the zone is
//! asked what it has, and then each text that the peer answers is taken in a stay of its own. While
//! the peer is asked nobody waits for the turn, so other passes may take patches meanwhile.
//! `specs/Following.antt` says what that makes of the zone, in calls of one pass that are legal at
//! their points; `specs/Causes.antt` why it ended; and `specs/Bringing.antt` that the pass brings
//! no patch but those that it read.
#![tactic(auto)]

mod following;
mod laws;
mod taking;

pub use following::follow;
pub use laws::{followings_bring_what_they_read, followings_have_causes};

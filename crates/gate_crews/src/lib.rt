//! Crews of a server: workers of any kind at their gates, and back again.
//!
//! A server makes a worker of each of its passes, has the crew serve, and takes its passes back out
//! of the workers. The gates that have no worker are laid aside and gathered again behind the
//! others, and the counts of gates tell whether one failed. What the workers did is `worker_pool`'s
//! word for it; nothing here knows what they are.
#![tactic(auto)]

mod crew;
mod gates;
mod seat;

pub use crew::{Crew, serve_crew};
pub use gates::{counts, gather, have_failed, lay_aside};
pub use seat::Seat;

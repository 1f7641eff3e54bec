//! The logs of a hall, which up to sixteen passes share.
//!
//! A pass has a part of each log. A call goes to the log of a slot, is `CalledOnLog` there, and
//! leaves the other parts of its pass as they were. What many calls of a pass come to on one log
//! is told by `LogAddsUp` of `shared_log`.
#![tactic(auto)]

mod closing;
mod dealing;
mod laws;
mod logs;
mod opening;
mod pass;
mod refusal;
mod rooms;
mod sharing;

pub use laws::{calls_are_visits, passes_stay, visits_are_calls, visits_compose};
pub use logs::HallLogs;
pub use pass::LogsPass;
pub use refusal::LogsRefusal;
pub use rooms::Rooms;

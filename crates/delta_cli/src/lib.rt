//! The commands of `rdfdelta`.
#![tactic(auto)]

mod append;
mod ask;
mod calls;
mod check;
mod checkpoint;
mod command;
mod generate;
mod help;
mod init;
mod input;
mod marker;
mod nquads;
mod printing;
mod replay;
mod squash;
mod sync;
mod tool;
mod upgrade;
mod zone;
mod zone_words;

pub use append::Appended;
pub use command::Command;
pub use help::VERSION;
pub use tool::run_tool;

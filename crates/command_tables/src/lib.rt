//! What all commands share: their rows, the words behind their names, and the lines and
//! statuses by which they tell why they end without their result.
#![tactic(auto)]

mod address;
mod help;
mod lines;
mod name;
mod number;
mod positions;
mod refusal;
mod rows;

pub use address::is_address;
pub use help::print_help;
pub use name::Name;
pub use number::number_in;
pub use positions::{WordsFault, read_words};
pub use refusal::{Refusal, report};

//! Words that stand for the parts of a pattern, as those of the command `match`.
#![tactic(auto)]

mod words;

pub use words::{Position, graph_of, part_of, read_pattern, term_of};

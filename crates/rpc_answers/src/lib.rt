//! What a server answers, as replies of HTTP and read back from them.
//!
//! `specs/Answers.antt` is the table of answers: the status and the body of each. `print_answer`
//! writes the body byte for byte; `read_answer` takes any text of the same value. The law
//! `replies_are_one_answer` says that a reply prints one answer at most.
#![tactic(auto)]

mod answer;
mod bodies;
mod fault;
mod fields;
mod laws;
mod members;
mod names;
mod numbers;
mod print;
mod read;
mod sources;
mod texts;
mod values;

pub use answer::Answer;
pub use fault::AnswerFault;
pub use laws::{prints_are_read, replies_are_one_answer};
pub use print::{into_reply, print_answer};
pub use read::read_answer;

//! Scripts of worked examples: each line is a command's words and, behind `=>`, what it must answer.
//!
//! `csv` reads the lines: blanks part the words, and `'` stands round a word that has some. The escapes of a word are
//! those of `bstr`: `\n`, `\r`, `\t`, `\0`, `\\` and `\xFF`. Only safety is proved here, on purpose: a wrong reading of
//! a script shows as a line that differs, or as a count of lines that isn't the wanted one.
#![tactic(auto)]

mod answer;
mod running;
mod texts;
mod words;

pub use answer::Answer;
pub use running::{Layer, run_script};
pub use words::Words;

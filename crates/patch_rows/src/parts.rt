//! Rows of any length and their parts, for readers that keep the limit of rows or go over a row
//! step by step: of a whole text and of a text that may go on.

pub use crate::codes::{Code, find_code};
pub use crate::cut::{ends, is_cut_at, is_name_at};
pub use crate::rows::{dot, row_of};
pub use crate::space::pass_gap;
pub use crate::terms::{any, iri, is_at, is_letter_at, is_term_at, node};
pub use crate::words::{key, letters_end, prefix, prefix_iri, word, word_end};

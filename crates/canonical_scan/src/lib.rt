//! What stands in a text in canonical form (RDF 1.1 N-Quads, section 4), found by one scan that
//! makes no term; and the quad of a line, made from the places that the scan found.
//!
//! A place behind what was found is promised to be right. That nothing was found promises nothing:
//! then the text is read.
#![tactic(auto)]

mod chars;
mod iris;
mod labels;
mod line;
mod literals;
mod quads;
mod strings;
mod tags;
mod term;

pub use line::{LinePlaces, line_end, line_places};
pub use quads::made_quad;
pub use term::{iri_end, node_end, term_end};

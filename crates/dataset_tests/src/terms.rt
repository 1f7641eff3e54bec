//! Terms by their texts.
use delta_base::OutOfMemory;
use nquads_text::{ReadFault, read_term};
use rdf_terms::Term;
use std::alloc::Global;
use std::process::Abort;

/// The term of a text, which has one.
pub fn term(rt: &impl Abort, alloc: Global, text: &str) -> Result<Term, OutOfMemory> {
    match read_term(alloc, text.as_bytes(), 0) {
        Ok((term, _)) => Ok(term),
        Err(fault) => {
            assert!(rt; matches!(fault, ReadFault::OutOfMemory), "no term: {text}");
            Err(OutOfMemory)
        }
    }
}

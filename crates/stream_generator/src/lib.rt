//! A stream of any number of patches, made by rule: patch k adds a quad of its own, and each third
//! patch deletes an earlier one. It gives a large input whose replay is known.
#![tactic(auto)]

mod patch;
mod source;

pub use patch::{MOST_BYTES, patch_text, push_patch};
pub use source::GeneratedSource;

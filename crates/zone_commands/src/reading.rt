//! What is asked of a dataset.
use dataset_tx::Pattern;

#[derive(Drop)]
pub enum Reading {
    /// The lines of its quads.
    Dump,
    /// The rows that set its prefixes.
    Prefixes,
    /// The lines of its quads that match.
    Match(Pattern),
}

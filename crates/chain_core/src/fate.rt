//! What the device calls of an accepted append come to.

use log_base::Phase;

/// How the device calls of an append end. `opened` says whether a gate that was being written
/// stands open after a stop.
#[derive(Clone, Copy, Debug, PartialEq, Eq)]
pub enum Fate {
    Done,
    Fails(Phase),
    Stops { phase: Phase, opened: bool },
}

//! Why no line was written.

use delta_base::OutOfMemory;
use nquads_text::ReadFault;
use patch_rows::RowFault;
use std::alloc::{AllocError, AllocFailed};

/// Why no line was written.
#[derive(Clone, Copy)]
pub enum Unwritten {
    /// No row was found that is right and decided.
    NotFound,
    OutOfMemory,
}

impl From<ReadFault> for Unwritten {
    fn from(fault: ReadFault) -> Unwritten {
        match fault {
            ReadFault::At { .. } => Unwritten::NotFound,
            ReadFault::OutOfMemory => Unwritten::OutOfMemory,
        }
    }
}

impl From<RowFault> for Unwritten {
    fn from(fault: RowFault) -> Unwritten {
        match fault {
            RowFault::At { .. } => Unwritten::NotFound,
            RowFault::OutOfMemory => Unwritten::OutOfMemory,
        }
    }
}

impl From<OutOfMemory> for Unwritten {
    fn from(_e: OutOfMemory) -> Unwritten {
        Unwritten::OutOfMemory
    }
}

impl From<AllocError> for Unwritten {
    fn from(_e: AllocError) -> Unwritten {
        Unwritten::OutOfMemory
    }
}

impl<T: Drop> From<AllocFailed<T>> for Unwritten {
    fn from(_e: AllocFailed<T>) -> Unwritten {
        Unwritten::OutOfMemory
    }
}

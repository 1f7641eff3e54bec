//! Why a text makes no term.
ghost use Rattle.std.specs.Prelude.{◌≡◌};
ghost use Rattle.rdf_terms.specs.declared.fault.TermFault.TheVariants as faults;

use delta_base::OutOfMemory;
use std::alloc::AllocError;
use thiserror::Error;

/// Why a text makes no term of its kind. Places are in bytes.
#[derive(Clone, Copy, Debug, PartialEq, Eq, Error)]
pub enum TermFault {
    #[error("an IRI has no such character as that at byte {at}")]
    BadIri { at: usize },
    #[error("the IRI has no scheme")]
    RelativeIri,
    #[error("the label can't go on at byte {at}")]
    BadLabel { at: usize },
    #[error("the language tag can't go on at byte {at}")]
    BadLang { at: usize },
    #[error("rdf:langString needs a language tag")]
    LangStringWithoutTag,
    #[error("out of memory")]
    OutOfMemory,
}

impl From<OutOfMemory> for TermFault {
    ghost from_gives = { λ _ e. e ≡ faults.OutOfMemory };

    fn from(_error: OutOfMemory) -> TermFault {
        TermFault::OutOfMemory
    }
}

impl From<AllocError> for TermFault {
    ghost from_gives = { λ _ e. e ≡ faults.OutOfMemory };

    fn from(_error: AllocError) -> TermFault {
        TermFault::OutOfMemory
    }
}

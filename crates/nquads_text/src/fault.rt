//! Why a text could not be read.

ghost use Rattle.std.specs.Prelude.{◌≡◌};
ghost use Rattle.nquads_text.specs.Names.{text_kind_name};
ghost use Rattle.nquads_text.specs.declared.fault.ReadFault.TheVariants as faults;

use delta_base::{Back, OutOfMemory};
use std::alloc::{AllocError, AllocFailed};

/// What is wrong with a text.
#[derive(Clone, Copy, Debug, PartialEq, Eq)]
pub enum TextKind {
    NotUtf8,
    BadIri,
    RelativeIri,
    BadEscape,
    BadLabel,
    BadLang,
    LangStringWithoutTag,
    BadPosition,
    MissingDot,
    BadToken,
    Truncated,
}

impl TextKind {
    /// Its name, as lines and replies print it.
    pub fn name(self) -> &'static str
        ensures { result.now ≡ text_kind_name self }
    {
        match self {
            TextKind::NotUtf8 => "NotUtf8",
            TextKind::BadIri => "BadIri",
            TextKind::RelativeIri => "RelativeIri",
            TextKind::BadEscape => "BadEscape",
            TextKind::BadLabel => "BadLabel",
            TextKind::BadLang => "BadLang",
            TextKind::LangStringWithoutTag => "LangStringWithoutTag",
            TextKind::BadPosition => "BadPosition",
            TextKind::MissingDot => "MissingDot",
            TextKind::BadToken => "BadToken",
            TextKind::Truncated => "Truncated",
        }
    }
}

/// The first fault of a text and its place, or want of memory.
#[derive(Clone, Copy, Debug, PartialEq, Eq)]
pub enum ReadFault {
    At { at: usize, kind: TextKind },
    OutOfMemory,
}

impl From<OutOfMemory> for ReadFault {
    ghost from_gives = { λ _ e. e ≡ faults.OutOfMemory };

    fn from(_e: OutOfMemory) -> ReadFault {
        ReadFault::OutOfMemory
    }
}

impl From<AllocError> for ReadFault {
    ghost from_gives = { λ _ e. e ≡ faults.OutOfMemory };

    fn from(_e: AllocError) -> ReadFault {
        ReadFault::OutOfMemory
    }
}

impl<T: Drop> From<AllocFailed<T>> for ReadFault {
    ghost from_gives = { λ _ e. e ≡ faults.OutOfMemory };

    fn from(_e: AllocFailed<T>) -> ReadFault {
        ReadFault::OutOfMemory
    }
}

impl<T: Drop> From<Back<T>> for ReadFault {
    ghost from_gives = { λ _ e. e ≡ faults.OutOfMemory };

    fn from(_e: Back<T>) -> ReadFault {
        ReadFault::OutOfMemory
    }
}

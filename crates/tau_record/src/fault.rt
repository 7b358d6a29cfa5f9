//! Why a record could not be read.
ghost use Rattle.std.specs.Prelude.{◌≡◌};
ghost use Rattle.tau_record.specs.Content.{refused};
ghost use Rattle.tau_record.specs.declared.fault.FieldError.TheVariants.{Memory};
ghost use Rattle.tau_record.specs.declared.fault.RecordRefusal.TheVariants.{NoMemory};

use std::alloc::{AllocError, AllocFailed};
use tau_base::NoMemory;
use thiserror::Error;

/// What is wrong with a record: the first fault in the order of its fields. The numbers are those of reports.
#[derive(Clone, Copy, Debug, PartialEq, Eq, Error)]
pub enum RecordCause {
    /// Fewer than 5 bytes are left, or the length is above what is left.
    #[error("the record is cut short")]
    Short = 1,
    /// The kind may not stand here.
    #[error("a record of this kind may not stand here")]
    BadKind,
    /// A field runs past the length, or bytes are left over after the last field.
    #[error("the length is not that of the fields")]
    BadLength,
    /// The anchor's number is above the number of anchors before the record.
    #[error("there is no such anchor")]
    BadAnchor,
    /// A mask bit at or above the number of streams, a component that is not above the anchor's, or one that is too high.
    #[error("the vector is not spelled so")]
    BadMask,
    /// Any other field with a value that it may not have.
    #[error("a field has a value that it may not have")]
    BadBody,
}

/// A bad record.
#[derive(Clone, Copy, Debug, PartialEq, Eq, Error)]
#[error("the record at {at}: {cause}")]
pub struct RecordFault {
    /// Where it starts.
    pub at: u64,
    /// What is wrong with it.
    pub cause: RecordCause,
}

/// Why a content was not decoded.
#[derive(Clone, Copy, Debug, PartialEq, Eq, Error)]
pub enum RecordRefusal {
    /// Out of memory.
    #[error("out of memory")]
    NoMemory,
    /// It has no reading. This is its first bad record.
    #[error(transparent)]
    Bad(RecordFault),
}

/// Why a field was not read.
#[derive(Debug, Drop)]
pub(crate) enum FieldError {
    /// Out of memory.
    Memory,
    /// It is bad.
    Bad(RecordCause),
}

impl From<AllocError> for FieldError {
    ghost from_gives = { λ _ e. e ≡ Memory };

    fn from(_e: AllocError) -> FieldError {
        FieldError::Memory
    }
}

impl<T: Drop> From<AllocFailed<T>> for FieldError {
    ghost from_gives = { λ _ e. e ≡ Memory };

    fn from(_e: AllocFailed<T>) -> FieldError {
        FieldError::Memory
    }
}

impl From<NoMemory> for FieldError {
    ghost from_gives = { λ _ e. e ≡ Memory };

    fn from(_e: NoMemory) -> FieldError {
        FieldError::Memory
    }
}

impl From<AllocError> for RecordRefusal {
    ghost from_gives = { λ _ e. e ≡ NoMemory };

    fn from(_e: AllocError) -> RecordRefusal {
        RecordRefusal::NoMemory
    }
}

impl<T: Drop> From<AllocFailed<T>> for RecordRefusal {
    ghost from_gives = { λ _ e. e ≡ NoMemory };

    fn from(_e: AllocFailed<T>) -> RecordRefusal {
        RecordRefusal::NoMemory
    }
}

/// The refusal of the record at a place.
pub(crate) fn refusal_at(at: u64, e: FieldError) -> RecordRefusal
    ensures { result ≡ refused at e }
{
    match e {
        FieldError::Memory => RecordRefusal::NoMemory,
        FieldError::Bad(cause) => RecordRefusal::Bad(RecordFault { at, cause }),
    }
}

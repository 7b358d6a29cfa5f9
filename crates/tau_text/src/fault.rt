//! Why a text is refused.
ghost use Rattle.std.specs.Prelude.{◌≡◌};
ghost use Rattle.tau_text.specs.Causes.{cause_number};
ghost use Rattle.tau_text.specs.declared.fault.LineRefusal.TheVariants.{Memory};

use std::alloc::{AllocError, AllocFailed};
use tau_base::NoMemory;
use thiserror::Error;

/// What is wrong with the first bad line of a text. The causes are numbered from 1 in this order.
#[derive(Clone, Copy, Debug, PartialEq, Eq, Error)]
pub enum TextCause {
    /// The line's bytes are not UTF-8.
    #[error("not UTF-8")]
    NotUtf8,
    /// The first word is none of those that may stand here.
    #[error("unknown word")]
    UnknownWord,
    /// A well spelled name that is not declared above.
    #[error("unknown name")]
    UnknownName,
    /// A name that is declared already.
    #[error("declared twice")]
    Twice,
    /// No number where one must stand.
    #[error("bad number")]
    BadNumber,
    /// Another word that is not spelled as its place asks.
    #[error("bad step")]
    BadStep,
    /// A limit is passed, or the line has more words than its form.
    #[error("too many")]
    TooMany,
    /// The line has fewer words than its form.
    #[error("missing word")]
    Missing,
    /// A `when` or a procedure is not ended.
    #[error("no end")]
    NoEnd,
}

impl TextCause {
    /// The number of the cause, from 1 to 9.
    pub fn number(self) -> u8
        ensures { result ≡ cause_number self }
    {
        match self {
            TextCause::NotUtf8 => 1,
            TextCause::UnknownWord => 2,
            TextCause::UnknownName => 3,
            TextCause::Twice => 4,
            TextCause::BadNumber => 5,
            TextCause::BadStep => 6,
            TextCause::TooMany => 7,
            TextCause::Missing => 8,
            TextCause::NoEnd => 9,
        }
    }
}

/// The first bad line of a text, numbered from 1, and its cause.
#[derive(Clone, Copy, Debug, PartialEq, Eq, Error)]
#[error("line {line}: {cause}")]
pub struct TextFault {
    /// The line, from 1.
    pub line: u32,
    /// What is wrong with it.
    pub cause: TextCause,
}

/// Why a text was not read.
#[derive(Clone, Copy, Debug, PartialEq, Eq, Error)]
pub enum TextRefusal {
    /// Out of memory.
    #[error("out of memory")]
    NoMemory,
    /// The text is bad.
    #[error(transparent)]
    Bad(TextFault),
}

/// Why a line is refused.
#[derive(Debug, Drop)]
pub enum LineRefusal {
    Memory,
    Cause(TextCause),
}

impl From<NoMemory> for LineRefusal {
    ghost from_gives = { λ _ e. e ≡ Memory };

    fn from(_e: NoMemory) -> LineRefusal {
        LineRefusal::Memory
    }
}

impl From<AllocError> for LineRefusal {
    ghost from_gives = { λ _ e. e ≡ Memory };

    fn from(_e: AllocError) -> LineRefusal {
        LineRefusal::Memory
    }
}

impl<T: Drop> From<AllocFailed<T>> for LineRefusal {
    ghost from_gives = { λ _ e. e ≡ Memory };

    fn from(_e: AllocFailed<T>) -> LineRefusal {
        LineRefusal::Memory
    }
}

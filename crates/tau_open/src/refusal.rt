//! Why the streams were not opened.
ghost use Rattle.std.specs.Prelude.{◌≡◌};
ghost use Rattle.tau_open.specs.declared.refusal.OpenRefusal.TheVariants.{NoMemory};

use std::alloc::AllocError;
use thiserror::Error;

/// Why the streams of a run were not opened.
#[derive(Clone, Copy, Debug, PartialEq, Eq, Error)]
pub enum OpenRefusal {
    /// Out of memory.
    #[error("out of memory")]
    NoMemory,
    /// A call of a disk failed, and no other call was made after it.
    #[error("the disk of stream {stream} failed")]
    Failed {
        /// The stream of that disk.
        stream: u8,
    },
    /// A disk that is to be empty holds something. It is the lowest one that does.
    #[error("the disk of stream {stream} holds {length} bytes")]
    NotEmpty {
        /// The stream of that disk.
        stream: u8,
        /// The disk's length in bytes.
        length: u64,
    },
}

impl From<AllocError> for OpenRefusal {
    ghost from_gives = { λ _ refusal. refusal ≡ NoMemory };

    fn from(_e: AllocError) -> OpenRefusal {
        OpenRefusal::NoMemory
    }
}

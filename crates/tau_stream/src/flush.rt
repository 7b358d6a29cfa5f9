// Why a stream was not created or flushed.
use thiserror::Error;

/// Why a call of a writer did not go through.
#[derive(Clone, Copy, Debug, PartialEq, Eq, Error)]
pub enum Flush {
    /// Out of memory. `Writer::flush` never returns it.
    #[error("out of memory")]
    NoMemory,
    /// A call of the disk failed.
    #[error("the disk failed")]
    Failed,
    /// All up to there is durable already. `Writer::create` never returns it.
    #[error("nothing to flush")]
    Idle,
}

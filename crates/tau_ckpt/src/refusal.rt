//! Why a checkpoint was not written.
ghost use Rattle.std.specs.Prelude.{◌≡◌};
ghost use Rattle.tau_ckpt.specs.declared.refusal.CheckRefusal.TheVariants.{Failed as DiskFailed, NoMemory as OutOfMemory};

use std::alloc::AllocError;
use tau_base::NoMemory;
use tau_disk::Failed;
use thiserror::Error;

/// Why a checkpoint was not written.
#[derive(Clone, Copy, Debug, PartialEq, Eq, Error)]
pub enum CheckRefusal {
    /// Out of memory. No call of the disk was made.
    #[error("out of memory")]
    NoMemory,
    /// A call of the disk failed, and no other call was made after it.
    #[error("the disk of the slot failed")]
    Failed,
}

impl From<NoMemory> for CheckRefusal {
    ghost from_gives = { λ _ refusal. refusal ≡ OutOfMemory };

    fn from(_e: NoMemory) -> CheckRefusal {
        CheckRefusal::NoMemory
    }
}

//! Why a feed was refused.
ghost use Rattle.std.specs.Prelude.{◌≡◌};
ghost use Rattle.tau_follow.specs.declared.refusal.FollowRefusal.TheVariants.{NoMemory};

use std::alloc::{AllocError, AllocFailed};
use tau_base::NoMemory;
use tau_scan::LogFault;
use thiserror::Error;

/// Why a follower did not take what it was fed, or what was fed is no log.
#[derive(Clone, Copy, Debug, PartialEq, Eq, Error)]
pub enum FollowRefusal {
    /// Out of memory: nothing was taken.
    #[error("out of memory")]
    NoMemory,
    /// What was fed is no log. This is the first cause.
    #[error(transparent)]
    Bad(LogFault),
}

impl From<NoMemory> for FollowRefusal {
    ghost from_gives = { λ _ e. e ≡ NoMemory };

    fn from(_e: NoMemory) -> FollowRefusal {
        FollowRefusal::NoMemory
    }
}

impl From<AllocError> for FollowRefusal {
    ghost from_gives = { λ _ e. e ≡ NoMemory };

    fn from(_e: AllocError) -> FollowRefusal {
        FollowRefusal::NoMemory
    }
}

impl<T: Drop> From<AllocFailed<T>> for FollowRefusal {
    ghost from_gives = { λ _ e. e ≡ NoMemory };

    fn from(_e: AllocFailed<T>) -> FollowRefusal {
        FollowRefusal::NoMemory
    }
}

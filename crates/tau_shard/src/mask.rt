//! Sets of workers, as masks with a bit for each of 32 workers.
ghost use Rattle.std.specs.Prelude.{◌≡◌, ◌<◌, ℕ, ◌||◌, true, false, IfNone, IfSome};
ghost use Rattle.tau_shard.specs.Shard.{at};
ghost use Rattle.tau_shard.specs.Read.{bits};
ghost use Rattle.tau_shard.specs.Blocks.{IsLeast};

use tau_base::MAX_HOLDERS;

/// The set with this worker.
pub(crate) fn with(mask: u32, worker: u8) -> u32
    requires { worker < MAX_HOLDERS }
    ensures { bits result ≡ at worker true (bits mask) }
{
    mask | 1 << worker
}

/// The set without this worker.
pub(crate) fn without(mask: u32, worker: u8) -> u32
    requires { worker < MAX_HOLDERS }
    ensures { bits result ≡ at worker false (bits mask) }
{
    mask & !(1 << worker)
}

/// Both sets.
pub(crate) fn either(left: u32, right: u32) -> u32
    ensures { bits result ≡ (λ u. bits left u || bits right u) }
{
    left | right
}

/// The lowest worker of the set.
pub(crate) fn lowest(mask: u32) -> Option<u8>
    ensures found { IfSome result (λ u. IsLeast (bits mask) u) }
    ensures none { IfNone result ((u : ℕ) → bits mask u ≡ false) }
{
    if mask == 0 {
        None
    } else {
        Some(mask.trailing_zeros() as u8)
    }
}

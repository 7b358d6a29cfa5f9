//! Shards drop entries, and the clerk acknowledges calls.
ghost use Rattle.std.specs.Prelude.{◌≡◌, ◌<◌};
ghost use Rattle.tau_base.specs.declared.limits.TheConstants.{SHARDS};
ghost use Rattle.tau_core.specs.State.{plain};
ghost use Rattle.tau_core.specs.Stands.{Sound};
ghost use Rattle.tau_core.specs.Clerk.{Swept, AckedBy};
ghost use Rattle.tau_core.specs.Answered.{acked_by};

use crate::state::State;
use tau_ack::Waiting;

/// The shard drops the free entries that the persisted positions cover.
pub(crate) fn sweep(state: &mut State, shard: usize)
    requires sound { Sound (plain state.old) }
    requires there { shard < SHARDS }
    ensures { Swept (plain state.old) shard (plain state.new) }
{
    let part = &mut state.shards[shard];
    part.drop_covered(&state.plv);
}

/// The first pending call of the worker that is persisted is acknowledged, and written into `call`. Returns whether there was one.
pub(crate) fn ack(state: &mut State, worker: usize, call: &mut Waiting) -> bool
    requires sound { Sound (plain state.old) }
    requires there { worker < state.old.load.workers }
    ensures { AckedBy (plain state.old) worker (acked_by result call.new) (plain state.new) }
{
    let seat = &mut state.seats[worker];
    seat.pending.take_covered_into(&state.plv, call)
}

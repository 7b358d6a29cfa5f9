//! A worker gives keys back.
ghost use Rattle.std.specs.Prelude.{◌≡◌, ◌<◌};
ghost use Rattle.tau_core.specs.State.{plain};
ghost use Rattle.tau_core.specs.Stands.{Stood};
ghost use Rattle.tau_core.specs.Locks.{IsAtQuit, QuitBy};
ghost use Rattle.tau_core.specs.Workers.{GivesBack};
ghost use Rattle.tau_core.specs.Answered.{went_by};

use crate::event::Acted;
use crate::lock::leave;
use crate::state::State;
use tau_base::{Key, shard_of};

/// The call in hand, which is to quit, gives its lowest key back.
pub(crate) fn quit(state: &mut State, worker: usize) -> Acted
    requires stood { Stood (plain state.old) }
    requires there { worker < state.old.load.workers }
    ensures { QuitBy (plain state.old) worker (went_by result) (plain state.new) }
{
    let seat = &state.seats[worker];
    match seat.txn.quit_asked() {
        Some(key) => {
            give_back(state, worker, key);
            Acted::Went
        }
        None => Acted::Other {
            kind: seat.txn.kind(),
        },
    }
}

/// It gives this key back.
fn give_back(state: &mut State, worker: usize, key: Key)
    requires stood { Stood (plain state.old) }
    requires there { worker < state.old.load.workers }
    requires at { IsAtQuit (plain state.old) worker key }
    ensures { GivesBack worker (plain state.old) (plain state.new) }
{
    let part = &mut state.shards[usize::from(shard_of(key))];
    let seat = &mut state.seats[worker];
    part.quit(worker as u8, key);
    seat.txn.went(&state.load.procs);
    leave(seat, &state.load.procs);
}

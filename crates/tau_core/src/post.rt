//! A worker posts the record of its call.
ghost use Rattle.std.specs.Prelude.{◌≡◌, ◌+◌, ◌<◌, ◌≤◌, ◌++◌, ◌∷◌, [], List, Some, false, length};
ghost use Rattle.tau_base.specs.declared.limits.TheConstants.{MAX_LSN};
ghost use Rattle.tau_proc.specs.declared.proc.Proc.{Proc};
ghost use Rattle.tau_model.specs.History.{Act};
ghost use Rattle.tau_machine.specs.Hands.{Placed, Freeing};
ghost use Rattle.tau_machine.specs.Hands as theory;
ghost use Rattle.tau_outbox.specs.Pieces.{end_of};
ghost use Rattle.tau_txn.specs.declared.action.Action.TheVariants as Action;
ghost use Rattle.tau_txn.specs.Next.{next_action};
ghost use Rattle.tau_txn.specs.Txn.{RunsBy, bytes_in, hand_in, leaves_in};
ghost use Rattle.tau_core.specs.State.{plain};
ghost use Rattle.tau_core.specs.Stands.{Stood};
ghost use Rattle.tau_core.specs.Frees.{IsAtPost, PostBy, PostsRecord};
ghost use Rattle.tau_core.specs.Answered.{went_by};

use crate::event::Acted;
use crate::state::State;
use tau_base::stream_of;
use tau_outbox::Outbox;
use tau_txn::{ActionKind, Txn};

/// The record that has its place is posted.
pub(crate) fn post(state: &mut State, worker: usize) -> Acted
    requires stood { Stood (plain state.old) }
    requires there { worker < state.old.load.workers }
    ensures { PostBy (plain state.old) worker (went_by result) (plain state.new) }
{
    let seat = &state.seats[worker];
    match seat.txn.kind() {
        ActionKind::Post => {
            post_record(state, worker);
            Acted::Went
        }
        kind => Acted::Other { kind },
    }
}

/// It is posted.
fn post_record(state: &mut State, worker: usize)
    requires stood { Stood (plain state.old) }
    requires there { worker < state.old.load.workers }
    requires at { IsAtPost (plain state.old) worker }
    ensures { PostsRecord worker (plain state.old) (plain state.new) }
{
    let limit = state.ends.get(stream_of(worker, state.load.streams));
    let seat = &mut state.seats[worker];
    post_from(&mut seat.txn, seat.start, &mut seat.outbox);
}

/// The record of the call, which starts there, is posted. The memory of one that was gathered serves the next.
pub fn post_from(txn: &mut Txn, start: u64, outbox: &mut Outbox)
    requires next { next_action txn.old ≡ Action.Post }
    requires room { 1 ≤ outbox.old.room }
    requires order { end_of 0 outbox.old.pieces ≤ start }
    requires small { start + length (bytes_in txn.old) < MAX_LSN }
    ensures pieces { outbox.new.pieces ≡ outbox.old.pieces ++ record { start = start; bytes = bytes_in txn.old } ∷ [] }
    ensures room { outbox.new.room + 1 ≡ outbox.old.room }
    ensures closed { outbox.new.closed ≡ outbox.old.closed }
    ensures posted { (procs : List Proc) (hand : theory.Hand) (act : Act theory.Txn) → RunsBy procs txn.old → hand_in procs txn.old ≡ Some hand → hand.phase ≡ Placed act →
        hand_in procs txn.new ≡ Some (record hand { phase = Freeing act }) }
    ensures runs { (procs : List Proc) → RunsBy procs txn.old → RunsBy procs txn.new }
    ensures stays { leaves_in txn.old ≡ false → leaves_in txn.new ≡ false }
    ensures same { txn.new ≡ record txn.old { hand = txn.new.hand } }
{
    let bytes = txn.take_bytes();
    outbox.post(start, bytes);
    txn.keep(outbox.spare());
}

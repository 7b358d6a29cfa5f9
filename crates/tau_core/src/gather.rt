//! The manager of a stream gathers posted pieces.
ghost use Rattle.std.specs.Prelude.{◌≡◌, ◌<◌, ◌≤◌, ◌-◌, ◌%◌, min, slice_get, slice_index, None, OnOk};
ghost use Rattle.tau_core.specs.State.{plain};
ghost use Rattle.tau_core.specs.Stands.{Stood};
ghost use Rattle.tau_core.specs.View.{stop_in};
ghost use Rattle.tau_core.specs.Anchors.{Reserves};
ghost use Rattle.tau_core.specs.Gather.{MovesOwn, MovesPosted, GathersOn, Gathered, Roomy, AllGathered};
ghost use Rattle.tau_core.specs.Ends.{IsNext};
ghost use Rattle.tau_core.specs.Answered.{gathered_by};

use crate::event::Gathering;
use crate::state::State;
use tau_base::{MAX_BODY, NoMemory};

/// Gathers the posted pieces that continue the stream.
pub(crate) fn gather(state: &mut State, stream: usize) -> Gathering
    requires stood { Stood (plain state.old) }
    requires there { stream < state.old.load.streams }
    ensures { Gathered (plain state.old) stream (gathered_by result) (plain state.new) }
{
    let part = &state.streams[stream];
    if let Some(at) = part.stop {
        return Gathering::Stopped { at };
    }
    gather_going(state, stream)
}

/// Where all that was placed is gathered nothing continues the stream.
fn gather_going(state: &mut State, stream: usize) -> Gathering
    requires stood { Stood (plain state.old) }
    requires there { stream < state.old.load.streams }
    requires going { stop_in (slice_get state.old.streams.items stream) ≡ None }
    ensures { Gathered (plain state.old) stream (gathered_by result) (plain state.new) }
{
    let upto = state.gathered.get(stream);
    let past = state.ends.get(stream);
    if upto == past {
        return Gathering::Upto { upto };
    }
    gather_all(state, stream)
}

/// Makes room for all that may come, so that nothing stops it once it has begun, and gathers round after round until nothing continues the stream.
fn gather_all(state: &mut State, stream: usize) -> Gathering
    requires stood { Stood (plain state.old) }
    requires there { stream < state.old.load.streams }
    requires going { stop_in (slice_get state.old.streams.items stream) ≡ None }
    ensures { Gathered (plain state.old) stream (gathered_by result) (plain state.new) }
{
    if reserve_body(state, stream).is_err() {
        return Gathering::NoMemory;
    }
    loop {
        let before = state.gathered.get(stream);
        gather_round(state, stream);
        let upto = state.gathered.get(stream);
        if upto == before {
            return Gathering::Upto { upto };
        }
    }
}

/// Makes room in the body for all that may be gathered.
fn reserve_body(state: &mut State, stream: usize) -> Result<(), NoMemory>
    requires stood { Stood (plain state.old) }
    requires there { stream < state.old.load.streams }
    ensures made { Reserves stream (plain state.old) (plain state.new) }
    ensures roomy { OnOk result (Roomy stream (plain state.new)) }
{
    let gathered = state.gathered.get(stream);
    let past = state.ends.get(stream);
    let part = &mut state.streams[stream];
    let most = most(part.body.len(), gathered, past);
    part.body.try_reserve(most).map_err(|_| NoMemory)
}

/// How many bytes more a body of `used` bytes takes of a stream that is gathered up to one position and ends at another.
fn most(used: usize, gathered: u64, past: u64) -> usize
    ensures { result ≡ min (MAX_BODY - used) (past - gathered) }
{
    if used >= MAX_BODY || gathered >= past {
        return 0;
    }
    let left = MAX_BODY - used;
    let waiting = past - gathered;
    if waiting < left as u64 {
        waiting as usize
    } else {
        left
    }
}

/// Gathers from each outbox of the stream once.
fn gather_round(state: &mut State, stream: usize)
    requires stood { Stood (plain state.old) }
    requires there { stream < state.old.load.streams }
    requires going { stop_in (slice_get state.old.streams.items stream) ≡ None }
    requires roomy { Roomy stream (plain state.old) }
    ensures gathers { GathersOn stream (plain state.old) (plain state.new) }
    ensures next { IsNext stream (plain state.old) (plain state.new) }
    ensures settles { slice_index state.new.gathered stream ≡ slice_index state.old.gathered stream → AllGathered stream (plain state.new) }
{
    gather_own(state, stream);
    let streams = state.load.streams;
    let workers = state.load.workers;
    let mut worker = stream;
    while worker < workers {
        gather_from(state, stream, worker);
        worker += streams;
    }
}

/// Gathers from the manager's own outbox.
pub(crate) fn gather_own(state: &mut State, stream: usize)
    requires stood { Stood (plain state.old) }
    requires there { stream < state.old.load.streams }
    requires going { stop_in (slice_get state.old.streams.items stream) ≡ None }
    requires roomy { Roomy stream (plain state.old) }
    ensures moves { MovesOwn stream (plain state.old) (plain state.new) }
    ensures next { IsNext stream (plain state.old) (plain state.new) }
{
    let next = state.gathered.get(stream);
    let limit = state.ends.get(stream);
    let part = &mut state.streams[stream];
    let upto = part.own.gather_reserved(next, &mut part.body);
    state.gathered.set(stream, upto);
}

/// Gathers from the outbox of a worker.
pub(crate) fn gather_from(state: &mut State, stream: usize, worker: usize)
    requires stood { Stood (plain state.old) }
    requires there { stream < state.old.load.streams }
    requires worker { worker < state.old.load.workers }
    requires whose { worker % state.old.load.streams ≡ stream }
    requires going { stop_in (slice_get state.old.streams.items stream) ≡ None }
    requires roomy { Roomy stream (plain state.old) }
    ensures moves { MovesPosted stream worker (plain state.old) (plain state.new) }
    ensures next { IsNext stream (plain state.old) (plain state.new) }
{
    let next = state.gathered.get(stream);
    let limit = state.ends.get(stream);
    let part = &mut state.streams[stream];
    let seat = &mut state.seats[worker];
    let upto = seat.outbox.gather_reserved(next, &mut part.body);
    state.gathered.set(stream, upto);
}

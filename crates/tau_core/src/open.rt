//! The state in which nothing has happened.
ghost use Rattle.std.specs.Prelude.{◌≡◌, ◌≤◌, IfOk, length};
ghost use Rattle.tau_base.specs.declared.limits.TheConstants.{MAX_WORKERS};
ghost use Rattle.tau_base.specs.Modes.{format_of, most_streams};
ghost use Rattle.tau_text.specs.Kept.{AreCalls};
ghost use Rattle.tau_core.specs.State.{plain};
ghost use Rattle.tau_core.specs.Opens.{AreSeats, AreShards, AreStreams, Fits, IsLoad, Opens, load_of};

use crate::copies::copied_procs;
use crate::opening::Opening;
use crate::parts::{seats, shards, streams};
use crate::state::{Load, Seat, State, Stream};
use std::alloc::Global;
use tau_base::{LogMode, Lv, NoMemory};
use tau_model::CommittedList;
use tau_shard::Shard;
use tau_text::Workload;

/// The state in which so many workers have begun none of the calls.
pub(crate) fn open(
    alloc: Global,
    load: &Workload,
    opening: Opening,
    workers: usize,
    mode: LogMode,
) -> Result<State, NoMemory>
    requires low { 1 ≤ workers }
    requires high { workers ≤ MAX_WORKERS }
    requires calls { AreCalls load.now.declarations.procs load.now.calls }
    requires streams { length opening.ends ≤ most_streams (format_of mode) }
    requires fits { Fits opening }
    ensures { IfOk result (λ state. Opens (load_of load.now.declarations.procs load.now.calls mode workers opening) (plain state)) }
{
    let load = load_of(alloc, load, opening, workers, mode)?;
    state_of(alloc, load)
}

/// What the run stands on.
fn load_of(
    alloc: Global,
    load: &Workload,
    opening: Opening,
    workers: usize,
    mode: LogMode,
) -> Result<Load, NoMemory>
    ensures { IfOk result (λ copy. copy ≡ load_of load.now.declarations.procs load.now.calls mode workers opening) }
{
    let procs = copied_procs(alloc, &load.declarations.procs)?;
    let calls = load.calls.copied(alloc)?;
    Ok(Load {
        procs,
        calls,
        mode,
        workers,
        streams: opening.ends.width(),
        opening,
    })
}

/// The state in which nothing has happened.
fn state_of(alloc: Global, load: Load) -> Result<State, NoMemory>
    requires { IsLoad load }
    ensures { IfOk result (λ state. Opens load (plain state)) }
{
    let shards = shards_of(alloc, &load)?;
    let seats = seats(alloc, load.workers, load.streams, load.mode)?;
    let streams = streams(alloc, load.streams)?;
    Ok(assembled(alloc, load, shards, seats, streams))
}

/// The state of these parts.
fn assembled(
    alloc: Global,
    load: Load,
    shards: Vec<Shard>,
    seats: Vec<Seat>,
    streams: Vec<Stream>,
) -> State
    requires sound { IsLoad load }
    requires shards { AreShards load.opening.floor load.opening.rows shards.items }
    requires seats { AreSeats load.workers load.streams load.mode seats.items }
    requires streams { AreStreams load.streams streams.items }
    ensures { Opens load (plain result) }
{
    let ends = ends_of(&load.opening);
    State {
        alloc,
        load,
        shards,
        seats,
        streams,
        committed: CommittedList::new(alloc),
        ends,
        gathered: ends,
        plv: ends,
    }
}

/// The shards with the rows of the opening.
fn shards_of(alloc: Global, load: &Load) -> Result<Vec<Shard>, NoMemory>
    ensures { IfOk result (λ shards. AreShards load.now.opening.floor load.now.opening.rows shards.items) }
{
    shards(alloc, load.opening.floor, load.opening.rows.rows())
}

/// Where the streams end.
fn ends_of(opening: &Opening) -> Lv
    ensures { result ≡ opening.now.ends }
{
    opening.ends
}

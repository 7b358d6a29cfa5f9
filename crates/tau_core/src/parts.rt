//! The parts of a state in which nothing has happened.
ghost use Rattle.std.specs.Prelude.{◌≡◌, ◌≤◌, ◌<◌, [], IfOk, OnOk};
ghost use Rattle.tau_base.specs.declared.limits.TheConstants.{MAX_WORKERS};
ghost use Rattle.tau_base.specs.Modes.{format_of, most_streams};
ghost use Rattle.tau_core.specs.Opens.{AreSeats, AreShards, AreStreams, IsSeatAtRest, IsStreamAtRest, IsUnlocked, PutsRow};

use crate::left_over::LeftOvers;
use crate::state::{Seat, Stream};
use std::alloc::Global;
use tau_ack::Pending;
use tau_base::{Key, LogMode, Lv, Mode, NoMemory, SHARDS, Value, shard_of};
use tau_outbox::Outbox;
use tau_shard::{Shard, ShardRefusal};
use tau_txn::Txn;

/// The workers, of which none has begun a call.
pub(crate) fn seats(
    alloc: Global,
    workers: usize,
    streams: usize,
    mode: LogMode,
) -> Result<Vec<Seat>, NoMemory>
    requires high { workers ≤ MAX_WORKERS }
    requires streams_low { 1 ≤ streams }
    requires streams_high { streams ≤ most_streams (format_of mode) }
    ensures { IfOk result (λ seats. AreSeats workers streams mode seats.items) }
{
    let mut all = Vec::new(alloc);
    for worker in 0..workers {
        all.push(seat(alloc, worker, streams, mode))?;
    }
    Ok(all)
}

/// A worker that has begun no call.
fn seat(alloc: Global, worker: usize, streams: usize, mode: LogMode) -> Seat
    requires there { worker < MAX_WORKERS }
    requires streams_low { 1 ≤ streams }
    requires streams_high { streams ≤ most_streams (format_of mode) }
    ensures { IsSeatAtRest streams mode worker result }
{
    Seat {
        next: worker + 1,
        again: None,
        txn: Txn::new(alloc, worker as u8, streams, mode),
        start: 0,
        left: LeftOvers::new(alloc),
        outbox: Outbox::new(alloc),
        pending: Pending::new(alloc),
    }
}

/// The streams, in which nothing was placed.
pub(crate) fn streams(alloc: Global, count: usize) -> Result<Vec<Stream>, NoMemory>
    ensures { IfOk result (λ streams. AreStreams count streams.items) }
{
    let mut all = Vec::new(alloc);
    for _stream in 0..count {
        all.push(stream(alloc))?;
    }
    Ok(all)
}

/// A stream in which nothing was placed.
fn stream(alloc: Global) -> Stream
    ensures { IsStreamAtRest result }
{
    Stream {
        own: Outbox::new(alloc),
        anchors: Vec::new(alloc),
        stop: None,
        body: Vec::new(alloc),
    }
}

/// The shards with these rows and this floor, and no entry.
pub(crate) fn shards(
    alloc: Global,
    floor: Lv,
    rows: &[(Key, Value)],
) -> Result<Vec<Shard>, NoMemory>
    ensures { IfOk result (λ shards. AreShards floor rows.now shards.items) }
{
    let mut all = empty_shards(alloc, floor)?;
    put_rows(&mut all, floor, rows)?;
    Ok(all)
}

/// The shards without rows.
fn empty_shards(alloc: Global, floor: Lv) -> Result<Vec<Shard>, NoMemory>
    ensures { IfOk result (λ shards. AreShards floor [] shards.items) }
{
    let mut all = Vec::new(alloc);
    for _shard in 0..SHARDS {
        all.push(Shard::with_floor(alloc, floor))?;
    }
    Ok(all)
}

/// Puts each row into its shard. Of two rows of one key the first counts.
fn put_rows(shards: &mut Vec<Shard>, floor: Lv, rows: &[(Key, Value)]) -> Result<(), NoMemory>
    requires { AreShards floor [] shards.old.items }
    ensures { OnOk result (AreShards floor rows.now shards.new.items) }
{
    for i in (0..rows.len()).rev() {
        let (key, value) = &rows[i];
        let part = &mut shards[usize::from(shard_of(*key))];
        put_row(part, *key, value.copied(), &floor)?;
    }
    Ok(())
}

/// Puts a row: the key is locked and freed with the value, and its entry, which the floor covers, is dropped.
fn put_row(part: &mut Shard, key: Key, value: Value, floor: &Lv) -> Result<(), NoMemory>
    requires { IsUnlocked floor.now part.old }
    ensures { OnOk result (PutsRow floor.now key value part.old part.new) }
{
    let mut dep = *floor;
    match part.lock_key(0, key, Mode::Write, &mut dep) {
        Ok(()) => {}
        Err(ShardRefusal::NoMemory) => return Err(NoMemory),
        Err(ShardRefusal::Busy { holder: _ }) => unreachable!(),
    }
    part.free(0, key, floor, Some(value));
    part.drop_covered(floor);
    Ok(())
}

//! Redoing a log by workers in threads.
ghost use Rattle.std.specs.Prelude.{◌≡◌, ◌+◌, ◌-◌, ◌*◌, ◌<◌, ◌≤◌, ℕ, List, [], Err, None, IfOk, length, replicate};
ghost use Rattle.std.specs.Thread.{IsSync};
ghost use Rattle.tau_scan.specs.Reading.{IsLog};
ghost use Rattle.tau_scan.specs.Taken.{Kept};
ghost use Rattle.tau_replay.specs.Redone.{IsOrderOf, IsRedone, IsTangledAt};
ghost use Rattle.tau_replay.specs.Followed.{IsRedoneBy};
ghost use Rattle.tau_replay.specs.Rule.{IsIdle};
ghost use Rattle.tau_replay.specs.Sound.{IsSound, AreWorking};
ghost use Rattle.tau_pool.specs.Pooled.{flying_in};
ghost use Rattle.tau_replay.specs.Working.{IsSpare};

use crate::alone::run_alone;
use crate::cursors::Cursors;
use crate::lock::Lock;
use crate::replay::{begin, end, idle_hands};
use crate::turns::Replay;
use crate::view::{HANDS, Part, RECORDS, Seat};
use crate::worker::work;
use std::alloc::Global;
use std::sync::Wait;
use std::thread::{Threads, join};
use tau_base::{MAX_RECOVERY_WORKERS, NoMemory};
use tau_disk::Gate;
use tau_model::Tables;
use tau_pool::Job;
use tau_scan::{Log, ReplayRefusal};

/// Splits the seat of the first hand off.
fn split_one(lock: &Lock, seat: &mut Seat, first: usize, many: usize) -> Seat
    requires own { seat.old.table_id ≡ lock.now.table.shared.table_id }
    requires spare { IsSpare first many seat.old.me }
    requires more { (2 ≤ many) × (first + many ≤ HANDS) }
    ensures own { (seat.new.table_id ≡ seat.old.table_id) × (result.table_id ≡ seat.old.table_id) }
    ensures of_log { (seat.new.me.0.log ≡ seat.old.me.0.log) × (result.me.0.log ≡ seat.old.me.0.log) }
    ensures first { IsSpare first 1 result.me }
    ensures left { IsSpare (first + 1) (many - 1) seat.new.me }
{
    let _ = (first, many);
    lock.split(seat)
}

/// Puts the next hand to those of a seat.
fn put_one(lock: &Lock, seat: &mut Seat, next: Seat, first: usize, many: usize)
    requires own { (seat.old.table_id ≡ lock.now.table.shared.table_id) × (next.table_id ≡ seat.old.table_id) }
    requires spare { IsSpare first many seat.old.me × IsSpare (first + many) 1 next.me }
    requires few { first + many < HANDS }
    ensures own { seat.new.table_id ≡ seat.old.table_id }
    ensures of_log { seat.new.me.0.log ≡ seat.old.me.0.log }
    ensures more { IsSpare first (many + 1) seat.new.me }
{
    let _ = (first, many);
    lock.join(seat, next)
}

/// Splits the seat of a worker's hands off.
fn split_first(lock: &Lock, seat: &mut Seat, first: usize) -> Seat
    requires own { seat.old.table_id ≡ lock.now.table.shared.table_id }
    requires spare { IsSpare first (HANDS - first) seat.old.me }
    requires few { first + RECORDS < HANDS }
    ensures own { (seat.new.table_id ≡ seat.old.table_id) × (result.table_id ≡ seat.old.table_id) }
    ensures of_log { (seat.new.me.0.log ≡ seat.old.me.0.log) × (result.me.0.log ≡ seat.old.me.0.log) }
    ensures first { IsSpare first RECORDS result.me }
    ensures left { IsSpare (first + RECORDS) (HANDS - (first + RECORDS)) seat.new.me }
    ensures workers { length seat.new.me.0.hands + length result.me.0.hands ≡ length seat.old.me.0.hands }
{
    let mut mine = split_one(lock, seat, first, HANDS - first);
    for k in 1..RECORDS {
        let next = split_one(lock, seat, first + k, HANDS - (first + k));
        put_one(lock, &mut mine, next, first, k);
    }
    mine
}

/// Joins a seat to another.
fn join_seats(lock: &Lock, seat: &mut Seat, other: Seat)
    requires own { (seat.old.table_id ≡ lock.now.table.shared.table_id) × (other.table_id ≡ seat.old.table_id) }
    requires idle { IsIdle seat.old.me × IsIdle other.me }
    ensures own { seat.new.table_id ≡ seat.old.table_id }
    ensures of_log { seat.new.me.0.log ≡ seat.old.me.0.log }
    ensures idle { IsIdle seat.new.me }
    ensures workers { length seat.new.me.0.hands ≡ length seat.old.me.0.hands + length other.me.0.hands }
{
    lock.join(seat, other)
}

/// A worker with its hands from one on, and so many others with those after them, side by side. The last one has the seat
/// of all hands that are left, and uses as many as the others.
fn crew<R: Threads + Wait + Sync, G: Gate + Sync>(
    rt: &R,
    alloc: Global,
    lock: &Lock,
    mut seat: Seat,
    log: &Log,
    worker: u8,
    first: usize,
    others: u8,
    gate: &G,
) -> Seat
    requires own { seat.table_id ≡ lock.now.table.shared.table_id }
    requires of_log { seat.me.0.log ≡ log.now }
    requires spare { IsSpare first (HANDS - first) seat.me }
    requires few { (worker + others < MAX_RECOVERY_WORKERS) × (first + RECORDS * others + RECORDS ≤ HANDS) }
    ensures own { result.table_id ≡ seat.table_id }
    ensures of_log { result.me.0.log ≡ seat.me.0.log }
    ensures idle { IsIdle result.me × (length result.me.0.hands ≡ length seat.me.0.hands) }
{
    if others == 0 {
        return work(
            rt,
            alloc,
            lock,
            seat,
            log,
            worker,
            first,
            HANDS - first,
            gate,
        );
    }
    let mine = split_first(lock, &mut seat, first);
    let (mine, mut seat) = join(
        rt,
        move || -> Seat
            requires { (mine.table_id ≡ lock.now.table.shared.table_id) × (mine.me.0.log ≡ log.now) × IsSpare first RECORDS mine.me × (first + RECORDS ≤ HANDS) }
            ensures { (result.table_id ≡ mine.table_id) × IsIdle result.me × (length result.me.0.hands ≡ length mine.me.0.hands) }
        { work(rt, alloc, lock, mine, log, worker, first, RECORDS, gate) },
        move || -> Seat
            requires { IsSync R.row × IsSync G.row × (seat.table_id ≡ lock.now.table.shared.table_id) × (seat.me.0.log ≡ log.now) × IsSpare (first + RECORDS) (HANDS - (first + RECORDS)) seat.me × (1 ≤ others) × (worker + others < MAX_RECOVERY_WORKERS) × (first + RECORDS * others + RECORDS ≤ HANDS) }
            ensures { (result.table_id ≡ seat.table_id) × (result.me.0.log ≡ seat.me.0.log) × IsIdle result.me × (length result.me.0.hands ≡ length seat.me.0.hands) }
        {
            crew(
                rt,
                alloc,
                lock,
                seat,
                log,
                worker + 1,
                first + RECORDS,
                others - 1,
                gate,
            )
        },
    );
    join_seats(lock, &mut seat, mine);
    seat
}

/// A recovery of which nothing is in flight, with the hands of workers in threads.
fn spread(log: &Log, mut replay: Replay, hands: Vec<Option<Job>>) -> Replay
    requires sound { IsSound log.now replay }
    requires idle { replay.hands.items ≡ replicate MAX_RECOVERY_WORKERS None }
    requires hands { hands.items ≡ replicate HANDS None }
    ensures working { AreWorking log.now result }
    ensures idle { result.hands.items ≡ replicate HANDS None }
{
    let _ = log;
    replay.hands = hands;
    replay
}

/// The same with the hands of workers that take turns.
fn gather(log: &Log, mut replay: Replay, hands: Vec<Option<Job>>) -> Replay
    requires working { AreWorking log.now replay }
    requires calm { flying_in replay.pools.items ≡ 0 }
    requires hands { hands.items ≡ replicate MAX_RECOVERY_WORKERS None }
    ensures sound { IsSound log.now result }
{
    let _ = log;
    replay.hands = hands;
    replay
}

/// What the workers in threads left. They end with something in flight only where memory was refused.
fn left_by(alloc: Global, log: &Log, replay: Replay) -> Result<Replay, NoMemory>
    requires working { AreWorking log.now replay }
    ensures sound { IfOk result (λ r. IsSound log.now r) }
{
    if replay.pools.in_flight() > 0 {
        return Err(NoMemory);
    }
    let hands = idle_hands(alloc, MAX_RECOVERY_WORKERS)?;
    Ok(gather(log, replay, hands))
}

/// Runs a recovery by so many workers until their work is over. One worker needs no lock.
fn run<R: Threads + Wait + Sync, G: Gate + Sync>(
    rt: &R,
    alloc: Global,
    log: &Log,
    replay: Replay,
    workers: u8,
    gate: &G,
) -> Result<Replay, NoMemory>
    requires sound { IsSound log.now replay }
    requires idle { replay.hands.items ≡ replicate MAX_RECOVERY_WORKERS None }
    requires workers { (1 ≤ workers) × (workers ≤ MAX_RECOVERY_WORKERS) }
    ensures sound { IfOk result (λ r. IsSound log.now r) }
{
    if workers == 1 {
        return run_alone(log, replay, gate);
    }
    let cursors = Cursors::new(alloc, &replay.pools)?;
    let hands = idle_hands(alloc, HANDS)?;
    let part = Part {
        replay: spread(log, replay, hands),
        cursors,
        sleeping: 0,
        refused: false,
    };
    let Ok((lock, seat)) = Lock::new(alloc, log, part) else {
        return Err(NoMemory);
    };
    let seat = crew(rt, alloc, &lock, seat, log, 0, 0, workers - 1, gate);
    left_by(alloc, log, lock.close(seat).replay)
}

/// Redoes the taken records of a log by 1 to 16 workers side by side, with what `replay_turns` gives of some list of turns.
pub fn replay_threads<R: Threads + Wait + Sync, G: Gate + Sync>(
    rt: &R,
    alloc: Global,
    log: &Log,
    workers: u8,
    gate: &G,
) -> Result<Tables, ReplayRefusal>
    requires log { IsLog log.now }
    requires workers { (1 ≤ workers) × (workers ≤ MAX_RECOVERY_WORKERS) }
    // The tables are those of redoing the taken records in an orderly order.
    ensures ok { IfOk result (λ tables. IsRedone log.now tables) }
    // They are what some turns of workers give, and rounds of all workers after them.
    ensures followed { IfOk result (λ tables. (turns : List ℕ) × IsRedoneBy log.now turns tables) }
    // No orderly order exists: this is the first record, by stream and place, of those that can't be started.
    ensures tangled { (j at : ℕ) → result ≡ Err (ReplayRefusal.Tangled j at) → IsTangledAt log.now j at × ((order : List Kept) → IsOrderOf log.now order → ⊥) }
{
    let Ok(replay) = begin(alloc, log) else {
        return Err(ReplayRefusal::NoMemory);
    };
    let Ok(replay) = run(rt, alloc, log, replay, workers, gate) else {
        return Err(ReplayRefusal::NoMemory);
    };
    end(alloc, log, replay)
}

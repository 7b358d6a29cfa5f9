//! Redoing a log from a place of each stream on.
ghost use Rattle.std.specs.Prelude.{◌≡◌, [], ℕ, List, None, replicate, Err, IfOk};
ghost use Rattle.tau_model.specs.Store.{database};
ghost use Rattle.tau_model.specs.Tables.{db_of_rows};
ghost use Rattle.tau_scan.specs.Reading.{IsLog};
ghost use Rattle.tau_scan.specs.Taken.{Kept};
ghost use Rattle.tau_scan.specs.Sound.{IsOrderOver};
ghost use Rattle.tau_replay.specs.Redone.{IsRedoneOn, IsTangledOver, taken_after};
ghost use Rattle.tau_replay.specs.Course.{Course, after};
ghost use Rattle.tau_replay.specs.Followed.{FollowedOn, IsRedoneByOn};
ghost use Rattle.tau_replay.specs.Way.{IsOnCourse};

use crate::replay::{end, workers_of};
use crate::turns::Replay;
use std::alloc::Global;
use tau_base::{Key, Lv, NoMemory, Value};
use tau_model::{SerialStore, Tables};
use tau_pool::Pools;
use tau_scan::{Log, ReplayRefusal};

/// A store with these rows, of two of one key with the first.
fn store_of(alloc: Global, rows: &[(Key, Value)]) -> Result<SerialStore, NoMemory>
    ensures { IfOk result (λ store. database store ≡ db_of_rows rows.now) }
{
    let mut store = SerialStore::new(alloc);
    store.write(rows)?;
    Ok(store)
}

/// Sixteen workers with nothing in flight, before the first turn.
fn begin_behind(
    alloc: Global,
    log: &Log,
    from: &Lv,
    rows: &[(Key, Value)],
) -> Result<Replay, NoMemory>
    requires { IsLog log.now }
    ensures going { IfOk result (λ replay. IsOnCourse log.now (after log.now from.now (db_of_rows rows.now)) replay) }
    ensures followed { IfOk result (λ replay. FollowedOn log.now (after log.now from.now (db_of_rows rows.now)) [] replay) }
{
    let pools = Pools::behind(alloc, log, from)?;
    let store = store_of(alloc, rows)?;
    workers_of(alloc, pools, store)
}

/// Redoes these records from the beginning to the end.
fn redo_course(
    alloc: Global,
    log: &Log,
    from: &Lv,
    rows: &[(Key, Value)],
) -> Result<Tables, ReplayRefusal>
    ghost course: { Course }
    requires log { IsLog log.now }
    requires is { course ≡ after log.now from.now (db_of_rows rows.now) }
    ensures ok { IfOk result (λ tables. IsRedoneOn log.now course.records course.base tables) }
    ensures followed { IfOk result (λ tables. IsRedoneByOn log.now course [] tables) }
    ensures tangled { (j at : ℕ) → result ≡ Err (ReplayRefusal.Tangled j at) → IsTangledOver course.records j at × ((order : List Kept) → IsOrderOver course.records order → ⊥) }
{
    let replay = begin_behind(alloc, log, from, rows)?;
    end(alloc, log, replay)
}

/// Redoes the taken records of a log that start at or after the place of their stream, on these rows, in rounds of 16
/// workers.
pub fn redo_behind(
    alloc: Global,
    log: &Log,
    from: &Lv,
    rows: &[(Key, Value)],
) -> Result<Tables, ReplayRefusal>
    requires { IsLog log.now }
    // The tables are those of redoing these records in an orderly order, on the database of the rows.
    ensures ok { IfOk result (λ tables. IsRedoneOn log.now (taken_after from.now log.now) (db_of_rows rows.now) tables) }
    // They are what rounds of all workers give.
    ensures followed { IfOk result (λ tables. IsRedoneByOn log.now (after log.now from.now (db_of_rows rows.now)) [] tables) }
    // No orderly order exists: this is the first of them, by stream and place, of those that can't be started.
    ensures tangled { (j at : ℕ) → result ≡ Err (ReplayRefusal.Tangled j at) → IsTangledOver (taken_after from.now log.now) j at × ((order : List Kept) → IsOrderOver (taken_after from.now log.now) order → ⊥) }
{
    redo_course(alloc, log, from, rows)
}

//! Redoing records.
ghost use Rattle.std.specs.Prelude.{◌≡◌, ◌≤◌, ◌<◌, ◌∷◌, [], ℕ, List, Some, length, map, take, slice_get, IfSome, OnOk, OnErr, IsTrue};
ghost use Rattle.tau_base.specs.Database.{Db, written};
ghost use Rattle.tau_base.specs.declared.value.Value.TheVariants.{Int};
ghost use Rattle.tau_proc.specs.Meaning.{meaning};
ghost use Rattle.tau_proc.specs.Progress.{buffered};
ghost use Rattle.tau_proc.specs.Takes.{takes};
ghost use Rattle.tau_follow.specs.Renewing.{after};
ghost use Rattle.tau_model.specs.Redo.{redo_contents};
ghost use Rattle.tau_model.specs.Store.{database};
ghost use Rattle.tau_record.specs.declared.entry.Placed.{Placed as OnePlaced};
ghost use Rattle.tau_scan.specs.Taken.{Kept};
ghost use Rattle.tau_follow.specs.declared.spot.Spot.{Spot as OneSpot};
ghost use Rattle.tau_follow.specs.Applying.{content_in, redone_of, AreSpots};

use crate::renew::{Writes, note_numbers, note_rows};
use crate::spot::{Spot, entry_at};
use arrayvec::ArrayVec;
use tau_base::{Call, KeptCall, Key, Listed, NoMemory, Value};
use tau_model::SerialStore;
use tau_proc::{Machine, Procs, Want};
use tau_record::{Entry, KeptWrites, LentWrites, Placed};

/// Writes rows to a store, and notes them. Of two values for one row the first counts.
fn write_rows(
    store: &mut SerialStore,
    rows: &[(Key, Value)],
    noted: &mut Writes,
) -> Result<(), NoMemory>
    ensures ok { OnOk result (database store.new ≡ written rows.now (database store.old)) }
    ensures noted { (db : Db) → database store.old ≡ after noted.old.items db → OnOk result (database store.new ≡ after noted.new.items db) }
    ensures err { OnErr result (database store.new ≡ database store.old) }
{
    match note_rows(noted, rows) {
        Ok(()) => {}
        Err(e) => return Err(e),
    }
    match store.write(rows) {
        Ok(()) => Ok(()),
        Err(e) => Err(e),
    }
}

/// The same of whole numbers.
fn write_numbers(
    store: &mut SerialStore,
    numbers: &[(Key, i64)],
    noted: &mut Writes,
) -> Result<(), NoMemory>
    ensures ok { OnOk result (database store.new ≡ written (map (λ r. (r.0, Int r.1)) numbers.now) (database store.old)) }
    ensures noted { (db : Db) → database store.old ≡ after noted.old.items db → OnOk result (database store.new ≡ after noted.new.items db) }
    ensures err { OnErr result (database store.new ≡ database store.old) }
{
    match note_numbers(noted, numbers) {
        Ok(()) => {}
        Err(e) => return Err(e),
    }
    match store.write_numbers(numbers) {
        Ok(()) => Ok(()),
        Err(e) => Err(e),
    }
}

/// Sets the writes of a record as they lie.
fn write(store: &mut SerialStore, writes: &KeptWrites, noted: &mut Writes) -> Result<(), NoMemory>
    ensures ok { OnOk result (database store.new ≡ written writes.now (database store.old)) }
    ensures noted { (db : Db) → database store.old ≡ after noted.old.items db → OnOk result (database store.new ≡ after noted.new.items db) }
    ensures err { OnErr result (database store.new ≡ database store.old) }
{
    match writes.lent() {
        LentWrites::Numbers(numbers) => write_numbers(store, numbers, noted),
        LentWrites::Whole(rows) => write_rows(store, rows, noted),
    }
}

/// Has a machine run a call that is taken to its end, on a store that it writes nothing to.
fn finish(store: &SerialStore, procs: &Procs, call: &Call, machine: &mut Machine)
    requires { IsTrue (takes procs.now call.now) }
    ensures { buffered machine.new ≡ (meaning procs.now call.now (database store.now)).writes }
{
    machine.restart(procs, call);
    'wants: loop {
        match machine.next() {
            Want::Read(key) => machine.give(store.value(key)),
            Want::Write(_) => machine.granted(),
            Want::Finished(_) => return,
        }
    }
}

/// Executes a call that is taken.
fn run(
    store: &mut SerialStore,
    procs: &Procs,
    call: &Call,
    noted: &mut Writes,
) -> Result<(), NoMemory>
    requires { IsTrue (takes procs.now call.now) }
    ensures ok { OnOk result (database store.new ≡ written (meaning procs.now call.now (database store.old)).writes (database store.old)) }
    ensures noted { (db : Db) → database store.old ≡ after noted.old.items db → OnOk result (database store.new ≡ after noted.new.items db) }
    ensures err { OnErr result (database store.new ≡ database store.old) }
{
    let mut machine = Machine::new();
    finish(store, procs, call, &mut machine);
    match write_rows(store, machine.writes(), noted) {
        Ok(()) => Ok(()),
        Err(e) => Err(e),
    }
}

/// Executes a call. Each call of a log is one that its procedures take. The machine takes much of the stack, which a feed that
/// executes none need not touch: so it is no part of the caller.
#[inline(never)]
fn execute(
    store: &mut SerialStore,
    procs: &Procs,
    kept: &KeptCall,
    noted: &mut Writes,
) -> Result<(), NoMemory>
    ensures ok { OnOk result (database store.new ≡ written (meaning procs.now kept.now (database store.old)).writes (database store.old)) }
    ensures noted { (db : Db) → database store.old ≡ after noted.old.items db → OnOk result (database store.new ≡ after noted.new.items db) }
    ensures err { OnErr result (database store.new ≡ database store.old) }
{
    let mut call = Call {
        proc: 0,
        args: ArrayVec::new(),
    };
    kept.put_into(&mut call);
    if !procs.takes(&call) {
        return Err(NoMemory);
    }
    match run(store, procs, &call, noted) {
        Ok(()) => Ok(()),
        Err(e) => Err(e),
    }
}

/// Redoes a record on the database as it is.
fn redo(
    store: &mut SerialStore,
    procs: &Procs,
    entry: &Entry,
    noted: &mut Writes,
) -> Result<(), NoMemory>
    ensures ok { OnOk result (database store.new ≡ redo_contents procs.now (content_in entry.now) (database store.old)) }
    ensures noted { (db : Db) → database store.old ≡ after noted.old.items db → OnOk result (database store.new ≡ after noted.new.items db) }
    ensures err { OnErr result (database store.new ≡ database store.old) }
{
    match entry {
        Entry::Written { writes, .. } => write(store, writes, noted),
        Entry::Command { call, .. } => execute(store, procs, call, noted),
        Entry::Anchor { .. } => Ok(()),
        Entry::Catalogue { .. } => Ok(()),
        Entry::Epoch { .. } => Ok(()),
    }
}

/// Redoes the record at this one of the spots.
fn redo_at(
    store: &mut SerialStore,
    procs: &Procs,
    streams: &[Listed<Placed>],
    spots: &[Spot],
    i: usize,
    noted: &mut Writes,
) -> Result<(), NoMemory>
    ensures ok { OnOk result ((x : OneSpot) × (slice_get spots.now i ≡ Some x) × ((ps : List OnePlaced) (p : OnePlaced) → slice_get streams.now x.stream ≡ Some ps → slice_get ps x.index ≡ Some p → database store.new ≡ redo_contents procs.now (content_in p.entry) (database store.old))) }
    ensures noted { (db : Db) → database store.old ≡ after noted.old.items db → OnOk result (database store.new ≡ after noted.new.items db) }
{
    let Some(spot) = spots.get(i) else {
        return Err(NoMemory);
    };
    let Some(entry) = entry_at(streams, *spot) else {
        return Err(NoMemory);
    };
    match redo(store, procs, entry, noted) {
        Ok(()) => Ok(()),
        Err(e) => Err(e),
    }
}

/// Redoes the records at these spots from an index on, where those before it are redone, and notes what they write.
pub fn redo_from(
    store: &mut SerialStore,
    procs: &Procs,
    streams: &[Listed<Placed>],
    spots: &[Spot],
    from: usize,
    noted: &mut Writes,
) -> Result<(), NoMemory>
    ensures ok { (order : List Kept) → AreSpots streams.now spots.now order → from ≤ length order → database store.old ≡ redone_of procs.now (take from order) → OnOk result (database store.new ≡ redone_of procs.now order) }
    ensures noted { (db : Db) → database store.old ≡ after noted.old.items db → OnOk result (database store.new ≡ after noted.new.items db) }
{
    for i in from..spots.len() {
        redo_at(store, procs, streams, spots, i, noted)?;
    }
    Ok(())
}

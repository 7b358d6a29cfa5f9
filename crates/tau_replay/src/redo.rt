//! Redoing one record.
ghost use Rattle.std.specs.Prelude.{◌≡◌, ◌<◌, ◌∷◌, ℕ, List, OnOk, OnErr, IsTrue};
ghost use Rattle.tau_base.specs.declared.value.Call.{Call};
ghost use Rattle.tau_base.specs.declared.value.Key.{Key};
ghost use Rattle.tau_base.specs.declared.value.Value.{Value};
ghost use Rattle.tau_base.specs.Database.{written};
ghost use Rattle.tau_proc.specs.Meaning.{meaning};
ghost use Rattle.tau_proc.specs.Progress.{ahead, buffered, next_want, wants_left};
ghost use Rattle.tau_proc.specs.Takes.{takes};
ghost use Rattle.tau_model.specs.Redo.{redone, Written, Command};
ghost use Rattle.tau_model.specs.Store.{database};
ghost use Rattle.tau_scan.specs.Taken.{Kept};
ghost use Rattle.tau_replay.specs.Recovering.{IsHeld, IsHeldBy};

use crate::outcome::Scratch;
use tau_base::{Call, KeptCall, Key, NoMemory, Value};
use tau_model::{RowPlaces, SerialStore};
use tau_pool::Job;
use tau_proc::{Machine, Procs, Want};
use tau_record::{Entry, KeptWrites, LentWrites};
use tau_scan::Log;

/// Redoes a record on the database as it is: a data record sets its writes, a command record what its call writes. A call
/// is put into the scratch and executed there.
pub fn redo(
    log: &Log,
    store: &mut SerialStore,
    job: Job,
    scratch: &mut Scratch,
) -> Result<(), NoMemory>
    requires { IsHeldBy log.now job }
    ensures ok { (r : Kept) → IsHeld log.now job r → OnOk result (database store.new ≡ redone log.now.declarations.procs r.content (database store.old)) }
    ensures err { OnErr result (database store.new ≡ database store.old) }
{
    let records = &log.streams.as_slice()[usize::from(job.stream)];
    redo_entry(log, store, &records.as_slice()[job.index].entry, scratch)
}

/// The same of the record itself.
fn redo_entry(
    log: &Log,
    store: &mut SerialStore,
    entry: &Entry,
    scratch: &mut Scratch,
) -> Result<(), NoMemory>
    ensures written { (number anchor : ℕ) (dep : List ℕ) (writes : List (Key × Value)) → entry.now ≡ Entry.Written number anchor dep writes → OnOk result (database store.new ≡ redone log.now.declarations.procs (Written writes) (database store.old)) }
    ensures command { (number anchor : ℕ) (dep : List ℕ) (call : Call) → entry.now ≡ Entry.Command number anchor dep call → OnOk result (database store.new ≡ redone log.now.declarations.procs (Command call) (database store.old)) }
    ensures err { OnErr result (database store.new ≡ database store.old) }
{
    match entry {
        Entry::Written { writes, .. } => write(store, writes),
        Entry::Command { call, .. } => redo_call(log, store, call, scratch),
        Entry::Anchor { .. } => Ok(()),
        Entry::Catalogue { .. } => Ok(()),
        Entry::Epoch { .. } => Ok(()),
    }
}

/// Sets the writes of a record as they lie.
fn write(store: &mut SerialStore, writes: &KeptWrites) -> Result<(), NoMemory>
    ensures ok { OnOk result (database store.new ≡ written writes.now (database store.old)) }
    ensures err { OnErr result (database store.new ≡ database store.old) }
{
    match writes.lent() {
        LentWrites::Numbers(numbers) => store.write_numbers(numbers),
        LentWrites::Whole(rows) => store.write(rows),
    }
}

/// Executes a call up to its end, or up to its first write if it has one: on the values that the database has, where they
/// stand.
fn run(machine: &mut Machine, store: &SerialStore, procs: &Procs, call: &Call, places: &RowPlaces)
    requires { IsTrue (takes procs.now call.now) }
    ensures { buffered machine.new ≡ (meaning procs.now call.now (database store.now)).writes }
{
    machine.restart(procs, call);
    'wants: loop {
        match machine.next() {
            Want::Read(key) => give(machine, store, key, places),
            Want::Write(_) => return,
            Want::Finished(_) => return,
        }
    }
}

/// Gives the row that is wanted its value.
fn give(machine: &mut Machine, store: &SerialStore, key: Key, places: &RowPlaces)
    requires wants { next_want machine.old ≡ Want.Read key }
    ensures stands { (vs : List Value) → ahead machine.new vs ≡ ahead machine.old (database store.now key ∷ vs) }
    ensures granted { machine.new.granted ≡ machine.old.granted }
    ensures fewer { wants_left machine.new < wants_left machine.old }
{
    match store.near_ref(key, places) {
        Some(value) => machine.give_lent(value),
        None => machine.give_lent(&Value::Absent),
    }
}

/// Sets what a call writes. Each call of a log is one that its procedures take.
#[inline(never)]
fn redo_call(
    log: &Log,
    store: &mut SerialStore,
    kept: &KeptCall,
    scratch: &mut Scratch,
) -> Result<(), NoMemory>
    ensures ok { OnOk result (database store.new ≡ redone log.now.declarations.procs (Command kept.now) (database store.old)) }
    ensures err { OnErr result (database store.new ≡ database store.old) }
{
    kept.put_into(&mut scratch.call);
    if !log.declarations.procs.takes(&scratch.call) {
        return Err(NoMemory);
    }
    run(
        &mut scratch.machine,
        store,
        &log.declarations.procs,
        &scratch.call,
        &scratch.places,
    );
    store.write_near(scratch.machine.writes(), &scratch.places)
}

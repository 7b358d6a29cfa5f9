//! Records that were redone outside the lock.
ghost use Rattle.std.specs.Prelude.{◌≡◌, ◌<◌, ◌⊎◌, ◌↔◌, ℕ, List, true, false, None, Some, IsTrue, OnOk, OnErr, take};
ghost use Rattle.std.specs.Option.{ForSome};
ghost use Rattle.tau_base.specs.declared.value.Call.{Call as Called};
ghost use Rattle.tau_proc.specs.declared.proc.Proc.{Proc};
ghost use Rattle.tau_proc.specs.Effect.{Agrees};
ghost use Rattle.tau_proc.specs.Progress.{next_want, wants_left};
ghost use Rattle.tau_model.specs.Redo.{redone};
ghost use Rattle.tau_model.specs.Store.{database};
ghost use Rattle.tau_scan.specs.Taken.{Kept};
ghost use Rattle.tau_replay.specs.Recovering.{IsHeld, IsHeldBy};
ghost use Rattle.tau_replay.specs.Result.{DoesJust, IsTrying};

use crate::redo::redo;
use arrayvec::ArrayVec;
use std::alloc::Global;
use std::snapshot::Snapshot;
use tau_base::{Call, Key, NoMemory, Value};
use tau_model::{RowPlaces, SerialStore};
use tau_pool::Job;
use tau_proc::{Machine, Want};
use tau_scan::Log;

/// What a worker executes calls with: the machine, and the rows that the last call wanted, each with the value that it
/// was given.
#[derive(Drop)]
pub struct Scratch {
    /// Each call is begun in the place of the one before.
    pub machine: Machine,
    /// In the order in which they were wanted.
    pub reads: Vec<(Key, Value)>,
    /// The call that runs, or that was looked at last.
    pub call: Call,
    /// Where rows of the store were found last.
    pub places: RowPlaces,
}

impl Scratch {
    /// It takes no memory.
    pub fn new(alloc: Global) -> Scratch {
        Scratch {
            machine: Machine::new(),
            reads: Vec::new(alloc),
            call: Call {
                proc: 0,
                args: ArrayVec::new(),
            },
            places: RowPlaces::new(alloc),
        }
    }

    /// Gives the row that is wanted this value, and notes it. Whether there was memory.
    pub fn give(&mut self, key: Key, value: &Value) -> bool
        requires wants { next_want self.old.machine ≡ Want.Read key }
        ensures call { self.new.call ≡ self.old.call }
        ensures trying { (procs : List Proc) (call : Called) → IsTrying procs call self.old.reads.items self.old.machine → result ≡ true → IsTrying procs call self.new.reads.items self.new.machine }
        ensures fewer { result ≡ true → wants_left self.new.machine < wants_left self.old.machine }
    {
        match self.reads.push((key, value.copied())) {
            Ok(()) => {
                self.machine.give_lent(value);
                true
            }
            Err(_) => false,
        }
    }
}

/// What a call that was executed outside the lock read and wrote.
#[derive(Drop)]
pub struct Executed {
    /// The rows that it wanted in turn, each with the value that it was given.
    pub reads: Vec<(Key, Value)>,
    /// What it writes on these values.
    pub writes: Vec<(Key, Value)>,
}

impl Executed {
    /// Of no call. It takes no memory.
    pub fn new(alloc: Global) -> Executed {
        Executed {
            reads: Vec::new(alloc),
            writes: Vec::new(alloc),
        }
    }
}

/// A started record of a log. If its call was executed outside the lock, the writes are those of redoing it wherever the
/// values read are the same.
#[derive(Drop)]
pub struct Outcome<'a> {
    /// The log.
    pub log: Snapshot<Log>,
    /// The record.
    pub job: Job,
    /// How its call was executed, if it was.
    pub tried: Option<&'a Executed>,
    pub ghost kept: { ForSome tried (λ s. DoesJust log.value job s.now.reads.items s.now.writes.items) },
}

impl<'a> Outcome<'a> {
    /// A record that is redone at its finish.
    pub fn anew(log: &Log, job: Job) -> Outcome<'a>
        ensures { (result.log.value ≡ log.now) × (result.job ≡ job) }
    {
        Outcome {
            log: Snapshot::of(log),
            job,
            tried: None,
        }
    }

    /// A record whose call was executed.
    pub fn of(log: &Log, job: Job, executed: &'a Executed) -> Outcome<'a>
        requires { DoesJust log.now job executed.now.reads.items executed.now.writes.items }
        ensures { (result.log.value ≡ log.now) × (result.job ≡ job) }
    {
        Outcome {
            log: Snapshot::of(log),
            job,
            tried: Some(executed),
        }
    }
}

/// Does what a record does on the database as it is: the writes that were found outside the lock if the values read are
/// the same, else all anew.
pub fn apply(
    log: &Log,
    store: &mut SerialStore,
    outcome: &Outcome,
    scratch: &mut Scratch,
) -> Result<(), NoMemory>
    requires of_log { outcome.now.log.value ≡ log.now }
    requires held { IsHeldBy log.now outcome.now.job }
    ensures ok { (r : Kept) → IsHeld log.now outcome.now.job r → OnOk result (database store.new ≡ redone log.now.declarations.procs r.content (database store.old)) }
    ensures err { OnErr result (database store.new ≡ database store.old) }
{
    match outcome.tried {
        None => redo(log, store, outcome.job, scratch),
        Some(executed) => apply_tried(log, store, outcome.job, executed, scratch),
    }
}

/// The same of a record whose call was executed.
fn apply_tried(
    log: &Log,
    store: &mut SerialStore,
    job: Job,
    executed: &Executed,
    scratch: &mut Scratch,
) -> Result<(), NoMemory>
    requires held { IsHeldBy log.now job }
    requires just { DoesJust log.now job executed.now.reads.items executed.now.writes.items }
    ensures ok { (r : Kept) → IsHeld log.now job r → OnOk result (database store.new ≡ redone log.now.declarations.procs r.content (database store.old)) }
    ensures err { OnErr result (database store.new ≡ database store.old) }
{
    if has_values(store, executed.reads.as_slice(), &scratch.places) {
        store.write_near(executed.writes.as_slice(), &scratch.places)
    } else {
        redo(log, store, job, scratch)
    }
}

/// Whether the database has these values.
fn has_values(store: &SerialStore, reads: &[(Key, Value)], places: &RowPlaces) -> bool
    ensures { result ≡ true → Agrees reads.now (database store.now) }
{
    for (key, value) in reads {
        if !has_value(store, *key, value, places) {
            return false;
        }
    }
    true
}

/// Whether the database has this value in the row. The row is read where it stands.
fn has_value(store: &SerialStore, key: Key, value: &Value, places: &RowPlaces) -> bool
    ensures { IsTrue result ↔ (database store.now key ≡ value.now) }
{
    match store.near_ref(key, places) {
        Some(row) => row.is_same(value),
        None => matches!(value, Value::Absent),
    }
}

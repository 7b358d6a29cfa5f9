//! What a worker does outside the lock.
ghost use Rattle.std.specs.Prelude.{◌≡◌, [], true, Some, IfOk, replicate};
ghost use Rattle.tau_replay.specs.Rule.{IsIdle};

use crate::ahead::Foreseen;
use crate::calls::try_job;
use crate::lock::Lock;
use crate::outcome::{Executed, Outcome, Scratch};
use crate::view::Seat;
use std::alloc::Global;
use std::marker::Model;
use std::mem::swap;
use std::snapshot::Snapshot;
use std::sync::Wait;
use tau_base::{Call, Key, NoMemory, Value};
use tau_model::{RowPlaces, SerialStore};
use tau_pool::Job;
use tau_scan::Log;

/// The record that a hand of a worker has in flight, and how its call was executed outside the lock, if it was.
#[derive(Drop)]
pub struct Task {
    log: Snapshot<Log>,
    job: Option<Job>,
    /// Whether the call of the record was executed.
    tried: bool,
    executed: Executed,
    /// The rows that its call reads, found before it is started if it is the one that was expected, and read as it is
    /// started.
    foreseen: Foreseen,
}

impl Model for Task {
    ghost use Rattle.std.specs.Prelude.{◌≡◌, true, Some};
    ghost use Rattle.tau_pool.specs.declared.item.Job.{Job};
    ghost use Rattle.tau_scan.specs.declared.log.Log.{Log};
    ghost use Rattle.tau_replay.specs.Result.{DoesJust};

    ghost Value = { Log };

    ghost view = { λ t. t.log.value };

    ghost invariant = { λ t. t.tried ≡ true → (job : Job) → t.job ≡ Some job → DoesJust t.log.value job t.executed.reads.items t.executed.writes.items };
}

impl Task {
    /// Of no record. It takes no memory.
    pub fn new(alloc: Global, log: &Log) -> Task
        ensures { result ≡ log.now }
    {
        Task {
            log: Snapshot::of(log),
            job: None,
            tried: false,
            executed: Executed::new(alloc),
            foreseen: Foreseen::new(alloc),
        }
    }

    /// The record is finished.
    pub fn rest(&mut self)
        ensures { self.new ≡ self.old }
    {
        self.tried = false;
        self.job = None;
    }

    /// This record is started. The rows that it will want are read.
    pub fn begin(
        &mut self,
        log: &Log,
        store: &SerialStore,
        places: &mut RowPlaces,
        job: Job,
        place: &mut Call,
    )
        ensures { self.new ≡ self.old }
    {
        self.tried = false;
        self.job = Some(job);
        self.foreseen.see(log, job.stream, job.index, place);
        self.foreseen.read(store, places);
    }

    /// The record that it has, if it has one.
    pub fn job(&self) -> Option<Job> {
        self.job
    }

    /// A record is expected to be started next: the rows that it will want are found outside the lock.
    pub fn foresee(&mut self, log: &Log, stream: u8, index: usize, place: &mut Call)
        ensures { self.new ≡ self.old }
    {
        self.foreseen.see(log, stream, index, place);
    }

    /// Executes the record's call outside the lock, if it is to be executed there. Whether there is a record.
    pub fn redo<R: Wait>(
        &mut self,
        rt: &R,
        lock: &Lock,
        seat: &mut Seat,
        log: &Log,
        scratch: &mut Scratch,
    ) -> bool
        requires of_log { self.old ≡ log.now }
        requires own { seat.old.table_id ≡ lock.now.table.shared.table_id }
        requires idle { IsIdle seat.old.me }
        ensures same { self.new ≡ self.old }
        ensures own { seat.new.table_id ≡ seat.old.table_id }
        ensures seat { seat.new.me ≡ seat.old.me }
    {
        let Some(job) = self.job else {
            return false;
        };
        if !self.foreseen.is_call() {
            return true;
        }
        self.tried = false;
        if !try_job(rt, lock, seat, log, job, self.foreseen.rows(), scratch) {
            return true;
        }
        swap(&mut self.executed.reads, &mut scratch.reads);
        self.tried = copy_rows(scratch.machine.writes(), &mut self.executed.writes);
        true
    }

    /// What is used of it at the finish of a record.
    pub fn outcome(&self, log: &Log, job: Job) -> Outcome<'_>
        requires of_log { self.now ≡ log.now }
        ensures { (result.log.value ≡ log.now) × (result.job ≡ job) }
    {
        if self.tried && self.job == Some(job) {
            Outcome::of(log, job, &self.executed)
        } else {
            Outcome::anew(log, job)
        }
    }
}

/// Puts copies of these rows in the place of others. Whether there was memory.
fn copy_rows(rows: &[(Key, Value)], copies: &mut Vec<(Key, Value)>) -> bool
    ensures { result ≡ true → copies.new.items ≡ rows.now }
{
    copies.clear();
    for (key, value) in rows {
        match copies.push((*key, value.copied())) {
            Ok(()) => {}
            Err(_) => return false,
        }
    }
    true
}

/// So many tasks of no record.
pub fn tasks_of(alloc: Global, log: &Log, many: usize) -> Result<Vec<Task>, NoMemory>
    ensures { IfOk result (λ tasks. tasks.items ≡ replicate many log.now) }
{
    let mut tasks = Vec::new(alloc);
    for _ in 0..many {
        tasks.push(Task::new(alloc, log))?;
    }
    Ok(tasks)
}

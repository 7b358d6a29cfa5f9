//! The clerk acknowledges calls.
ghost use Rattle.std.specs.Prelude.{ℕ, ◌≡◌, ◌≤◌, ◌<◌, ◌⊎◌, ◌++◌, ◌∷◌, [], true, false, List, Ok, OnOk, OnErr};
ghost use Rattle.tau_disk.specs.Disk.{Rose};
ghost use Rattle.tau_model.specs.History.{Act};
ghost use Rattle.tau_machine.specs.Hands.{Txn};
ghost use Rattle.tau_machine.specs.Events as machine;
ghost use Rattle.tau_core.specs.View.{Hidden};
ghost use Rattle.tau_core.specs.Stands.{Stands, Stood};
ghost use Rattle.tau_run.specs.Heard.{Heard};
ghost use Rattle.tau_step.specs.Progressed.{clears, clerks};
ghost use Rattle.tau_step.specs.Telling.{NextTold, Passed, waiting_of};

use std::alloc::Global;
use tau_ack::Waiting;
use tau_base::{Lv, NoMemory};
use tau_core::Core;
use tau_disk::{Sink, write_all};
use tau_report::{Acks, ack_line};

/// What the clerk has told.
#[derive(Drop)]
pub(crate) struct Clerk {
    /// The acknowledged calls with their vectors, in the order in which they were told.
    pub(crate) acks: Acks,
    /// The last call that was acknowledged, and its line.
    call: Waiting,
    line: Vec<u8>,
    /// Whether the sink failed. Then nothing more is written to it.
    pub(crate) sink_failed: bool,
}

impl Clerk {
    /// It has told nothing.
    pub(crate) fn new(alloc: Global) -> Clerk
        ensures acks { result.acks ≡ [] }
        ensures works { result.sink_failed ≡ false }
    {
        Clerk {
            acks: Acks::new(alloc),
            call: Waiting {
                number: 0,
                lv: Lv::zero(1),
            },
            line: Vec::new(alloc),
            sink_failed: false,
        }
    }

    /// Tells the last call that was acknowledged.
    #[inline(never)]
    fn tell<K: Sink>(&mut self, sink: &mut K) -> Result<(), NoMemory>
        ensures acks { OnOk result (self.new.acks ≡ self.old.acks ++ (self.old.call.number, self.old.call.lv) ∷ []) }
        ensures heard { OnOk result (K.tells → (base : List ℕ) → Heard base self.old.acks self.old.sink_failed (K.held sink.old) → Heard base self.new.acks self.new.sink_failed (K.held sink.new)) }
        ensures short { OnErr result ((sink.new ≡ sink.old) × (self.new.sink_failed ≡ self.old.sink_failed)) }
        ensures cause { self.new.sink_failed ≡ true → (self.old.sink_failed ≡ true) ⊎ Rose (K.faults sink.old) (K.faults sink.new) }
        ensures faults { K.faults sink.old ≤ K.faults sink.new }
    {
        self.acks.push(self.call.number, &self.call.lv)?;
        if self.sink_failed {
            return Ok(());
        }
        ack_line(&mut self.line, self.call.number, &self.call.lv)?;
        match write_all(sink, &self.line) {
            Ok(()) => Ok(()),
            Err(_) => {
                self.sink_failed = true;
                Ok(())
            }
        }
    }

    /// Acknowledges the first pending call of a worker that the persisted positions cover, and returns whether there was one.
    #[inline(always)]
    fn next<K: Sink>(&mut self, core: &mut Core, sink: &mut K, worker: u8) -> Result<bool, NoMemory>
        requires stood { Stood core.old }
        requires there { worker < core.old.load.workers }
        ensures told { (order : List (Act Txn)) (h : Hidden) (es : List machine.Event) → Stands core.old order h →
            NextTold worker core.old core.new self.old.acks self.new.acks self.old.sink_failed self.new.sink_failed K.tells (K.held sink.old) (K.held sink.new) order h es result }
        ensures heard { OnOk result (K.tells → (base : List ℕ) → Heard base self.old.acks self.old.sink_failed (K.held sink.old) → Heard base self.new.acks self.new.sink_failed (K.held sink.new)) }
        ensures cause { self.new.sink_failed ≡ true → (self.old.sink_failed ≡ true) ⊎ Rose (K.faults sink.old) (K.faults sink.new) }
        ensures faults { K.faults sink.old ≤ K.faults sink.new }
        ensures load { core.new.load ≡ core.old.load }
        ensures stood { Stood core.new }
        ensures less { result ≡ Ok true → waiting_of core.new worker < waiting_of core.old worker }
    {
        if !core.waits(worker) {
            return Ok(false);
        }
        if !core.ack(worker, &mut self.call) {
            return Ok(false);
        }
        self.tell(sink)?;
        Ok(true)
    }

    /// Acknowledges all pending calls of a worker that the persisted positions cover, in the order in which they ended.
    #[inline(always)]
    fn pass_worker<K: Sink>(
        &mut self,
        core: &mut Core,
        sink: &mut K,
        worker: u8,
    ) -> Result<(), NoMemory>
        requires stood { Stood core.old }
        requires there { worker < core.old.load.workers }
        ensures load { core.new.load ≡ core.old.load }
        ensures stood { Stood core.new }
        ensures passed { (order : List (Act Txn)) (h : Hidden) (es : List machine.Event) → Stands core.old order h →
            Passed (clears worker) core.old core.new self.old.acks self.new.acks self.old.sink_failed self.new.sink_failed K.tells (K.held sink.old) (K.held sink.new) order h es result }
        ensures heard { OnOk result (K.tells → (base : List ℕ) → Heard base self.old.acks self.old.sink_failed (K.held sink.old) → Heard base self.new.acks self.new.sink_failed (K.held sink.new)) }
        ensures cause { self.new.sink_failed ≡ true → (self.old.sink_failed ≡ true) ⊎ Rose (K.faults sink.old) (K.faults sink.new) }
        ensures faults { K.faults sink.old ≤ K.faults sink.new }
    {
        while self.next(core, sink, worker)? {}
        Ok(())
    }

    /// One pass over all workers in ascending order.
    #[inline(always)]
    pub(crate) fn pass<K: Sink>(
        &mut self,
        core: &mut Core,
        sink: &mut K,
        workers: u8,
    ) -> Result<(), NoMemory>
        requires stood { Stood core.old }
        requires all { workers ≡ core.old.load.workers }
        ensures load { core.new.load ≡ core.old.load }
        ensures stood { Stood core.new }
        ensures passed { (order : List (Act Txn)) (h : Hidden) (es : List machine.Event) → Stands core.old order h →
            Passed clerks core.old core.new self.old.acks self.new.acks self.old.sink_failed self.new.sink_failed K.tells (K.held sink.old) (K.held sink.new) order h es result }
        ensures heard { OnOk result (K.tells → (base : List ℕ) → Heard base self.old.acks self.old.sink_failed (K.held sink.old) → Heard base self.new.acks self.new.sink_failed (K.held sink.new)) }
        ensures cause { self.new.sink_failed ≡ true → (self.old.sink_failed ≡ true) ⊎ Rose (K.faults sink.old) (K.faults sink.new) }
        ensures faults { K.faults sink.old ≤ K.faults sink.new }
    {
        for worker in 0..workers {
            self.pass_worker(core, sink, worker)?;
        }
        Ok(())
    }
}

//! The core.
ghost use Rattle.std.specs.Prelude.{ℕ, ◌≡◌, ◌<◌, ◌≤◌, ◌%◌, ◌↔◌, IfOk, IsTrue, List, Some, length, map, slice_get, slice_index};
ghost use Rattle.tau_base.specs.Modes.{format_of, most_streams};
ghost use Rattle.tau_base.specs.Shards.{shard_number};
ghost use Rattle.tau_base.specs.declared.limits.TheConstants.{MAX_CATALOGUE, MAX_WORKERS};
ghost use Rattle.tau_text.specs.Canonical.{declarations_text};
ghost use Rattle.tau_text.specs.Kept.{AreCalls};
ghost use Rattle.tau_model.specs.Tables.{IsTablesOf};
ghost use Rattle.tau_model.specs.History.{Act, Reordered};
ghost use Rattle.tau_machine.specs.Hands.{Txn, committed_of};
ghost use Rattle.tau_machine.specs.State.{hand_of, sight};
ghost use Rattle.tau_core.specs.View.{Hidden, core_of, pending_in, setting_of};
ghost use Rattle.tau_core.specs.Stands.{Stands};
ghost use Rattle.tau_core.specs.Phases.{hand_phase};
ghost use Rattle.tau_core.specs.Steps.{AckSteps, CommitSteps, DoneSteps, FreeSteps, GatherSteps, HandsOut, IsThere, LockSteps, PersistSteps, PostSteps, QuitSteps, Steps, StopSteps};
ghost use Rattle.tau_core.specs.Answered.{WithValue, acked_by, gathered_by, outcome_by, placed_by, reached_by, went_by};
ghost use Rattle.tau_core.specs.Opens.{Fits, Opened, OpenedFresh, catalogue_size, load_of};
ghost use Rattle.tau_core.specs.LeftOvers.{ResumeSteps};
ghost use Rattle.tau_core.specs.Parts.{AreShown, AtRest, IsOfParts, Shows};
ghost use Rattle.tau_core.specs.Retries.{RetrySteps};
ghost use Rattle.tau_core.specs.NextLock.{TellsLock};

use crate::anchor::anchor;
use crate::apart::{Parts, parts_of, state_of};
use crate::commit::commit;
use crate::done::done;
use crate::event::{Acted, Event, Gathering, Outcome, Phase};
use crate::free::free;
use crate::gather::gather;
use crate::lock::lock;
use crate::new_opening::fresh;
use crate::next::next_lock;
use crate::open::open;
use crate::opening::Opening;
use crate::persist::{persist, stop};
use crate::phase::phase_of_kind;
use crate::post::post;
use crate::quit::quit;
use crate::resume::resume;
use crate::retry::retry;
use crate::state::State;
use crate::sweep::{ack, sweep};
use crate::tables::tables;
use crate::take_body::{swap_body, take_body};
use std::alloc::Global;
use std::marker::Model;
use tau_ack::Waiting;
use tau_base::{Key, LogMode, Lv, Mode, NoMemory, SHARDS, Value, shard_of, stream_of};
use tau_model::{CommittedList, Tables};
use tau_text::Workload;

/// The core of the engine.
#[derive(Drop)]
pub struct Core {
    state: State,
}

impl Model for Core {
    ghost use Rattle.tau_core.specs.State.{Plain, plain};
    ghost use Rattle.tau_core.specs.Stands.{Stood};

    ghost Value = { Plain };

    ghost view = { λ c. plain c.state };

    ghost invariant = { λ c. Stood (plain c.state) };
}

impl Core {
    /// The state in which nothing has happened, of a run of so many workers on this opening. The calls go to the workers in turn.
    pub fn open(
        alloc: Global,
        load: &Workload,
        opening: Opening,
        workers: u8,
        mode: LogMode,
    ) -> Result<Core, NoMemory>
        requires low { 1 ≤ workers }
        requires high { workers ≤ MAX_WORKERS }
        requires calls { AreCalls load.now.declarations.procs load.now.calls }
        requires streams { length opening.ends ≤ most_streams (format_of mode) }
        requires fits { Fits opening }
        ensures { IfOk result (λ core. Opened (load_of load.now.declarations.procs load.now.calls mode workers opening) core) }
    {
        let state = open(alloc, load, opening, usize::from(workers), mode)?;
        Ok(Core { state })
    }

    /// The state in which nothing has happened, of a run of so many workers on so many streams that hold the record of the catalogue alone.
    pub fn new(
        alloc: Global,
        load: &Workload,
        streams: u8,
        workers: u8,
        mode: LogMode,
    ) -> Result<Core, NoMemory>
        requires n_low { 1 ≤ streams }
        requires n_high { streams ≤ most_streams (format_of mode) }
        requires low { 1 ≤ workers }
        requires high { workers ≤ MAX_WORKERS }
        requires calls { AreCalls load.now.declarations.procs load.now.calls }
        requires text { length (declarations_text load.now.declarations) ≤ MAX_CATALOGUE }
        ensures { IfOk result (λ core. OpenedFresh load.now.declarations.procs load.now.calls mode workers streams (catalogue_size (declarations_text load.now.declarations)) core) }
    {
        let opening = fresh(alloc, &load.declarations, usize::from(streams))?;
        Core::open(alloc, load, opening, workers, mode)
    }

    /// Takes the core apart.
    pub fn into_parts(self) -> Parts
        ensures same { result ≡ self }
        ensures shown { (K : List (Act Txn)) (h : Hidden) → Stands self K h → Shows result (core_of self h) h.taken }
    {
        parts_of(self.state)
    }

    /// The core of these parts, where each call in hand is let go: it holds no key, and has not committed. It takes no memory.
    pub fn of_parts(parts: Parts) -> Core
        requires rests { AtRest parts }
        requires shown { AreShown parts }
        ensures { IsOfParts parts result }
    {
        Core {
            state: state_of(parts),
        }
    }

    /// One event: it happens, or nothing changes.
    pub fn step(&mut self, event: Event) -> Outcome
        requires there { IsThere self.old event }
        ensures { (K : List (Act Txn)) (h : Hidden) → Stands self.old K h → Steps self.old self.new K h event result }
    {
        match event {
            Event::Lock { worker } => self.lock_with_value(worker),
            Event::Quit { worker } => outcome_by(Outcome::Went, self.quit(worker)),
            Event::Commit { worker } => self.commit_with_start(worker),
            Event::Post { worker } => outcome_by(Outcome::Went, self.post(worker)),
            Event::Free { worker } => outcome_by(Outcome::Went, self.free(worker)),
            Event::Done { worker } => outcome_by(Outcome::Went, self.done(worker)),
            Event::Drop { shard } => {
                sweep(&mut self.state, shard as usize);
                Outcome::Went
            }
            Event::Gather { stream } => gathered_by(self.gather(stream)),
            Event::Anchor { stream } => anchor(&mut self.state, stream as usize),
            Event::Persist { stream, upto } => reached_by(self.persist(stream, upto)),
            Event::Ack { worker } => self.ack_with_call(worker),
            Event::Stop { stream, at } => reached_by(self.stop(stream, at)),
        }
    }

    /// The worker locks the key that it wants; one that rests begins its next call. As `step` of a Lock, but the value of the row is not told.
    pub fn lock(&mut self, worker: u8) -> Acted
        requires there { worker < self.old.load.workers }
        ensures { WithValue (λ outcome. (K : List (Act Txn)) (h : Hidden) → Stands self.old K h → LockSteps self.old self.new K h worker outcome) result }
    {
        lock(&mut self.state, worker as usize)
    }

    /// The call in hand, which is to quit, gives its lowest key back.
    pub fn quit(&mut self, worker: u8) -> Acted
        requires there { worker < self.old.load.workers }
        ensures { (K : List (Act Txn)) (h : Hidden) → Stands self.old K h → QuitSteps self.old self.new K h worker (went_by result) }
    {
        quit(&mut self.state, worker as usize)
    }

    /// The updating call that holds all its keys gets the place of its record, at the end of its stream.
    pub fn commit(&mut self, worker: u8) -> Acted
        requires there { worker < self.old.load.workers }
        ensures { (K : List (Act Txn)) (h : Hidden) → Stands self.old K h → CommitSteps self.old self.new K h worker (placed_by (slice_index self.old.ends (worker % self.old.load.streams)) result) }
    {
        commit(&mut self.state, worker as usize)
    }

    /// The record that has its place is posted.
    pub fn post(&mut self, worker: u8) -> Acted
        requires there { worker < self.old.load.workers }
        ensures { (K : List (Act Txn)) (h : Hidden) → Stands self.old K h → PostSteps self.old self.new K h worker (went_by result) }
    {
        post(&mut self.state, worker as usize)
    }

    /// The call that is posted, or read-only and has finished, frees its lowest key.
    pub fn free(&mut self, worker: u8) -> Acted
        requires there { worker < self.old.load.workers }
        ensures { (K : List (Act Txn)) (h : Hidden) → Stands self.old K h → FreeSteps self.old self.new K h worker (went_by result) }
    {
        free(&mut self.state, worker as usize)
    }

    /// The worker's call waits for its acknowledgement; a worker that rests begins its next call.
    pub fn done(&mut self, worker: u8) -> Acted
        requires there { worker < self.old.load.workers }
        ensures { (K : List (Act Txn)) (h : Hidden) → Stands self.old K h → DoneSteps self.old self.new K h worker (went_by result) }
    {
        done(&mut self.state, worker as usize)
    }

    /// Gathers the posted pieces that continue the stream.
    pub fn gather(&mut self, stream: u8) -> Gathering
        requires there { stream < self.old.load.streams }
        ensures { (K : List (Act Txn)) (h : Hidden) → Stands self.old K h → GatherSteps self.old self.new K h stream (gathered_by result) }
    {
        gather(&mut self.state, stream as usize)
    }

    /// Persists what is gathered of the stream up to a position. If that may not be, it tells why, and nothing changes.
    pub fn persist(&mut self, stream: u8, upto: u64) -> Result<(), Phase>
        requires there { stream < self.old.load.streams }
        ensures { (K : List (Act Txn)) (h : Hidden) → Stands self.old K h → PersistSteps self.old self.new K h stream upto (reached_by result) }
    {
        persist(&mut self.state, stream as usize, upto)
    }

    /// Cuts the stream at a position. If that may not be, it tells why, and nothing changes.
    pub fn stop(&mut self, stream: u8, at: u64) -> Result<(), Phase>
        requires there { stream < self.old.load.streams }
        ensures { (K : List (Act Txn)) (h : Hidden) → Stands self.old K h → StopSteps self.old self.new K h stream at (reached_by result) }
    {
        stop(&mut self.state, stream as usize, at)
    }

    /// The first pending call of the worker that is persisted is acknowledged, and written into `call`. Returns whether there was one.
    pub fn ack(&mut self, worker: u8, call: &mut Waiting) -> bool
        requires there { worker < self.old.load.workers }
        ensures { (K : List (Act Txn)) (h : Hidden) → Stands self.old K h → AckSteps self.old self.new K h worker (acked_by result call.new) }
    {
        ack(&mut self.state, worker as usize, call)
    }

    // The lock with the value of the row.
    fn lock_with_value(&mut self, worker: u8) -> Outcome
        requires there { worker < self.old.load.workers }
        ensures { (K : List (Act Txn)) (h : Hidden) → Stands self.old K h → LockSteps self.old self.new K h worker result }
    {
        let value = self.value_wanted(worker);
        let acted = self.lock(worker);
        outcome_by(Outcome::Granted(value), acted)
    }

    // The value of the row that the worker's lock is of, if its next action is a lock.
    fn value_wanted(&self, worker: u8) -> Value
        requires there { worker < self.now.load.workers }
        ensures { (K : List (Act Txn)) (h : Hidden) → Stands self.now K h → (lock : ℕ × Key × Mode) → TellsLock self.now h worker (Some lock) → result ≡ ((core_of self.now h).shards (shard_number lock.1)).rows lock.1 }
    {
        match self.next_lock(worker) {
            Some((_, key, _)) => self.value(key),
            None => Value::Absent,
        }
    }

    // The commit with the start of the record.
    fn commit_with_start(&mut self, worker: u8) -> Outcome
        requires there { worker < self.old.load.workers }
        ensures { (K : List (Act Txn)) (h : Hidden) → Stands self.old K h → CommitSteps self.old self.new K h worker result }
    {
        let start = self.start_next(worker);
        let acted = self.commit(worker);
        outcome_by(Outcome::Placed { start }, acted)
    }

    // Where the next record of the worker would start.
    fn start_next(&self, worker: u8) -> u64
        requires there { worker < self.now.load.workers }
        ensures { result ≡ slice_index self.now.ends (worker % self.now.load.streams) }
    {
        let stream = stream_of(worker as usize, self.state.load.streams);
        self.state.ends.get(stream)
    }

    // The acknowledgement with its call.
    fn ack_with_call(&mut self, worker: u8) -> Outcome
        requires there { worker < self.old.load.workers }
        ensures { (K : List (Act Txn)) (h : Hidden) → Stands self.old K h → AckSteps self.old self.new K h worker result }
    {
        let mut call = Waiting {
            number: 0,
            lv: Lv::zero(1),
        };
        if self.ack(worker, &mut call) {
            return Outcome::Acked {
                number: call.number,
                lv: call.lv,
            };
        }
        Outcome::NothingCovered
    }

    /// What the worker's call does next; of a worker without one, that it rests.
    pub fn next_of(&self, worker: u8) -> Phase
        requires there { worker < self.now.load.workers }
        ensures { (K : List (Act Txn)) (h : Hidden) → Stands self.now K h → result ≡ hand_phase self.now.load.procs (hand_of (core_of self.now h) worker) }
    {
        let seat = &self.state.seats[worker as usize];
        phase_of_kind(seat.txn.kind())
    }

    /// Whether some call of the worker waits for its acknowledgement.
    pub fn waits(&self, worker: u8) -> bool
        requires there { worker < self.now.load.workers }
        ensures { IsTrue result ↔ (1 ≤ length (pending_in (slice_get self.now.seats worker))) }
    {
        let seat = &self.state.seats[worker as usize];
        !seat.pending.is_empty()
    }

    /// How far each stream is persisted.
    pub fn plv(&self) -> Lv
        ensures { result ≡ self.now.plv }
    {
        self.state.plv
    }

    /// Where the last place of each stream ends.
    pub fn ends(&self) -> Lv
        ensures { result ≡ self.now.ends }
    {
        self.state.ends
    }

    /// Where each stream is gathered.
    pub fn gathered(&self) -> Lv
        ensures { result ≡ self.now.gathered }
    {
        self.state.gathered
    }

    /// Whether all that was placed in the stream is gathered.
    pub fn is_gathered(&self, stream: u8) -> bool
        requires there { stream < self.now.load.streams }
        ensures { IsTrue result ↔ (slice_index self.now.gathered stream ≡ slice_index self.now.ends stream) }
    {
        let upto = self.state.gathered.get(stream as usize);
        let past = self.state.ends.get(stream as usize);
        upto == past
    }

    /// The vector of the shard's keys that have no entry.
    pub fn floor(&self, shard: u8) -> Lv
        requires there { shard < SHARDS }
        ensures { (K : List (Act Txn)) (h : Hidden) → Stands self.now K h → result ≡ ((core_of self.now h).shards shard).floor }
    {
        let part = &self.state.shards[shard as usize];
        part.floor()
    }

    /// The value of a row.
    pub fn value(&self, key: Key) -> Value
        ensures { (K : List (Act Txn)) (h : Hidden) → Stands self.now K h → result ≡ ((core_of self.now h).shards (shard_number key)).rows key }
    {
        let part = &self.state.shards[shard_of(key) as usize];
        part.value(key)
    }

    /// The committed calls, each worker's in the order in which they committed.
    pub fn committed(&self) -> &CommittedList
        ensures same { result.now.items ≡ self.now.committed }
        ensures order { (K : List (Act Txn)) (h : Hidden) → Stands self.now K h → Reordered (map committed_of K) result.now.items }
    {
        &self.state.committed
    }

    /// The bytes of the stream that were gathered since the last such call.
    pub fn take_body(&mut self, stream: u8) -> Vec<u8>
        requires there { stream < self.old.load.streams }
        ensures { (K : List (Act Txn)) (h : Hidden) → Stands self.old K h → HandsOut self.old self.new K h stream result.items }
    {
        take_body(&mut self.state, stream as usize)
    }

    /// The same, put in the place of what `bytes` had, into whose memory the stream is gathered from then on. It takes no memory.
    pub fn swap_body(&mut self, stream: u8, bytes: &mut Vec<u8>)
        requires there { stream < self.old.load.streams }
        ensures { (K : List (Act Txn)) (h : Hidden) → Stands self.old K h → HandsOut self.old self.new K h stream bytes.new.items }
    {
        swap_body(&mut self.state, stream as usize, bytes);
    }

    /// The present rows.
    pub fn tables(&self, alloc: Global) -> Result<Tables, NoMemory>
        ensures { (K : List (Act Txn)) (h : Hidden) → Stands self.now K h → IfOk result (λ tables. IsTablesOf (sight (setting_of self.now.load) (core_of self.now h)).row tables) }
    {
        tables(&self.state, alloc)
    }

    /// Where no worker has a call in hand or one to begin, the lowest call that was left over becomes the next one of its worker, which is the
    /// answer. None exactly where that is not so, or no call was left over.
    pub fn resume(&mut self) -> Option<u8>
        ensures { (K : List (Act Txn)) (h : Hidden) → Stands self.old K h → ResumeSteps self.old self.new K h result }
    {
        resume(&mut self.state)
    }

    /// The number of the worker's call with the lock that is its next action; of a worker that rests, of its next call. None exactly where its
    /// next action is none.
    pub fn next_lock(&self, worker: u8) -> Option<(u64, Key, Mode)>
        requires there { worker < self.now.load.workers }
        ensures { (K : List (Act Txn)) (h : Hidden) → Stands self.now K h → TellsLock self.now h worker result }
    {
        next_lock(&self.state, worker as usize)
    }

    /// The lock that the worker wants is not taken, and its call is left as by a Busy. NotNow where its next action is no lock; NoMemory only
    /// where a call would begin.
    pub fn retry(&mut self, worker: u8) -> Outcome
        requires there { worker < self.old.load.workers }
        ensures { (K : List (Act Txn)) (h : Hidden) → Stands self.old K h → RetrySteps self.old self.new K h worker result }
    {
        retry(&mut self.state, worker as usize)
    }
}

/// The outcome that the answer of a worker's event stands for, which is this one if the event happened.
fn outcome_by(went: Outcome, acted: Acted) -> Outcome
    ensures { result ≡ outcome_by went acted }
{
    match acted {
        Acted::Went => went,
        Acted::Busy { holder } => Outcome::Busy { holder },
        Acted::Other { kind } => Outcome::NotNow {
            phase: phase_of_kind(kind),
        },
        Acted::NoMemory => Outcome::NoMemory,
    }
}

/// The outcome of a Gather.
fn gathered_by(gathering: Gathering) -> Outcome
    ensures { result ≡ gathered_by gathering }
{
    match gathering {
        Gathering::Upto { upto } => Outcome::Gathered { upto },
        Gathering::Stopped { at } => Outcome::NotNow {
            phase: Phase::Stopped { at },
        },
        Gathering::NoMemory => Outcome::NoMemory,
    }
}

/// The outcome of a Persist or a Stop.
fn reached_by(reached: Result<(), Phase>) -> Outcome
    ensures { result ≡ reached_by reached }
{
    match reached {
        Ok(()) => Outcome::Went,
        Err(phase) => Outcome::NotNow { phase },
    }
}

//! A run: turns of its actors.
ghost use Rattle.std.specs.Prelude.{ℕ, ◌≡◌, ◌<◌, ◌≤◌, ◌⊎◌, ◌||◌, ◌∷◌, [], List, Some, None, true, false, is_ok, Ok, OnOk};
ghost use Rattle.tau_disk.specs.Disk.{Rose};
ghost use Rattle.tau_model.specs.History.{Act};
ghost use Rattle.tau_machine.specs.Hands.{Txn};
ghost use Rattle.tau_machine.specs.Events as machine;
ghost use Rattle.tau_core.specs.Opens.{nothing};
ghost use Rattle.tau_core.specs.Stands.{Stands, Stood};
ghost use Rattle.tau_core.specs.View.{Hidden, core_of};
ghost use Rattle.tau_run.specs.RunFacts.{turns_of};
ghost use Rattle.tau_run.specs.Schedule.{Word};
ghost use Rattle.tau_run.specs.StopsLeave.{NamesLowest, stops_in};
ghost use Rattle.tau_run.specs.Heard.{Heard};
ghost use Rattle.tau_step.specs.Acting.{IsAlone, IsSettling, Settles};
ghost use Rattle.tau_occ.specs.declared.style.Style.TheVariants.{Optimistic};
ghost use Rattle.tau_step.specs.Optimists.{AllFit, AreFit, all_turns_left, peeks_of};
ghost use Rattle.tau_step.specs.RunEffects.{IsOn, Manages, Moves, SameWorkers, Works, calls_over, rests_in, to_flush, total_left};
ghost use Rattle.tau_step.specs.Progressed.{clerks};
ghost use Rattle.tau_step.specs.Rounding.{acted_alone, all_idled, alone_by, all_managed, drained, flushed_by, idled, in_rounds, managed_by, none_peeked, ran_all, ran_behind, ran, ran_last, ran_left_over, rest_of_round, resumed_by, round_by, rounded_by, turned, turned_all, worked_by, worker_turned};
ghost use Rattle.tau_step.specs.Telling.{Passed};

use crate::clerk::Clerk;
use crate::flushes::Flushes;
use crate::manager::{Managing, anchor_turn, manager_turn, removal};
use crate::seen::optimistic_turn;
use crate::worker::worker_turn;
use tau_base::NoMemory;
use tau_core::Core;
use tau_disk::{Disk, Sink};
use tau_occ::{Peeker, Style};
use tau_stream::Writer;
use tau_text::{Turn, Workload};

/// A run by turns. Its writers and its sink are handed in at each turn.
#[derive(Drop)]
pub(crate) struct Run {
    pub(crate) core: Core,
    pub(crate) clerk: Clerk,
    /// How many workers it has.
    pub(crate) workers: u8,
    /// How many streams it has.
    pub(crate) streams: u8,
    /// The lowest stream whose disk failed. Where there is one, workers begin no call.
    pub(crate) failed: Option<u8>,
    /// What it has flushed, if that is noted.
    pub(crate) flushes: Flushes,
    /// What was flushed last, whose memory is used again.
    pub(crate) body: Vec<u8>,
}

/// The lower of two streams, of which the first may be none.
fn lowest(failed: Option<u8>, stream: u8) -> Option<u8>
    ensures none { failed ≡ None → result ≡ Some stream }
    ensures some { (other : ℕ) → failed ≡ Some other → ((other ≤ stream) × (result ≡ Some other)) ⊎ ((stream < other) × (result ≡ Some stream)) }
{
    match failed {
        Some(other) if other <= stream => Some(other),
        _ => Some(stream),
    }
}

/// Whether one of two is so.
fn either(first: bool, second: bool) -> bool
    ensures { result ≡ (first || second) }
{
    first || second
}

impl Run {
    /// A turn of a worker, and whether it did anything.
    #[inline(always)]
    fn work(
        &mut self,
        style: Style,
        load: &Workload,
        peekers: &mut Vec<Peeker>,
        worker: u8,
    ) -> Result<bool, NoMemory>
        requires stood { Stood self.old.core }
        requires there { worker < self.old.core.load.workers }
        requires lowest { NamesLowest self.old.core.load.streams (stops_in (core_of self.old.core nothing)) self.old.failed }
        requires fit { AreFit style load.now self.old.core peekers.old.items }
        ensures works { Works (worked_by style (peeks_of peekers.old.items) (peeks_of peekers.new.items) worker result) (is_ok result) self.old self.new }
        ensures fit { OnOk result (AreFit style load.now self.new.core peekers.new.items) }
        ensures fewer { result ≡ Ok true → all_turns_left self.new.core (peeks_of peekers.new.items) < all_turns_left self.old.core (peeks_of peekers.old.items) }
    {
        match style {
            Style::Locking => self.work_alone(worker),
            Style::Optimistic => self.work_peeking(load, peekers, worker),
        }
    }

    /// A turn of a worker in the style Locking, and whether it did anything.
    #[inline(always)]
    fn work_alone(&mut self, worker: u8) -> Result<bool, NoMemory>
        requires stood { Stood self.old.core }
        requires there { worker < self.old.core.load.workers }
        requires lowest { NamesLowest self.old.core.load.streams (stops_in (core_of self.old.core nothing)) self.old.failed }
        ensures works { Works (alone_by worker result) (is_ok result) self.old self.new }
        ensures fewer { result ≡ Ok true → total_left self.new.core < total_left self.old.core }
        ensures alone { IsAlone worker self.old.core → IsSettling worker self.old.core → Settles worker self.old.core self.new.core }
    {
        worker_turn(&mut self.core, worker, self.failed.is_some())
    }

    /// A turn of an optimistic worker, and whether it did anything.
    #[inline(never)]
    fn work_peeking(
        &mut self,
        load: &Workload,
        peekers: &mut Vec<Peeker>,
        worker: u8,
    ) -> Result<bool, NoMemory>
        requires stood { Stood self.old.core }
        requires there { worker < self.old.core.load.workers }
        requires lowest { NamesLowest self.old.core.load.streams (stops_in (core_of self.old.core nothing)) self.old.failed }
        requires fit { AllFit load.now self.old.core peekers.old.items }
        ensures works { Works (worked_by Optimistic (peeks_of peekers.old.items) (peeks_of peekers.new.items) worker result) (is_ok result) self.old self.new }
        ensures fit { OnOk result (AllFit load.now self.new.core peekers.new.items) }
    {
        let at = usize::from(worker);
        let stopped = self.failed.is_some();
        optimistic_turn(&mut self.core, &mut peekers[at], load, worker, stopped)
    }

    /// A turn of a manager.
    #[inline(always)]
    fn manage<D: Disk>(
        &mut self,
        writers: &mut Vec<Writer<D>>,
        stream: u8,
    ) -> Result<Managing, NoMemory>
        requires on { IsOn writers.old.items self.old }
        requires there { stream < self.old.streams }
        ensures manages { Manages (managed_by stream result) (is_ok result) self.old self.new writers.old.items writers.new.items }
        ensures same { OnOk result (SameWorkers self.old.core self.new.core) }
        ensures fewer { result ≡ Ok Managing.Flushed → to_flush self.new.core stream < to_flush self.old.core stream }
    {
        let at = usize::from(stream);
        match manager_turn(&mut self.core, &mut writers[at], stream, &mut self.body)? {
            Managing::Failed => {
                self.failed = lowest(self.failed, stream);
                Ok(Managing::Failed)
            }
            Managing::Flushed => {
                self.flushes.note(stream);
                Ok(Managing::Flushed)
            }
            Managing::Idle => Ok(Managing::Idle),
        }
    }

    /// A turn of the clerk.
    #[inline(always)]
    fn clerk<K: Sink>(&mut self, sink: &mut K) -> Result<(), NoMemory>
        requires stood { Stood self.old.core }
        requires workers { self.old.workers ≡ self.old.core.load.workers }
        ensures passed { (order : List (Act Txn)) (h : Hidden) (es : List machine.Event) → Stands self.old.core order h →
            Passed clerks self.old.core self.new.core self.old.clerk.acks self.new.clerk.acks self.old.clerk.sink_failed self.new.clerk.sink_failed K.tells (K.held sink.old) (K.held sink.new) order h es result }
        ensures heard { OnOk result (K.tells → (base : List ℕ) → Heard base self.old.clerk.acks self.old.clerk.sink_failed (K.held sink.old) → Heard base self.new.clerk.acks self.new.clerk.sink_failed (K.held sink.new)) }
        ensures cause { self.new.clerk.sink_failed ≡ true → (self.old.clerk.sink_failed ≡ true) ⊎ Rose (K.faults sink.old) (K.faults sink.new) }
        ensures faults { K.faults sink.old ≤ K.faults sink.new }
        ensures load { self.new.core.load ≡ self.old.core.load }
        ensures stood { Stood self.new.core }
        ensures failed { self.new.failed ≡ self.old.failed }
        ensures workers { self.new.workers ≡ self.old.workers }
        ensures streams { self.new.streams ≡ self.old.streams }
        ensures flushes { self.new.flushes ≡ self.old.flushes }
    {
        self.clerk.pass(&mut self.core, sink, self.workers)
    }

    /// The turn word of a worker, which may not be there.
    fn worker_word(
        &mut self,
        style: Style,
        load: &Workload,
        peekers: &mut Vec<Peeker>,
        worker: u8,
    ) -> Result<(), NoMemory>
        requires stood { Stood self.old.core }
        requires workers { self.old.workers ≡ self.old.core.load.workers }
        requires lowest { NamesLowest self.old.core.load.streams (stops_in (core_of self.old.core nothing)) self.old.failed }
        requires fit { AreFit style load.now self.old.core peekers.old.items }
        ensures works { Works (worker_turned style (peeks_of peekers.old.items) (peeks_of peekers.new.items) worker) (is_ok result) self.old self.new }
        ensures fit { OnOk result (AreFit style load.now self.new.core peekers.new.items) }
    {
        if worker >= self.workers {
            return Ok(());
        }
        self.work(style, load, peekers, worker)?;
        Ok(())
    }

    /// The turn word of a manager, which may not be there.
    fn manager_word<D: Disk>(
        &mut self,
        writers: &mut Vec<Writer<D>>,
        stream: u8,
    ) -> Result<(), NoMemory>
        requires on { IsOn writers.old.items self.old }
        ensures manages { Manages (turned (Turn.Manager stream)) (is_ok result) self.old self.new writers.old.items writers.new.items }
    {
        if stream >= self.streams {
            return Ok(());
        }
        self.manage(writers, stream)?;
        Ok(())
    }

    /// The turn word of an anchor, whose stream may not be there.
    fn anchor_word(&mut self, stream: u8) -> Result<(), NoMemory>
        requires stood { Stood self.old.core }
        requires streams { self.old.streams ≡ self.old.core.load.streams }
        ensures works { Works (turned (Turn.Anchor stream)) (is_ok result) self.old self.new }
    {
        if stream >= self.streams {
            return Ok(());
        }
        anchor_turn(&mut self.core, stream)
    }

    /// The turn word that removes entries.
    fn removal_word(&mut self)
        requires stood { Stood self.old.core }
        ensures works { Works (turned Turn.Drop) true self.old self.new }
    {
        removal(&mut self.core)
    }

    /// One turn word. One whose actor is not there changes nothing.
    fn turn<D: Disk, K: Sink>(
        &mut self,
        style: Style,
        load: &Workload,
        peekers: &mut Vec<Peeker>,
        writers: &mut Vec<Writer<D>>,
        sink: &mut K,
        turn: Turn,
    ) -> Result<(), NoMemory>
        requires on { IsOn writers.old.items self.old }
        requires fit { AreFit style load.now self.old.core peekers.old.items }
        ensures moves { Moves (ran style (peeks_of peekers.old.items) (peeks_of peekers.new.items) (Word turn ∷ [])) (is_ok result) self.old self.new writers.old.items writers.new.items K.tells (K.held sink.old) (K.held sink.new) (K.faults sink.old) (K.faults sink.new) }
        ensures fit { OnOk result (AreFit style load.now self.new.core peekers.new.items) }
    {
        match turn {
            Turn::Worker(worker) => self.worker_word(style, load, peekers, worker),
            Turn::Manager(stream) => self.manager_word(writers, stream),
            Turn::Anchor(stream) => self.anchor_word(stream),
            Turn::Clerk => self.clerk(sink),
            Turn::Drop => {
                self.removal_word();
                Ok(())
            }
        }
    }

    /// The turn words in order.
    pub(crate) fn words<D: Disk, K: Sink>(
        &mut self,
        style: Style,
        load: &Workload,
        peekers: &mut Vec<Peeker>,
        writers: &mut Vec<Writer<D>>,
        sink: &mut K,
        turns: &[Turn],
    ) -> Result<(), NoMemory>
        requires on { IsOn writers.old.items self.old }
        requires fit { AreFit style load.now self.old.core peekers.old.items }
        ensures moves { Moves (turned_all style (peeks_of peekers.old.items) (peeks_of peekers.new.items) turns.now) (is_ok result) self.old self.new writers.old.items writers.new.items K.tells (K.held sink.old) (K.held sink.new) (K.faults sink.old) (K.faults sink.new) }
        ensures fit { OnOk result (AreFit style load.now self.new.core peekers.new.items) }
    {
        for turn in turns {
            self.turn(style, load, peekers, writers, sink, *turn)?;
        }
        Ok(())
    }

    /// A turn of each worker, and whether any did anything.
    #[inline(always)]
    fn workers_round(
        &mut self,
        style: Style,
        load: &Workload,
        peekers: &mut Vec<Peeker>,
    ) -> Result<bool, NoMemory>
        requires stood { Stood self.old.core }
        requires workers { self.old.workers ≡ self.old.core.load.workers }
        requires lowest { NamesLowest self.old.core.load.streams (stops_in (core_of self.old.core nothing)) self.old.failed }
        requires fit { AreFit style load.now self.old.core peekers.old.items }
        ensures works { Works (rounded_by style (peeks_of peekers.old.items) (peeks_of peekers.new.items) result) (is_ok result) self.old self.new }
        ensures fit { OnOk result (AreFit style load.now self.new.core peekers.new.items) }
        ensures fewer { result ≡ Ok true → all_turns_left self.new.core (peeks_of peekers.new.items) < all_turns_left self.old.core (peeks_of peekers.old.items) }
    {
        let mut any = false;
        for worker in 0..self.workers {
            let did = self.work(style, load, peekers, worker)?;
            any = either(any, did);
        }
        Ok(any)
    }

    /// A turn of each manager.
    fn managers_round<D: Disk>(&mut self, writers: &mut Vec<Writer<D>>) -> Result<(), NoMemory>
        requires on { IsOn writers.old.items self.old }
        ensures manages { Manages all_managed (is_ok result) self.old self.new writers.old.items writers.new.items }
        ensures same { OnOk result (SameWorkers self.old.core self.new.core) }
    {
        for stream in 0..self.streams {
            self.manage(writers, stream)?;
        }
        Ok(())
    }

    /// The managers and the clerk in a round in which some worker did anything.
    fn rest_of_round<D: Disk, K: Sink>(
        &mut self,
        writers: &mut Vec<Writer<D>>,
        sink: &mut K,
    ) -> Result<bool, NoMemory>
        requires on { IsOn writers.old.items self.old }
        ensures moves { Moves rest_of_round (is_ok result) self.old self.new writers.old.items writers.new.items K.tells (K.held sink.old) (K.held sink.new) (K.faults sink.old) (K.faults sink.new) }
        ensures same { OnOk result (SameWorkers self.old.core self.new.core) }
        ensures some { result ≡ Ok false → ⊥ }
    {
        self.managers_round(writers)?;
        self.clerk(sink)?;
        Ok(true)
    }

    /// A round of all workers, all managers and the clerk, and whether any worker did anything. Where none did the others do not act.
    fn round<D: Disk, K: Sink>(
        &mut self,
        style: Style,
        load: &Workload,
        peekers: &mut Vec<Peeker>,
        writers: &mut Vec<Writer<D>>,
        sink: &mut K,
    ) -> Result<bool, NoMemory>
        requires on { IsOn writers.old.items self.old }
        requires fit { AreFit style load.now self.old.core peekers.old.items }
        ensures rests { result ≡ Ok false → rests_in self.new.core × (peeks_of peekers.new.items ≡ none_peeked) }
        ensures moves { Moves (round_by style (peeks_of peekers.old.items) (peeks_of peekers.new.items) result) (is_ok result) self.old self.new writers.old.items writers.new.items K.tells (K.held sink.old) (K.held sink.new) (K.faults sink.old) (K.faults sink.new) }
        ensures fit { OnOk result (AreFit style load.now self.new.core peekers.new.items) }
        ensures fewer { result ≡ Ok true → all_turns_left self.new.core (peeks_of peekers.new.items) < all_turns_left self.old.core (peeks_of peekers.old.items) }
    {
        match self.workers_round(style, load, peekers)? {
            false => Ok(false),
            true => self.rest_of_round(writers, sink),
        }
    }

    /// Rounds, until no worker has anything to do.
    pub(crate) fn rounds<D: Disk, K: Sink>(
        &mut self,
        style: Style,
        load: &Workload,
        peekers: &mut Vec<Peeker>,
        writers: &mut Vec<Writer<D>>,
        sink: &mut K,
    ) -> Result<(), NoMemory>
        requires on { IsOn writers.old.items self.old }
        requires fit { AreFit style load.now self.old.core peekers.old.items }
        ensures moves { Moves (in_rounds style (peeks_of peekers.old.items) (peeks_of peekers.new.items)) (is_ok result) self.old self.new writers.old.items writers.new.items K.tells (K.held sink.old) (K.held sink.new) (K.faults sink.old) (K.faults sink.new) }
        ensures rests { OnOk result (rests_in self.new.core) }
        ensures none { OnOk result (peeks_of peekers.new.items ≡ none_peeked) }
    {
        'rounds: while self.round(style, load, peekers, writers, sink)? {}
        Ok(())
    }

    /// A worker acts until it has nothing to do.
    fn alone(&mut self, worker: u8) -> Result<(), NoMemory>
        requires stood { Stood self.old.core }
        requires there { worker < self.old.core.load.workers }
        requires lowest { NamesLowest self.old.core.load.streams (stops_in (core_of self.old.core nothing)) self.old.failed }
        requires alone { IsAlone worker self.old.core }
        requires settling { IsSettling worker self.old.core }
        ensures works { Works (acted_alone worker) (is_ok result) self.old self.new }
        ensures settles { Settles worker self.old.core self.new.core }
    {
        'acts: while self.work_alone(worker)? {}
        Ok(())
    }

    /// The lowest call left over runs alone, if there is one.
    fn resumed(&mut self) -> Result<bool, NoMemory>
        requires stood { Stood self.old.core }
        requires lowest { NamesLowest self.old.core.load.streams (stops_in (core_of self.old.core nothing)) self.old.failed }
        requires going { self.old.failed ≡ None }
        requires rests { rests_in self.old.core }
        ensures works { Works (resumed_by result) (is_ok result) self.old self.new }
        ensures rests { OnOk result (rests_in self.new.core) }
        ensures fewer { result ≡ Ok true → calls_over self.new.core < calls_over self.old.core }
    {
        match self.core.resume() {
            Some(worker) => {
                self.alone(worker)?;
                Ok(true)
            }
            None => Ok(false),
        }
    }

    /// The calls left over run alone, each in its own stream, in ascending number. After a stop none does.
    pub(crate) fn left_over(&mut self) -> Result<(), NoMemory>
        requires stood { Stood self.old.core }
        requires lowest { NamesLowest self.old.core.load.streams (stops_in (core_of self.old.core nothing)) self.old.failed }
        requires rests { rests_in self.old.core }
        ensures works { Works ran_left_over (is_ok result) self.old self.new }
    {
        if self.failed.is_some() {
            return Ok(());
        }
        'calls: while self.resumed()? {}
        Ok(())
    }

    /// A turn of a manager, and whether it flushed anything.
    fn flushed<D: Disk>(
        &mut self,
        writers: &mut Vec<Writer<D>>,
        stream: u8,
    ) -> Result<bool, NoMemory>
        requires on { IsOn writers.old.items self.old }
        requires there { stream < self.old.streams }
        ensures manages { Manages (flushed_by stream result) (is_ok result) self.old self.new writers.old.items writers.new.items }
        ensures fewer { result ≡ Ok true → to_flush self.new.core stream < to_flush self.old.core stream }
    {
        match self.manage(writers, stream)? {
            Managing::Flushed => Ok(true),
            Managing::Idle => Ok(false),
            Managing::Failed => Ok(false),
        }
    }

    /// A manager acts until it has nothing to flush, or its disk has failed.
    fn drain_stream<D: Disk>(
        &mut self,
        writers: &mut Vec<Writer<D>>,
        stream: u8,
    ) -> Result<(), NoMemory>
        requires on { IsOn writers.old.items self.old }
        requires there { stream < self.old.streams }
        ensures manages { Manages (idled stream) (is_ok result) self.old self.new writers.old.items writers.new.items }
    {
        'flushes: while self.flushed(writers, stream)? {}
        Ok(())
    }

    /// All managers act until they have nothing to flush.
    fn drain_streams<D: Disk>(&mut self, writers: &mut Vec<Writer<D>>) -> Result<(), NoMemory>
        requires on { IsOn writers.old.items self.old }
        ensures manages { Manages all_idled (is_ok result) self.old self.new writers.old.items writers.new.items }
    {
        for stream in 0..self.streams {
            self.drain_stream(writers, stream)?;
        }
        Ok(())
    }

    /// All managers act until they have nothing to flush, and the clerk makes a last pass.
    pub(crate) fn drain<D: Disk, K: Sink>(
        &mut self,
        writers: &mut Vec<Writer<D>>,
        sink: &mut K,
    ) -> Result<(), NoMemory>
        requires on { IsOn writers.old.items self.old }
        ensures moves { Moves drained (is_ok result) self.old self.new writers.old.items writers.new.items K.tells (K.held sink.old) (K.held sink.new) (K.faults sink.old) (K.faults sink.new) }
    {
        self.drain_streams(writers)?;
        self.clerk(sink)
    }

    /// The turn words, if there are any.
    fn named<D: Disk, K: Sink>(
        &mut self,
        style: Style,
        load: &Workload,
        peekers: &mut Vec<Peeker>,
        writers: &mut Vec<Writer<D>>,
        sink: &mut K,
    ) -> Result<(), NoMemory>
        requires on { IsOn writers.old.items self.old }
        requires fit { AreFit style load.now self.old.core peekers.old.items }
        ensures moves { Moves (turned_all style (peeks_of peekers.old.items) (peeks_of peekers.new.items) (turns_of load.now)) (is_ok result) self.old self.new writers.old.items writers.new.items K.tells (K.held sink.old) (K.held sink.new) (K.faults sink.old) (K.faults sink.new) }
        ensures fit { OnOk result (AreFit style load.now self.new.core peekers.new.items) }
    {
        match &load.turns {
            Some(turns) => self.words(style, load, peekers, writers, sink, turns.as_slice()),
            None => Ok(()),
        }
    }

    /// The whole run: the turn words, rounds, the calls left over, and what is to be flushed.
    pub(crate) fn all<D: Disk, K: Sink>(
        &mut self,
        style: Style,
        load: &Workload,
        peekers: &mut Vec<Peeker>,
        writers: &mut Vec<Writer<D>>,
        sink: &mut K,
    ) -> Result<(), NoMemory>
        requires on { IsOn writers.old.items self.old }
        requires fit { AreFit style load.now self.old.core peekers.old.items }
        ensures moves { Moves (ran_all style (peeks_of peekers.old.items) (peeks_of peekers.new.items) (turns_of load.now)) (is_ok result) self.old self.new writers.old.items writers.new.items K.tells (K.held sink.old) (K.held sink.new) (K.faults sink.old) (K.faults sink.new) }
    {
        self.named(style, load, peekers, writers, sink)?;
        self.behind_words(style, load, peekers, writers, sink)
    }

    /// What comes after the turn words.
    fn behind_words<D: Disk, K: Sink>(
        &mut self,
        style: Style,
        load: &Workload,
        peekers: &mut Vec<Peeker>,
        writers: &mut Vec<Writer<D>>,
        sink: &mut K,
    ) -> Result<(), NoMemory>
        requires on { IsOn writers.old.items self.old }
        requires fit { AreFit style load.now self.old.core peekers.old.items }
        ensures moves { Moves (ran_behind style (peeks_of peekers.old.items) (peeks_of peekers.new.items)) (is_ok result) self.old self.new writers.old.items writers.new.items K.tells (K.held sink.old) (K.held sink.new) (K.faults sink.old) (K.faults sink.new) }
    {
        self.rounds(style, load, peekers, writers, sink)?;
        self.behind_rounds(writers, sink)
    }

    /// What comes after the rounds.
    fn behind_rounds<D: Disk, K: Sink>(
        &mut self,
        writers: &mut Vec<Writer<D>>,
        sink: &mut K,
    ) -> Result<(), NoMemory>
        requires on { IsOn writers.old.items self.old }
        requires rests { rests_in self.old.core }
        ensures moves { Moves ran_last (is_ok result) self.old self.new writers.old.items writers.new.items K.tells (K.held sink.old) (K.held sink.new) (K.faults sink.old) (K.faults sink.new) }
    {
        self.left_over()?;
        self.drain(writers, sink)
    }
}

//! The pools of a recovery.
ghost use Rattle.std.specs.Prelude.{◌≡◌, ◌≢◌, ◌≤◌, ◌<◌, ◌+◌, ℕ, true, false, length, replicate, slice_get, IfOk, IfSome, IsNone, Some};
ghost use Rattle.tau_scan.specs.Reading.{IsLog};
ghost use Rattle.tau_scan.specs.Epochs.{judge_of};
ghost use Rattle.tau_pool.specs.Item.{Item};
ghost use Rattle.tau_pool.specs.declared.item.Job.{Job};
ghost use Rattle.tau_pool.specs.Items.{is_left, items_from, items_after};
ghost use Rattle.tau_pool.specs.Passing.{is_passed, is_ready};
ghost use Rattle.tau_pool.specs.First.{first_from};
ghost use Rattle.tau_pool.specs.Kept.{AreWithin, IsReached};
ghost use Rattle.tau_pool.specs.Pooled.{IsRecovered, IsStarted, IsFlying, IsFinished, IsNotYet, IsDone, NoneReady, IsFirstLeft, flying_in};

use crate::item::{Job, Stage, items_of};
use crate::items::Items;
use crate::pass::{first_ready, next_ready};
use crate::waits::{Wait, waits_of};
use std::alloc::Global;
use std::marker::Model;
use tau_base::{Listed, Lv, MAX_STREAMS, NoMemory};
use tau_scan::{Judge, Log};

/// What may be done next.
#[derive(Clone, Copy, Debug, PartialEq, Eq)]
pub enum Next {
    /// This record is started: the recovered vector covers it.
    Taken(Job),
    /// Some record is not started, and the recovered vector covers none of these.
    NotYet,
    /// Each record is started.
    Done,
}

/// The taken records of a log: which are started and finished, and how far each stream is recovered.
#[derive(Debug, Drop)]
pub struct Pools {
    alloc: Global,
    ends: Lv,
    rlv: Lv,
    items: Items,
    /// For each stream the place of its first record that is left, or of one after it.
    nexts: Vec<usize>,
    /// Whether what waits for each stream is listed. It is when a ready record is first asked for and the next one is not:
    /// who names the places of records needs no lists.
    listed: bool,
    /// For each stream what waits for it, in the order of what is waited for.
    waits: Vec<Listed<Wait>>,
    /// How many of these are passed over.
    passed: Vec<usize>,
    waiting: usize,
    flying: usize,
    /// The place after that of the record that was started last, which mostly is ready too.
    after: usize,
}

impl Model for Pools {
    ghost use Rattle.tau_pool.specs.Pooled.{Pooled};
    ghost use Rattle.tau_pool.specs.Kept.{IsKept};

    ghost Value = { Pooled };

    ghost view = { λ p. record { ends = p.ends; rlv = p.rlv; items = p.items } };

    ghost invariant = { λ p. IsKept p.ends p.rlv p.items p.waits.items p.nexts.items p.passed.items p.waiting p.flying p.listed };
}

impl Pools {
    /// The pools of a log, where no record is started.
    pub fn new(alloc: Global, log: &Log) -> Result<Pools, NoMemory>
        requires { IsLog log.now }
        ensures items { IfOk result (λ p. p.items ≡ items_from (judge_of log.now) 0 log.now.streams) }
        ensures ends { IfOk result (λ p. p.ends ≡ log.now.elv) }
        ensures recovered { IfOk result (λ p. IsRecovered p.ends p.rlv p.items) }
    {
        Pools::behind(alloc, log, &Lv::zero(log.elv.width()))
    }

    /// The pools of the records of a log that start at or after the place of their stream, where no record is started.
    pub fn behind(alloc: Global, log: &Log, from: &Lv) -> Result<Pools, NoMemory>
        requires { IsLog log.now }
        ensures items { IfOk result (λ p. p.items ≡ items_after from.now (judge_of log.now) log.now.streams) }
        ensures ends { IfOk result (λ p. p.ends ≡ log.now.elv) }
        ensures recovered { IfOk result (λ p. IsRecovered p.ends p.rlv p.items) }
    {
        let n = log.elv.width();
        let judge = Judge::of(alloc, log)?;
        let items = items_of(alloc, from, &judge, log.streams.as_slice())?;
        let (rlv, nexts) = reached_of(alloc, &log.elv, &items)?;
        let waiting = items.len();
        Ok(Pools {
            alloc,
            ends: log.elv,
            rlv,
            items,
            nexts,
            listed: false,
            waits: Vec::new(alloc),
            passed: Vec::new(alloc),
            waiting,
            flying: 0,
            after: 0,
        })
    }

    /// Starts a record that is ready, where there is one.
    pub fn take(&mut self) -> Next
        ensures taken { (job : Job) → result ≡ Next.Taken job → IsStarted self.old job self.new }
        ensures not_yet { result ≡ Next.NotYet → (self.new ≡ self.old) × IsNotYet self.old }
        ensures done { result ≡ Next.Done → (self.new ≡ self.old) × IsDone self.old }
        ensures recovered { IsRecovered self.new.ends self.new.rlv self.new.items }
        // The job is in flight, and no other one that was is the same.
        ensures flying { (job : Job) → result ≡ Next.Taken job → IsFlying self.new job }
        ensures fresh { (job other : Job) → result ≡ Next.Taken job → IsFlying self.old other → other.place ≢ job.place }
        ensures kept { (other : Job) → IsFlying self.old other → IsFlying self.new other }
    {
        if self.all_started() {
            return Next::Done;
        }
        match self.next_ready() {
            Some(place) => Next::Taken(self.start(place)),
            None => self.none_ready(),
        }
    }

    /// Starts the record at this place, if it is ready.
    pub fn take_at(&mut self, place: usize) -> Option<Job>
        ensures taken { IfSome result (λ job. IsStarted self.old job self.new) }
        ensures place { IfSome result (λ job. job.place ≡ place) }
        ensures none { IsNone result → self.new ≡ self.old }
        ensures unready { IsNone result → is_ready self.old.items self.old.rlv place ≡ false }
        ensures recovered { IsRecovered self.new.ends self.new.rlv self.new.items }
    {
        if !self.is_ready(place) {
            return None;
        }
        Some(self.start(place))
    }

    /// The record at this place, if it is ready. It stays so until it is started.
    pub fn ready_at(&self, place: usize) -> Option<Job>
        ensures some { IfSome result (λ job. (job.place ≡ place) × (is_ready self.now.items self.now.rlv place ≡ true)) }
        ensures none { IsNone result → is_ready self.now.items self.now.rlv place ≡ false }
    {
        if !self.is_ready(place) {
            return None;
        }
        Some(self.items.job(place))
    }

    /// Whether the record at this place is not started, and covered.
    fn is_ready(&self, place: usize) -> bool
        ensures same { result ≡ is_ready self.now.items self.now.rlv place }
        ensures recovered { IsRecovered self.now.ends self.now.rlv self.now.items }
    {
        self.items.is_ready(place, &self.rlv)
    }

    /// The place of the first record of a stream that is left, or of one after the stream.
    pub fn first_of(&self, stream: usize) -> Option<usize>
        ensures some { IfSome result (λ place. place ≡ first_from stream 0 self.now.items) }
        ensures none { IsNone result → length self.now.ends ≤ stream }
    {
        if stream >= self.ends.width() {
            return None;
        }
        Some(self.nexts[stream])
    }

    /// Whether each record is started.
    fn all_started(&self) -> bool
        ensures done { result ≡ true → IsDone self.now }
        ensures recovered { IsRecovered self.now.ends self.now.rlv self.now.items }
    {
        self.waiting == 0
    }

    /// What is answered where no record is ready.
    fn none_ready(&self) -> Next
        requires { NoneReady self.now }
        ensures taken { (job : Job) → result ≡ Next.Taken job → ⊥ }
        ensures not_yet { result ≡ Next.NotYet → IsNotYet self.now }
        ensures done { result ≡ Next.Done → IsDone self.now }
    {
        if self.waiting == 0 {
            return Next::Done;
        }
        Next::NotYet
    }

    /// The place of a ready record: of the next one, if it is ready.
    fn next_ready(&mut self) -> Option<usize>
        ensures same { self.new ≡ self.old }
        ensures found { IfSome result (λ i. is_ready self.old.items self.old.rlv i ≡ true) }
        ensures none { IsNone result → NoneReady self.old }
        ensures recovered { IsRecovered self.new.ends self.new.rlv self.new.items }
    {
        if self.is_ready(self.after) {
            return Some(self.after);
        }
        self.list();
        self.next_listed()
    }

    /// Lists what waits for each stream, where that is not listed yet. Out of memory it is not.
    fn list(&mut self)
        ensures { self.new ≡ self.old }
    {
        if self.listed {
            return;
        }
        let Ok(waits) = waits_of(self.alloc, &self.items, &self.rlv) else {
            return;
        };
        let Ok(passed) = zeros(self.alloc, self.rlv.width()) else {
            return;
        };
        self.waits = waits;
        self.passed = passed;
        self.listed = true;
    }

    /// The place of a ready record, by the lists or else by looking at each record.
    fn next_listed(&mut self) -> Option<usize>
        ensures same { self.new ≡ self.old }
        ensures found { IfSome result (λ i. is_ready self.old.items self.old.rlv i ≡ true) }
        ensures none { IsNone result → NoneReady self.old }
        ensures recovered { IsRecovered self.new.ends self.new.rlv self.new.items }
    {
        if !self.listed {
            return first_ready(&self.items, &self.rlv);
        }
        next_ready(&self.items, &self.rlv, &self.waits, &mut self.passed)
    }

    /// Starts the ready record at this place.
    fn start(&mut self, place: usize) -> Job
        requires { is_ready self.old.items self.old.rlv place ≡ true }
        ensures started { IsStarted self.old result self.new }
        ensures place { result.place ≡ place }
        ensures recovered { IsRecovered self.new.ends self.new.rlv self.new.items }
    {
        let job = self.items.job(place);
        self.items.set_stage(place, Stage::Flying);
        self.waiting -= 1;
        self.flying += 1;
        self.after = place.wrapping_add(1);
        job
    }

    /// Finishes a record that is started and not finished.
    pub fn finish(&mut self, job: Job)
        requires { IsFlying self.old job }
        ensures finished { IsFinished self.old job self.new }
        ensures kept { (other : Job) → IsFlying self.old other → other.place ≢ job.place → IsFlying self.new other }
        ensures recovered { IsRecovered self.new.ends self.new.rlv self.new.items }
    {
        self.items.set_stage(job.place, Stage::Finished);
        self.flying -= 1;
        let j = usize::from(job.stream);
        let next = self.items.first_left(job.stream, self.nexts[j]);
        self.nexts[j] = next;
        let reach = self.items.reach_of(job.stream, next, self.ends.get(j));
        self.rlv.set(j, reach);
    }

    /// The recovered vector.
    pub fn rlv(&self) -> Lv
        ensures same { result ≡ self.now.rlv }
        ensures recovered { IsRecovered self.now.ends result self.now.items }
    {
        self.rlv
    }

    /// How many records are started and not finished.
    pub fn in_flight(&self) -> usize
        ensures { result ≡ flying_in self.now.items }
    {
        self.flying
    }

    /// The first record, by stream and place, that is not finished.
    pub fn first_left(&self) -> Option<Job>
        ensures some { IfSome result (λ job. IsFirstLeft self.now.items job) }
        ensures none { IsNone result → (i : ℕ) (x : Item) → slice_get self.now.items i ≡ Some x → is_left x.stage ≡ true → ⊥ }
    {
        for place in 0..self.items.len() {
            if self.items.is_left(place) {
                return Some(self.items.job(place));
            }
        }
        None
    }
}

/// So many zeros.
fn zeros(alloc: Global, n: usize) -> Result<Vec<usize>, NoMemory>
    ensures { IfOk result (λ v. v.items ≡ replicate n 0) }
{
    Ok(vec![in alloc; 0usize; n]?)
}

/// The place of the first record that is of a higher stream than `j`, or of it and left, where nothing of stream `j` is
/// left before a place.
fn first_after(items: &Items, j: u8, from: usize) -> usize
    requires from { from ≤ length items.now }
    requires passed { (k : ℕ) (x : Item) → k < from → slice_get items.now k ≡ Some x → is_passed j x ≡ true }
    ensures same { result ≡ first_from j 0 items.now }
    ensures within { result ≤ length items.now }
    ensures passed { (k : ℕ) (x : Item) → k < result → slice_get items.now k ≡ Some x → is_passed (j + 1) x ≡ true }
{
    items.first_left(j, from)
}

/// For each stream how far it is recovered, and the place of its first record that is left.
fn reached_of(alloc: Global, ends: &Lv, items: &Items) -> Result<(Lv, Vec<usize>), NoMemory>
    requires narrow { length ends.now ≤ MAX_STREAMS }
    requires within { AreWithin ends.now items.now }
    ensures reached { IfOk result (λ r. IsReached ends.now r.0 items.now r.1.items) }
    ensures wide { IfOk result (λ r. (length r.0 ≡ length ends.now) × (length r.1.items ≡ length ends.now)) }
{
    let mut rlv = *ends;
    let mut nexts = Vec::new(alloc);
    let mut next = 0usize;
    for j in 0..ends.width() {
        next = first_after(items, j as u8, next);
        let reach = items.reach_of(j as u8, next, ends.get(j));
        nexts.push(next)?;
        rlv.set(j, reach);
    }
    Ok((rlv, nexts))
}

//! Which open records are ready, found without passing over those that wait.
ghost use Rattle.std.specs.Prelude.{◌≡◌, ◌≢◌, ◌≤◌, ◌<◌, ◌++◌, ◌∷◌, [], true, false, ℕ, List, Some, length, slice_get, slice_set, slice_index, IfOk, IfSome, IsNone, OnOk, OnErr};
ghost use Rattle.std.specs.List.{Contains};
ghost use Rattle.tau_base.specs.Vectors.{covers};
ghost use Rattle.tau_record.specs.declared.entry.Placed.{Placed as OnePlaced};
ghost use Rattle.tau_follow.specs.declared.stage.Stage.{Stage as OneStage};
ghost use Rattle.tau_follow.specs.declared.spot.Spot.{Spot as OneSpot};
ghost use Rattle.tau_follow.specs.Applying.{is_open_stage, is_ready_in};
ghost use Rattle.tau_follow.specs.Queue.{Wait, spot_at, AreAbove};
ghost use Rattle.tau_follow.specs.Waits.{AreAllAbove, AreFound, AreKept, IsMore, Moves, Queues};

use crate::queue::Queue;
use crate::spot::{Spot, entry_at};
use crate::stage::{Stages, dep_of, position};
use std::alloc::Global;
use tau_base::{Listed, NoMemory};
use tau_record::Placed;

/// The open records: those to look at, and those that wait for a stream to be followed further.
#[derive(Drop)]
pub struct Waits {
    pub looked: Vec<Spot>,
    pub queues: Vec<Queue>,
    /// Whether open records may be missing there.
    pub lost: bool,
}

/// The first stream in which a vector is above these positions.
fn first_above(positions: &[u64], dep: &[u64]) -> Option<usize>
    ensures some { IfSome result (λ k. slice_index positions.now k < slice_index dep.now k) }
    ensures none { IsNone result → covers positions.now dep.now ≡ true }
{
    for k in 0..dep.len() {
        let at = dep[k];
        if at > position(positions, k) {
            return Some(k);
        }
    }
    None
}

/// Whether the record at a spot is open.
fn is_open_at(stages: &[Stages], spot: Spot) -> bool
    ensures yes { result ≡ true → (ss : List OneStage) × (s : OneStage) × (slice_get stages.now spot.stream ≡ Some ss) × (slice_get ss spot.index ≡ Some s) × (is_open_stage s ≡ true) }
    ensures no { result ≡ false → (ss : List OneStage) (s : OneStage) → slice_get stages.now spot.stream ≡ Some ss → slice_get ss spot.index ≡ Some s → is_open_stage s ≡ false }
{
    match stages.get(spot.stream) {
        None => false,
        Some(of_stream) => match of_stream.as_slice().get(spot.index) {
            None => false,
            Some(stage) => stage.is_open(),
        },
    }
}

/// Has a record wait for a position of a stream.
fn queue_at(queues: &mut Vec<Queue>, k: usize, at: u64, spot: Spot) -> Result<(), NoMemory>
    ensures queued { OnOk result (Queues queues.old.items k at spot queues.new.items) }
    ensures above { (reached : List ℕ) → AreAllAbove reached queues.old.items → slice_index reached k < at → OnOk result (AreAllAbove reached queues.new.items) }
{
    if k >= queues.len() {
        return Err(NoMemory);
    }
    match queues[k].push(at, spot) {
        Ok(()) => Ok(()),
        Err(e) => Err(e),
    }
}

/// Looks at a record: whether it is ready. If it is open and not ready, it waits then.
fn look_at(
    queues: &mut Vec<Queue>,
    streams: &[Listed<Placed>],
    stages: &[Stages],
    reached: &[u64],
    spot: Spot,
) -> Result<bool, NoMemory>
    ensures ready { IfOk result (λ ready. ready ≡ true → is_ready_in reached.now streams.now stages.now spot.stream spot.index ≡ true) }
    ensures found { (looked : List OneSpot) → AreFound streams.now stages.now (looked ++ spot ∷ []) queues.old.items → IfOk result (λ ready. ready ≡ false → AreFound streams.now stages.now looked queues.new.items) }
    ensures above { AreAllAbove reached.now queues.old.items → IfOk result (λ _. AreAllAbove reached.now queues.new.items) }
    ensures same { IfOk result (λ ready. ready ≡ true → queues.new.items ≡ queues.old.items) }
{
    if !is_open_at(stages, spot) {
        return Ok(false);
    }
    let Some(entry) = entry_at(streams, spot) else {
        return Err(NoMemory);
    };
    let dep = dep_of(entry);
    let Some(k) = first_above(reached, dep) else {
        return Ok(true);
    };
    match queue_at(queues, k, position(dep, k), spot) {
        Ok(()) => Ok(false),
        Err(e) => Err(e),
    }
}

/// Has those that wait for no more than this position be looked at.
#[inline(always)]
fn drain(looked: &mut Vec<Spot>, queue: &mut Queue, reached: u64) -> Result<(), NoMemory>
    ensures moves { OnOk result (Moves looked.old.items queue.old looked.new.items queue.new) }
    ensures above { OnOk result (AreAbove reached queue.new) }
{
    'moves: loop {
        match queue.pop_to(reached) {
            None => return Ok(()),
            Some(spot) => match looked.push(spot) {
                Ok(()) => {}
                Err(_) => return Err(NoMemory),
            },
        }
    }
}

/// The same of all streams, once they are followed so far.
fn drain_all(
    looked: &mut Vec<Spot>,
    queues: &mut Vec<Queue>,
    reached: &[u64],
) -> Result<(), NoMemory>
    ensures found { (streams : List (List OnePlaced)) (stages : List (List OneStage)) → AreFound streams stages looked.old.items queues.old.items → OnOk result (AreFound streams stages looked.new.items queues.new.items) }
    ensures above { OnOk result (AreAllAbove reached.now queues.new.items) }
{
    for k in 0..queues.len() {
        match drain(looked, &mut queues[k], position(reached, k)) {
            Ok(()) => {}
            Err(e) => return Err(e),
        }
    }
    Ok(())
}

/// Has the records of a stream from one index to another be looked at.
fn look_from(looked: &mut Vec<Spot>, stream: usize, from: usize, to: usize) -> Result<(), NoMemory>
    ensures kept { (x : OneSpot) → Contains looked.old.items x → Contains looked.new.items x }
    ensures added { OnOk result ((i : ℕ) → from ≤ i → i < to → Contains looked.new.items (spot_at stream i)) }
{
    for index in from..to {
        match looked.push(Spot { stream, index }) {
            Ok(()) => {}
            Err(_) => return Err(NoMemory),
        }
    }
    Ok(())
}

/// Has all records be looked at.
fn look_at_all(alloc: Global, stages: &[Stages]) -> Result<Vec<Spot>, NoMemory>
    ensures { (streams : List (List OnePlaced)) (queues : List (List Wait)) → IfOk result (λ looked. AreFound streams stages.now looked.items queues) }
{
    let mut looked = Vec::new(alloc);
    for j in 0..stages.len() {
        match look_from(&mut looked, j, 0, stages[j].len()) {
            Ok(()) => {}
            Err(e) => return Err(e),
        }
    }
    Ok(looked)
}

/// Queues for so many streams, in which none waits.
fn no_queues(alloc: Global, n: usize) -> Result<Vec<Queue>, NoMemory> {
    let mut queues = Vec::new(alloc);
    for _ in 0..n {
        queues.push(Queue::new(alloc))?;
    }
    Ok(queues)
}

impl Waits {
    /// Nothing is known of what waits.
    pub fn new(alloc: Global) -> Waits
        ensures { result.lost ≡ true }
    {
        Waits {
            looked: Vec::new(alloc),
            queues: Vec::new(alloc),
            lost: true,
        }
    }

    /// Forgets what waits: all open records are looked at anew then.
    pub fn lose(&mut self)
        ensures { self.new.lost ≡ true }
    {
        self.lost = true;
    }

    /// Has the records of a stream from one index to another be looked at.
    pub fn look_on(&mut self, stream: usize, from: usize, to: usize) -> Result<(), NoMemory>
        ensures more { IsMore self.old self.new }
        ensures added { OnOk result ((i : ℕ) → from ≤ i → i < to → Contains self.new.looked.items (spot_at stream i)) }
    {
        match look_from(&mut self.looked, stream, from, to) {
            Ok(()) => Ok(()),
            Err(e) => Err(e),
        }
    }

    /// Knows all open records.
    fn begin(&mut self, alloc: Global, stages: &[Stages]) -> Result<(), NoMemory>
        ensures { (streams : List (List OnePlaced)) → AreKept streams stages.now self.old → OnOk result (AreFound streams stages.now self.new.looked.items self.new.queues.items) }
    {
        if !self.lost {
            return Ok(());
        }
        let Ok(queues) = no_queues(alloc, stages.len()) else {
            return Err(NoMemory);
        };
        let Ok(looked) = look_at_all(alloc, stages) else {
            return Err(NoMemory);
        };
        self.looked = looked;
        self.queues = queues;
        self.lost = false;
        Ok(())
    }

    /// Looks at records until one is ready, where the streams are followed so far. It is not among those that wait then.
    pub fn find(
        &mut self,
        streams: &[Listed<Placed>],
        stages: &[Stages],
        reached: &[u64],
    ) -> Result<Option<Spot>, NoMemory>
        ensures ready { IfOk result (λ found. IfSome found (λ spot. is_ready_in reached.now streams.now stages.now spot.stream spot.index ≡ true)) }
        ensures found { AreFound streams.now stages.now self.old.looked.items self.old.queues.items → IfOk result (λ found. IfSome found (λ spot. AreFound streams.now stages.now (self.new.looked.items ++ spot ∷ []) self.new.queues.items)) }
        ensures none { AreFound streams.now stages.now self.old.looked.items self.old.queues.items → AreAllAbove reached.now self.old.queues.items → IfOk result (λ found. IsNone found → AreFound streams.now stages.now [] self.new.queues.items × AreAllAbove reached.now self.new.queues.items) }
        ensures above { AreAllAbove reached.now self.old.queues.items → IfOk result (λ _. AreAllAbove reached.now self.new.queues.items) }
    {
        'looks: loop {
            match self.looked.pop() {
                None => return Ok(None),
                Some(spot) => {
                    match look_at(&mut self.queues, streams, stages, reached, spot) {
                        Ok(ready) => {
                            if ready {
                                return Ok(Some(spot));
                            }
                        }
                        Err(e) => return Err(e),
                    }
                }
            }
        }
    }

    /// Knows all open records, and has those be looked at that wait for no more than how far the streams are followed.
    fn know_all(
        &mut self,
        alloc: Global,
        stages: &[Stages],
        reached: &[u64],
    ) -> Result<(), NoMemory>
        ensures found { (streams : List (List OnePlaced)) → AreKept streams stages.now self.old → OnOk result (AreFound streams stages.now self.new.looked.items self.new.queues.items) }
        ensures above { OnOk result (AreAllAbove reached.now self.new.queues.items) }
    {
        match self.begin(alloc, stages) {
            Ok(()) => {}
            Err(e) => return Err(e),
        }
        match drain_all(&mut self.looked, &mut self.queues, reached) {
            Ok(()) => Ok(()),
            Err(e) => Err(e),
        }
    }

    /// The same. Out of memory all open records are looked at anew the next time.
    pub fn know(
        &mut self,
        alloc: Global,
        stages: &[Stages],
        reached: &[u64],
    ) -> Result<(), NoMemory>
        ensures found { (streams : List (List OnePlaced)) → AreKept streams stages.now self.old → OnOk result (AreFound streams stages.now self.new.looked.items self.new.queues.items) }
        ensures above { OnOk result (AreAllAbove reached.now self.new.queues.items) }
        ensures err { OnErr result (self.new.lost ≡ true) }
    {
        match self.know_all(alloc, stages, reached) {
            Ok(()) => Ok(()),
            Err(e) => {
                self.lost = true;
                Err(e)
            }
        }
    }

    /// Has those be looked at that wait for a stream to be followed no further than this.
    pub fn pass(&mut self, k: usize, reached: u64) -> Result<(), NoMemory>
        ensures found { (streams : List (List OnePlaced)) (stages : List (List OneStage)) → AreFound streams stages self.old.looked.items self.old.queues.items → OnOk result (AreFound streams stages self.new.looked.items self.new.queues.items) }
        ensures above { (before now : List ℕ) → AreAllAbove before self.old.queues.items → slice_index now k ≡ reached → ((l : ℕ) → l ≢ k → slice_index now l ≡ slice_index before l) → OnOk result (AreAllAbove now self.new.queues.items) }
        ensures lost { self.new.lost ≡ self.old.lost }
    {
        if k >= self.queues.len() {
            return Err(NoMemory);
        }
        match drain(&mut self.looked, &mut self.queues[k], reached) {
            Ok(()) => Ok(()),
            Err(e) => Err(e),
        }
    }
}

//! What is applied of the streams that are read.
ghost use Rattle.std.specs.Prelude.{◌≡◌, ◌≤◌, ◌<◌, ◌++◌, ◌∷◌, ◌-◌, [], true, false, min, ℕ, List, Some, None, length, take, slice_get, slice_set, slice_index, IfOk, IfSome, IsNone, OnOk, OnErr};
ghost use Rattle.tau_record.specs.declared.entry.Placed.{Placed as OnePlaced};
ghost use Rattle.tau_follow_laws.specs.Following.{Followed};
ghost use Rattle.tau_follow.specs.declared.stage.Stage.{Stage as OneStage};
ghost use Rattle.tau_follow.specs.declared.stage.Stage.TheVariants.{Applied, Open};
ghost use Rattle.tau_follow.specs.declared.spot.Spot.{Spot as OneSpot};
ghost use Rattle.tau_follow.specs.Applying.{set_stage, open_all, reaches, stages_from, ArePassed, IsWithin, AreZero};
ghost use Rattle.tau_follow.specs.Holding.{HasApplied, HasFollowed, HasReadOn, IsKnown, IsReadyAt, IsTold, WasFollowedTo, WasTold};
ghost use Rattle.tau_follow.specs.Waits.{AreAllAbove, AreFound, AreKept};
ghost use Rattle.tau_follow.specs.Judging.{with_judged};
ghost use Rattle.tau_follow.specs.Reading.{BeginsWith};

use crate::judge::extend_judged;
use crate::reach::{reaches, renew_reach};
use crate::spot::Spot;
use crate::stage::{Stage, Stages};
use crate::waits::Waits;
use std::alloc::Global;
use std::mem;
use tau_base::{Listed, NoMemory};
use tau_epoch::Epochs;
use tau_record::Placed;

/// Where the records of all streams stand, and which are applied.
#[derive(Drop)]
pub struct Applier {
    /// Where the records of each stream stand.
    pub stages: Vec<Stages>,
    /// No record of a stream before this index is open.
    pub firsts: Vec<usize>,
    /// The applied records in their order.
    pub order: Vec<Spot>,
    /// What the open records wait for.
    pub waits: Waits,
    /// How far each stream was followed when nothing was ready any more.
    pub reached: Vec<u64>,
    /// Whether that is known, but for a stream that was read on since.
    pub known: bool,
}

/// Has the record at a spot stand so.
fn set_at(stages: &mut Vec<Stages>, spot: Spot, stage: Stage) -> Result<(), NoMemory>
    ensures ok { OnOk result (stages.new.items ≡ set_stage stages.old.items spot.stream spot.index stage) }
    ensures err { OnErr result (stages.new.items ≡ stages.old.items) }
    ensures within { IsWithin stages.old.items spot → stages.new.items ≡ set_stage stages.old.items spot.stream spot.index stage }
{
    if spot.stream >= stages.len() {
        return Err(NoMemory);
    }
    let of_stream = &mut stages[spot.stream];
    if spot.index >= of_stream.len() {
        return Err(NoMemory);
    }
    of_stream.set(spot.index, stage);
    Ok(())
}

/// Has the records of a stream stand that are more than those that stand somewhere. Out of memory nothing changes.
fn stand_on(
    known: &Epochs,
    number: u32,
    records: &[Placed],
    stages: &mut Stages,
) -> Result<(), NoMemory>
    ensures ok { OnOk result (stages.new ≡ with_judged known.now number records.now stages.old) }
    ensures long { OnOk result (length stages.old ≤ length records.now) }
    ensures err { OnErr result (stages.new ≡ stages.old) }
{
    let many = stages.len();
    if many > records.len() {
        return Err(NoMemory);
    }
    match extend_judged(known, number, records, stages) {
        Ok(()) => Ok(()),
        Err(e) => {
            stages.truncate(many);
            Err(e)
        }
    }
}

/// Drops where the records of a stream stand from this index on.
fn drop_from(stages: &mut Vec<Stages>, stream: usize, many: usize)
    ensures { (ss : List OneStage) → slice_get stages.old.items stream ≡ Some ss → stages.new.items ≡ slice_set stages.old.items stream (take many ss) }
{
    if stream >= stages.len() {
        return;
    }
    stages[stream].truncate(many);
}

/// Has no index of a stream be above this one.
fn lower(firsts: &mut Vec<usize>, stream: usize, many: usize) -> Result<(), NoMemory>
    ensures ok { OnOk result (firsts.new.items ≡ slice_set firsts.old.items stream (min (slice_index firsts.old.items stream) many)) }
    ensures err { OnErr result (firsts.new.items ≡ firsts.old.items) }
{
    if stream >= firsts.len() {
        return Err(NoMemory);
    }
    firsts[stream] = firsts[stream].min(many);
    Ok(())
}

impl Applier {
    /// How many records of a stream stand somewhere.
    pub fn stand_count(&self, stream: usize) -> usize
        ensures { (ss : List OneStage) → slice_get self.now.stages.items stream ≡ Some ss → result ≡ length ss }
    {
        match self.stages.get(stream) {
            Some(stages) => stages.len(),
            None => 0,
        }
    }

    /// Has the new records of a stream stand, of which these epochs leave some out. Out of memory the records stand as before.
    pub fn read_on(
        &mut self,
        known: &Epochs,
        number: u32,
        records: &[Placed],
        stream: usize,
    ) -> Result<(), NoMemory>
        ensures ok { OnOk result (HasReadOn known.now number records.now stream self.old self.new) }
        ensures stages { OnErr result (self.new.stages.items ≡ self.old.stages.items) }
        ensures passed { OnErr result (ArePassed self.old.stages.items self.old.firsts.items → ArePassed self.old.stages.items self.new.firsts.items) }
        ensures order { self.new.order ≡ self.old.order }
        ensures unknown { OnErr result (self.new.known ≡ false) }
        ensures kept { (streams : List (List OnePlaced)) → AreKept streams self.old.stages.items self.old.waits → OnErr result (AreKept streams self.old.stages.items self.new.waits) }
    {
        let was_known = self.known;
        self.known = false;
        let many = self.stand_count(stream);
        // The new records come after those that are passed.
        match lower(&mut self.firsts, stream, many) {
            Ok(()) => {}
            Err(e) => return Err(e),
        }
        if stream >= self.stages.len() {
            return Err(NoMemory);
        }
        match self.waits.look_on(stream, many, records.len()) {
            Ok(()) => {}
            Err(e) => return Err(e),
        }
        match stand_on(known, number, records, &mut self.stages[stream]) {
            Ok(()) => {
                self.known = was_known;
                Ok(())
            }
            Err(e) => Err(e),
        }
    }

    /// Applies the record at a spot. Out of memory nothing changes.
    fn apply(&mut self, spot: Spot) -> Result<(), NoMemory>
        ensures stages { OnOk result (self.new.stages.items ≡ set_stage self.old.stages.items spot.stream spot.index Applied) }
        ensures order { OnOk result (self.new.order.items ≡ self.old.order.items ++ spot ∷ []) }
        ensures firsts { self.new.firsts ≡ self.old.firsts }
        ensures waits { self.new.waits ≡ self.old.waits }
        ensures err_stages { OnErr result (self.new.stages.items ≡ self.old.stages.items) }
        ensures err_order { OnErr result (self.new.order.items ≡ self.old.order.items) }
    {
        match self.order.push(spot) {
            Ok(()) => {}
            Err(_) => return Err(NoMemory),
        }
        match set_at(&mut self.stages, spot, Stage::Applied) {
            Ok(()) => Ok(()),
            Err(e) => {
                self.order.pop();
                Err(e)
            }
        }
    }

    /// Knows how far a stream is followed, once one of its records is applied, and what is to be looked at then.
    fn pass(
        &mut self,
        streams: &[Listed<Placed>],
        reached: &mut Vec<u64>,
        j: usize,
    ) -> Result<(), NoMemory>
        ensures applied { (s : Followed) → HasApplied streams.now s self.old → HasApplied streams.now s self.new }
        ensures known { (s : Followed) (before : List (List OneStage)) (ss : List OneStage) → HasApplied streams.now s self.old → self.old.stages.items ≡ slice_set before j ss → reached.old.items ≡ reaches streams.now before →
            AreFound streams.now self.old.stages.items self.old.waits.looked.items self.old.waits.queues.items → AreAllAbove reached.old.items self.old.waits.queues.items → OnOk result (IsKnown streams.now self.new reached.new.items) }
        // Other records of the stream were read, too.
        ensures known_on { (s : Followed) (old : List (List OnePlaced)) (before : List (List OneStage)) (ps : List OnePlaced) (ss : List OneStage) → HasApplied streams.now s self.old → streams.now ≡ slice_set old j ps → self.old.stages.items ≡ slice_set before j ss → reached.old.items ≡ reaches old before →
            AreFound streams.now self.old.stages.items self.old.waits.looked.items self.old.waits.queues.items → AreAllAbove reached.old.items self.old.waits.queues.items → OnOk result (IsKnown streams.now self.new reached.new.items) }
        ensures stages { self.new.stages ≡ self.old.stages }
        ensures order { self.new.order ≡ self.old.order }
    {
        let Ok(at) = renew_reach(
            streams,
            self.stages.as_slice(),
            &mut self.firsts,
            reached,
            j,
        ) else {
            return Err(NoMemory);
        };
        match self.waits.pass(j, at) {
            Ok(()) => Ok(()),
            Err(e) => {
                self.waits.lose();
                Err(e)
            }
        }
    }

    /// Applies the record at a spot, which is ready and does not wait, and knows then how far its stream is followed.
    fn apply_on(
        &mut self,
        streams: &[Listed<Placed>],
        reached: &mut Vec<u64>,
        spot: Spot,
    ) -> Result<(), NoMemory>
        ensures applied { (s : Followed) → IsReadyAt streams.now s self.old reached.old.items spot → HasApplied streams.now s self.new }
        ensures known { (s : Followed) → IsReadyAt streams.now s self.old reached.old.items spot → OnOk result (IsKnown streams.now self.new reached.new.items) }
        ensures stages { OnOk result (self.new.stages.items ≡ set_stage self.old.stages.items spot.stream spot.index Applied) }
        ensures order { BeginsWith self.old.order.items self.new.order.items }
    {
        match self.apply(spot) {
            Ok(()) => {}
            Err(e) => {
                self.waits.lose();
                return Err(e);
            }
        }
        match self.pass(streams, reached, spot.stream) {
            Ok(()) => Ok(()),
            Err(e) => Err(e),
        }
    }

    /// Applies a record that is ready, if there is one, and returns where it stands.
    fn step(
        &mut self,
        streams: &[Listed<Placed>],
        reached: &mut Vec<u64>,
    ) -> Result<Option<Spot>, NoMemory>
        ensures applied { (s : Followed) → HasApplied streams.now s self.old → IsKnown streams.now self.old reached.old.items → HasApplied streams.now s self.new }
        ensures known { (s : Followed) → HasApplied streams.now s self.old → IsKnown streams.now self.old reached.old.items → IfOk result (λ found. IfSome found (λ _. IsKnown streams.now self.new reached.new.items)) }
        ensures through { (s : Followed) → HasApplied streams.now s self.old → IsKnown streams.now self.old reached.old.items → IfOk result (λ found. IsNone found → HasFollowed streams.now s self.new) }
        ensures still { (s : Followed) → HasApplied streams.now s self.old → IsKnown streams.now self.old reached.old.items → IfOk result (λ found. IsNone found → (reached.new.items ≡ reaches streams.now self.new.stages.items) × AreAllAbove reached.new.items self.new.waits.queues.items) }
        ensures fewer { IfOk result (λ found. IfSome found (λ _. open_all self.new.stages.items < open_all self.old.stages.items)) }
        ensures order { BeginsWith self.old.order.items self.new.order.items }
    {
        match self
            .waits
            .find(streams, self.stages.as_slice(), reached.as_slice())
        {
            Err(e) => {
                self.waits.lose();
                Err(e)
            }
            Ok(None) => Ok(None),
            Ok(Some(spot)) => match self.apply_on(streams, reached, spot) {
                Ok(()) => Ok(Some(spot)),
                Err(e) => Err(e),
            },
        }
    }

    /// Applies what is ready, one record after another, until nothing is.
    fn follow_known(
        &mut self,
        streams: &[Listed<Placed>],
        reached: &mut Vec<u64>,
    ) -> Result<(), NoMemory>
        ensures ok { (s : Followed) → HasApplied streams.now s self.old → IsKnown streams.now self.old reached.old.items → OnOk result (HasFollowed streams.now s self.new) }
        ensures applied { (s : Followed) → HasApplied streams.now s self.old → IsKnown streams.now self.old reached.old.items → HasApplied streams.now s self.new }
        ensures known { (s : Followed) → HasApplied streams.now s self.old → IsKnown streams.now self.old reached.old.items → OnOk result ((reached.new.items ≡ reaches streams.now self.new.stages.items) × AreAllAbove reached.new.items self.new.waits.queues.items) }
        ensures order { BeginsWith self.old.order.items self.new.order.items }
    {
        'steps: loop {
            match self.step(streams, reached) {
                Ok(Some(_)) => {}
                Ok(None) => return Ok(()),
                Err(e) => return Err(e),
            }
        }
    }

    /// Looks how far the streams are followed, all of them, and what is to be looked at then.
    fn reach_all(&mut self, alloc: Global, streams: &[Listed<Placed>]) -> Result<Vec<u64>, NoMemory>
        ensures known { (s : Followed) → HasApplied streams.now s self.old → IfOk result (λ reached. HasApplied streams.now s self.new × IsKnown streams.now self.new reached.items) }
        ensures err { (s : Followed) → HasApplied streams.now s self.old → OnErr result (HasApplied streams.now s self.new) }
        ensures order { self.new.order ≡ self.old.order }
    {
        let Ok(reached) = reaches(alloc, streams, self.stages.as_slice(), &mut self.firsts) else {
            return Err(NoMemory);
        };
        match self
            .waits
            .know(alloc, self.stages.as_slice(), reached.as_slice())
        {
            Ok(()) => Ok(reached),
            Err(e) => Err(e),
        }
    }

    /// The same, if it is known of all streams but one.
    fn reach_one(
        &mut self,
        alloc: Global,
        streams: &[Listed<Placed>],
        stream: usize,
    ) -> Result<Vec<u64>, NoMemory>
        ensures known { (s : Followed) → HasApplied streams.now s self.old → WasFollowedTo stream streams.now self.old → self.old.waits.lost ≡ false → IfOk result (λ reached. HasApplied streams.now s self.new × IsKnown streams.now self.new reached.items) }
        ensures err { (s : Followed) → HasApplied streams.now s self.old → OnErr result (HasApplied streams.now s self.new) }
        ensures order { self.new.order ≡ self.old.order }
    {
        let mut reached = mem::replace(&mut self.reached, Vec::new(alloc));
        match self.pass(streams, &mut reached, stream) {
            Ok(()) => Ok(reached),
            Err(e) => Err(e),
        }
    }

    /// Whether it is known how far the streams were followed.
    fn is_known(&self) -> bool
        ensures { result ≡ true → (self.now.known ≡ true) × (self.now.waits.lost ≡ false) }
    {
        if self.waits.lost {
            return false;
        }
        self.known
    }

    /// Looks how far the streams are followed, if this one alone was read on, and what is to be looked at then.
    fn reach(
        &mut self,
        alloc: Global,
        streams: &[Listed<Placed>],
        stream: usize,
    ) -> Result<Vec<u64>, NoMemory>
        ensures known { (s : Followed) → HasApplied streams.now s self.old → WasTold stream streams.now self.old → IfOk result (λ reached. HasApplied streams.now s self.new × IsKnown streams.now self.new reached.items) }
        ensures err { (s : Followed) → HasApplied streams.now s self.old → OnErr result (HasApplied streams.now s self.new) }
        ensures order { self.new.order ≡ self.old.order }
    {
        if self.is_known() {
            return self.reach_one(alloc, streams, stream);
        }
        self.reach_all(alloc, streams)
    }

    /// Looks how far the streams are followed, if this one alone was read on, and applies what is ready until nothing is.
    pub fn follow(
        &mut self,
        alloc: Global,
        streams: &[Listed<Placed>],
        stream: usize,
    ) -> Result<(), NoMemory>
        ensures ok { (s : Followed) → HasApplied streams.now s self.old → WasTold stream streams.now self.old → OnOk result (HasFollowed streams.now s self.new) }
        ensures applied { (s : Followed) → HasApplied streams.now s self.old → WasTold stream streams.now self.old → HasApplied streams.now s self.new }
        ensures told { (s : Followed) → HasApplied streams.now s self.old → WasTold stream streams.now self.old → IsTold streams.now self.new }
        ensures order { BeginsWith self.old.order.items self.new.order.items }
    {
        let Ok(mut reached) = self.reach(alloc, streams, stream) else {
            self.known = false;
            return Err(NoMemory);
        };
        match self.follow_known(streams, &mut reached) {
            Ok(()) => {
                self.reached = reached;
                self.known = true;
                Ok(())
            }
            Err(e) => {
                self.known = false;
                Err(e)
            }
        }
    }

    /// Opens the last applied record again.
    fn reopen_last(&mut self)
        ensures order { self.new.order.items ≡ take (length self.old.order.items - 1) self.old.order.items }
        ensures stages { (spot : OneSpot) → self.old.order.items ≡ self.new.order.items ++ spot ∷ [] → IsWithin self.old.stages.items spot → self.new.stages.items ≡ set_stage self.old.stages.items spot.stream spot.index Open }
        ensures firsts { self.new.firsts ≡ self.old.firsts }
        ensures waits { self.new.waits ≡ self.old.waits }
    {
        match self.order.pop() {
            None => {}
            Some(spot) => {
                let _ = set_at(&mut self.stages, spot, Stage::Open);
            }
        }
    }

    /// Opens again the records that are applied after so many.
    fn reopen(&mut self, count: usize)
        ensures opened { (streams : List (List OnePlaced)) (s : Followed) → AreZero self.old.firsts.items → self.old.waits.lost ≡ true → HasApplied streams s self.old → count ≡ length s.order → self.new.stages.items ≡ stages_from s.out s.order 0 s.streams }
        ensures order { (spots : List OneSpot) → BeginsWith spots self.old.order.items → count ≡ length spots → self.new.order.items ≡ spots }
        ensures firsts { self.new.firsts ≡ self.old.firsts }
        ensures waits { self.new.waits ≡ self.old.waits }
    {
        'records: loop {
            if self.order.len() <= count {
                return;
            }
            self.reopen_last();
        }
    }

    /// Has all stand as before a stream was read on, when so many of its records stood, and so many of all were applied.
    pub fn undo(&mut self, stream: usize, many: usize, count: usize)
        ensures stages { (streams : List (List OnePlaced)) (s : Followed) (ss : List OneStage) → HasApplied streams s self.old → count ≡ length s.order → slice_get (stages_from s.out s.order 0 s.streams) stream ≡ Some ss →
            self.new.stages.items ≡ slice_set (stages_from s.out s.order 0 s.streams) stream (take many ss) }
        ensures order { (spots : List OneSpot) → BeginsWith spots self.old.order.items → count ≡ length spots → self.new.order.items ≡ spots }
        ensures firsts { AreZero self.new.firsts.items }
        ensures lost { self.new.waits.lost ≡ true }
    {
        self.firsts.fill(0);
        self.waits.lose();
        self.reopen(count);
        drop_from(&mut self.stages, stream, many);
    }
}

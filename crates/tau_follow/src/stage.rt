//! Where a record stands.
ghost use Rattle.std.specs.Prelude.{◌≡◌, ◌≤◌, ◌<◌, ◌+◌, ◌++◌, ◌∷◌, [], ℕ, List, Some, None, true, false, length, take, slice_get, slice_set, slice_index_or, IfOk, IfSome, IsNone, OnOk, OnErr};
ghost use Rattle.std.specs.Option.{option_copied};
ghost use Rattle.tau_base.specs.Vectors.{covers};
ghost use Rattle.tau_record.specs.Record.{epoch_after};
ghost use Rattle.tau_follow.specs.Applying.{is_open_stage, is_ready_one, is_ready_at, dep_of, first_stage, extended, extended_from, stages_from};
ghost use Rattle.std.specs.Prelude.{Ok};
ghost use Rattle.tau_base.specs.declared.format.Format.{Format};
ghost use Rattle.tau_model.specs.History.{Member};
ghost use Rattle.tau_record.specs.declared.entry.Placed.{Placed as OnePlaced};
ghost use Rattle.tau_scan.specs.Taken.{Kept, kept_from};
ghost use Rattle.tau_epoch_laws.specs.Continues.{Grown};
ghost use Rattle.tau_follow_laws.specs.Fed.{fronts_of};

use std::alloc::Global;
use std::marker::Model;
use tau_base::{Listed, NoMemory};
use tau_record::{Entry, Placed};

/// Where a record stands for a follower.
#[derive(Clone, Copy, Debug, PartialEq, Eq)]
pub enum Stage {
    /// It is neither applied nor left out.
    Open,
    /// An epoch has left it out.
    Out,
    /// It is applied.
    Applied,
    /// It is no record of a call.
    Other,
}

impl Stage {
    pub fn is_open(self) -> bool
        ensures { result ≡ is_open_stage self }
    {
        match self {
            Stage::Open => true,
            Stage::Out => false,
            Stage::Applied => false,
            Stage::Other => false,
        }
    }
}

/// Where the records of a stream stand. Contracts see it as the list.
#[derive(Drop)]
pub struct Stages {
    list: Vec<Stage>,
}

impl Model for Stages {
    ghost use Rattle.std.specs.Prelude.{List};
    ghost use Rattle.tau_follow.specs.declared.stage.Stage.{Stage as One};

    ghost Value = { List One };

    ghost view = { λ s. s.list.items };
}

impl Stages {
    pub fn new(alloc: Global) -> Stages
        ensures { result ≡ [] }
    {
        Stages {
            list: Vec::new(alloc),
        }
    }

    /// The same list once more.
    pub fn copied(&self, alloc: Global) -> Result<Stages, NoMemory>
        ensures { IfOk result (λ stages. stages ≡ self.now) }
    {
        Ok(Stages {
            list: Vec::from_slice(alloc, self.list.as_slice())?,
        })
    }

    pub fn len(&self) -> usize
        ensures { result ≡ length self.now }
    {
        self.list.len()
    }

    pub fn push(&mut self, stage: Stage) -> Result<(), NoMemory>
        ensures ok { OnOk result (self.new ≡ self.old ++ stage ∷ []) }
        ensures err { OnErr result (self.new ≡ self.old) }
    {
        self.list.push(stage)?;
        Ok(())
    }

    pub fn set(&mut self, i: usize, stage: Stage)
        requires { i < length self.old }
        ensures { self.new ≡ slice_set self.old i stage }
    {
        self.list[i] = stage;
    }

    /// Drops those from this index on.
    pub fn truncate(&mut self, n: usize)
        ensures { self.new ≡ take n self.old }
    {
        self.list.truncate(n);
    }

    pub fn as_slice(&self) -> &[Stage]
        ensures { result.now ≡ self.now }
    {
        self.list.as_slice()
    }
}

/// The vector of the record of a call; no positions of any other.
pub fn dep_of(entry: &Entry) -> &[u64]
    ensures { result.now ≡ dep_of entry.now }
{
    match entry {
        Entry::Written { dep, .. } => dep.as_slice(),
        Entry::Command { dep, .. } => dep.as_slice(),
        Entry::Anchor { .. } => &[],
        Entry::Catalogue { .. } => &[],
        Entry::Epoch { .. } => &[],
    }
}

/// The position in stream `j`. Beyond its end a vector has zeros.
pub fn position(positions: &[u64], j: usize) -> u64
    ensures { result ≡ slice_index_or positions.now j 0 }
{
    match positions.get(j) {
        Some(position) => *position,
        None => 0,
    }
}

/// The first open record of a stream from an index on, or their number.
pub fn first_open(stages: &[Stage], from: usize) -> usize
    requires { from ≤ length stages.now }
    ensures low { from ≤ result }
    ensures high { result ≤ length stages.now }
    ensures passed { (i : ℕ) (s : Stage) → from ≤ i → i < result → slice_get stages.now i ≡ Some s → is_open_stage s ≡ false }
    ensures found { (s : Stage) → slice_get stages.now result ≡ Some s → is_open_stage s ≡ true }
{
    for i in from..stages.len() {
        if stages[i].is_open() {
            return i;
        }
    }
    stages.len()
}

/// Where a record stands that was just read.
pub fn first_stage(entry: &Entry) -> Stage
    ensures { result ≡ first_stage entry.now }
{
    match entry {
        Entry::Written { .. } => Stage::Open,
        Entry::Command { .. } => Stage::Open,
        Entry::Anchor { .. } => Stage::Other,
        Entry::Catalogue { .. } => Stage::Other,
        Entry::Epoch { .. } => Stage::Other,
    }
}

/// Has the records stand that are more than those that stand somewhere.
fn extend(stages: &mut Stages, records: &[Placed]) -> Result<(), NoMemory>
    requires { length stages.old ≤ length records.now }
    ensures { OnOk result (stages.new ≡ extended records.now stages.old) }
{
    for i in stages.len()..records.len() {
        stages.push(first_stage(&records[i].entry))?;
    }
    Ok(())
}

/// The same lists once more.
pub fn copied(alloc: Global, all: &[Stages]) -> Result<Vec<Stages>, NoMemory>
    ensures { IfOk result (λ list. list.items ≡ all.now) }
{
    let mut list = Vec::new(alloc);
    for j in 0..all.len() {
        let one = all[j].copied(alloc)?;
        list.push(one)?;
    }
    Ok(list)
}

/// The same of all streams.
pub fn extend_all(all: &mut Vec<Stages>, streams: &[Listed<Placed>]) -> Result<(), NoMemory>
    requires { length all.old.items ≡ length streams.now }
    ensures same { OnOk result (all.new.items ≡ extended_from streams.now all.old.items) }
    ensures stages { (old more : List (List OnePlaced)) (out order : List Kept) (format : Format) (fed now : List (List ℕ)) → fronts_of format fed ≡ Ok old → fronts_of format now ≡ Ok streams.now → Grown old more streams.now →
        ((r : Kept) → Member r out → Member r (kept_from 0 old)) → ((r : Kept) → Member r order → Member r (kept_from 0 old)) → all.old.items ≡ stages_from out order 0 old → OnOk result (all.new.items ≡ stages_from out order 0 streams.now) }
{
    for j in 0..streams.len() {
        let records = streams[j].as_slice();
        let stages = &mut all[j];
        if stages.len() > records.len() {
            return Err(NoMemory);
        }
        extend(stages, records)?;
    }
    Ok(())
}

//! Epochs. Each run on disks that hold a log has a number of its own, and puts it into every stream with the lengths that
//! it found. These marks tell for good which of the older records count.
#![tactic(auto)]

ghost use Rattle.std.specs.Prelude.{◌≡◌, ◌≤◌, ◌<◌, ◌==◌, ◌↔◌, ℕ, List, [], length, IsSome, IfSome, IfErr, OnOk, OnErr, Err, Some, None, IsTrue};
ghost use Rattle.std.specs.Option.{option_copied, option_map};
ghost use Rattle.tau_epoch.specs.Epochs.{largest, least_above, meet, judging};
ghost use Rattle.tau_epoch.specs.Known.{Ascends, vector_of, put_mark, with_mark};
ghost use Rattle.tau_epoch.specs.declared.EpochRefusal.TheVariants.{NoMemory, Differs};

mod laws;

pub use laws::{least_above_is_least, meet_is_greatest_lower_bound};
use std::alloc::Global;
use std::collections::BTreeMap;
use std::marker::Model;
use std::ops::Bound;
use tau_base::Lv;
use thiserror::Error;

/// Why an epoch was not added.
#[derive(Clone, Copy, Debug, PartialEq, Eq, Error)]
pub enum EpochRefusal {
    /// Out of memory.
    #[error("out of memory")]
    NoMemory,
    /// The number is known with this vector, which is another one.
    #[error("the epoch is known with another vector")]
    Differs(Lv),
}

/// The known epochs: each a number with its vector. Contracts see them in ascending order of numbers.
#[derive(Drop)]
pub struct Epochs {
    known: BTreeMap<u32, Lv>,
}

impl Model for Epochs {
    ghost use Rattle.std.specs.Prelude.{List};
    ghost use Rattle.tau_epoch.specs.Epochs.{Mark};
    ghost use Rattle.tau_epoch.specs.Known.{as_marks};

    ghost Value = { List Mark };

    ghost view = { λ e. as_marks e.known.entries };
}

impl Epochs {
    /// No epoch is known. It takes no memory.
    pub fn new(alloc: Global) -> Epochs
        ensures { result ≡ [] }
    {
        Epochs {
            known: BTreeMap::new(alloc),
        }
    }

    /// How many epochs are known.
    pub fn len(&self) -> usize
        ensures same { result ≡ length self.now }
        ensures ascends { Ascends self.now }
    {
        self.known.len()
    }

    /// Whether no epoch is known.
    pub fn is_empty(&self) -> bool
        ensures { result ≡ (length self.now == 0) }
    {
        self.len() == 0
    }

    /// Makes an epoch known, with its vector. One that is known with this vector stays, and one that is known with another
    /// vector is refused with that one. After a refusal what is known is unchanged.
    pub fn add(&mut self, number: u32, lv: Lv) -> Result<(), EpochRefusal>
        ensures added { OnOk result (self.new ≡ with_mark (record { number = number; lv = lv }) self.old) }
        ensures known { OnOk result (vector_of number self.new ≡ Some lv) }
        ensures differs { (v : List ℕ) → (result ≡ Err (Differs v)) ↔ ((vector_of number self.old ≡ Some v) × (v ≡ lv → ⊥)) }
        ensures no_memory { result ≡ Err NoMemory → vector_of number self.old ≡ None }
        ensures unchanged { OnErr result (self.new ≡ self.old) }
    {
        match self.vector(number) {
            Some(known) => agree(known, &lv),
            None => self.put(number, lv),
        }
    }

    /// The vector of the epoch with this number.
    pub fn vector(&self, number: u32) -> Option<&Lv>
        ensures { option_copied result ≡ vector_of number self.now }
    {
        self.known.get(&number)
    }

    /// Puts an epoch that is not known yet.
    fn put(&mut self, number: u32, lv: Lv) -> Result<(), EpochRefusal>
        requires { vector_of number self.old ≡ None }
        ensures ok { OnOk result (self.new ≡ put_mark (record { number = number; lv = lv }) self.old) }
        ensures err { IfErr result (λ e. e ≡ NoMemory) }
        ensures unchanged { OnErr result (self.new ≡ self.old) }
    {
        let Ok(_) = self.known.insert(number, lv) else {
            return Err(EpochRefusal::NoMemory);
        };
        Ok(())
    }

    /// The vector of the known epoch with the smallest number above this one, if there is one.
    pub fn above(&self, number: u32) -> Option<&Lv>
        ensures { option_copied result ≡ option_map (λ m. m.lv) (least_above number self.now) }
    {
        let above = (Bound::Excluded(number), Bound::Unbounded);
        match self.known.range(above).next() {
            Some((_, lv)) => Some(lv),
            None => None,
        }
    }

    /// The largest known number. None exactly where no epoch is known.
    pub fn last(&self) -> Option<u32>
        ensures some { IfSome result (λ number. number ≡ largest self.now) }
        ensures none { IsSome result ↔ (0 < length self.now) }
    {
        match self.known.last_key_value() {
            Some((number, _)) => Some(*number),
            None => None,
        }
    }

    /// The largest known number, 0 where no epoch is known.
    pub fn largest(&self) -> u32
        ensures { result ≡ largest self.now }
    {
        match self.last() {
            Some(number) => number,
            None => 0,
        }
    }

    /// The vector against which records of the epoch with this number are judged, where the streams have these lengths:
    /// that of the least known epoch above it, no component above the stream's length, or the lengths where there is none.
    pub fn judging(&self, elv: &Lv, number: u32) -> Lv
        ensures { result ≡ judging elv.now self.now number }
    {
        match self.above(number) {
            Some(lv) => meet_of(lv, elv),
            None => *elv,
        }
    }
}

/// Refuses a vector that is not the known one.
fn agree(known: &Lv, lv: &Lv) -> Result<(), EpochRefusal>
    ensures ok { OnOk result (known.now ≡ lv.now) }
    ensures err { IfErr result (λ e. (e ≡ Differs known.now) × (known.now ≡ lv.now → ⊥)) }
{
    if is_same(known, lv) {
        Ok(())
    } else {
        Err(EpochRefusal::Differs(*known))
    }
}

/// Whether two vectors are the same.
fn is_same(one: &Lv, other: &Lv) -> bool
    ensures { IsTrue result ↔ (one.now ≡ other.now) }
{
    one.width() == other.width() && one.covers(other) && other.covers(one)
}

/// The smaller component of each stream, as far as both vectors go.
fn meet_of(one: &Lv, other: &Lv) -> Lv
    ensures { result ≡ meet one.now other.now }
{
    if one.width() <= other.width() {
        lowered(one, other)
    } else {
        lowered(other, one)
    }
}

/// A vector, each component lowered to that of a vector that is no narrower, where that is smaller.
fn lowered(narrow: &Lv, wide: &Lv) -> Lv
    requires { length narrow.now ≤ length wide.now }
    ensures { result ≡ meet narrow.now wide.now }
{
    let mut out = *narrow;
    for j in 0..narrow.width() {
        let lsn = wide.get(j);
        if lsn < out.get(j) {
            out.set(j, lsn);
        }
    }
    out
}

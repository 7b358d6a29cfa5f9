//! The calls that a worker left over.
ghost use Rattle.std.specs.Prelude.{◌≡◌, ◌≤◌, ◌<◌, ◌++◌, ◌∷◌, [], OnOk, length, slice_get, Some, true};
ghost use Rattle.std.specs.List.{remove};
ghost use Rattle.std.specs.List.Sorted.{IsNonDecreasing};

use std::alloc::Global;
use std::collections::VecDeque;
use std::marker::Model;
use tau_base::NoMemory;

/// The numbers of the calls that a worker left over, in the order in which it did.
#[derive(Drop)]
pub struct LeftOvers {
    numbers: VecDeque<u64>,
    /// Whether it is known that they ascend.
    ascends: bool,
}

impl Model for LeftOvers {
    ghost use Rattle.std.specs.Prelude.{◌≡◌, ◌-◌, true};
    ghost use Rattle.std.specs.List.Sorted.{IsNonDecreasing};
    ghost use Rattle.std.specs.VecDeque.{deque_len, deque_capacity};
    ghost use Rattle.tau_core.specs.Plain.{PlainLeft};

    ghost Value = { PlainLeft };

    ghost view = { λ l. record { numbers = l.numbers.items; room = deque_capacity l.numbers - deque_len l.numbers } };

    ghost invariant = { λ l. l.ascends ≡ true → IsNonDecreasing l.numbers.items };
}

impl LeftOvers {
    pub fn new(alloc: Global) -> Self
        ensures { result.numbers ≡ [] }
    {
        LeftOvers {
            numbers: VecDeque::new(alloc),
            ascends: true,
        }
    }

    /// Makes room for one more.
    pub fn reserve(&mut self) -> Result<(), NoMemory>
        ensures numbers { self.new.numbers ≡ self.old.numbers }
        ensures room { self.old.room ≤ self.new.room }
        ensures roomy { OnOk result (1 ≤ self.new.room) }
    {
        Ok(self.numbers.try_reserve(1)?)
    }

    /// Puts one more after the others.
    pub fn push(&mut self, number: u64)
        requires { 1 ≤ self.old.room }
        ensures { self.new.numbers ≡ self.old.numbers ++ number ∷ [] }
    {
        let ascends = self.ascends_with(number);
        self.numbers.push_back_reserved(number);
        self.ascends = ascends;
    }

    /// Whether it is known that they ascend with this one after them.
    fn ascends_with(&self, number: u64) -> bool
        ensures { result ≡ true → IsNonDecreasing (self.now.numbers ++ number ∷ []) }
    {
        match self.numbers.back() {
            Some(last) => {
                if *last > number {
                    return false;
                }
                self.ascends
            }
            None => true,
        }
    }

    /// Whether it is known that they ascend.
    pub fn ascends(&self) -> bool
        ensures { result ≡ true → IsNonDecreasing self.now.numbers }
    {
        self.ascends
    }

    pub fn len(&self) -> usize
        ensures { result ≡ length self.now.numbers }
    {
        self.numbers.len()
    }

    /// The one that stands there.
    pub fn get(&self, at: usize) -> u64
        requires { at < length self.now.numbers }
        ensures { slice_get self.now.numbers at ≡ Some result }
    {
        self.numbers[at]
    }

    /// Takes the one out that stands there.
    pub fn remove(&mut self, at: usize)
        requires { at < length self.old.numbers }
        ensures numbers { self.new.numbers ≡ remove self.old.numbers at }
        ensures room { self.old.room ≤ self.new.room }
    {
        let _ = self.numbers.remove(at);
    }
}

//! The acknowledgements of a report, lent.
ghost use Rattle.std.specs.Prelude.{ℕ, ◌≡◌, ◌<◌, ◌++◌, [], IfOk, Some, length, map, slice_get};

use std::alloc::Global;
use std::marker::Model;
use tau_base::NoMemory;
use tau_report::Acks;

/// An acknowledged call, with its vector.
#[derive(Drop)]
pub struct Ack<'a> {
    number: u64,
    lv: &'a [u64],
}

impl<'a> Model for Ack<'a> {
    ghost use Rattle.std.specs.Prelude.{ℕ, List};

    ghost Value = { ℕ × List ℕ };

    ghost view = { λ a. (a.number, a.lv.now) };
}

impl<'a> Ack<'a> {
    /// The number of the call.
    pub fn number(&self) -> u64
        ensures { result ≡ self.now.0 }
    {
        self.number
    }

    /// The positions of its vector.
    pub fn lv(&self) -> &'a [u64]
        ensures { result.now ≡ self.now.1 }
    {
        self.lv
    }
}

/// The acknowledgement at this index.
pub fn ack_at<'b, 'a>(acks: &'b [Ack<'a>], index: usize) -> &'b Ack<'a>
    requires { index < length acks.now }
    ensures { slice_get acks.now index ≡ Some result.now }
{
    &acks[index]
}

/// The acknowledged calls, in their order.
pub fn acks_of<'a>(alloc: Global, acks: &'a Acks) -> Result<Vec<Ack<'a>>, NoMemory>
    ensures { IfOk result (λ all. all.items ≡ acks.now) }
{
    let mut all = Vec::with_capacity(alloc, acks.len())?;
    let mut walk = acks.walk();
    while let Some((number, lv)) = walk.next() {
        all.push(Ack { number, lv })?;
    }
    Ok(all)
}

/// Their numbers.
pub fn numbers_of(alloc: Global, acks: &[Ack<'_>]) -> Result<Vec<u64>, NoMemory>
    ensures { IfOk result (λ numbers. numbers.items ≡ map (λ a. a.0) acks.now) }
{
    let mut numbers = Vec::with_capacity(alloc, acks.len())?;
    for i in 0..acks.len() {
        numbers.push(acks[i].number())?;
    }
    Ok(numbers)
}

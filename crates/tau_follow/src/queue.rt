//! Records that wait for one stream.
ghost use Rattle.std.specs.Prelude.{◌≡◌, ◌≤◌, ◌<◌, ◌⊎◌, [], ℕ, List, length, IfSome, IsNone, OnOk, OnErr};
ghost use Rattle.std.specs.List.{All, Contains};
ghost use Rattle.std.specs.BinaryHeap.{IsHeap, heap_items};
ghost use Rattle.std.proofs.Props.{props};
ghost use Rattle.tau_follow.specs.Queue.{Wait, wait_cmp, spot_of, wait_at, AreAbove};

use crate::spot::Spot;
use std::alloc::Global;
use std::cmp::Reverse;
use std::collections::BinaryHeap;
use std::marker::Model;
use tau_base::NoMemory;

/// Records that wait for a stream to be followed further, each for a position. The lowest comes first.
#[derive(Drop)]
pub struct Queue {
    heap: BinaryHeap<Reverse<(u64, (usize, usize))>>,
    ghost ordered: { IsHeap wait_cmp (heap_items heap) } by { Prim.hlevel props },
}

impl Model for Queue {
    ghost use Rattle.std.specs.Prelude.{List};
    ghost use Rattle.std.specs.BinaryHeap.{heap_items};
    ghost use Rattle.tau_follow.specs.Queue.{Wait};

    ghost Value = { List Wait };

    ghost view = { λ q. heap_items q.heap };
}

impl Queue {
    /// None waits.
    pub fn new(alloc: Global) -> Queue
        ensures { result ≡ [] }
    {
        Queue {
            heap: BinaryHeap::new(alloc),
        }
    }

    /// Has a record wait for this position.
    pub fn push(&mut self, at: u64, spot: Spot) -> Result<(), NoMemory>
        ensures added { OnOk result (Contains self.new (wait_at at spot)) }
        ensures kept { OnOk result ((w : Wait) → Contains self.old w → Contains self.new w) }
        ensures above { (reached : ℕ) → AreAbove reached self.old → reached < at → OnOk result (AreAbove reached self.new) }
    {
        match self.heap.push(Reverse((at, (spot.stream, spot.index)))) {
            Ok(()) => {}
            Err(_) => return Err(NoMemory),
        }
        Ok(())
    }

    /// The least position that one waits for.
    fn least(&self) -> Option<u64>
        ensures some { IfSome result (λ at. All (λ (w : Wait). at ≤ w.0.0) self.now) }
        ensures none { IsNone result → self.now ≡ [] }
    {
        match self.heap.peek() {
            None => None,
            Some(Reverse((at, _))) => Some(*at),
        }
    }

    /// The first of those that wait.
    #[inline(never)]
    fn pop(&mut self) -> Option<Spot>
        ensures some { IfSome result (λ spot. (w : Wait) → Contains self.old w → Contains self.new w ⊎ (spot_of w ≡ spot)) }
        ensures fewer { IfSome result (λ _. length self.new < length self.old) }
        ensures none { IsNone result → (self.new ≡ []) × (self.old ≡ []) }
    {
        let Some(Reverse((_, (stream, index)))) = self.heap.pop() else {
            return None;
        };
        Some(Spot { stream, index })
    }

    /// One of those that wait for no more than this position.
    #[inline(always)]
    pub fn pop_to(&mut self, reached: u64) -> Option<Spot>
        ensures some { IfSome result (λ spot. (w : Wait) → Contains self.old w → Contains self.new w ⊎ (spot_of w ≡ spot)) }
        ensures fewer { IfSome result (λ _. length self.new < length self.old) }
        ensures above { IsNone result → AreAbove reached self.new }
        ensures none { IsNone result → self.new ≡ self.old }
    {
        let Some(at) = self.least() else {
            return None;
        };
        if at > reached {
            return None;
        }
        match self.pop() {
            Some(spot) => Some(spot),
            None => None,
        }
    }
}

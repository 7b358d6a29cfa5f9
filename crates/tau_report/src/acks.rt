//! Acknowledged calls that are kept short.
ghost use Rattle.std.specs.Prelude.{ℕ, ◌≡◌, ◌≤◌, ◌<◌, ◌+◌, ◌++◌, ◌∷◌, [], List, length, vec_len, vec_capacity, OnOk, OnErr, MatchOption, Some, slice_get};

use std::alloc::Global;
use std::marker::Model;
use tau_base::{Lv, NoMemory};

/// Acknowledged calls with their vectors, in the order of acknowledgement: each takes 16 bytes, and 8 for each component of its
/// vector. Contracts see them as the list of numbers and vectors.
#[derive(Debug, Drop)]
pub struct Acks {
    /// The number of each call, and how wide its vector is.
    heads: Vec<(u64, u8)>,
    /// The components of all vectors, one after another.
    parts: Vec<u64>,
}

impl Model for Acks {
    ghost use Rattle.std.specs.Prelude.{ℕ, List};
    ghost use Rattle.tau_report.specs.KeptAcks.{acks_of, IsWhole};

    ghost Value = { List (ℕ × List ℕ) };

    ghost view = { λ a. acks_of a.heads.items a.parts.items };

    ghost invariant = { λ a. IsWhole a.heads.items a.parts.items };
}

/// Puts the components of a vector at the end. There is room for them.
fn put_parts(parts: &mut Vec<u64>, lv: &Lv)
    requires { vec_len parts.old + length lv.now ≤ vec_capacity parts.old }
    ensures { parts.new.items ≡ parts.old.items ++ lv.now }
{
    for j in 0..lv.width() {
        parts.push_reserved(lv.get(j));
    }
}

impl Acks {
    /// No calls, which takes no memory.
    pub fn new(alloc: Global) -> Acks
        ensures { result ≡ [] }
    {
        Acks {
            heads: Vec::new(alloc),
            parts: Vec::new(alloc),
        }
    }

    /// How many calls it has.
    pub fn len(&self) -> usize
        ensures { result ≡ length self.now }
    {
        self.heads.len()
    }

    /// The number of the call at this index, from 0.
    pub fn number_at(&self, index: usize) -> u64
        requires { index < length self.now }
        ensures { (lv : List ℕ) × (slice_get self.now index ≡ Some (result, lv)) }
    {
        self.heads[index].0
    }

    /// Puts a call with its vector at the end. Out of memory the list is unchanged.
    pub fn push(&mut self, number: u64, lv: &Lv) -> Result<(), NoMemory>
        ensures ok { OnOk result (self.new ≡ self.old ++ (number, lv.now) ∷ []) }
        ensures err { OnErr result (self.new ≡ self.old) }
    {
        self.heads.reserve(1)?;
        let width = lv.width();
        self.parts.reserve(width)?;
        put_parts(&mut self.parts, lv);
        self.heads.push_reserved((number, width as u8));
        Ok(())
    }

    /// The calls from the first on, one after another.
    pub fn walk(&self) -> AckWalk<'_>
        ensures { result ≡ self.now }
    {
        AckWalk {
            heads: self.heads.as_slice(),
            parts: self.parts.as_slice(),
        }
    }
}

/// Acknowledged calls that are gone through. Contracts see those that are left.
#[derive(Drop)]
pub struct AckWalk<'a> {
    heads: &'a [(u64, u8)],
    parts: &'a [u64],
}

impl<'a> Model for AckWalk<'a> {
    ghost use Rattle.std.specs.Prelude.{ℕ, List};
    ghost use Rattle.tau_report.specs.KeptAcks.{acks_of, IsWhole};

    ghost Value = { List (ℕ × List ℕ) };

    ghost view = { λ w. acks_of w.heads.now w.parts.now };

    ghost invariant = { λ w. IsWhole w.heads.now w.parts.now };
}

impl<'a> AckWalk<'a> {
    /// The next call's number and vector; none behind the last.
    pub fn next(&mut self) -> Option<(u64, &'a [u64])>
        ensures { MatchOption result ((self.old ≡ []) × (self.new ≡ [])) (λ a. self.old ≡ (a.0, a.1.now) ∷ self.new) }
    {
        match self.heads {
            [] => None,
            [head, heads @ ..] => {
                let width = usize::from(head.1);
                let lv = &self.parts[..width];
                self.parts = &self.parts[width..];
                self.heads = heads;
                Some((head.0, lv))
            }
        }
    }
}

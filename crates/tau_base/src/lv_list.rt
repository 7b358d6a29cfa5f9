//! Vectors that are kept flat.
ghost use Rattle.std.specs.Prelude.{◌≡◌, ◌≤◌, ◌<◌, ◌+◌, ◌-◌, ◌++◌, ◌∷◌, [], length, map, OnOk, slice_get, Some, vec_len, vec_capacity};
ghost use Rattle.std.specs.List.{All};
ghost use Rattle.tau_base.specs.KeptLvList.{IsMarkBehind, mark_behind};

use crate::limits::MAX_STREAMS;
use crate::lv::Lv;
use crate::value::NoMemory;
use std::alloc::Global;
use std::marker::Model;

/// Where a vector lies among the positions of all.
#[derive(Clone, Copy, Debug)]
struct Mark {
    at: u32,
    width: u8,
}

/// Vectors in order, each of which takes 8 bytes and 8 for each of its positions. Contracts see it as the list of the vectors, with how many more it takes without memory.
#[derive(Debug, Drop)]
pub struct LvList {
    positions: Vec<u64>,
    marks: Vec<Mark>,
    room: usize,
}

impl Model for LvList {
    ghost use Rattle.tau_base.specs.LvList.{PlainLvList};

    ghost Value = { PlainLvList };

    ghost use Rattle.tau_base.specs.KeptLvList.{IsKept, plain};

    ghost view = { plain };

    ghost invariant = { IsKept };
}

impl LvList {
    /// No vector. It takes no memory.
    pub fn new(alloc: Global) -> LvList
        ensures { result ≡ record { items = []; room = 0 } }
    {
        LvList {
            positions: Vec::new(alloc),
            marks: Vec::new(alloc),
            room: 0,
        }
    }

    /// How many vectors it has.
    pub fn len(&self) -> usize
        ensures { result ≡ length self.now.items }
    {
        self.marks.len()
    }

    /// Makes room for so many more.
    pub fn reserve(&mut self, count: usize) -> Result<(), NoMemory>
        ensures items { self.new.items ≡ self.old.items }
        ensures kept { self.old.room ≤ self.new.room }
        ensures roomy { OnOk result (count ≤ self.new.room) }
    {
        if count <= self.room {
            return Ok(());
        }
        if count > (u32::MAX as usize - self.positions.len()) / MAX_STREAMS {
            return Err(NoMemory);
        }
        self.positions.try_reserve(count * MAX_STREAMS)?;
        self.marks.try_reserve(count)?;
        self.room = count;
        Ok(())
    }

    /// Puts a vector at the end, where there is room.
    pub fn push_reserved(&mut self, vector: &Lv)
        requires { 1 ≤ self.old.room }
        ensures { self.new ≡ record { items = self.old.items ++ vector.now ∷ []; room = self.old.room - 1 } }
    {
        let mark = Mark {
            at: self.positions.len() as u32,
            width: vector.width() as u8,
        };
        let Ok(()) = self.positions.extend_from_slice(vector.as_slice()) else {
            unreachable!()
        };
        self.marks.push_reserved(mark);
        self.room -= 1;
    }

    /// The positions of the vector at this index, from 0.
    pub fn get(&self, index: usize) -> &[u64]
        requires { index < length self.now.items }
        ensures { slice_get self.now.items index ≡ Some result.now }
    {
        let mark = self.marks[index];
        let at = mark.at as usize;
        &self.positions[at..at + usize::from(mark.width)]
    }

    /// Puts the vector at this index, from 0, into a place.
    pub fn put_into(&self, index: usize, place: &mut Lv)
        requires { index < length self.now.items }
        ensures { slice_get self.now.items index ≡ Some place.new }
    {
        let mark = self.marks[index];
        let at = mark.at as usize;
        place.set_to(&self.positions[at..at + usize::from(mark.width)]);
    }

    /// Puts the vectors of another list at the end, where there is room. It takes no memory.
    pub fn append(&mut self, other: LvList)
        requires { length other.items ≤ self.old.room }
        ensures { self.new ≡ record { items = self.old.items ++ other.items; room = self.old.room - length other.items } }
    {
        let LvList {
            mut positions,
            marks,
            room: _,
        } = other;
        let from = self.positions.len() as u32;
        let Ok(()) = self.positions.append(&mut positions) else {
            unreachable!()
        };
        self.room -= marks.len();
        put_marks(&mut self.marks, &marks, from);
    }
}

/// Puts marks at the end, where there is room, whose vectors begin so much further on.
fn put_marks(marks: &mut Vec<Mark>, others: &Vec<Mark>, from: u32)
    requires room { vec_len marks.old + length others.now.items ≤ vec_capacity marks.old }
    requires small { All (IsMarkBehind from) others.now.items }
    ensures items { marks.new.items ≡ marks.old.items ++ map (mark_behind from) others.now.items }
    ensures len { vec_len marks.new ≡ vec_len marks.old + length others.now.items }
    ensures capacity { vec_capacity marks.new ≡ vec_capacity marks.old }
{
    for mark in others {
        marks.push_reserved(Mark {
            at: from + mark.at,
            width: mark.width,
        });
    }
}

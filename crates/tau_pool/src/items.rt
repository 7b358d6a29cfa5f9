//! Taken records that are kept flat.
ghost use Rattle.std.specs.Prelude.{◌≡◌, ◌≤◌, ◌<◌, ◌+◌, ◌^◌, ◌++◌, ◌∷◌, [], ℕ, true, false, length, drop, slice_get, slice_set, slice_index, Some, IfOk, OnOk, OnErr};
ghost use Rattle.tau_base.specs.Vectors.{covers};
ghost use Rattle.tau_base.specs.declared.limits.TheConstants.{MAX_STREAMS};
ghost use Rattle.tau_pool.specs.Item.{Item};
ghost use Rattle.tau_pool.specs.Items.{is_left, unstarted};
ghost use Rattle.tau_pool.specs.Passing.{is_passed, is_ready_one, is_ready};
ghost use Rattle.tau_pool.specs.First.{first_from, reach_one};
ghost use Rattle.tau_pool.specs.Flat.{vector_of, item_at, IsRow};
ghost use Rattle.tau_pool.specs.Pooled.{job_of, staged};

use crate::item::{Job, Stage};
use std::alloc::Global;
use std::marker::Model;
use tau_base::{Lv, NoMemory};

/// What is kept of a record beside the positions of its vector.
#[derive(Clone, Copy, Debug)]
struct Row {
    /// Where it starts.
    start: u64,
    /// Where its vector lies among the positions of all.
    at: usize,
    /// Its number among the records of its stream, from 0.
    index: u32,
    /// Its stream.
    stream: u8,
    /// Of how many positions its vector is.
    width: u8,
    /// Where it stands.
    stage: Stage,
}

/// Taken records by stream and place, of which each takes 24 bytes and 8 for each position of its vector. Contracts see
/// it as the list of the records.
#[derive(Debug, Drop)]
pub struct Items {
    positions: Vec<u64>,
    rows: Vec<Row>,
}

impl Model for Items {
    ghost use Rattle.std.specs.Prelude.{List};
    ghost use Rattle.tau_pool.specs.Item.{Item};

    ghost Value = { List Item };

    ghost use Rattle.tau_pool.specs.Flat.{IsFlat, plain};

    ghost view = { plain };

    ghost invariant = { IsFlat };
}

impl Items {
    /// No records, with room for so many whose vectors are of so many positions.
    pub fn with_room(alloc: Global, records: usize, width: usize) -> Result<Items, NoMemory>
        ensures { IfOk result (λ items. items ≡ []) }
    {
        let positions = Vec::with_capacity(alloc, records.saturating_mul(width))?;
        let rows = Vec::with_capacity(alloc, records)?;
        Ok(Items { positions, rows })
    }

    /// How many records they are.
    pub fn len(&self) -> usize
        ensures { result ≡ length self.now }
    {
        self.rows.len()
    }

    /// Puts a record that is not started after the others. A number past the 32 bits of its place is refused as out of
    /// memory.
    pub fn put(&mut self, stream: u8, index: usize, start: u64, dep: &[u64]) -> Result<(), NoMemory>
        requires few { length dep.now ≤ MAX_STREAMS }
        ensures { OnOk result (self.new ≡ self.old ++ unstarted stream index start dep.now ∷ []) }
    {
        if index > u32::MAX as usize {
            return Err(NoMemory);
        }
        self.rows.reserve(1)?;
        let row = Row {
            start,
            at: self.positions.len(),
            index: index as u32,
            stream,
            width: dep.len() as u8,
            stage: Stage::Waiting,
        };
        put_vector(&mut self.positions, dep)?;
        self.rows.push_reserved(row);
        Ok(())
    }

    /// The stream of the record at this place.
    pub fn stream(&self, place: usize) -> u8
        requires { place < length self.now }
        ensures { (x : Item) → slice_get self.now place ≡ Some x → result ≡ x.stream }
    {
        self.rows[place].stream
    }

    /// The position in stream `k` of the vector of the record at this place, 0 beyond its end.
    pub fn position(&self, place: usize, k: usize) -> u64
        requires { place < length self.now }
        ensures { (x : Item) → slice_get self.now place ≡ Some x → result ≡ slice_index x.dep k }
    {
        let row = self.rows[place];
        position(vector(&self.positions, &row), k)
    }

    /// Whether the record at this place is still to be finished.
    pub fn is_left(&self, place: usize) -> bool
        requires { place < length self.now }
        ensures { (x : Item) → slice_get self.now place ≡ Some x → result ≡ is_left x.stage }
    {
        self.rows[place].stage.is_left()
    }

    /// Whether there is a record at this place, not started, and covered.
    pub fn is_ready(&self, place: usize, rlv: &Lv) -> bool
        ensures { result ≡ is_ready self.now rlv.now place }
    {
        if place >= self.len() {
            return false;
        }
        let row = self.rows[place];
        is_row_ready(&self.positions, &row, rlv)
    }

    /// The job of the record at this place.
    pub fn job(&self, place: usize) -> Job
        requires { place < length self.now }
        ensures same { (x : Item) → slice_get self.now place ≡ Some x → result ≡ job_of place x }
        ensures place { result.place ≡ place }
        ensures few { length self.now < 2 ^ 64 }
    {
        let row = self.rows[place];
        Job {
            stream: row.stream,
            index: row.index as usize,
            place,
        }
    }

    /// The record at this place stands elsewhere.
    pub fn set_stage(&mut self, place: usize, stage: Stage)
        requires { place < length self.old }
        ensures { (x : Item) → slice_get self.old place ≡ Some x → self.new ≡ slice_set self.old place (staged stage x) }
    {
        let row = &mut self.rows[place];
        row.stage = stage;
    }

    /// Whether nothing of stream `j` is left at the record at this place or before it.
    fn is_passed(&self, place: usize, j: u8) -> bool
        requires { place < length self.now }
        ensures on { result ≡ true → first_from j place (drop place self.now) ≡ first_from j (place + 1) (drop (place + 1) self.now) }
        ensures off { result ≡ false → first_from j place (drop place self.now) ≡ place }
    {
        let row = self.rows[place];
        row.is_passed(j)
    }

    /// The place of the first record, from a place on, that is of a higher stream, or of stream `j` and left.
    pub fn first_left(&self, j: u8, from: usize) -> usize
        requires { from ≤ length self.now }
        ensures same { result ≡ first_from j from (drop from self.now) }
        ensures within { result ≤ length self.now }
    {
        for place in from..self.rows.len() {
            if !self.is_passed(place, j) {
                return place;
            }
        }
        self.rows.len()
    }

    /// How far stream `j` is recovered: the start of the record at this place, where it is of the stream, else the end.
    pub fn reach_of(&self, j: u8, place: usize, end: u64) -> u64
        requires { (i : ℕ) (x : Item) → slice_get self.now i ≡ Some x → x.stream ≡ j → x.start ≤ end }
        ensures same { result ≡ reach_one j end (slice_get self.now place) }
        ensures small { result ≤ end }
    {
        if place >= self.len() {
            return end;
        }
        let row = self.rows[place];
        if row.stream == j { row.start } else { end }
    }
}

impl Row {
    /// Whether nothing of stream `j` is left at this record or before it.
    fn is_passed(&self, j: u8) -> bool
        ensures { result ≡ is_passed j (item_at [] self.now) }
    {
        if self.stream < j {
            true
        } else if self.stream == j {
            !self.stage.is_left()
        } else {
            false
        }
    }
}

/// Puts a vector after the others. Out of memory nothing changes.
fn put_vector(positions: &mut Vec<u64>, dep: &[u64]) -> Result<(), NoMemory>
    ensures ok { OnOk result (positions.new.items ≡ positions.old.items ++ dep.now) }
    ensures err { OnErr result (positions.new.items ≡ positions.old.items) }
{
    positions.reserve(dep.len())?;
    for j in 0..dep.len() {
        positions.push_reserved(dep[j]);
    }
    Ok(())
}

/// The vector of a record, where it stands.
fn vector<'a>(positions: &'a [u64], row: &Row) -> &'a [u64]
    requires { IsRow positions.now row.now }
    ensures { result.now ≡ vector_of positions.now row.now }
{
    &positions[row.at..row.at + usize::from(row.width)]
}

/// The position in stream `k` of a vector, 0 beyond its end.
fn position(dep: &[u64], k: usize) -> u64
    ensures { result ≡ slice_index dep.now k }
{
    if k < dep.len() { dep[k] } else { 0 }
}

/// Whether each position is at least that of another vector, which is read where it stands.
fn covers(rlv: &Lv, dep: &[u64]) -> bool
    ensures { result ≡ covers rlv.now dep.now }
{
    for j in 0..dep.len() {
        let at = dep[j];
        if at > rlv.position(j) {
            return false;
        }
    }
    true
}

/// Whether the record is not started, and covered.
fn is_row_ready(positions: &[u64], row: &Row, rlv: &Lv) -> bool
    requires { IsRow positions.now row.now }
    ensures { result ≡ is_ready_one rlv.now (Some (item_at positions.now row.now)) }
{
    row.stage.is_waiting() && covers(rlv, vector(positions, row))
}

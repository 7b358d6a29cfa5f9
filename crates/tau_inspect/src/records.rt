//! The records of calls in a log.
ghost use Rattle.std.specs.Prelude.{ℕ, ◌≡◌, ◌<◌, ◌≤◌, ◌++◌, ◌∷◌, [], OnOk, IfOk, IsTrue, ◌↔◌, true, Some, length, slice_get, slice_index};
ghost use Rattle.tau_model.specs.Logged.{lv};
ghost use Rattle.tau_inspect.specs.Audit.{IsWork};
ghost use Rattle.tau_scan.specs.Taken.{kept_as, kept_in, kept_from};
ghost use Rattle.tau_inspect.specs.Records.{if_any};

use crate::same::{same_kept, same_writes};
use std::alloc::Global;
use std::marker::Model;
use tau_base::{KeptCall, Key, Listed, MAX_STREAMS, NoMemory, Value};
use tau_record::{Entry, KeptLv, KeptWrites, Placed};

/// What a record of a call holds.
#[derive(Clone, Copy)]
pub enum Work<'a> {
    /// What the call wrote.
    Writes(&'a KeptWrites),
    /// The call.
    Call(&'a KeptCall),
}

/// A record of a call, lent from the log.
#[derive(Drop)]
pub struct Record<'a> {
    number: u64,
    stream: u64,
    start: u64,
    past: u64,
    dep: &'a KeptLv,
    work: Work<'a>,
}

impl<'a> Model for Record<'a> {
    ghost use Rattle.tau_scan.specs.Taken.{Kept};
    ghost use Rattle.tau_inspect.specs.Records.{content_of};

    ghost Value = { Kept };

    ghost view = { λ r. record { number = r.number; place = record { stream = r.stream; start = r.start; past = r.past; dep = r.dep.now }; content = content_of r.work } };
}

impl<'a> Record<'a> {
    /// The number of its call.
    pub fn number(&self) -> u64
        ensures { result ≡ self.now.number }
    {
        self.number
    }

    /// Its stream.
    pub fn stream(&self) -> u64
        ensures { result ≡ self.now.place.stream }
    {
        self.stream
    }

    /// Where it starts.
    pub fn start(&self) -> u64
        ensures { result ≡ self.now.place.start }
    {
        self.start
    }

    /// Where it ends.
    pub fn past(&self) -> u64
        ensures { result ≡ self.now.place.past }
    {
        self.past
    }

    /// The vector of its call before its place.
    pub fn dep(&self) -> &'a [u64]
        ensures same { result.now ≡ self.now.place.dep }
        ensures high { length self.now.place.dep ≤ MAX_STREAMS }
    {
        self.dep.as_slice()
    }

    /// The position in stream `j` of its call's vector.
    fn position(&self, j: usize) -> u64
        requires { j < length self.now.place.dep }
        ensures { result ≡ slice_index (lv true self.now.place) j }
    {
        if j as u64 == self.stream {
            return self.past;
        }
        let dep = self.dep.as_slice();
        dep[j]
    }

    /// Whether these positions are its call's vector: the one before its place, with its own position at its end.
    pub fn has_vector(&self, positions: &[u64]) -> bool
        ensures { IsTrue result ↔ (positions.now ≡ lv true self.now.place) }
    {
        if positions.len() != self.dep.as_slice().len() {
            return false;
        }
        for j in 0..positions.len() {
            if positions[j] != self.position(j) {
                return false;
            }
        }
        true
    }

    /// Whether it holds these writes, or this call.
    pub fn has_work(&self, wrote: &[(Key, Value)], call: &KeptCall) -> bool
        ensures { IsTrue result ↔ IsWork self.now.content wrote.now call.now }
    {
        match self.work {
            Work::Writes(writes) => same_writes(writes, wrote),
            Work::Call(made) => same_kept(made, call),
        }
    }
}

/// The record at this index.
pub fn record_at<'b, 'a>(all: &'b [Record<'a>], index: usize) -> &'b Record<'a>
    requires { index < length all.now }
    ensures { slice_get all.now index ≡ Some result.now }
{
    &all[index]
}

/// The record as that of a call; none of another kind.
fn record_of<'a>(stream: u64, placed: &'a Placed) -> Option<Record<'a>>
    ensures { kept_as stream placed.now placed.now.entry ≡ if_any result }
{
    match &placed.entry {
        Entry::Written {
            number,
            dep,
            writes,
            ..
        } => Some(Record {
            number: *number,
            stream,
            start: placed.start,
            past: placed.past,
            dep,
            work: Work::Writes(writes),
        }),
        Entry::Command {
            number,
            dep,
            call,
            ..
        } => Some(Record {
            number: *number,
            stream,
            start: placed.start,
            past: placed.past,
            dep,
            work: Work::Call(call),
        }),
        Entry::Anchor { .. } => None,
        Entry::Catalogue { .. } => None,
        Entry::Epoch { .. } => None,
    }
}

/// Puts the record at the end, if there is one.
fn put_record<'a>(all: &mut Vec<Record<'a>>, one: Option<Record<'a>>) -> Result<(), NoMemory>
    ensures { OnOk result (all.new.items ≡ all.old.items ++ if_any one.entry) }
{
    if let Some(found) = one {
        all.push(found)?;
    }
    Ok(())
}

/// The records of calls of a stream.
fn put_stream<'a>(
    all: &mut Vec<Record<'a>>,
    stream: u64,
    records: &'a [Placed],
) -> Result<(), NoMemory>
    ensures { OnOk result (all.new.items ≡ all.old.items ++ kept_in stream records.now) }
{
    for i in 0..records.len() {
        put_record(all, record_of(stream, &records[i]))?;
    }
    Ok(())
}

/// The records of calls of all streams, by stream and place. Room is made at once for so many.
pub fn records_of<'a>(
    alloc: Global,
    streams: &'a [Listed<Placed>],
    room: usize,
) -> Result<Vec<Record<'a>>, NoMemory>
    ensures { IfOk result (λ all. all.items ≡ kept_from 0 streams.now) }
{
    let mut all = Vec::with_capacity(alloc, room)?;
    for j in 0..streams.len() {
        put_stream(&mut all, j as u64, streams[j].as_slice())?;
    }
    Ok(all)
}

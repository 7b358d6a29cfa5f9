//! What the pools keep of a taken record.
ghost use Rattle.std.specs.Prelude.{◌≡◌, ◌≤◌, ◌++◌, ◌∷◌, [], Some, None, length, IfOk, IfSome, IsNone, OnOk};
ghost use Rattle.std.specs.List.{filter};
ghost use Rattle.tau_base.specs.declared.limits.TheConstants.{MAX_STREAMS};
ghost use Rattle.tau_scan.specs.Epochs.{vector_by};
ghost use Rattle.tau_pool.specs.Items.{is_left, is_waiting, dep_of, with_item, item_of, items_in, item_after, items_after};

use crate::items::Items;
use std::alloc::Global;
use tau_base::{Listed, Lv, NoMemory};
use tau_record::{Entry, Placed};
use tau_scan::Judge;

/// Where a taken record stands.
#[derive(Clone, Copy, Debug, PartialEq, Eq)]
pub enum Stage {
    /// It is not started.
    Waiting,
    /// It is started and not finished.
    Flying,
    /// It is finished.
    Finished,
}

impl Stage {
    /// Whether the record is still to be finished.
    pub fn is_left(self) -> bool
        ensures { result ≡ is_left self }
    {
        match self {
            Stage::Waiting => true,
            Stage::Flying => true,
            Stage::Finished => false,
        }
    }

    /// Whether the record is still to be started.
    pub fn is_waiting(self) -> bool
        ensures { result ≡ is_waiting self }
    {
        match self {
            Stage::Waiting => true,
            Stage::Flying => false,
            Stage::Finished => false,
        }
    }
}

/// A record that was given to be redone.
#[derive(Clone, Copy, Debug, PartialEq, Eq)]
pub struct Job {
    /// Its stream.
    pub stream: u8,
    /// Its number among the records of its stream, from 0.
    pub index: usize,
    /// Its number among the taken records of the log, from 0.
    pub place: usize,
}

/// The vector of a data or command record.
fn dep_of(entry: &Entry) -> Option<&[u64]>
    ensures some { IfSome result (λ dep. dep_of entry.now ≡ Some dep.now) }
    ensures few { IfSome result (λ dep. length dep.now ≤ MAX_STREAMS) }
    ensures none { IsNone result → dep_of entry.now ≡ None }
{
    match entry {
        Entry::Written { dep, .. } => Some(dep.as_slice()),
        Entry::Command { dep, .. } => Some(dep.as_slice()),
        Entry::Anchor { .. } => None,
        Entry::Catalogue { .. } => None,
        Entry::Epoch { .. } => None,
    }
}

/// Puts a record that is judged against this vector after the others, where it is taken.
fn put_taken(
    items: &mut Items,
    lv: &Lv,
    stream: u8,
    index: usize,
    placed: &Placed,
) -> Result<(), NoMemory>
    ensures { OnOk result (items.new ≡ items.old ++ with_item (item_of lv.now stream index placed.now) []) }
{
    match dep_of(&placed.entry) {
        None => Ok(()),
        Some(dep) => {
            if !lv.covers_all(dep) {
                return Ok(());
            }
            items.put(stream, index, placed.start, dep)
        }
    }
}

/// The same, where it starts at or after the place of its stream.
fn put_record(
    items: &mut Items,
    from: &Lv,
    lv: &Lv,
    stream: u8,
    index: usize,
    placed: &Placed,
) -> Result<(), NoMemory>
    ensures { OnOk result (items.new ≡ items.old ++ filter (item_after from.now) (with_item (item_of lv.now stream index placed.now) [])) }
{
    if placed.start < from.position(usize::from(stream)) {
        return Ok(());
    }
    put_taken(items, lv, stream, index, placed)
}

/// Puts the taken records of a stream that start at or after its place after the others.
fn put_stream(
    items: &mut Items,
    from: &Lv,
    judge: &Judge,
    stream: u8,
    records: &[Placed],
) -> Result<(), NoMemory>
    ensures { OnOk result (items.new ≡ items.old ++ filter (item_after from.now) (items_in (vector_by judge.now) stream 0 0 records.now)) }
{
    let mut lv = judge.vector(0);
    for (index, placed) in records.iter().enumerate() {
        put_record(items, from, &lv, stream, index, placed)?;
        judge.pass(&mut lv, &placed.entry);
    }
    Ok(())
}

/// How many records start at this place or after it.
fn count_after(records: &[Placed], from: u64) -> usize {
    let mut count = 0usize;
    for placed in records {
        if placed.start >= from {
            count = count.saturating_add(1);
        }
    }
    count
}

/// How many records of a stream there is room for: all, where the place is its beginning.
fn room_of(records: &[Placed], from: u64) -> usize {
    if from == 0 {
        records.len()
    } else {
        count_after(records, from)
    }
}

/// How many records of all streams there is room for.
fn room_of_all(streams: &[Listed<Placed>], from: &Lv) -> usize {
    let mut count = 0usize;
    for (j, records) in streams.iter().enumerate() {
        count = count.saturating_add(room_of(records.as_slice(), from.position(j)));
    }
    count
}

/// Puts the taken records of all streams that start at or after the place of their stream, where there are none yet.
fn put_all(
    items: &mut Items,
    from: &Lv,
    judge: &Judge,
    streams: &[Listed<Placed>],
) -> Result<(), NoMemory>
    requires few { length streams.now ≤ MAX_STREAMS }
    requires none { items.old ≡ [] }
    ensures { OnOk result (items.new ≡ items_after from.now (vector_by judge.now) streams.now) }
{
    for (j, records) in streams.iter().enumerate() {
        put_stream(items, from, judge, j as u8, records.as_slice())?;
    }
    Ok(())
}

/// The taken records that start at or after the place of their stream, none of them started.
pub(crate) fn items_of(
    alloc: Global,
    from: &Lv,
    judge: &Judge,
    streams: &[Listed<Placed>],
) -> Result<Items, NoMemory>
    requires { length streams.now ≤ MAX_STREAMS }
    ensures { IfOk result (λ items. items ≡ items_after from.now (vector_by judge.now) streams.now) }
{
    let room = room_of_all(streams, from);
    let mut items = Items::with_room(alloc, room, judge.vector(0).width())?;
    put_all(&mut items, from, judge, streams)?;
    Ok(items)
}

//! The reported history of committed calls.
ghost use Rattle.std.specs.Prelude.{ℕ, ◌≡◌, ◌<◌, ◌≤◌, ◌+◌, ◌==◌, ◌↔◌, IsTrue, List, [], ◌∷◌, ◌++◌, length, map, not, Option, Some, None, OnOk, IfOk, IfNone, IfSome, MatchOption, slice_index, slice_index_or, slice_set};
ghost use Rattle.std.specs.List.{All, filter};
ghost use Rattle.std.specs.Vec.{vec_items};
ghost use Rattle.std.specs.VecDeque.{deque_items};
ghost use Rattle.tau_base.specs.Vectors.{AtMost};
ghost use Rattle.tau_model.specs.Reported.{ascending, each, emitted, in_stream, next_start, take_record};
ghost use Rattle.tau_model.specs.Committed.{IsSpotWithin, IsWithin, has_record, place_of, reported_numbers};
ghost use Rattle.tau_model.specs.Listing.{AreListed, AreQueues, IsListing, bucket, AreRising, IsListed, IsNext, covered_by, entry_number, entry_of, entry_place, entry_start, first_passes, slot_of, woven};

use crate::committed::Spot;
use crate::committed_list::CommittedList;
use crate::entry::Entry;
use std::alloc::Global;
use std::collections::VecDeque;
use tau_base::{Lv, NoMemory};

/// The records in the order in which they are listed.
#[derive(Drop)]
struct Listing {
    numbers: Vec<u64>,
    /// What is emitted before each of them, and after the last.
    reached: Vec<Lv>,
}

/// The numbers of committed calls, given in any order, in the order of their reported history. `ends` has the ends of the streams.
pub fn reported(alloc: Global, ends: &Lv, list: &CommittedList) -> Result<Vec<u64>, NoMemory>
    requires { All (IsWithin ends.now) list.now.items }
    ensures { IfOk result (λ numbers. numbers.items ≡ reported_numbers ends.now list.now.items) }
{
    let readers = readers_of(alloc, list)?;
    let mut streams = streams_of(alloc, ends.width(), list)?;
    if readers.is_empty() {
        return numbers_of(alloc, ends, &mut streams);
    }
    let listing = listing_of(alloc, ends, &mut streams)?;
    let buckets = buckets_of(alloc, &listing.reached, &readers)?;
    weave(alloc, &buckets, &listing.numbers)
}

/// Whether the record of each of these calls is in a stream with one of these ends, and starts at or before it.
pub fn are_within(ends: &Lv, list: &CommittedList) -> bool
    ensures { IsTrue result ↔ All (IsWithin ends.now) list.now.items }
{
    for i in 0..list.len() {
        let call = list.at(i);
        if !is_within(ends, call.spot()) {
            return false;
        }
    }
    true
}

/// The same of the place of one record.
fn is_within(ends: &Lv, spot: Option<Spot>) -> bool
    ensures { IsTrue result ↔ IsSpotWithin ends.now spot }
{
    match spot {
        Some(spot) => {
            let stream = usize::from(spot.stream);
            stream < ends.width() && spot.start <= ends.get(stream)
        }
        None => true,
    }
}

/// Puts the entries in ascending order of their numbers; those with one number keep their order.
fn sort_by_number(entries: &mut Vec<Entry<'_>>) -> Result<(), NoMemory>
    ensures { OnOk result (entries.new.items ≡ ascending entry_number entries.old.items) }
{
    entries.sort_by_key(|entry| entry.number())?;
    Ok(())
}

/// Puts the entries in ascending order of their starts; those with one start keep their order.
fn sort_by_start(entries: &mut Vec<Entry<'_>>) -> Result<(), NoMemory>
    ensures { OnOk result (entries.new.items ≡ ascending entry_start entries.old.items) }
{
    entries.sort_by_key(|entry| entry.start())?;
    Ok(())
}

/// The read-only calls in ascending order of their numbers.
fn readers_of<'a>(alloc: Global, list: &'a CommittedList) -> Result<Vec<Entry<'a>>, NoMemory>
    ensures { IfOk result (λ readers. readers.items ≡ ascending entry_number (map entry_of (filter (λ c. not (has_record c)) list.now.items))) }
{
    let mut readers = Vec::new(alloc);
    for i in 0..list.len() {
        let call = list.at(i);
        if call.spot().is_none() {
            readers.push(Entry::of(&call, 0))?;
        }
    }
    sort_by_number(&mut readers)?;
    Ok(readers)
}

/// The records of a stream in the order of their starts.
fn records_of<'a>(
    alloc: Global,
    stream: usize,
    list: &'a CommittedList,
) -> Result<Vec<Entry<'a>>, NoMemory>
    ensures { IfOk result (λ records. records.items ≡ ascending entry_start (map entry_of (filter (in_stream place_of has_record stream) list.now.items))) }
{
    let mut records = Vec::new(alloc);
    for i in 0..list.len() {
        let call = list.at(i);
        if let Some(spot) = call.spot()
            && usize::from(spot.stream) == stream
        {
            let entry = Entry::of(&call, spot.start);
            records.push(entry)?;
        }
    }
    sort_by_start(&mut records)?;
    Ok(records)
}

/// The records of `count` streams.
fn streams_of<'a>(
    alloc: Global,
    count: usize,
    list: &'a CommittedList,
) -> Result<Vec<VecDeque<Entry<'a>>>, NoMemory>
    ensures { IfOk result (λ streams. map deque_items streams.items ≡ each count (λ j. ascending entry_start (map entry_of (filter (in_stream place_of has_record j) list.now.items)))) }
{
    let mut streams = Vec::new(alloc);
    for j in 0..count {
        let records = VecDeque::from(records_of(alloc, j, list)?);
        streams.push(records)?;
    }
    Ok(streams)
}

/// Where the next record of a stream starts, or the stream ends.
fn next_start(stream: &VecDeque<Entry<'_>>, end: u64) -> u64
    ensures { result ≡ next_start entry_place stream.now.items end }
{
    match stream.front() {
        Some(entry) => entry.start(),
        None => end,
    }
}

/// What is emitted where nothing is listed.
fn emitted_first(ends: &Lv, streams: &[VecDeque<Entry<'_>>]) -> Lv
    requires { AreQueues ends.now (map deque_items streams.now) }
    ensures { result ≡ emitted entry_place (map deque_items streams.now) ends.now }
{
    let mut emitted = *ends;
    for (j, stream) in streams.iter().enumerate() {
        emitted.set(j, next_start(stream, ends.get(j)));
    }
    emitted
}

/// Whether the stream has a next record, and it is covered.
fn is_next_covered(stream: &VecDeque<Entry<'_>>, reach: &Lv) -> bool
    ensures { result ≡ first_passes (covered_by reach.now) stream.now.items }
{
    match stream.front() {
        Some(entry) => reach.covers_all(entry.dep()),
        None => false,
    }
}

/// The lowest stream whose next record is covered.
fn next_stream(streams: &[VecDeque<Entry<'_>>], reach: &Lv) -> Option<usize>
    ensures { MatchOption result (take_record (covered_by reach.now) (map deque_items streams.now) ≡ None) (IsNext reach.now (map deque_items streams.now)) }
{
    for (j, stream) in streams.iter().enumerate() {
        if is_next_covered(stream, reach) {
            return Some(j);
        }
    }
    None
}

/// Lists the next record, where one is covered, and raises `reach`, what is emitted. The answer is its number.
fn list_next(ends: &Lv, streams: &mut [VecDeque<Entry<'_>>], reach: &mut Lv) -> Option<u64>
    requires queues { AreQueues ends.now (map deque_items streams.old) }
    requires reached { reach.old ≡ emitted entry_place (map deque_items streams.old) ends.now }
    ensures none { IfNone result (take_record (covered_by reach.old) (map deque_items streams.old) ≡ None) }
    ensures next { IfSome result (IsListed ends.now (map deque_items streams.old) (map deque_items streams.new) reach.old reach.new) }
{
    let j = next_stream(streams, reach)?;
    let stream = &mut streams[j];
    let Some(entry) = stream.pop_front() else {
        return None;
    };
    reach.set(j, next_start(stream, ends.get(j)));
    Some(entry.number())
}

/// The numbers of the records as they are listed, as long as one is covered.
fn numbers_of(
    alloc: Global,
    ends: &Lv,
    streams: &mut [VecDeque<Entry<'_>>],
) -> Result<Vec<u64>, NoMemory>
    requires { AreQueues ends.now (map deque_items streams.old) }
    ensures { IfOk result (λ numbers. AreListed ends.now (map deque_items streams.old) numbers.items) }
{
    let mut numbers = Vec::new(alloc);
    let mut reach = emitted_first(ends, streams);
    while let Some(number) = list_next(ends, streams, &mut reach) {
        numbers.push(number)?;
    }
    Ok(numbers)
}

/// Lists the records, as long as one is covered.
fn listing_of(
    alloc: Global,
    ends: &Lv,
    streams: &mut [VecDeque<Entry<'_>>],
) -> Result<Listing, NoMemory>
    requires { AreQueues ends.now (map deque_items streams.old) }
    ensures { IfOk result (λ l. IsListing ends.now (map deque_items streams.old) l.reached.items l.numbers.items) }
{
    let mut numbers = Vec::new(alloc);
    let mut reached = Vec::new(alloc);
    let mut reach = emitted_first(ends, streams);
    reached.push(reach)?;
    while let Some(number) = list_next(ends, streams, &mut reach) {
        numbers.push(number)?;
        reached.push(reach)?;
    }
    Ok(Listing { numbers, reached })
}

/// The first of these vectors that covers the dep, or their count.
fn slot_of(reached: &[Lv], dep: &[u64]) -> usize
    requires { AreRising reached.now }
    ensures { result ≡ slot_of reached.now dep.now }
{
    let mut low = 0;
    let mut high = reached.len();
    while low < high {
        let middle = low + (high - low) / 2;
        if reached[middle].covers_all(dep) {
            high = middle;
        } else {
            low = middle + 1;
        }
    }
    low
}

/// So many empty buckets.
fn empty_buckets(alloc: Global, count: usize) -> Result<Vec<Vec<u64>>, NoMemory>
    ensures { IfOk result (λ buckets. map vec_items buckets.items ≡ each count (λ k. [])) }
{
    let mut buckets = Vec::new(alloc);
    for _ in 0..count {
        buckets.push(Vec::new(alloc))?;
    }
    Ok(buckets)
}

/// Puts a number at the end of a bucket, where there is one with this place.
fn put(buckets: &mut Vec<Vec<u64>>, slot: usize, number: u64) -> Result<(), NoMemory>
    ensures { OnOk result (map vec_items buckets.new.items ≡ slice_set (map vec_items buckets.old.items) slot (slice_index_or (map vec_items buckets.old.items) slot [] ++ number ∷ [])) }
{
    if slot >= buckets.len() {
        return Ok(());
    }
    let bucket = &mut buckets[slot];
    bucket.push(number)?;
    Ok(())
}

/// For each vector the numbers of the read-only calls that it covers first.
fn buckets_of(
    alloc: Global,
    reached: &[Lv],
    readers: &[Entry<'_>],
) -> Result<Vec<Vec<u64>>, NoMemory>
    requires { AreRising reached.now }
    ensures { IfOk result (λ buckets. map vec_items buckets.items ≡ each (length reached.now) (bucket reached.now readers.now)) }
{
    let mut buckets = empty_buckets(alloc, reached.len())?;
    for entry in readers {
        put(&mut buckets, slot_of(reached, entry.dep()), entry.number())?;
    }
    Ok(buckets)
}

/// Each bucket, and after each but the last the next record.
fn weave(alloc: Global, buckets: &[Vec<u64>], numbers: &[u64]) -> Result<Vec<u64>, NoMemory>
    requires { length buckets.now ≡ length numbers.now + 1 }
    ensures { IfOk result (λ out. out.items ≡ woven (map vec_items buckets.now) numbers.now) }
{
    let mut out = Vec::new(alloc);
    for (k, number) in numbers.iter().enumerate() {
        out.extend_from_slice(&buckets[k])?;
        out.push(*number)?;
    }
    out.extend_from_slice(&buckets[numbers.len()])?;
    Ok(out)
}

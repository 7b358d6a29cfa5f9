//! The log of all streams.
ghost use Rattle.std.specs.Prelude.{◌≡◌, ◌≤◌, length, take, Some, None, nat_lt, if◌then◌else◌, slice_index};
ghost use Rattle.tau_base.specs.Vectors.{covers};
ghost use Rattle.tau_record.specs.Record.{epoch_after};
ghost use Rattle.tau_record.specs.Content.{last_epoch};
ghost use Rattle.tau_epoch.specs.Epochs.{least_above};
ghost use Rattle.tau_scan.specs.Epochs.{mark_of, marks_in, marks_from, judge_of, smaller, least_number, is_below};
ghost use Rattle.tau_scan.specs.Taken.{is_taken_by, is_taken_at};

use crate::epochs::first_vector;
use tau_base::{Listed, Lv};
use tau_record::{Entry, Placed};
use tau_text::Declarations;

/// What the streams hold together.
#[derive(Debug, Drop)]
pub struct Log {
    /// The end-of-log vector: the lengths of the contents.
    pub elv: Lv,
    /// The declared tables and procedures; none where no stream has a catalogue.
    pub declarations: Declarations,
    /// The records of each stream, in order of their places.
    pub streams: Listed<Listed<Placed>>,
}

impl Log {
    /// Whether recovery takes the record at this index of the stream: a data or command record whose vector the
    /// judging vector of its epoch covers. It looks through the whole log for it; `Judge` serves who asks often.
    pub fn taken(&self, stream: u8, index: usize) -> bool
        ensures { result ≡ is_taken_at self.now stream index }
    {
        match self.streams.as_slice().get(usize::from(stream)) {
            None => false,
            Some(records) => match records.as_slice().get(index) {
                None => false,
                Some(placed) => {
                    let number = last_epoch(records.as_slice(), index);
                    self.takes(number, &placed.entry)
                }
            },
        }
    }

    /// Whether recovery takes a record of the epoch with this number.
    fn takes(&self, number: u32, entry: &Entry) -> bool
        ensures { result ≡ is_taken_by (judge_of self.now number) entry.now }
    {
        match entry {
            Entry::Written { dep, .. } => self.covers(number, dep.as_slice()),
            Entry::Command { dep, .. } => self.covers(number, dep.as_slice()),
            Entry::Anchor { .. } => false,
            Entry::Catalogue { .. } => false,
            Entry::Epoch { .. } => false,
        }
    }

    /// Whether the judging vector of the epoch with this number covers these positions.
    fn covers(&self, number: u32, dep: &[u64]) -> bool
        ensures { result ≡ covers (judge_of self.now number) dep.now }
    {
        self.elv.covers_all(dep) && is_below(self.streams.as_slice(), number, dep)
    }
}

/// The number of the epoch after a record.
fn epoch_after(number: u32, entry: &Entry) -> u32
    ensures { result ≡ epoch_after number entry.now }
{
    match entry {
        Entry::Written { .. } => number,
        Entry::Command { .. } => number,
        Entry::Anchor { .. } => number,
        Entry::Catalogue { .. } => number,
        Entry::Epoch { number: next, .. } => *next,
    }
}

/// The number of the epoch of the record at this index of its stream.
fn last_epoch(records: &[Placed], index: usize) -> u32
    requires { index ≤ length records.now }
    ensures { result ≡ last_epoch 0 (take index records.now) }
{
    let mut number = 0;
    for i in 0..index {
        number = epoch_after(number, &records[i].entry);
    }
    number
}

/// The smallest number above this one, of that of the record, if it is a mark, and of `least`.
fn least_at(entry: &Entry, above: u32, least: Option<u32>) -> Option<u32>
    ensures { result ≡ least_number above (mark_of entry.now) least }
{
    match entry {
        Entry::Written { .. } => least,
        Entry::Command { .. } => least,
        Entry::Anchor { .. } => least,
        Entry::Catalogue { .. } => least,
        Entry::Epoch { number, .. } => least_of(*number, above, least),
    }
}

/// The smallest number above this one, of two.
fn least_of(number: u32, above: u32, least: Option<u32>) -> Option<u32>
    ensures { result ≡ (if nat_lt above number then Some (smaller number least) else least) }
{
    if number <= above {
        return least;
    }
    match least {
        None => Some(number),
        Some(other) => Some(number.min(other)),
    }
}

/// The smallest number above this one, of those of the marks of a stream and of `least`.
fn least_in(records: &[Placed], above: u32, least: Option<u32>) -> Option<u32>
    ensures { result ≡ least_number above (marks_in records.now) least }
{
    let mut found = least;
    for i in (0..records.len()).rev() {
        found = least_at(&records[i].entry, above, found);
    }
    found
}

/// The smallest number above this one of the marks of all streams.
fn least_from(streams: &[Listed<Placed>], above: u32) -> Option<u32>
    ensures { result ≡ least_number above (marks_from streams.now) None }
{
    let mut found = None;
    for j in (0..streams.len()).rev() {
        found = least_in(streams[j].as_slice(), above, found);
    }
    found
}

/// The position in stream `j`. Beyond its end a vector has zeros.
fn position(positions: &[u64], j: usize) -> u64
    ensures { result ≡ slice_index positions.now j }
{
    match positions.get(j) {
        Some(position) => *position,
        None => 0,
    }
}

/// Whether each position is at least that of another vector.
fn covers(positions: &[u64], dep: &[u64]) -> bool
    ensures { result ≡ covers positions.now dep.now }
{
    for j in 0..dep.len() {
        let at = dep[j];
        if at > position(positions, j) {
            return false;
        }
    }
    true
}

/// Whether the vector of the least epoch above this number covers these positions, if there is one.
fn is_below(streams: &[Listed<Placed>], number: u32, dep: &[u64]) -> bool
    ensures { result ≡ is_below dep.now (least_above number (marks_from streams.now)) }
{
    match least_from(streams, number) {
        None => true,
        Some(above) => match first_vector(streams, above) {
            None => true,
            Some(positions) => covers(positions, dep),
        },
    }
}

//! Committed calls.
use tau_base::Lv;
use tau_proc::Reply;

/// The place of a record.
#[derive(Clone, Copy, Debug, PartialEq, Eq)]
pub struct Spot {
    /// Its stream.
    pub stream: u8,
    /// Where it starts in its stream.
    pub start: u64,
    /// Where it ends.
    pub past: u64,
    /// The number of the anchor that it names, 0 for none.
    pub anchor: u32,
}

/// A call that has committed.
#[derive(Debug, Drop, PartialEq, Eq)]
pub struct Committed {
    /// Its number, from 1 in order of the workload.
    pub number: u64,
    /// What it replied.
    pub reply: Reply,
    /// Its vector before its record had its place.
    pub dep: Lv,
    /// Its vector: `dep`, with the component of its stream at the end of its record.
    pub lv: Lv,
    /// The place of its record; none for a read-only call.
    pub spot: Option<Spot>,
}

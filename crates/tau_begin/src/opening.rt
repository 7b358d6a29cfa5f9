//! The state in which a run begins.
ghost use Rattle.std.specs.Prelude.{◌≡◌, ◌≤◌, ◌<◌, ◌+◌, ◌^◌, ℕ, List, [], length, map, slice_get, Some};
ghost use Rattle.tau_base.specs.declared.limits.TheConstants.{MAX_STREAMS};
ghost use Rattle.tau_record.specs.declared.entry.Placed.{Placed as OneRecord};
ghost use Rattle.tau_record.specs.Content.{anchors_of};
ghost use Rattle.tau_open.specs.declared.start.StreamStart.{StreamStart as OneStart};
ghost use Rattle.tau_open.specs.Reopening.{AreStreamStarts, started};
ghost use Rattle.tau_begin.specs.Starts.{IsOpeningOn};

use arrayvec::ArrayVec;
use tau_base::{Listed, Lv, MAX_STREAMS};
use tau_core::Opening;
use tau_model::Tables;
use tau_open::StreamStart;
use tau_record::Placed;
use tau_scan::{Log, count_anchors};

/// Where a stream ends once it has started.
fn end_of(start: &StreamStart) -> u64
    requires { (length start.now.content.bytes ≤ 2 ^ 60) × (length start.now.body ≤ 2 ^ 32) }
    ensures same { result ≡ length (started start.now) }
    ensures low { result < 2 ^ 62 }
{
    start.content.bytes.len() as u64 + start.body.len() as u64
}

/// Where each stream ends once it has started.
fn ends_of(starts: &[StreamStart]) -> Lv
    requires low { 1 ≤ length starts.now }
    requires high { length starts.now ≤ MAX_STREAMS }
    requires sound { AreStreamStarts starts.now }
    ensures { result ≡ map (λ (p : OneStart). length (started p)) starts.now }
{
    let mut ends = Lv::zero(starts.len());
    for j in 0..starts.len() {
        ends.set(j, end_of(&starts[j]));
    }
    ends
}

/// How many anchors each stream has.
fn anchors_of(streams: &[Listed<Placed>]) -> ArrayVec<u32, MAX_STREAMS>
    requires few { length streams.now ≤ MAX_STREAMS }
    requires low { (j : ℕ) (ps : List OneRecord) → slice_get streams.now j ≡ Some ps → length (anchors_of ps) < 2 ^ 32 }
    ensures { result.items ≡ map (λ ps. length (anchors_of ps)) streams.now }
{
    let mut anchors = ArrayVec::new();
    for j in 0..streams.len() {
        anchors.push(count_anchors(streams[j].as_slice()) as u32);
    }
    anchors
}

/// The state in which a run begins on this log, with the rows of redoing it and with what each stream starts with.
pub fn opening_of(rows: Tables, log: &Log, starts: &[StreamStart]) -> Opening
    requires low { 1 ≤ length starts.now }
    requires high { length starts.now ≤ MAX_STREAMS }
    requires sound { AreStreamStarts starts.now }
    requires few { length log.now.streams ≤ MAX_STREAMS }
    requires anchors { (j : ℕ) (ps : List OneRecord) → slice_get log.now.streams j ≡ Some ps → length (anchors_of ps) < 2 ^ 32 }
    ensures is { IsOpeningOn log.now starts.now result }
    ensures rows { result.rows ≡ rows }
{
    Opening {
        rows,
        floor: log.elv,
        ends: ends_of(starts),
        anchors: anchors_of(log.streams.as_slice()),
    }
}

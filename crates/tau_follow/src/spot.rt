//! Where a record stands among those of all streams.
ghost use Rattle.std.specs.Prelude.{◌≡◌, ◌<◌, List, Some, slice_get, IfSome};
ghost use Rattle.tau_record.specs.declared.entry.Placed.{Placed as OnePlaced};

use tau_base::Listed;
use tau_record::{Entry, Placed};

/// Where a record stands: its stream, and its index there.
#[derive(Clone, Copy, Debug)]
pub struct Spot {
    /// The stream.
    pub stream: usize,
    /// The index.
    pub index: usize,
}

/// The record at a spot.
pub fn entry_at(streams: &[Listed<Placed>], spot: Spot) -> Option<&Entry>
    ensures { IfSome result (λ entry. (ps : List OnePlaced) × (p : OnePlaced) × (slice_get streams.now spot.stream ≡ Some ps) × (slice_get ps spot.index ≡ Some p) × (entry.now ≡ p.entry)) }
{
    match streams.get(spot.stream) {
        None => None,
        Some(records) => match records.as_slice().get(spot.index) {
            None => None,
            Some(placed) => Some(&placed.entry),
        },
    }
}

//! What holds of every disk that was opened for a run.
ghost use Rattle.tau_begin.specs.Barrier.{OpeningHasBarrier};

use tau_disk::Disk;

/// Each disk has a barrier: what a stop might have left since the entry is what it left then, or is of a moment since the
/// barrier, and since then a stop leaves the old content or that with what the stream is given.
pub fn opening_has_barrier<D: Disk>()
    ensures { OpeningHasBarrier ⟦<D as Disk>⟧ }
{}

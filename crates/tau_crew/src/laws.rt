//! What holds of each manager and each optimistic worker, as functions that do nothing.
ghost use Rattle.tau_core.specs.State.{Plain};
ghost use Rattle.tau_crew.specs.PeekedCalls.{PeekedIsCommitted};
ghost use Rattle.tau_crew.specs.Jobs.{StoredStays, TurnsAreEntries};

use tau_disk::Disk;

/// What a manager has stored stays stored: from the flush of a position on, every image of its disk has at least so much, and some no more.
pub fn stored_stays<D: Disk>()
    ensures entry { TurnsAreEntries ⟦<D as Disk>⟧ }
    ensures kept { StoredStays ⟦<D as Disk>⟧ }
{}

/// What an optimistic worker commits is what its call came to on the values that it peeked: each step keeps what it has peeked
/// fitting to its call, and a call that has all its values has seen, under its locks, just what was peeked.
pub fn commits_what_it_peeked()
    ensures { (origin : Plain) → PeekedIsCommitted origin }
{}

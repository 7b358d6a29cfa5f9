//! What holds of each run in threads, as functions that do nothing.
ghost use Rattle.tau_crew_facts.specs.Laws.{AnchorsKeepApart, ClosedDesksEnd, EndsAreRuns, EntriesMove, StoredIsKept, WorkersKeepCalls};

use tau_disk::Disk;

/// Anchors that are placed after each flush that makes them due, as long as the stream may have one more, stand in their
/// distance, wherever the flushes end.
pub fn anchors_keep_apart()
    ensures { AnchorsKeepApart }
{}

/// No event loses a call of a worker but one by which this worker gives it up.
pub fn workers_keep_calls()
    ensures { WorkersKeepCalls }
{}

/// What a manager has stored stays stored: from then on every image of its disk has at least so much.
pub fn stored_is_kept<D: Disk>()
    ensures entry { EntriesMove ⟦<D as Disk>⟧ }
    ensures kept { StoredIsKept ⟦<D as Disk>⟧ }
{}

/// A desk that closes ends a run, with what the loops know of their own at their ends.
pub fn closed_desks_end<D: Disk>()
    ensures { ClosedDesksEnd ⟦<D as Disk>⟧ }
{}

/// And that is a run of the core, by events in any order.
pub fn ends_are_runs<D: Disk>()
    ensures { EndsAreRuns ⟦<D as Disk>⟧ }
{}

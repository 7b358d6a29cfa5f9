//! What the calls of a core come to for an optimistic worker, and how runs end, as functions that do nothing.
ghost use Rattle.tau_step.specs.Optimists.{PeeksAreTurns, LocksAreTurns};
ghost use Rattle.tau_step.specs.RunsEnd.{WholeRunsEnd};

/// A value that is peeked, of the key that the call wants on what was peeked before, is a turn of its own.
pub fn peeks_are_turns()
    ensures { PeeksAreTurns }
{}

/// Where the call has ended on what was peeked, a lock, a Busy and a retry are turns.
pub fn locks_are_turns()
    ensures { LocksAreTurns }
{}

/// A whole run in either style ends with all done that could be done.
pub fn whole_runs_end()
    ensures { WholeRunsEnd }
{}

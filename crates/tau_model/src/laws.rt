//! The theorems on histories, as functions that do nothing.
ghost use Rattle.tau_model.specs.Theorems.{SameConflicts, ClosedPart, CutClosed, OrderlyRedo, CoveredHeld, ReportedHistory, CutReported};

/// Orders of the same calls that have all conflicting pairs alike do the same.
pub fn same_conflicts()
    ensures { SameConflicts }
{}

/// A closed set of calls does by itself what it does in the whole.
pub fn closed_part()
    ensures { ClosedPart }
{}

/// What a cut of the streams holds is closed.
pub fn cut_closed()
    ensures { CutClosed }
{}

/// Every orderly order of the records that a cut holds redoes to the database of executing just their calls, and one exists.
pub fn orderly_redo()
    ensures { OrderlyRedo }
{}

/// A cut that covers the vector of a call holds its record, and the record of every updating call on which it depends.
pub fn covered_held()
    ensures { CoveredHeld }
{}

/// The reported history lists each committed call once, does what the commit order did, and keeps the order of each stream.
pub fn reported_history()
    ensures { ReportedHistory }
{}

/// What a cut holds is closed in the reported history too, and does the same there.
pub fn cut_reported()
    ensures { CutReported }
{}

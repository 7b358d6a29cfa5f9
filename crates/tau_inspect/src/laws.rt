//! What an audit rests on, as functions that do nothing.
ghost use Rattle.tau_inspect.specs.Taint.{TaintIsDependence};
ghost use Rattle.tau_inspect.specs.Inspection.{UncoveredIsLowest};
ghost use Rattle.tau_inspect.specs.Audit.{OneVerdict, VerdictsMean};
ghost use Rattle.tau_inspect.specs.RunText.{NamesAreKnown, OneFirstBad, OneReport};

/// Marks that are carried along a history tell of each call whether it depends on an updating call that is not taken.
pub fn taint_is_dependence()
    ensures { TaintIsDependence }
{}

/// An inspection tells a record as taken exactly if its judging vector covers it, and else the lowest component that it
/// does not cover.
pub fn uncovered_is_lowest()
    ensures { UncoveredIsLowest }
{}

/// A yes says that the order is the reported history of its calls, that what recovery takes is closed in it, and that the
/// replies and rows are those of executing it; a cut says the last two.
pub fn verdicts_mean()
    ensures { VerdictsMean }
{}

/// A case has one verdict.
pub fn one_verdict()
    ensures { OneVerdict }
{}

/// A text is that of one report with one end: what a run writes is read back as it was.
pub fn one_report()
    ensures { OneReport }
{}

/// A text has at most one first bad line.
pub fn one_first_bad()
    ensures { OneFirstBad }
{}

/// The tables of a workload that was read have names that tell them apart.
pub fn names_are_known()
    ensures { NamesAreKnown }
{}

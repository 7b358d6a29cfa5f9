//! What holds of every core, after every list of events, as functions that do nothing.
ghost use Rattle.tau_core.specs.Laws.{DependenceLaw, RowsLaw, ReportedLaw, NumbersLaw, CutsLaw, SpellingLaw, AcknowledgedLaw, LightLaw, CommittedLaw};

/// Where two committed calls conflict, the later one's vector covers that of the earlier one, in the commit order and in the reported history.
pub fn dependence_is_covered()
    ensures { DependenceLaw }
{}

/// Rows and replies are those of executing the committed calls in the commit order.
pub fn rows_are_of_the_commit_order()
    ensures { RowsLaw }
{}

/// The reported history lists each committed call once, orders conflicting calls as the commit order does, and has the same replies and rows.
pub fn rows_are_of_the_reported_history()
    ensures { ReportedLaw }
{}

/// The numbers that are reported of the committed calls are those of the reported history.
pub fn numbers_are_of_the_reported_history()
    ensures { NumbersLaw }
{}

/// Every cut of the streams is closed; an orderly order of it exists, and each redoes to the execution of just its calls.
pub fn cuts_are_closed()
    ensures { CutsLaw }
{}

/// The bytes that were gathered are the spelling of the stream.
pub fn gathered_bytes_spell_the_stream()
    ensures { SpellingLaw }
{}

/// Whatever stops leave holds each acknowledged update, and the updates on which an acknowledged call depends.
pub fn acknowledged_calls_survive()
    ensures { AcknowledgedLaw }
{}

/// A vector exceeds the persisted positions only by records of calls on which its call depends.
pub fn vectors_stay_light()
    ensures { LightLaw }
{}

/// The committed calls are calls of the run, each once; those of a worker are in hand, pending or acknowledged.
pub fn committed_calls_are_of_the_run()
    ensures { CommittedLaw }
{}

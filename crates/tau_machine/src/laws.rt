//! The theorems on runs of the core, as functions that do nothing.
ghost use Rattle.tau_machine.specs.Above.{AboveTheorem};
ghost use Rattle.tau_machine.specs.Theorems.{KeptTheorem, RunTheorem, GoesOnTheorem, LetGoTheorem, OrderTheorem, RowsTheorem, ReportedTheorem, NumbersTheorem, CutsTheorem, StreamsTheorem, AcknowledgedTheorem, ContentsTheorem, LightTheorem, CommittedTheorem, EndedTheorem, OwnRowTheorem, PostedTheorem, ExampleTheorem};

/// Each event keeps the invariant, where the calls that commit by it join the commit order.
pub fn kept()
    ensures { KeptTheorem }
{}

/// The invariant holds after every list of events from an opening state.
pub fn run()
    ensures { RunTheorem }
{}

/// A run begins with no event, and goes on by one event more.
pub fn goes_on()
    ensures { GoesOnTheorem }
{}

/// A call that has not committed and holds no key may be let go: the invariant stays.
pub fn let_go()
    ensures { LetGoTheorem }
{}

/// Where two committed calls conflict, the later one's vector covers that of the earlier one, in the commit order and in the reported history.
pub fn order()
    ensures { OrderTheorem }
{}

/// Rows and replies are those of executing the calls in the commit order.
pub fn rows()
    ensures { RowsTheorem }
{}

/// The reported history lists each committed call once, orders conflicting calls as the commit order does, and gives the same replies and rows.
pub fn reported()
    ensures { ReportedTheorem }
{}

/// The numbers that are reported of what is kept of the committed calls are those of the reported history.
pub fn numbers()
    ensures { NumbersTheorem }
{}

/// What a cut of the streams holds is closed; an orderly order of it exists, and every orderly order, data and command records in any mixture, redoes to the
/// database of executing just these calls.
pub fn cuts()
    ensures { CutsTheorem }
{}

/// What was gathered, and what waits after it, are the records and anchors of the stream, from the opening's end on.
pub fn streams()
    ensures { StreamsTheorem }
{}

/// The persisted positions cover an acknowledged call, and a cut that holds them holds it and every updating call on which it depends.
pub fn acknowledged()
    ensures { AcknowledgedTheorem }
{}

/// Contents that stops may leave hold what is persisted.
pub fn contents()
    ensures { ContentsTheorem }
{}

/// A vector exceeds the persisted positions only by records of calls on which the call depends in the reported history.
pub fn light()
    ensures { LightTheorem }
{}

/// Each committed call is the call of its number, of its worker, and within the streams; no two have one number; and worker after worker they are all.
pub fn committed()
    ensures { CommittedTheorem }
{}

/// A committed call that has ended is pending or acknowledged, once.
pub fn ended()
    ensures { EndedTheorem }
{}

/// Where no later call has freed a key, its row is what the last one wrote.
pub fn own_row()
    ensures { OwnRowTheorem }
{}

/// The record of a committed call is in flight, posted or gathered.
pub fn posted()
    ensures { PostedTheorem }
{}

/// All vectors that a state shows, and those of all committed calls that write, cover what the floors of the opening cover.
pub fn above()
    ensures { AboveTheorem }
{}

/// There are runs: the conditions of the events can be met together.
pub fn example()
    ensures { ExampleTheorem }
{}

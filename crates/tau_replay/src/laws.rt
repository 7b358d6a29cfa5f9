//! What holds of every recovery, as functions that do nothing.
ghost use Rattle.tau_replay.specs.Laws.{OrderlyTurns, SomeReady, RunsAgree, OneRecovery, RunsOrdersAgree, TangledAlike, TangledHasNoOrder, NothingLeftOut};

/// Whatever the turns, records that are all finished were finished in an orderly order.
pub fn orderly_turns()
    ensures { OrderlyTurns }
{}

/// While nothing is in flight, something is unstarted and an orderly order exists, some record is ready.
pub fn some_ready()
    ensures { SomeReady }
{}

/// Over the records that a cut of a history holds, every recovery gives the tables of executing just their calls.
pub fn runs_agree()
    ensures { RunsAgree }
{}

/// Where all orderly orders of the taken records give one database, recovery gives one list of rows, however many workers
/// there are and whatever their turns.
pub fn one_recovery()
    ensures { OneRecovery }
{}

/// Over the records that a cut of a history holds, all orderly orders give one database.
pub fn runs_orders_agree()
    ensures { RunsOrdersAgree }
{}

/// Where recovery gets stuck in a log is told in one way.
pub fn tangled_alike()
    ensures { TangledAlike }
{}

/// Where it gets stuck, no orderly order of the taken records exists.
pub fn tangled_has_no_order()
    ensures { TangledHasNoOrder }
{}

/// From the beginning of each stream on, what is redone is what recovery redoes.
pub fn nothing_left_out()
    ensures { NothingLeftOut }
{}

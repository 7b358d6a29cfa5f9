//! What holds of every follower, as functions that do nothing.
ghost use Rattle.tau_follow_laws.specs.Laws.{AppliedInOrder, AppliedIsLeast, OnlyTaken, NeverLate, NeverBad, AppliedIsClosed};

/// Whatever was fed, and however it was cut: what is applied stands in an orderly order.
pub fn applied_in_order()
    ensures { AppliedInOrder }
{}

/// A feed applies more, and in the end the least set that is closed.
pub fn applied_is_least()
    ensures { AppliedIsLeast }
{}

/// On contents whose epochs stand as runs leave them recovery takes what is applied, and no feed finds it too early.
pub fn only_taken()
    ensures taken { OnlyTaken }
    ensures late { NeverLate }
{}

/// On such contents no feed is bad.
pub fn never_bad()
    ensures { NeverBad }
{}

/// On such contents the applied calls are closed in the history.
pub fn applied_is_closed()
    ensures { AppliedIsClosed }
{}

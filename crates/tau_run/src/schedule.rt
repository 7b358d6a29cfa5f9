//! What holds of runs by turns as small steps, as functions that do nothing.
ghost use Rattle.tau_run.specs.ScheduleLaws.{LockingIsStill, TurnsAreARun, CommitsWhatItPeeked, EndsInLocking};

/// No worker peeks in the style Locking.
pub fn locking_is_still()
    ensures { LockingIsStill }
{}

/// A run by turns in either style is a run of the machine, in which no call is given up.
pub fn turns_are_a_run()
    ensures { TurnsAreARun }
{}

/// What an optimistic worker commits is what it has come to on the values that it peeked, which are those under its locks.
pub fn commits_what_it_peeked()
    ensures { CommitsWhatItPeeked }
{}

/// After its rounds a whole run in either style is as in the style Locking, and no worker has anything to do in between.
pub fn ends_in_locking()
    ensures { EndsInLocking }
{}

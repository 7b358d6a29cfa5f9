//! What holds of every recovery, with a checkpoint or without, and of every follower, as functions that do nothing.
ghost use Rattle.tau_commands.specs.Fed.{EndsAsRecovery, OneFollowing, OneSpelling};
ghost use Rattle.tau_commands.specs.Restoring.{RestoredOfAny, RestoresAsRecovery};
ghost use Rattle.tau_commands.specs.Same.{OneText, RunsHaveOneText};

/// Of images whose log gives one database by each of its orderly orders, recovery writes one text, however many workers
/// there are and whatever their turns.
pub fn one_text()
    ensures { OneText }
{}

/// Images that a run has left are such.
pub fn runs_have_one_text()
    ensures { RunsHaveOneText }
{}

/// What recovery with a checkpoint tells of sound contents is, after its first line, what recovery tells, if the checkpoint
/// that it takes is true for them. And whatever the slots hold, no record of sound contents is tangled.
pub fn restore_ends_as_recovery()
    ensures same { RestoresAsRecovery }
    ensures any { RestoredOfAny }
{}

/// However contents are cut into pieces, a follower that was fed all of them ends as recovery does over images of them.
pub fn follower_ends_as_recovery()
    ensures { EndsAsRecovery }
{}

/// What a follower tells of its pieces is told in one way.
pub fn one_following()
    ensures { OneFollowing }
{}

/// The pieces of a source, and its first bad one, are told in one way.
pub fn one_spelling()
    ensures { OneSpelling }
{}

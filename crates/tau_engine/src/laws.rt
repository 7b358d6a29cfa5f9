//! What holds of every run, as a function that does nothing.
ghost use Rattle.tau_engine.specs.Committed.{CommitsWhatItPeeked};

/// By turns, what a call of an optimistic worker commits is what it had come to on the values that it peeked, which are those
/// under its locks, unless it was left over.
pub fn commits_what_it_peeked()
    ensures { CommitsWhatItPeeked }
{}

//! What holds of every log, as functions that do nothing.
ghost use Rattle.tau_scan.specs.Laws.{TakenAreListed, TakenPlain};

/// The list of a log's taken records holds just those of the places that `Log::taken` tells.
pub fn taken_are_listed()
    ensures { TakenAreListed }
{}

/// Without epochs the end-of-log vector judges every record.
pub fn taken_plain()
    ensures { TakenPlain }
{}

//! What holds of every run, as functions that do nothing.
ghost use Rattle.tau_run.specs.Laws.{TextsAreSound, RunIsThere, RunIsHistory, ContentsAreRecords, ImagesAreRecovered, AckedIsTaken, EndsWell, NothingIsLost, LivesAreSound, LivesAreRecovered, RunsMayGoOn, LivesAreOne, LeftOutForGood, LivesAreMarked, FreshMarked, FreshBegins, CallsWait, NothingBegun, ToldIsWhole};

/// A workload that a text means can be run and logged: its calls and its steps name declared tables alone, and its catalogue can be read again.
pub fn texts_are_sound()
    ensures { TextsAreSound }
{}

/// A run may begin on streams that hold nothing.
pub fn fresh_begins()
    ensures { FreshBegins }
{}

/// A run may have made nothing, whatever it begins on.
pub fn nothing_begun()
    ensures { NothingBegun }
{}

/// A core that stands has made a run.
pub fn run_is_there()
    ensures { RunIsThere }
{}

/// Each call of a run that writes waits for all that was there when the run began.
pub fn calls_wait()
    ensures { CallsWait }
{}

/// It is a history of the workload.
pub fn run_is_history()
    ensures { RunIsHistory }
{}

/// What the streams were given can be read, and is the records of the history.
pub fn contents_are_records()
    ensures { ContentsAreRecords }
{}

/// What recovery finds of images that a run has left: a closed part of its history, whose every orderly redo is its execution.
pub fn images_are_recovered()
    ensures { ImagesAreRecovered }
{}

/// Images that reach what is persisted hold what is acknowledged, and what it depends on.
pub fn acked_is_taken()
    ensures { AckedIsTaken }
{}

/// At the end of a run what is persisted is acknowledged, and a stream that was not stopped is there whole.
pub fn ends_well()
    ensures { EndsWell }
{}

/// Where no call was given up and no stream was stopped, every call is acknowledged at the end.
pub fn nothing_is_lost()
    ensures { NothingIsLost }
{}

/// A run of which the report was written is one of all its events, also if a disk failed.
pub fn told_is_whole()
    ensures { ToldIsWhole }
{}

/// After any number of runs and stops the log is sound, and its tables are those of executing the calls that are taken, run
/// after run; each stop leaves what was there and a closed part of the history of its run.
pub fn lives_are_sound()
    ensures sound { LivesAreSound }
    ensures each { LivesAreRecovered }
    ensures next { RunsMayGoOn }
    ensures one { LivesAreOne }
{}

/// What one recovery takes is taken by all later ones, and what it leaves out is left out for good.
pub fn left_out_for_good()
    ensures { LeftOutForGood }
{}

/// How the epochs stand that any number of runs and stops leave.
pub fn lives_are_marked()
    ensures kept { LivesAreMarked }
    ensures fresh { FreshMarked }
{}

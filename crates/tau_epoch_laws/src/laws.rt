//! What holds of every log that goes on from an older one, as functions that do nothing.
ghost use Rattle.tau_epoch_laws.specs.Laws.{FreshSound, GoesOn, JudgedForGood, NewsListed, OldJudged, OldListed, OldTaken, RedoneAfter, StaysSound, StepsGoOn};

/// What the old log took is taken, and what it left out is left out, whatever came after it.
pub fn old_taken()
    ensures parts { OldTaken }
    ensures each { OldJudged }
{}

/// Of what is taken, the records that start in the old log are those that it took, in their order. The others are the
/// new ones.
pub fn old_listed()
    ensures old { OldListed }
    ensures news { NewsListed }
{}

/// Empty contents hold a sound log.
pub fn fresh_sound()
    ensures { FreshSound }
{}

/// A log that goes on from a sound one is sound, if its new records wait for all of the old log and redo its database to
/// one database.
pub fn stays_sound()
    ensures { StaysSound }
{}

/// What came after a sound log is redone from the database of that one, if both together are sound.
pub fn redone_after()
    ensures { RedoneAfter }
{}

/// A log that goes on from one that goes on goes on from the first, and so does each one after any number of steps. All of
/// them judge the records of the first log alike: what is left out once is left out for good.
pub fn goes_on()
    ensures two { GoesOn }
    ensures many { StepsGoOn }
    ensures judged { JudgedForGood }
{}

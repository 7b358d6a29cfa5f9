//! What holds of every checkpoint, as functions that do nothing.
ghost use Rattle.tau_ckpt_laws.specs.Laws.{LivesKeepTrue, MadeIsTrue, NotTangled, RestoredIsRecovered, RestoredLater, TakenIsTrue, TrueFits, WritesKeepTrue};

/// What `restore` redoes of sound contents gives the rows that recovery gives, if the checkpoint that it takes is true for
/// them, or it takes none. It is true if all that the slots hold is. Whatever they hold, what is redone of a log that can be
/// redone is never tangled.
pub fn restored_is_recovered()
    ensures rows { RestoredIsRecovered }
    ensures order { NotTangled }
    ensures held { TakenIsTrue }
{}

/// A checkpoint of sound contents is true for them when it is made. Each true checkpoint fits.
pub fn made_is_true()
    ensures made { MadeIsTrue }
    ensures fits { TrueFits }
{}

/// A true checkpoint is true for whatever later runs and stops leave, and what is redone on it then is what all of them have
/// made. And whatever a stop leaves of the slot that it is written into holds nothing that is not true.
pub fn stays_true()
    ensures written { WritesKeepTrue }
    ensures kept { LivesKeepTrue }
    ensures later { RestoredLater }
{}

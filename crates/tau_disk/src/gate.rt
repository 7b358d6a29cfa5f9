// Where a test may hold the engine.

/// A place in a run at which a gate is asked.
#[derive(Clone, Copy, Debug, PartialEq, Eq)]
pub enum Place {
    /// Before a worker's first action of a call.
    Call { worker: u8 },
    /// After a record is posted.
    Commit { stream: u8 },
    /// Between the first sync of a flush and the opening of its gate byte.
    Flush { stream: u8 },
    /// Before each line that acknowledges a call.
    Ack,
    /// Between the start and the finish of a replayed record.
    Replay { worker: u8 },
}

/// Holds a thread at a place at which no lock and no part is held. It returns nothing.
pub trait Gate {
    fn at(&self, place: Place);
}

/// A gate that does nothing.
#[derive(Clone, Copy, Debug, PartialEq, Eq)]
pub struct Quiet;

impl Gate for Quiet {
    fn at(&self, _place: Place) {}
}

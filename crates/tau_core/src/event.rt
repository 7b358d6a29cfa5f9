//! Events, and what they answer.
use tau_base::{Lv, Value};
use tau_txn::ActionKind;

/// An event of the core. Each touches one part and one actor.
#[derive(Clone, Copy, Debug, PartialEq, Eq)]
pub enum Event {
    /// The worker locks the key that it wants.
    Lock {
        /// The worker.
        worker: u8,
    },
    /// The worker, after a Busy, gives its lowest key back.
    Quit {
        /// The worker.
        worker: u8,
    },
    /// The worker's call, which holds all its keys, gets the place of its record.
    Commit {
        /// The worker.
        worker: u8,
    },
    /// The record that has its place is posted.
    Post {
        /// The worker.
        worker: u8,
    },
    /// The worker frees its lowest key.
    Free {
        /// The worker.
        worker: u8,
    },
    /// The worker's call, which holds no key any more, waits for its acknowledgement.
    Done {
        /// The worker.
        worker: u8,
    },
    /// The shard drops its free entries that the persisted positions cover.
    Drop {
        /// The shard.
        shard: u8,
    },
    /// The manager gathers the posted pieces that continue its stream.
    Gather {
        /// The stream.
        stream: u8,
    },
    /// The manager places and posts an anchor that holds the persisted positions.
    Anchor {
        /// The stream.
        stream: u8,
    },
    /// What is gathered up to a position is persisted.
    Persist {
        /// The stream.
        stream: u8,
        /// The position.
        upto: u64,
    },
    /// The first pending call of the worker that is persisted is acknowledged.
    Ack {
        /// The worker.
        worker: u8,
    },
    /// The stream is cut at a position, and goes no further.
    Stop {
        /// The stream.
        stream: u8,
        /// The position.
        at: u64,
    },
}

/// What a step returns.
#[derive(Debug, Drop)]
pub enum Outcome {
    /// The event happened.
    Went,
    /// The lock is taken, and the row has this value.
    Granted(Value),
    /// Others hold the key in a conflicting mode; the call is to quit.
    Busy {
        /// The lowest of them.
        holder: u8,
    },
    /// The record has its place.
    Placed {
        /// Where it starts.
        start: u64,
    },
    /// The stream is gathered up to here.
    Gathered {
        /// The position.
        upto: u64,
    },
    /// The call is acknowledged.
    Acked {
        /// Its number.
        number: u64,
        /// Its vector.
        lv: Lv,
    },
    /// No pending call of the worker is persisted.
    NothingCovered,
    /// The event does not apply, and nothing changed.
    NotNow {
        /// Where the actor stands.
        phase: Phase,
    },
    /// Out of memory, and nothing changed.
    NoMemory,
}

/// What came of an event of a worker. It hands nothing out that is large.
#[derive(Clone, Copy, Debug, PartialEq, Eq)]
pub enum Acted {
    /// It happened.
    Went,
    /// Others hold the key in a conflicting mode; the call is to quit.
    Busy {
        /// The lowest of them.
        holder: u8,
    },
    /// The call does another thing next, and nothing changed.
    Other {
        /// What it does next.
        kind: ActionKind,
    },
    /// Out of memory, and nothing changed.
    NoMemory,
}

/// What came of a Gather.
#[derive(Clone, Copy, Debug, PartialEq, Eq)]
pub enum Gathering {
    /// The stream is gathered up to here.
    Upto {
        /// The position.
        upto: u64,
    },
    /// The stream was stopped here, and nothing changed.
    Stopped {
        /// The position.
        at: u64,
    },
    /// Out of memory, and nothing changed.
    NoMemory,
}

/// Where a worker or a stream stands. Of a worker it says what comes next.
#[derive(Clone, Copy, Debug, PartialEq, Eq)]
pub enum Phase {
    /// No call is in hand.
    Resting,
    /// A lock.
    Locking,
    /// To give a key back.
    Quitting,
    /// The place of the record.
    Ready,
    /// To post the record.
    Placed,
    /// To free a key.
    Freeing,
    /// The call has finished.
    Ended,
    /// The stream is gathered only up to here.
    Short {
        /// The position.
        gathered: u64,
    },
    /// The stream was stopped here.
    Stopped {
        /// The position.
        at: u64,
    },
}

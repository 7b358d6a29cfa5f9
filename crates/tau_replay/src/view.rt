//! What is under the lock, what a seat knows, the rule, and what each step tells.
use crate::cursors::Cursors;
use crate::turns::Replay;
use atomic_table::{Join, Play, Split, TableRule};
use std::collections::LinkedList;
use std::snapshot::Snapshot;
use tau_pool::Job;
use tau_scan::Log;

/// How many hands a worker has, and so how many records it gets at a time, at most: so many that what it costs to take the
/// lock, and to fetch what is under it from another processor, is little for each of them.
pub const RECORDS: usize = 16;

/// The hands of all sixteen workers.
pub const HANDS: usize = 256;

/// What is under the lock.
#[derive(Drop)]
pub struct Part {
    /// The recovery.
    pub replay: Replay,
    /// How far the records of each stream are started.
    pub cursors: Cursors,
    /// How many workers sleep until a record may be ready, at least.
    pub sleeping: u64,
    /// Whether memory was refused: then no record is started any more.
    pub refused: bool,
}

/// What a seat knows. No value of it is made.
pub struct View {
    /// The log that is redone.
    pub log: Log,
    /// The hands that it steps for, each with what it has in flight.
    pub hands: LinkedList<(u8, Option<Job>)>,
    /// What all hands had in flight as the seat took the part.
    pub held: Option<LinkedList<Option<Job>>>,
}

pub type Seat = atomic_table::Seat<Option<Box<Part>>, View>;

/// One recovery is under the lock, and each hand is in one view.
pub struct OneRecovery;

impl TableRule<Option<Box<Part>>, View, Snapshot<Log>> for OneRecovery {
    ghost use Rattle.tau_replay.specs.Rule.{Kept, first_view};

    ghost holds = { λ key. Kept key.value };

    ghost first = { λ key. first_view key.value };
}

pub(crate) struct Take;

impl Play<Option<Box<Part>>, View> for Take {
    ghost use Rattle.tau_replay.specs.Rule.{took};

    ghost then = { took };
}

pub(crate) struct Give;

impl Play<Option<Box<Part>>, View> for Give {
    ghost use Rattle.tau_replay.specs.Rule.{gave};

    ghost then = { gave };
}

pub(crate) struct OneHand;

impl Split<View> for OneHand {
    ghost use Rattle.tau_replay.specs.Rule.{without_first, first_alone};

    ghost left = { without_first };

    ghost right = { first_alone };
}

impl Join<View> for OneHand {
    ghost use Rattle.tau_replay.specs.Rule.{both, spent};

    ghost both = { both };

    ghost spent = { spent };
}

//! What a call does next.
use tau_base::{Key, Lv, Mode, Value};
use tau_proc::Reply;

/// What a call does next.
#[derive(Debug, Drop)]
pub enum Action {
    /// To lock a key.
    Lock {
        /// The key.
        key: Key,
        /// In which mode.
        mode: Mode,
    },
    /// To give a key back.
    Quit {
        /// The key.
        key: Key,
    },
    /// To get the place of its record.
    Commit {
        /// How many bytes the record has, 0 while there is no record.
        size: u64,
    },
    /// To post its record.
    Post,
    /// To free a key.
    Free {
        /// The key.
        key: Key,
        /// What the call wrote there.
        write: Option<Value>,
    },
    /// Nothing more: it has finished.
    Done {
        /// Its reply.
        reply: Reply,
        /// Its vector.
        lv: Lv,
    },
    /// It is left over, to be run alone later.
    LeftOver,
    /// Nothing: no call is in hand.
    Nothing,
}

/// An action without what it carries.
#[derive(Clone, Copy, Debug, PartialEq, Eq)]
pub enum ActionKind {
    /// To lock a key.
    Lock,
    /// To give a key back.
    Quit,
    /// To get the place of its record.
    Commit,
    /// To post its record.
    Post,
    /// To free a key.
    Free,
    /// Nothing more: it has finished.
    Done,
    /// It is left over, to be run alone later.
    LeftOver,
    /// Nothing: no call is in hand.
    Nothing,
}

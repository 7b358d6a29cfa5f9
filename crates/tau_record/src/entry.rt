//! Records as values.
use crate::dep::KeptLv;
use crate::writes::KeptWrites;
use tau_base::{KeptCall, Listed};

/// A record of a log stream.
#[derive(Debug, Drop)]
pub enum Entry {
    /// What a call wrote.
    Written {
        /// The call's number, from 1.
        number: u64,
        /// Which anchor of the stream its vector is written above: from 1, or 0 for the zero vector.
        anchor: u32,
        /// The call's dependence vector, without its own record.
        dep: KeptLv,
        /// 1 to 64 writes, whose keys strictly rise.
        writes: KeptWrites,
    },
    /// A call, to be executed again.
    Command {
        /// The call's number, from 1.
        number: u64,
        /// Which anchor of the stream its vector is written above: from 1, or 0 for the zero vector.
        anchor: u32,
        /// The call's dependence vector, without its own record.
        dep: KeptLv,
        /// The call.
        call: KeptCall,
    },
    /// A vector that later records of the stream may be written above.
    Anchor {
        /// The vector.
        lv: KeptLv,
    },
    /// The declarations: the first record of a stream, and no other.
    Catalogue {
        /// Their text, of at most 32,768 bytes.
        text: Listed<u8>,
    },
    /// The mark of a run that began on a log: the records after it in its stream are of its epoch.
    Epoch {
        /// Its number, from 1, above that of each earlier epoch of the stream.
        number: u32,
        /// How much of each stream the run began on.
        lv: KeptLv,
    },
}

/// A record with its place in the content of its stream.
#[derive(Debug, Drop)]
pub struct Placed {
    /// The record.
    pub entry: Entry,
    /// Where its first byte stands.
    pub start: u64,
    /// Where the next record starts.
    pub past: u64,
}

//! Commands.
use tau_base::LogMode;
use tau_disk::Tear;
use thiserror::Error;

/// How the run of a drill ends.
#[derive(Clone, Copy, Debug, PartialEq, Eq)]
pub enum Ending {
    /// The disks stop: that call and every later one fails, where the calls of all disks are counted together from 1.
    Stop {
        /// The number of the call, from 1 to 1,000,000.
        after: u32,
        /// What the stop leaves.
        tear: Tear,
    },
    /// One call of one disk fails.
    Fail {
        /// The disk's number.
        stream: u8,
        /// The number of its call, from 1 to 1,000,000.
        call: u32,
    },
}

/// What a command line asks for.
#[derive(Clone, Copy, Debug, PartialEq, Eq)]
pub enum Command {
    /// Runs the workload of the source.
    Run {
        /// Streams, 1 to 16; 1 to 32 of a wide mode.
        n: u8,
        /// Workers, 1 to 16; 1 to 32 of a wide mode.
        m: u8,
        /// What the records hold, and in which format.
        mode: LogMode,
        /// Whether workers execute a call before they lock its keys.
        optimistic: bool,
    },
    /// Recovers from the disks.
    Recover {
        /// Streams, 1 to 32.
        n: u8,
        /// Recovery workers, 1 to 16.
        p: u8,
    },
    /// Runs the workload of the source on memory disks that fail, and recovers from what they leave.
    Drill {
        /// Streams, 1 to 16.
        n: u8,
        /// Workers, 1 to 16.
        m: u8,
        /// Recovery workers, 1 to 16.
        p: u8,
        /// How the run ends.
        ending: Ending,
    },
    /// Runs a generated workload on memory disks, and recovers from them.
    Bench {
        /// Where the rows begin, 0 to 999.
        start: u16,
        /// Calls, 0 to 200,000.
        calls: u32,
        /// Streams, 1 to 16.
        n: u8,
        /// Workers, 1 to 16.
        m: u8,
    },
    /// Recovers from the disks, and writes what it finds into a checkpoint's slot.
    Checkpoint {
        /// Streams, 1 to 32.
        n: u8,
        /// Recovery workers, 1 to 16.
        p: u8,
    },
    /// Recovers from the disks and the better checkpoint.
    Restore {
        /// Streams, 1 to 32.
        n: u8,
        /// Recovery workers, 1 to 16.
        p: u8,
    },
    /// Follows the pieces of contents that the source has.
    Follow {
        /// Streams, 1 to 32.
        n: u8,
    },
    /// Tells what the disks hold, record by record.
    Inspect {
        /// Streams, 1 to 32.
        n: u8,
    },
    /// Judges a report of the source against what the disks hold.
    Audit {
        /// Streams, 1 to 32.
        n: u8,
        /// Workers, 1 to 32.
        m: u8,
    },
}

/// Why words were not read.
#[derive(Clone, Copy, Debug, PartialEq, Eq, Error)]
pub enum WordsRefusal {
    /// Out of memory.
    #[error("out of memory")]
    NoMemory,
    /// The words are no command.
    #[error("these words are no command")]
    Usage,
}

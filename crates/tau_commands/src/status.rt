//! The status of a call, and the causes that it names.
ghost use Rattle.std.specs.Prelude.{◌≡◌};
ghost use Rattle.tau_commands.specs.Fault.{code_of};

use tau_scan::LogFault;
use tau_text::TextCause;

/// How a command ended.
#[derive(Clone, Copy, Debug, PartialEq, Eq)]
pub enum Status {
    /// It did its work, and its whole report was written.
    Ok,
    /// Out of memory.
    NoMemory,
    /// The words are no command.
    Usage,
    /// The text is no workload.
    BadText {
        /// Its first bad line, from 1.
        line: u32,
        /// Why that line is none.
        cause: TextCause,
    },
    /// The source failed.
    ReadFault,
    /// The sink failed.
    WriteFault,
    /// A disk failed.
    DiskFault {
        /// The stream of that disk.
        stream: u8,
    },
    /// The images hold no log, or one that a run cannot go on from.
    BadLog(LogFault),
    /// The text has more than 16,777,216 bytes.
    TooLong,
    /// The source is no list of pieces of streams.
    BadFeed {
        /// The byte of the source at which the first bad piece starts.
        at: u64,
    },
    /// The text after the workload is no report of a run.
    BadReport {
        /// Its first bad line, from 1; 0 if no line tells where it begins.
        line: u32,
    },
}

impl Status {
    /// The code with which the program ends.
    pub fn code(self) -> u8
        ensures { result ≡ code_of self }
    {
        match self {
            Status::Ok => 0,
            Status::NoMemory => 1,
            Status::Usage => 2,
            Status::BadText { line: _, cause: _ } => 3,
            Status::ReadFault => 4,
            Status::WriteFault => 5,
            Status::DiskFault { stream: _ } => 6,
            Status::BadLog(_) => 7,
            Status::TooLong => 9,
            Status::BadFeed { at: _ } => 10,
            Status::BadReport { line: _ } => 11,
        }
    }
}

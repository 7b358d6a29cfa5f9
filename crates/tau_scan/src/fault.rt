//! Why there is no log, or none that can be redone.
ghost use Rattle.std.specs.Prelude.{◌≡◌};
ghost use Rattle.tau_scan.specs.declared.fault.LogRefusal.TheVariants as log;
ghost use Rattle.tau_scan.specs.declared.fault.ReadRefusal.TheVariants as disks;
ghost use Rattle.tau_scan.specs.declared.fault.ReplayRefusal.TheVariants as replay;

use std::alloc::AllocFailed;
use tau_base::NoMemory;
use tau_block::ImageFault;
use tau_record::RecordFault;
use thiserror::Error;

/// What is wrong with a log.
#[derive(Clone, Copy, Debug, PartialEq, Eq, Error)]
pub enum LogCause {
    /// The image of the stream holds no content.
    #[error(transparent)]
    Image(ImageFault),
    /// The image states another format.
    #[error("asked for format {asked}, found {found}")]
    Format {
        /// The number of the format that was asked.
        asked: u8,
        /// The number of the one that the image states.
        found: u8,
    },
    /// The image states another number of streams.
    #[error("asked for {asked} streams, found {found}")]
    Count {
        /// How many streams were to be read.
        asked: u16,
        /// How many the image states.
        found: u16,
    },
    /// The first bad record of the stream.
    #[error(transparent)]
    Body(RecordFault),
    /// The declarations differ from those of another stream.
    #[error("the catalogue differs from that of stream {with} at {at}")]
    Catalogue {
        /// The lowest stream that has declarations.
        with: u8,
        /// The first byte at which the texts differ, or the length of the shorter one.
        at: u32,
    },
    /// Two streams have different vectors for one epoch.
    #[error("epoch {number} differs from that of stream {with}")]
    Epoch {
        /// The lowest stream that has the epoch.
        with: u8,
        /// The number of the epoch.
        number: u32,
    },
    /// The declarations differ from those of the workload that was to go on from the log. Reading never returns it.
    #[error("the catalogue differs from the workload's declarations at {at}")]
    Declared {
        /// The first byte at which the texts differ, or the length of the shorter one.
        at: u32,
    },
    /// The image is too long, or has too many anchors, for a run to go on from it. Reading never returns it.
    #[error("the image of {length} bytes is too long to go on from")]
    Long {
        /// The length of the image.
        length: u64,
    },
    /// No number is left for another epoch. Reading never returns it.
    #[error("the last epoch has begun")]
    Last,
    /// Records wait for one another. Reading never returns it.
    #[error("tangled at {at}")]
    Tangled {
        /// Where the first record starts that can't be redone.
        at: u64,
    },
    /// A record was applied that an epoch record which came after it leaves out. Reading never returns it.
    #[error("applied too early at {at}")]
    Late {
        /// Where the applied record starts.
        at: u64,
    },
}

/// The first cause why the streams hold no log that can be redone.
#[derive(Clone, Copy, Debug, PartialEq, Eq, Error)]
#[error("stream {stream}: {cause}")]
pub struct LogFault {
    /// The stream.
    pub stream: u8,
    /// What is wrong with it.
    pub cause: LogCause,
}

/// Why no log was read.
#[derive(Clone, Copy, Debug, PartialEq, Eq, Error)]
pub enum ScanRefusal {
    /// Out of memory.
    #[error("out of memory")]
    NoMemory,
    /// The disk of this stream failed.
    #[error("the disk of stream {stream} failed")]
    Failed {
        /// The stream.
        stream: u8,
    },
    /// The images hold no log. This is the first cause.
    #[error(transparent)]
    Bad(LogFault),
}

/// Why a log was not redone.
#[derive(Clone, Copy, Debug, PartialEq, Eq, Error)]
pub enum ReplayRefusal {
    /// Out of memory.
    #[error("out of memory")]
    NoMemory,
    /// No order of the taken records is orderly.
    #[error("stream {stream} is tangled at {at}")]
    Tangled {
        /// The lowest stream with a record that can't be redone.
        stream: u8,
        /// Where its first such record starts.
        at: u64,
    },
}

impl From<NoMemory> for ReplayRefusal {
    ghost from_gives = { λ _ e. e ≡ replay.NoMemory };

    fn from(_e: NoMemory) -> ReplayRefusal {
        ReplayRefusal::NoMemory
    }
}

/// Why the disks were not read.
#[derive(Clone, Copy, Debug, PartialEq, Eq)]
pub(crate) enum ReadRefusal {
    /// Out of memory.
    NoMemory,
    /// The disk of this stream failed.
    Failed {
        /// The stream.
        stream: u8,
    },
}

/// Why the images gave no log.
#[derive(Clone, Copy, Debug, PartialEq, Eq)]
pub enum LogRefusal {
    /// Out of memory.
    NoMemory,
    /// The first cause.
    Bad(LogFault),
}

impl From<NoMemory> for ReadRefusal {
    ghost from_gives = { λ _ e. e ≡ disks.NoMemory };

    fn from(_e: NoMemory) -> ReadRefusal {
        ReadRefusal::NoMemory
    }
}

impl<T: Drop> From<AllocFailed<T>> for ReadRefusal {
    ghost from_gives = { λ _ e. e ≡ disks.NoMemory };

    fn from(_e: AllocFailed<T>) -> ReadRefusal {
        ReadRefusal::NoMemory
    }
}

impl From<NoMemory> for LogRefusal {
    ghost from_gives = { λ _ e. e ≡ log.NoMemory };

    fn from(_e: NoMemory) -> LogRefusal {
        LogRefusal::NoMemory
    }
}

impl<T: Drop> From<AllocFailed<T>> for LogRefusal {
    ghost from_gives = { λ _ e. e ≡ log.NoMemory };

    fn from(_e: AllocFailed<T>) -> LogRefusal {
        LogRefusal::NoMemory
    }
}

impl From<LogFault> for LogRefusal {
    ghost from_gives = { λ fault e. e ≡ log.Bad fault };

    fn from(fault: LogFault) -> LogRefusal {
        LogRefusal::Bad(fault)
    }
}

// What a memory disk keeps of its calls.

/// A call that changed what a stop may leave.
#[derive(Debug, Drop)]
pub enum DiskCall {
    /// These bytes were written at this offset.
    Wrote(usize, Vec<u8>),
    /// A write of so many bytes at this offset failed.
    Lost(usize, usize),
    /// A sync succeeded.
    Synced,
}

/// What a stop leaves of what was written since the last sync.
#[derive(Clone, Copy, Debug, PartialEq, Eq)]
pub enum Tear {
    /// Nothing: the image is what was synced last.
    Old,
    /// All of it.
    New,
    /// As many bytes, each of which reads 7.
    Torn,
}

//! The disks of a call.

/// Disks of a call: one for each stream that there may be, and then the two slots of checkpoints.
pub const DISKS: usize = 34;

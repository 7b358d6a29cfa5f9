//! The first byte of a record, which says what it is, and that of a value.

/// A record of written values.
pub(crate) const WRITTEN: u8 = 1;
/// A record of a call.
pub(crate) const COMMAND: u8 = 2;
/// An anchor.
pub(crate) const ANCHOR: u8 = 3;
/// The declarations, the first record of a stream.
pub(crate) const CATALOGUE: u8 = 4;
/// The beginning of an epoch.
pub(crate) const EPOCH: u8 = 5;

/// The value of a row that is not there.
pub(crate) const ABSENT: u8 = 0;
/// A whole number.
pub(crate) const INT: u8 = 1;
/// A text.
pub(crate) const TEXT: u8 = 2;

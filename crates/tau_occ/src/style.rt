//! How the workers of a run go about their locks.

/// How the workers of a run go about their locks.
#[derive(Clone, Copy, Debug, PartialEq, Eq)]
pub enum Style {
    /// A worker takes each lock when its call wants it, and meets Busy only if another worker holds the key.
    Locking,
    /// A worker runs its call on peeked values first, and then takes the locks. It also meets Busy if a row that it is to
    /// read is no longer what it peeked.
    Optimistic,
}

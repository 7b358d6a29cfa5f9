//! How far a call has come.
/// How far a call in hand has come.
#[derive(Clone, Copy, Debug, PartialEq, Eq)]
pub enum Standing {
    /// It takes its locks.
    Running,
    /// It gives its keys back.
    Quitting,
    /// Its record has its place, and is to be posted.
    Placed,
    /// It frees its keys.
    Freeing,
    /// It has met Busy too often, and has given all its keys back.
    LeftOver,
}

//! Where a worker stood among its calls.

/// Where a worker stood among its calls.
#[derive(Clone, Copy)]
pub struct Mark {
    /// The number of its next call, if there is one.
    pub next: usize,
    /// A call left over that comes before.
    pub again: Option<u64>,
}

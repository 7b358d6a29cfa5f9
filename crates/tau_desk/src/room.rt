//! Room that is made before it is needed.

/// How much room an outbox has at least.
#[derive(Clone, Copy)]
pub struct Room {
    /// For records.
    pub records: usize,
    /// For calls that wait.
    pub calls: usize,
}

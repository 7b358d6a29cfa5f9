//! What an audit says.

/// What an audit looks at, in its order.
#[derive(Clone, Copy, Debug, PartialEq, Eq)]
pub enum Check {
    /// No stream holds an epoch record.
    Epoch,
    /// Each call is told as it stands in the order.
    Fate,
    /// The replies are those of executing the order.
    Reply,
    /// The rows are those that it leaves.
    Row,
    /// The records are those of the order's calls.
    Record,
    /// What is acknowledged is recovered, with all that it depends on.
    Ack,
    /// What is recovered is closed under dependence.
    Closed,
    /// The order is the reported history.
    Order,
}

/// Whether a report and a log fit together.
#[derive(Clone, Copy, Debug, PartialEq, Eq)]
pub enum Verdict {
    /// They do, in all that is looked at.
    Yes,
    /// They do, and the order could not be tested, since the log does not hold all of it.
    Cut,
    /// They do not.
    No {
        /// The first check that fails.
        check: Check,
        /// The number of the first call with which it does; 0 if it is of no call.
        number: u64,
    },
}

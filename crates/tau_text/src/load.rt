//! What a workload text means.
use tau_base::{Calls, Listed, Name};
use tau_proc::Procs;

/// The declared tables and procedures, each in order of declaration. Tables are numbered from 0.
#[derive(Debug, Drop)]
pub struct Declarations {
    /// The names of the tables, at most 64.
    pub tables: Listed<Name>,
    /// The procedures.
    pub procs: Procs,
}

/// Who acts next in a run by turns.
#[derive(Clone, Copy, Debug, PartialEq, Eq)]
pub enum Turn {
    /// The worker of this number, 0 to 15.
    Worker(u8),
    /// The manager of this stream, 0 to 15.
    Manager(u8),
    /// An anchor in this stream, 0 to 15.
    Anchor(u8),
    /// The clerk.
    Clerk,
    /// The managers drop the entries that are not needed any more.
    Drop,
}

/// What a workload text means.
#[derive(Debug, Drop)]
pub struct Workload {
    /// The declared tables and procedures.
    pub declarations: Declarations,
    /// The calls in order, at most 200,000. A table stands in a call as its number.
    pub calls: Calls,
    /// The turns, where the text has a section of them; at most 1,000,000.
    pub turns: Option<Listed<Turn>>,
}

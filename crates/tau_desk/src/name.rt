//! Names of roles and of parts.
ghost use Rattle.std.specs.Prelude.{◌≡◌, ◌<◌, ◌≤◌};
ghost use Rattle.tau_base.specs.declared.limits.TheConstants.{MAX_WORKERS};
ghost use Rattle.tau_desk.specs.Names.{part_number};

use tau_base::SHARDS;

/// An actor's part of the core.
#[derive(Clone, Copy, Debug, PartialEq, Eq)]
pub enum Role {
    /// A worker.
    Worker(u8),
    /// The manager of a stream.
    Manager(u8),
    /// The clerk.
    Clerk,
}

/// A part of the core that one seat at a time has in hand.
#[derive(Clone, Copy, Debug, PartialEq, Eq)]
pub enum PartName {
    /// A shard of the lock table.
    Shard(u8),
    /// The outbox of a worker, with its pending calls.
    Outbox(u8),
    /// The published anchor of a stream.
    Anchor(u8),
}

impl PartName {
    /// The number of the part, where there are so many workers.
    pub fn number(self, workers: usize) -> usize
        requires few { workers ≤ MAX_WORKERS }
        ensures { result ≡ part_number workers self }
    {
        match self {
            PartName::Shard(shard) => shard as usize,
            PartName::Outbox(worker) => SHARDS + worker as usize,
            PartName::Anchor(stream) => SHARDS + workers + stream as usize,
        }
    }
}

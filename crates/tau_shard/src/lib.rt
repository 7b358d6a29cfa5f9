//! A shard of the lock table: the rows of its keys, a lock entry for each key that somebody needs, and a floor that stands for the entries that were removed.
#![tactic(auto)]

mod entry;
mod mask;
mod shard;

pub use entry::{LockEntry, ShardRefusal};
pub use shard::Shard;

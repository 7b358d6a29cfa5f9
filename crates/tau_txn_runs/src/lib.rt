//! Shards, and calls of several workers over one shard, as tests.
#![tactic(auto)]

#[cfg(test)]
mod shard;
#[cfg(test)]
mod txn;

//! What the table's slots hold.
use tau_ack::Pending;
use tau_base::Lv;
use tau_outbox::Outbox;
use tau_shard::Shard;

/// A part of the core that one seat at a time has in hand. Boxed, so that taking and giving it moves little.
#[derive(Drop)]
pub enum Part {
    /// One shard of the lock table.
    Shard(Box<Shard>),
    /// What a worker shares with its manager and the clerk.
    Outbox(Box<Outbox>, Box<Pending>),
    /// The newest anchor of a stream that was published: its number, 0 for none, and its vector.
    Anchor(u32, Box<Lv>),
}

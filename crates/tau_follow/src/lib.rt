//! Redoing a log while its streams still grow: a follower is fed pieces of the contents as they come, and applies each record
//! as soon as what it waits for is applied.
#![tactic(auto)]

mod applier;
mod check;
mod feed;
mod follower;
mod judge;
mod queue;
mod reach;
mod reader;
mod redo;
mod refusal;
mod renew;
mod seal;
mod spot;
mod stage;
mod state;
mod waits;
mod width;

pub use follower::Follower;
pub use refusal::FollowRefusal;

//! The commands that look at a log or copy it: recovery, inspection, audit, follower, checkpoint and what is restored
//! from one. With them stand the statuses, the fault lines and what is read of a source.
#![tactic(auto)]

mod case;
mod checkpoints;
mod cut;
mod disks;
mod fault;
mod follower;
mod inspection;
mod laws;
mod look;
mod pieces;
mod reading;
mod recovery;
mod restoration;
mod slots;
mod source;
mod status;
mod verdict;

pub use checkpoints::checkpoint;
pub use disks::DISKS;
pub use fault::refuse;
pub use follower::follow;
pub use inspection::inspect;
pub use laws::{
    follower_ends_as_recovery, one_following, one_spelling, one_text, restore_ends_as_recovery,
    runs_have_one_text,
};
pub use look::refuse_scan;
pub use reading::read_source;
pub use recovery::recover;
pub use restoration::restore;
pub use status::Status;
pub use verdict::audit;

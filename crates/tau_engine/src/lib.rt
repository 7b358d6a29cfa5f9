//! The top call of the engine.
#![tactic(auto)]

mod bench;
mod drill;
mod laws;
mod limits;
mod run;
mod top;

pub use laws::commits_what_it_peeked;
pub use tau_commands::{
    DISKS, Status, follower_ends_as_recovery, one_following, one_spelling, one_text,
    restore_ends_as_recovery, runs_have_one_text,
};
pub use top::taurus;

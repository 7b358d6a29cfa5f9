//! Redoing a log: by turns of workers, in an orderly order.
#![tactic(auto)]

mod ahead;
mod alone;
mod behind;
mod calls;
mod cursors;
mod laws;
mod lock;
mod outcome;
mod redo;
mod replay;
mod task;
mod threads;
mod turns;
mod view;
mod visit;
mod worker;

pub use behind::redo_behind;
pub use laws::{
    nothing_left_out, one_recovery, orderly_turns, runs_agree, runs_orders_agree, some_ready,
    tangled_alike, tangled_has_no_order,
};
pub use replay::replay_turns;
pub use threads::replay_threads;

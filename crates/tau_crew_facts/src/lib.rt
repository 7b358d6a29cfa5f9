//! Laws of a run in threads: what a manager's writer holds, what the clerk has told, how far apart anchors stand, and what follows for the whole run when the desk has closed.
#![tactic(auto)]

mod laws;

pub use laws::{
    anchors_keep_apart, closed_desks_end, ends_are_runs, stored_is_kept, workers_keep_calls,
};

//! Runs in threads: workers, managers and the clerk side by side, each on its seat at the desk.
#![tactic(auto)]

mod anchor;
mod clerk;
mod deal;
mod ending;
mod ending_close;
mod ending_done;
mod ending_join;
mod ending_pass;
mod ending_settle;
mod flush;
mod gather;
mod laws;
mod left_over;
mod manager;
mod optimist;
mod shared;
mod together;
mod told;
mod top;
mod work_all;
mod work_beside;
mod work_phase;
mod worker;

pub use anchor::Marks;
pub use clerk::ClerkJob;
pub use laws::{commits_what_it_peeked, stored_stays};
pub use manager::ManagerJob;
pub use shared::Crew;
pub use told::Told;
pub use top::{run_threads, run_threads_from};
pub use worker::work;

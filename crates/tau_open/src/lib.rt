//! The streams of a run: how they are opened on the caller's disks, and how the disks come back.
#![tactic(auto)]

mod ask;
mod close;
mod create;
mod opening;
mod refusal;
mod reopen;
mod sizes;
mod start;

pub use ask::ask_lengths;
pub use close::close_streams;
pub use opening::open_streams;
pub use refusal::OpenRefusal;
pub use reopen::reopen_streams;
pub use sizes::ask_each;
pub use start::StreamStart;

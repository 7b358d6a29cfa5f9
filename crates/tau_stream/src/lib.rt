//! The writer of one log stream: blocks go onto a disk so that every image has the old content or the new one.
#![tactic(auto)]

mod flush;
mod steps;
mod writer;

pub use flush::Flush;
pub use steps::{publish, publish_gated};
pub use writer::Writer;

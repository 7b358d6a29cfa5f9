//! Images of log streams: a header, blocks after open gates, and a closed gate.
#![tactic(auto)]

mod content;
mod fault;
mod magic;
mod write;

pub use content::{Content, contents_of, stated_format};
pub use fault::{ImageFault, ImageRefusal};
pub use write::{append_tail, header, header_wide, open_gate};

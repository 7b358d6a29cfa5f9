//! Sources, sinks and disks as the engine sees them: what a read gives, and what a stop may leave.
#![tactic(auto)]

mod call;
mod disk;
mod durable;
mod gate;
mod image;
mod memory;
mod sink;
mod streams;

pub use call::{DiskCall, Tear};
pub use disk::{Disk, Failed, Sink, Source};
pub use durable::write_durably;
pub use gate::{Gate, Place, Quiet};
pub use memory::MemDisk;
pub use sink::write_all;
pub use streams::{MemSink, MemSource, ReadSource, WriteSink};

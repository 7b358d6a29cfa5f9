//! Checkpoints: the two slots that hold them, how an image of a slot is read, how a slot is written, and how a log is redone
//! on a checkpoint.
#![tactic(auto)]

mod checkpoint;
mod front;
mod laws;
mod read;
mod redo;
mod refusal;
mod slots;
mod spell;
mod write;

pub use checkpoint::{Checkpoint, MAX_NUMBER};
pub use laws::{held_rows, one_checkpoint};
pub use read::checkpoint_of;
pub use redo::{checkpoint_at, redo_after};
pub use refusal::CheckRefusal;
pub use slots::{NextWrite, SLOTS, Slots};
pub use write::write_checkpoint;

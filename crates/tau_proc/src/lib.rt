//! Procedures: their steps, what a call of one means, and the machine that runs it.
#![tactic(auto)]

mod laws;
mod lent;
mod machine;
mod proc;
mod procs;
mod program;
mod reply;
mod running;
mod step;
mod values;
mod writes;

pub use laws::{reads_determine, refused_writes_nothing, wants_are_meaning, writes_ascend};
pub use machine::Machine;
pub use proc::Proc;
pub use procs::{ADD, DEL, FIRST_DECLARED, GET, PUT, Procs};
pub use reply::{Reply, Want};
pub use step::{Compare, Operand, Step};

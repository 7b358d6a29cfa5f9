//! The generated workload.
#![tactic(auto)]

mod calls;
mod laws;

pub use calls::generate;
pub use laws::any_order;

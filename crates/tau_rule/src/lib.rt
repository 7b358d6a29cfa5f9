//! The rule of the desk: the words, the parts and what the seats know show one state of the core, and each step keeps it.
#![tactic(auto)]

mod part;
mod view;

pub use part::Part;
pub use view::{
    Give, JoinAs, JoinIn, Know, Look, OneCore, Origin, Place, Seat, SplitOff, Store, Take, Told,
    View,
};

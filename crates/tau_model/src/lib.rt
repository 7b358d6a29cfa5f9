//! The theory of histories: what executing calls one after another gives, which orders do the same, what a cut of the streams holds, and the
//! reported history. Beside it the tables of a database, and a store that executes one call after another.
#![tactic(auto)]

mod committed;
mod committed_list;
mod entry;
mod laws;
mod report;
mod row_places;
mod rows;
mod store;
mod tables;

pub use committed::{Committed, Spot};
pub use committed_list::{CommittedList, LentCall};
pub use laws::{
    closed_part, covered_held, cut_closed, cut_reported, orderly_redo, reported_history,
    same_conflicts,
};
pub use report::{are_within, reported};
pub use row_places::RowPlaces;
pub use store::SerialStore;
pub use tables::Tables;

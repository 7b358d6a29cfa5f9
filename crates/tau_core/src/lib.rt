//! The core of the engine: its state, and each event as a step of it.
#![tactic(auto)]

mod anchor;
mod apart;
mod begin;
mod commit;
mod copies;
mod done;
mod event;
mod free;
mod gather;
mod laws;
mod left_over;
mod lock;
mod new_opening;
mod next;
mod open;
mod opening;
mod parts;
mod persist;
mod phase;
mod post;
mod quit;
mod resume;
mod retry;
mod state;
mod sweep;
mod tables;
mod take_body;
mod top;

pub use apart::Parts;
pub use event::{Acted, Event, Gathering, Outcome, Phase};
pub use laws::{
    acknowledged_calls_survive, committed_calls_are_of_the_run, cuts_are_closed,
    dependence_is_covered, gathered_bytes_spell_the_stream, numbers_are_of_the_reported_history,
    rows_are_of_the_commit_order, rows_are_of_the_reported_history, vectors_stay_light,
};
pub use left_over::LeftOvers;
pub use opening::Opening;
pub use post::post_from;
pub use state::{Load, Seat, Stream};
pub use top::Core;

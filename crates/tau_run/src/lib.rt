//! What a run of the engine is, and what is said of it: its history, the contents of its streams, its acknowledgements; and the laws that carry the machine's theorems to them.
#![tactic(auto)]

mod end;
mod laws;
mod schedule;

pub use end::tell_end;
pub use laws::{
    acked_is_taken, calls_wait, contents_are_records, ends_well, fresh_begins,
    images_are_recovered, left_out_for_good, lives_are_marked, lives_are_sound, nothing_begun,
    nothing_is_lost, run_is_history, run_is_there, texts_are_sound, told_is_whole,
};
pub use schedule::{commits_what_it_peeked, ends_in_locking, locking_is_still, turns_are_a_run};

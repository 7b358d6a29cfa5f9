//! Laws of logs with epochs, and of logs that go on from older ones.
//!
//! A run that begins on a log puts an epoch record into each stream, with the lengths that it found. These laws say what
//! that is good for: what the old log took is taken for good, what it left out is left out for good, and what comes after
//! it may be redone from where it ended.
#![tactic(auto)]

mod laws;

pub use laws::{fresh_sound, goes_on, old_listed, old_taken, redone_after, stays_sound};

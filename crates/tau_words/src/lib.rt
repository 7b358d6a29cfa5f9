//! The command line.
#![tactic(auto)]

mod command;
mod number;
mod read;
mod split;

pub use command::{Command, Ending, WordsRefusal};
pub use read::read_words;

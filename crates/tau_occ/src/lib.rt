//! Optimistic workers: styles of workers, and calls that run on peeked values.
#![tactic(auto)]

mod peeker;
mod style;

pub use peeker::Peeker;
pub use style::Style;

//! Calls that run on peeked values, as tests.
#![tactic(auto)]

#[cfg(test)]
mod peeker;

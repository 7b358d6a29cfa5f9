//! Worked runs by turns, on new streams and from a given opening. They stand in a crate of their own, over the crate that opens streams.
#![tactic(auto)]

#[cfg(test)]
mod bank;
#[cfg(test)]
mod play;
#[cfg(test)]
mod streams;
#[cfg(test)]
mod turns;

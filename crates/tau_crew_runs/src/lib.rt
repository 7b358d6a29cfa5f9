//! Worked runs in threads, on new streams and from a given opening. They stand in a crate of their own, over the crate that
//! opens streams.
#![tactic(auto)]

#[cfg(test)]
mod play;
#[cfg(test)]
mod scenes;
#[cfg(test)]
mod streams;
#[cfg(test)]
mod told;

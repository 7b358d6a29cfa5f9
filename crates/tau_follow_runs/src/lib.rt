//! Followers that are fed logs that are given.
#![tactic(auto)]

#[cfg(test)]
mod bytes;
#[cfg(test)]
mod contents;
#[cfg(test)]
mod play;
#[cfg(test)]
mod scenes;

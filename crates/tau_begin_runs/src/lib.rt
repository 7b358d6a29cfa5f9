//! Tests of how a run opens its streams, against values worked out by hand.
#![tactic(auto)]

#[cfg(test)]
mod names;
#[cfg(test)]
mod play;
#[cfg(test)]
mod scenes;

//! Slots of checkpoints that are read and written, as tests.
#![tactic(auto)]

#[cfg(test)]
mod logs;
#[cfg(test)]
mod names;
#[cfg(test)]
mod play;
#[cfg(test)]
mod rows;
#[cfg(test)]
mod slots;
#[cfg(test)]
mod stops;

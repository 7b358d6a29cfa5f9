//! Worked runs of the desk, seat by seat on one thread, and in threads. They stand in a crate of their own, so that the desk is proved once.
#![tactic(auto)]

#[cfg(test)]
mod play;
#[cfg(test)]
mod rows;
#[cfg(test)]
mod scenes;
#[cfg(test)]
mod seats;
#[cfg(test)]
mod steps;
#[cfg(test)]
mod threads;
#[cfg(test)]
mod turns;
#[cfg(test)]
mod work;

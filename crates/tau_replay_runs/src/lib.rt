//! Recoveries of logs that are given.
#![tactic(auto)]

#[cfg(test)]
mod gates;
#[cfg(test)]
mod logs;
#[cfg(test)]
mod play;
#[cfg(test)]
mod spelled;
#[cfg(test)]
mod turns;

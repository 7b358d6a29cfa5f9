//! Streams on disks that fail or stop, and how they are opened, as tests.
#![tactic(auto)]

#[cfg(test)]
mod digits;
#[cfg(test)]
mod disks;
#[cfg(test)]
mod hostile;
#[cfg(test)]
mod open;
#[cfg(test)]
mod order;
#[cfg(test)]
mod reopen;
#[cfg(test)]
mod stream;
#[cfg(test)]
mod writers;

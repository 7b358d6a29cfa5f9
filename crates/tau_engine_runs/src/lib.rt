//! Worked calls of the program, whole, over memory forms, as scenes. They stand in a crate of their own, so that the top call is proved once.
#![tactic(auto)]

#[cfg(test)]
mod audit_refusals;
#[cfg(test)]
mod audits;
#[cfg(test)]
mod benches;
#[cfg(test)]
mod disks;
#[cfg(test)]
mod drills;
#[cfg(test)]
mod faults;
#[cfg(test)]
mod feed_faults;
#[cfg(test)]
mod feeds;
#[cfg(test)]
mod inspections;
#[cfg(test)]
mod lines;
#[cfg(test)]
mod mixes;
#[cfg(test)]
mod number;
#[cfg(test)]
mod recoveries;
#[cfg(test)]
mod reopened;
#[cfg(test)]
mod runs;
#[cfg(test)]
mod scenes;
#[cfg(test)]
mod slot_stops;
#[cfg(test)]
mod slots;
#[cfg(test)]
mod spell;
#[cfg(test)]
mod threads;
#[cfg(test)]
mod told;
#[cfg(test)]
mod watch;

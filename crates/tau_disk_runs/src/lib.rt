//! Disks in memory and real files, as tests.
#![tactic(auto)]

#[cfg(test)]
mod acts;
#[cfg(test)]
mod disk;
#[cfg(test)]
mod file;

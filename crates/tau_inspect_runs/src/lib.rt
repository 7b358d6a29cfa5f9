//! Inspections, reports read and audits of logs that are given.
#![tactic(auto)]

#[cfg(test)]
mod audits;
#[cfg(test)]
mod bad;
#[cfg(test)]
mod inspections;
#[cfg(test)]
mod logs;
#[cfg(test)]
mod records;
#[cfg(test)]
mod reports;

//! Reading of logs, the pools of a recovery and the texts of reports, as tests.
#![tactic(auto)]

#[cfg(test)]
mod contents;
#[cfg(test)]
mod edges;
#[cfg(test)]
mod epochs;
#[cfg(test)]
mod images;
#[cfg(test)]
mod logs;
#[cfg(test)]
mod play;
#[cfg(test)]
mod pool;
#[cfg(test)]
mod report;
#[cfg(test)]
mod reports;
#[cfg(test)]
mod scan;
#[cfg(test)]
mod wide;

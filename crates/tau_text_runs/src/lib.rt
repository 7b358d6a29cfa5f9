//! The workload text, its printer, generated workloads and command lines, as tests.
#![tactic(auto)]

#[cfg(test)]
mod generated;
#[cfg(test)]
mod play;
#[cfg(test)]
mod rows;
#[cfg(test)]
mod text;
#[cfg(test)]
mod words;

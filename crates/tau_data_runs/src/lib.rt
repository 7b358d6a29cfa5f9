//! Values, procedures, blocks, outboxes, waiting calls, epochs and histories, as tests.
#![tactic(auto)]

#[cfg(test)]
mod ack;
#[cfg(test)]
mod base;
#[cfg(test)]
mod block;
#[cfg(test)]
mod epoch;
#[cfg(test)]
mod model;
#[cfg(test)]
mod outbox;
#[cfg(test)]
mod proc;
#[cfg(test)]
mod support;
#[cfg(test)]
mod words;

//! Worked runs of the core, event by event. They stand in a crate of their own, so that the core is proved once.
#![tactic(auto)]

#[cfg(test)]
mod tests;
#[cfg(test)]
mod worked;

//! Records: their bytes, and what contents are read as, as tests.
#![tactic(auto)]

#[cfg(test)]
mod bytes;
#[cfg(test)]
mod scenes;
#[cfg(test)]
mod words;

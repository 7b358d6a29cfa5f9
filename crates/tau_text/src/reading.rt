//! What the lines of a text have said so far.
use crate::load::Turn;
use tau_base::{Calls, Listed, Name};
use tau_proc::{Proc, Procs};

/// A procedure whose `end` is still to come: the line where it began, and how many `when` in it are open.
#[derive(Debug, Drop)]
pub struct Begun {
    pub line: u32,
    pub proc: Proc,
    pub depth: u32,
}

/// What the lines have said so far. The size is that of the canonical text of the declarations, in bytes.
#[derive(Debug, Drop)]
pub struct Reading {
    pub tables: Listed<Name>,
    pub procs: Procs,
    pub size: u32,
    pub begun: Option<Begun>,
    pub calls: Calls,
    pub turns: Option<Listed<Turn>>,
}

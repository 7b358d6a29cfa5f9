//! A procedure.
ghost use Rattle.std.specs.Prelude.{◌≡◌, ◌↔◌, Some, IsTrue};
ghost use Rattle.std.specs.List.{list_all};
ghost use Rattle.tau_proc.specs.Limits.{operand_fits, step_fits, open_whens};

use crate::step::{Operand, Step};
use tau_base::{Listed, MAX_ARGS, MAX_STEPS, Name, REGISTERS};

/// A declared procedure.
#[derive(Clone, Debug, Drop, PartialEq, Eq)]
pub struct Proc {
    /// Its name.
    pub name: Name,
    /// How many arguments it has.
    pub args: u8,
    /// Its steps, numbered from 1.
    pub steps: Listed<Step>,
}

impl Proc {
    ghost use Rattle.tau_proc.specs.Limits.{IsWellFormed};

    /// Whether it keeps the limits, its steps name registers and its own arguments alone, and each `when` has its
    /// `done` and each `done` its `when`.
    pub fn is_well_formed(&self) -> bool
        ensures { IsTrue result ↔ IsWellFormed self.now }
    {
        let steps = self.steps.as_slice();
        if steps.len() > MAX_STEPS {
            return false;
        }
        if usize::from(self.args) > MAX_ARGS {
            return false;
        }
        all_fit(self.args, steps) && whens_close(steps)
    }
}

/// Whether all steps name registers and so many arguments alone.
fn all_fit(args: u8, steps: &[Step]) -> bool
    ensures { result ≡ list_all (step_fits args) steps.now }
{
    steps.iter().all(|step| step_fits(args, step))
}

/// Whether an operand names a register, or one of so many arguments.
fn operand_fits(args: u8, operand: &Operand) -> bool
    ensures { result ≡ operand_fits args operand.now }
{
    match operand {
        Operand::Register(number) => usize::from(*number) < REGISTERS,
        Operand::Argument(number) => 1 <= *number && *number <= args,
        Operand::Int(_) | Operand::Text(_) | Operand::Absent => true,
    }
}

/// Whether a step names registers and so many arguments alone.
fn step_fits(args: u8, step: &Step) -> bool
    ensures { result ≡ step_fits args step.now }
{
    match step {
        Step::Get { into, row, .. } => usize::from(*into) < REGISTERS && operand_fits(args, row),
        Step::Put { row, value, .. } => operand_fits(args, row) && operand_fits(args, value),
        Step::Del { row, .. } => operand_fits(args, row),
        Step::Add { into, left, right }
        | Step::Sub { into, left, right }
        | Step::Mul { into, left, right }
        | Step::Min { into, left, right }
        | Step::Max { into, left, right }
        | Step::Cat { into, left, right } => {
            usize::from(*into) < REGISTERS && operand_fits(args, left) && operand_fits(args, right)
        }
        Step::Need { left, right, .. } | Step::When { left, right, .. } => {
            operand_fits(args, left) && operand_fits(args, right)
        }
        Step::Done => true,
        Step::Reply(value) => operand_fits(args, value),
    }
}

/// Whether each `when` has its `done` and each `done` its `when`.
fn whens_close(steps: &[Step]) -> bool
    ensures { IsTrue result ↔ (open_whens (Some 0) steps.now ≡ Some 0) }
{
    let mut open = 0usize;
    for step in steps {
        match step {
            Step::When { .. } => open += 1,
            Step::Done if open == 0 => return false,
            Step::Done => open -= 1,
            _ => {}
        }
    }
    open == 0
}

//! The steps of a call, which stay in place for the next one.
ghost use Rattle.std.specs.Prelude.{◌≡◌, ◌+◌, ◌≤◌, ◌++◌, [], length, take};

use crate::step::Step;
use arrayvec::ArrayVec;
use std::marker::Model;
use tau_base::MAX_STEPS;

/// The steps of a call. They stay in place when it ends, since the next call is often of the same procedure.
#[derive(Debug, Drop)]
pub(crate) struct Program {
    steps: ArrayVec<Step, MAX_STEPS>,
    in_use: bool,
}

impl Model for Program {
    ghost use Rattle.std.specs.Prelude.{List};
    ghost use Rattle.tau_proc.specs.declared.step.Step.{Step};
    ghost use Rattle.tau_proc.specs.Kept.{steps_in_use};

    ghost Value = { List Step };

    ghost view = { λ p. steps_in_use p.in_use p.steps.items };
}

impl Program {
    /// No steps.
    pub(crate) fn new() -> Program
        ensures { result ≡ [] }
    {
        Program {
            steps: ArrayVec::new(),
            in_use: false,
        }
    }

    /// The steps in order.
    pub(crate) fn as_slice(&self) -> &[Step]
        ensures value { result.now ≡ self.now }
    {
        if !self.in_use {
            return &[];
        }
        self.steps.as_slice()
    }

    /// From here on it has no steps.
    pub(crate) fn leave(&mut self)
        ensures { self.new ≡ [] }
    {
        self.in_use = false;
    }

    /// From here on it has these steps. Those in front that are in place already are not copied again.
    pub(crate) fn take(&mut self, steps: &[Step])
        requires { length steps.now ≤ MAX_STEPS }
        ensures { self.new ≡ steps.now }
    {
        let same = same_in_front(self.steps.as_slice(), steps);
        self.steps.truncate(same);
        copy_behind(&mut self.steps, &steps[same..]);
        self.in_use = true;
    }
}

/// How many steps in front are the same.
fn same_in_front(kept: &[Step], steps: &[Step]) -> usize
    ensures fits { result ≤ length steps.now }
    ensures same { take result kept.now ≡ take result steps.now }
{
    let common = kept.len().min(steps.len());
    for at in 0..common {
        if !kept[at].is_same(&steps[at]) {
            return at;
        }
    }
    common
}

/// Puts the steps after those that are there.
fn copy_behind(all: &mut ArrayVec<Step, MAX_STEPS>, steps: &[Step])
    requires { length all.old.items + length steps.now ≤ MAX_STEPS }
    ensures { all.new.items ≡ all.old.items ++ steps.now }
{
    for step in steps {
        all.push(step.copied());
    }
}

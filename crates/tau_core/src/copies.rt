//! The procedures of a workload, again.
ghost use Rattle.std.specs.Prelude.{◌≡◌, ◌<◌, ◌++◌, ◌∷◌, [], IfOk, OnOk, length};
ghost use Rattle.tau_base.specs.declared.limits.TheConstants.{MAX_PROCS};
ghost use Rattle.tau_proc.specs.Limits.{IsWellFormed};

use std::alloc::Global;
use tau_base::{Listed, NoMemory};
use tau_proc::{Proc, Procs, Step};

/// The procedures again.
pub(crate) fn copied_procs(alloc: Global, procs: &Procs) -> Result<Procs, NoMemory>
    ensures { IfOk result (λ copy. copy ≡ procs.now) }
{
    let mut all = Procs::new(alloc);
    let list = procs.list();
    for proc in list {
        add_copy(&mut all, alloc, proc)?;
    }
    Ok(all)
}

/// Puts the procedure again at the end.
fn add_copy(procs: &mut Procs, alloc: Global, proc: &Proc) -> Result<(), NoMemory>
    requires room { length procs.old < MAX_PROCS }
    requires well_formed { IsWellFormed proc.now }
    ensures { OnOk result (procs.new ≡ procs.old ++ proc.now ∷ []) }
{
    let copy = copied_proc(alloc, proc)?;
    procs.add(copy)
}

/// The procedure again.
fn copied_proc(alloc: Global, proc: &Proc) -> Result<Proc, NoMemory>
    ensures { IfOk result (λ copy. copy ≡ proc.now) }
{
    let steps = copied_steps(alloc, proc.steps.as_slice())?;
    Ok(Proc {
        name: proc.name.copied(),
        args: proc.args,
        steps,
    })
}

/// The steps again.
fn copied_steps(alloc: Global, steps: &[Step]) -> Result<Listed<Step>, NoMemory>
    ensures { IfOk result (λ copy. copy ≡ steps.now) }
{
    let mut all = Listed::new(alloc);
    for step in steps {
        all.push(step.copied())?;
    }
    Ok(all)
}

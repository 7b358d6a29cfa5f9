//! The end of a run: what it tells.
ghost use Rattle.std.specs.Prelude.{◌≡◌, List, IfOk, length, map};
ghost use Rattle.std.specs.List.{All};
ghost use Rattle.tau_model.specs.History.{Act};
ghost use Rattle.tau_model.specs.Tables.{IsTablesOf};
ghost use Rattle.tau_machine.specs.Hands.{Txn};
ghost use Rattle.tau_machine.specs.Reports.{reported};
ghost use Rattle.tau_machine.specs.State.{sight};
ghost use Rattle.tau_core.specs.Stands.{Stands, Stood};
ghost use Rattle.tau_core.specs.View.{Hidden, core_of, setting_of};
ghost use Rattle.tau_run.specs.Fates.{IsNumberOf, fates_by};

use crate::run::Run;
use std::alloc::Global;
use std::mem;
use tau_base::NoMemory;
use tau_report::{Acks, RunEnd};
use tau_run::tell_end;

/// What the run tells, of so many calls.
pub(crate) fn end_of(alloc: Global, run: &mut Run, calls: usize) -> Result<RunEnd, NoMemory>
    requires stood { Stood run.old.core }
    requires calls { calls ≡ length run.old.core.load.calls }
    requires told { All (λ ack. IsNumberOf calls ack.0) run.old.clerk.acks }
    ensures acks { IfOk result (λ end. end.report.acks ≡ run.old.clerk.acks) }
    ensures fates { IfOk result (λ end. (K : List (Act Txn)) (h : Hidden) → Stands run.old.core K h → end.report.fates ≡ fates_by (length run.old.core.load.calls) K run.old.clerk.acks) }
    ensures order { IfOk result (λ end. (K : List (Act Txn)) (h : Hidden) → Stands run.old.core K h → end.report.order ≡ map (λ t. t.call.call.number) (reported run.old.core.ends K)) }
    ensures tables { IfOk result (λ end. (K : List (Act Txn)) (h : Hidden) → Stands run.old.core K h → IsTablesOf (sight (setting_of run.old.core.load) (core_of run.old.core h)).row end.report.tables) }
    ensures disk { IfOk result (λ end. end.disk ≡ run.old.failed) }
    ensures sink { IfOk result (λ end. end.sink_failed ≡ run.old.clerk.sink_failed) }
{
    let acks = mem::replace(&mut run.clerk.acks, Acks::new(alloc));
    tell_end(
        alloc,
        &run.core,
        acks,
        calls,
        run.failed,
        run.clerk.sink_failed,
    )
}

//! The end of a run: what it tells.
ghost use Rattle.std.specs.Prelude.{ℕ, ◌≡◌, List, Some, IfOk, length, map, replicate};
ghost use Rattle.std.specs.List.{All};
ghost use Rattle.tau_report.specs.declared.report.Fate.{Fate};
ghost use Rattle.tau_model.specs.History.{Act};
ghost use Rattle.tau_model.specs.Tables.{IsTablesOf};
ghost use Rattle.tau_machine.specs.Hands.{Txn};
ghost use Rattle.tau_machine.specs.Reports.{reported};
ghost use Rattle.tau_machine.specs.State.{sight};
ghost use Rattle.tau_core.specs.Stands.{Stands, Stood};
ghost use Rattle.tau_core.specs.View.{Hidden, core_of, setting_of};
ghost use Rattle.tau_run.specs.Run.{fate};
ghost use Rattle.tau_run.specs.Fates.{IsNumberOf, fates_by, fates_in, marks_in};

use std::alloc::Global;
use tau_base::{Listed, NoMemory};
use tau_core::Core;
use tau_model::{CommittedList, reported};
use tau_proc::Reply;
use tau_report::{Acks, KeptFate, RunEnd, RunReport};

/// The fate of a call with its reply.
fn fate(alloc: Global, acknowledged: bool, reply: &Reply) -> Result<KeptFate, NoMemory>
    ensures { IfOk result (λ kept. kept ≡ fate (Some reply.now) acknowledged) }
{
    KeptFate::of(alloc, acknowledged, reply)
}

/// So many calls that did not commit.
fn unrun(alloc: Global, calls: usize) -> Result<Vec<KeptFate>, NoMemory>
    ensures { IfOk result (λ fates. fates.items ≡ replicate calls Fate.Unrun) }
{
    let mut fates = Vec::with_capacity(alloc, calls)?;
    for _ in 0..calls {
        fates.push(KeptFate::unrun())?;
    }
    Ok(fates)
}

/// Of each of so many calls, by number from 1, whether it is acknowledged.
fn marks_of(alloc: Global, calls: usize, acks: &Acks) -> Result<Vec<bool>, NoMemory>
    requires { All (λ ack. IsNumberOf calls ack.0) acks.now }
    ensures { IfOk result (λ marks. marks.items ≡ marks_in calls acks.now) }
{
    let mut marks = vec![in alloc; false; calls]?;
    for i in 0..acks.len() {
        let index = (acks.number_at(i) - 1) as usize;
        marks[index] = true;
    }
    Ok(marks)
}

/// What became of each of so many calls, by number from 1, in one pass over those that committed. Of two with one number the
/// first counts.
fn fates_of(
    alloc: Global,
    calls: usize,
    committed: &CommittedList,
    acks: &Acks,
) -> Result<Vec<KeptFate>, NoMemory>
    requires committed { All (λ call. IsNumberOf calls call.number) committed.now.items }
    requires acks { All (λ ack. IsNumberOf calls ack.0) acks.now }
    ensures { IfOk result (λ fates. fates.items ≡ fates_in calls committed.now.items acks.now) }
{
    let marks = marks_of(alloc, calls, acks)?;
    let mut fates = unrun(alloc, calls)?;
    for i in (0..committed.len()).rev() {
        let call = committed.at(i);
        let index = (call.number() - 1) as usize;
        let kept = fate(alloc, marks[index], &call.reply())?;
        fates[index] = kept;
    }
    Ok(fates)
}

/// What a run tells that has led to this core, of so many calls, with its acknowledgements as they were told, the lowest
/// stream whose disk failed, and whether the sink did.
pub fn tell_end(
    alloc: Global,
    core: &Core,
    acks: Acks,
    calls: usize,
    failed: Option<u8>,
    sink_failed: bool,
) -> Result<RunEnd, NoMemory>
    requires stood { Stood core.now }
    requires calls { calls ≡ length core.now.load.calls }
    requires told { All (λ ack. IsNumberOf calls ack.0) acks }
    ensures acks { IfOk result (λ end. end.report.acks ≡ acks) }
    ensures fates { IfOk result (λ end. (K : List (Act Txn)) (h : Hidden) → Stands core.now K h → end.report.fates ≡ fates_by (length core.now.load.calls) K acks) }
    ensures order { IfOk result (λ end. (K : List (Act Txn)) (h : Hidden) → Stands core.now K h → end.report.order ≡ map (λ t. t.call.call.number) (reported core.now.ends K)) }
    ensures tables { IfOk result (λ end. (K : List (Act Txn)) (h : Hidden) → Stands core.now K h → IsTablesOf (sight (setting_of core.now.load) (core_of core.now h)).row end.report.tables) }
    ensures disk { IfOk result (λ end. end.disk ≡ failed) }
    ensures sink { IfOk result (λ end. end.sink_failed ≡ sink_failed) }
{
    let fates = fates_of(alloc, calls, core.committed(), &acks)?;
    let order = reported(alloc, &core.ends(), core.committed())?;
    let tables = core.tables(alloc)?;
    Ok(RunEnd {
        report: RunReport {
            acks,
            fates: Listed::of(fates),
            order: Listed::of(order),
            tables,
        },
        disk: failed,
        sink_failed,
    })
}

//! The last passes: when the workers are through, managers flush what is left and the clerk tells what is durable.
ghost use Rattle.std.specs.Prelude.{ℕ, ◌≡◌, ◌≤◌, ◌<◌, ◌⊎◌, false, true, List, length};
ghost use Rattle.tau_core.specs.Opens.{Opened};
ghost use Rattle.tau_disk.specs.Disk.{Rose};
ghost use Rattle.tau_crew.specs.Clerking.{IsToldSoFar};
ghost use Rattle.tau_crew.specs.Ending.{AreManagersBack, HasRunBack, IsClerkBack, IsHeadBack};
ghost use Rattle.tau_crew.specs.EndDone.{IsDone, NoneShort, durables};
ghost use Rattle.tau_crew.specs.EndLeft.{AreTold, GoesOn, HaveGathered};

use crate::clerk::ClerkJob;
use crate::ending_done::{have_memory, nothing_left};
use crate::left_over::run_left;
use crate::manager::ManagerJob;
use crate::shared::Crew;
use std::sync::Wait;
use tau_desk::{Desk, Head};
use tau_disk::{Disk, Gate, Sink};

/// The manager of a stream goes on until nothing is left, or its disk fails, or memory runs out.
fn flush_at<R: Wait, D: Disk, G: Gate>(
    rt: &R,
    desk: &Desk,
    crew: &Crew,
    jobs: &mut Vec<ManagerJob<D>>,
    stream: usize,
    gate: &G,
)
    requires there { stream < length jobs.old.items }
    requires run { Opened desk.now.table.shared.key.value.load desk.now.table.shared.key.value }
    requires managers { (bases : ℕ → List ℕ) × (ws : List _) × AreManagersBack desk.now.table.shared.key.value desk.now.table.shared.table_id bases ws jobs.old.items }
    ensures managers { (bases : ℕ → List ℕ) (ws : List _) → AreManagersBack desk.now.table.shared.key.value desk.now.table.shared.table_id bases ws jobs.old.items → AreManagersBack desk.now.table.shared.key.value desk.now.table.shared.table_id bases ws jobs.new.items }
{
    jobs[stream].run(rt, desk, crew, gate);
}

/// Each manager does, one after another.
pub(crate) fn flush_left<R: Wait, D: Disk, G: Gate>(
    rt: &R,
    desk: &Desk,
    crew: &Crew,
    jobs: &mut Vec<ManagerJob<D>>,
    gate: &G,
)
    requires run { Opened desk.now.table.shared.key.value.load desk.now.table.shared.key.value }
    requires managers { (bases : ℕ → List ℕ) × (ws : List _) × AreManagersBack desk.now.table.shared.key.value desk.now.table.shared.table_id bases ws jobs.old.items }
    ensures managers { (bases : ℕ → List ℕ) (ws : List _) → AreManagersBack desk.now.table.shared.key.value desk.now.table.shared.table_id bases ws jobs.old.items → AreManagersBack desk.now.table.shared.key.value desk.now.table.shared.table_id bases ws jobs.new.items }
{
    for stream in 0..desk.streams {
        flush_at(rt, desk, crew, jobs, stream, gate);
    }
}

/// The clerk looks once more and tells what is durable.
pub(crate) fn tell_left<R: Wait, K: Sink, G: Gate>(
    rt: &R,
    desk: &Desk,
    crew: &Crew,
    clerk: &mut ClerkJob,
    sink: &mut K,
    gate: &G,
)
    requires clerk { IsClerkBack desk.now.table.shared.key.value desk.now.table.shared.table_id clerk.old }
    ensures clerk { IsClerkBack desk.now.table.shared.key.value desk.now.table.shared.table_id clerk.new }
    ensures heard { K.tells → (base : List ℕ) → IsToldSoFar base clerk.old.told (K.held sink.old) → IsToldSoFar base clerk.new.told (K.held sink.new) }
    ensures cause { clerk.new.told.sink_failed ≡ true → (clerk.old.told.sink_failed ≡ true) ⊎ Rose (K.faults sink.old) (K.faults sink.new) }
    ensures faults { K.faults sink.old ≤ K.faults sink.new }
{
    clerk.run(rt, desk, crew, sink, gate);
}

/// One pass: the managers flush what is left, and the clerk tells what is durable then.
fn pass_once<R: Wait, D: Disk, K: Sink, G: Gate>(
    rt: &R,
    desk: &Desk,
    crew: &Crew,
    jobs: &mut Vec<ManagerJob<D>>,
    clerk: &mut ClerkJob,
    sink: &mut K,
    gate: &G,
)
    requires run { Opened desk.now.table.shared.key.value.load desk.now.table.shared.key.value }
    requires managers { (bases : ℕ → List ℕ) × (ws : List _) × AreManagersBack desk.now.table.shared.key.value desk.now.table.shared.table_id bases ws jobs.old.items }
    requires clerk { IsClerkBack desk.now.table.shared.key.value desk.now.table.shared.table_id clerk.old }
    ensures { GoesOn desk.now.table.shared.key.value desk.now.table.shared.table_id K.tells (K.held sink.old) (K.held sink.new) (K.faults sink.old) (K.faults sink.new) jobs.old.items jobs.new.items clerk.old clerk.new }
{
    flush_left(rt, desk, crew, jobs, gate);
    tell_left(rt, desk, crew, clerk, sink, gate);
}

/// Passes until nothing is left. Returns whether memory was there.
fn pass_left<R: Wait, D: Disk, K: Sink, G: Gate>(
    rt: &R,
    desk: &Desk,
    crew: &Crew,
    head: &mut Head,
    jobs: &mut Vec<ManagerJob<D>>,
    clerk: &mut ClerkJob,
    sink: &mut K,
    gate: &G,
) -> bool
    requires run { Opened desk.now.table.shared.key.value.load desk.now.table.shared.key.value }
    requires head { IsHeadBack desk.now.table.shared.key.value desk.now.table.shared.table_id head.old }
    requires managers { (bases : ℕ → List ℕ) × (ws : List _) × AreManagersBack desk.now.table.shared.key.value desk.now.table.shared.table_id bases ws jobs.old.items }
    requires clerk { IsClerkBack desk.now.table.shared.key.value desk.now.table.shared.table_id clerk.old }
    ensures same { head.new ≡ head.old }
    ensures goes { GoesOn desk.now.table.shared.key.value desk.now.table.shared.table_id K.tells (K.held sink.old) (K.held sink.new) (K.faults sink.old) (K.faults sink.new) jobs.old.items jobs.new.items clerk.old clerk.new }
    ensures memory { result ≡ true → NoneShort jobs.new.items }
    ensures clerk { result ≡ true → clerk.new.short ≡ false }
    ensures gathered { result ≡ true → HaveGathered desk.now.table.shared.key.value head.old jobs.new.items (length jobs.new.items) }
    ensures told { result ≡ true → AreTold desk.now.load.workers (durables jobs.new.items) head.old clerk.new.told.acks desk.now.load.workers }
{
    // One pass leaves nothing, since no worker is out; but that is not proved.
    for _ in rt.forever() {
        pass_once(rt, desk, crew, jobs, clerk, sink, gate);
        if !have_memory(jobs, clerk) {
            return false;
        }
        if nothing_left(desk, head, jobs, clerk) {
            return true;
        }
    }
    unreachable!()
}

/// All that is left is done: calls that were left over are run, managers flush, and the clerk tells. Returns whether memory was there.
pub(crate) fn do_left<R: Wait, D: Disk, K: Sink, G: Gate>(
    rt: &R,
    desk: &Desk,
    crew: &Crew,
    head: &mut Head,
    jobs: &mut Vec<ManagerJob<D>>,
    clerk: &mut ClerkJob,
    sink: &mut K,
    gate: &G,
) -> bool
    requires run { Opened desk.now.table.shared.key.value.load desk.now.table.shared.key.value }
    requires head { IsHeadBack desk.now.table.shared.key.value desk.now.table.shared.table_id head.old }
    requires managers { (bases : ℕ → List ℕ) × (ws : List _) × AreManagersBack desk.now.table.shared.key.value desk.now.table.shared.table_id bases ws jobs.old.items }
    requires clerk { IsClerkBack desk.now.table.shared.key.value desk.now.table.shared.table_id clerk.old }
    requires ran { (w : ℕ) → w < desk.now.table.shared.key.value.load.workers → HasRunBack desk.now.table.shared.key.value.load head.old w }
    ensures head { IsHeadBack desk.now.table.shared.key.value desk.now.table.shared.table_id head.new }
    ensures goes { GoesOn desk.now.table.shared.key.value desk.now.table.shared.table_id K.tells (K.held sink.old) (K.held sink.new) (K.faults sink.old) (K.faults sink.new) jobs.old.items jobs.new.items clerk.old clerk.new }
    ensures done { result ≡ true → IsDone desk.now.table.shared.key.value head.new jobs.new.items clerk.new }
{
    if !have_memory(jobs, clerk) {
        return false;
    }
    match run_left(rt, desk, head, gate) {
        Ok(()) => {
            head.agrees();
            pass_left(rt, desk, crew, head, jobs, clerk, sink, gate)
        }
        Err(_) => false,
    }
}

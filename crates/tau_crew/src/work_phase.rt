//! The part of a run in which workers, managers and the clerk run side by side.
ghost use Rattle.std.specs.Prelude.{ℕ, ◌≡◌, ◌<◌, ◌≤◌, List, Some, false, length};
ghost use Rattle.std.specs.List.{All};
ghost use Rattle.tau_base.specs.Modes.{format_of};
ghost use Rattle.tau_disk.specs.Disk.{Rose};
ghost use Rattle.tau_core.specs.Opens.{Opened};
ghost use Rattle.tau_run.specs.Writers.{IsBegun};
ghost use Rattle.tau_desk.specs.Seats.{PlainHead};
ghost use Rattle.tau_crew.specs.Clerking.{IsToldSoFar, Tells};
ghost use Rattle.tau_crew.specs.Dealing.{AreDealt};
ghost use Rattle.tau_crew.specs.Ending.{IsBack};
ghost use Rattle.tau_crew.specs.Together.{IsClerkReady, IsManagerReady};
ghost use Rattle.tau_crew.specs.WorkersBack.{IsAtStart, IsHeadReady};

use crate::clerk::ClerkJob;
use crate::manager::ManagerJob;
use crate::shared::Crew;
use crate::work_beside::work_beside;
use std::sync::Wait;
use std::thread::Threads;
use tau_desk::{Desk, Head};
use tau_disk::{Disk, Gate, Sink};

/// Workers, managers and the clerk side by side, from the beginning of a run: what comes back is as the ending wants it. Returns
/// also whether memory ran out for a worker.
pub(crate) fn run_phase<R: Threads + Wait + Sync, D: Disk + Send, K: Sink + Send, G: Gate + Sync>(
    rt: &R,
    desk: &Desk,
    head: Head,
    crew: &Crew,
    managers: &mut [ManagerJob<D>],
    clerk: &mut ClerkJob,
    sink: &mut K,
    gate: &G,
) -> (Head, bool)
    requires ready { IsHeadReady desk.now head }
    requires run { Opened desk.now.table.shared.key.value.load desk.now.table.shared.key.value }
    requires managers { All (IsManagerReady desk.now) managers.old }
    requires some { 0 < length managers.old }
    requires clerk { IsClerkReady desk.now clerk.old }
    ensures back { (bases : ℕ → List ℕ) (ws : List _) (held : List ℕ) → IsBegun (format_of desk.now.table.shared.key.value.load.mode) bases ws desk.now.table.shared.key.value.load.opening → AreDealt desk.now.table.shared.key.value desk.now.table.shared.table_id bases ws desk.now.table.shared.key.value.load.streams managers.old →
        ((w : ℕ) → w < desk.now.table.shared.key.value.load.workers → IsAtStart desk.now.table.shared.key.value.load head w) → Tells desk.now.table.shared.key.value.load clerk.old.seat clerk.old.told → (K.tells → IsToldSoFar held clerk.old.told (K.held sink.old)) → clerk.old.told.sink_failed ≡ false →
        IsBack desk.now.table.shared.key.value desk.now.table.shared.table_id bases ws K.tells held (K.held sink.new) (Rose (K.faults sink.old) (K.faults sink.new)) result.0 managers.new clerk.new result.1 }
    ensures faults { K.faults sink.old ≤ K.faults sink.new }
{
    let mut place = Some(head);
    let short = work_beside(rt, desk, &mut place, crew, managers, clerk, sink, gate);
    (taken(place), short)
}

/// The head in its place.
fn taken(place: Option<Head>) -> Head
    requires { (h : PlainHead) × (place ≡ Some h) }
    ensures { place ≡ Some result }
{
    let Some(head) = place else { unreachable!() };
    head
}

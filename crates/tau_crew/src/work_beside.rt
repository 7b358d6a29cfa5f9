//! Workers, on seats that leave the head, beside managers and the clerk.
ghost use Rattle.std.specs.Prelude.{◌<◌, length};
ghost use Rattle.std.specs.List.{All};
ghost use Rattle.std.specs.Thread.{IsSync};
ghost use Rattle.tau_core.specs.Opens.{Opened};
ghost use Rattle.tau_crew.specs.Together.{ClerkWent, IsClerkReady, IsManagerReady, ManagersWent};
ghost use Rattle.tau_crew.specs.WorkersBack.{AreBackIn, IsPlaced};

use crate::clerk::ClerkJob;
use crate::manager::ManagerJob;
use crate::shared::Crew;
use crate::together::flush_and_tell;
use crate::work_all::work_side_by_side;
use std::sync::Wait;
use std::thread::{Threads, join_mut};
use tau_desk::{Desk, Head};
use tau_disk::{Disk, Gate, Sink};

/// All workers of the head in this place beside the managers and the clerk. The head has the workers' roles again then. Returns
/// whether memory ran out for a worker. Where no thread can be made they run one after another, workers first and the clerk last.
pub(crate) fn work_beside<R: Threads + Wait + Sync, D: Disk + Send, K: Sink + Send, G: Gate + Sync>(
    rt: &R,
    desk: &Desk,
    place: &mut Option<Head>,
    crew: &Crew,
    managers: &mut [ManagerJob<D>],
    clerk: &mut ClerkJob,
    sink: &mut K,
    gate: &G,
) -> bool
    requires placed { IsPlaced desk.now place.old }
    requires run { Opened desk.now.table.shared.key.value.load desk.now.table.shared.key.value }
    requires managers { All (IsManagerReady desk.now) managers.old }
    requires some { 0 < length managers.old }
    requires clerk { IsClerkReady desk.now clerk.old }
    ensures back { AreBackIn desk.now.table.shared.key.value.load place.old place.new result }
    ensures managers { ManagersWent managers.old managers.new }
    ensures clerk { ClerkWent desk.now.load K.tells (K.held sink.old) (K.held sink.new) (K.faults sink.old) (K.faults sink.new) clerk.old clerk.new }
{
    let (_, short) = join_mut(
        rt,
        &mut ||
            requires { IsSync R.row × IsSync G.row × All (IsManagerReady desk.now) managers.now × (0 < length managers.now) × IsClerkReady desk.now clerk.now }
            ensures { ManagersWent managers.entry.now managers.exit.now × ClerkWent desk.entry.now.load K.tells (K.held sink.entry.now) (K.held sink.exit.now) (K.faults sink.entry.now) (K.faults sink.exit.now) clerk.entry.now clerk.exit.now }
        { flush_and_tell(rt, desk, crew, managers, clerk, sink, gate) },
        &mut || -> bool
            requires { IsSync R.row × IsSync G.row × IsPlaced desk.now place.now × Opened desk.now.table.shared.key.value.load desk.now.table.shared.key.value }
            ensures { AreBackIn desk.entry.now.table.shared.key.value.load place.entry.now place.exit.now result }
        { work_there(rt, desk, place, crew, gate) },
    );
    short
}

/// The workers of the head in this place.
fn work_there<R: Threads + Wait + Sync, G: Gate + Sync>(
    rt: &R,
    desk: &Desk,
    place: &mut Option<Head>,
    crew: &Crew,
    gate: &G,
) -> bool
    requires placed { IsPlaced desk.now place.old }
    requires run { Opened desk.now.table.shared.key.value.load desk.now.table.shared.key.value }
    ensures { AreBackIn desk.now.table.shared.key.value.load place.old place.new result }
{
    let Some(head) = place.take() else {
        unreachable!()
    };
    let (head, short) = work_side_by_side(rt, desk, head, crew, gate);
    *place = Some(head);
    short
}

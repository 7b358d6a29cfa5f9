//! Managers and the clerk side by side, each in a thread of its own.
ghost use Rattle.std.specs.Prelude.{◌<◌, length};
ghost use Rattle.std.specs.List.{All};
ghost use Rattle.std.specs.Thread.{IsSync};
ghost use Rattle.tau_crew.specs.Together.{ClerkWent, IsClerkReady, IsManagerReady, ManagerWent, ManagersWent};

use crate::clerk::ClerkJob;
use crate::manager::ManagerJob;
use crate::shared::Crew;
use std::sync::Wait;
use std::thread;
use std::thread::{Threads, join_mut};
use tau_desk::Desk;
use tau_disk::{Disk, Gate, Sink};

/// A manager's loop. Then the manager is through.
fn manage<R: Wait, D: Disk, G: Gate>(
    rt: &R,
    desk: &Desk,
    crew: &Crew,
    job: &mut ManagerJob<D>,
    gate: &G,
)
    requires ready { IsManagerReady desk.now job.old }
    ensures { ManagerWent job.old job.new }
{
    job.run(rt, desk, crew, gate);
    crew.flushed();
}

/// All managers, each in a thread of its own.
fn manage_all<R: Threads + Wait + Sync, D: Disk + Send, G: Gate + Sync>(
    rt: &R,
    desk: &Desk,
    crew: &Crew,
    jobs: &mut [ManagerJob<D>],
    gate: &G,
)
    requires ready { All (IsManagerReady desk.now) jobs.old }
    requires some { 0 < length jobs.old }
    ensures { ManagersWent jobs.old jobs.new }
{
    let count = jobs.len();
    thread::for_each_mut(
        rt,
        jobs,
        count,
        &|_index: usize, job: &mut ManagerJob<D>|
            requires { IsManagerReady desk.now job.old }
            ensures { ManagerWent job.old job.new }
        { manage(rt, desk, crew, job, gate) },
    );
}

/// The clerk's loop.
fn tell<R: Wait, K: Sink, G: Gate>(
    rt: &R,
    desk: &Desk,
    crew: &Crew,
    clerk: &mut ClerkJob,
    sink: &mut K,
    gate: &G,
)
    requires ready { IsClerkReady desk.now clerk.old }
    ensures { ClerkWent desk.now.load K.tells (K.held sink.old) (K.held sink.new) (K.faults sink.old) (K.faults sink.new) clerk.old clerk.new }
{
    clerk.run(rt, desk, crew, sink, gate);
}

/// The managers, and the clerk beside them. Where no thread can be made the clerk comes last.
pub(crate) fn flush_and_tell<
    R: Threads + Wait + Sync,
    D: Disk + Send,
    K: Sink + Send,
    G: Gate + Sync,
>(
    rt: &R,
    desk: &Desk,
    crew: &Crew,
    managers: &mut [ManagerJob<D>],
    clerk: &mut ClerkJob,
    sink: &mut K,
    gate: &G,
)
    requires managers { All (IsManagerReady desk.now) managers.old }
    requires some { 0 < length managers.old }
    requires clerk { IsClerkReady desk.now clerk.old }
    ensures managers { ManagersWent managers.old managers.new }
    ensures clerk { ClerkWent desk.now.load K.tells (K.held sink.old) (K.held sink.new) (K.faults sink.old) (K.faults sink.new) clerk.old clerk.new }
{
    join_mut(
        rt,
        &mut ||
            requires { IsSync R.row × IsSync G.row × IsClerkReady desk.now clerk.now }
            ensures { ClerkWent desk.entry.now.load K.tells (K.held sink.entry.now) (K.held sink.exit.now) (K.faults sink.entry.now) (K.faults sink.exit.now) clerk.entry.now clerk.exit.now }
        { tell(rt, desk, crew, clerk, sink, gate) },
        &mut ||
            requires { IsSync R.row × IsSync G.row × All (IsManagerReady desk.now) managers.now × (0 < length managers.now) }
            ensures { ManagersWent managers.entry.now managers.exit.now }
        { manage_all(rt, desk, crew, managers, gate) },
    );
}

//! The clerk in a thread of its own.
ghost use Rattle.std.specs.Prelude.{◌≡◌, ◌≤◌, ◌<◌, ◌⊎◌, [], true, List, ℕ, None, Some, OnOk};
ghost use Rattle.tau_disk.specs.Disk.{Rose};
ghost use Rattle.tau_crew.specs.Gathering.{raised_in};
ghost use Rattle.tau_crew.specs.Clerking.{Acknowledges, IsSameClerk, IsToldSoFar, KeepsTelling};
ghost use Rattle.tau_crew.specs.ClerkJobs.{ClerkGoes, IsClerkJob};

use crate::shared::Crew;
use crate::told::Told;
use std::sync::Wait;
use tau_ack::Waiting;
use tau_base::{Lv, NoMemory};
use tau_desk::{ClerkSeat, Desk};
use tau_disk::{Gate, Place, Sink};

/// How often in a row the clerk looks in vain before it passes over the workers all the same: a call may have ended after its
/// record was persisted.
const LOOKS: u8 = 16;

/// Whether a pass is due: a stream is persisted further, the managers are through, or so many looks in a row were in vain.
fn is_due(rose: bool, over: bool, looks: u8) -> bool {
    rose || over || looks >= LOOKS
}

/// How many looks in a row were in vain, after one more, where a pass is due or not.
fn looks_after(due: bool, looks: u8) -> u8 {
    if due {
        return 0;
    }
    looks.saturating_add(1)
}

/// Acknowledges the first pending call of a worker that the positions cover which the clerk has seen, and returns whether there was one. The
/// call is written where the last one was.
fn ack_one<R: Wait, G: Gate>(
    rt: &R,
    desk: &Desk,
    seat: &mut ClerkSeat,
    told: &mut Told,
    worker: usize,
    call: &mut Waiting,
    gate: &G,
) -> Result<bool, NoMemory>
    requires own { seat.old.table_id ≡ desk.now.table.shared.table_id }
    requires opened { seat.old.me.0.opened ≡ Some desk.now.table.shared.key.value }
    requires there { worker < desk.now.load.workers }
    requires none { told.old.missing ≡ None }
    ensures goes { Acknowledges desk.now.load seat.old seat.new told.old told.new }
    ensures none { OnOk result (told.new.missing ≡ None) }
{
    seat.agrees();
    if !seat.ack(rt, desk, worker as u8, call) {
        return Ok(false);
    }
    gate.at(Place::Ack);
    told.put(call.number, &call.lv)?;
    Ok(true)
}

/// The same until there is none, or as often as the run has calls.
fn ack_worker<R: Wait, G: Gate>(
    rt: &R,
    desk: &Desk,
    seat: &mut ClerkSeat,
    told: &mut Told,
    worker: usize,
    call: &mut Waiting,
    gate: &G,
) -> Result<(), NoMemory>
    requires own { seat.old.table_id ≡ desk.now.table.shared.table_id }
    requires opened { seat.old.me.0.opened ≡ Some desk.now.table.shared.key.value }
    requires there { worker < desk.now.load.workers }
    requires none { told.old.missing ≡ None }
    ensures goes { Acknowledges desk.now.load seat.old seat.new told.old told.new }
    ensures none { OnOk result (told.new.missing ≡ None) }
{
    for _call in 0..desk.load.calls.len() {
        if !ack_one(rt, desk, seat, told, worker, call, gate)? {
            return Ok(());
        }
    }
    Ok(())
}

/// One pass over all workers in ascending order.
fn ack_all<R: Wait, G: Gate>(
    rt: &R,
    desk: &Desk,
    seat: &mut ClerkSeat,
    told: &mut Told,
    gate: &G,
) -> Result<(), NoMemory>
    requires own { seat.old.table_id ≡ desk.now.table.shared.table_id }
    requires opened { seat.old.me.0.opened ≡ Some desk.now.table.shared.key.value }
    requires none { told.old.missing ≡ None }
    ensures goes { Acknowledges desk.now.load seat.old seat.new told.old told.new }
    ensures none { OnOk result (told.new.missing ≡ None) }
{
    let mut call = Waiting {
        number: 0,
        lv: Lv::zero(1),
    };
    for worker in 0..desk.load.workers {
        ack_worker(rt, desk, seat, told, worker, &mut call, gate)?;
    }
    Ok(())
}

/// One pass, whose lines go to the sink in one write.
fn ack_and_write<R: Wait, K: Sink, G: Gate>(
    rt: &R,
    desk: &Desk,
    seat: &mut ClerkSeat,
    told: &mut Told,
    sink: &mut K,
    gate: &G,
) -> Result<(), NoMemory>
    requires own { seat.old.table_id ≡ desk.now.table.shared.table_id }
    requires opened { seat.old.me.0.opened ≡ Some desk.now.table.shared.key.value }
    requires none { told.old.missing ≡ None }
    ensures tells { KeepsTelling desk.now.load seat.old seat.new told.old told.new }
    ensures same { IsSameClerk seat.old seat.new }
    ensures raised { raised_in seat.new.me.0 ≡ raised_in seat.old.me.0 }
    ensures none { OnOk result (told.new.missing ≡ None) }
    ensures written { told.new.lines.items ≡ [] }
    ensures heard { K.tells → (base : List ℕ) → IsToldSoFar base told.old (K.held sink.old) → IsToldSoFar base told.new (K.held sink.new) }
    ensures cause { told.new.sink_failed ≡ true → (told.old.sink_failed ≡ true) ⊎ Rose (K.faults sink.old) (K.faults sink.new) }
    ensures faults { K.faults sink.old ≤ K.faults sink.new }
{
    match ack_all(rt, desk, seat, told, gate) {
        Ok(()) => {
            told.write(sink);
            Ok(())
        }
        Err(_) => {
            told.write(sink);
            Err(NoMemory)
        }
    }
}

/// What the clerk works with beside the sink.
#[derive(Drop)]
pub struct ClerkJob {
    /// Its seat at the desk.
    pub seat: ClerkSeat,
    /// What it has told.
    pub told: Told,
    /// Whether it was out of memory. Then it does nothing more.
    pub short: bool,
}

impl ClerkJob {
    /// One pass, if memory was there so far. Lack of memory raises the stop. Returns whether it goes on.
    fn pass<R: Wait, K: Sink, G: Gate>(
        &mut self,
        rt: &R,
        desk: &Desk,
        sink: &mut K,
        gate: &G,
    ) -> bool
        requires own { self.old.seat.table_id ≡ desk.now.table.shared.table_id }
        requires opened { self.old.seat.me.0.opened ≡ Some desk.now.table.shared.key.value }
        requires clerk { IsClerkJob self.old }
        ensures goes { ClerkGoes desk.now.load self.old self.new }
        ensures clerk { IsClerkJob self.new }
        ensures heard { K.tells → (base : List ℕ) → IsToldSoFar base self.old.told (K.held sink.old) → IsToldSoFar base self.new.told (K.held sink.new) }
        ensures cause { self.new.told.sink_failed ≡ true → (self.old.told.sink_failed ≡ true) ⊎ Rose (K.faults sink.old) (K.faults sink.new) }
        ensures faults { K.faults sink.old ≤ K.faults sink.new }
    {
        if self.short {
            return false;
        }
        let ClerkJob { seat, told, short } = self;
        match ack_and_write(rt, desk, seat, told, sink, gate) {
            Ok(()) => true,
            Err(_) => {
                seat.stop(desk);
                *short = true;
                false
            }
        }
    }

    /// Looks how far each stream is persisted, and says whether one is further than was seen.
    fn look(&mut self, desk: &Desk) -> bool
        requires own { self.old.seat.table_id ≡ desk.now.table.shared.table_id }
        requires opened { self.old.seat.me.0.opened ≡ Some desk.now.table.shared.key.value }
        requires clerk { IsClerkJob self.old }
        ensures goes { ClerkGoes desk.now.load self.old self.new }
        ensures clerk { IsClerkJob self.new }
        ensures told { self.new.told ≡ self.old.told }
    {
        self.seat.look_all(desk)
    }

    /// One pass, if it is due. Returns whether the clerk goes on.
    fn pass_if<R: Wait, K: Sink, G: Gate>(
        &mut self,
        due: bool,
        rt: &R,
        desk: &Desk,
        sink: &mut K,
        gate: &G,
    ) -> bool
        requires own { self.old.seat.table_id ≡ desk.now.table.shared.table_id }
        requires opened { self.old.seat.me.0.opened ≡ Some desk.now.table.shared.key.value }
        requires clerk { IsClerkJob self.old }
        ensures goes { ClerkGoes desk.now.load self.old self.new }
        ensures clerk { IsClerkJob self.new }
        ensures heard { K.tells → (base : List ℕ) → IsToldSoFar base self.old.told (K.held sink.old) → IsToldSoFar base self.new.told (K.held sink.new) }
        ensures cause { self.new.told.sink_failed ≡ true → (self.old.told.sink_failed ≡ true) ⊎ Rose (K.faults sink.old) (K.faults sink.new) }
        ensures faults { K.faults sink.old ≤ K.faults sink.new }
    {
        if !due {
            return true;
        }
        self.pass(rt, desk, sink, gate)
    }

    /// The clerk's loop: it looks how far the streams are persisted, passes over the workers if one is further or it has looked in
    /// vain for a while, and rests if none is, until the managers are through and a last pass is made, or it is out of memory.
    pub fn run<R: Wait, K: Sink, G: Gate>(
        &mut self,
        rt: &R,
        desk: &Desk,
        crew: &Crew,
        sink: &mut K,
        gate: &G,
    )
        requires own { self.old.seat.table_id ≡ desk.now.table.shared.table_id }
        requires opened { self.old.seat.me.0.opened ≡ Some desk.now.table.shared.key.value }
        requires clerk { IsClerkJob self.old }
        ensures goes { ClerkGoes desk.now.load self.old self.new }
        ensures clerk { IsClerkJob self.new }
        ensures heard { K.tells → (base : List ℕ) → IsToldSoFar base self.old.told (K.held sink.old) → IsToldSoFar base self.new.told (K.held sink.new) }
        ensures cause { self.new.told.sink_failed ≡ true → (self.old.told.sink_failed ≡ true) ⊎ Rose (K.faults sink.old) (K.faults sink.new) }
        ensures faults { K.faults sink.old ≤ K.faults sink.new }
    {
        let mut looks = 0;
        for _ in rt.forever() {
            // Read before the look, so that a pass after the last manager has left tells all that was persisted.
            let over = crew.are_flushed();
            let rose = self.look(desk);
            let due = is_due(rose, over, looks);
            looks = looks_after(due, looks);
            if !self.pass_if(due, rt, desk, sink, gate) || over {
                return;
            }
            if !rose {
                crew.rest(rt);
            }
        }
        unreachable!()
    }
}

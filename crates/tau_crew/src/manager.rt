//! The manager of a stream in a thread of its own.
ghost use Rattle.std.specs.Prelude.{◌≡◌, ◌||◌, ◌<◌, Some, Ok, ℕ, OnOk, OnErr, false, length};
ghost use Rattle.tau_stream.specs.Writer.{durable_of, has_failed};
ghost use Rattle.tau_crew.specs.Jobs.{CanManage, IsSameManager, KeepsManager};
ghost use Rattle.tau_crew.specs.Driving.{CanDrive, EndsShort, IsApart, IsBlock, IsFlushed, KeepsDriven};

use crate::anchor::{Marks, follow};
use crate::flush::{Managing, flush, hand_over};
use crate::gather::gather_all;
use crate::shared::Crew;
use std::sync::Wait;
use tau_base::NoMemory;
use tau_desk::{Desk, ManagerSeat};
use tau_disk::{Disk, Gate};
use tau_stream::Writer;

/// What the manager of a stream works with.
#[derive(Drop)]
pub struct ManagerJob<D: Disk> {
    /// Its seat at the desk.
    pub seat: ManagerSeat,
    /// The writer of its stream.
    pub writer: Writer<D>,
    /// The number of its stream.
    pub stream: u8,
    /// What it gathers for the next block.
    pub body: Vec<u8>,
    /// Where its anchors stand.
    pub marks: Marks,
    /// Whether it was out of memory. Then it does nothing more.
    pub short: bool,
}

/// Gathers what continues the stream, and flushes it in one block. A disk that has failed is used no more.
fn gather_and_flush<R: Wait, D: Disk, G: Gate>(
    rt: &R,
    desk: &Desk,
    seat: &mut ManagerSeat,
    writer: &mut Writer<D>,
    stream: u8,
    body: &mut Vec<u8>,
    gate: &G,
) -> Result<Managing, NoMemory>
    requires own { seat.old.table_id ≡ desk.now.table.shared.table_id }
    requires opened { seat.old.me.0.opened ≡ Some desk.now.table.shared.key.value }
    requires stream { seat.old.stream ≡ stream }
    requires driven { CanDrive seat.old writer.old }
    requires flushed { IsFlushed writer.old }
    ensures keeps { OnOk result (KeepsDriven seat.old seat.new writer.old writer.new) }
    ensures flushed { OnOk result (IsFlushed writer.new) }
    ensures block { OnOk result (IsBlock (durable_of writer.old) (durable_of writer.new)) }
    ensures stays { (result ≡ Ok Managing.Flushed → ⊥) → OnOk result (durable_of writer.new ≡ durable_of writer.old) }
    ensures failed { result ≡ Ok Managing.Flushed → has_failed writer.new ≡ false }
    ensures short { OnErr result (EndsShort seat.old seat.new writer.old writer.new) }
    ensures own { (seat.new.table_id ≡ seat.old.table_id) × (seat.new.me.0.opened ≡ seat.old.me.0.opened) × (seat.new.stream ≡ seat.old.stream) }
    ensures anchors { seat.new.stock.anchors ≡ seat.old.stock.anchors }
{
    if writer.failed() {
        return Ok(Managing::Idle);
    }
    body.clear();
    gather_all(rt, desk, seat, stream, body)?;
    let upto = hand_over(writer, body)?;
    Ok(flush(desk, seat, writer, upto, gate))
}

/// One turn: what is new is flushed in one block; then entries that are covered go, and an anchor is placed if one is due.
fn manager_turn<R: Wait, D: Disk, G: Gate>(
    rt: &R,
    desk: &Desk,
    seat: &mut ManagerSeat,
    writer: &mut Writer<D>,
    stream: u8,
    body: &mut Vec<u8>,
    marks: &mut Marks,
    gate: &G,
) -> Result<Managing, NoMemory>
    requires own { seat.old.table_id ≡ desk.now.table.shared.table_id }
    requires opened { seat.old.me.0.opened ≡ Some desk.now.table.shared.key.value }
    requires stream { seat.old.stream ≡ stream }
    requires there { stream < length desk.now.load.opening.anchors.items }
    requires driven { CanDrive seat.old writer.old }
    requires flushed { IsFlushed writer.old }
    requires apart { (base : ℕ) × IsApart base (durable_of writer.old) marks.old.last marks.old.placed seat.old }
    ensures keeps { OnOk result (KeepsDriven seat.old seat.new writer.old writer.new) }
    ensures flushed { OnOk result (IsFlushed writer.new) }
    ensures apart { OnOk result ((base : ℕ) → IsApart base (durable_of writer.old) marks.old.last marks.old.placed seat.old → IsApart base (durable_of writer.new) marks.new.last marks.new.placed seat.new) }
    ensures short { OnErr result (EndsShort seat.old seat.new writer.old writer.new) }
    ensures own { (seat.new.table_id ≡ seat.old.table_id) × (seat.new.me.0.opened ≡ seat.old.me.0.opened) × (seat.new.stream ≡ seat.old.stream) }
{
    match gather_and_flush(rt, desk, seat, writer, stream, body, gate)? {
        Managing::Flushed => {
            let durable = writer.durable();
            follow(rt, desk, seat, stream, durable, marks)?;
            Ok(Managing::Flushed)
        }
        Managing::Idle => Ok(Managing::Idle),
        Managing::Failed => Ok(Managing::Failed),
    }
}

impl<D: Disk> ManagerJob<D> {
    /// One turn, where memory was there so far. Returns whether a block was flushed. Lack of memory raises the stop.
    fn turn<R: Wait, G: Gate>(&mut self, rt: &R, desk: &Desk, gate: &G) -> bool
        requires own { self.old.seat.table_id ≡ desk.now.table.shared.table_id }
        requires opened { self.old.seat.me.0.opened ≡ Some desk.now.table.shared.key.value }
        requires stream { self.old.seat.stream ≡ self.old.stream }
        requires there { self.old.stream < length desk.now.load.opening.anchors.items }
        requires manages { CanManage self.old }
        ensures keeps { KeepsManager self.old self.new }
        ensures own { IsSameManager self.old self.new }
    {
        if self.short {
            return false;
        }
        let ManagerJob {
            seat,
            writer,
            stream,
            body,
            marks,
            short,
        } = self;
        match manager_turn(rt, desk, seat, writer, *stream, body, marks, gate) {
            Ok(Managing::Flushed) => true,
            Ok(Managing::Idle) => false,
            Ok(Managing::Failed) => false,
            Err(_) => {
                seat.stop(desk);
                *short = true;
                false
            }
        }
    }

    /// Whether it has nothing more to do: its disk has failed, or memory ran out.
    fn is_over(&self) -> bool
        ensures { result ≡ (self.now.short || has_failed self.now.writer) }
    {
        self.short || self.writer.failed()
    }

    /// The manager's loop: it flushes what is new and rests where nothing is, until the workers are through and nothing is
    /// left, or its disk fails, or memory runs out.
    pub fn run<R: Wait, G: Gate>(&mut self, rt: &R, desk: &Desk, crew: &Crew, gate: &G)
        requires own { self.old.seat.table_id ≡ desk.now.table.shared.table_id }
        requires opened { self.old.seat.me.0.opened ≡ Some desk.now.table.shared.key.value }
        requires stream { self.old.seat.stream ≡ self.old.stream }
        requires there { self.old.stream < length desk.now.load.opening.anchors.items }
        requires manages { CanManage self.old }
        ensures keeps { KeepsManager self.old self.new }
        ensures own { IsSameManager self.old self.new }
    {
        for _ in rt.forever() {
            // Read before the turn, so that a turn after the last worker has left finds all that it posted.
            let left = crew.are_through();
            if self.turn(rt, desk, gate) {
                continue;
            }
            if left || self.is_over() {
                return;
            }
            crew.rest(rt);
        }
        unreachable!()
    }
}

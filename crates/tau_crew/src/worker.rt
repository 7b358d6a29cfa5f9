//! A worker runs its calls.
ghost use Rattle.std.specs.Prelude.{◌≡◌, ◌≤◌, ◌<◌, ◌⊎◌, [], None, Some, IfOk, OnErr, OnOk, true, false};
ghost use Rattle.tau_core.specs.Opens.{Opened};
ghost use Rattle.tau_txn.specs.Next.{kind_of, next_action};
ghost use Rattle.tau_txn.specs.Txn.{held_in};
ghost use Rattle.tau_desk.specs.Works.{IsSameSeat};
ghost use Rattle.tau_crew.specs.Working.{HasNone, IsUnjoined, WorkerEnds, WorksOn, has_raised};

use crate::optimist;
use std::sync::Wait;
use std::thread;
use tau_base::{ANCHOR_BYTES, NoMemory, stream_of};
use tau_desk::{Acted, Desk, WorkerSeat};
use tau_disk::{Gate, Place};
use tau_occ::Style;
use tau_txn::ActionKind;

/// Runs the calls of the worker in this style on its seat until it has none left or finds the stop raised; those that met Busy
/// too often are left over then. Out of memory the call in hand gives its keys back, and the stop is raised.
pub fn work<R: Wait, G: Gate>(
    rt: &R,
    desk: &Desk,
    seat: &mut WorkerSeat,
    worker: u8,
    gate: &G,
    style: Style,
) -> Result<(), NoMemory>
    requires own { seat.old.table_id ≡ desk.now.table.shared.table_id }
    requires opened { seat.old.me.0.opened ≡ Some desk.now.table.shared.key.value }
    requires run { Opened desk.now.table.shared.key.value.load desk.now.table.shared.key.value }
    requires style { style ≡ Style.Optimistic → desk.now.style ≡ Style.Optimistic }
    requires rests { seat.old.work.txn.hand ≡ None }
    ensures { WorkerEnds desk.now.table.shared.key.value.load seat.old seat.new result }
{
    seat.agrees();
    match run_in(rt, desk, seat, worker, gate, style) {
        Ok(()) => {
            seat.agrees();
            Ok(())
        }
        Err(error) => {
            cut_short(rt, desk, seat);
            seat.agrees();
            Err(error)
        }
    }
}

/// Runs calls of the worker in this style. Out of memory, the call in hand has not joined the committed ones.
fn run_in<R: Wait, G: Gate>(
    rt: &R,
    desk: &Desk,
    seat: &mut WorkerSeat,
    worker: u8,
    gate: &G,
    style: Style,
) -> Result<(), NoMemory>
    requires own { seat.old.table_id ≡ desk.now.table.shared.table_id }
    requires opened { seat.old.me.0.opened ≡ Some desk.now.table.shared.key.value }
    requires run { Opened desk.now.table.shared.key.value.load desk.now.table.shared.key.value }
    requires style { style ≡ Style.Optimistic → desk.now.style ≡ Style.Optimistic }
    requires rests { seat.old.work.txn.hand ≡ None }
    ensures works { WorksOn seat.old seat.new }
    ensures rests { OnOk result (seat.new.work.txn.hand ≡ None) }
    ensures ended { OnOk result ((seat.new.me.0.found ≡ true) ⊎ HasNone desk.now.table.shared.key.value.load seat.new) }
    ensures short { OnErr result (IsUnjoined seat.new.work.txn) }
{
    match style {
        Style::Locking => run_calls(rt, desk, seat, worker, gate),
        Style::Optimistic => optimist::run_calls(rt, desk, seat, worker, gate),
    }
}

/// The call in hand, which has not joined the committed ones, is given up, and the stop is raised.
fn cut_short<R: Wait>(rt: &R, desk: &Desk, seat: &mut WorkerSeat)
    requires own { seat.old.table_id ≡ desk.now.table.shared.table_id }
    requires opened { seat.old.me.0.opened ≡ Some desk.now.table.shared.key.value }
    requires unjoined { IsUnjoined seat.old.work.txn }
    ensures seat { IsSameSeat seat.old seat.new }
    ensures held { held_in seat.new.work.txn ≡ [] }
    ensures unjoined { IsUnjoined seat.new.work.txn }
    ensures raised { has_raised seat.new ≡ true }
{
    give_up(rt, desk, seat);
    seat.stop(desk);
}

/// The call in hand, which has not joined the committed ones, gives its keys back. One that has made no event comes next again.
fn give_up<R: Wait>(rt: &R, desk: &Desk, seat: &mut WorkerSeat)
    requires own { seat.old.table_id ≡ desk.now.table.shared.table_id }
    requires opened { seat.old.me.0.opened ≡ Some desk.now.table.shared.key.value }
    requires unjoined { IsUnjoined seat.old.work.txn }
    ensures seat { IsSameSeat seat.old seat.new }
    ensures held { held_in seat.new.work.txn ≡ [] }
    ensures unjoined { IsUnjoined seat.new.work.txn }
{
    if seat.give_up() {
        give_keys_back(rt, desk, seat);
    }
}

/// The call in hand, which was given up, gives its keys back, until it is in hand no more.
fn give_keys_back<R: Wait>(rt: &R, desk: &Desk, seat: &mut WorkerSeat)
    requires own { seat.old.table_id ≡ desk.now.table.shared.table_id }
    requires opened { seat.old.me.0.opened ≡ Some desk.now.table.shared.key.value }
    ensures seat { IsSameSeat seat.old seat.new }
    ensures gone { seat.new.work.txn.hand ≡ None }
{
    for _ in rt.forever() {
        if !seat.in_hand() {
            return;
        }
        let _acted = seat.quit(rt, desk);
    }
    unreachable!()
}

/// Runs calls of the worker, one after another, until it has none left or finds the stop raised. A call that meets Busy too
/// often is left over. Out of memory, the call in hand has not joined the committed ones.
fn run_calls<R: Wait, G: Gate>(
    rt: &R,
    desk: &Desk,
    seat: &mut WorkerSeat,
    worker: u8,
    gate: &G,
) -> Result<(), NoMemory>
    requires own { seat.old.table_id ≡ desk.now.table.shared.table_id }
    requires opened { seat.old.me.0.opened ≡ Some desk.now.table.shared.key.value }
    requires run { Opened desk.now.table.shared.key.value.load desk.now.table.shared.key.value }
    requires rests { seat.old.work.txn.hand ≡ None }
    ensures works { WorksOn seat.old seat.new }
    ensures rests { OnOk result (seat.new.work.txn.hand ≡ None) }
    ensures ended { OnOk result ((seat.new.me.0.found ≡ true) ⊎ HasNone desk.now.table.shared.key.value.load seat.new) }
    ensures short { OnErr result (IsUnjoined seat.new.work.txn) }
{
    for _ in rt.forever() {
        if seat.stopped(desk) {
            return Ok(());
        }
        if !run_next(rt, desk, seat, worker, gate)? {
            return Ok(());
        }
    }
    unreachable!()
}

/// Runs the next call of the worker to its end, and returns whether there was one. Out of memory, the call in hand, if there
/// is one, has not joined the committed ones.
fn run_next<R: Wait, G: Gate>(
    rt: &R,
    desk: &Desk,
    seat: &mut WorkerSeat,
    worker: u8,
    gate: &G,
) -> Result<bool, NoMemory>
    requires own { seat.old.table_id ≡ desk.now.table.shared.table_id }
    requires opened { seat.old.me.0.opened ≡ Some desk.now.table.shared.key.value }
    requires run { Opened desk.now.table.shared.key.value.load desk.now.table.shared.key.value }
    requires rests { seat.old.work.txn.hand ≡ None }
    ensures works { WorksOn seat.old seat.new }
    ensures rests { OnOk result (seat.new.work.txn.hand ≡ None) }
    ensures none { IfOk result (λ b. b ≡ false → HasNone desk.now.table.shared.key.value.load seat.new) }
    ensures short { OnErr result (IsUnjoined seat.new.work.txn) }
{
    if !begin_next(rt, desk, seat)? {
        return Ok(false);
    }
    gate.at(Place::Call { worker });
    run_call(rt, desk, seat, worker, gate)?;
    Ok(true)
}

/// The next call of the worker comes into the hand, and has done nothing. Returns whether there is one.
pub(crate) fn begin_next<R: Wait>(
    rt: &R,
    desk: &Desk,
    seat: &mut WorkerSeat,
) -> Result<bool, NoMemory>
    requires own { seat.old.table_id ≡ desk.now.table.shared.table_id }
    requires opened { seat.old.me.0.opened ≡ Some desk.now.table.shared.key.value }
    requires run { Opened desk.now.table.shared.key.value.load desk.now.table.shared.key.value }
    requires rests { seat.old.work.txn.hand ≡ None }
    ensures works { WorksOn seat.old seat.new }
    ensures rests { IfOk result (λ b. b ≡ false → seat.new.work.txn.hand ≡ None) }
    ensures none { IfOk result (λ b. b ≡ false → HasNone desk.now.table.shared.key.value.load seat.new) }
    ensures short { OnErr result (IsUnjoined seat.new.work.txn) }
{
    make_ready(rt, desk, seat)?;
    seat.agrees();
    seat.begin(desk)
}

/// Makes room in the outbox for the next call, where it is missing.
fn make_ready<R: Wait>(rt: &R, desk: &Desk, seat: &mut WorkerSeat) -> Result<(), NoMemory>
    requires own { seat.old.table_id ≡ desk.now.table.shared.table_id }
    requires opened { seat.old.me.0.opened ≡ Some desk.now.table.shared.key.value }
    ensures works { WorksOn seat.old seat.new }
    ensures txn { seat.new.work.txn ≡ seat.old.work.txn }
    ensures roomy { OnOk result (1 ≤ seat.new.work.spare.1) }
{
    if seat.is_roomy() {
        return Ok(());
    }
    if seat.make_room(rt, desk) {
        return Ok(());
    }
    Err(NoMemory)
}

/// Runs the call in hand to its end. Out of memory, it has not joined the committed ones.
fn run_call<R: Wait, G: Gate>(
    rt: &R,
    desk: &Desk,
    seat: &mut WorkerSeat,
    worker: u8,
    gate: &G,
) -> Result<(), NoMemory>
    requires own { seat.old.table_id ≡ desk.now.table.shared.table_id }
    requires opened { seat.old.me.0.opened ≡ Some desk.now.table.shared.key.value }
    ensures works { WorksOn seat.old seat.new }
    ensures rests { OnOk result (seat.new.work.txn.hand ≡ None) }
    ensures short { OnErr result (IsUnjoined seat.new.work.txn) }
{
    for _ in rt.forever() {
        if !seat.in_hand() {
            return Ok(());
        }
        act(rt, desk, seat, worker, gate)?;
    }
    unreachable!()
}

/// The next action of the call in hand. Out of memory, the call has not joined the committed ones.
pub(crate) fn act<R: Wait, G: Gate>(
    rt: &R,
    desk: &Desk,
    seat: &mut WorkerSeat,
    worker: u8,
    gate: &G,
) -> Result<(), NoMemory>
    requires own { seat.old.table_id ≡ desk.now.table.shared.table_id }
    requires opened { seat.old.me.0.opened ≡ Some desk.now.table.shared.key.value }
    ensures works { WorksOn seat.old seat.new }
    ensures short { OnErr result (IsUnjoined seat.new.work.txn) }
{
    match seat.next() {
        ActionKind::Lock => lock(rt, desk, seat),
        ActionKind::Quit => Ok(quit(rt, desk, seat)),
        ActionKind::Commit => commit(rt, desk, seat, worker, gate),
        ActionKind::Post => Ok(post(rt, desk, seat, worker, gate)),
        ActionKind::Free => Ok(free(rt, desk, seat)),
        ActionKind::Done => Ok(done(rt, desk, seat)),
        ActionKind::LeftOver => Ok(()),
        ActionKind::Nothing => Ok(()),
    }
}

/// The call locks the key that it wants, or meets Busy.
fn lock<R: Wait>(rt: &R, desk: &Desk, seat: &mut WorkerSeat) -> Result<(), NoMemory>
    requires own { seat.old.table_id ≡ desk.now.table.shared.table_id }
    requires opened { seat.old.me.0.opened ≡ Some desk.now.table.shared.key.value }
    requires next { kind_of (next_action seat.old.work.txn) ≡ ActionKind.Lock }
    ensures works { WorksOn seat.old seat.new }
    ensures short { OnErr result (IsUnjoined seat.new.work.txn) }
{
    seat.agrees();
    match seat.lock(rt, desk) {
        Acted::Went => Ok(()),
        Acted::Busy => Ok(give_way(seat)),
        Acted::Other => Ok(()),
        Acted::NoMemory => Err(NoMemory),
    }
}

/// Lets other threads run before a call that met Busy begins again: who holds its key may have no processor.
pub(crate) fn give_way(seat: &WorkerSeat) {
    match seat.next() {
        ActionKind::Quit => {}
        _ => thread::yield_now(),
    }
}

/// The call, which met Busy, gives its lowest key back.
fn quit<R: Wait>(rt: &R, desk: &Desk, seat: &mut WorkerSeat)
    requires own { seat.old.table_id ≡ desk.now.table.shared.table_id }
    requires opened { seat.old.me.0.opened ≡ Some desk.now.table.shared.key.value }
    ensures { WorksOn seat.old seat.new }
{
    seat.agrees();
    let _acted = seat.quit(rt, desk);
    give_way(seat);
}

/// Whether an anchor may be published that the worker has not read: the stream is persisted so far beyond the last one as
/// anchors stand apart.
fn may_be_newer(desk: &Desk, seat: &mut WorkerSeat, stream: u8) -> bool
    requires own { seat.old.table_id ≡ desk.now.table.shared.table_id }
    requires opened { seat.old.me.0.opened ≡ Some desk.now.table.shared.key.value }
    requires there { stream < desk.now.streams }
    ensures works { WorksOn seat.old seat.new }
    ensures txn { seat.new.work.txn ≡ seat.old.work.txn }
{
    let upto = seat.persisted(desk, stream);
    upto >= seat.anchored() + ANCHOR_BYTES
}

/// Reads the newest published anchor, if there may be one that the worker has not read.
fn read_newer<R: Wait>(rt: &R, desk: &Desk, seat: &mut WorkerSeat, stream: u8)
    requires own { seat.old.table_id ≡ desk.now.table.shared.table_id }
    requires opened { seat.old.me.0.opened ≡ Some desk.now.table.shared.key.value }
    requires there { stream < desk.now.streams }
    requires next { kind_of (next_action seat.old.work.txn) ≡ ActionKind.Commit }
    ensures works { WorksOn seat.old seat.new }
    ensures txn { seat.new.work.txn ≡ seat.old.work.txn }
{
    if !may_be_newer(desk, seat, stream) {
        return;
    }
    seat.read_anchor(rt, desk);
}

/// The record of the call, which has all its keys, is made above the newest published anchor of the stream, gets its place, and is
/// posted.
fn commit<R: Wait, G: Gate>(
    rt: &R,
    desk: &Desk,
    seat: &mut WorkerSeat,
    worker: u8,
    gate: &G,
) -> Result<(), NoMemory>
    requires own { seat.old.table_id ≡ desk.now.table.shared.table_id }
    requires opened { seat.old.me.0.opened ≡ Some desk.now.table.shared.key.value }
    requires next { kind_of (next_action seat.old.work.txn) ≡ ActionKind.Commit }
    ensures works { WorksOn seat.old seat.new }
    ensures short { OnErr result (IsUnjoined seat.new.work.txn) }
{
    let stream = stream_of(worker as usize, desk.streams);
    read_newer(rt, desk, seat, stream as u8);
    seat.agrees();
    match seat.commit(desk) {
        Acted::Went => Ok(post(rt, desk, seat, worker, gate)),
        Acted::Busy => Ok(()),
        Acted::Other => Ok(()),
        Acted::NoMemory => Err(NoMemory),
    }
}

/// The record, which has its place, is posted.
fn post<R: Wait, G: Gate>(rt: &R, desk: &Desk, seat: &mut WorkerSeat, worker: u8, gate: &G)
    requires own { seat.old.table_id ≡ desk.now.table.shared.table_id }
    requires opened { seat.old.me.0.opened ≡ Some desk.now.table.shared.key.value }
    requires next { kind_of (next_action seat.old.work.txn) ≡ ActionKind.Post }
    ensures { WorksOn seat.old seat.new }
{
    seat.agrees();
    seat.post(rt, desk);
    let stream = stream_of(worker as usize, desk.streams);
    gate.at(Place::Commit {
        stream: stream as u8,
    });
}

/// The call frees its lowest key. One that only read joins the committed ones by the first.
fn free<R: Wait>(rt: &R, desk: &Desk, seat: &mut WorkerSeat)
    requires own { seat.old.table_id ≡ desk.now.table.shared.table_id }
    requires opened { seat.old.me.0.opened ≡ Some desk.now.table.shared.key.value }
    ensures { WorksOn seat.old seat.new }
{
    seat.agrees();
    if seat.has_joined() {
        let _acted = seat.free(rt, desk);
        return;
    }
    let _acted = seat.first_free(rt, desk);
}

/// The call has ended, and waits for its acknowledgement. One that only read, and held no key, joins the committed ones by that.
fn done<R: Wait>(rt: &R, desk: &Desk, seat: &mut WorkerSeat)
    requires own { seat.old.table_id ≡ desk.now.table.shared.table_id }
    requires opened { seat.old.me.0.opened ≡ Some desk.now.table.shared.key.value }
    requires next { kind_of (next_action seat.old.work.txn) ≡ ActionKind.Done }
    ensures { WorksOn seat.old seat.new }
{
    seat.agrees();
    if seat.has_joined() {
        seat.done(rt, desk);
        return;
    }
    seat.done_reading(rt, desk);
}

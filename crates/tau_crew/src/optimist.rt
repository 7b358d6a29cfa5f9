//! An optimistic worker runs its calls: each try of a call runs on peeked values first, and then takes its locks.
ghost use Rattle.std.specs.Prelude.{◌≡◌, ◌⊎◌, None, Some, IfOk, OnErr, OnOk, false, true};
ghost use Rattle.tau_core.specs.Opens.{Opened};
ghost use Rattle.tau_txn.specs.Next.{kind_of, next_action};
ghost use Rattle.tau_crew.specs.Working.{HasNone, IsUnjoined, WorksOn};

use crate::worker::{act, begin_next, give_way};
use std::sync::Wait;
use tau_base::{Key, NoMemory};
use tau_desk::{Acted, Desk, WorkerSeat};
use tau_disk::{Gate, Place};
use tau_occ::{Peeker, Style};
use tau_txn::ActionKind;

/// Runs calls of the worker, one after another, until it has none left or finds the stop raised. A call that meets Busy too
/// often is left over. Out of memory, the call in hand has not joined the committed ones.
pub(crate) fn run_calls<R: Wait, G: Gate>(
    rt: &R,
    desk: &Desk,
    seat: &mut WorkerSeat,
    worker: u8,
    gate: &G,
) -> Result<(), NoMemory>
    requires own { seat.old.table_id ≡ desk.now.table.shared.table_id }
    requires opened { seat.old.me.0.opened ≡ Some desk.now.table.shared.key.value }
    requires run { Opened desk.now.table.shared.key.value.load desk.now.table.shared.key.value }
    requires optimistic { desk.now.style ≡ Style.Optimistic }
    requires rests { seat.old.work.txn.hand ≡ None }
    ensures works { WorksOn seat.old seat.new }
    ensures rests { OnOk result (seat.new.work.txn.hand ≡ None) }
    ensures ended { OnOk result ((seat.new.me.0.found ≡ true) ⊎ HasNone desk.now.table.shared.key.value.load seat.new) }
    ensures short { OnErr result (IsUnjoined seat.new.work.txn) }
{
    let mut peeker = Peeker::new(desk.kept.alloc);
    for _ in rt.forever() {
        if seat.stopped(desk) {
            return Ok(());
        }
        if !run_next(rt, desk, seat, worker, gate, &mut peeker)? {
            return Ok(());
        }
    }
    unreachable!()
}

/// Runs the next call of the worker to its end, and returns whether there was one. Out of memory, the call in hand, if there
/// is one, has not joined the committed ones.
fn run_next<R: Wait, G: Gate>(
    rt: &R,
    desk: &Desk,
    seat: &mut WorkerSeat,
    worker: u8,
    gate: &G,
    peeker: &mut Peeker,
) -> Result<bool, NoMemory>
    requires own { seat.old.table_id ≡ desk.now.table.shared.table_id }
    requires opened { seat.old.me.0.opened ≡ Some desk.now.table.shared.key.value }
    requires run { Opened desk.now.table.shared.key.value.load desk.now.table.shared.key.value }
    requires optimistic { desk.now.style ≡ Style.Optimistic }
    requires rests { seat.old.work.txn.hand ≡ None }
    ensures works { WorksOn seat.old seat.new }
    ensures rests { OnOk result (seat.new.work.txn.hand ≡ None) }
    ensures none { IfOk result (λ b. b ≡ false → HasNone desk.now.table.shared.key.value.load seat.new) }
    ensures short { OnErr result (IsUnjoined seat.new.work.txn) }
{
    if !begin_next(rt, desk, seat)? {
        return Ok(false);
    }
    gate.at(Place::Call { worker });
    run_call(rt, desk, seat, worker, gate, peeker)?;
    Ok(true)
}

/// Runs the call in hand to its end. Out of memory, it has not joined the committed ones.
fn run_call<R: Wait, G: Gate>(
    rt: &R,
    desk: &Desk,
    seat: &mut WorkerSeat,
    worker: u8,
    gate: &G,
    peeker: &mut Peeker,
) -> Result<(), NoMemory>
    requires own { seat.old.table_id ≡ desk.now.table.shared.table_id }
    requires opened { seat.old.me.0.opened ≡ Some desk.now.table.shared.key.value }
    requires optimistic { desk.now.style ≡ Style.Optimistic }
    ensures works { WorksOn seat.old seat.new }
    ensures rests { OnOk result (seat.new.work.txn.hand ≡ None) }
    ensures short { OnErr result (IsUnjoined seat.new.work.txn) }
{
    peeker.forget();
    for _ in rt.forever() {
        if !seat.in_hand() {
            return Ok(());
        }
        act_peeking(rt, desk, seat, worker, gate, peeker)?;
    }
    unreachable!()
}

/// The next action of the call in hand, or a peek before its first lock. Out of memory, the call has not joined the committed
/// ones.
fn act_peeking<R: Wait, G: Gate>(
    rt: &R,
    desk: &Desk,
    seat: &mut WorkerSeat,
    worker: u8,
    gate: &G,
    peeker: &mut Peeker,
) -> Result<(), NoMemory>
    requires own { seat.old.table_id ≡ desk.now.table.shared.table_id }
    requires opened { seat.old.me.0.opened ≡ Some desk.now.table.shared.key.value }
    requires optimistic { desk.now.style ≡ Style.Optimistic }
    ensures works { WorksOn seat.old seat.new }
    ensures short { OnErr result (IsUnjoined seat.new.work.txn) }
{
    match seat.next() {
        ActionKind::Lock => peek_or_lock(rt, desk, seat, peeker),
        _ => act(rt, desk, seat, worker, gate),
    }
}

/// The call, which is at a lock, peeks the next key that it wants on the values peeked. Once it has ended on them it locks.
fn peek_or_lock<R: Wait>(
    rt: &R,
    desk: &Desk,
    seat: &mut WorkerSeat,
    peeker: &mut Peeker,
) -> Result<(), NoMemory>
    requires own { seat.old.table_id ≡ desk.now.table.shared.table_id }
    requires opened { seat.old.me.0.opened ≡ Some desk.now.table.shared.key.value }
    requires optimistic { desk.now.style ≡ Style.Optimistic }
    requires next { kind_of (next_action seat.old.work.txn) ≡ ActionKind.Lock }
    ensures works { WorksOn seat.old seat.new }
    ensures short { OnErr result (IsUnjoined seat.new.work.txn) }
{
    begin_first(desk, seat, peeker);
    match peeker.wants() {
        Some(key) => peek(rt, desk, seat, peeker, key),
        None => lock_seen(rt, desk, seat, peeker),
    }
}

/// The call begins to peek, unless a value of it was seen.
fn begin_first(desk: &Desk, seat: &WorkerSeat, peeker: &mut Peeker)
    requires opened { seat.now.me.0.opened ≡ Some desk.now.table.shared.key.value }
    requires next { kind_of (next_action seat.now.work.txn) ≡ ActionKind.Lock }
{
    if !peeker.is_empty() {
        return;
    }
    seat.begin_peeking(desk, peeker);
}

/// The row of the key that was asked for is peeked.
fn peek<R: Wait>(
    rt: &R,
    desk: &Desk,
    seat: &mut WorkerSeat,
    peeker: &mut Peeker,
    key: Key,
) -> Result<(), NoMemory>
    requires own { seat.old.table_id ≡ desk.now.table.shared.table_id }
    requires opened { seat.old.me.0.opened ≡ Some desk.now.table.shared.key.value }
    requires next { kind_of (next_action seat.old.work.txn) ≡ ActionKind.Lock }
    requires asked { peeker.old.asked ≡ Some key }
    ensures works { WorksOn seat.old seat.new }
    ensures short { OnErr result (IsUnjoined seat.new.work.txn) }
{
    let value = seat.peek(rt, desk, key);
    peeker.saw(value)
}

/// The call, which has ended on the values peeked, locks the key that it wants, or meets Busy: then nothing is peeked of its
/// next try.
fn lock_seen<R: Wait>(
    rt: &R,
    desk: &Desk,
    seat: &mut WorkerSeat,
    peeker: &mut Peeker,
) -> Result<(), NoMemory>
    requires own { seat.old.table_id ≡ desk.now.table.shared.table_id }
    requires opened { seat.old.me.0.opened ≡ Some desk.now.table.shared.key.value }
    requires optimistic { desk.now.style ≡ Style.Optimistic }
    requires next { kind_of (next_action seat.old.work.txn) ≡ ActionKind.Lock }
    ensures works { WorksOn seat.old seat.new }
    ensures short { OnErr result (IsUnjoined seat.new.work.txn) }
{
    seat.agrees();
    match seat.lock_seen(rt, desk, peeker) {
        Acted::Went => Ok(()),
        Acted::Busy => {
            peeker.forget();
            Ok(give_way(seat))
        }
        Acted::Other => Ok(()),
        Acted::NoMemory => Err(NoMemory),
    }
}

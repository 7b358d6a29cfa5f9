//! Two workers on their seats, turn by turn.
ghost use Rattle.std.specs.Prelude.{◌≡◌, Some};
ghost use Rattle.tau_core.specs.Opens.{Opened};
ghost use Rattle.tau_desk.specs.Works.{IsSameSeat};

use crate::rows::{is_value, keeps};
use crate::seats::{split, worker_number};
use crate::work::{act, outcome};
use std::alloc::Global;
use std::sync::Wait;
use tau_desk::{Acted, Desk, Head, WorkerSeat};
use tau_occ::{Peeker, Style};
use tau_txn::ActionKind;

/// The worker peeks the key that its call wants, or locks what it has peeked. Whether that comes to this.
fn peeks_or_locks<R: Wait>(
    rt: &R,
    desk: &Desk,
    seat: &mut WorkerSeat,
    peeker: &mut Peeker,
    wanted: &str,
) -> bool
    requires own { seat.old.table_id ≡ desk.now.table.shared.table_id }
    requires opened { seat.old.me.0.opened ≡ Some desk.now.table.shared.key.value }
    requires optimistic { desk.now.style ≡ Style.Optimistic }
    ensures { IsSameSeat seat.old seat.new }
{
    if !seat.in_hand() {
        return false;
    }
    if peeker.is_empty() {
        seat.begin_peeking(desk, peeker);
    }
    match peeker.wants() {
        Some(key) => {
            let value = seat.peek(rt, desk, key);
            let is = is_value(&value, wanted.strip_prefix("peeked ").unwrap_or(""));
            peeker.saw(value).is_ok() && is
        }
        None => {
            let acted = seat.lock_seen(rt, desk, peeker);
            if let Acted::Busy = acted {
                peeker.forget();
            }
            outcome(acted, "locked") == wanted
        }
    }
}

/// Whether the next turn of the worker comes to this, or its committed calls are so.
fn turn<R: Wait>(
    rt: &R,
    desk: &Desk,
    seat: &mut WorkerSeat,
    peeker: &mut Peeker,
    peeks: bool,
    wanted: &str,
) -> bool
    requires own { seat.old.table_id ≡ desk.now.table.shared.table_id }
    requires opened { seat.old.me.0.opened ≡ Some desk.now.table.shared.key.value }
    requires run { Opened desk.now.table.shared.key.value.load desk.now.table.shared.key.value }
    ensures { IsSameSeat seat.old seat.new }
{
    if let Some(line) = wanted.strip_prefix("keeps ") {
        return keeps(seat.committed(), line);
    }
    match desk.style {
        Style::Optimistic if peeks && seat.next() == ActionKind::Lock => {
            peeks_or_locks(rt, desk, seat, peeker, wanted)
        }
        _ => act(rt, desk, seat) == wanted,
    }
}

/// Whether the line is right. The first worker peeks in the style Optimistic.
fn line_goes<R: Wait>(
    rt: &R,
    desk: &Desk,
    first: &mut WorkerSeat,
    second: &mut WorkerSeat,
    peeker: &mut Peeker,
    line: &str,
) -> bool
    requires first { (first.old.table_id ≡ desk.now.table.shared.table_id) × (first.old.me.0.opened ≡ Some desk.now.table.shared.key.value) }
    requires second { (second.old.table_id ≡ desk.now.table.shared.table_id) × (second.old.me.0.opened ≡ Some desk.now.table.shared.key.value) }
    requires run { Opened desk.now.table.shared.key.value.load desk.now.table.shared.key.value }
    ensures first { (first.new.table_id ≡ first.old.table_id) × (first.new.me.0.opened ≡ first.old.me.0.opened) }
    ensures second { (second.new.table_id ≡ second.old.table_id) × (second.new.me.0.opened ≡ second.old.me.0.opened) }
{
    match line.split_once(' ') {
        Some(("0", wanted)) => turn(rt, desk, first, peeker, true, wanted),
        Some(("1", wanted)) => turn(rt, desk, second, peeker, false, wanted),
        _ => false,
    }
}

/// The first line that is wrong is an `Err`.
fn all_turns<'a, R: Wait>(
    rt: &R,
    alloc: Global,
    desk: &Desk,
    first: &mut WorkerSeat,
    second: &mut WorkerSeat,
    lines: &'a str,
) -> Result<(), &'a str>
    requires first { (first.old.table_id ≡ desk.now.table.shared.table_id) × (first.old.me.0.opened ≡ Some desk.now.table.shared.key.value) }
    requires second { (second.old.table_id ≡ desk.now.table.shared.table_id) × (second.old.me.0.opened ≡ Some desk.now.table.shared.key.value) }
    requires run { Opened desk.now.table.shared.key.value.load desk.now.table.shared.key.value }
{
    let mut peeker = Peeker::new(alloc);
    for line in lines.lines() {
        if !line_goes(rt, desk, first, second, &mut peeker, line) {
            return Err(line);
        }
    }
    Ok(())
}

/// The turns of both workers, whose seats leave the head.
pub fn turns<'a, R: Wait>(
    rt: &R,
    alloc: Global,
    desk: &Desk,
    head: &mut Head,
    lines: &'a str,
) -> Result<(), &'a str>
    requires own { head.old.table_id ≡ desk.now.table.shared.table_id }
    requires opened { head.old.me.0.opened ≡ Some desk.now.table.shared.key.value }
    requires run { Opened desk.now.table.shared.key.value.load desk.now.table.shared.key.value }
{
    let Some(Ok(mut first)) = split(desk, head, worker_number(desk, 0)) else {
        return Err("no first worker");
    };
    let Some(Ok(mut second)) = split(desk, head, worker_number(desk, 1)) else {
        return Err("no second worker");
    };
    if !lines.contains(" keeps ") {
        return Err("no committed calls");
    }
    all_turns(rt, alloc, desk, &mut first, &mut second, lines)
}

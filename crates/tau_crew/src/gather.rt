//! A manager gathers what the workers of its stream have posted.
ghost use Rattle.std.specs.Prelude.{◌≡◌, ◌<◌, ◌%◌, Some};
ghost use Rattle.tau_crew.specs.Gathering.{GathersMore};

use std::sync::Wait;
use tau_base::{NoMemory, stream_of};
use tau_desk::{Desk, ManagerSeat};

/// How often a manager goes through its outboxes at most before it flushes.
const ROUNDS: u8 = 64;

/// Moves front pieces of the outbox of a worker to the body, as far as they continue the stream and fit. Nothing is moved
/// where the worker is of another stream.
fn gather_worker<R: Wait>(
    rt: &R,
    desk: &Desk,
    seat: &mut ManagerSeat,
    stream: u8,
    worker: usize,
    body: &mut Vec<u8>,
) -> Result<(), NoMemory>
    requires own { seat.old.table_id ≡ desk.now.table.shared.table_id }
    requires opened { seat.old.me.0.opened ≡ Some desk.now.table.shared.key.value }
    requires stream { seat.old.stream ≡ stream }
    requires there { worker < desk.now.load.workers }
    ensures { GathersMore seat.old seat.new body.old.items body.new.items }
{
    if stream_of(worker, desk.streams) != stream as usize {
        return Ok(());
    }
    seat.gather(rt, desk, worker as u8, body)
}

/// The same for all workers, in ascending order.
fn gather_workers<R: Wait>(
    rt: &R,
    desk: &Desk,
    seat: &mut ManagerSeat,
    stream: u8,
    body: &mut Vec<u8>,
) -> Result<(), NoMemory>
    requires own { seat.old.table_id ≡ desk.now.table.shared.table_id }
    requires opened { seat.old.me.0.opened ≡ Some desk.now.table.shared.key.value }
    requires stream { seat.old.stream ≡ stream }
    ensures { GathersMore seat.old seat.new body.old.items body.new.items }
{
    for worker in 0..desk.load.workers {
        gather_worker(rt, desk, seat, stream, worker, body)?;
    }
    Ok(())
}

/// Moves front records of the manager's own anchors, if it has any, to the body, as far as they continue the stream and fit.
fn gather_anchors<R: Wait>(
    rt: &R,
    desk: &Desk,
    seat: &mut ManagerSeat,
    body: &mut Vec<u8>,
) -> Result<(), NoMemory>
    requires own { seat.old.table_id ≡ desk.now.table.shared.table_id }
    requires opened { seat.old.me.0.opened ≡ Some desk.now.table.shared.key.value }
    ensures { GathersMore seat.old seat.new body.old.items body.new.items }
{
    seat.agrees();
    if !seat.has_own() {
        return Ok(());
    }
    seat.gather_own(rt, desk, body)
}

/// One round over the outboxes of the stream and the manager's own anchors.
fn gather_round<R: Wait>(
    rt: &R,
    desk: &Desk,
    seat: &mut ManagerSeat,
    stream: u8,
    body: &mut Vec<u8>,
) -> Result<(), NoMemory>
    requires own { seat.old.table_id ≡ desk.now.table.shared.table_id }
    requires opened { seat.old.me.0.opened ≡ Some desk.now.table.shared.key.value }
    requires stream { seat.old.stream ≡ stream }
    ensures { GathersMore seat.old seat.new body.old.items body.new.items }
{
    gather_workers(rt, desk, seat, stream, body)?;
    gather_anchors(rt, desk, seat, body)
}

/// Whether records were placed that the manager has not gathered.
fn is_behind(desk: &Desk, seat: &mut ManagerSeat) -> bool
    requires own { seat.old.table_id ≡ desk.now.table.shared.table_id }
    requires opened { seat.old.me.0.opened ≡ Some desk.now.table.shared.key.value }
    ensures { seat.new ≡ seat.old }
{
    let gathered = seat.gathered();
    seat.placed_end(desk) > gathered
}

/// Gathers all that continues the stream and fits into a block. The outboxes are left alone where nothing was placed.
pub(crate) fn gather_all<R: Wait>(
    rt: &R,
    desk: &Desk,
    seat: &mut ManagerSeat,
    stream: u8,
    body: &mut Vec<u8>,
) -> Result<(), NoMemory>
    requires own { seat.old.table_id ≡ desk.now.table.shared.table_id }
    requires opened { seat.old.me.0.opened ≡ Some desk.now.table.shared.key.value }
    requires stream { seat.old.stream ≡ stream }
    ensures { GathersMore seat.old seat.new body.old.items body.new.items }
{
    if !is_behind(desk, seat) {
        return Ok(());
    }
    gather_rounds(rt, desk, seat, stream, body)
}

/// Gathers round by round until a round brings nothing.
fn gather_rounds<R: Wait>(
    rt: &R,
    desk: &Desk,
    seat: &mut ManagerSeat,
    stream: u8,
    body: &mut Vec<u8>,
) -> Result<(), NoMemory>
    requires own { seat.old.table_id ≡ desk.now.table.shared.table_id }
    requires opened { seat.old.me.0.opened ≡ Some desk.now.table.shared.key.value }
    requires stream { seat.old.stream ≡ stream }
    ensures { GathersMore seat.old seat.new body.old.items body.new.items }
{
    for _round in 0..ROUNDS {
        let before = body.len();
        gather_round(rt, desk, seat, stream, body)?;
        if body.len() == before {
            return Ok(());
        }
    }
    Ok(())
}

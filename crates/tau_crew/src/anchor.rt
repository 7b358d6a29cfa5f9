//! A manager places anchors, and removes entries that are not needed any more.
ghost use Rattle.std.specs.Prelude.{◌≡◌, ◌+◌, ◌<◌, ◌≤◌, ◌++◌, ◌∷◌, [], Some, ℕ, OnOk, false, length, slice_index, true};
ghost use Rattle.tau_crew.specs.Driving.{IsApart, IsBlock, KeepsSeat};

use std::sync::Wait;
use tau_base::{ANCHOR_BYTES, MAX_ANCHORS, NoMemory, SHARDS, stream_of};
use tau_desk::{Desk, ManagerSeat};

/// Where the anchors of a manager stand.
#[derive(Clone, Copy, Debug, PartialEq, Eq)]
pub struct Marks {
    /// What the newest one holds of its own stream; where there is none, where the opening ended.
    pub last: u64,
    /// How many there are.
    pub placed: u32,
}

/// Looks how far another stream is persisted.
fn look_other(desk: &Desk, seat: &mut ManagerSeat, stream: u8, other: usize)
    requires own { seat.old.table_id ≡ desk.now.table.shared.table_id }
    requires opened { seat.old.me.0.opened ≡ Some desk.now.table.shared.key.value }
    requires stream { seat.old.stream ≡ stream }
    requires there { other < desk.now.streams }
    ensures keeps { KeepsSeat seat.old seat.new }
    ensures stock { seat.new.stock ≡ seat.old.stock }
{
    if other == stream as usize {
        return;
    }
    seat.persisted(desk, other as u8);
}

/// Looks how far the other streams are persisted. Of its own the manager knows it.
fn look_others(desk: &Desk, seat: &mut ManagerSeat, stream: u8)
    requires own { seat.old.table_id ≡ desk.now.table.shared.table_id }
    requires opened { seat.old.me.0.opened ≡ Some desk.now.table.shared.key.value }
    requires stream { seat.old.stream ≡ stream }
    ensures keeps { KeepsSeat seat.old seat.new }
    ensures stock { seat.new.stock ≡ seat.old.stock }
{
    for other in 0..desk.streams {
        look_other(desk, seat, stream, other);
    }
}

/// Removes the entries of a shard that are covered, where the shard belongs to the stream.
fn sweep_shard<R: Wait>(rt: &R, desk: &Desk, seat: &mut ManagerSeat, stream: u8, number: usize)
    requires own { seat.old.table_id ≡ desk.now.table.shared.table_id }
    requires opened { seat.old.me.0.opened ≡ Some desk.now.table.shared.key.value }
    requires there { number < SHARDS }
    ensures { seat.new ≡ seat.old }
{
    if stream_of(number, desk.streams) != stream as usize {
        return;
    }
    seat.drop_covered(rt, desk, number as u8);
}

/// Removes the covered entries from the shards of the stream.
fn sweep<R: Wait>(rt: &R, desk: &Desk, seat: &mut ManagerSeat, stream: u8)
    requires own { seat.old.table_id ≡ desk.now.table.shared.table_id }
    requires opened { seat.old.me.0.opened ≡ Some desk.now.table.shared.key.value }
    ensures { seat.new ≡ seat.old }
{
    for number in 0..SHARDS {
        sweep_shard(rt, desk, seat, stream, number);
    }
}

/// Whether a stream has all the anchors that it may have, when so many were placed in it since the opening.
fn is_full(desk: &Desk, stream: u8, placed: u32) -> bool
    requires there { stream < length desk.now.load.opening.anchors.items }
    ensures full { result ≡ true → MAX_ANCHORS ≤ slice_index desk.now.load.opening.anchors.items stream + placed }
    ensures room { result ≡ false → slice_index desk.now.load.opening.anchors.items stream + placed < MAX_ANCHORS }
{
    let before = desk.load.opening.anchors.as_slice()[stream as usize];
    u64::from(before) + u64::from(placed) >= MAX_ANCHORS
}

/// Places and publishes an anchor that holds the positions which the manager has seen persisted.
fn anchor<R: Wait>(rt: &R, desk: &Desk, seat: &mut ManagerSeat) -> Result<(), NoMemory>
    requires own { seat.old.table_id ≡ desk.now.table.shared.table_id }
    requires opened { seat.old.me.0.opened ≡ Some desk.now.table.shared.key.value }
    requires few { slice_index desk.now.table.shared.key.value.load.opening.anchors.items seat.old.stream + length seat.old.stock.anchors < MAX_ANCHORS }
    ensures keeps { KeepsSeat seat.old seat.new }
    ensures more { OnOk result (seat.new.stock.anchors ≡ seat.old.stock.anchors ++ seat.old.seen ∷ []) }
{
    seat.agrees();
    seat.reserve()?;
    seat.place_anchor(rt, desk)?;
    seat.publish(rt, desk);
    Ok(())
}

/// What follows a flush, up to which the stream is persisted: entries that are covered go, and an anchor is placed if one is due,
/// unless the stream has all that it may have.
pub(crate) fn follow<R: Wait>(
    rt: &R,
    desk: &Desk,
    seat: &mut ManagerSeat,
    stream: u8,
    durable: u64,
    marks: &mut Marks,
) -> Result<(), NoMemory>
    requires own { seat.old.table_id ≡ desk.now.table.shared.table_id }
    requires opened { seat.old.me.0.opened ≡ Some desk.now.table.shared.key.value }
    requires stream { seat.old.stream ≡ stream }
    requires stored { slice_index seat.old.seen stream ≡ durable }
    requires placed { marks.old.placed ≡ length seat.old.stock.anchors }
    requires low { marks.old.last ≤ durable }
    requires there { stream < length desk.now.load.opening.anchors.items }
    ensures keeps { KeepsSeat seat.old seat.new }
    ensures apart { OnOk result ((base before : ℕ) → IsApart base before marks.old.last marks.old.placed seat.old → IsBlock before durable → IsApart base durable marks.new.last marks.new.placed seat.new) }
{
    look_others(desk, seat, stream);
    sweep(rt, desk, seat, stream);
    if durable - marks.last < ANCHOR_BYTES {
        return Ok(());
    }
    if is_full(desk, stream, marks.placed) {
        return Ok(());
    }
    anchor(rt, desk, seat)?;
    marks.last = durable;
    marks.placed += 1;
    Ok(())
}

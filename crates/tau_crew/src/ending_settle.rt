//! The head sees each stream persisted as far as its writer has it durable.
ghost use Rattle.std.specs.Prelude.{ℕ, ◌≡◌, ◌<◌, Some, true, length, slice_get, slice_index};
ghost use Rattle.tau_stream.specs.Writer.{durable_of};
ghost use Rattle.tau_crew.specs.EndJoins.{SeesDurable};
ghost use Rattle.tau_crew.specs.EndSettles.{IsSameHead, KeepsSight, SightDurable};

use std::sync::Wait;
use tau_desk::{ClerkSeat, Desk, Head};
use tau_disk::Disk;
use tau_stream::Writer;

/// What a writer has durable.
fn durable_at<D: Disk>(writers: &Vec<Writer<D>>, stream: usize) -> u64
    requires there { stream < length writers.now.items }
    ensures { (w : _) → slice_get writers.now.items stream ≡ Some w → result ≡ durable_of w }
{
    writers[stream].durable()
}

/// Looks how far a stream is persisted, and says whether that is what its writer has durable.
fn look_there<D: Disk>(
    desk: &Desk,
    seat: &mut ClerkSeat,
    writers: &Vec<Writer<D>>,
    stream: usize,
) -> bool
    requires own { seat.old.table_id ≡ desk.now.table.shared.table_id }
    requires opened { seat.old.me.0.opened ≡ Some desk.now.table.shared.key.value }
    requires there { stream < desk.now.streams }
    requires count { length writers.now.items ≡ desk.now.streams }
    ensures keeps { KeepsSight seat.old seat.new }
    ensures here { result ≡ true → (w : _) → slice_get writers.now.items stream ≡ Some w → slice_index seat.new.seen stream ≡ durable_of w }
    ensures others { (i : ℕ) → (i ≡ stream → ⊥) → slice_index seat.new.seen i ≡ slice_index seat.old.seen i }
{
    seat.agrees();
    let upto = seat.look(desk, stream as u8);
    upto == durable_at(writers, stream)
}

/// Looks how far each stream is persisted, and says whether that is what its writer has durable.
fn look_at<D: Disk>(desk: &Desk, seat: &mut ClerkSeat, writers: &Vec<Writer<D>>) -> bool
    requires own { seat.old.table_id ≡ desk.now.table.shared.table_id }
    requires opened { seat.old.me.0.opened ≡ Some desk.now.table.shared.key.value }
    requires count { length writers.now.items ≡ desk.now.streams }
    ensures keeps { KeepsSight seat.old seat.new }
    ensures all { result ≡ true → SightDurable seat.new.seen writers.now.items desk.now.streams }
{
    for stream in 0..desk.streams {
        if !look_there(desk, seat, writers, stream) {
            return false;
        }
    }
    true
}

/// The same by the head, of which the clerk's role is here.
fn looks<D: Disk>(desk: &Desk, head: &mut Head, writers: &Vec<Writer<D>>) -> bool
    requires own { head.old.table_id ≡ desk.now.table.shared.table_id }
    requires opened { head.old.me.0.opened ≡ Some desk.now.table.shared.key.value }
    requires clerk { head.old.clerk ≡ true }
    requires count { length writers.now.items ≡ desk.now.streams }
    ensures same { IsSameHead head.old head.new }
    ensures all { result ≡ true → SeesDurable head.new writers.now.items }
{
    head.agrees();
    let mut seat = desk.split_clerk(head);
    let are = look_at(desk, &mut seat, writers);
    seat.agrees();
    desk.join_clerk(head, seat);
    are
}

/// Looks until the head sees each stream persisted as far as its writer has it durable, which it is: only its manager has
/// stored that.
pub(crate) fn settle<R: Wait, D: Disk>(
    rt: &R,
    desk: &Desk,
    head: &mut Head,
    writers: &Vec<Writer<D>>,
)
    requires own { head.old.table_id ≡ desk.now.table.shared.table_id }
    requires opened { head.old.me.0.opened ≡ Some desk.now.table.shared.key.value }
    requires clerk { head.old.clerk ≡ true }
    requires count { length writers.now.items ≡ desk.now.streams }
    ensures same { IsSameHead head.old head.new }
    ensures sees { SeesDurable head.new writers.now.items }
{
    for _ in rt.forever() {
        if looks(desk, head, writers) {
            return;
        }
    }
    unreachable!()
}

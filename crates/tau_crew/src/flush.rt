//! A manager makes durable what it gathered.
ghost use Rattle.std.specs.Prelude.{◌≡◌, ◌⊎◌, true, ◌+◌, ◌<◌, ◌≤◌, [], Some, false, ℕ, List, IfOk, OnOk, length};
ghost use Rattle.tau_base.specs.declared.format.Format.{Format};
ghost use Rattle.tau_base.specs.declared.limits.TheConstants.{MAX_BODY, MAX_LSN};
ghost use Rattle.tau_stream.specs.Writer.{disk_of, durable_of, has_failed, left_of, IsPrepared, IsReady};
ghost use Rattle.tau_crew.specs.Driving.{CanDrive, IsBlock, IsFlushed, KeepsDriven, SameButKnows};

use tau_base::{MAX_BODY, NoMemory};
use tau_desk::{Desk, ManagerSeat};
use tau_disk::{Disk, Gate};
use tau_stream::{Flush, Writer};

/// A stream of a run ends below this, 2^60: a writer takes no more.
const END_OF_POSITIONS: u64 = 1_152_921_504_606_846_976;

/// Adds what was gathered to the writer, and makes its block. Returns up to where that goes.
pub(crate) fn hand_over<D: Disk>(writer: &mut Writer<D>, body: &[u8]) -> Result<u64, NoMemory>
    requires empty { left_of writer.old ≡ [] }
    requires small { length body.now ≤ MAX_BODY }
    requires whole { (body.now ≡ []) ⊎ (5 ≤ length body.now) }
    ensures left { OnOk result (left_of writer.new ≡ body.now) }
    ensures upto { IfOk result (λ upto. upto ≡ durable_of writer.old + length body.now) }
    ensures prepared { IfOk result (λ upto. IsPrepared writer.new upto) }
    ensures low { IfOk result (λ upto. upto < MAX_LSN) }
    ensures disk { disk_of writer.new ≡ disk_of writer.old }
    ensures durable { durable_of writer.new ≡ durable_of writer.old }
    ensures works { has_failed writer.new ≡ has_failed writer.old }
    ensures ready { (format : Format) (n j : ℕ) (content : List ℕ) → IsReady format n j writer.old content → IsReady format n j writer.new content }
{
    if writer.durable() > END_OF_POSITIONS - MAX_BODY as u64 {
        return Err(NoMemory);
    }
    writer.add(body)?;
    let upto = writer.gathered();
    writer.prepare(upto)?;
    Ok(upto)
}

/// What the turn of a manager did.
#[derive(Clone, Copy, Debug, PartialEq, Eq)]
pub(crate) enum Managing {
    /// There was nothing to flush, or the disk has failed before.
    Idle,
    /// A block is durable, and the persisted position is raised.
    Flushed,
    /// The disk failed, and the stop is raised.
    Failed,
}

/// Flushes the block up to there, all that was gathered, and stores how far the stream is persisted then; or raises the stop
/// where the disk fails.
pub(crate) fn flush<D: Disk, G: Gate>(
    desk: &Desk,
    seat: &mut ManagerSeat,
    writer: &mut Writer<D>,
    upto: u64,
    gate: &G,
) -> Managing
    requires own { seat.old.table_id ≡ desk.now.table.shared.table_id }
    requires opened { seat.old.me.0.opened ≡ Some desk.now.table.shared.key.value }
    requires driven { CanDrive seat.old writer.old }
    requires works { has_failed writer.old ≡ false }
    requires prepared { IsPrepared writer.old upto }
    requires all { upto ≡ durable_of writer.old + length (left_of writer.old) }
    requires low { upto < MAX_LSN }
    ensures keeps { KeepsDriven seat.old seat.new writer.old writer.new }
    ensures flushed { IsFlushed writer.new }
    ensures failed { result ≡ Managing.Failed → has_failed writer.new ≡ true }
    ensures going { (result ≡ Managing.Failed → ⊥) → has_failed writer.new ≡ false }
    ensures stays { (result ≡ Managing.Flushed → ⊥) → durable_of writer.new ≡ durable_of writer.old }
    ensures same { SameButKnows seat.old seat.new }
    ensures block { IsBlock (durable_of writer.old) (durable_of writer.new) }
{
    seat.agrees();
    match writer.flush_gated(upto, gate) {
        Ok(()) => {
            seat.persist(desk, upto);
            Managing::Flushed
        }
        Err(Flush::Failed) => {
            seat.stop(desk);
            Managing::Failed
        }
        Err(Flush::Idle) => Managing::Idle,
        Err(Flush::NoMemory) => Managing::Idle,
    }
}

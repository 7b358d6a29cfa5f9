//! The manager of a stream acts, and what managers do for all: anchors, and entries that are not needed any more.
ghost use Rattle.std.specs.Prelude.{ℕ, ◌≡◌, ◌<◌, ◌↔◌, IsTrue, true, false, None, List, length, slice_get, slice_index, OnOk, OnErr};
ghost use Rattle.tau_model.specs.History.{Act};
ghost use Rattle.tau_machine.specs.Hands.{Txn};
ghost use Rattle.tau_machine.specs.Events as machine;
ghost use Rattle.tau_core.specs.View.{Hidden, stop_in};
ghost use Rattle.tau_core.specs.Stands.{Stands};
ghost use Rattle.tau_stream.specs.Writer.{disk_of, durable_of, has_failed, IsPrepared};
ghost use Rattle.tau_step.specs.Keeping.{CanFlush, FlushTurns, GatheredTurned, HandedOver, IsFilled, IsHeld, IsKept, IsLoaded, ManagerTurned};
ghost use Rattle.tau_step.specs.Progressed.{Comes, stays, anchors, drops, drops_one};

use tau_base::{NoMemory, SHARDS};
use tau_core::{Core, Event, Gathering, Outcome};
use tau_disk::Disk;
use tau_stream::{Flush, Writer};

/// A stream of a run ends below this, 2^60: a writer takes no more.
const END_OF_POSITIONS: u64 = 1_152_921_504_606_846_976;

/// What the turn of a manager did.
#[derive(Clone, Copy)]
pub(crate) enum Managing {
    /// There was nothing to flush, or the disk has failed before.
    Idle,
    /// A block is durable, and the persisted position is raised.
    Flushed,
    /// The disk failed, and the stream is stopped.
    Failed,
}

/// The manager gathers, flushes one block if anything is new, and raises the persisted position. A disk that has failed is used
/// no more. The bytes go by way of `body`, whose memory is used again.
#[inline(always)]
pub(crate) fn manager_turn<D: Disk>(
    core: &mut Core,
    writer: &mut Writer<D>,
    stream: u8,
    body: &mut Vec<u8>,
) -> Result<Managing, NoMemory>
    requires there { stream < core.old.load.streams }
    requires held { IsHeld stream writer.old core.old }
    ensures { (catalogue : List ℕ) (K : List (Act Txn)) (h : Hidden) (es : List machine.Event) (told : List (ℕ × List ℕ)) → Stands core.old K h →
        length catalogue ≡ slice_index core.old.load.opening.ends stream → IsKept stream catalogue writer.old core.old h →
        ManagerTurned stream catalogue writer.old writer.new core.old core.new told K h es result }
{
    if writer.failed() {
        return Ok(Managing::Idle);
    }
    // After each turn what is gathered is durable.
    if core.is_gathered(stream) {
        return Ok(Managing::Idle);
    }
    // The stream is not stopped, since its disk has not failed.
    let Gathering::Upto { upto } = core.gather(stream) else {
        return Err(NoMemory);
    };
    flush_gathered(core, writer, stream, upto, body)
}

/// Flushes what was gathered up to there. Where all of it is durable nothing is handed over.
#[inline(never)]
fn flush_gathered<D: Disk>(
    core: &mut Core,
    writer: &mut Writer<D>,
    stream: u8,
    upto: u64,
    body: &mut Vec<u8>,
) -> Result<Managing, NoMemory>
    requires there { stream < core.old.load.streams }
    requires filled { CanFlush stream writer.old core.old upto }
    ensures { (catalogue : List ℕ) (K : List (Act Txn)) (h : Hidden) (es : List machine.Event) (told : List (ℕ × List ℕ)) → Stands core.old K h →
        length catalogue ≡ slice_index core.old.load.opening.ends stream → IsFilled stream catalogue upto writer.old core.old h →
        GatheredTurned stream catalogue writer.old writer.new core.old core.new told K h es result }
{
    if upto == writer.durable() {
        return Ok(Managing::Idle);
    }
    hand_over(core, writer, stream, upto, body)?;
    Ok(flush_prepared(core, writer, stream, upto))
}

/// Hands what was gathered over to the writer, which makes its block. The bytes go by way of `body`.
fn hand_over<D: Disk>(
    core: &mut Core,
    writer: &mut Writer<D>,
    stream: u8,
    upto: u64,
    body: &mut Vec<u8>,
) -> Result<(), NoMemory>
    requires there { stream < core.old.load.streams }
    requires filled { CanFlush stream writer.old core.old upto }
    ensures disk { disk_of writer.new ≡ disk_of writer.old }
    ensures works { has_failed writer.new ≡ has_failed writer.old }
    ensures durable { durable_of writer.new ≡ durable_of writer.old }
    ensures prepared { OnOk result (IsPrepared writer.new upto) }
    ensures over { (catalogue : List ℕ) (K : List (Act Txn)) (h : Hidden) → Stands core.old K h →
        length catalogue ≡ slice_index core.old.load.opening.ends stream → IsFilled stream catalogue upto writer.old core.old h →
        HandedOver stream catalogue upto writer.new core.old core.new K h result }
{
    core.swap_body(stream, body);
    if upto >= END_OF_POSITIONS {
        return Err(NoMemory);
    }
    let Ok(()) = writer.add(body) else {
        return Err(NoMemory);
    };
    let Ok(()) = writer.prepare(upto) else {
        return Err(NoMemory);
    };
    Ok(())
}

/// Flushes the block up to there, and raises the persisted position, or stops the stream.
fn flush_prepared<D: Disk>(
    core: &mut Core,
    writer: &mut Writer<D>,
    stream: u8,
    upto: u64,
) -> Managing
    requires there { stream < core.old.load.streams }
    requires prepared { IsPrepared writer.old upto }
    requires works { has_failed writer.old ≡ false }
    requires going { stop_in (slice_get core.old.streams stream) ≡ None }
    requires durable { durable_of writer.old ≡ slice_index core.old.plv stream }
    requires all { upto ≡ slice_index core.old.gathered stream }
    ensures { (catalogue : List ℕ) (K : List (Act Txn)) (h : Hidden) (es : List machine.Event) (told : List (ℕ × List ℕ)) → Stands core.old K h →
        length catalogue ≡ slice_index core.old.load.opening.ends stream → IsLoaded stream catalogue upto writer.old core.old h →
        FlushTurns stream catalogue writer.old writer.new core.old core.new told K h es result }
{
    match writer.flush(upto) {
        Ok(()) => {
            let _ = core.persist(stream, upto);
            Managing::Flushed
        }
        Err(Flush::Failed) => {
            let at = writer.durable();
            let _ = core.stop(stream, at);
            Managing::Failed
        }
        Err(Flush::Idle) => Managing::Idle,
        Err(Flush::NoMemory) => Managing::Idle,
    }
}

/// The manager places an anchor that holds the persisted positions as they are now. A stopped stream gets none.
pub(crate) fn anchor_turn(core: &mut Core, stream: u8) -> Result<(), NoMemory>
    requires there { stream < core.old.load.streams }
    ensures ok { OnOk result ((K : List (Act Txn)) (h : Hidden) (es : List machine.Event) (told : List (ℕ × List ℕ)) → Stands core.old K h → Comes (anchors true stream) core.old core.new told told K h es) }
    ensures short { OnErr result ((K : List (Act Txn)) (h : Hidden) (es : List machine.Event) (told : List (ℕ × List ℕ)) → Stands core.old K h → Comes stays core.old core.new told told K h es) }
{
    let outcome = core.step(Event::Anchor { stream });
    if is_short(&outcome) {
        return Err(NoMemory);
    }
    Ok(())
}

/// Whether it was out of memory.
fn is_short(outcome: &Outcome) -> bool
    ensures { IsTrue result ↔ (outcome.now ≡ Outcome.NoMemory) }
{
    match outcome {
        Outcome::NoMemory => true,
        _ => false,
    }
}

/// A shard drops its free entries that the persisted positions cover.
fn removal_of(core: &mut Core, shard: u8)
    requires { shard < SHARDS }
    ensures { (K : List (Act Txn)) (h : Hidden) (es : List machine.Event) (told : List (ℕ × List ℕ)) → Stands core.old K h → Comes (drops_one shard) core.old core.new told told K h es }
{
    core.step(Event::Drop { shard });
}

/// Each shard does.
pub(crate) fn removal(core: &mut Core)
    ensures { (K : List (Act Txn)) (h : Hidden) (es : List machine.Event) (told : List (ℕ × List ℕ)) → Stands core.old K h → Comes (drops true) core.old core.new told told K h es }
{
    for shard in 0..SHARDS as u8 {
        removal_of(core, shard);
    }
}

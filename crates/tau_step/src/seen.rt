//! The turns of an optimistic worker.
ghost use Rattle.std.specs.Prelude.{ℕ, ◌≡◌, ◌<◌, ◌≤◌, ◌⊎◌, ◌-◌, ◌++◌, ◌∷◌, ◌↔◌, [], true, Some, None, List, IsFalse, IsTrue, OnErr, OnOk, length, slice_get};
ghost use Rattle.std.specs.Map.{lookup};
ghost use Rattle.tau_base.specs.Database.{same_key};
ghost use Rattle.tau_base.specs.Shards.{shard_number};
ghost use Rattle.tau_base.specs.declared.limits.TheConstants.{MAX_CALLS};
ghost use Rattle.tau_base.specs.declared.value.Call.{Call};
ghost use Rattle.tau_core.specs.Stands.{Stands, Stood};
ghost use Rattle.tau_core.specs.View.{Hidden, core_of, worker_at};
ghost use Rattle.tau_machine.specs.Events as machine;
ghost use Rattle.tau_machine.specs.Hands.{Txn};
ghost use Rattle.tau_model.specs.History.{Act};
ghost use Rattle.tau_occ.specs.Peeker.{IsPeeking};
ghost use Rattle.tau_proc.specs.Takes.{takes};
ghost use Rattle.tau_proc.specs.declared.proc.Proc.{Proc};
ghost use Rattle.tau_step.specs.Acting.{raised};
ghost use Rattle.tau_step.specs.Optimists.{HasEndedPeeking, IsAtLock, IsAtNone, OptimistTurned, Peeks, PeekerFits, PeeksItsCall, RowDiffers, SeenTurned, has_turn_in};

use crate::worker::worker_turn;
use tau_base::{Key, Mode, NoMemory};
use tau_core::{Acted, Core, Outcome, Phase};
use tau_occ::Peeker;
use tau_text::Workload;

/// The turn of an optimistic worker, and whether it had anything to do. Its call runs on peeked values first, one a turn,
/// and takes its locks then. After a stop the worker finishes its call, also one of which it has only peeked.
pub(crate) fn optimistic_turn(
    core: &mut Core,
    peeker: &mut Peeker,
    load: &Workload,
    worker: u8,
    stopped: bool,
) -> Result<bool, NoMemory>
    requires stood { Stood core.old }
    requires there { worker < core.old.load.workers }
    requires stop { (h : Hidden) → stopped ≡ raised core.old h }
    requires procs { load.now.declarations.procs ≡ core.old.load.procs }
    requires calls { load.now.calls ≡ core.old.load.calls }
    requires fits { PeekerFits core.old worker peeker.old }
    ensures turned { (K : List (Act Txn)) (h : Hidden) (es : List machine.Event) (told : List (ℕ × List ℕ)) (f : Peeks) → Stands core.old K h → f worker ≡ peeker.old.seen →
        OptimistTurned worker core.old core.new K h es told f peeker.new.seen result }
    ensures fits { OnOk result (PeekerFits core.new worker peeker.new) }
{
    if rests(core, peeker, worker, stopped) {
        return Ok(false);
    }
    match core.next_lock(worker) {
        Some((number, key, mode)) => locking_turn(core, peeker, load, worker, number, key, mode),
        None => unlocked_turn(core, peeker, worker, stopped),
    }
}

/// The turn of a worker whose call is at a lock, and which does not rest for a stop.
fn locking_turn(
    core: &mut Core,
    peeker: &mut Peeker,
    load: &Workload,
    worker: u8,
    number: u64,
    key: Key,
    mode: Mode,
) -> Result<bool, NoMemory>
    requires stood { Stood core.old }
    requires there { worker < core.old.load.workers }
    requires procs { load.now.declarations.procs ≡ core.old.load.procs }
    requires calls { load.now.calls ≡ core.old.load.calls }
    requires fits { PeekerFits core.old worker peeker.old }
    requires at { IsAtLock core.old worker number key mode }
    requires works { (K : List (Act Txn)) (h : Hidden) (es : List machine.Event) (told : List (ℕ × List ℕ)) (f : Peeks) → Stands core.old K h → f worker ≡ peeker.old.seen →
        has_turn_in worker core.old core.old K h es told f ≡ true }
    ensures turned { (K : List (Act Txn)) (h : Hidden) (es : List machine.Event) (told : List (ℕ × List ℕ)) (f : Peeks) → Stands core.old K h → f worker ≡ peeker.old.seen →
        OptimistTurned worker core.old core.new K h es told f peeker.new.seen result }
    ensures fits { OnOk result (PeekerFits core.new worker peeker.new) }
{
    begin_first(peeker, load, number);
    seen_turn(core, peeker, worker, number, key, mode)?;
    Ok(true)
}

/// Whether the worker rests and has nothing to do for a stop: no call is in its hand, and it has peeked of none.
fn rests(core: &Core, peeker: &Peeker, worker: u8, stopped: bool) -> bool
    requires stood { Stood core.now }
    requires there { worker < core.now.load.workers }
    ensures so { IsTrue result → (stopped ≡ true) × ((worker_at core.now worker).hand ≡ None) × (peeker.now.seen ≡ []) }
    ensures not { IsFalse result → stopped ≡ true → (worker_at core.now worker).hand ≡ None → peeker.now.seen ≡ [] → ⊥ }
{
    if !stopped {
        return false;
    }
    if !peeker.is_empty() {
        return false;
    }
    is_resting(core, worker)
}

/// Whether the worker has no call in hand.
fn is_resting(core: &Core, worker: u8) -> bool
    requires stood { Stood core.now }
    requires there { worker < core.now.load.workers }
    ensures { IsTrue result ↔ ((worker_at core.now worker).hand ≡ None) }
{
    match core.next_of(worker) {
        Phase::Resting => true,
        _ => false,
    }
}

/// The call of this number begins to peek, unless a value of it was seen.
fn begin_first(peeker: &mut Peeker, load: &Workload, number: u64)
    requires low { 1 ≤ number }
    requires high { number ≤ length load.now.calls }
    requires few { length load.now.calls ≤ MAX_CALLS }
    requires takes { (c : Call) → slice_get load.now.calls (number - 1) ≡ Some c → IsTrue (takes load.now.declarations.procs c) }
    ensures seen { peeker.new.seen ≡ peeker.old.seen }
    ensures same { (peeker.old.seen ≡ [] → ⊥) → peeker.new ≡ peeker.old }
    ensures peeks { peeker.old.seen ≡ [] → (c : Call) → slice_get load.now.calls (number - 1) ≡ Some c → IsPeeking load.now.declarations.procs c peeker.new }
{
    if !peeker.is_empty() {
        return;
    }
    let call = load.calls.call_at((number - 1) as usize);
    let _ = peeker.begin(&load.declarations.procs, &call);
}

/// The turn of a worker whose call is at no lock. Once its call has ended nothing is peeked.
fn unlocked_turn(
    core: &mut Core,
    peeker: &mut Peeker,
    worker: u8,
    stopped: bool,
) -> Result<bool, NoMemory>
    requires stood { Stood core.old }
    requires there { worker < core.old.load.workers }
    requires stop { (h : Hidden) → stopped ≡ raised core.old h }
    requires none { IsAtNone core.old worker }
    requires fits { PeekerFits core.old worker peeker.old }
    ensures turned { (K : List (Act Txn)) (h : Hidden) (es : List machine.Event) (told : List (ℕ × List ℕ)) (f : Peeks) → Stands core.old K h → f worker ≡ peeker.old.seen →
        OptimistTurned worker core.old core.new K h es told f peeker.new.seen result }
    ensures fits { OnOk result (PeekerFits core.new worker peeker.new) }
{
    let did = worker_turn(core, worker, stopped)?;
    if is_resting(core, worker) {
        peeker.forget();
        return Ok(did);
    }
    Ok(did)
}

/// A worker whose call is at a lock peeks the key that the call wants on what it has peeked, or, where that has ended, locks.
fn seen_turn(
    core: &mut Core,
    peeker: &mut Peeker,
    worker: u8,
    number: u64,
    key: Key,
    mode: Mode,
) -> Result<(), NoMemory>
    requires stood { Stood core.old }
    requires there { worker < core.old.load.workers }
    requires at { IsAtLock core.old worker number key mode }
    requires peeks { PeeksItsCall core.old worker peeker.old }
    ensures turned { (K : List (Act Txn)) (h : Hidden) (es : List machine.Event) (told : List (ℕ × List ℕ)) (f : Peeks) → Stands core.old K h → f worker ≡ peeker.old.seen →
        has_turn_in worker core.old core.new K h es told f ≡ true → SeenTurned worker core.old core.new K h es told f peeker.new.seen result }
    ensures kept { OnOk result ((procs : List Proc) (c : Call) → IsPeeking procs c peeker.old → (peeker.new.seen ≡ []) ⊎ IsPeeking procs c peeker.new) }
{
    match peeker.wants() {
        Some(wanted) => peek(core, peeker, wanted),
        None => lock_seen(core, peeker, worker, number, key, mode),
    }
}

/// The value of the key that was asked for is peeked.
fn peek(core: &Core, peeker: &mut Peeker, key: Key) -> Result<(), NoMemory>
    requires asked { peeker.old.asked ≡ Some key }
    ensures saw { OnOk result ((K : List (Act Txn)) (h : Hidden) → Stands core.now K h → peeker.new.seen ≡ peeker.old.seen ++ (key, ((core_of core.now h).shards (shard_number key)).rows key) ∷ []) }
    ensures same { OnErr result (peeker.new.seen ≡ peeker.old.seen) }
    ensures kept { OnOk result ((procs : List Proc) (c : Call) → IsPeeking procs c peeker.old → IsPeeking procs c peeker.new) }
{
    peeker.saw(core.value(key))
}

/// Whether the row that is to be read is not what was peeked.
fn differs(core: &Core, peeker: &Peeker, key: Key, mode: Mode) -> bool
    ensures so { IsTrue result → RowDiffers core.now key mode peeker.now.seen }
    ensures not { IsFalse result → mode ≡ Mode.Read → (K : List (Act Txn)) (h : Hidden) → Stands core.now K h → lookup (same_key key) peeker.now.seen ≡ Some (((core_of core.now h).shards (shard_number key)).rows key) }
{
    match mode {
        Mode::Read => !peeker.agrees(key, core.value(key)),
        Mode::Write => false,
    }
}

/// The lock is taken, unless another worker holds the key or the row differs: then nothing is peeked of the next try.
fn lock_seen(
    core: &mut Core,
    peeker: &mut Peeker,
    worker: u8,
    number: u64,
    key: Key,
    mode: Mode,
) -> Result<(), NoMemory>
    requires there { worker < core.old.load.workers }
    requires at { IsAtLock core.old worker number key mode }
    requires ended { HasEndedPeeking core.old worker peeker.old.seen }
    ensures turned { (K : List (Act Txn)) (h : Hidden) (es : List machine.Event) (told : List (ℕ × List ℕ)) (f : Peeks) → Stands core.old K h → f worker ≡ peeker.old.seen →
        has_turn_in worker core.old core.new K h es told f ≡ true → SeenTurned worker core.old core.new K h es told f peeker.new.seen result }
    ensures kept { OnOk result ((peeker.new.seen ≡ []) ⊎ (peeker.new ≡ peeker.old)) }
{
    if differs(core, peeker, key, mode) {
        return give_way(core, peeker, worker, number, key, mode);
    }
    match core.lock(worker) {
        Acted::Went => Ok(()),
        Acted::Busy { .. } => {
            peeker.forget();
            Ok(())
        }
        Acted::Other { .. } => Ok(()),
        Acted::NoMemory => Err(NoMemory),
    }
}

/// The lock is not taken: the call meets Busy once more, and nothing is peeked of its next try.
fn give_way(
    core: &mut Core,
    peeker: &mut Peeker,
    worker: u8,
    number: u64,
    key: Key,
    mode: Mode,
) -> Result<(), NoMemory>
    requires there { worker < core.old.load.workers }
    requires at { IsAtLock core.old worker number key mode }
    requires ended { HasEndedPeeking core.old worker peeker.old.seen }
    requires differs { RowDiffers core.old key mode peeker.old.seen }
    ensures turned { (K : List (Act Txn)) (h : Hidden) (es : List machine.Event) (told : List (ℕ × List ℕ)) (f : Peeks) → Stands core.old K h → f worker ≡ peeker.old.seen →
        has_turn_in worker core.old core.new K h es told f ≡ true → SeenTurned worker core.old core.new K h es told f peeker.new.seen result }
    ensures kept { OnOk result (peeker.new.seen ≡ []) }
{
    match core.retry(worker) {
        Outcome::NoMemory => Err(NoMemory),
        _ => {
            peeker.forget();
            Ok(())
        }
    }
}

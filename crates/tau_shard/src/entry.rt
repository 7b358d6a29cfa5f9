//! Lock entries.
ghost use Rattle.std.specs.Prelude.{◌≡◌, ◌<◌, ℕ, false, None, Some, IfNone, IfSome};
ghost use Rattle.tau_base.specs.Vectors.{join};
ghost use Rattle.tau_shard.specs.Shard.{entry_or, held_as};
ghost use Rattle.tau_shard.specs.Read.{bits, entry_of};
ghost use Rattle.tau_shard.specs.Blocks.{against, blocks, IsLowest, covered, dep_locked};
ghost use Rattle.tau_shard.specs.declared.entry.ShardRefusal.TheVariants.{NoMemory};

use crate::mask;
use tau_base::{Lv, MAX_HOLDERS, Mode, NoMemory};
use thiserror::Error;

/// Who holds a key, and its two vectors.
#[derive(Clone, Copy, Debug, PartialEq, Eq)]
pub struct LockEntry {
    /// The join of the vectors of calls that only read the key and freed it.
    pub read: Lv,
    /// The join of the vectors of calls that wrote the key and freed it.
    pub write: Lv,
    /// The workers that hold the key in read mode; one of `writers` too holds it in write mode.
    pub readers: u32,
    /// The workers that hold the key in write mode.
    pub writers: u32,
    // Where the row stood when the key was locked last. It is looked at before the row is looked up, and may be wrong.
    pub(crate) row_at: usize,
}

/// Why a lock is not given.
#[derive(Clone, Copy, Debug, PartialEq, Eq, Error)]
pub enum ShardRefusal {
    /// Out of memory.
    #[error("out of memory")]
    NoMemory,
    /// Others hold the key in a conflicting mode.
    #[error("held by {holder}")]
    Busy {
        /// The lowest of them.
        holder: u8,
    },
}

impl From<NoMemory> for ShardRefusal {
    ghost from_gives = { λ _ refusal. refusal ≡ NoMemory };

    fn from(_e: NoMemory) -> ShardRefusal {
        ShardRefusal::NoMemory
    }
}

/// A new entry at the floor, whose key the worker holds.
pub(crate) fn first_held(floor: &Lv, worker: u8, mode: Mode) -> LockEntry
    requires { worker < MAX_HOLDERS }
    ensures { entry_of result ≡ held_as (entry_or floor.now None) worker (Some mode) }
{
    let mut entry = LockEntry {
        read: *floor,
        write: *floor,
        readers: 0,
        writers: 0,
        row_at: 0,
    };
    hold(&mut entry, worker, mode);
    entry
}

/// The worker holds the key in this mode, and in no other.
pub(crate) fn hold(entry: &mut LockEntry, worker: u8, mode: Mode)
    requires { worker < MAX_HOLDERS }
    ensures { entry_of entry.new ≡ held_as (entry_of entry.old) worker (Some mode) }
{
    match mode {
        Mode::Read => hold_read(entry, worker),
        Mode::Write => hold_write(entry, worker),
    }
}

fn hold_read(entry: &mut LockEntry, worker: u8)
    requires { worker < MAX_HOLDERS }
    ensures { entry_of entry.new ≡ held_as (entry_of entry.old) worker (Some Mode.Read) }
{
    entry.readers = mask::with(entry.readers, worker);
    entry.writers = mask::without(entry.writers, worker);
}

fn hold_write(entry: &mut LockEntry, worker: u8)
    requires { worker < MAX_HOLDERS }
    ensures { entry_of entry.new ≡ held_as (entry_of entry.old) worker (Some Mode.Write) }
{
    entry.writers = mask::with(entry.writers, worker);
}

/// The worker holds the key no more.
pub(crate) fn release(entry: &mut LockEntry, worker: u8)
    requires { worker < MAX_HOLDERS }
    ensures { entry_of entry.new ≡ held_as (entry_of entry.old) worker None }
{
    entry.readers = mask::without(entry.readers, worker);
    entry.writers = mask::without(entry.writers, worker);
}

/// The worker holds the key no more, whose read vector is raised.
pub(crate) fn release_read(entry: &mut LockEntry, worker: u8, lv: &Lv)
    requires { worker < MAX_HOLDERS }
    ensures { entry_of entry.new ≡ record (held_as (entry_of entry.old) worker None) { read_lv = join entry.old.read lv.now } }
{
    release(entry, worker);
    entry.read.raise(lv);
}

/// The worker holds the key no more, whose write vector is raised.
pub(crate) fn release_written(entry: &mut LockEntry, worker: u8, lv: &Lv)
    requires { worker < MAX_HOLDERS }
    ensures { entry_of entry.new ≡ record (held_as (entry_of entry.old) worker None) { write_lv = join entry.old.write lv.now } }
{
    release(entry, worker);
    entry.write.raise(lv);
}

/// The workers whose hold conflicts with a lock in this mode.
fn conflicting(entry: &LockEntry, mode: Mode) -> u32
    ensures { bits result ≡ (λ u. against mode ((entry_of entry.now).holders u)) }
{
    match mode {
        Mode::Read => entry.writers,
        Mode::Write => mask::either(entry.readers, entry.writers),
    }
}

/// The lowest other worker whose hold conflicts with a lock.
pub(crate) fn blocker(entry: &LockEntry, worker: u8, mode: Mode) -> Option<u8>
    requires { worker < MAX_HOLDERS }
    ensures found { IfSome result (λ u. IsLowest (entry_of entry.now) worker mode u) }
    ensures free { IfNone result ((u : ℕ) → blocks (entry_of entry.now) worker mode u ≡ false) }
{
    mask::lowest(mask::without(conflicting(entry, mode), worker))
}

/// Whether nobody holds the key and the vector covers both of the entry.
pub(crate) fn is_covered(entry: &LockEntry, plv: &Lv) -> bool
    ensures { result ≡ covered plv.now entry.now }
{
    if entry.readers != 0 {
        return false;
    }
    if entry.writers != 0 {
        return false;
    }
    if !plv.covers(&entry.write) {
        return false;
    }
    plv.covers(&entry.read)
}

/// Raises the vector of a call by a lock of the key.
pub(crate) fn raise_by(dep: &mut Lv, mode: Mode, entry: &LockEntry)
    ensures { dep.new ≡ dep_locked mode dep.old (entry_of entry.now) }
{
    match mode {
        Mode::Read => dep.raise(&entry.write),
        Mode::Write => raise_by_both(dep, entry),
    }
}

fn raise_by_both(dep: &mut Lv, entry: &LockEntry)
    ensures { dep.new ≡ dep_locked Mode.Write dep.old (entry_of entry.now) }
{
    dep.raise(&entry.write);
    dep.raise(&entry.read);
}

//! Which records wait for which stream.
ghost use Rattle.std.specs.Prelude.{◌≡◌, ◌≤◌, ◌<◌, ◌+◌, ◌++◌, ℕ, length, drop, slice_index, slice_get, IfOk, OnOk, Some, map};
ghost use Rattle.tau_model.specs.Reported.{ascending};
ghost use Rattle.tau_pool.specs.Item.{Item};
ghost use Rattle.tau_pool.specs.Passing.{waits_for, waits_at, wait_at};

use crate::items::Items;
use std::alloc::Global;
use tau_base::{Listed, Lv, NoMemory};

/// A record that waits for a stream.
#[derive(Clone, Copy, Debug)]
pub struct Wait {
    /// The position in the stream that it waits for.
    pub at: u64,
    /// Its number among the taken records.
    pub item: usize,
}

/// Whether the record at this place waits for stream `k`, of which so much is recovered: that does not cover it, or the
/// stream is its own.
fn waits_for(items: &Items, item: usize, k: usize, reach: u64) -> bool
    requires { item < length items.now }
    ensures { (x : Item) → slice_get items.now item ≡ Some x → result ≡ waits_for k reach x }
{
    if items.position(item, k) > reach {
        return true;
    }
    usize::from(items.stream(item)) == k
}

/// Puts the record at this place after the others, where it waits for stream `k`.
fn put_wait(
    waits: &mut Vec<Wait>,
    items: &Items,
    item: usize,
    k: usize,
    reach: u64,
) -> Result<(), NoMemory>
    requires { item < length items.now }
    ensures { OnOk result (waits.new.items ++ waits_at k reach (item + 1) (drop (item + 1) items.now) ≡ waits.old.items ++ waits_at k reach item (drop item items.now)) }
{
    if !waits_for(items, item, k, reach) {
        return Ok(());
    }
    let wait = Wait {
        at: items.position(item, k),
        item,
    };
    Ok(waits.push(wait)?)
}

/// The records that wait for stream `k`, in the order of what they wait for.
fn waits_at(alloc: Global, items: &Items, k: usize, reach: u64) -> Result<Listed<Wait>, NoMemory>
    ensures { IfOk result (λ waits. waits ≡ ascending wait_at (waits_at k reach 0 items.now)) }
{
    let mut waits = Vec::with_capacity(alloc, items.len())?;
    for item in 0..items.len() {
        put_wait(&mut waits, items, item, k, reach)?;
    }
    waits.shrink_to_fit();
    sort_waits(&mut waits)?;
    Ok(Listed::of(waits))
}

/// Puts the waiting records in the order of what they wait for.
fn sort_waits(waits: &mut Vec<Wait>) -> Result<(), NoMemory>
    ensures { OnOk result (waits.new.items ≡ ascending wait_at waits.old.items) }
{
    Ok(waits.sort_by_key(|wait| wait.at)?)
}

/// For each stream the records that wait for it.
pub fn waits_of(alloc: Global, items: &Items, rlv: &Lv) -> Result<Vec<Listed<Wait>>, NoMemory>
    ensures many { IfOk result (λ waits. length waits.items ≡ length rlv.now) }
    ensures each { IfOk result (λ waits. (k : ℕ) → k < length rlv.now → slice_get waits.items k ≡ Some (ascending wait_at (waits_at k (slice_index rlv.now k) 0 items.now))) }
{
    let mut waits = Vec::new(alloc);
    for k in 0..rlv.width() {
        let list = waits_at(alloc, items, k, rlv.get(k))?;
        waits.push(list)?;
    }
    Ok(waits)
}

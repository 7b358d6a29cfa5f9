//! The buffered writes of a call, in the order of their keys.
ghost use Rattle.std.specs.Prelude.{◌≡◌, ◌<◌, ◌≤◌, [], length, insert, slice_set, IfOk, IfErr};
ghost use Rattle.std.specs.Map.{lookup};
ghost use Rattle.std.specs.FinMap.{put};
ghost use Rattle.arrayvec.specs.ArrayVec.{array_vec_len};
ghost use Rattle.tau_base.specs.Database.{key_cmp, same_key};
ghost use Rattle.tau_proc.specs.Lent.{value_of_lent};

use crate::lent::{Lent, copied};
use arrayvec::ArrayVec;
use std::cmp::Ordering;
use tau_base::{Key, MAX_WRITES, Text64, Value};

/// The writes of a call.
pub(crate) type Writes = ArrayVec<(Key, Value), MAX_WRITES>;

/// The value that was written last.
pub(crate) fn written_last(key: Key, writes: &[(Key, Value)]) -> Option<Value>
    ensures { result ≡ lookup (same_key key) writes.now }
{
    for (written, value) in writes {
        if key.cmp(written) == Ordering::Equal {
            return Some(value.copied());
        }
    }
    None
}

/// Where the key's write stands, or else where it belongs.
fn place_of(writes: &[(Key, Value)], key: Key) -> Result<usize, usize>
    ensures there { IfOk result (λ at. (at < length writes.now)
        × ((v : Value) → put key_cmp key v writes.now ≡ slice_set writes.now at (key, v))) }
    ensures missing { IfErr result (λ at. (at ≤ length writes.now)
        × ((v : Value) → put key_cmp key v writes.now ≡ insert writes.now at (key, v))) }
{
    let mut at = 0;
    while at < writes.len() {
        match key.cmp(&writes[at].0) {
            Ordering::Greater => at += 1,
            Ordering::Equal => return Ok(at),
            Ordering::Less => return Err(at),
        }
    }
    Err(at)
}

/// Puts a value that is lent in its key's place, or in place of an earlier value of the key.
pub(crate) fn write(writes: &mut Writes, key: Key, value: &Lent)
    requires { array_vec_len writes.old < MAX_WRITES }
    ensures { writes.new.items ≡ put key_cmp key (value_of_lent value.now) writes.old.items }
{
    match place_of(writes.as_slice(), key) {
        Ok(at) => overwrite(writes, at, key, value),
        Err(at) => insert(writes, at, key, value),
    }
}

/// Puts a value in place of an earlier one, which few calls do.
#[inline(never)]
fn overwrite(writes: &mut Writes, at: usize, key: Key, value: &Lent)
    requires { at < length writes.old.items }
    ensures { writes.new.items ≡ slice_set writes.old.items at (key, value_of_lent value.now) }
{
    writes.as_mut_slice()[at] = (key, copied(value));
}

/// Puts a value before the one at a place. A whole number is not moved through a place of its own, a text apart.
fn insert(writes: &mut Writes, at: usize, key: Key, value: &Lent)
    requires there { at ≤ length writes.old.items }
    requires room { array_vec_len writes.old < MAX_WRITES }
    ensures { writes.new.items ≡ insert writes.old.items at (key, value_of_lent value.now) }
{
    match value {
        Lent::Absent => writes.insert(at, (key, Value::Absent)),
        Lent::Int(number) => writes.insert(at, (key, Value::Int(*number))),
        Lent::Text(text) => insert_text(writes, at, key, text),
    }
}

#[inline(never)]
fn insert_text(writes: &mut Writes, at: usize, key: Key, text: &Text64)
    requires there { at ≤ length writes.old.items }
    requires room { array_vec_len writes.old < MAX_WRITES }
    ensures { writes.new.items ≡ insert writes.old.items at (key, Value.Text text.now) }
{
    writes.insert(at, (key, Value::Text(text.copied())));
}

/// Forgets all writes. A single one is taken out in place.
pub(crate) fn forget(writes: &mut Writes)
    ensures { writes.new.items ≡ [] }
{
    if writes.len() == 1 {
        let _only = writes.pop();
        return;
    }
    writes.clear();
}

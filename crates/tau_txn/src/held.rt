//! Held keys, ascending, and what was seen and written.
ghost use Rattle.std.specs.Prelude.{◌≡◌, ◌<◌, not};
ghost use Rattle.arrayvec.specs.ArrayVec.{array_vec_len};
ghost use Rattle.std.specs.Map.{lookup};
ghost use Rattle.std.specs.Option.{option_copied};
ghost use Rattle.tau_base.specs.Database.{same_key};
ghost use Rattle.tau_machine.specs.Hands.{hold, without};
ghost use Rattle.tau_txn.specs.Spot.{spot};
ghost use Rattle.tau_txn.specs.Steps.{without_first};

use arrayvec::ArrayVec;
use std::cmp::Ordering;
use tau_base::{Key, MAX_STEPS, Mode, Value};

/// The place of the key, or the place where it would go.
fn place(held: &[(Key, Mode)], key: Key) -> Result<usize, usize>
    ensures { result ≡ spot key held.now }
{
    for (i, entry) in held.iter().enumerate() {
        match key.cmp(&entry.0) {
            Ordering::Less => return Err(i),
            Ordering::Equal => return Ok(i),
            Ordering::Greater => {}
        }
    }
    Err(held.len())
}

/// Holds the key in this mode.
pub(crate) fn take(held: &mut ArrayVec<(Key, Mode), MAX_STEPS>, key: Key, mode: Mode)
    requires { array_vec_len held.old < MAX_STEPS }
    ensures { held.new.items ≡ hold key mode held.old.items }
{
    match place(held.as_slice(), key) {
        Ok(i) => held.as_mut_slice()[i].1 = mode,
        Err(i) => held.insert(i, (key, mode)),
    }
}

/// The value that goes with the key.
pub(crate) fn value_at(key: Key, entries: &[(Key, Value)]) -> Option<Value>
    ensures { result ≡ lookup (same_key key) entries.now }
{
    for entry in entries {
        if key == entry.0 {
            return Some(entry.1.copied());
        }
    }
    None
}

/// The value that goes with the key, lent.
pub(crate) fn lent_at(key: Key, entries: &[(Key, Value)]) -> Option<&Value>
    ensures { option_copied result ≡ lookup (same_key key) entries.now }
{
    for entry in entries {
        if key == entry.0 {
            return Some(&entry.1);
        }
    }
    None
}

/// Holds the lowest key no more.
pub(crate) fn leave_first(held: &mut ArrayVec<(Key, Mode), MAX_STEPS>)
    ensures { held.new.items ≡ without_first held.old.items }
{
    if held.len() == 1 {
        let _only = held.pop();
        return;
    }
    leave_lowest(held);
}

/// The same of any number of keys.
fn leave_lowest(held: &mut ArrayVec<(Key, Mode), MAX_STEPS>)
    ensures { held.new.items ≡ without_first held.old.items }
{
    if let Some((key, _)) = held.first() {
        let key = *key;
        leave(held, key);
    }
}

/// Holds the key no more.
fn leave(held: &mut ArrayVec<(Key, Mode), MAX_STEPS>, key: Key)
    ensures { held.new.items ≡ without key held.old.items }
{
    held.retain(
        |entry: &mut (Key, Mode)| -> bool
            ensures { (result ≡ not (same_key key entry.old.0)) × (entry.new ≡ entry.old) }
        { key != entry.0 },
    );
}

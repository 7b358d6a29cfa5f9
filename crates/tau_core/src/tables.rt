//! The rows of the shards.
ghost use Rattle.std.specs.Prelude.{◌≡◌, ◌<◌, [], ◌∷◌, Some, IfOk, OnOk, length, slice_get};
ghost use Rattle.tau_base.specs.declared.value.Key.{Key};
ghost use Rattle.tau_base.specs.declared.value.Value.{Value};
ghost use Rattle.tau_base.specs.Database.{written};
ghost use Rattle.tau_model.specs.Tables.{IsTablesOf};
ghost use Rattle.tau_model.specs.Store.{database};
ghost use Rattle.tau_core.specs.State.{plain};
ghost use Rattle.tau_core.specs.Stands.{Sound};
ghost use Rattle.tau_core.specs.Rows.{HasNone, own_rows, rows_of, with_shard_rows};

use crate::state::State;
use std::alloc::Global;
use tau_base::{Key, NoMemory, SHARDS, Value, shard_of};
use tau_model::{SerialStore, Tables};
use tau_shard::Shard;

/// The present rows.
pub(crate) fn tables(state: &State, alloc: Global) -> Result<Tables, NoMemory>
    requires { Sound (plain state.now) }
    ensures { IfOk result (λ tables. IsTablesOf (rows_of state.now.shards.items) tables) }
{
    let mut store = SerialStore::new(alloc);
    for i in 0..SHARDS {
        put_shard(&mut store, alloc, &state.shards[i], i)?;
    }
    store.tables(alloc)
}

/// Puts the present rows of the shard of this number.
fn put_shard(
    store: &mut SerialStore,
    alloc: Global,
    part: &Shard,
    number: usize,
) -> Result<(), NoMemory>
    requires { HasNone number (database store.old) }
    ensures { OnOk result (database store.new ≡ with_shard_rows number part.now (database store.old)) }
{
    let mut rows = Vec::new(alloc);
    part.present(&mut rows)?;
    put_own(store, rows.as_slice(), number)
}

/// Puts those of the rows whose keys belong to the shard of this number. Of two rows of one key the first counts.
fn put_own(store: &mut SerialStore, rows: &[(Key, Value)], number: usize) -> Result<(), NoMemory>
    ensures { OnOk result (database store.new ≡ written (own_rows number rows.now) (database store.old)) }
{
    for i in (0..rows.len()).rev() {
        put_if_own(store, rows, i, number)?;
    }
    Ok(())
}

/// Puts one of the rows, where its key belongs to the shard of this number.
fn put_if_own(
    store: &mut SerialStore,
    rows: &[(Key, Value)],
    i: usize,
    number: usize,
) -> Result<(), NoMemory>
    requires { i < length rows.now }
    ensures { OnOk result ((r : Key × Value) → slice_get rows.now i ≡ Some r → database store.new ≡ written (own_rows number (r ∷ [])) (database store.old)) }
{
    let (key, _) = &rows[i];
    if usize::from(shard_of(*key)) != number {
        return Ok(());
    }
    store.write(&rows[i..i + 1])
}

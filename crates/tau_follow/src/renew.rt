//! Renewing rows by what was written.
ghost use Rattle.std.specs.Prelude.{◌≡◌, ◌≢◌, ◌<◌, ◌≤◌, ◌+◌, ◌∷◌, ◌++◌, [], true, false, ℕ, List, Some, length, map, slice_get, slice_set, slice_index, IfOk, IfErr, IfSome, OnOk, OnErr, vec_capacity, vec_len};
ghost use Rattle.std.specs.List.Sorted.{IsSearchInRange, IsStrictlySortedBy};
ghost use Rattle.tau_base.specs.Database.{Db, key_cmp, written};
ghost use Rattle.tau_base.specs.declared.value.Key.{Key as OneKey};
ghost use Rattle.tau_base.specs.declared.value.Value.{Value as OneValue};
ghost use Rattle.tau_base.specs.declared.value.Value.TheVariants.{Absent, Int};
ghost use Rattle.tau_model.specs.Store.{database};
ghost use Rattle.tau_model.specs.Tables.{IsTablesOf};
ghost use Rattle.tau_follow.specs.Renewing.{after, keys_in, IsGap, IsPut, IsRoom, ArePut};

use std::alloc::Global;
use std::mem;
use tau_base::{Key, NoMemory, Value};
use tau_model::{SerialStore, Tables};

/// Each row that comes or goes moves those above it. If more than so many do, all rows are listed anew.
const FEW: usize = 64;

/// What was written, one write after another.
pub type Writes = Vec<(Key, Value)>;

/// Puts a write after others.
fn note(writes: &mut Writes, key: Key, value: Value) -> Result<(), NoMemory>
    ensures { (db : Db) → OnOk result (after writes.new.items db ≡ written ((key, value) ∷ []) (after writes.old.items db)) }
{
    match writes.push((key, value)) {
        Ok(()) => Ok(()),
        Err(_) => Err(NoMemory),
    }
}

/// Puts the writes of a record after others. Of two values for one row the first counts.
pub fn note_rows(writes: &mut Writes, rows: &[(Key, Value)]) -> Result<(), NoMemory>
    ensures { (db : Db) → OnOk result (after writes.new.items db ≡ written rows.now (after writes.old.items db)) }
{
    for at in (0..rows.len()).rev() {
        let (key, value) = &rows[at];
        match note(writes, *key, value.copied()) {
            Ok(()) => {}
            Err(e) => return Err(e),
        }
    }
    Ok(())
}

/// The number that is written, as a value.
fn value_of(number: &(Key, i64)) -> Value
    ensures { result ≡ Int number.now.1 }
{
    Value::Int(number.1)
}

/// Puts the write of a whole number after others.
fn note_number(writes: &mut Writes, number: &(Key, i64)) -> Result<(), NoMemory>
    ensures { (db : Db) → OnOk result (after writes.new.items db ≡ written ((number.now.0, Int number.now.1) ∷ []) (after writes.old.items db)) }
{
    note(writes, number.0, value_of(number))
}

/// The same of whole numbers.
pub fn note_numbers(writes: &mut Writes, numbers: &[(Key, i64)]) -> Result<(), NoMemory>
    ensures { (db : Db) → OnOk result (after writes.new.items db ≡ written (map (λ r. (r.0, Int r.1)) numbers.now) (after writes.old.items db)) }
{
    for at in (0..numbers.len()).rev() {
        let number = &numbers[at];
        match note_number(writes, number) {
            Ok(()) => {}
            Err(e) => return Err(e),
        }
    }
    Ok(())
}

/// Where a row is, or where it comes.
fn seek(rows: &[(Key, Value)], key: Key) -> Result<usize, usize>
    ensures there { IfOk result (λ place. slice_get (keys_in rows.now) place ≡ Some key) }
    ensures gap { IsStrictlySortedBy key_cmp (keys_in rows.now) → IfErr result (λ place. IsGap (keys_in rows.now) key place) }
    ensures bound { IsSearchInRange result (length rows.now) }
{
    match rows.binary_search_by_key(&key, |row| row.0) {
        Ok(place) => Ok(place),
        Err(place) => Err(place),
    }
}

/// Where a row is; none if it is not found.
fn place_of(rows: &[(Key, Value)], key: Key) -> Option<usize>
    ensures { IfSome result (λ place. slice_get (keys_in rows.now) place ≡ Some key) }
{
    match seek(rows, key) {
        Ok(place) => Some(place),
        Err(_) => None,
    }
}

/// Whether a row is written a value.
fn is_value(value: &Value) -> bool
    ensures value { result ≡ true → value.now ≢ Absent }
    ensures none { result ≡ false → value.now ≡ Absent }
{
    match value {
        Value::Absent => false,
        Value::Int(_) => true,
        Value::Text(_) => true,
    }
}

/// Where a row is that is written a value; none if it comes or goes.
fn place_put(rows: &[(Key, Value)], write: &(Key, Value)) -> Option<usize>
    ensures { IfSome result (λ place. IsPut (keys_in rows.now) write.now place) }
{
    if !is_value(&write.1) {
        return None;
    }
    match place_of(rows, write.0) {
        None => None,
        Some(place) => Some(place),
    }
}

/// Where the rows are that are written; none if one comes or goes.
fn places_put(
    alloc: Global,
    rows: &[(Key, Value)],
    writes: &[(Key, Value)],
) -> Result<Option<Vec<usize>>, NoMemory>
    ensures { IfOk result (λ found. IfSome found (λ places. ArePut (keys_in rows.now) writes.now places.items)) }
{
    let mut places = Vec::new(alloc);
    for i in 0..writes.len() {
        let Some(place) = place_put(rows, &writes[i]) else {
            return Ok(None);
        };
        places.push(place)?;
    }
    Ok(Some(places))
}

/// The number at this index, or 0.
fn place_at(places: &[usize], i: usize) -> usize
    ensures { result ≡ slice_index places.now i }
{
    match places.get(i) {
        Some(place) => *place,
        None => 0,
    }
}

/// Puts a row at a place where there is one.
fn put_row(rows: &mut Vec<(Key, Value)>, place: usize, key: Key, value: Value)
    ensures put { rows.new.items ≡ slice_set rows.old.items place (key, value) }
    ensures room { IsRoom rows.old rows.new }
{
    if place >= rows.len() {
        return;
    }
    rows[place] = (key, value);
}

/// Puts the rows that were written at their places.
fn put_rows(rows: &mut Vec<(Key, Value)>, places: &[usize], writes: &[(Key, Value)])
    ensures { (db : Db) → IsTablesOf db rows.old.items → ArePut (keys_in rows.old.items) writes.now places.now → IsTablesOf (after writes.now db) rows.new.items }
{
    for i in 0..writes.len() {
        let (key, value) = &writes[i];
        put_row(rows, place_at(places, i), *key, value.copied());
    }
}

/// The same of tables.
fn put_all(alloc: Global, tables: &mut Tables, places: &[usize], writes: &[(Key, Value)])
    ensures { (db : Db) → IsTablesOf db tables.old → ArePut (keys_in tables.old) writes.now places.now → IsTablesOf (after writes.now db) tables.new }
{
    let mut rows = mem::replace(tables, Tables::of(Vec::new(alloc))).into_rows();
    put_rows(&mut rows, places, writes);
    *tables = Tables::of(rows);
}

/// Has a row that there is become this one, or go.
fn change(rows: &mut Vec<(Key, Value)>, place: usize, key: Key, value: Value)
    requires { place < length rows.old.items }
    ensures tables { (db : Db) → IsTablesOf db rows.old.items → slice_get (keys_in rows.old.items) place ≡ Some key → IsTablesOf (written ((key, value) ∷ []) db) rows.new.items }
    ensures room { IsRoom rows.old rows.new }
{
    if is_value(&value) {
        put_row(rows, place, key, value);
        return;
    }
    rows.remove(place);
}

/// Has a row come, if it has a value.
fn come(rows: &mut Vec<(Key, Value)>, place: usize, key: Key, value: Value)
    requires within { place ≤ length rows.old.items }
    requires room { vec_len rows.old < vec_capacity rows.old }
    ensures tables { (db : Db) → IsTablesOf db rows.old.items → IsGap (keys_in rows.old.items) key place → IsTablesOf (written ((key, value) ∷ []) db) rows.new.items }
    ensures room { IsRoom rows.old rows.new }
{
    if !is_value(&value) {
        return;
    }
    match rows.insert(place, (key, value)) {
        Ok(()) => {}
        Err(_) => {}
    }
}

/// Has a row be as it was written. If it comes or goes, those above it move.
fn write_row(rows: &mut Vec<(Key, Value)>, key: Key, value: Value)
    requires { vec_len rows.old < vec_capacity rows.old }
    ensures tables { (db : Db) → IsTablesOf db rows.old.items → IsTablesOf (written ((key, value) ∷ []) db) rows.new.items }
    ensures room { IsRoom rows.old rows.new }
{
    match seek(rows.as_slice(), key) {
        Ok(place) => change(rows, place, key, value),
        Err(place) => come(rows, place, key, value),
    }
}

/// The same of all writes, for which there is room.
fn write_each(rows: &mut Vec<(Key, Value)>, writes: &[(Key, Value)])
    requires { vec_len rows.old + length writes.now ≤ vec_capacity rows.old }
    ensures { (db : Db) → IsTablesOf db rows.old.items → IsTablesOf (after writes.now db) rows.new.items }
{
    for i in 0..writes.len() {
        let (key, value) = &writes[i];
        write_row(rows, *key, value.copied());
    }
}

/// The same of tables.
fn write_all(alloc: Global, tables: &mut Tables, writes: &[(Key, Value)]) -> Result<(), NoMemory>
    ensures ok { (db : Db) → IsTablesOf db tables.old → OnOk result (IsTablesOf (after writes.now db) tables.new) }
    ensures err { OnErr result (tables.new ≡ tables.old) }
{
    let mut rows = mem::replace(tables, Tables::of(Vec::new(alloc))).into_rows();
    match rows.reserve(writes.len()) {
        Ok(()) => {
            write_each(&mut rows, writes);
            *tables = Tables::of(rows);
            Ok(())
        }
        Err(_) => {
            *tables = Tables::of(rows);
            Err(NoMemory)
        }
    }
}

/// Whether not many rows come or go.
fn do_few_come(rows: &[(Key, Value)], writes: &[(Key, Value)]) -> bool {
    let mut left = FEW;
    for i in 0..writes.len() {
        if place_put(rows, &writes[i]).is_none() {
            if left == 0 {
                return false;
            }
            left -= 1;
        }
    }
    true
}

/// Lists the rows of a store anew.
fn list_anew(alloc: Global, store: &SerialStore, tables: &mut Tables) -> Result<(), NoMemory>
    ensures ok { OnOk result (IsTablesOf (database store.now) tables.new) }
    ensures err { OnErr result (tables.new ≡ tables.old) }
{
    match store.tables(alloc) {
        Ok(found) => {
            *tables = found;
            Ok(())
        }
        Err(e) => Err(e),
    }
}

/// Renews the rows of a store if few come or go, and else lists them anew.
fn renew_or_list(
    alloc: Global,
    store: &SerialStore,
    writes: &[(Key, Value)],
    tables: &mut Tables,
) -> Result<(), NoMemory>
    ensures ok { (db : Db) → IsTablesOf db tables.old → database store.now ≡ after writes.now db → OnOk result (IsTablesOf (database store.now) tables.new) }
    ensures err { OnErr result (tables.new ≡ tables.old) }
{
    if do_few_come(tables.rows(), writes) {
        return write_all(alloc, tables, writes);
    }
    list_anew(alloc, store, tables)
}

/// Renews the rows of a store by all that was written to it since. If many rows come or go, all are listed anew.
fn renew_by(
    alloc: Global,
    store: &SerialStore,
    writes: &[(Key, Value)],
    tables: &mut Tables,
) -> Result<(), NoMemory>
    ensures ok { (db : Db) → IsTablesOf db tables.old → database store.now ≡ after writes.now db → OnOk result (IsTablesOf (database store.now) tables.new) }
    ensures err { OnErr result (tables.new ≡ tables.old) }
{
    if writes.len() <= FEW {
        return write_all(alloc, tables, writes);
    }
    match places_put(alloc, tables.rows(), writes) {
        Err(e) => Err(e),
        Ok(None) => renew_or_list(alloc, store, writes, tables),
        Ok(Some(places)) => {
            put_all(alloc, tables, places.as_slice(), writes);
            Ok(())
        }
    }
}

/// Has the rows of a store in these tables, which were its rows before these writes if `stood`.
pub fn renew_rows(
    alloc: Global,
    store: &SerialStore,
    writes: &[(Key, Value)],
    tables: &mut Tables,
    stood: bool,
) -> Result<(), NoMemory>
    ensures ok { (db : Db) → (stood ≡ true → IsTablesOf db tables.old) → database store.now ≡ after writes.now db → OnOk result (IsTablesOf (database store.now) tables.new) }
    ensures err { OnErr result (tables.new ≡ tables.old) }
{
    if stood {
        return renew_by(alloc, store, writes, tables);
    }
    list_anew(alloc, store, tables)
}

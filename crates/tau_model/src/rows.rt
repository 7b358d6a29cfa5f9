//! The rows of a database.
ghost use Rattle.std.specs.Prelude.{◌≡◌, ◌<◌, ◌≤◌, ◌+◌, ◌∷◌, [], length, map, IfOk, OnOk, OnErr, true};
ghost use Rattle.std.specs.List.{IsDistinct, filter};
ghost use Rattle.std.specs.List.Sorted.{IsPermutation, IsSortedByKey};
ghost use Rattle.std.specs.Map.{keys_of};
ghost use Rattle.std.specs.Option.{option_copied, unwrap_or};
ghost use Rattle.indexmap.specs.IndexMap.{spare};
ghost use Rattle.tau_base.specs.Database.{empty_db, key_cmp, written};
ghost use Rattle.tau_base.specs.declared.value.Value.TheVariants.{Absent, Int};
ghost use Rattle.tau_model.specs.Tables.{IsTablesOf, is_present, is_value, row_key};

use crate::row_places::RowPlaces;
use crate::tables::Tables;
use indexmap::IndexMap;
use std::alloc::Global;
use tau_base::{Key, NoMemory, Value};

/// The rows of a database. An absent row takes no place.
#[derive(Drop)]
pub(crate) struct Rows {
    rows: IndexMap<Key, Value>,
}

impl Rows {
    ghost use Rattle.tau_model.specs.Store.{is_key, rows_of, IsAt};

    /// No row. It takes no memory.
    pub(crate) fn new(alloc: Global) -> Rows
        ensures { rows_of result ≡ empty_db }
    {
        Rows {
            rows: IndexMap::new(alloc),
        }
    }

    /// The value of a row, lent. An absent row has none.
    pub(crate) fn value_ref(&self, key: Key) -> Option<&Value>
        ensures { unwrap_or (option_copied result) Absent ≡ rows_of self.now key }
    {
        self.rows.get(&key)
    }

    /// The value of a row.
    pub(crate) fn value(&self, key: Key) -> Value
        ensures { result ≡ rows_of self.now key }
    {
        match self.rows.get(&key) {
            Some(value) => value.copied(),
            None => Value::Absent,
        }
    }

    /// The value of a row, lent, which is looked for first where it was found last. An absent row has none.
    pub(crate) fn near_ref(&self, key: Key, places: &RowPlaces) -> Option<&Value>
        ensures { unwrap_or (option_copied result) Absent ≡ rows_of self.now key }
    {
        match self.rows.get_index(places.guess(key)) {
            Some((found, value)) => {
                if *found == key {
                    return Some(value);
                }
                self.rows.get(&key)
            }
            None => self.rows.get(&key),
        }
    }

    /// Puts the value of a row here, and notes its place.
    pub(crate) fn read_noted(&self, key: Key, places: &mut RowPlaces, value: &mut Value)
        ensures { value.new ≡ rows_of self.now key }
    {
        match self.rows.get_index(places.guess(key)) {
            Some((found, stands)) => {
                if *found == key {
                    return put_value(value, stands);
                }
                self.find_noted(key, places, value)
            }
            None => self.find_noted(key, places, value),
        }
    }

    /// The same, where its place is not known.
    #[inline(never)]
    fn find_noted(&self, key: Key, places: &mut RowPlaces, value: &mut Value)
        ensures { value.new ≡ rows_of self.now key }
    {
        let Some((place, _, stands)) = self.rows.get_full(&key) else {
            *value = Value::Absent;
            return;
        };
        places.note(key, place);
        put_value(value, stands);
    }

    /// The present rows in ascending order of keys.
    pub(crate) fn tables(&self, alloc: Global) -> Result<Tables, NoMemory>
        ensures { IfOk result (λ tables. IsTablesOf (rows_of self.now) tables) }
    {
        let mut rows = self.present(alloc)?;
        sort_rows(&mut rows);
        Ok(Tables::of(rows))
    }

    /// The present rows, each once.
    fn present(&self, alloc: Global) -> Result<Vec<(Key, Value)>, NoMemory>
        ensures rows { IfOk result (λ rows. rows.items ≡ filter is_present self.now.rows.entries) }
        ensures once { OnOk result (IsDistinct is_key (keys_of self.now.rows.entries)) }
    {
        let mut rows = Vec::with_capacity(alloc, self.rows.len())?;
        for (key, value) in &self.rows {
            if is_value(value) {
                rows.push((*key, value.copied()))?;
            }
        }
        Ok(rows)
    }

    /// Writes these rows, or none of them, each first where it was found last.
    pub(crate) fn write_near(
        &mut self,
        writes: &[(Key, Value)],
        places: &RowPlaces,
    ) -> Result<(), NoMemory>
        ensures ok { OnOk result (rows_of self.new ≡ written writes.now (rows_of self.old)) }
        ensures err { OnErr result (rows_of self.new ≡ rows_of self.old) }
    {
        let Ok(()) = self.rows.reserve(writes.len()) else {
            return Err(NoMemory);
        };
        self.set_rows_near(writes, places);
        Ok(())
    }

    /// Sets rows for which there is room. Of two values for one row the first counts.
    fn set_rows_near(&mut self, writes: &[(Key, Value)], places: &RowPlaces)
        requires { length writes.now ≤ spare self.old.rows }
        ensures { rows_of self.new ≡ written writes.now (rows_of self.old) }
    {
        for at in (0..writes.len()).rev() {
            let (key, value) = &writes[at];
            self.set_row_near(*key, value, places);
        }
    }

    /// Sets a row, first where it was found last.
    fn set_row_near(&mut self, key: Key, value: &Value, places: &RowPlaces)
        requires { 0 < spare self.old.rows }
        ensures set { rows_of self.new ≡ written ((key, value.now) ∷ []) (rows_of self.old) }
        ensures room { spare self.old.rows ≤ spare self.new.rows + 1 }
    {
        let place = places.guess(key);
        if is_value(value) && self.is_at(key, place) {
            return self.put_at(key, place, value);
        }
        self.set_row(key, value)
    }

    /// Whether the row is at this place.
    fn is_at(&self, key: Key, place: usize) -> bool
        ensures { result ≡ true → IsAt key place self.now.rows.entries }
    {
        match self.rows.get_index(place) {
            Some((found, _)) => *found == key,
            None => false,
        }
    }

    /// Puts a value in the row's place, which is this one.
    fn put_at(&mut self, key: Key, place: usize, value: &Value)
        requires at { IsAt key place self.old.rows.entries }
        requires room { 0 < spare self.old.rows }
        ensures set { rows_of self.new ≡ written ((key, value.now) ∷ []) (rows_of self.old) }
        ensures room { spare self.old.rows ≤ spare self.new.rows + 1 }
    {
        let Some(stands) = self.rows.get_index_mut(place) else {
            return self.put_row(key, value);
        };
        put_value(stands, value);
    }

    /// Writes these rows, or none of them.
    pub(crate) fn write(&mut self, writes: &[(Key, Value)]) -> Result<(), NoMemory>
        ensures ok { OnOk result (rows_of self.new ≡ written writes.now (rows_of self.old)) }
        ensures err { OnErr result (rows_of self.new ≡ rows_of self.old) }
    {
        self.rows.reserve(writes.len())?;
        self.set_rows(writes);
        Ok(())
    }

    /// Sets rows for which there is room. Of two values for one row the first counts.
    fn set_rows(&mut self, writes: &[(Key, Value)])
        requires { length writes.now ≤ spare self.old.rows }
        ensures { rows_of self.new ≡ written writes.now (rows_of self.old) }
    {
        for i in (0..writes.len()).rev() {
            let (key, value) = &writes[i];
            self.set_row(*key, value);
        }
    }

    /// Writes whole numbers to these rows, or to none of them.
    pub(crate) fn write_numbers(&mut self, writes: &[(Key, i64)]) -> Result<(), NoMemory>
        ensures ok { OnOk result (rows_of self.new ≡ written (map (λ r. (r.0, Int r.1)) writes.now) (rows_of self.old)) }
        ensures err { OnErr result (rows_of self.new ≡ rows_of self.old) }
    {
        let Ok(()) = self.rows.reserve(writes.len()) else {
            return Err(NoMemory);
        };
        self.set_numbers(writes);
        Ok(())
    }

    /// Sets rows to whole numbers for which there is room. Of two numbers for one row the first counts.
    fn set_numbers(&mut self, writes: &[(Key, i64)])
        requires { length writes.now ≤ spare self.old.rows }
        ensures { rows_of self.new ≡ written (map (λ r. (r.0, Int r.1)) writes.now) (rows_of self.old) }
    {
        for place in (0..writes.len()).rev() {
            let write = &writes[place];
            self.set_number(write);
        }
    }

    /// Sets a row to a whole number.
    fn set_number(&mut self, write: &(Key, i64))
        requires { 0 < spare self.old.rows }
        ensures set { rows_of self.new ≡ written ((write.now.0, Int write.now.1) ∷ []) (rows_of self.old) }
        ensures room { spare self.old.rows ≤ spare self.new.rows + 1 }
    {
        self.put_row(write.0, &Value::Int(write.1));
    }

    /// Sets a row, or takes its place if it becomes absent.
    fn set_row(&mut self, key: Key, value: &Value)
        requires { 0 < spare self.old.rows }
        ensures set { rows_of self.new ≡ written ((key, value.now) ∷ []) (rows_of self.old) }
        ensures room { spare self.old.rows ≤ spare self.new.rows + 1 }
    {
        if !is_value(value) {
            self.rows.swap_remove(&key);
            return;
        }
        self.put_row(key, value);
    }

    /// Puts a value in the row's place, or gives the row one.
    fn put_row(&mut self, key: Key, value: &Value)
        requires { 0 < spare self.old.rows }
        ensures set { rows_of self.new ≡ written ((key, value.now) ∷ []) (rows_of self.old) }
        ensures room { spare self.old.rows ≤ spare self.new.rows + 1 }
    {
        let Some(place) = self.rows.get_mut(&key) else {
            return self.add_row(key, value);
        };
        put_value(place, value);
    }

    /// Puts a row, which takes no memory if there is room.
    fn add_row(&mut self, key: Key, value: &Value)
        requires { 0 < spare self.old.rows }
        ensures set { rows_of self.new ≡ written ((key, value.now) ∷ []) (rows_of self.old) }
        ensures room { spare self.old.rows ≤ spare self.new.rows + 1 }
    {
        let _ = self.rows.insert(key, value.copied());
    }
}

/// Puts a value in the place of another.
fn put_value(place: &mut Value, value: &Value)
    ensures { place.new ≡ value.now }
{
    *place = value.copied();
}

/// Puts rows in ascending order of keys.
fn sort_rows(rows: &mut Vec<(Key, Value)>)
    ensures same { IsPermutation rows.old.items rows.new.items }
    ensures ascending { IsSortedByKey row_key key_cmp rows.new.items }
{
    rows.sort_unstable_by_key(|row| row.0);
}

/// Whether there is a value.
fn is_value(value: &Value) -> bool
    ensures { result ≡ is_value value.now }
{
    match value {
        Value::Absent => false,
        _ => true,
    }
}

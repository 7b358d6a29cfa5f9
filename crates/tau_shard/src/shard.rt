//! A shard.
ghost use Rattle.std.specs.Prelude.{◌≡◌, ◌<◌, ◌≤◌, ◌-◌, ◌++◌, ℕ, length, take, [], ◌∷◌, false, not, None, Some, OnOk, OnErr, IfOk, IfErr, IsSome, IfSome, IfNone, true, replicate, filter};
ghost use Rattle.std.specs.Map.{lookup, keys_of};
ghost use Rattle.std.specs.Option.{option_copied, unwrap_or};
ghost use Rattle.tau_base.specs.Vectors.{join};
ghost use Rattle.tau_base.specs.Database.{same_key, written, db_of};
ghost use Rattle.tau_shard.specs.Shard.{entry_in, entry_or, held_as, put_entry, shard_locked, shard_quit, shard_freed, Dropped};
ghost use Rattle.tau_shard.specs.Read.{is_key, entry_of, shard_of};
ghost use Rattle.tau_shard.specs.declared.entry.LockEntry.{LockEntry as EntryOf};
ghost use Rattle.std.specs.List.{IsDistinct};
ghost use Rattle.tau_shard.specs.Stands.{StandsAt};
ghost use Rattle.tau_shard.specs.Blocks.{blocks, RefusedBy, covered, dep_locked, empty, swept};
ghost use Rattle.tau_shard.specs.Present.{is_present, present_rows};

use crate::entry::{
    LockEntry, ShardRefusal, blocker, first_held, hold, is_covered, raise_by, release,
    release_read, release_written,
};
use indexmap::IndexMap;
use std::alloc::Global;
use std::marker::Model;
use tau_base::{Key, Lv, MAX_HOLDERS, MAX_STREAMS, Mode, NoMemory, Value};

/// A shard of the lock table.
#[derive(Drop)]
pub struct Shard {
    rows: IndexMap<Key, Value>,
    entries: IndexMap<Key, LockEntry>,
    floor: Lv,
    // Where the entry and the row of the key stand that was locked last: who locked it mostly locks it again or frees it
    // next. They are looked at before a key is looked up, and may be wrong.
    entry_at: usize,
    row_at: usize,
}

impl Model for Shard {
    ghost use Rattle.tau_shard.specs.Plain.{PlainShard};
    ghost use Rattle.tau_shard.specs.Blocks.{Placed};

    ghost Value = { PlainShard };

    ghost view = { λ s. record { rows = s.rows.entries; entries = s.entries.entries; floor = s.floor } };

    ghost invariant = { λ s. Placed (record { rows = s.rows.entries; entries = s.entries.entries; floor = s.floor }) };
}

impl Shard {
    /// No rows and no entries, and the zero floor.
    pub fn new(alloc: Global, streams: usize) -> Shard
        requires low { 1 ≤ streams }
        requires high { streams ≤ MAX_STREAMS }
        ensures { shard_of result ≡ empty (replicate streams 0) }
    {
        Shard::with_floor(alloc, Lv::zero(streams))
    }

    /// No rows and no entries, and this floor.
    pub fn with_floor(alloc: Global, floor: Lv) -> Shard
        ensures { shard_of result ≡ empty floor }
    {
        Shard {
            rows: IndexMap::new(alloc),
            entries: IndexMap::new(alloc),
            floor,
            entry_at: 0,
            row_at: 0,
        }
    }

    /// The floor: the join of the vectors of all entries that were removed.
    pub fn floor(&self) -> Lv
        ensures { result ≡ (shard_of self.now).floor }
    {
        self.floor
    }

    /// The row's value, lent. None only where the row is Absent.
    pub fn row(&self, key: Key) -> Option<&Value>
        ensures { unwrap_or (option_copied result) Value.Absent ≡ (shard_of self.now).rows key }
    {
        lent(&self.rows, key, self.row_at)
    }

    /// The row's value, Absent where there is none.
    pub fn value(&self, key: Key) -> Value
        ensures { result ≡ (shard_of self.now).rows key }
    {
        match self.row(key) {
            Some(value) => value.copied(),
            None => Value::Absent,
        }
    }

    /// Puts an entry.
    fn put(&mut self, key: Key, entry: LockEntry) -> Result<(), NoMemory>
        requires placed { (w : ℕ) → (entry_of entry).holders w ≡ Some Mode.Write → IsSome (lookup (is_key key) self.old.rows) }
        ensures ok { OnOk result (shard_of self.new ≡ put_entry (shard_of self.old) key (entry_of entry)) }
        ensures err { OnErr result (shard_of self.new ≡ shard_of self.old) }
        ensures rows { self.new.rows ≡ self.old.rows }
    {
        self.entries.insert(key, entry)?;
        Ok(())
    }

    /// Writes a row that has its place. It takes no memory.
    fn write_row(&mut self, key: Key, value: &Value)
        requires { IsSome (lookup (is_key key) self.old.rows) }
        ensures { shard_of self.new ≡ record (shard_of self.old) { rows = written ((key, value.now) ∷ []) (shard_of self.old).rows } }
    {
        let at = there(&self.rows, key, self.row_at);
        let (_, place) = self.rows.pair_mut(at);
        put_value(place, value);
    }

    /// A row that is to be written gets its place.
    fn prepare_row(&mut self, key: Key, mode: Mode) -> Result<(), NoMemory>
        ensures same { shard_of self.new ≡ shard_of self.old }
        ensures there { OnOk result (mode ≡ Mode.Write → IsSome (lookup (is_key key) self.new.rows)) }
    {
        place_row(&mut self.rows, &mut self.row_at, key, mode)
    }

    /// Raises the vector of a call by a lock of a key that has no entry.
    fn raise_by_floor(&self, dep: &mut Lv, mode: Mode)
        ensures { dep.new ≡ dep_locked mode dep.old (entry_or (shard_of self.now).floor None) }
    {
        dep.raise(&self.floor);
    }

    /// A new entry, whose key the worker holds.
    fn first_entry(&self, worker: u8, mode: Mode) -> LockEntry
        requires { worker < MAX_HOLDERS }
        ensures { entry_of result ≡ held_as (entry_or (shard_of self.now).floor None) worker (Some mode) }
    {
        first_held(&self.floor, worker, mode)
    }

    /// Locks the key for the worker, one of 32, joins the key's write vector into `dep`, for a write lock its read vector too, and returns the row's
    /// value. After a write lock the row has its place, so that `free` takes no memory. After a refusal shard and `dep` are unchanged.
    pub fn lock(
        &mut self,
        worker: u8,
        key: Key,
        mode: Mode,
        dep: &mut Lv,
    ) -> Result<Value, ShardRefusal>
        requires { worker < MAX_HOLDERS }
        ensures locked { OnOk result (shard_of self.new ≡ shard_locked (shard_of self.old) worker key mode) }
        ensures value { IfOk result (λ v. v ≡ (shard_of self.old).rows key) }
        ensures joined { OnOk result (dep.new ≡ dep_locked mode dep.old (entry_in (shard_of self.old) key)) }
        ensures free { OnOk result ((u : ℕ) → blocks (entry_in (shard_of self.old) key) worker mode u ≡ false) }
        ensures refused { IfErr result (λ e. RefusedBy (entry_in (shard_of self.old) key) worker mode e) }
        ensures unchanged { OnErr result (shard_of self.new ≡ shard_of self.old) }
        ensures dep_unchanged { OnErr result (dep.new ≡ dep.old) }
    {
        self.lock_key(worker, key, mode, dep)?;
        Ok(self.value(key))
    }

    /// Locks the key as `lock` does, and returns no value: `row` lends it.
    pub fn lock_key(
        &mut self,
        worker: u8,
        key: Key,
        mode: Mode,
        dep: &mut Lv,
    ) -> Result<(), ShardRefusal>
        requires { worker < MAX_HOLDERS }
        ensures locked { OnOk result (shard_of self.new ≡ shard_locked (shard_of self.old) worker key mode) }
        ensures joined { OnOk result (dep.new ≡ dep_locked mode dep.old (entry_in (shard_of self.old) key)) }
        ensures free { OnOk result ((u : ℕ) → blocks (entry_in (shard_of self.old) key) worker mode u ≡ false) }
        ensures refused { IfErr result (λ e. RefusedBy (entry_in (shard_of self.old) key) worker mode e) }
        ensures unchanged { OnErr result (shard_of self.new ≡ shard_of self.old) }
        ensures dep_unchanged { OnErr result (dep.new ≡ dep.old) }
    {
        match find(&self.entries, key, self.entry_at) {
            Some(at) => self.lock_at(at, worker, key, mode, dep),
            None => self.lock_new(worker, key, mode, dep),
        }
    }

    /// Locks a key whose entry stands here.
    fn lock_at(
        &mut self,
        at: usize,
        worker: u8,
        key: Key,
        mode: Mode,
        dep: &mut Lv,
    ) -> Result<(), ShardRefusal>
        requires low { worker < MAX_HOLDERS }
        requires there { (e : EntryOf) × StandsAt self.old.entries key at e }
        ensures locked { OnOk result (shard_of self.new ≡ shard_locked (shard_of self.old) worker key mode) }
        ensures joined { OnOk result (dep.new ≡ dep_locked mode dep.old (entry_in (shard_of self.old) key)) }
        ensures free { OnOk result ((u : ℕ) → blocks (entry_in (shard_of self.old) key) worker mode u ≡ false) }
        ensures refused { IfErr result (λ e. RefusedBy (entry_in (shard_of self.old) key) worker mode e) }
        ensures unchanged { OnErr result (shard_of self.new ≡ shard_of self.old) }
        ensures dep_unchanged { OnErr result (dep.new ≡ dep.old) }
    {
        self.entry_at = at;
        let (_, entry) = self.entries.pair_mut(at);
        lock_old(
            entry,
            &mut self.rows,
            &mut self.row_at,
            worker,
            key,
            mode,
            dep,
        )
    }

    /// Locks a key that has no entry.
    fn lock_new(
        &mut self,
        worker: u8,
        key: Key,
        mode: Mode,
        dep: &mut Lv,
    ) -> Result<(), ShardRefusal>
        requires low { worker < MAX_HOLDERS }
        requires none { lookup (is_key key) self.old.entries ≡ None }
        ensures locked { OnOk result (shard_of self.new ≡ shard_locked (shard_of self.old) worker key mode) }
        ensures joined { OnOk result (dep.new ≡ dep_locked mode dep.old (entry_in (shard_of self.old) key)) }
        ensures free { (u : ℕ) → blocks (entry_in (shard_of self.old) key) worker mode u ≡ false }
        ensures refused { IfErr result (λ e. e ≡ ShardRefusal.NoMemory) }
        ensures unchanged { OnErr result (shard_of self.new ≡ shard_of self.old) }
        ensures dep_unchanged { OnErr result (dep.new ≡ dep.old) }
    {
        self.prepare_row(key, mode)?;
        self.put(key, self.first_entry(worker, mode))?;
        self.raise_by_floor(dep, mode);
        Ok(())
    }

    /// Frees a key of a call with this vector: what the call wrote becomes the row, and the vector is joined into the key's write vector; where the
    /// call only read the key, into its read vector. It takes no memory.
    pub fn free(&mut self, worker: u8, key: Key, lv: &Lv, write: Option<Value>)
        requires low { worker < MAX_HOLDERS }
        requires held { IsSome ((entry_in (shard_of self.old) key).holders worker) }
        requires writes { IsSome write → (entry_in (shard_of self.old) key).holders worker ≡ Some Mode.Write }
        ensures { shard_of self.new ≡ shard_freed (shard_of self.old) worker key lv.now write }
    {
        self.free_by(worker, key, lv, write.as_ref());
    }

    /// Frees a key as `free` does. What the call wrote is lent, and copied once, into the row.
    pub fn free_by(&mut self, worker: u8, key: Key, lv: &Lv, write: Option<&Value>)
        requires low { worker < MAX_HOLDERS }
        requires held { IsSome ((entry_in (shard_of self.old) key).holders worker) }
        requires writes { IsSome write → (entry_in (shard_of self.old) key).holders worker ≡ Some Mode.Write }
        ensures { shard_of self.new ≡ shard_freed (shard_of self.old) worker key lv.now (option_copied write.entry) }
    {
        match write {
            None => self.free_read(worker, key, lv),
            Some(value) => {
                self.free_written(worker, key, lv);
                self.write_row(key, value);
            }
        }
    }

    /// Frees a key that the call only read.
    fn free_read(&mut self, worker: u8, key: Key, lv: &Lv)
        requires low { worker < MAX_HOLDERS }
        requires held { IsSome ((entry_in (shard_of self.old) key).holders worker) }
        ensures { shard_of self.new ≡ shard_freed (shard_of self.old) worker key lv.now None }
    {
        let at = there(&self.entries, key, self.entry_at);
        let (_, entry) = self.entries.pair_mut(at);
        release_read(entry, worker, lv);
    }

    /// Frees a key that the call wrote, all but its row.
    fn free_written(&mut self, worker: u8, key: Key, lv: &Lv)
        requires low { worker < MAX_HOLDERS }
        requires held { (entry_in (shard_of self.old) key).holders worker ≡ Some Mode.Write }
        ensures entry { shard_of self.new ≡ put_entry (shard_of self.old) key (record (held_as (entry_in (shard_of self.old) key) worker None) { write_lv = join (entry_in (shard_of self.old) key).write_lv lv.now }) }
        ensures there { IsSome (lookup (is_key key) self.new.rows) }
    {
        let at = there(&self.entries, key, self.entry_at);
        let (_, entry) = self.entries.pair_mut(at);
        release_written(entry, worker, lv);
    }

    /// Gives a key back and raises no vector. It takes no memory.
    pub fn quit(&mut self, worker: u8, key: Key)
        requires low { worker < MAX_HOLDERS }
        requires held { IsSome ((entry_in (shard_of self.old) key).holders worker) }
        ensures { shard_of self.new ≡ shard_quit (shard_of self.old) worker key }
    {
        let at = there(&self.entries, key, self.entry_at);
        let (_, entry) = self.entries.pair_mut(at);
        release(entry, worker);
    }

    /// Removes each entry that nobody holds and whose vectors `plv` covers, joins them into the floor, and returns how many.
    pub fn drop_covered(&mut self, plv: &Lv) -> usize
        ensures dropped { Dropped plv.now (shard_of self.old) (shard_of self.new) }
        ensures wide { length (shard_of self.old).floor ≤ length (shard_of self.new).floor }
        ensures count { result ≡ length self.old.entries - length self.new.entries }
    {
        let before = self.entries.len();
        remove_covered(&mut self.entries, &mut self.floor, plv);
        before - self.entries.len()
    }

    /// Appends the present rows, each once. For lack of memory the list is unchanged.
    pub fn present(&self, out: &mut Vec<(Key, Value)>) -> Result<(), NoMemory>
        ensures rows { OnOk result (out.new.items ≡ out.old.items ++ present_rows self.now.rows) }
        ensures database { db_of (λ x. lookup (same_key x) (present_rows self.now.rows)) ≡ (shard_of self.now).rows }
        ensures once { IsDistinct same_key (keys_of (present_rows self.now.rows)) }
        ensures unchanged { OnErr result (out.new.items ≡ out.old.items) }
    {
        let before = out.len();
        let appended = append_present(&self.rows, out);
        if appended.is_err() {
            out.truncate(before);
        }
        appended
    }
}

/// Appends the present rows, as far as there is memory.
fn append_present(rows: &IndexMap<Key, Value>, out: &mut Vec<(Key, Value)>) -> Result<(), NoMemory>
    ensures rows { OnOk result (out.new.items ≡ out.old.items ++ present_rows rows.now.entries) }
    ensures grown { take (length out.old.items) out.new.items ≡ out.old.items }
    ensures database { db_of (λ x. lookup (same_key x) (present_rows rows.now.entries)) ≡ db_of (λ x. lookup (is_key x) rows.now.entries) }
    ensures once { IsDistinct same_key (keys_of (present_rows rows.now.entries)) }
{
    for i in 0..rows.len() {
        if let Some((key, value)) = rows.get_index(i) {
            if is_present(value) {
                out.push((*key, value.copied()))?;
            }
        }
    }
    Ok(())
}

/// Whether the row is there.
fn is_present(value: &Value) -> bool
    ensures { result ≡ is_present value.now }
{
    !matches!(value, Value::Absent)
}

/// Removes the entries that are covered, and raises the floor by their vectors.
fn remove_covered(entries: &mut IndexMap<Key, LockEntry>, floor: &mut Lv, plv: &Lv)
    ensures left { entries.new.entries ≡ filter (λ e. not (covered plv.now e.1)) entries.old.entries }
    ensures raised { floor.new ≡ swept plv.now floor.old entries.old.entries }
    ensures fewer { length entries.new.entries ≤ length entries.old.entries }
{
    if !sweep(entries, floor, plv) {
        return;
    }
    entries.retain(
        |_key: &Key, entry: &mut LockEntry| -> bool
            ensures { (result ≡ not (covered plv.entry.now entry.old)) × (entry.new ≡ entry.old) }
        { !is_covered(entry, plv) },
    );
}

/// Raises the floor by the vectors of all entries that are covered. Whether there are such.
fn sweep(entries: &IndexMap<Key, LockEntry>, floor: &mut Lv, plv: &Lv) -> bool
    ensures raised { floor.new ≡ swept plv.now floor.old entries.now.entries }
    ensures none { result ≡ false → filter (λ e. not (covered plv.now e.1)) entries.now.entries ≡ entries.now.entries }
{
    let mut found = false;
    for i in 0..entries.len() {
        if let Some((_, entry)) = entries.get_index(i) {
            if is_covered(entry, plv) {
                raise_floor(floor, entry);
                found = true;
            }
        }
    }
    found
}

/// Raises the floor by both vectors of an entry.
fn raise_floor(floor: &mut Lv, entry: &LockEntry)
    ensures { floor.new ≡ join (join floor.old entry.now.write) entry.now.read }
{
    floor.raise(&entry.write);
    floor.raise(&entry.read);
}

/// Puts the value in the place of another.
fn put_value(place: &mut Value, value: &Value)
    ensures { place.new ≡ value.now }
{
    if let Value::Int(old) = place {
        if let Value::Int(number) = value {
            *old = *number;
            return;
        }
    }
    *place = value.copied();
}

/// Locks a key that has this entry.
fn lock_old(
    entry: &mut LockEntry,
    rows: &mut IndexMap<Key, Value>,
    row_at: &mut usize,
    worker: u8,
    key: Key,
    mode: Mode,
    dep: &mut Lv,
) -> Result<(), ShardRefusal>
    requires { worker < MAX_HOLDERS }
    ensures locked { OnOk result (entry_of entry.new ≡ held_as (entry_of entry.old) worker (Some mode)) }
    ensures joined { OnOk result (dep.new ≡ dep_locked mode dep.old (entry_of entry.old)) }
    ensures free { OnOk result ((u : ℕ) → blocks (entry_of entry.old) worker mode u ≡ false) }
    ensures refused { IfErr result (λ e. RefusedBy (entry_of entry.old) worker mode e) }
    ensures unchanged { OnErr result (entry.new ≡ entry.old) }
    ensures dep_unchanged { OnErr result (dep.new ≡ dep.old) }
    ensures same { db_of (λ x. lookup (is_key x) rows.new.entries) ≡ db_of (λ x. lookup (is_key x) rows.old.entries) }
    ensures kept { (x : Key) → IsSome (lookup (is_key x) rows.old.entries) → IsSome (lookup (is_key x) rows.new.entries) }
    ensures there { OnOk result (mode ≡ Mode.Write → IsSome (lookup (is_key key) rows.new.entries)) }
{
    if let Some(holder) = blocker(entry, worker, mode) {
        return Err(ShardRefusal::Busy { holder });
    }
    *row_at = entry.row_at;
    place_row(rows, row_at, key, mode)?;
    entry.row_at = *row_at;
    raise_by(dep, mode, entry);
    hold(entry, worker, mode);
    Ok(())
}

/// A row that is to be written gets its place. Of one that has it, it is remembered.
fn place_row(
    rows: &mut IndexMap<Key, Value>,
    row_at: &mut usize,
    key: Key,
    mode: Mode,
) -> Result<(), NoMemory>
    ensures same { db_of (λ x. lookup (is_key x) rows.new.entries) ≡ db_of (λ x. lookup (is_key x) rows.old.entries) }
    ensures kept { (x : Key) → IsSome (lookup (is_key x) rows.old.entries) → IsSome (lookup (is_key x) rows.new.entries) }
    ensures there { OnOk result (mode ≡ Mode.Write → IsSome (lookup (is_key key) rows.new.entries)) }
{
    match find(rows, key, *row_at) {
        Some(at) => {
            *row_at = at;
            Ok(())
        }
        None => place_missing(rows, key, mode),
    }
}

/// A row without a place gets it, if it is to be written.
fn place_missing(rows: &mut IndexMap<Key, Value>, key: Key, mode: Mode) -> Result<(), NoMemory>
    requires { lookup (is_key key) rows.old.entries ≡ None }
    ensures same { db_of (λ x. lookup (is_key x) rows.new.entries) ≡ db_of (λ x. lookup (is_key x) rows.old.entries) }
    ensures kept { (x : Key) → IsSome (lookup (is_key x) rows.old.entries) → IsSome (lookup (is_key x) rows.new.entries) }
    ensures there { OnOk result (mode ≡ Mode.Write → IsSome (lookup (is_key key) rows.new.entries)) }
{
    match mode {
        Mode::Read => Ok(()),
        Mode::Write => place_absent(rows, key),
    }
}

/// A row without a place gets it, and is Absent.
fn place_absent(rows: &mut IndexMap<Key, Value>, key: Key) -> Result<(), NoMemory>
    requires { lookup (is_key key) rows.old.entries ≡ None }
    ensures same { db_of (λ x. lookup (is_key x) rows.new.entries) ≡ db_of (λ x. lookup (is_key x) rows.old.entries) }
    ensures kept { (x : Key) → IsSome (lookup (is_key x) rows.old.entries) → IsSome (lookup (is_key x) rows.new.entries) }
    ensures there { OnOk result (IsSome (lookup (is_key key) rows.new.entries)) }
{
    rows.insert(key, Value::Absent)?;
    Ok(())
}

/// The value of the key, lent.
fn lent(map: &IndexMap<Key, Value>, key: Key, guess: usize) -> Option<&Value>
    ensures { option_copied result ≡ lookup (is_key key) map.now.entries }
{
    if let Some((found, value)) = map.get_index(guess) {
        if *found == key {
            return Some(value);
        }
    }
    map.get(&key)
}

/// Where the key stands, which is there.
fn there<V>(map: &IndexMap<Key, V>, key: Key, guess: usize) -> usize
    requires { IsSome (lookup (is_key key) map.now.entries) }
    ensures { (v : V) × StandsAt map.now.entries key result v }
{
    match find(map, key, guess) {
        Some(at) => at,
        None => unreachable!(),
    }
}

/// Where the key stands, if it is there. The guess is mostly right: only the test of it is written into each caller.
#[inline(always)]
fn find<V>(map: &IndexMap<Key, V>, key: Key, guess: usize) -> Option<usize>
    ensures found { IfSome result (λ at. (v : V) × StandsAt map.now.entries key at v) }
    ensures none { IfNone result (lookup (is_key key) map.now.entries ≡ None) }
{
    if is_at(map, key, guess) {
        return Some(guess);
    }
    look_up(map, key)
}

/// Where the key stands, if it is there, looked up.
#[inline(never)]
fn look_up<V>(map: &IndexMap<Key, V>, key: Key) -> Option<usize>
    ensures found { IfSome result (λ at. (v : V) × StandsAt map.now.entries key at v) }
    ensures none { IfNone result (lookup (is_key key) map.now.entries ≡ None) }
{
    match map.get_full(&key) {
        Some((at, _, _)) => Some(at),
        None => None,
    }
}

/// Whether the key stands here.
#[inline(always)]
fn is_at<V>(map: &IndexMap<Key, V>, key: Key, at: usize) -> bool
    ensures { result ≡ true → (v : V) × StandsAt map.now.entries key at v }
{
    match map.get_index(at) {
        Some((found, _)) => *found == key,
        None => false,
    }
}

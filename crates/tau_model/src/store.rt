//! A store that executes one call after another.
ghost use Rattle.std.specs.Prelude.{◌≡◌, [], map, IfOk, OnOk, OnErr, IsTrue};
ghost use Rattle.std.specs.Option.{option_copied, unwrap_or};
ghost use Rattle.tau_base.specs.Database.{empty_db, written};
ghost use Rattle.tau_base.specs.declared.value.Value.TheVariants.{Absent, Int};
ghost use Rattle.tau_proc.specs.Meaning.{meaning};
ghost use Rattle.tau_proc.specs.Takes.{takes};
ghost use Rattle.tau_model.specs.Tables.{IsTablesOf};

use crate::row_places::RowPlaces;
use crate::rows::Rows;
use crate::tables::Tables;
use std::alloc::Global;
use tau_base::{Call, Key, NoMemory, Value};
use tau_proc::{Machine, Procs, Reply, Want};

/// A database that executes one call after another.
#[derive(Drop)]
pub struct SerialStore {
    rows: Rows,
    /// The machine of all its calls: each is begun in the place of the one before.
    machine: Machine,
}

impl SerialStore {
    ghost use Rattle.tau_model.specs.Store.{database};

    /// The empty database. It takes no memory.
    pub fn new(alloc: Global) -> SerialStore
        ensures { database result ≡ empty_db }
    {
        SerialStore {
            rows: Rows::new(alloc),
            machine: Machine::new(),
        }
    }

    /// The value of a row.
    pub fn value(&self, key: Key) -> Value
        ensures { result ≡ database self.now key }
    {
        self.rows.value(key)
    }

    /// The value of a row, lent; none only of an absent row.
    pub fn value_ref(&self, key: Key) -> Option<&Value>
        ensures { unwrap_or (option_copied result) Absent ≡ database self.now key }
    {
        self.rows.value_ref(key)
    }

    /// The value of a row, lent, which is looked for first where it was found last; none only of an absent row.
    pub fn near_ref(&self, key: Key, places: &RowPlaces) -> Option<&Value>
        ensures { unwrap_or (option_copied result) Absent ≡ database self.now key }
    {
        self.rows.near_ref(key, places)
    }

    /// Puts the value of a row here, and notes its place.
    pub fn read_noted(&self, key: Key, places: &mut RowPlaces, value: &mut Value)
        ensures { value.new ≡ database self.now key }
    {
        self.rows.read_noted(key, places, value)
    }

    /// The present rows in ascending order of keys.
    pub fn tables(&self, alloc: Global) -> Result<Tables, NoMemory>
        ensures { IfOk result (λ tables. IsTablesOf (database self.now) tables) }
    {
        self.rows.tables(alloc)
    }

    /// Executes a call: its reply, and the database after its writes. After lack of memory the database is as before.
    pub fn execute(&mut self, procs: &Procs, call: &Call) -> Result<Reply, NoMemory>
        requires { IsTrue (takes procs.now call.now) }
        ensures reply { IfOk result (λ reply. reply ≡ (meaning procs.now call.now (database self.old)).reply) }
        ensures writes { OnOk result (database self.new ≡ written (meaning procs.now call.now (database self.old)).writes (database self.old)) }
        ensures err { OnErr result (database self.new ≡ database self.old) }
    {
        self.machine.restart(procs, call);
        'wants: loop {
            match self.machine.next() {
                Want::Read(key) => self.machine.give(self.rows.value(key)),
                Want::Write(_) => self.machine.granted(),
                Want::Finished(reply) => {
                    self.rows.write(self.machine.writes())?;
                    return Ok(reply);
                }
            }
        }
    }

    /// Writes these rows, or none of them.
    pub fn write(&mut self, writes: &[(Key, Value)]) -> Result<(), NoMemory>
        ensures ok { OnOk result (database self.new ≡ written writes.now (database self.old)) }
        ensures err { OnErr result (database self.new ≡ database self.old) }
    {
        self.rows.write(writes)
    }

    /// The same, each first where it was found last.
    pub fn write_near(
        &mut self,
        writes: &[(Key, Value)],
        places: &RowPlaces,
    ) -> Result<(), NoMemory>
        ensures ok { OnOk result (database self.new ≡ written writes.now (database self.old)) }
        ensures err { OnErr result (database self.new ≡ database self.old) }
    {
        self.rows.write_near(writes, places)
    }

    /// Writes whole numbers to these rows, or to none of them.
    pub fn write_numbers(&mut self, writes: &[(Key, i64)]) -> Result<(), NoMemory>
        ensures ok { OnOk result (database self.new ≡ written (map (λ r. (r.0, Int r.1)) writes.now) (database self.old)) }
        ensures err { OnErr result (database self.new ≡ database self.old) }
    {
        self.rows.write_numbers(writes)
    }
}

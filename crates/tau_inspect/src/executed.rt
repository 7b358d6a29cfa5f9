//! A history, executed: what each call read, wrote and replied.
ghost use Rattle.std.specs.Prelude.{ℕ, ◌≡◌, ◌++◌, ◌∷◌, [], ◌<◌, length, map, All, IfOk, OnOk, IsTrue, Some, slice_get, slice_index_or};
ghost use Rattle.tau_base.specs.Database.{empty_db, written};
ghost use Rattle.tau_proc.specs.Meaning.{meaning};
ghost use Rattle.tau_proc.specs.Progress.{buffered};
ghost use Rattle.tau_proc.specs.Takes.{takes};
ghost use Rattle.tau_model.specs.Store.{database};
ghost use Rattle.tau_inspect.specs.Executed.{acts_of, effects, rows_after, IsNumberOf};
ghost use Rattle.tau_inspect.specs.KeptDone.{done_in, HasRun, IsExtent};

use arrayvec::ArrayVec;
use std::alloc::Global;
use std::marker::Model;
use tau_base::{Call, Calls, Key, NoMemory, Value};
use tau_model::{RowPlaces, SerialStore};
use tau_proc::{Machine, Procs, Reply, Want};

/// Where what a call did lies among the rows of all: what it read, and then what it wrote.
#[derive(Debug, Drop)]
struct Extent {
    /// Where the rows begin that it read.
    from: usize,
    /// Where those begin that it wrote.
    middle: usize,
    /// Where they end.
    past: usize,
    reply: Reply,
}

/// What calls did, one after another. The rows of all lie in one list. Contracts see it as the list of what each did.
#[derive(Debug, Drop)]
pub struct AllDone {
    rows: Vec<(Key, Value)>,
    extents: Vec<Extent>,
}

impl Model for AllDone {
    ghost use Rattle.std.specs.Prelude.{List, All, map};
    ghost use Rattle.tau_proc.specs.Effect.{Effect};
    ghost use Rattle.tau_inspect.specs.KeptDone.{done_in, IsExtent};

    ghost Value = { List Effect };

    ghost view = { λ a. map (done_in a.rows.items) a.extents.items };

    ghost invariant = { λ a. All (IsExtent a.rows.items) a.extents.items };
}

impl AllDone {
    /// How many calls there are.
    pub fn len(&self) -> usize
        ensures { result ≡ length self.now }
    {
        self.extents.len()
    }

    /// What the call at this index did.
    pub fn at(&self, index: usize) -> Done<'_>
        requires { index < length self.now }
        ensures at { slice_get self.now index ≡ Some result }
        ensures is { result ≡ slice_index_or self.now index result }
    {
        let extent = &self.extents[index];
        Done {
            reads: &self.rows[extent.from..extent.middle],
            writes: &self.rows[extent.middle..extent.past],
            reply: &extent.reply,
        }
    }
}

/// What a call did: the keys that it read with what they had, what it wrote, and its reply.
#[derive(Drop)]
pub struct Done<'a> {
    reads: &'a [(Key, Value)],
    writes: &'a [(Key, Value)],
    reply: &'a Reply,
}

impl<'a> Model for Done<'a> {
    ghost use Rattle.tau_proc.specs.Effect.{Effect};

    ghost Value = { Effect };

    ghost view = { λ d. record { reads = d.reads.now; writes = d.writes.now; reply = d.reply.now } };
}

impl<'a> Done<'a> {
    /// What it read, in order.
    pub fn reads(&self) -> &'a [(Key, Value)]
        ensures { result.now ≡ self.now.reads }
    {
        self.reads
    }

    /// What it wrote, by ascending keys.
    pub fn writes(&self) -> &'a [(Key, Value)]
        ensures { result.now ≡ self.now.writes }
    {
        self.writes
    }

    /// What it replied.
    pub fn reply(&self) -> &'a Reply
        ensures { result.now ≡ self.now.reply }
    {
        self.reply
    }
}

/// Puts a row at the end. A whole number is not moved through a place as large as a text.
#[inline(always)]
fn put_row(rows: &mut Vec<(Key, Value)>, key: Key, value: &Value) -> Result<(), NoMemory>
    ensures { OnOk result (rows.new.items ≡ rows.old.items ++ (key, value.now) ∷ []) }
{
    match value {
        Value::Absent => rows.push((key, Value::Absent))?,
        Value::Int(number) => rows.push((key, Value::Int(*number)))?,
        Value::Text(text) => rows.push((key, Value::Text(text.copied())))?,
    }
    Ok(())
}

/// Puts rows at the end.
fn put_rows(rows: &mut Vec<(Key, Value)>, more: &[(Key, Value)]) -> Result<(), NoMemory>
    ensures { OnOk result (rows.new.items ≡ rows.old.items ++ more.now) }
{
    for row in more {
        put_row(rows, row.0, &row.1)?;
    }
    Ok(())
}

/// Goes through a call on the rows of a store, which stay, and puts what it reads at the end of the list. Returns its reply.
fn read_on(
    rows: &mut Vec<(Key, Value)>,
    procs: &Procs,
    call: &Call,
    store: &SerialStore,
    machine: &mut Machine,
    places: &mut RowPlaces,
) -> Result<Reply, NoMemory>
    requires { IsTrue (takes procs.now call.now) }
    ensures { IfOk result (HasRun (meaning procs.now call.now (database store.now)) rows.old.items rows.new.items (buffered machine.new)) }
{
    machine.restart(procs, call);
    let mut value = Value::Absent;
    'wants: loop {
        match machine.next() {
            Want::Read(key) => {
                store.read_noted(key, places, &mut value);
                put_row(rows, key, &value)?;
                machine.give_lent(&value);
            }
            Want::Write(_) => machine.granted(),
            Want::Finished(reply) => return Ok(reply),
        }
    }
}

/// The calls of a history that were executed so far: what each did, and the rows that they leave.
#[derive(Drop)]
struct SoFar {
    rows: Vec<(Key, Value)>,
    extents: Vec<Extent>,
    store: SerialStore,
}

/// The calls of a history, executed.
#[derive(Drop)]
pub struct Executed {
    /// What each did.
    pub done: AllDone,
    /// The rows that they leave.
    pub store: SerialStore,
}

/// Executes one more call.
fn go_on(
    procs: &Procs,
    call: &Call,
    all: &mut SoFar,
    machine: &mut Machine,
    places: &mut RowPlaces,
) -> Result<(), NoMemory>
    requires taken { IsTrue (takes procs.now call.now) }
    requires within { All (IsExtent all.old.rows.items) all.old.extents.items }
    ensures within { OnOk result (All (IsExtent all.new.rows.items) all.new.extents.items) }
    ensures done { OnOk result (map (done_in all.new.rows.items) all.new.extents.items ≡ map (done_in all.old.rows.items) all.old.extents.items ++ meaning procs.now call.now (database all.old.store) ∷ []) }
    ensures rows { OnOk result (database all.new.store ≡ written (meaning procs.now call.now (database all.old.store)).writes (database all.old.store)) }
{
    let from = all.rows.len();
    let reply = read_on(&mut all.rows, procs, call, &all.store, machine, places)?;
    let middle = all.rows.len();
    put_rows(&mut all.rows, machine.writes())?;
    let past = all.rows.len();
    all.extents.push(Extent {
        from,
        middle,
        past,
        reply,
    })?;
    all.store.write_near(machine.writes(), places)?;
    Ok(())
}

/// The place in which each call is laid.
pub fn blank_call() -> Call {
    Call {
        proc: 0,
        args: ArrayVec::new(),
    }
}

/// Executes the calls with these numbers, one after another from no rows.
pub fn execute(
    alloc: Global,
    procs: &Procs,
    calls: &Calls,
    order: &[u64],
) -> Result<Executed, NoMemory>
    requires there { All (IsNumberOf calls.now) order.now }
    requires taken { All (λ c. IsTrue (takes procs.now c)) calls.now }
    ensures done { IfOk result (λ all. all.done ≡ effects (acts_of procs.now calls.now order.now)) }
    ensures rows { IfOk result (λ all. database all.store ≡ rows_after procs.now calls.now order.now) }
{
    // Most calls read a row, or read one and write it. Room that is made once is not copied as a list grows.
    let mut all = SoFar {
        rows: Vec::with_capacity(alloc, order.len().saturating_mul(2))?,
        extents: Vec::with_capacity(alloc, order.len())?,
        store: SerialStore::new(alloc),
    };
    let mut machine = Machine::new();
    let mut places = RowPlaces::new(alloc);
    let mut call = blank_call();
    for i in 0..order.len() {
        calls.put_into((order[i] - 1) as usize, &mut call);
        go_on(procs, &call, &mut all, &mut machine, &mut places)?;
    }
    Ok(Executed {
        done: AllDone {
            rows: all.rows,
            extents: all.extents,
        },
        store: all.store,
    })
}

//! Rows that a worker reads as it starts a record, in the same visit to the lock. They are a guess: what the call then
//! wants and is not among them is read in a visit of its own.
use std::alloc::Global;
use tau_base::{Call, Key, Value};
use tau_model::{RowPlaces, SerialStore};
use tau_proc::{FIRST_DECLARED, Operand, Procs, Step};
use tau_record::Entry;
use tau_scan::Log;

/// Puts a row after the others. If memory is refused, it is not among them.
fn put_key(key: Key, rows: &mut Vec<(Key, Value)>) {
    let _ = rows.push((key, Value::Absent));
}

/// The row with the number that is this argument, from 1.
fn row_by(table: u16, args: &[Value], number: u8) -> Option<Key> {
    match args.get(usize::from(number).wrapping_sub(1)) {
        Some(Value::Int(row)) => Some(Key { table, row: *row }),
        _ => None,
    }
}

/// The row that a step reads, where an argument names it.
fn row_of(step: &Step, args: &[Value]) -> Option<Key> {
    match step {
        Step::Get {
            table,
            row: Operand::Argument(number),
            ..
        } => row_by(*table, args, *number),
        _ => None,
    }
}

/// Puts the rows that these steps read.
fn put_steps(steps: &[Step], args: &[Value], rows: &mut Vec<(Key, Value)>) {
    for step in steps {
        match row_of(step, args) {
            Some(key) => put_key(key, rows),
            None => {}
        }
    }
}

/// Puts the rows that a call reads, if it is to be executed outside the lock. Whether it is. A call of a built-in
/// procedure is not: it reads one row at most, and what it costs is no more than to read that ahead and compare it at the
/// finish.
fn put_call(procs: &Procs, call: &Call, rows: &mut Vec<(Key, Value)>) -> bool {
    if call.proc < FIRST_DECLARED {
        return false;
    }
    match procs
        .list()
        .get(usize::from(call.proc.wrapping_sub(FIRST_DECLARED)))
    {
        Some(proc) => {
            put_steps(proc.steps.as_slice(), call.args.as_slice(), rows);
            true
        }
        None => false,
    }
}

/// The same of a record, which has a call if it is a command record.
fn put_record(
    log: &Log,
    stream: u8,
    index: usize,
    place: &mut Call,
    rows: &mut Vec<(Key, Value)>,
) -> bool {
    if log.declarations.procs.list().is_empty() {
        return false;
    }
    let Some(records) = log.streams.as_slice().get(usize::from(stream)) else {
        return false;
    };
    let Some(placed) = records.as_slice().get(index) else {
        return false;
    };
    match &placed.entry {
        Entry::Command { call, .. } => {
            call.put_into(place);
            put_call(&log.declarations.procs, place, rows)
        }
        _ => false,
    }
}

/// Whether a record has a call that is to be executed outside the lock, and the rows that it reads by its arguments.
#[derive(Drop)]
pub struct Foreseen {
    /// The stream of the record.
    stream: u8,
    /// Its number among the records of its stream.
    index: usize,
    is_call: bool,
    /// The rows, each with the value that it had when it was read.
    rows: Vec<(Key, Value)>,
}

impl Foreseen {
    /// Those of no record. It takes no memory.
    pub fn new(alloc: Global) -> Foreseen {
        Foreseen {
            stream: 0,
            index: usize::MAX,
            is_call: false,
            rows: Vec::new(alloc),
        }
    }

    /// Whether the record has such a call.
    pub fn is_call(&self) -> bool {
        self.is_call
    }

    /// Those of this record, if they are not those already. A call is put into a place that is kept.
    pub fn see(&mut self, log: &Log, stream: u8, index: usize, place: &mut Call) {
        if self.stream == stream && self.index == index {
            return;
        }
        self.stream = stream;
        self.index = index;
        self.rows.clear();
        self.is_call = put_record(log, stream, index, place, &mut self.rows);
    }

    /// Reads these rows, each into the place that it has here.
    pub fn read(&mut self, store: &SerialStore, places: &mut RowPlaces) {
        for row in self.rows.iter_mut() {
            store.read_noted(row.0, places, &mut row.1);
        }
    }

    /// The rows with the values that were read.
    pub fn rows(&self) -> &[(Key, Value)] {
        self.rows.as_slice()
    }
}

/// The value of a row among those that were read.
pub fn found<'a>(ahead: &'a [(Key, Value)], key: Key) -> Option<&'a Value> {
    for (read, value) in ahead {
        if *read == key {
            return Some(value);
        }
    }
    None
}

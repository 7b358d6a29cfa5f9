//! The declared procedures.
ghost use Rattle.std.specs.Prelude.{◌≡◌, ◌<◌, [], ◌∷◌, ◌++◌, length, OnOk, OnErr};
ghost use Rattle.tau_proc.specs.Limits.{IsWellFormed, KeepsLimits};
ghost use Rattle.tau_proc.specs.Takes.{is_table, takes_put, takes_add, takes_row, takes};

use crate::proc::Proc;
use std::alloc::Global;
use std::marker::Model;
use tau_base::{Call, MAX_PROCS, NoMemory, Value};

/// The procedure number of the built-in `put TABLE ROW VALUE`.
pub const PUT: u16 = 0;

/// The procedure number of the built-in `add TABLE ROW NUMBER`.
pub const ADD: u16 = 1;

/// The procedure number of the built-in `get TABLE ROW`.
pub const GET: u16 = 2;

/// The procedure number of the built-in `del TABLE ROW`.
pub const DEL: u16 = 3;

/// The procedure number of the first declared procedure; the others follow in order of declaration.
pub const FIRST_DECLARED: u16 = 4;

/// The declared procedures, at most 256, each of them well formed.
#[derive(Debug, Drop)]
pub struct Procs {
    list: Vec<Proc>,
}

impl Model for Procs {
    ghost use Rattle.std.specs.Prelude.{List};
    ghost use Rattle.tau_proc.specs.declared.proc.Proc.{Proc};
    ghost use Rattle.tau_proc.specs.Limits.{KeepsLimits};

    ghost Value = { List Proc };

    ghost view = { λ p. p.list.items };

    ghost invariant = { λ p. KeepsLimits p.list.items };
}

impl Procs {
    /// No procedures.
    pub fn new(alloc: Global) -> Procs
        ensures { result ≡ [] }
    {
        Procs {
            list: Vec::new(alloc),
        }
    }

    /// Puts a procedure at the end. After lack of memory the list is unchanged.
    pub fn add(&mut self, proc: Proc) -> Result<(), NoMemory>
        requires room { length self.old < MAX_PROCS }
        requires well_formed { IsWellFormed proc }
        ensures ok { OnOk result (self.new ≡ self.old ++ proc ∷ []) }
        ensures err { OnErr result (self.new ≡ self.old) }
    {
        // Two arms in place of `?`: the invariant is found for each by itself.
        match self.list.push(proc) {
            Ok(()) => Ok(()),
            Err(_) => Err(NoMemory),
        }
    }

    /// The procedures in order.
    pub fn list(&self) -> &[Proc]
        ensures same { result.now ≡ self.now }
        ensures keeps { KeepsLimits self.now }
    {
        self.list.as_slice()
    }

    /// Whether the procedure of the call exists and has this number of arguments. The built-ins take a table from 0
    /// to 65,535, a row, and for `put` a value, for `add` a number.
    pub fn takes(&self, call: &Call) -> bool
        ensures { result ≡ takes self.now call.now }
    {
        let args = call.args.as_slice();
        match call.proc {
            PUT => takes_put(args),
            ADD => takes_add(args),
            GET => takes_row(args),
            DEL => takes_row(args),
            declared => match self
                .list
                .as_slice()
                .get(usize::from(declared - FIRST_DECLARED))
            {
                Some(proc) => usize::from(proc.args) == args.len(),
                None => false,
            },
        }
    }
}

/// Whether this is a table's number.
fn is_table(number: i64) -> bool
    ensures { result ≡ is_table number }
{
    0 <= number && number < 65_536
}

/// Whether these are a table, a row and a value.
fn takes_put(args: &[Value]) -> bool
    ensures { result ≡ takes_put args.now }
{
    match args {
        [Value::Int(table), Value::Int(_), _] => is_table(*table),
        _ => false,
    }
}

/// Whether these are a table, a row and a number.
fn takes_add(args: &[Value]) -> bool
    ensures { result ≡ takes_add args.now }
{
    match args {
        [Value::Int(table), Value::Int(_), Value::Int(_)] => is_table(*table),
        _ => false,
    }
}

/// Whether these are a table and a row.
fn takes_row(args: &[Value]) -> bool
    ensures { result ≡ takes_row args.now }
{
    match args {
        [Value::Int(table), Value::Int(_)] => is_table(*table),
        _ => false,
    }
}

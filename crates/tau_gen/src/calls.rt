//! Making the generated workload.
ghost use Rattle.std.specs.Prelude.{◌≡◌, ◌≤◌, codes, IfOk, IfErr};
ghost use Rattle.tau_gen.specs.Generated.{call_of, calls_of, generated};

use arrayvec::ArrayVec;
use std::alloc::Global;
use tau_base::{Call, Calls, Listed, MAX_CALLS, Name, NoMemory, Value};
use tau_proc::{ADD, Procs};
use tau_text::{Declarations, Workload};

fn acct() -> Name
    ensures { result ≡ codes "acct" }
{
    match Name::of("acct") {
        Some(name) => name,
        None => unreachable!(),
    }
}

/// Call `k` adds 1 to 10 to one of 1,000 rows.
fn call_of(start: u16, k: u32) -> Call
    requires start { start ≤ 999 }
    requires calls { k ≤ MAX_CALLS }
    ensures { result ≡ call_of start k }
{
    let row = (u32::from(start) + 37 * k) % 1000;
    let amount = 1 + k % 10;
    let mut args = ArrayVec::new();
    args.push(Value::Int(0));
    args.push(Value::Int(i64::from(row)));
    args.push(Value::Int(i64::from(amount)));
    Call { proc: ADD, args }
}

fn calls_of(alloc: Global, start: u16, count: u32) -> Result<Calls, NoMemory>
    requires start { start ≤ 999 }
    requires calls { count ≤ MAX_CALLS }
    ensures { IfOk result (λ calls. calls ≡ calls_of start count) }
{
    let mut calls = Calls::new(alloc);
    for i in 0..count {
        calls.push(&call_of(start, i + 1))?;
    }
    Ok(calls)
}

/// The workload of `calls` calls over the table `acct`, whose rows begin at `start`.
pub fn generate(alloc: Global, start: u16, calls: u32) -> Result<Workload, NoMemory>
    requires start { start ≤ 999 }
    requires calls { calls ≤ MAX_CALLS }
    ensures { IfOk result (λ w. w ≡ generated start calls) }
{
    let mut tables = Listed::new(alloc);
    tables.push(acct()).map_err(|_| NoMemory)?;
    let calls = calls_of(alloc, start, calls)?;
    Ok(Workload {
        declarations: Declarations {
            tables,
            procs: Procs::new(alloc),
        },
        calls,
        turns: None,
    })
}

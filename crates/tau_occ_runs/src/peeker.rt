//! What calls peek, and whether rows agree with it.
use arrayvec::ArrayVec;
use std::alloc::Global;
use std::process::Abort;
use std::test::*;
use tau_base::{Call, Key, Listed, Name, Value};
use tau_occ::{Peeker, Style};
use tau_proc::{ADD, Compare, FIRST_DECLARED, GET, Operand, PUT, Proc, Procs, Step};

/// What a call does, and what is then so. A key is its row of the first table, a value is a number or none.
#[derive(Clone, Copy)]
enum Row<'a> {
    /// A call begins: its procedure, and its arguments.
    Begins(u16, &'a [i64]),
    /// It wants this key, and peeks this value there.
    Peeks(i64, Option<i64>),
    /// It wants no further key.
    Finishes,
    /// Whether the key, whose row has this value, agrees with what was peeked.
    Agrees(i64, Option<i64>, bool),
    /// What was peeked is forgotten.
    Forgets,
}

fn key(row: i64) -> Key {
    Key { table: 0, row }
}

fn value_of(number: Option<i64>) -> Value {
    match number {
        Some(number) => Value::Int(number),
        None => Value::Absent,
    }
}

fn call_of(proc: u16, args: &[i64]) -> Call {
    let mut list = ArrayVec::new();
    for number in args {
        if !list.is_full() {
            list.push(Value::Int(*number));
        }
    }
    Call { proc, args: list }
}

fn begin(rt: &impl Abort, peeker: &mut Peeker, procs: &Procs, call: &Call) -> Result<(), Fail> {
    assert!(rt; procs.takes(call));
    peeker.begin(procs, call)?;
    assert!(rt; peeker.is_empty());
    Ok(())
}

fn peek(rt: &impl Abort, peeker: &mut Peeker, row: i64, value: Value) -> Result<(), Fail> {
    let Some(wanted) = peeker.wants() else {
        return Err(Fail::new("nothing is wanted"));
    };
    assert_eq!(rt; wanted, key(row));
    peeker.saw(value)?;
    assert!(rt; !peeker.is_empty());
    Ok(())
}

/// Whether the row agrees, which is said of its value and of the row that is lent.
fn agrees(rt: &impl Abort, peeker: &Peeker, row: i64, number: Option<i64>) -> bool {
    let agrees = peeker.agrees(key(row), value_of(number));
    let value = value_of(number);
    assert_eq!(rt; peeker.agrees_row(key(row), Some(&value)), agrees);
    if number.is_none() {
        assert_eq!(rt; peeker.agrees_row(key(row), None), agrees);
    }
    agrees
}

fn does(rt: &impl Abort, peeker: &mut Peeker, procs: &Procs, row: Row<'_>) -> Result<(), Fail> {
    match row {
        Row::Begins(proc, args) => begin(rt, peeker, procs, &call_of(proc, args))?,
        Row::Peeks(row, number) => peek(rt, peeker, row, value_of(number))?,
        Row::Finishes => assert!(rt; peeker.wants().is_none()),
        Row::Agrees(row, number, agreed) => {
            assert_eq!(rt; agrees(rt, peeker, row, number), agreed);
        }
        Row::Forgets => peeker.forget(),
    }
    Ok(())
}

/// Goes through the rows, with these procedures.
fn goes(rt: &impl Abort, alloc: Global, procs: &Procs, rows: &[Row<'_>]) -> Result<(), Fail> {
    let mut peeker = Peeker::new(alloc);
    for row in rows {
        does(rt, &mut peeker, procs, *row)?;
    }
    Ok(())
}

/// The first worker peeks no row, and the second one then puts 5 there: the row differs, and the first one peeks anew.
#[test]
fn add_beside_a_put(rt: HostRuntime) -> Result<(), Fail> {
    goes(
        &rt,
        rt.alloc(),
        &Procs::new(rt.alloc()),
        &[
            Row::Begins(ADD, &[0, 1, 2]),
            Row::Agrees(1, None, false),
            Row::Peeks(1, None),
            Row::Finishes,
            Row::Agrees(1, None, true),
            Row::Agrees(1, Some(5), false),
            Row::Begins(ADD, &[0, 1, 2]),
            Row::Agrees(1, None, false),
            Row::Peeks(1, Some(5)),
            Row::Finishes,
            Row::Agrees(1, Some(5), true),
            Row::Agrees(1, None, false),
        ],
    )
}

/// A put reads nothing, so it wants no key; a get wants its own.
#[test]
fn what_calls_want(rt: HostRuntime) -> Result<(), Fail> {
    goes(
        &rt,
        rt.alloc(),
        &Procs::new(rt.alloc()),
        &[
            Row::Begins(PUT, &[0, 1, 5]),
            Row::Finishes,
            Row::Agrees(1, Some(5), false),
            Row::Begins(GET, &[0, 7]),
            Row::Peeks(7, Some(1)),
            Row::Finishes,
            Row::Agrees(7, Some(1), true),
            Row::Agrees(8, Some(1), false),
            Row::Forgets,
            Row::Agrees(7, Some(1), false),
        ],
    )
}

fn get(into: u8, row: Operand) -> Step {
    Step::Get {
        into,
        table: 0,
        row,
    }
}

/// Reads the row that the argument names, then the row that this one names, then the first again, puts a row and reads it, and
/// goes on to row 9 only if the first one is below 5.
fn wanderer(rt: &impl Abort, alloc: Global) -> Result<Procs, Fail> {
    let Some(name) = Name::of("p") else {
        return Err(Fail::new("name"));
    };
    let steps = [
        get(0, Operand::Argument(1)),
        get(1, Operand::Register(0)),
        get(2, Operand::Argument(1)),
        Step::Put {
            table: 0,
            row: Operand::Int(8),
            value: Operand::Int(1),
        },
        get(3, Operand::Int(8)),
        Step::Need {
            left: Operand::Register(2),
            how: Compare::Less,
            right: Operand::Int(5),
        },
        get(4, Operand::Int(9)),
    ];
    let proc = Proc {
        name,
        args: 1,
        steps: Listed::of(steps.to_vec(alloc)?),
    };
    assert!(rt; proc.is_well_formed());
    let mut procs = Procs::new(alloc);
    procs.add(proc)?;
    Ok(procs)
}

/// A key is wanted once, a row that the call wrote itself is not, and what is wanted next hangs on what was seen.
#[test]
fn values_lead_a_call(rt: HostRuntime) -> Result<(), Fail> {
    let procs = wanderer(&rt, rt.alloc())?;
    goes(
        &rt,
        rt.alloc(),
        &procs,
        &[
            Row::Begins(FIRST_DECLARED, &[1]),
            Row::Peeks(1, Some(2)),
            Row::Peeks(2, None),
            Row::Peeks(9, Some(6)),
            Row::Finishes,
            Row::Agrees(1, Some(2), true),
            Row::Agrees(2, None, true),
            Row::Agrees(8, Some(1), false),
            Row::Agrees(9, Some(6), true),
            Row::Begins(FIRST_DECLARED, &[1]),
            Row::Peeks(1, Some(7)),
            Row::Peeks(7, Some(2)),
            Row::Finishes,
            Row::Agrees(1, Some(2), false),
            Row::Agrees(7, Some(2), true),
        ],
    )
}

/// A call that asks for a key gets it asked again, until it has its value.
#[test]
fn a_key_is_asked_until_it_is_seen(rt: HostRuntime) -> Result<(), Fail> {
    let procs = Procs::new(rt.alloc());
    let mut peeker = Peeker::new(rt.alloc());
    begin(&rt, &mut peeker, &procs, &call_of(GET, &[0, 7]))?;
    assert_eq!(rt; peeker.wants(), Some(key(7)));
    peek(&rt, &mut peeker, 7, Value::Int(3))?;
    assert_eq!(rt; peeker.wants(), None);
    Ok(())
}

#[test]
fn two_styles(rt: HostRuntime) {
    assert!(rt; Style::Locking != Style::Optimistic);
}

//! What calls do, against values worked out by hand.
use crate::support::call_of;
use crate::words::Word::{self, Absent, Argument, Number, Register, Text};
use crate::words::{Plain, Sum, TRANSFER, declared, key, proc_of, reply_of, rows_of, value_of};
use arrayvec::ArrayVec;
use std::alloc::Global;
use std::process::Abort;
use std::test::*;
use tau_base::{Call, Key, Text64, Value};
use tau_proc::{ADD, Compare, DEL, FIRST_DECLARED, GET, Machine, PUT, Procs, Reply, Want};

/// What a call did.
#[derive(Drop)]
struct Ran {
    reply: Reply,
    reads: Vec<Key>,
    writes: Vec<(Key, Value)>,
}

/// The value of a row, absent where the rows have none.
fn value_at(rows: &[(Key, Value)], key: Key) -> Value {
    for (held, value) in rows {
        if *held == key {
            return value.copied();
        }
    }
    Value::Absent
}

/// Runs a call over these rows, begun again once it was given a value. The keys that it asks to write must be those of its writes, in
/// order.
fn run(
    rt: &impl Abort,
    alloc: Global,
    procs: &Procs,
    call: &Call,
    rows: &[(Key, Value)],
) -> Result<Ran, Fail> {
    assert!(rt; procs.takes(call));
    let mut machine = Machine::start(procs, call);
    if let Want::Read(_) = machine.next() {
        machine.give(Value::Int(7));
    }
    machine.restart(procs, call);
    let mut reads = Vec::new(alloc);
    let mut granted = 0;
    loop {
        match machine.next() {
            Want::Read(key) => {
                reads.push(key)?;
                machine.give(value_at(rows, key));
            }
            Want::Write(key) => {
                assert_eq!(rt;
                    machine.writes().get(granted).map(|write| write.0),
                    Some(key)
                );
                machine.granted();
                granted += 1;
            }
            Want::Finished(reply) => {
                assert_eq!(rt; granted, machine.writes().len());
                let writes = machine.writes().to_vec(alloc)?;
                return Ok(Ran {
                    reply,
                    reads,
                    writes,
                });
            }
        }
    }
}

/// A call with these arguments over these rows of table 0, and what it is to do.
#[derive(Clone, Copy)]
struct Case<'a> {
    args: &'a [i64],
    rows: &'a [(i64, Word)],
    /// What it replies, or the step that refuses.
    reply: Result<Word, u16>,
    /// The rows that it reads, in this order.
    reads: &'a [i64],
    writes: &'a [(i64, Word)],
}

fn run_steps(
    rt: &impl Abort,
    alloc: Global,
    steps: &[Plain],
    args: &[i64],
    rows: &[(Key, Value)],
) -> Result<Ran, Fail> {
    let count = u8::try_from(args.len())?;
    let procs = declared(rt, alloc, "p", count, steps)?;
    run(rt, alloc, &procs, &call_of(FIRST_DECLARED, args), rows)
}

/// Whether these are rows of table 0, in this order.
fn are_rows(reads: &[Key], rows: &[i64]) -> bool {
    if reads.len() != rows.len() {
        return false;
    }
    for (read, row) in reads.iter().zip(rows.iter()) {
        if *read != key(*row) {
            return false;
        }
    }
    true
}

/// A call did what it was to do.
fn has_done(
    rt: &impl Abort,
    alloc: Global,
    name: &str,
    ran: &Ran,
    case: &Case<'_>,
) -> Result<(), Fail> {
    let writes = rows_of(rt, alloc, case.writes)?;
    assert!(rt;
        ran.reply == reply_of(rt, case.reply)
            && are_rows(ran.reads.as_slice(), case.reads)
            && ran.writes.as_slice() == writes.as_slice(),
        "{name}"
    );
    Ok(())
}

/// A procedure of these steps does what it is to do.
fn does(
    rt: &impl Abort,
    alloc: Global,
    name: &str,
    steps: &[Plain],
    case: &Case<'_>,
) -> Result<(), Fail> {
    let rows = rows_of(rt, alloc, case.rows)?;
    let ran = run_steps(rt, alloc, steps, case.args, rows.as_slice())?;
    has_done(rt, alloc, name, &ran, case)
}

/// A procedure that every system has does what it is to do.
fn built_in_does(
    rt: &impl Abort,
    alloc: Global,
    name: &str,
    proc: u16,
    case: &Case<'_>,
) -> Result<(), Fail> {
    let rows = rows_of(rt, alloc, case.rows)?;
    let procs = Procs::new(alloc);
    let ran = run(
        rt,
        alloc,
        &procs,
        &call_of(proc, case.args),
        rows.as_slice(),
    )?;
    has_done(rt, alloc, name, &ran, case)
}

/// After this step register 0 holds this, or the step refuses.
fn gives(rt: &impl Abort, alloc: Global, step: Plain, wanted: Option<Word>) -> Result<bool, Fail> {
    let steps = [step, Plain::Reply(Register(0))];
    let ran = run_steps(rt, alloc, &steps, &[], &[])?;
    let reply = match wanted {
        Some(word) => Ok(word),
        None => Err(1),
    };
    Ok(ran.reply == reply_of(rt, reply))
}

/// Texts of 32, 64 and 65 bytes.
const HALF: &str = "0123456789abcdef0123456789abcdef";

const WHOLE: &str = "0123456789abcdef0123456789abcdef0123456789abcdef0123456789abcdef";

const PAST: &str = "0123456789abcdef0123456789abcdef0123456789abcdef0123456789abcdefg";

#[test]
fn texts_have_at_most_64_bytes(rt: HostRuntime) {
    assert!(rt; Text64::of(PAST).is_none());
}

/// A step, and what register 0 holds after it, unless the step refuses.
static GIVES: [(Plain, Option<Word>); 53] = [
    // sums of numbers, at the ends of their range too
    (
        Plain::Sum(Sum::Add, 0, Number(1), Number(2)),
        Some(Number(3)),
    ),
    (
        Plain::Sum(Sum::Add, 0, Number(i64::MAX - 1), Number(1)),
        Some(Number(i64::MAX)),
    ),
    (Plain::Sum(Sum::Add, 0, Number(i64::MAX), Number(1)), None),
    (Plain::Sum(Sum::Add, 0, Number(i64::MIN), Number(-1)), None),
    (
        Plain::Sum(Sum::Sub, 0, Number(5), Number(7)),
        Some(Number(-2)),
    ),
    (
        Plain::Sum(Sum::Sub, 0, Number(i64::MIN), Number(0)),
        Some(Number(i64::MIN)),
    ),
    (Plain::Sum(Sum::Sub, 0, Number(i64::MIN), Number(1)), None),
    (Plain::Sum(Sum::Sub, 0, Number(0), Number(i64::MIN)), None),
    (
        Plain::Sum(Sum::Mul, 0, Number(-1), Number(i64::MAX)),
        Some(Number(-9_223_372_036_854_775_807)),
    ),
    (Plain::Sum(Sum::Mul, 0, Number(i64::MIN), Number(-1)), None),
    (
        Plain::Sum(Sum::Mul, 0, Number(3_037_000_499), Number(3_037_000_499)),
        Some(Number(9_223_372_030_926_249_001)),
    ),
    (
        Plain::Sum(Sum::Mul, 0, Number(3_037_000_500), Number(3_037_000_500)),
        None,
    ),
    (
        Plain::Sum(Sum::Min, 0, Number(2), Number(-3)),
        Some(Number(-3)),
    ),
    (
        Plain::Sum(Sum::Min, 0, Number(i64::MIN), Number(i64::MAX)),
        Some(Number(i64::MIN)),
    ),
    (
        Plain::Sum(Sum::Max, 0, Number(2), Number(-3)),
        Some(Number(2)),
    ),
    (
        Plain::Sum(Sum::Max, 0, Number(i64::MIN), Number(i64::MAX)),
        Some(Number(i64::MAX)),
    ),
    // sums of what is no number
    (Plain::Sum(Sum::Add, 0, Text("1"), Number(1)), None),
    (Plain::Sum(Sum::Add, 0, Number(1), Absent), None),
    (Plain::Sum(Sum::Sub, 0, Absent, Number(1)), None),
    (Plain::Sum(Sum::Sub, 0, Number(1), Text("1")), None),
    (Plain::Sum(Sum::Mul, 0, Text("2"), Number(2)), None),
    (Plain::Sum(Sum::Mul, 0, Number(0), Absent), None),
    (Plain::Sum(Sum::Min, 0, Number(1), Absent), None),
    (Plain::Sum(Sum::Max, 0, Text("a"), Text("b")), None),
    // joined texts have at most 64 bytes
    (
        Plain::Sum(Sum::Cat, 0, Text(HALF), Text(HALF)),
        Some(Text(WHOLE)),
    ),
    (Plain::Sum(Sum::Cat, 0, Text(""), Text("")), Some(Text(""))),
    (Plain::Sum(Sum::Cat, 0, Text(WHOLE), Text("g")), None),
    (Plain::Sum(Sum::Cat, 0, Text("a"), Number(1)), None),
    (Plain::Sum(Sum::Cat, 0, Absent, Text("a")), None),
    // a comparison that is needed goes on with no value in register 0, or refuses
    (
        Plain::Need(Number(1), Compare::Equal, Number(1)),
        Some(Absent),
    ),
    (Plain::Need(Number(1), Compare::Equal, Number(2)), None),
    (
        Plain::Need(Text("a"), Compare::Equal, Text("a")),
        Some(Absent),
    ),
    (Plain::Need(Text("a"), Compare::Equal, Absent), None),
    (Plain::Need(Absent, Compare::Equal, Absent), Some(Absent)),
    (
        Plain::Need(Number(1), Compare::NotEqual, Text("1")),
        Some(Absent),
    ),
    (Plain::Need(Number(1), Compare::NotEqual, Number(1)), None),
    (
        Plain::Need(Number(1), Compare::Less, Number(2)),
        Some(Absent),
    ),
    (Plain::Need(Number(2), Compare::Less, Number(2)), None),
    (Plain::Need(Text("a"), Compare::Less, Text("b")), None),
    (
        Plain::Need(Number(2), Compare::AtMost, Number(2)),
        Some(Absent),
    ),
    (Plain::Need(Number(3), Compare::AtMost, Number(2)), None),
    (Plain::Need(Absent, Compare::AtMost, Absent), None),
    (Plain::Need(Text("a"), Compare::AtMost, Text("a")), None),
    (Plain::Need(Text("b"), Compare::Greater, Text("a")), None),
    (Plain::Need(Text("a"), Compare::AtLeast, Text("a")), None),
    (Plain::Need(Number(1), Compare::AtLeast, Absent), None),
    (
        Plain::Need(Number(3), Compare::Greater, Number(2)),
        Some(Absent),
    ),
    (Plain::Need(Number(2), Compare::Greater, Number(2)), None),
    (
        Plain::Need(Number(2), Compare::AtLeast, Number(2)),
        Some(Absent),
    ),
    (Plain::Need(Number(1), Compare::AtLeast, Number(2)), None),
    // rows are named by numbers alone
    (Plain::Get(0, Text("a")), None),
    (Plain::Put(Absent, Number(1)), None),
    (Plain::Del(Text("a")), None),
];

#[test]
fn steps_give_values_or_refuse(rt: HostRuntime) -> Result<(), Fail> {
    for (row, (step, wanted)) in GIVES.iter().enumerate() {
        assert!(rt; gives(&rt, rt.alloc(), *step, *wanted)?, "row {row}");
    }
    Ok(())
}

/// What is called.
#[derive(Clone, Copy)]
enum Procedure {
    /// A procedure of these steps, which takes as many arguments as are given.
    Steps(&'static [Plain]),
    /// One that every system has.
    BuiltIn(u16),
}

/// Replies with 2 if both arguments are 1, else with 0; writes row 6 if the first one is, and row 9 always.
const SKIPS: &[Plain] = &[
    Plain::Reply(Number(0)),
    Plain::When(Argument(1), Compare::Equal, Number(1)),
    Plain::When(Argument(2), Compare::Equal, Number(1)),
    Plain::Reply(Number(2)),
    Plain::Done,
    Plain::Put(Number(6), Number(1)),
    Plain::Done,
    Plain::Put(Number(9), Number(5)),
];

/// In words what is shown, what is called, and what it is to do.
static CASES: [(&str, Procedure, Case<'static>); 18] = [
    (
        "when skips nothing",
        Procedure::Steps(SKIPS),
        Case {
            args: &[1, 1],
            rows: &[],
            reply: Ok(Number(2)),
            reads: &[],
            writes: &[(6, Number(1)), (9, Number(5))],
        },
    ),
    (
        "when skips to its own done",
        Procedure::Steps(SKIPS),
        Case {
            args: &[1, 0],
            rows: &[],
            reply: Ok(Number(0)),
            reads: &[],
            writes: &[(6, Number(1)), (9, Number(5))],
        },
    ),
    (
        "when skips over the done of another one",
        Procedure::Steps(SKIPS),
        Case {
            args: &[0, 1],
            rows: &[],
            reply: Ok(Number(0)),
            reads: &[],
            writes: &[(9, Number(5))],
        },
    ),
    (
        "when refuses what it cannot compare",
        Procedure::Steps(&[
            Plain::When(Text("a"), Compare::Less, Number(1)),
            Plain::Done,
        ]),
        Case {
            args: &[],
            rows: &[],
            reply: Err(1),
            reads: &[],
            writes: &[],
        },
    ),
    (
        "own writes are read and reads asked again",
        Procedure::Steps(&[
            Plain::Get(1, Number(1)),
            Plain::Get(2, Number(1)),
            Plain::Put(Number(1), Number(9)),
            Plain::Get(3, Number(1)),
            Plain::Sum(Sum::Add, 0, Register(2), Register(3)),
            Plain::Del(Number(1)),
            Plain::Get(4, Number(1)),
            Plain::Need(Register(4), Compare::Equal, Absent),
            Plain::Reply(Register(0)),
        ]),
        Case {
            args: &[],
            rows: &[(1, Number(7))],
            reply: Ok(Number(16)),
            reads: &[1, 1],
            writes: &[(1, Absent)],
        },
    ),
    (
        "a refusal keeps reads and no writes",
        Procedure::Steps(&[
            Plain::Get(0, Number(1)),
            Plain::Put(Number(1), Number(5)),
            Plain::Get(1, Number(2)),
            Plain::Need(Register(0), Compare::Equal, Register(1)),
        ]),
        Case {
            args: &[],
            rows: &[(1, Number(7))],
            reply: Err(4),
            reads: &[1, 2],
            writes: &[],
        },
    ),
    (
        "an absent value is written",
        Procedure::Steps(&[Plain::Put(Number(5), Absent)]),
        Case {
            args: &[],
            rows: &[],
            reply: Ok(Absent),
            reads: &[],
            writes: &[(5, Absent)],
        },
    ),
    (
        "put writes one row",
        Procedure::BuiltIn(PUT),
        Case {
            args: &[0, 5, 2],
            rows: &[(5, Number(7))],
            reply: Ok(Absent),
            reads: &[],
            writes: &[(5, Number(2))],
        },
    ),
    (
        "del writes one row",
        Procedure::BuiltIn(DEL),
        Case {
            args: &[0, 5],
            rows: &[(5, Number(7))],
            reply: Ok(Absent),
            reads: &[],
            writes: &[(5, Absent)],
        },
    ),
    (
        "add reads one row and writes it",
        Procedure::BuiltIn(ADD),
        Case {
            args: &[0, 5, 2],
            rows: &[(5, Number(7))],
            reply: Ok(Number(9)),
            reads: &[5],
            writes: &[(5, Number(9))],
        },
    ),
    (
        "get reads one row",
        Procedure::BuiltIn(GET),
        Case {
            args: &[0, 5],
            rows: &[(5, Number(7))],
            reply: Ok(Number(7)),
            reads: &[5],
            writes: &[],
        },
    ),
    (
        "add to no value",
        Procedure::BuiltIn(ADD),
        Case {
            args: &[0, 5, 2],
            rows: &[(5, Absent)],
            reply: Ok(Number(2)),
            reads: &[5],
            writes: &[(5, Number(2))],
        },
    ),
    (
        "add up to the last number",
        Procedure::BuiltIn(ADD),
        Case {
            args: &[0, 5, 2],
            rows: &[(5, Number(i64::MAX - 2))],
            reply: Ok(Number(i64::MAX)),
            reads: &[5],
            writes: &[(5, Number(i64::MAX))],
        },
    ),
    (
        "add past the last number",
        Procedure::BuiltIn(ADD),
        Case {
            args: &[0, 5, 2],
            rows: &[(5, Number(i64::MAX - 1))],
            reply: Err(1),
            reads: &[5],
            writes: &[],
        },
    ),
    (
        "add past the first number",
        Procedure::BuiltIn(ADD),
        Case {
            args: &[0, 5, -1],
            rows: &[(5, Number(i64::MIN))],
            reply: Err(1),
            reads: &[5],
            writes: &[],
        },
    ),
    (
        "add to a text",
        Procedure::BuiltIn(ADD),
        Case {
            args: &[0, 5, 2],
            rows: &[(5, Text("7"))],
            reply: Err(1),
            reads: &[5],
            writes: &[],
        },
    ),
    (
        "a transfer moves",
        Procedure::Steps(TRANSFER),
        Case {
            args: &[1, 2, 30],
            rows: &[(1, Number(100)), (2, Number(50))],
            reply: Ok(Number(70)),
            reads: &[1, 2],
            writes: &[(1, Number(70)), (2, Number(80))],
        },
    ),
    (
        "a transfer is refused",
        Procedure::Steps(TRANSFER),
        Case {
            args: &[1, 2, 80],
            rows: &[(1, Number(70)), (2, Number(80))],
            reply: Err(2),
            reads: &[1],
            writes: &[],
        },
    ),
];

/// What is called does what it is to do.
fn does_as_stated(
    rt: &impl Abort,
    alloc: Global,
    name: &str,
    procedure: Procedure,
    case: &Case<'_>,
) -> Result<(), Fail> {
    match procedure {
        Procedure::Steps(steps) => does(rt, alloc, name, steps, case),
        Procedure::BuiltIn(proc) => built_in_does(rt, alloc, name, proc, case),
    }
}

#[test]
fn procedures_do_as_stated(rt: HostRuntime) -> Result<(), Fail> {
    for (name, procedure, case) in &CASES {
        does_as_stated(&rt, rt.alloc(), name, *procedure, case)?;
    }
    Ok(())
}

/// These rows, and steps that put a number into each of them from the last one to the first.
fn falling(alloc: Global) -> Result<(Vec<Plain>, Vec<(i64, Word)>), Fail> {
    let mut steps = Vec::new(alloc);
    let mut rows = Vec::new(alloc);
    for (row, last) in (0..64i64).zip((0..64i64).rev()) {
        steps.push(Plain::Put(Number(last), Number(last)))?;
        rows.push((row, Number(row)))?;
    }
    Ok((steps, rows))
}

#[test]
fn sixty_four_writes_ascend(rt: HostRuntime) -> Result<(), Fail> {
    let (steps, rows) = falling(rt.alloc())?;
    let case = Case {
        args: &[],
        rows: &[],
        reply: Ok(Absent),
        reads: &[],
        writes: rows.as_slice(),
    };
    does(&rt, rt.alloc(), "64 writes", steps.as_slice(), &case)
}

/// Whether a call with these arguments can be executed.
fn takes(rt: &impl Abort, procs: &Procs, proc: u16, args: &[Word]) -> bool {
    let mut list = ArrayVec::new();
    for word in args {
        if !list.is_full() {
            list.push(value_of(rt, *word));
        }
    }
    procs.takes(&Call { proc, args: list })
}

/// A procedure, arguments, and whether a call of it with these can be executed.
static TAKEN: [(u16, &[Word], bool); 13] = [
    (PUT, &[Number(65_535), Number(1), Absent], true),
    (PUT, &[Number(65_536), Number(1), Absent], false),
    (PUT, &[Number(-1), Number(1), Absent], false),
    (PUT, &[Number(0), Number(1)], false),
    (ADD, &[Number(0), Number(1), Number(2)], true),
    (ADD, &[Number(0), Number(1), Absent], false),
    (GET, &[Number(0), Number(1)], true),
    (GET, &[Number(0), Absent], false),
    (DEL, &[Number(0), Number(1)], true),
    (DEL, &[Number(0)], false),
    (FIRST_DECLARED, &[Absent], true),
    (FIRST_DECLARED, &[], false),
    (FIRST_DECLARED + 1, &[Absent], false),
];

#[test]
fn calls_have_their_arguments(rt: HostRuntime) -> Result<(), Fail> {
    let procs = declared(&rt, rt.alloc(), "one", 1, &[Plain::Reply(Argument(1))])?;
    for (i, (proc, args, wanted)) in TAKEN.iter().enumerate() {
        assert!(rt; takes(&rt, &procs, *proc, args) == *wanted, "row {i}");
    }
    Ok(())
}

/// A call of a built-in procedure wants to read this row first, which is put where something else stood.
fn wants_row(rt: &impl Abort, alloc: Global, call: &Call, row: Key) {
    let procs = Procs::new(alloc);
    assert!(rt; procs.takes(call));
    let machine = Machine::start(&procs, call);
    let mut want = Want::Finished(Reply::Refused(1));
    machine.put_next(&mut want);
    match want {
        Want::Read(key) => assert_eq!(rt; key, row),
        _ => assert!(rt; false),
    }
}

#[test]
fn what_is_wanted_is_put_in_its_place(rt: HostRuntime) {
    let call = call_of(GET, &[0, 3]);
    wants_row(&rt, rt.alloc(), &call, key(3));
}

const OPEN: Plain = Plain::When(Number(1), Compare::Equal, Number(1));

const REPLY: Plain = Plain::Reply(Number(1));

/// Steps of a procedure of two arguments, and whether it is well formed.
static FORMED: [(&[Plain], bool); 8] = [
    (&[Plain::Get(15, Argument(2)), REPLY], true),
    (&[Plain::Get(16, Number(1)), REPLY], false),
    (&[Plain::Get(0, Register(16)), REPLY], false),
    (&[Plain::Get(0, Argument(3)), REPLY], false),
    (&[Plain::Get(0, Argument(0)), REPLY], false),
    (&[OPEN, Plain::Done], true),
    (&[Plain::Done, OPEN], false),
    (&[OPEN, OPEN], false),
];

#[test]
fn only_closed_steps_within_the_limits_are_well_formed(rt: HostRuntime) -> Result<(), Fail> {
    for (i, (steps, wanted)) in FORMED.iter().enumerate() {
        let proc = proc_of(&rt, rt.alloc(), "p", 2, steps)?;
        assert!(rt; proc.is_well_formed() == *wanted, "row {i}");
    }
    Ok(())
}

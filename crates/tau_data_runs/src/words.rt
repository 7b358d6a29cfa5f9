//! Values, steps and procedures in plain words, which own nothing.
use crate::support::text_of;
use Word::{Absent, Argument, Number, Register, Text};
use std::alloc::Global;
use std::process::Abort;
use std::test::*;
use tau_base::{Key, Listed, Name, Value};
use tau_proc::{Compare, Operand, Proc, Procs, Reply, Step};

/// A row of table 0.
pub(crate) fn key(row: i64) -> Key {
    Key { table: 0, row }
}

/// An operand or a value.
#[derive(Clone, Copy)]
pub(crate) enum Word {
    Number(i64),
    Text(&'static str),
    Absent,
    /// A register, from 0, and an argument, from 1.
    Register(u8),
    Argument(u8),
}

fn operand(rt: &impl Abort, word: Word) -> Operand {
    match word {
        Number(number) => Operand::Int(number),
        Text(text) => Operand::Text(text_of(rt, text)),
        Absent => Operand::Absent,
        Register(register) => Operand::Register(register),
        Argument(argument) => Operand::Argument(argument),
    }
}

pub(crate) fn value_of(rt: &impl Abort, word: Word) -> Value {
    match word {
        Number(number) => Value::Int(number),
        Text(text) => Value::Text(text_of(rt, text)),
        _ => Value::Absent,
    }
}

/// Which step two operands make.
#[derive(Clone, Copy)]
pub(crate) enum Sum {
    Add,
    Sub,
    Mul,
    Min,
    Max,
    Cat,
}

/// A step; rows are those of table 0.
#[derive(Clone, Copy)]
pub(crate) enum Plain {
    /// The register becomes this of two operands.
    Sum(Sum, u8, Word, Word),
    Need(Word, Compare, Word),
    When(Word, Compare, Word),
    Done,
    /// The register becomes the row's value.
    Get(u8, Word),
    Put(Word, Word),
    Del(Word),
    Reply(Word),
}

fn sum_of(sum: Sum, into: u8, left: Operand, right: Operand) -> Step {
    match sum {
        Sum::Add => Step::Add { into, left, right },
        Sum::Sub => Step::Sub { into, left, right },
        Sum::Mul => Step::Mul { into, left, right },
        Sum::Min => Step::Min { into, left, right },
        Sum::Max => Step::Max { into, left, right },
        Sum::Cat => Step::Cat { into, left, right },
    }
}

fn need(rt: &impl Abort, left: Word, how: Compare, right: Word) -> Step {
    Step::Need {
        left: operand(rt, left),
        how,
        right: operand(rt, right),
    }
}

fn when(rt: &impl Abort, left: Word, how: Compare, right: Word) -> Step {
    Step::When {
        left: operand(rt, left),
        how,
        right: operand(rt, right),
    }
}

fn get(rt: &impl Abort, into: u8, row: Word) -> Step {
    Step::Get {
        into,
        table: 0,
        row: operand(rt, row),
    }
}

fn put(rt: &impl Abort, row: Word, value: Word) -> Step {
    Step::Put {
        table: 0,
        row: operand(rt, row),
        value: operand(rt, value),
    }
}

fn del(rt: &impl Abort, row: Word) -> Step {
    Step::Del {
        table: 0,
        row: operand(rt, row),
    }
}

fn step_of(rt: &impl Abort, step: Plain) -> Step {
    match step {
        Plain::Sum(sum, into, left, right) => {
            sum_of(sum, into, operand(rt, left), operand(rt, right))
        }
        Plain::Need(left, how, right) => need(rt, left, how, right),
        Plain::When(left, how, right) => when(rt, left, how, right),
        Plain::Done => Step::Done,
        Plain::Get(into, row) => get(rt, into, row),
        Plain::Put(row, value) => put(rt, row, value),
        Plain::Del(row) => del(rt, row),
        Plain::Reply(word) => Step::Reply(operand(rt, word)),
    }
}

fn steps_of(rt: &impl Abort, alloc: Global, steps: &[Plain]) -> Result<Vec<Step>, Fail> {
    let mut list = Vec::new(alloc);
    for step in steps {
        list.push(step_of(rt, *step))?;
    }
    Ok(list)
}

/// These rows of table 0.
pub(crate) fn rows_of(
    rt: &impl Abort,
    alloc: Global,
    rows: &[(i64, Word)],
) -> Result<Vec<(Key, Value)>, Fail> {
    let mut list = Vec::new(alloc);
    for (row, word) in rows {
        list.push((key(*row), value_of(rt, *word)))?;
    }
    Ok(list)
}

pub(crate) fn proc_of(
    rt: &impl Abort,
    alloc: Global,
    name: &str,
    args: u8,
    steps: &[Plain],
) -> Result<Proc, Fail> {
    let steps = steps_of(rt, alloc, steps)?;
    Ok(Proc {
        name: Name::of(name).expect(rt, "it is short"),
        args,
        steps: Listed::of(steps),
    })
}

/// The procedures with this declared one.
pub(crate) fn declared(
    rt: &impl Abort,
    alloc: Global,
    name: &str,
    args: u8,
    steps: &[Plain],
) -> Result<Procs, Fail> {
    let proc = proc_of(rt, alloc, name, args, steps)?;
    assert!(rt; proc.is_well_formed());
    let mut procs = Procs::new(alloc);
    procs.add(proc)?;
    assert_eq!(rt; procs.list().len(), 1);
    Ok(procs)
}

/// This reply, or the refusal of this step.
pub(crate) fn reply_of(rt: &impl Abort, reply: Result<Word, u16>) -> Reply {
    match reply {
        Ok(word) => Reply::Ok(value_of(rt, word)),
        Err(step) => Reply::Refused(step),
    }
}

/// Moves an amount from a row to another, where the first has enough: a procedure of both rows and the amount.
pub(crate) const TRANSFER: &[Plain] = &[
    Plain::Get(0, Argument(1)),
    Plain::Need(Register(0), Compare::AtLeast, Argument(3)),
    Plain::Sum(Sum::Sub, 0, Register(0), Argument(3)),
    Plain::Get(1, Argument(2)),
    Plain::Sum(Sum::Add, 1, Register(1), Argument(3)),
    Plain::Put(Argument(1), Register(0)),
    Plain::Put(Argument(2), Register(1)),
    Plain::Reply(Register(0)),
];

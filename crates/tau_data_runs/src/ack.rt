//! Calls that wait for what is persisted.
use crate::support::vector;
use std::process::Abort;
use tau_ack::{Pending, Waiting};

/// What is done with waiting calls, and what is then so. A call is its number and its vector.
#[derive(Clone, Copy)]
enum Row<'a> {
    /// A call is put last.
    Puts(u64, &'a [u64]),
    /// The same, with a vector that is lent.
    PutsLent(u64, &'a [u64]),
    /// Whether no call waits.
    IsEmpty(bool),
    /// What is persisted covers this call first, and it is taken.
    Takes(&'a [u64], u64, &'a [u64]),
    /// What is persisted covers no call.
    TakesNone(&'a [u64]),
    /// Whether what is persisted covers a call, and what is in the place for it then.
    TakesInto(&'a [u64], bool, u64, &'a [u64]),
}

fn put(rt: &impl Abort, pending: &mut Pending, number: u64, parts: &[u64]) {
    assert_eq!(rt; pending.reserve(), Ok(()));
    pending.put(number, vector(rt, parts));
}

fn put_lent(rt: &impl Abort, pending: &mut Pending, number: u64, parts: &[u64]) {
    assert_eq!(rt; pending.reserve(), Ok(()));
    pending.put_from(number, &vector(rt, parts));
}

fn call(rt: &impl Abort, number: u64, parts: &[u64]) -> Waiting {
    Waiting {
        number,
        lv: vector(rt, parts),
    }
}

fn takes(rt: &impl Abort, pending: &mut Pending, plv: &[u64], wanted: Option<Waiting>) {
    assert_eq!(rt; pending.take_covered(&vector(rt, plv)), wanted);
}

fn takes_into(
    rt: &impl Abort,
    pending: &mut Pending,
    place: &mut Waiting,
    plv: &[u64],
    is_taken: bool,
    wanted: &Waiting,
) {
    assert_eq!(rt;
        pending.take_covered_into(&vector(rt, plv), place),
        is_taken
    );
    assert!(rt; *place == *wanted);
}

fn goes(rt: &impl Abort, pending: &mut Pending, place: &mut Waiting, row: &Row<'_>) {
    match row {
        Row::Puts(number, parts) => put(rt, pending, *number, parts),
        Row::PutsLent(number, parts) => put_lent(rt, pending, *number, parts),
        Row::IsEmpty(is_empty) => assert!(rt; pending.is_empty() == *is_empty),
        Row::Takes(plv, number, parts) => takes(rt, pending, plv, Some(call(rt, *number, parts))),
        Row::TakesNone(plv) => takes(rt, pending, plv, None),
        Row::TakesInto(plv, is_taken, number, parts) => {
            takes_into(
                rt,
                pending,
                place,
                plv,
                *is_taken,
                &call(rt, *number, parts),
            );
        }
    }
}

/// Calls with the vectors (53,0), (53,61) and (0,40): what is persisted decides, and not the order of the calls.
static COVERED: [Row<'static>; 12] = [
    Row::IsEmpty(true),
    Row::Puts(1, &[53, 0]),
    Row::Puts(2, &[53, 61]),
    Row::Puts(3, &[0, 40]),
    Row::IsEmpty(false),
    Row::TakesNone(&[0, 0]),
    Row::Takes(&[53, 60], 1, &[53, 0]),
    Row::Takes(&[53, 60], 3, &[0, 40]),
    Row::TakesNone(&[53, 60]),
    Row::Takes(&[53, 61], 2, &[53, 61]),
    Row::IsEmpty(true),
    Row::TakesNone(&[53, 61]),
];

/// Calls with the same vectors, lent, each taken into its place.
static COVERED_INTO: [Row<'static>; 6] = [
    Row::PutsLent(1, &[53, 61]),
    Row::PutsLent(2, &[53, 0]),
    Row::TakesInto(&[53, 0], true, 2, &[53, 0]),
    Row::TakesInto(&[53, 0], false, 2, &[53, 0]),
    Row::TakesInto(&[53, 61], true, 1, &[53, 61]),
    Row::IsEmpty(true),
];

#[test]
fn covered_calls_are_taken_in_order(rt: HostRuntime) {
    for rows in [COVERED.as_slice(), COVERED_INTO.as_slice()] {
        let mut pending = Pending::new(rt.alloc());
        let mut place = call(&rt, 0, &[0, 0]);
        for row in rows {
            goes(&rt, &mut pending, &mut place, row);
        }
    }
}

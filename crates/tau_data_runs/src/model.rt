//! The store and the reported history, against values worked out by hand.
use crate::support::{call_of, vector};
use crate::words::Word::{self, Absent, Number, Text};
use crate::words::{TRANSFER, declared, key, reply_of, rows_of, value_of};
use std::alloc::Global;
use std::process::Abort;
use std::test::*;
use tau_base::{Call, Lv, MAX_LSN, Value};
use tau_model::{Committed, CommittedList, SerialStore, Spot, are_within, reported};
use tau_proc::{FIRST_DECLARED, GET, PUT, Procs, Reply};

/// What happens to a store; rows are those of table 0.
#[derive(Clone, Copy)]
enum Happens<'a> {
    /// A call of this procedure replies this, or this step refuses it.
    Calls(u16, &'a [i64], Result<Word, u16>),
    /// These rows are written.
    Writes(&'a [(i64, Word)]),
    /// A row has this value, as a value and as it is lent.
    Holds(i64, Word),
    /// All rows are these.
    HasRows(&'a [(i64, Word)]),
}

fn executes(
    rt: &impl Abort,
    store: &mut SerialStore,
    procs: &Procs,
    call: &Call,
    wanted: Result<Word, u16>,
) -> Result<(), Fail> {
    assert!(rt; procs.takes(call));
    let reply = store.execute(procs, call)?;
    assert!(rt; reply == reply_of(rt, wanted));
    Ok(())
}

fn writes(
    rt: &impl Abort,
    alloc: Global,
    store: &mut SerialStore,
    rows: &[(i64, Word)],
) -> Result<(), Fail> {
    let rows = rows_of(rt, alloc, rows)?;
    Ok(store.write(rows.as_slice())?)
}

fn holds(rt: &impl Abort, store: &SerialStore, row: i64, word: Word) -> Result<(), Fail> {
    let value = value_of(rt, word);
    assert!(rt;
        store.value(key(row)) == value
            && store.value_ref(key(row)).unwrap_or(&Value::Absent) == &value
    );
    Ok(())
}

fn has_rows(
    rt: &impl Abort,
    alloc: Global,
    store: &SerialStore,
    rows: &[(i64, Word)],
) -> Result<(), Fail> {
    let rows = rows_of(rt, alloc, rows)?;
    let tables = store.tables(alloc)?;
    assert!(rt; tables.rows() == rows.as_slice());
    assert!(rt; tables.into_rows().as_slice() == rows.as_slice());
    Ok(())
}

fn goes_on(
    rt: &impl Abort,
    alloc: Global,
    store: &mut SerialStore,
    procs: &Procs,
    happens: &Happens<'_>,
) -> Result<(), Fail> {
    match happens {
        Happens::Calls(proc, args, reply) => {
            executes(rt, store, procs, &call_of(*proc, args), *reply)
        }
        Happens::Writes(rows) => writes(rt, alloc, store, rows),
        Happens::Holds(row, word) => holds(rt, store, *row, *word),
        Happens::HasRows(rows) => has_rows(rt, alloc, store, rows),
    }
}

/// All of this happens to an empty store whose procedure moves amounts.
fn goes(rt: &impl Abort, alloc: Global, all: &[Happens<'_>]) -> Result<(), Fail> {
    let procs = declared(rt, alloc, "move", 3, TRANSFER)?;
    let mut store = SerialStore::new(alloc);
    for happens in all {
        goes_on(rt, alloc, &mut store, &procs, happens)?;
    }
    Ok(())
}

/// What happens to two stores, one thing after another.
static STORES: [&[Happens<'static>]; 2] = [
    // transfers move what is there
    &[
        Happens::Calls(PUT, &[0, 1, 100], Ok(Absent)),
        Happens::Calls(PUT, &[0, 2, 50], Ok(Absent)),
        Happens::Calls(FIRST_DECLARED, &[1, 2, 30], Ok(Number(70))),
        Happens::Calls(FIRST_DECLARED, &[1, 2, 80], Err(2)),
        Happens::Calls(GET, &[0, 2], Ok(Number(80))),
        Happens::Holds(1, Number(70)),
        Happens::Holds(2, Number(80)),
        Happens::Holds(3, Absent),
        Happens::HasRows(&[(1, Number(70)), (2, Number(80))]),
    ],
    // rows are written and removed
    &[
        Happens::Writes(&[(1, Number(5)), (2, Number(6))]),
        Happens::Writes(&[(1, Absent), (2, Number(7))]),
        Happens::Holds(1, Absent),
        Happens::Holds(2, Number(7)),
        Happens::HasRows(&[(2, Number(7))]),
    ],
];

#[test]
fn stores_hold_what_is_written(rt: HostRuntime) -> Result<(), Fail> {
    for all in &STORES {
        goes(&rt, rt.alloc(), all)?;
    }
    Ok(())
}

/// The stream, start and end of a record above no anchor, where a call has one.
fn spot_of(place: Option<(u8, u64, u64)>) -> Option<Spot> {
    match place {
        Some((stream, start, past)) => Some(Spot {
            stream,
            start,
            past,
            anchor: 0,
        }),
        None => None,
    }
}

/// A committed call, with the stream, start and end of its record where it has one.
fn committed(number: u64, dep: Lv, spot: Option<(u8, u64, u64)>) -> Committed {
    Committed {
        number,
        reply: Reply::Ok(Value::Absent),
        dep,
        lv: dep,
        spot: spot_of(spot),
    }
}

fn keep(list: &mut CommittedList, call: &Committed) -> Result<(), Fail> {
    list.push(call.number, &call.reply, &call.dep, call.spot)?;
    Ok(())
}

/// The numbers of the calls as they are reported.
fn order_of(
    rt: &impl Abort,
    alloc: Global,
    ends: &Lv,
    kept: &CommittedList,
) -> Result<Vec<u64>, Fail> {
    assert!(rt; are_within(ends, kept));
    Ok(reported(alloc, ends, kept)?)
}

/// Where the record of the second call of the next test stands.
const SPOT: Spot = Spot {
    stream: 1,
    start: 13,
    past: 61,
    anchor: 7,
};

/// A call: its number, what it replied or the step that refused it, the vector that it depends on, and where its record
/// stands, if it has one.
type Row<'a> = (u64, Result<Word, u16>, &'a [u64], Option<Spot>);

fn put_last(rt: &impl Abort, list: &mut CommittedList, rows: &[Row<'_>]) -> Result<(), Fail> {
    for (number, reply, dep, spot) in rows {
        list.push(*number, &reply_of(rt, *reply), &vector(rt, dep), *spot)?;
    }
    Ok(())
}

/// These calls, the ones after the first from another list.
fn of_two_lists(
    rt: &impl Abort,
    alloc: Global,
    first: &[Row<'_>],
    second: &[Row<'_>],
) -> Result<CommittedList, Fail> {
    let mut list = CommittedList::new(alloc);
    put_last(rt, &mut list, first)?;
    let mut others = CommittedList::new(alloc);
    put_last(rt, &mut others, second)?;
    assert!(rt; others.len() == 2);
    list.reserve(2)?;
    list.append(others);
    assert!(rt; list.len() == 3);
    Ok(list)
}

/// The call at this index is this one.
fn is_kept(rt: &impl Abort, list: &CommittedList, i: usize, row: &Row<'_>) {
    assert!(rt; i < list.len());
    let call = list.at(i);
    assert!(rt; call.reply() == reply_of(rt, row.1) && call.dep() == row.2 && call.spot() == row.3);
}

/// A position of the vector of the call at this index, with its own record.
fn position(rt: &impl Abort, list: &CommittedList, i: usize, j: usize) -> u64 {
    assert!(rt; i < list.len());
    list.at(i).position(j)
}

fn is_covered(rt: &impl Abort, list: &CommittedList, i: usize, parts: &[u64]) -> bool {
    assert!(rt; i < list.len());
    list.at(i).is_covered(&vector(rt, parts))
}

/// Replies of each kind.
static KEPT: [Row<'static>; 3] = [
    (1, Ok(Text("one")), &[53, 0], None),
    (2, Err(3), &[53, 9], Some(SPOT)),
    (3, Ok(Text("three")), &[1], None),
];

// The first call is of one list, the others are of another. The vector of the second call with its own record is (53,61).
#[test]
fn committed_calls_are_kept_short(rt: HostRuntime) -> Result<(), Fail> {
    let list = of_two_lists(&rt, rt.alloc(), &KEPT[..1], &KEPT[1..])?;
    for (i, row) in KEPT.iter().enumerate() {
        is_kept(&rt, &list, i, row);
    }
    assert!(rt; position(&rt, &list, 1, 1) == 61 && position(&rt, &list, 0, 0) == 53);
    assert!(rt; is_covered(&rt, &list, 1, &[53, 61]) && !is_covered(&rt, &list, 1, &[53, 60]));
    Ok(())
}

/// A call's number, what it depends on, and the stream, start and end of its record where it has one.
type Plain<'a> = (u64, &'a [u64], Option<(u8, u64, u64)>);

fn list_of(rt: &impl Abort, alloc: Global, calls: &[Plain<'_>]) -> Result<CommittedList, Fail> {
    let mut kept = CommittedList::new(alloc);
    for (number, dep, spot) in calls {
        let reply = Reply::Ok(Value::Absent);
        kept.push(*number, &reply, &vector(rt, dep), spot_of(*spot))?;
    }
    Ok(kept)
}

/// Where the streams end, calls, and the order in which they are reported.
static LISTED: [(&[u64], &[Plain<'static>], &[u64]); 5] = [
    // calls are listed behind what they depend on
    (
        &[53, 61],
        &[
            (2, &[53, 0], Some((1, 13, 61))),
            (1, &[0, 0], Some((0, 13, 53))),
        ],
        &[1, 2],
    ),
    (
        &[61, 53],
        &[
            (1, &[0, 53], Some((0, 13, 61))),
            (2, &[0, 0], Some((1, 13, 53))),
        ],
        &[2, 1],
    ),
    // covered read-only calls are listed before records
    (
        &[53, 13],
        &[(2, &[53, 0], None), (1, &[0, 0], Some((0, 13, 53)))],
        &[1, 2],
    ),
    (
        &[53],
        &[
            (1, &[0], Some((0, 13, 53))),
            (3, &[13], None),
            (2, &[0], None),
        ],
        &[2, 3, 1],
    ),
    // raised vectors wait for other streams
    (
        &[82, 77, 53],
        &[
            (1, &[13, 13, 53], Some((0, 42, 82))),
            (2, &[82, 13, 53], Some((1, 13, 77))),
            (3, &[0, 0, 0], Some((2, 13, 53))),
        ],
        &[3, 1, 2],
    ),
];

#[test]
fn calls_are_listed_in_their_order(rt: HostRuntime) -> Result<(), Fail> {
    for (row, (ends, calls, order)) in LISTED.iter().enumerate() {
        let kept = list_of(&rt, rt.alloc(), calls)?;
        let found = order_of(&rt, rt.alloc(), &vector(&rt, ends), &kept)?;
        assert!(rt; found.as_slice() == *order, "row {row}");
    }
    Ok(())
}

/// Calls of which each depends on the one before it, over 8 streams; each tenth is read-only.
fn chain(rt: &impl Abort, alloc: Global, count: u64) -> Result<(Vec<Committed>, Lv), Fail> {
    let mut ends = vector(rt, &[13; 8]);
    let mut list = Vec::new(alloc);
    for number in 1..=count {
        if number % 10 == 0 {
            list.push(committed(number, ends, None))?;
            continue;
        }
        let stream = (number % 8) as usize;
        assert!(rt; stream < ends.width());
        let start = ends.get(stream);
        let past = start + 50;
        assert!(rt; past < MAX_LSN);
        list.push(committed(number, ends, Some((stream as u8, start, past))))?;
        ends.set(stream, past);
    }
    list.reverse();
    Ok((list, ends))
}

fn kept_of(alloc: Global, calls: &[Committed]) -> Result<CommittedList, Fail> {
    let mut kept = CommittedList::new(alloc);
    for call in calls {
        keep(&mut kept, call)?;
    }
    Ok(kept)
}

/// These are the numbers from 1 on.
fn count_up(rt: &impl Abort, numbers: &[u64]) {
    for (place, number) in (1..).zip(numbers.iter()) {
        assert_eq!(rt; *number, place);
    }
}

#[test]
fn many_calls_are_listed_in_time(rt: HostRuntime) -> Result<(), Fail> {
    let (list, ends) = chain(&rt, rt.alloc(), 100_000)?;
    let kept = kept_of(rt.alloc(), list.as_slice())?;
    let order = order_of(&rt, rt.alloc(), &ends, &kept)?;
    assert_eq!(rt; order.len(), 100_000);
    count_up(&rt, order.as_slice());
    Ok(())
}

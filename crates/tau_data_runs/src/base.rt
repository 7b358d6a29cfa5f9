//! Keys, vectors, texts, lists and calls, against values worked out by hand.
use crate::support::{call_of, is_same, text_of, vector};
use std::alloc::Global;
use std::process::Abort;
use std::test::*;
use tau_base::{
    Call, Calls, KeptCall, Key, Listed, Lv, LvList, MAX_LSN, MAX_STREAMS, Name, Text64, Value,
    shard_of, stream_of, worker_of,
};

/// A table, a row, and the shard of its key.
static SHARDS: [(u16, i64, u8); 9] = [
    (0, 1, 1),
    (0, 65, 1),
    (0, 66, 2),
    (1, 1, 32),
    (3, 0, 29),
    (0, -1, 63),
    (2, -62, 0),
    (0, i64::MIN, 0),
    (0, i64::MAX, 63),
];

#[test]
fn shards_of_keys(rt: HostRuntime) {
    for (table, row, shard) in SHARDS {
        assert!(rt;
            shard_of(Key { table, row }) == shard,
            "table {table}, row {row}"
        );
    }
}

#[test]
fn vectors_have_their_positions(rt: HostRuntime) {
    let zero = Lv::zero(3);
    let a = zero.with(0, 53);
    assert!(rt; zero.width() == 3 && a.get(0) == 53 && a.position(5) == 0);
}

/// These positions, with another one for stream 1.
fn with_middle(rt: &impl Abort, parts: &[u64], position: u64) -> Lv {
    let mut lv = vector(rt, parts);
    assert!(rt; 1 < lv.width() && position < MAX_LSN);
    lv.set(1, position);
    assert_eq!(rt; lv.get(1), position);
    lv
}

/// Two vectors, and what they join to.
static JOINING: [(&[u64], &[u64], &[u64]); 2] = [
    (&[53, 0, 0], &[0, 0, 0, 0, 0], &[53, 0, 0, 0, 0]),
    (&[53, 0, 0], &[0, 0, 61], &[53, 0, 61]),
];

#[test]
fn vectors_join_and_cover(rt: HostRuntime) {
    for (a, b, both) in JOINING {
        joins(&rt, &vector(&rt, a), &vector(&rt, b), &vector(&rt, both));
    }
    assert!(rt; !vector(&rt, &[53, 0, 0]).covers(&vector(&rt, &[0, 0, 61])));
    assert!(rt; with_middle(&rt, &[53, 0, 61], 13) != vector(&rt, &[53, 0, 61]));
}

static RISING: [u64; 32] = [
    1, 2, 3, 4, 5, 6, 7, 8, 9, 10, 11, 12, 13, 14, 15, 16, 17, 18, 19, 20, 21, 22, 23, 24, 25, 26,
    27, 28, 29, 30, 31, 32,
];

/// Positions that rise from stream to stream.
fn rising() -> &'static [u64] {
    &RISING
}

static FALLING: [u64; 32] = [
    32, 31, 30, 29, 28, 27, 26, 25, 24, 23, 22, 21, 20, 19, 18, 17, 16, 15, 14, 13, 12, 11, 10, 9,
    8, 7, 6, 5, 4, 3, 2, 1,
];

/// Positions that fall from stream to stream.
fn falling() -> &'static [u64] {
    &FALLING
}

static GREATER: [u64; 32] = [
    32, 31, 30, 29, 28, 27, 26, 25, 24, 23, 22, 21, 20, 19, 18, 17, 17, 18, 19, 20, 21, 22, 23, 24,
    25, 26, 27, 28, 29, 30, 31, 32,
];

/// The greater one of both in each stream.
fn greater() -> &'static [u64] {
    &GREATER
}

/// The vector of the first so many of these positions.
fn first_of(rt: &impl Abort, parts: &[u64], width: usize) -> Lv {
    assert!(rt; width <= parts.len());
    vector(rt, &parts[..width])
}

/// A vector that becomes this one, in place.
fn becomes(rt: &impl Abort, place: &mut Lv, other: &Lv) {
    place.copy_from(other);
    assert!(rt; *place == *other && place.width() == other.width());
}

/// A vector that becomes a zero of so many streams, in place.
fn becomes_zero(rt: &impl Abort, place: &mut Lv, width: usize) {
    assert!(rt; 1 <= width && width <= MAX_STREAMS);
    place.set_zero(width);
    assert!(rt;
        *place == Lv::zero(width)
            && place.width() == width
            && place.position(0) == 0
            && place.position(width - 1) == 0
    );
}

/// From each of four widths to each other one.
static WIDTHS: [usize; 13] = [32, 1, 16, 17, 1, 17, 16, 32, 16, 1, 32, 17, 32];

#[test]
fn vectors_are_copied_over_other_widths(rt: HostRuntime) {
    let mut place = Lv::zero(32);
    for width in WIDTHS {
        becomes(&rt, &mut place, &first_of(&rt, falling(), width));
    }
    for width in WIDTHS {
        becomes(&rt, &mut place, &first_of(&rt, rising(), width));
        becomes(&rt, &mut place, &first_of(&rt, falling(), width));
    }
}

#[test]
fn vectors_become_zero_over_other_widths(rt: HostRuntime) {
    for width in [1usize, 16, 17, 32] {
        let mut place = first_of(&rt, rising(), width);
        for wanted in WIDTHS {
            becomes_zero(&rt, &mut place, wanted);
        }
    }
    let mut place = first_of(&rt, rising(), 32);
    for width in WIDTHS {
        becomes_zero(&rt, &mut place, width);
        becomes(&rt, &mut place, &first_of(&rt, rising(), width));
    }
}

/// Two vectors join to this one, whichever of them is raised, and it covers both.
fn joins(rt: &impl Abort, a: &Lv, b: &Lv, both: &Lv) {
    assert!(rt; a.join(b) == *both && b.join(a) == *both);
    assert!(rt; both.covers(a) && both.covers(b));
    let mut raised = *a;
    raised.raise(b);
    assert!(rt; raised == *both);
    becomes(rt, &mut raised, b);
    raised.raise(a);
    assert!(rt; raised == *both);
}

/// What the first so many positions of `rising` and of `falling` join to: the first so many of `greater`, and then the others of the
/// wider one.
static JOINED: [(usize, usize, usize); 10] = [
    (32, 32, 32),
    (32, 17, 17),
    (32, 16, 16),
    (32, 1, 1),
    (17, 32, 17),
    (16, 32, 16),
    (1, 32, 1),
    (17, 16, 16),
    (16, 17, 16),
    (17, 17, 17),
];

/// The vector whose first positions are those of `greater`, and whose others are those of another list.
fn first_joined(rt: &impl Abort, common: usize, others: &[u64], width: usize) -> Lv {
    let mut out = first_of(rt, others, width);
    for (j, part) in greater().iter().enumerate() {
        assert!(rt; *part < MAX_LSN);
        if j < common && j < out.width() {
            out.set(j, *part);
        }
    }
    out
}

#[test]
fn vectors_of_all_widths_join(rt: HostRuntime) {
    for (up, down, common) in JOINED {
        let a = first_of(&rt, rising(), up);
        let b = first_of(&rt, falling(), down);
        let both = if up < down {
            first_joined(&rt, common, falling(), down)
        } else {
            first_joined(&rt, common, rising(), up)
        };
        joins(&rt, &a, &b, &both);
    }
}

/// Whether the first so many positions of `greater` cover so many of `rising`.
fn covers_up(rt: &impl Abort, width: usize, up: usize) -> bool {
    first_of(rt, greater(), width).covers(&first_of(rt, rising(), up))
}

/// Widths of both, and whether the first vector covers the second.
static COVERED: [(usize, usize, bool); 7] = [
    (32, 32, true),
    (32, 1, true),
    (17, 16, true),
    (17, 17, true),
    (16, 17, false),
    (31, 32, false),
    (1, 2, false),
];

// A vector has zeros beyond its end.
#[test]
fn wider_vectors_are_covered_up_to_their_zeros(rt: HostRuntime) {
    let mut zeros = first_of(&rt, rising(), 16);
    zeros.raise(&Lv::zero(32));
    assert!(rt; first_of(&rt, rising(), 16).covers(&zeros));
    assert!(rt; zeros.covers(&first_of(&rt, rising(), 16)));
    for (width, up, wanted) in COVERED {
        assert!(rt; covers_up(&rt, width, up) == wanted);
    }
}

/// Texts of 64 and of 65 bytes, and whether each is one.
static TEXTS: [(&str, bool); 2] = [
    (
        "xxxxxxxxxxxxxxxxxxxxxxxxxxxxxxxxxxxxxxxxxxxxxxxxxxxxxxxxxxxxxxxx",
        true,
    ),
    (
        "xxxxxxxxxxxxxxxxxxxxxxxxxxxxxxxxxxxxxxxxxxxxxxxxxxxxxxxxxxxxxxxxx",
        false,
    ),
];

static NAMES: [(&str, bool); 3] = [
    ("abcdefghijklmnop", true),
    ("abcdefghijklmnopq", false),
    ("", false),
];

#[test]
fn texts_and_names_have_their_limits(rt: HostRuntime) {
    assert!(rt; TEXTS[0].0.len() == 64);
    for (text, wanted) in &TEXTS {
        assert!(rt; is_text(text) == *wanted, "{text}");
    }
    for (name, wanted) in &NAMES {
        assert!(rt; is_name(name) == *wanted, "{name}");
    }
}

/// Whether this is a text, which comes back as it was put.
fn is_text(text: &str) -> bool {
    match Text64::of(text) {
        Some(kept) => kept.copied().as_str() == text,
        None => false,
    }
}

/// Whether this is a name, which comes back as it was put.
fn is_name(name: &str) -> bool {
    match Name::of(name) {
        Some(kept) => kept.copied().as_str() == name,
        None => false,
    }
}

#[test]
fn values_are_the_same_or_not(rt: HostRuntime) {
    let text = text_of(
        &rt,
        "xxxxxxxxxxxxxxxxxxxxxxxxxxxxxxxxxxxxxxxxxxxxxxxxxxxxxxxxxxxxxxxx",
    );
    let value = Value::Text(text);
    assert!(rt; value.copied().is_same(&value) && !value.is_same(&Value::Absent));
    assert!(rt; !Value::Int(0).is_same(&Value::Absent));
}

fn push(list: &mut Listed<u64>, number: u64) -> Result<(), Fail> {
    list.push(number).ok().ok_or("there is room")?;
    Ok(())
}

#[test]
fn lists_keep_their_elements(rt: HostRuntime) -> Result<(), Fail> {
    let mut list = Listed::new(rt.alloc());
    push(&mut list, 7)?;
    push(&mut list, 9)?;
    assert!(rt; list.len() == 2 && list.as_slice() == [7, 9].as_slice());
    let copy = list.clone().ok().ok_or("there is room")?;
    assert!(rt; Listed::of(copy.into_vec()) == list);
    Ok(())
}

#[test]
fn lists_begin_with_room(rt: HostRuntime) -> Result<(), Fail> {
    let list: Listed<u64> = Listed::with_capacity(rt.alloc(), 3)
        .ok()
        .ok_or("there is room")?;
    assert_eq!(rt; list.len(), 0);
    Ok(())
}

/// What stands after a call's numbers.
#[derive(Clone, Copy)]
enum Last<'a> {
    Nothing,
    Absent,
    Text(&'a str),
}

/// A call: its procedure, the numbers that are its arguments, and what stands after them.
type Row<'a> = (u16, &'a [i64], Last<'a>);

fn call_in(rt: &impl Abort, row: &Row<'_>) -> Call {
    let call = call_of(row.0, row.1);
    match row.2 {
        Last::Nothing => call,
        Last::Absent => with(call, Value::Absent),
        Last::Text(text) => with(call, Value::Text(text_of(rt, text))),
    }
}

/// The call with one more argument.
fn with(mut call: Call, value: Value) -> Call {
    let _ = call.args.try_push(value);
    call
}

fn calls_in(rt: &impl Abort, alloc: Global, rows: &[Row<'_>]) -> Result<Calls, Fail> {
    let mut calls = Calls::new(alloc);
    for row in rows {
        calls.push(&call_in(rt, row))?;
    }
    assert_eq!(rt; calls.len(), rows.len());
    Ok(calls)
}

/// Whether the call at this index comes back as it was put: lent, as a value, and into a place.
fn comes_back(rt: &impl Abort, calls: &Calls, i: usize, put: &Call, place: &mut Call) -> bool {
    assert!(rt; i < calls.len());
    calls.put_into(i, place);
    is_same(place, put)
        && is_same(&calls.call_at(i).copied(), put)
        && is_same(&calls.at(i).call(), put)
}

/// A call that is kept alone comes back as it was put.
fn keeps(rt: &impl Abort, alloc: Global, put: &Call) -> Result<(), Fail> {
    let kept = KeptCall::of(alloc, put)?;
    assert!(rt; is_same(&kept.call(), put));
    Ok(())
}

/// All of these calls come back as they were put, from their list and from a copy.
fn come_back(rt: &impl Abort, alloc: Global, rows: &[Row<'_>]) -> Result<(), Fail> {
    let calls = calls_in(rt, alloc, rows)?;
    let copy = calls.copied(alloc)?;
    assert_eq!(rt; copy.len(), calls.len());
    let mut place = call_of(9, &[9, 9, 9, 9]);
    for (i, row) in rows.iter().enumerate() {
        let put = call_in(rt, row);
        assert!(rt; comes_back(rt, &calls, i, &put, &mut place), "row {i}");
        assert!(rt;
            comes_back(rt, &copy, i, &put, &mut place),
            "copy of row {i}"
        );
        keeps(rt, alloc, &put)?;
    }
    Ok(())
}

/// Calls of few whole numbers, and calls with more arguments or others.
static CALLS: [Row<'static>; 6] = [
    (1, &[0, 65, -3], Last::Nothing),
    (2, &[3, i64::MIN], Last::Nothing),
    (6, &[], Last::Nothing),
    (0, &[0, 5], Last::Text("five")),
    (4, &[], Last::Absent),
    (5, &[1, 2, 3, 4, 5, 6, 7, -8], Last::Nothing),
];

/// The second call of three, of few whole numbers, and the third, with a text.
static THREE: [Row<'static>; 3] = [
    (6, &[], Last::Nothing),
    (1, &[0, 65, -3], Last::Nothing),
    (0, &[0, 5], Last::Text("five")),
];

#[test]
fn calls_come_back_as_they_were_put(rt: HostRuntime) -> Result<(), Fail> {
    come_back(&rt, rt.alloc(), &CALLS)
}

#[test]
fn calls_are_found_by_their_place(rt: HostRuntime) -> Result<(), Fail> {
    come_back(&rt, rt.alloc(), &THREE)
}

/// The vector (53,61), and after it (0,0,77), 32 positions and (1,2) of another list.
fn of_two_lists(rt: &impl Abort, alloc: Global) -> Result<LvList, Fail> {
    let mut list = LvList::new(alloc);
    list.reserve(4)?;
    list.push_reserved(&vector(rt, &[53, 61]));
    let mut others = LvList::new(alloc);
    others.reserve(3)?;
    others.push_reserved(&vector(rt, &[0, 0, 77]));
    others.push_reserved(&vector(rt, rising()));
    others.push_reserved(&vector(rt, &[1, 2]));
    list.append(others);
    Ok(list)
}

/// The vector at this index has these positions, also where it is put into a place.
fn is_vector(rt: &impl Abort, list: &LvList, i: usize, parts: &[u64]) {
    assert!(rt; i < list.len());
    let mut place = Lv::zero(16);
    list.put_into(i, &mut place);
    assert!(rt; list.get(i) == parts && place.as_slice() == parts);
}

/// Vectors of several widths, from two lists.
static FLAT: [&[u64]; 4] = [
    &[53, 61],
    &[0, 0, 77],
    &[
        1, 2, 3, 4, 5, 6, 7, 8, 9, 10, 11, 12, 13, 14, 15, 16, 17, 18, 19, 20, 21, 22, 23, 24, 25,
        26, 27, 28, 29, 30, 31, 32,
    ],
    &[1, 2],
];

#[test]
fn vectors_are_kept_flat(rt: HostRuntime) -> Result<(), Fail> {
    let list = of_two_lists(&rt, rt.alloc())?;
    assert!(rt; list.len() == 4);
    for (i, parts) in FLAT.iter().enumerate() {
        is_vector(&rt, &list, i, parts);
    }
    Ok(())
}

/// A call, of how many workers, and which one has it.
static DEALT: [(u64, usize, usize); 12] = [
    (1, 3, 0),
    (2, 3, 1),
    (3, 3, 2),
    (4, 3, 0),
    (5, 3, 1),
    (6, 3, 2),
    (7, 3, 0),
    (1, 32, 0),
    (17, 32, 16),
    (18, 32, 17),
    (32, 32, 31),
    (33, 32, 0),
];

#[test]
fn calls_are_dealt_in_turn(rt: HostRuntime) {
    for (call, workers, worker) in DEALT {
        assert!(rt; 1 <= workers);
        assert!(rt; worker_of(call, workers) == worker, "call {call}");
    }
}

/// A worker, of how many streams, and which one has its records.
static STREAMS: [(usize, usize, usize); 9] = [
    (0, 2, 0),
    (1, 2, 1),
    (2, 2, 0),
    (3, 2, 1),
    (4, 2, 0),
    (0, 17, 0),
    (16, 17, 16),
    (17, 17, 0),
    (31, 17, 14),
];

#[test]
fn records_are_dealt_in_turn(rt: HostRuntime) {
    for (worker, streams, stream) in STREAMS {
        assert!(rt; 1 <= streams);
        assert!(rt; stream_of(worker, streams) == stream, "worker {worker}");
    }
}

//! Generated workloads.
use tau_base::{Name, Value};
use tau_gen::generate;
use tau_text::Workload;

// The procedure of a call and its three arguments, where these are whole numbers.
fn numbers_of(load: &Workload, place: usize) -> Option<(u16, i64, i64, i64)> {
    if place >= load.calls.len() {
        return None;
    }
    let call = load.calls.call_at(place);
    match call.args.as_slice() {
        [Value::Int(table), Value::Int(row), Value::Int(amount)] => {
            Some((call.proc, *table, *row, *amount))
        }
        _ => None,
    }
}

// Whether there is one table, with this name.
fn is_only_table(tables: &[Name], name: &str) -> bool {
    match tables {
        [table] => table.as_str() == name,
        _ => false,
    }
}

// The place of a call, the row that it adds to, and the amount.
static CALLS: [(usize, i64, i64); 4] = [(0, 44, 2), (1, 81, 3), (8, 340, 10), (9, 377, 1)];

#[test]
fn calls_follow_the_formula(rt: HostRuntime) {
    let load = generate(rt.alloc(), 7, 10).expect(&rt, "memory");
    assert!(rt; is_only_table(load.declarations.tables.as_slice(), "acct"));
    assert!(rt; load.turns.is_none() && load.calls.len() == 10);
    for (at, row, amount) in &CALLS {
        assert!(rt;
            numbers_of(&load, *at) == Some((1, 0, *row, *amount)),
            "call {at}"
        );
    }
}

// Adds the amount to the sum of all, and to that of its row.
fn count_in(sums: &mut [i64; 4], row: i64, amount: i64) {
    sums[0] = sums[0].wrapping_add(amount);
    match row {
        0 => sums[1] = sums[1].wrapping_add(amount),
        7 => sums[2] = sums[2].wrapping_add(amount),
        44 => sums[3] = sums[3].wrapping_add(amount),
        _ => {}
    }
}

// The sums of all amounts, and of those of rows 0, 7 and 44.
fn sums_of(load: &Workload) -> [i64; 4] {
    let mut sums = [0i64; 4];
    for place in 0..load.calls.len() {
        if let Some((_, _, row, amount)) = numbers_of(load, place) {
            count_in(&mut sums, row, amount);
        }
    }
    sums
}

/// Over 1,000 rows from 7 on, 20,000 calls add 110,000: 200 to row 0, 20 to row 7 and 40 to row 44.
#[test]
fn amounts_of_each_row(rt: HostRuntime) {
    let load = generate(rt.alloc(), 7, 20_000).expect(&rt, "memory");
    assert!(rt; load.calls.len() == 20_000 && sums_of(&load) == [110_000, 200, 20, 40]);
}

// No call, and the most that can be asked for.
#[test]
fn as_many_calls_as_are_asked_for(rt: HostRuntime) {
    for calls in [0u32, 200_000] {
        let load = generate(rt.alloc(), 999, calls).expect(&rt, "memory");
        assert!(rt; u32::try_from(load.calls.len()).ok() == Some(calls));
    }
}

//! Whether two values are the same.
ghost use Rattle.std.specs.Prelude.{◌≡◌, ◌↔◌, IsTrue, map};
ghost use Rattle.tau_base.specs.declared.value.Value.TheVariants.{Int};

use tau_base::{Call, KeptCall, Key, Value};
use tau_proc::Reply;
use tau_record::{KeptWrites, LentWrites};

/// Whether two replies are.
pub fn same_reply(reply: &Reply, other: &Reply) -> bool
    ensures { IsTrue result ↔ (reply.now ≡ other.now) }
{
    match (reply, other) {
        (Reply::Ok(value), Reply::Ok(other)) => value.is_same(other),
        (Reply::Refused(step), Reply::Refused(other)) => *step == *other,
        _ => false,
    }
}

/// Whether two rows are.
fn same_row(row: &(Key, Value), other: &(Key, Value)) -> bool
    ensures { IsTrue result ↔ (row.now ≡ other.now) }
{
    row.0 == other.0 && row.1.is_same(&other.1)
}

/// Whether two lists of rows are.
pub fn same_rows(rows: &[(Key, Value)], other: &[(Key, Value)]) -> bool
    ensures { IsTrue result ↔ (rows.now ≡ other.now) }
{
    if rows.len() != other.len() {
        return false;
    }
    for i in 0..rows.len() {
        if !same_row(&rows[i], &other[i]) {
            return false;
        }
    }
    true
}

/// Whether a row is one of a whole number.
fn same_number(row: &(Key, i64), other: &(Key, Value)) -> bool
    ensures { IsTrue result ↔ ((row.now.0, Int row.now.1) ≡ other.now) }
{
    match &other.1 {
        Value::Int(number) => row.0 == other.0 && row.1 == *number,
        _ => false,
    }
}

/// Whether rows are a list of whole numbers.
fn same_numbers(rows: &[(Key, i64)], other: &[(Key, Value)]) -> bool
    ensures { IsTrue result ↔ (map (λ r. (r.0, Int r.1)) rows.now ≡ other.now) }
{
    if rows.len() != other.len() {
        return false;
    }
    for i in 0..rows.len() {
        if !same_number(&rows[i], &other[i]) {
            return false;
        }
    }
    true
}

/// Whether the writes of a record are these rows.
pub fn same_writes(writes: &KeptWrites, other: &[(Key, Value)]) -> bool
    ensures { IsTrue result ↔ (writes.now ≡ other.now) }
{
    match writes.lent() {
        LentWrites::Numbers(rows) => same_numbers(rows, other),
        LentWrites::Whole(rows) => same_rows(rows, other),
    }
}

/// Whether two lists of values are.
fn same_values(values: &[Value], other: &[Value]) -> bool
    ensures { IsTrue result ↔ (values.now ≡ other.now) }
{
    if values.len() != other.len() {
        return false;
    }
    for i in 0..values.len() {
        if !values[i].is_same(&other[i]) {
            return false;
        }
    }
    true
}

/// Whether two calls are.
fn same_call(call: &Call, other: &Call) -> bool
    ensures { IsTrue result ↔ (call.now ≡ other.now) }
{
    call.proc == other.proc && same_values(call.args.as_slice(), other.args.as_slice())
}

/// Whether two calls that are kept are.
pub fn same_kept(call: &KeptCall, other: &KeptCall) -> bool
    ensures { IsTrue result ↔ (call.now ≡ other.now) }
{
    same_call(&call.call(), &other.call())
}

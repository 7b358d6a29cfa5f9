//! Values, keys and writes.
ghost use Rattle.std.specs.Prelude.{◌≡◌, ◌<◌, ◌≤◌, ◌+◌, ◌*◌, ◌++◌, [], length, map, Ok, OnOk, IfSome, Some, None, if◌then◌else◌};
ghost use Rattle.std.specs.Str.{is_utf8};
ghost use Rattle.std.specs.List.{flat_map, AllByRecursion};
ghost use Rattle.tau_base.specs.declared.limits.TheConstants.{MAX_ARGS};
ghost use Rattle.tau_base.specs.declared.value.Value.TheVariants.{Int};
ghost use Rattle.tau_record.specs.Field.{Gives, Adds};
ghost use Rattle.tau_record.specs.Item.{value, FitsValue, key, FitsKey, write, FitsWrite, follows, text_at, value_at, key_at, write_at, writes_at, args_at};

use crate::fault::{FieldError, RecordCause};
use crate::field::{u16_of, u64_of};
use crate::kind;
use crate::writes::{KeptWrites, SHORT_WRITES, Short};
use arrayvec::ArrayVec;
use std::alloc::{AllocError, Global};
use std::str;
use tau_base::{Key, MAX_ARGS, MAX_TEXT, MAX_WRITES, Text64, Value};

// ---- reading

fn short_of(bytes: &[u8]) -> Option<Text64>
    requires { length bytes.now ≤ MAX_TEXT }
    ensures { result ≡ (if is_utf8 bytes.now then Some bytes.now else None) }
{
    match str::from_utf8(bytes) {
        Err(_) => None,
        Ok(text) => Text64::of(text),
    }
}

#[tactic(auto, unfolding(crate::specs::Item::text_at))]
fn text_of(bytes: &[u8]) -> Result<(Value, &[u8]), FieldError>
    ensures { Gives (λ x. (x.0, x.1.now)) result (text_at bytes.now) }
{
    let (len, rest) = u16_of(bytes)?;
    let len = len as usize;
    if len > MAX_TEXT {
        return Err(FieldError::Bad(RecordCause::BadBody));
    }
    if rest.len() < len {
        return Err(FieldError::Bad(RecordCause::BadLength));
    }
    let (front, rest) = rest.split_at(len);
    match short_of(front) {
        None => Err(FieldError::Bad(RecordCause::BadBody)),
        Some(text) => Ok((Value::Text(text), rest)),
    }
}

#[tactic(auto, unfolding(crate::specs::Item::value_at))]
pub(crate) fn value_of(bytes: &[u8]) -> Result<(Value, &[u8]), FieldError>
    ensures { Gives (λ x. (x.0, x.1.now)) result (value_at bytes.now) }
{
    match bytes {
        [] => Err(FieldError::Bad(RecordCause::BadLength)),
        [kind::ABSENT, rest @ ..] => Ok((Value::Absent, rest)),
        [kind::INT, rest @ ..] => {
            let (number, rest) = u64_of(rest)?;
            Ok((Value::Int(number.cast_signed()), rest))
        }
        [kind::TEXT, rest @ ..] => text_of(rest),
        [_, ..] => Err(FieldError::Bad(RecordCause::BadBody)),
    }
}

#[tactic(auto, unfolding(crate::specs::Item::key_at))]
fn key_of(bytes: &[u8]) -> Result<(Key, &[u8]), FieldError>
    ensures { Gives (λ x. (x.0, x.1.now)) result (key_at bytes.now) }
{
    let (table, rest) = u16_of(bytes)?;
    let (row, rest) = u64_of(rest)?;
    Ok((
        Key {
            table,
            row: row.cast_signed(),
        },
        rest,
    ))
}

fn is_behind(last: Option<Key>, key: Key) -> bool
    ensures { result ≡ follows last key }
{
    match last {
        None => true,
        Some(last) => last < key,
    }
}

#[tactic(auto, unfolding(crate::specs::Item::write_at))]
fn write_of(last: Option<Key>, bytes: &[u8]) -> Result<((Key, Value), &[u8]), FieldError>
    ensures { Gives (λ x. (x.0, x.1.now)) result (write_at last bytes.now) }
{
    let (key, rest) = key_of(bytes)?;
    if !is_behind(last, key) {
        return Err(FieldError::Bad(RecordCause::BadBody));
    }
    let (value, rest) = value_of(rest)?;
    Ok(((key, value), rest))
}

/// The whole number at the front of the bytes, if there is one.
#[tactic(auto, unfolding(crate::specs::Item::value_at))]
fn int_of(bytes: &[u8]) -> Option<(i64, &[u8])>
    ensures { IfSome result (λ x. value_at bytes.now ≡ Ok (Int x.0, x.1.now)) }
{
    let [kind::INT, rest @ ..] = bytes else {
        return None;
    };
    match u64_of(rest) {
        Ok((number, rest)) => Some((number.cast_signed(), rest)),
        Err(_) => None,
    }
}

/// The write of a whole number at the front of the bytes, if there is one.
#[tactic(auto, unfolding(crate::specs::Item::write_at))]
fn number_of(last: Option<Key>, bytes: &[u8]) -> Option<((Key, i64), &[u8])>
    ensures { IfSome result (λ x. write_at last bytes.now ≡ Ok ((x.0.0, Int x.0.1), x.1.now)) }
{
    let Ok((key, rest)) = key_of(bytes) else {
        return None;
    };
    if !is_behind(last, key) {
        return None;
    }
    match int_of(rest) {
        Some((number, rest)) => Some(((key, number), rest)),
        None => None,
    }
}

/// Reads so many writes, if they are few and of whole numbers.
fn numbers_of(count: u16, bytes: &[u8]) -> Option<(Short, &[u8])>
    ensures { IfSome result (λ x. writes_at count None bytes.now ≡ Ok (map (λ r. (r.0, Int r.1)) x.0.items, x.1.now)) }
{
    if count as usize > SHORT_WRITES {
        return None;
    }
    let mut numbers = ArrayVec::new();
    let mut rest = bytes;
    let mut last = None;
    for _ in 0..count {
        let (number, after) = number_of(last, rest)?;
        last = Some(number.0);
        numbers.push(number);
        rest = after;
    }
    Some((numbers, rest))
}

/// Reads so many writes, by way of a list if they are not few numbers.
pub(crate) fn kept_writes_of<'a>(
    alloc: Global,
    count: u16,
    bytes: &'a [u8],
    writes: &mut Vec<(Key, Value)>,
) -> Result<(KeptWrites, &'a [u8]), FieldError>
    ensures { Gives (λ x. (x.0, x.1.now)) result (writes_at count None bytes.now) }
{
    if let Some((numbers, rest)) = numbers_of(count, bytes) {
        return Ok((KeptWrites::short(numbers), rest));
    }
    writes.clear();
    let rest = writes_of(u64::from(count), bytes, writes)?;
    Ok((KeptWrites::of(alloc, writes.as_slice())?, rest))
}

/// Reads so many writes into an empty list.
pub(crate) fn writes_of<'a>(
    count: u64,
    bytes: &'a [u8],
    writes: &mut Vec<(Key, Value)>,
) -> Result<&'a [u8], FieldError>
    requires { writes.old.items ≡ [] }
    ensures { Gives (λ x. (writes.new.items, x.now)) result (writes_at count None bytes.now) }
{
    let mut rest = bytes;
    let mut last = None;
    for _ in 0..count {
        let (write, after) = write_of(last, rest)?;
        let key = write.0;
        writes.push(write)?;
        last = Some(key);
        rest = after;
    }
    Ok(rest)
}

/// Reads an argument of any kind, and puts it after those before it. It lays a place for a whole value, which numbers do
/// without.
#[inline(never)]
fn put_any<'a>(
    bytes: &'a [u8],
    args: &mut ArrayVec<Value, MAX_ARGS>,
) -> Result<&'a [u8], FieldError>
    requires { length args.old.items < MAX_ARGS }
    ensures { Adds (λ x. x.now) result (value_at bytes.now) args.old.items args.new.items }
{
    let (value, rest) = value_of(bytes)?;
    args.push(value);
    Ok(rest)
}

/// Reads an argument, and puts it after those before it.
fn put_arg<'a>(
    bytes: &'a [u8],
    args: &mut ArrayVec<Value, MAX_ARGS>,
) -> Result<&'a [u8], FieldError>
    requires { length args.old.items < MAX_ARGS }
    ensures { Adds (λ x. x.now) result (value_at bytes.now) args.old.items args.new.items }
{
    match int_of(bytes) {
        Some((number, rest)) => {
            args.push(Value::Int(number));
            Ok(rest)
        }
        None => put_any(bytes, args),
    }
}

/// Reads the arguments of a call into `args`.
pub(crate) fn args_of<'a>(
    count: u8,
    bytes: &'a [u8],
    args: &mut ArrayVec<Value, MAX_ARGS>,
) -> Result<&'a [u8], FieldError>
    requires few { count ≤ MAX_ARGS }
    requires empty { args.old.items ≡ [] }
    ensures { Gives (λ x. (args.new.items, x.now)) result (args_at count bytes.now) }
{
    let mut rest = bytes;
    for _ in 0..count {
        rest = put_arg(rest, args)?;
    }
    Ok(rest)
}

// ---- writing

fn value_size(v: &Value) -> usize
    ensures exact { result ≡ length (value v.now) }
    ensures small { result ≤ 67 }
{
    match v {
        Value::Absent => 1,
        Value::Int(_) => 9,
        Value::Text(text) => 3 + text.as_str().len(),
    }
}

/// How many bytes the writes take.
pub(crate) fn writes_size(writes: &[(Key, Value)]) -> usize
    requires { length writes.now ≤ MAX_WRITES }
    ensures exact { result ≡ length (flat_map write writes.now) }
    ensures small { result ≤ 77 * length writes.now }
{
    let mut size = 0;
    for w in writes {
        size += 10 + value_size(&w.1);
    }
    size
}

/// How many bytes the arguments take.
pub(crate) fn args_size(args: &[Value]) -> usize
    requires { length args.now ≤ MAX_ARGS }
    ensures exact { result ≡ length (flat_map value args.now) }
    ensures small { result ≤ 67 * length args.now }
{
    let mut size = 0;
    for v in args {
        size += value_size(v);
    }
    size
}

fn put_value(out: &mut Vec<u8>, v: &Value) -> Result<(), AllocError>
    ensures bytes { OnOk result (out.new.items ≡ out.old.items ++ value v.now) }
    ensures fits { OnOk result (FitsValue v.now) }
{
    match v {
        Value::Absent => out.push(kind::ABSENT)?,
        Value::Int(number) => {
            out.push(kind::INT)?;
            out.extend_from_slice(&number.to_be_bytes())?;
        }
        Value::Text(text) => {
            let text = text.as_str();
            out.push(kind::TEXT)?;
            out.extend_from_slice(&(text.len() as u16).to_be_bytes())?;
            out.extend_from_slice(text.as_bytes())?;
        }
    }
    Ok(())
}

fn put_key(out: &mut Vec<u8>, k: Key) -> Result<(), AllocError>
    ensures bytes { OnOk result (out.new.items ≡ out.old.items ++ key k) }
    ensures fits { OnOk result (FitsKey k) }
{
    out.extend_from_slice(&k.table.to_be_bytes())?;
    out.extend_from_slice(&k.row.to_be_bytes())?;
    Ok(())
}

fn put_write(out: &mut Vec<u8>, w: &(Key, Value)) -> Result<(), AllocError>
    ensures bytes { OnOk result (out.new.items ≡ out.old.items ++ write w.now) }
    ensures fits { OnOk result (FitsWrite w.now) }
{
    put_pair(out, w.0, &w.1)
}

fn put_pair(out: &mut Vec<u8>, k: Key, v: &Value) -> Result<(), AllocError>
    ensures bytes { OnOk result (out.new.items ≡ out.old.items ++ write (k, v.now)) }
    ensures fits { OnOk result (FitsWrite (k, v.now)) }
{
    match v {
        Value::Int(number) => {
            out.extend_from_slice(&number_write(k, *number))?;
            Ok(())
        }
        _ => {
            put_key(out, k)?;
            put_value(out, v)
        }
    }
}

/// The write of a whole number, as one piece.
fn number_write(key: Key, number: i64) -> [u8; 19]
    ensures { result ≡ write (key, Int number) }
{
    let [t0, t1] = key.table.to_be_bytes();
    let [r0, r1, r2, r3, r4, r5, r6, r7] = key.row.to_be_bytes();
    let [n0, n1, n2, n3, n4, n5, n6, n7] = number.to_be_bytes();
    [
        t0,
        t1,
        r0,
        r1,
        r2,
        r3,
        r4,
        r5,
        r6,
        r7,
        kind::INT,
        n0,
        n1,
        n2,
        n3,
        n4,
        n5,
        n6,
        n7,
    ]
}

pub(crate) fn put_writes(out: &mut Vec<u8>, writes: &[(Key, Value)]) -> Result<(), AllocError>
    ensures bytes { OnOk result (out.new.items ≡ out.old.items ++ flat_map write writes.now) }
    ensures fit { OnOk result (AllByRecursion FitsWrite writes.now) }
{
    for w in writes {
        put_write(out, w)?;
    }
    Ok(())
}

pub(crate) fn put_args(out: &mut Vec<u8>, args: &[Value]) -> Result<(), AllocError>
    ensures bytes { OnOk result (out.new.items ≡ out.old.items ++ flat_map value args.now) }
    ensures fit { OnOk result (AllByRecursion FitsValue args.now) }
{
    for v in args {
        put_value(out, v)?;
    }
    Ok(())
}

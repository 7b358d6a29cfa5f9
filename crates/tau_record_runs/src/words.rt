//! The words of scenes: numbers, vectors, values, calls, rows and bytes.
use arrayvec::ArrayVec;
use std::alloc::Global;
use tau_base::{Call, Key, Lv, MAX_ARGS, MAX_LSN, MAX_STREAMS, Text64, Value};

pub(crate) fn is_number(found: u64, told: &str) -> bool {
    match told.parse::<u64>() {
        Ok(number) => number == found,
        Err(_) => false,
    }
}

/// The anchor with number 1 of a stream of 32, the same with another position for the last stream, and positions of streams 16 and 31
/// alone.
const ENDS: &str =
    "13,13,13,13,13,13,13,13,13,13,13,13,13,13,13,13,61,13,13,13,13,13,13,13,13,13,13,13,13,13,13,77";

const ENDS_RAISED: &str =
    "13,13,13,13,13,13,13,13,13,13,13,13,13,13,13,13,61,13,13,13,13,13,13,13,13,13,13,13,13,13,13,90";

const TWO_HIGH: &str = "0,0,0,0,0,0,0,0,0,0,0,0,0,0,0,0,13,0,0,0,0,0,0,0,0,0,0,0,0,0,0,61";

/// The vector of these positions: `0*16` is 16 zeros.
pub(crate) fn vector_of(text: &str) -> Option<Lv> {
    let (positions, times) = match text.split_once('*') {
        Some((position, times)) => (position, times.parse::<usize>().ok()?),
        None => match text {
            "ends" => (ENDS, 1),
            "ends-raised" => (ENDS_RAISED, 1),
            "two-high" => (TWO_HIGH, 1),
            _ => (text, 1),
        },
    };
    let width = positions.split(',').count().saturating_mul(times);
    if width == 0 || width > MAX_STREAMS {
        return None;
    }
    let mut vector = Lv::zero(width);
    if put_positions(&mut vector, positions) {
        return Some(vector);
    }
    None
}

/// Makes a vector these positions, again and again up to its width.
fn put_positions(vector: &mut Lv, positions: &str) -> bool {
    let mut words = positions.split(',');
    for j in 0..vector.width() {
        let word = match words.next() {
            Some(word) => word,
            None => positions,
        };
        match word.parse::<u64>() {
            Ok(lsn) if j < vector.width() && lsn < MAX_LSN => vector.set(j, lsn),
            _ => return false,
        }
    }
    true
}

/// Whether a vector is this one.
pub(crate) fn is_vector(found: &[u64], told: &str) -> bool {
    match vector_of(told) {
        Some(vector) => found == vector.as_slice(),
        None => false,
    }
}

/// A value: `none`, a text between quotes, or a number.
pub(crate) fn value_of(word: &str) -> Option<Value> {
    if word == "none" {
        return Some(Value::Absent);
    }
    match word.strip_prefix('"') {
        Some(text) => Some(Value::Text(Text64::of(text.strip_suffix('"')?)?)),
        None => Some(Value::Int(word.parse::<i64>().ok()?)),
    }
}

fn put_args(args: &mut ArrayVec<Value, MAX_ARGS>, text: &str) -> bool {
    for word in text.split(' ') {
        match value_of(word) {
            Some(value) if !args.is_full() => args.push(value),
            _ => return false,
        }
    }
    true
}

/// A call: the number of its procedure and its arguments.
pub(crate) fn call_of(text: &str) -> Option<Call> {
    let (word, rest) = text.split_once(' ').unwrap_or((text, ""));
    let proc = word.parse::<u16>().ok()?;
    let mut args = ArrayVec::new();
    if rest.is_empty() || put_args(&mut args, rest) {
        return Some(Call { proc, args });
    }
    None
}

/// A row: the table's number, its own and its value.
fn row_of(word: &str) -> Option<(Key, Value)> {
    let (table, rest) = word.split_once(':')?;
    let (row, value) = rest.split_once(':')?;
    let key = Key {
        table: table.parse::<u16>().ok()?,
        row: row.parse::<i64>().ok()?,
    };
    Some((key, value_of(value)?))
}

pub(crate) fn put_rows(rows: &mut Vec<(Key, Value)>, text: &str) -> bool {
    for word in text.split(' ') {
        match row_of(word) {
            Some(row) => {
                if rows.push(row).is_err() {
                    return false;
                }
            }
            None => return false,
        }
    }
    true
}

/// Whether these are the rows, in this order; `-` for none.
pub(crate) fn are_rows(rows: &[(Key, Value)], told: &str) -> bool {
    if told == "-" {
        return rows.is_empty();
    }
    let mut words = told.split(' ');
    for row in rows {
        match row_of(words.next().unwrap_or("")) {
            Some((key, value)) => {
                if key != row.0 || value != row.1 {
                    return false;
                }
            }
            None => return false,
        }
    }
    words.next().is_none()
}

/// Puts the bytes of hexadecimal digits last, between which there may be spaces.
pub(crate) fn put_digits(bytes: &mut Vec<u8>, digits: &str) -> bool {
    let mut high: Option<u8> = None;
    for c in digits.chars() {
        let Some(digit) = c.to_digit(16) else {
            if c == ' ' {
                continue;
            }
            return false;
        };
        let low = digit as u8;
        match high {
            None => high = Some(low),
            Some(first) => {
                if bytes.push((first << 4) | low).is_err() {
                    return false;
                }
                high = None;
            }
        }
    }
    high.is_none()
}

/// Whether the bytes are spelled so; `-` for none.
pub(crate) fn are_spelled(alloc: Global, bytes: &[u8], digits: &str) -> bool {
    if digits == "-" {
        return bytes.is_empty();
    }
    let mut wanted = Vec::new(alloc);
    put_digits(&mut wanted, digits) && bytes == wanted.as_slice()
}

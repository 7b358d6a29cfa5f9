//! What lines say of calls that have committed, and of rows.
use tau_base::{Key, Value};
use tau_core::Core;
use tau_model::CommittedList;

/// Whether these words are these numbers.
pub fn says(words: &str, numbers: &[u64]) -> bool {
    let mut left = numbers.iter();
    for word in words.split([' ', ',']) {
        match (word.parse::<u64>(), left.next()) {
            (Ok(number), Some(wanted)) if number == *wanted => {}
            _ => return false,
        }
    }
    left.next() == None
}

/// Whether the value is the one that the word says, a number or none.
pub fn is_value(value: &Value, word: &str) -> bool {
    match value {
        Value::Absent => word == "none",
        Value::Int(number) => word.parse::<i64>() == Ok(*number),
        Value::Text(_) => false,
    }
}

/// Whether the calls are as the line says.
pub fn keeps(calls: &CommittedList, line: &str) -> bool {
    match line.split_once(' ') {
        Some(("calls", rest)) => says(rest, &[calls.len() as u64]),
        Some((word, rest)) => is_call(calls, word, rest),
        None => false,
    }
}

fn is_call(calls: &CommittedList, word: &str, rest: &str) -> bool {
    let i = match rest.split_once(' ') {
        Some((i, _)) => i.parse::<usize>().unwrap_or(usize::MAX),
        None => usize::MAX,
    };
    if i >= calls.len() {
        return false;
    }
    let call = calls.at(i);
    let last = match (word, call.spot()) {
        ("call", _) => [call.position(0), call.position(1)],
        ("placed", Some(spot)) => [spot.start, spot.past],
        _ => return false,
    };
    match call.dep() {
        [first, second] => says(
            rest,
            &[i as u64, call.number(), *first, *second, last[0], last[1]],
        ),
        _ => false,
    }
}

/// The first line that the core does not hold is an `Err`.
pub fn holds_all<'a>(core: &Core, lines: &'a str) -> Result<(), &'a str> {
    if lines == "" {
        return Err("a desk of which nothing is said");
    }
    for line in lines.lines() {
        if !holds(core, line) {
            return Err(line);
        }
    }
    Ok(())
}

fn holds(core: &Core, line: &str) -> bool {
    let Some(rest) = line.strip_prefix("row ") else {
        return keeps(core.committed(), line);
    };
    match rest.split_once(' ') {
        Some((row, word)) => {
            let row = row.parse::<i64>().unwrap_or(i64::MAX);
            is_value(&core.value(Key { table: 0, row }), word)
        }
        None => false,
    }
}

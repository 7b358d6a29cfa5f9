//! Texts of reports, of tables and of acknowledgements.
use crate::play::are_lines;
use std::alloc::Global;
use tau_base::{Key, Listed, Lv, MAX_LSN, MAX_STREAMS, Text64, Value};
use tau_model::Tables;
use tau_proc::Reply;
use tau_report::{Acks, KeptFate, RunReport, ack_line, report_text, table_text};
use tau_text::{Declarations, parse_declarations};

/// A value: `none`, `int 7` or `text "two  words"`.
fn value_of(text: &str) -> Option<Value> {
    match text.split_once(' ') {
        None if text == "none" => Some(Value::Absent),
        Some(("int", number)) => Some(Value::Int(number.parse::<i64>().ok()?)),
        Some(("text", quoted)) => {
            let text = quoted.strip_prefix('"')?.strip_suffix('"')?;
            Some(Value::Text(Text64::of(text)?))
        }
        _ => None,
    }
}

/// A value, or `refused` and the step that refused.
fn reply_of(text: &str) -> Option<Reply> {
    match text.strip_prefix("refused ") {
        Some(step) => Some(Reply::Refused(step.parse::<u16>().ok()?)),
        None => Some(Reply::Ok(value_of(text)?)),
    }
}

fn kept_of(alloc: Global, acknowledged: bool, reply: &str) -> Option<KeptFate> {
    KeptFate::of(alloc, acknowledged, &reply_of(reply)?).ok()
}

/// What became of a call: `acked` or `unsure` with its reply, or `unrun`.
fn fate_of(alloc: Global, text: &str) -> Option<KeptFate> {
    match text.split_once(' ') {
        None if text == "unrun" => Some(KeptFate::unrun()),
        Some(("acked", reply)) => kept_of(alloc, true, reply),
        Some(("unsure", reply)) => kept_of(alloc, false, reply),
        _ => None,
    }
}

fn put_fates(alloc: Global, fates: &mut Vec<KeptFate>, text: &str) -> bool {
    for fate in text.split(", ") {
        match fate_of(alloc, fate) {
            Some(fate) => {
                if fates.push(fate).is_err() {
                    return false;
                }
            }
            None => return false,
        }
    }
    true
}

fn fates_of(alloc: Global, text: &str) -> Option<Listed<KeptFate>> {
    let mut fates = Vec::new(alloc);
    if text == "-" || put_fates(alloc, &mut fates, text) {
        return Some(Listed::of(fates));
    }
    None
}

fn put_numbers(numbers: &mut Vec<u64>, text: &str) -> bool {
    for word in text.split(',') {
        match word.parse::<u64>() {
            Ok(number) => {
                if numbers.push(number).is_err() {
                    return false;
                }
            }
            Err(_) => return false,
        }
    }
    true
}

fn numbers_of(alloc: Global, text: &str) -> Option<Listed<u64>> {
    let mut numbers = Vec::new(alloc);
    if text == "-" || put_numbers(&mut numbers, text) {
        return Some(Listed::of(numbers));
    }
    None
}

/// A row: the table's number, its own and its value.
fn row_of(text: &str) -> Option<(Key, Value)> {
    let (table, rest) = text.split_once(' ')?;
    let (row, value) = rest.split_once(' ')?;
    let key = Key {
        table: table.parse::<u16>().ok()?,
        row: row.parse::<i64>().ok()?,
    };
    Some((key, value_of(value)?))
}

fn put_rows(rows: &mut Vec<(Key, Value)>, text: &str) -> bool {
    for row in text.split(", ") {
        match row_of(row) {
            Some(row) => {
                if rows.push(row).is_err() {
                    return false;
                }
            }
            None => return false,
        }
    }
    true
}

/// The tables with these rows; `-` for none.
pub(crate) fn tables_of(alloc: Global, text: &str) -> Option<Tables> {
    let mut rows = Vec::new(alloc);
    if text == "-" || put_rows(&mut rows, text) {
        return Some(Tables::of(rows));
    }
    None
}

/// Declarations, in which `/` stands for the end of a line; `-` for none.
fn declarations_of(alloc: Global, text: &str) -> Option<Declarations> {
    let mut bytes = Vec::from_slice(alloc, text.as_bytes()).ok()?;
    for byte in bytes.as_mut_slice().iter_mut() {
        if *byte == b'/' {
            *byte = b'\n';
        }
    }
    if text == "-" {
        bytes.clear();
    }
    parse_declarations(alloc, bytes.as_slice()).ok()
}

fn report_of(alloc: Global, fates: &str, order: &str, rows: &str) -> Option<RunReport> {
    let fates = fates_of(alloc, fates)?;
    let order = numbers_of(alloc, order)?;
    let tables = tables_of(alloc, rows)?;
    Some(RunReport {
        acks: Acks::new(alloc),
        fates,
        order,
        tables,
    })
}

/// The text of a report, where the disk of a stream failed or none did.
fn has_text(
    alloc: Global,
    declared: &Declarations,
    report: &RunReport,
    disk: Option<u8>,
    text: &str,
) -> bool {
    match report_text(alloc, declared, report, disk) {
        Ok(found) => are_lines(found.as_slice(), text),
        Err(_) => false,
    }
}

fn disk_of(word: &str) -> Option<Option<u8>> {
    if word == "-" {
        return Some(None);
    }
    Some(Some(word.parse::<u8>().ok()?))
}

/// Whether a report has this text: declarations, what became of each call, the order of the calls, the rows, and the
/// stream whose disk failed.
pub(crate) fn reports(alloc: Global, given: &str, text: &str) -> bool {
    let mut fields = given.split(" | ");
    let (Some(declared), Some(fates), Some(order)) = (fields.next(), fields.next(), fields.next())
    else {
        return false;
    };
    let (Some(rows), Some(disk), None) = (fields.next(), fields.next(), fields.next()) else {
        return false;
    };
    let (Some(declared), Some(disk)) = (declarations_of(alloc, declared), disk_of(disk)) else {
        return false;
    };
    match report_of(alloc, fates, order, rows) {
        Some(report) => has_text(alloc, &declared, &report, disk, text),
        None => false,
    }
}

fn are_shown(alloc: Global, declared: &Declarations, tables: &Tables, text: &str) -> bool {
    match table_text(alloc, declared, tables) {
        Ok(found) => are_lines(found.as_slice(), text),
        Err(_) => false,
    }
}

/// Whether tables have this text: declarations and rows.
pub(crate) fn shows(alloc: Global, given: &str, text: &str) -> bool {
    let Some((declared, rows)) = given.split_once(" | ") else {
        return false;
    };
    match (declarations_of(alloc, declared), tables_of(alloc, rows)) {
        (Some(declared), Some(tables)) => are_shown(alloc, &declared, &tables, text),
        _ => false,
    }
}

/// The vector with these positions, of so many streams.
fn vector_of(positions: &str, width: usize) -> Option<Lv> {
    if width == 0 || width > MAX_STREAMS {
        return None;
    }
    let mut vector = Lv::zero(width);
    for (j, word) in positions.split(',').enumerate() {
        let lsn = word.parse::<u64>().ok()?;
        if j >= vector.width() || lsn >= MAX_LSN {
            return None;
        }
        vector.set(j, lsn);
    }
    Some(vector)
}

/// Whether a buffer becomes this line, whatever stood in it.
fn becomes(line: &mut Vec<u8>, number: u64, vector: &Lv, text: &str) -> bool {
    ack_line(line, number, vector).is_ok() && are_lines(line.as_slice(), text)
}

/// Whether the acknowledgement of a call has this line: the call's number and its vector.
pub(crate) fn acks(alloc: Global, given: &str, text: &str) -> bool {
    let Some((number, positions)) = given.split_once(' ') else {
        return false;
    };
    let Ok(number) = number.parse::<u64>() else {
        return false;
    };
    let Some(vector) = vector_of(positions, positions.split(',').count()) else {
        return false;
    };
    let Ok(mut line) = Vec::from_slice(alloc, b"what stood there") else {
        return false;
    };
    becomes(&mut line, number, &vector, text) && becomes(&mut line, number, &vector, text)
}

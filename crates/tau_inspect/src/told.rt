//! Reading the lines of a report, without the byte at their end. Each reader returns what the line says, and none if it is
//! no such line.
ghost use Rattle.std.specs.Prelude.{ℕ, ◌≡◌, ◌≤◌, length, ◌↔◌, ◌++◌, ◌∷◌, List, IfOk, OnOk, IsTrue, MatchOption, codes, decimal};
ghost use Rattle.tau_inspect.specs.Bodies.{order_body, fate_body, end_body, ack_body, keyed_body, row_body, IsEnd, IsAck, IsKeyed};
ghost use Rattle.tau_inspect.specs.Reading.{Reads, if_found};
ghost use Rattle.tau_inspect.specs.ReportFor.{IsCall, IsFate, IsRow};
ghost use Rattle.tau_inspect.specs.RunText.{AreNames};
ghost use Rattle.tau_model.specs.Tables.{is_value};

use crate::parts::{cut_at, read_vector};
use crate::words::{after, read_plain, read_reply, read_value, read_whole};
use itoa::Buffer;
use tau_base::{Key, Lv, MAX_TABLES, Name, NoMemory, Value};
use tau_report::Fate;
use tau_text::{LineRefusal, known_table};

/// The number of one of so many calls.
fn read_call(word: &[u8], calls: u32) -> Result<Option<u64>, NoMemory>
    ensures { IfOk result (Reads decimal (IsCall calls) word.now) }
{
    match read_plain(word) {
        Err(_) => Err(NoMemory),
        Ok(None) => Ok(None),
        Ok(Some(number)) => {
            if number < 1 {
                return Ok(None);
            }
            if number > u64::from(calls) {
                return Ok(None);
            }
            Ok(Some(number))
        }
    }
}

/// A call of the history.
pub fn read_order(line: &[u8], calls: u32) -> Result<Option<u64>, NoMemory>
    ensures { IfOk result (Reads order_body (IsCall calls) line.now) }
{
    match after(line, b"order ") {
        None => Ok(None),
        Some(word) => read_call(word, calls),
    }
}

/// The end, with the stream whose disk failed.
pub fn read_end(line: &[u8], streams: u8) -> Result<Option<Option<u8>>, NoMemory>
    ensures { IfOk result (Reads end_body (IsEnd streams) line.now) }
{
    match after(line, b"end 0") {
        Some(rest) => {
            if rest.is_empty() {
                Ok(Some(None))
            } else {
                Ok(None)
            }
        }
        None => match after(line, b"end 6 ") {
            None => Ok(None),
            Some(word) => read_failed(word, streams),
        },
    }
}

/// The stream whose disk failed.
fn read_failed(word: &[u8], streams: u8) -> Result<Option<Option<u8>>, NoMemory>
    ensures { IfOk result (Reads end_body (IsEnd streams) (codes "end 6 " ++ word.now)) }
{
    match read_plain(word) {
        Err(_) => Err(NoMemory),
        Ok(None) => Ok(None),
        Ok(Some(stream)) => {
            if stream >= u64::from(streams) {
                return Ok(None);
            }
            Ok(Some(Some(stream as u8)))
        }
    }
}

/// What comes after a number and a space.
fn after_number<'a>(text: &'a [u8], number: u64) -> Option<&'a [u8]>
    ensures { MatchOption result ((rest : List ℕ) → text.now ≡ decimal number ++ 32 ∷ rest → ⊥) (λ rest. text.now ≡ decimal number ++ 32 ∷ rest.now) }
{
    let mut buffer = Buffer::new();
    match after(text, buffer.format(number).as_bytes()) {
        None => None,
        Some(rest) => after(rest, b" "),
    }
}

/// Whether a text is a number.
fn is_number(text: &[u8], number: u64) -> bool
    ensures { IsTrue result ↔ (text.now ≡ decimal number) }
{
    let mut buffer = Buffer::new();
    match after(text, buffer.format(number).as_bytes()) {
        None => false,
        Some(rest) => rest.is_empty(),
    }
}

/// What became of the call with this number.
pub fn read_fate(line: &[u8], number: u64) -> Result<Option<Fate>, NoMemory>
    ensures { IfOk result (Reads (fate_body number) IsFate line.now) }
{
    match after(line, b"reply ") {
        Some(rest) => read_acked(rest, number),
        None => match after(line, b"unsure ") {
            Some(rest) => read_unsure(rest, number),
            None => match after(line, b"unrun ") {
                Some(rest) => {
                    if is_number(rest, number) {
                        Ok(Some(Fate::Unrun))
                    } else {
                        Ok(None)
                    }
                }
                None => Ok(None),
            },
        },
    }
}

/// A call that is acknowledged.
fn read_acked(rest: &[u8], number: u64) -> Result<Option<Fate>, NoMemory>
    ensures { IfOk result (Reads (fate_body number) IsFate (codes "reply " ++ rest.now)) }
{
    match after_number(rest, number) {
        None => Ok(None),
        Some(text) => match read_reply(text) {
            Err(_) => Err(NoMemory),
            Ok(None) => Ok(None),
            Ok(Some(reply)) => Ok(Some(Fate::Acked(reply))),
        },
    }
}

/// A call that committed, and of which nobody was told.
fn read_unsure(rest: &[u8], number: u64) -> Result<Option<Fate>, NoMemory>
    ensures { IfOk result (Reads (fate_body number) IsFate (codes "unsure " ++ rest.now)) }
{
    match after_number(rest, number) {
        None => Ok(None),
        Some(text) => match read_reply(text) {
            Err(_) => Err(NoMemory),
            Ok(None) => Ok(None),
            Ok(Some(reply)) => Ok(Some(Fate::Unsure(reply))),
        },
    }
}

/// An acknowledged call.
#[derive(Debug, Drop)]
pub struct AckLine {
    /// Its number.
    pub number: u64,
    /// Its vector.
    pub lv: Lv,
}

/// What comes after the word of an acknowledgement.
fn read_acknowledged(rest: &[u8], calls: u32, ack: &mut AckLine) -> Result<bool, NoMemory>
    ensures wide { OnOk result (length ack.new.lv ≡ length ack.old.lv) }
    ensures read { IfOk result (λ found. Reads ack_body (IsAck calls (length ack.old.lv)) (codes "ack " ++ rest.now) (if_found found ack.new)) }
{
    match cut_at(rest, b' ') {
        None => Ok(false),
        Some(i) => match read_call(&rest[..i], calls) {
            Err(_) => Err(NoMemory),
            Ok(None) => Ok(false),
            Ok(Some(number)) => {
                ack.number = number;
                read_vector(&rest[i + 1..], &mut ack.lv)
            }
        },
    }
}

/// Reads an acknowledged call into a place, with a vector as wide as the place has. Returns whether the line is one. If it
/// is not, the place may have changed.
pub fn read_ack(line: &[u8], calls: u32, ack: &mut AckLine) -> Result<bool, NoMemory>
    ensures wide { OnOk result (length ack.new.lv ≡ length ack.old.lv) }
    ensures read { IfOk result (λ found. Reads ack_body (IsAck calls (length ack.old.lv)) line.now (if_found found ack.new)) }
{
    match after(line, b"ack ") {
        None => Ok(false),
        Some(rest) => read_acknowledged(rest, calls, ack),
    }
}

/// Whether a row is there.
fn is_present(value: &Value) -> bool
    ensures { result ≡ is_value value.now }
{
    match value {
        Value::Absent => false,
        _ => true,
    }
}

/// A row's number and its value.
fn read_keyed(text: &[u8]) -> Result<Option<(i64, Value)>, NoMemory>
    ensures { IfOk result (Reads keyed_body IsKeyed text.now) }
{
    match cut_at(text, b' ') {
        None => Ok(None),
        Some(i) => match read_whole(&text[..i]) {
            Err(_) => Err(NoMemory),
            Ok(None) => Ok(None),
            Ok(Some(row)) => match read_value(&text[i + 1..]) {
                Err(_) => Err(NoMemory),
                Ok(None) => Ok(None),
                Ok(Some(value)) => {
                    if is_present(&value) {
                        Ok(Some((row, value)))
                    } else {
                        Ok(None)
                    }
                }
            },
        },
    }
}

/// What comes after the word of a row.
fn read_named(rest: &[u8], tables: &[Name]) -> Result<Option<(Key, Value)>, NoMemory>
    requires few { length tables.now ≤ MAX_TABLES }
    requires names { AreNames tables.now }
    ensures { IfOk result (Reads (row_body tables.now) (IsRow (length tables.now)) (codes "row " ++ rest.now)) }
{
    match cut_at(rest, b' ') {
        None => Ok(None),
        Some(i) => match known_table(tables, &rest[..i]) {
            Err(LineRefusal::Memory) => Err(NoMemory),
            Err(LineRefusal::Cause(_)) => Ok(None),
            Ok(table) => match read_keyed(&rest[i + 1..]) {
                Err(_) => Err(NoMemory),
                Ok(None) => Ok(None),
                Ok(Some((row, value))) => Ok(Some((Key { table, row }, value))),
            },
        },
    }
}

/// A present row of a declared table.
pub fn read_row(line: &[u8], tables: &[Name]) -> Result<Option<(Key, Value)>, NoMemory>
    requires few { length tables.now ≤ MAX_TABLES }
    requires names { AreNames tables.now }
    ensures { IfOk result (Reads (row_body tables.now) (IsRow (length tables.now)) line.now) }
{
    match after(line, b"row ") {
        None => Ok(None),
        Some(rest) => read_named(rest, tables),
    }
}

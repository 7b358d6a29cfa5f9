//! Reading the words of a report's lines. Each reader returns what the bytes spell, and none if they
//! spell nothing of its kind.
ghost use Rattle.std.specs.Prelude.{ℕ, ◌≡◌, ◌↔◌, ◌++◌, List, IfOk, IsTrue, MatchOption, true, codes, decimal};
ghost use Rattle.std.specs.Fmt.{signed_decimal};
ghost use Rattle.tau_proc.specs.Meaning.{is_i64};
ghost use Rattle.tau_report.specs.Lines.{value_text, reply_text};
ghost use Rattle.tau_inspect.specs.Reading.{Reads, IsSmall};
ghost use Rattle.tau_inspect.specs.ReportFor.{HasSpelling, IsReply};

use tau_base::{MAX_STEPS, NoMemory, Value};
use tau_proc::Reply;
use tau_text::{LineRefusal, literal, whole};

/// A whole number.
pub fn read_whole(word: &[u8]) -> Result<Option<i64>, NoMemory>
    ensures { IfOk result (Reads signed_decimal (λ z. is_i64 z ≡ true) word.now) }
{
    match whole(word) {
        Ok(z) => Ok(Some(z)),
        Err(LineRefusal::Memory) => Err(NoMemory),
        Err(LineRefusal::Cause(_)) => Ok(None),
    }
}

/// A number from 0 up.
pub fn read_plain(word: &[u8]) -> Result<Option<u64>, NoMemory>
    ensures { IfOk result (Reads decimal IsSmall word.now) }
{
    match whole(word) {
        Ok(z) => {
            if z < 0 {
                return Ok(None);
            }
            Ok(Some(z as u64))
        }
        Err(LineRefusal::Memory) => Err(NoMemory),
        Err(LineRefusal::Cause(_)) => Ok(None),
    }
}

/// What comes after these first bytes, if a text begins with them.
#[inline(always)]
pub fn after<'a>(text: &'a [u8], first: &[u8]) -> Option<&'a [u8]>
    ensures { MatchOption result ((rest : List ℕ) → text.now ≡ first.now ++ rest → ⊥) (λ rest. text.now ≡ first.now ++ rest.now) }
{
    if text.len() < first.len() {
        return None;
    }
    for i in 0..first.len() {
        if text[i] != first[i] {
            return None;
        }
    }
    Some(&text[first.len()..])
}

/// Whether two texts are the same.
fn is_text(text: &[u8], other: &[u8]) -> bool
    ensures { IsTrue result ↔ (text.now ≡ other.now) }
{
    if text.len() != other.len() {
        return false;
    }
    for i in 0..text.len() {
        if text[i] != other[i] {
            return false;
        }
    }
    true
}

/// A whole number, as a value.
fn read_int(word: &[u8]) -> Result<Option<Value>, NoMemory>
    ensures { IfOk result (Reads value_text HasSpelling (codes "int " ++ word.now)) }
{
    match read_whole(word) {
        Err(_) => Err(NoMemory),
        Ok(None) => Ok(None),
        Ok(Some(z)) => Ok(Some(Value::Int(z))),
    }
}

/// A text between quotes.
fn read_text(word: &[u8]) -> Result<Option<Value>, NoMemory>
    ensures { IfOk result (Reads value_text HasSpelling (codes "text " ++ word.now)) }
{
    match literal(word) {
        Err(LineRefusal::Memory) => Err(NoMemory),
        Err(LineRefusal::Cause(_)) => Ok(None),
        Ok(Value::Absent) => Ok(None),
        Ok(Value::Int(_)) => Ok(None),
        Ok(Value::Text(t)) => Ok(Some(Value::Text(t))),
    }
}

/// A value.
pub fn read_value(text: &[u8]) -> Result<Option<Value>, NoMemory>
    ensures { IfOk result (Reads value_text HasSpelling text.now) }
{
    match after(text, b"int ") {
        Some(word) => read_int(word),
        None => match after(text, b"text ") {
            Some(word) => read_text(word),
            None => {
                if is_text(text, b"none") {
                    Ok(Some(Value::Absent))
                } else {
                    Ok(None)
                }
            }
        },
    }
}

/// The step that refused.
fn read_step(word: &[u8]) -> Result<Option<Reply>, NoMemory>
    ensures { IfOk result (Reads reply_text IsReply (codes "refused " ++ word.now)) }
{
    match read_plain(word) {
        Err(_) => Err(NoMemory),
        Ok(None) => Ok(None),
        Ok(Some(step)) => {
            if step < 1 {
                return Ok(None);
            }
            if step > MAX_STEPS as u64 {
                return Ok(None);
            }
            Ok(Some(Reply::Refused(step as u16)))
        }
    }
}

/// A value that is replied.
fn read_replied(text: &[u8]) -> Result<Option<Reply>, NoMemory>
    requires { (rest : List ℕ) → text.now ≡ codes "refused " ++ rest → ⊥ }
    ensures { IfOk result (Reads reply_text IsReply text.now) }
{
    match read_value(text) {
        Err(_) => Err(NoMemory),
        Ok(None) => Ok(None),
        Ok(Some(value)) => Ok(Some(Reply::Ok(value))),
    }
}

/// A reply.
pub fn read_reply(text: &[u8]) -> Result<Option<Reply>, NoMemory>
    ensures { IfOk result (Reads reply_text IsReply text.now) }
{
    match after(text, b"refused ") {
        Some(word) => read_step(word),
        None => read_replied(text),
    }
}

//! How words are spelled.
ghost use Rattle.std.specs.Prelude.{true, IfSome, IfOk, OnOk, IsTrue, List, ◌≡◌, ◌↔◌, ◌≤◌, ◌^◌, ◌-◌, ◌*◌, ◌<◌, ◌&&◌, ℕ, Option, Some, None, ◌+◌, length, option_and_then, option_map, map, take, pos, ◌+ℤ◌, bytes_eq};
ghost use Rattle.std.specs.List.{list_all};
ghost use Rattle.std.specs.Str.{is_utf8};
ghost use Rattle.tau_proc.specs.Limits.{is_register, operand_fits};
ghost use Rattle.tau_text.specs.Forms.{names_of};
ghost use Rattle.tau_text.specs.Given.{Gives, or_else};
ghost use Rattle.tau_text.specs.Spelled.{is_digit, is_letter, is_name_byte, is_text_byte, is_named, name, digits_after, at_most, magnitude, number, whole, count, index, place_from, known, new_name, unquoted, quoted, literal, register, argument, operand, compare, turn, begins_with, constant};

use crate::fault::{LineRefusal, TextCause};
use crate::load::Turn;
use std::str;
use tau_base::{MAX_ARGS, MAX_NAME, MAX_TABLES, Name, REGISTERS, TURN_ACTORS, Text64, Value};
use tau_proc::{Compare, Operand, Proc};

pub fn is_digit(b: u8) -> bool
    ensures { result ≡ is_digit b }
{
    b >= b'0' && b <= b'9'
}

fn is_letter(b: u8) -> bool
    ensures { result ≡ is_letter b }
{
    b >= b'a' && b <= b'z'
}

fn is_name_byte(b: u8) -> bool
    ensures { result ≡ is_name_byte b }
{
    is_letter(b) || is_digit(b) || b == b'_'
}

fn is_text_byte(b: u8) -> bool
    ensures { result ≡ is_text_byte b }
{
    b >= b' ' && b != b'"' && b != b'\\' && b != 127
}

fn are_name_bytes(bytes: &[u8]) -> bool
    ensures { result ≡ list_all is_name_byte bytes.now }
{
    bytes.iter().all(|b| is_name_byte(*b))
}

fn are_text_bytes(bytes: &[u8]) -> bool
    ensures { result ≡ list_all is_text_byte bytes.now }
{
    bytes.iter().all(|b| is_text_byte(*b))
}

fn is_named(word: &[u8]) -> bool
    ensures { result ≡ is_named word.now }
{
    match word {
        [] => false,
        [b, rest @ ..] => is_letter(*b) && are_name_bytes(rest),
    }
}

pub fn begins_with(c: u8, word: &[u8]) -> bool
    ensures { result ≡ begins_with c word.now }
{
    match word {
        [] => false,
        [b, ..] => *b == c,
    }
}

/// The number that digits spell, of so few that it fits.
#[inline(always)]
#[tactic(auto, unfolding(crate::specs::Spelled::digits_after))]
fn few_digits(word: &[u8]) -> Option<u64>
    requires { length word.now ≤ 18 }
    ensures value { result ≡ digits_after 0 word.now }
    ensures small { IfSome result (λ n. n < 10 ^ 18) }
{
    let mut value: u64 = 0;
    for b in word {
        if !is_digit(*b) {
            return None;
        }
        value = value * 10 + u64::from(*b - b'0');
    }
    Some(value)
}

/// The number that digits spell, up to 2^63.
#[inline(never)]
#[tactic(auto, unfolding(crate::specs::Spelled::digits_after))]
fn many_digits(word: &[u8], top: u64) -> Option<u64>
    requires { top ≤ 2 ^ 63 }
    ensures value { result ≡ option_and_then (at_most top) (digits_after 0 word.now) }
    ensures small { IfSome result (λ n. n ≤ top) }
{
    let mut value: u64 = 0;
    for b in word {
        if !is_digit(*b) {
            return None;
        }
        let more = u128::from(value) * 10 + u128::from(*b - b'0');
        if more > u128::from(top) {
            return None;
        }
        value = more as u64;
    }
    Some(value)
}

/// The same. Digits as few as most numbers have need no test for each whether their number fits.
fn digits_of(word: &[u8], top: u64) -> Option<u64>
    requires { top ≤ 2 ^ 63 }
    ensures value { result ≡ option_and_then (at_most top) (digits_after 0 word.now) }
    ensures small { IfSome result (λ n. n ≤ top) }
{
    if word.len() > 18 {
        return many_digits(word, top);
    }
    match few_digits(word) {
        None => None,
        Some(n) => { if n > top { None } else { Some(n) } }
    }
}

#[tactic(auto, unfolding(crate::specs::Spelled::magnitude))]
fn magnitude(top: u64, word: &[u8]) -> Option<u64>
    requires { top ≤ 2 ^ 63 }
    ensures value { result ≡ magnitude top word.now }
    ensures small { IfSome result (λ n. n ≤ top) }
{
    match word {
        [] => None,
        [b'0', ..] => None,
        [..] => digits_of(word, top),
    }
}

#[tactic(auto, unfolding(crate::specs::Spelled::number))]
fn number(word: &[u8]) -> Option<i64>
    ensures { result ≡ number word.now }
{
    match word {
        [] => None,
        [b'-', rest @ ..] => match magnitude(9_223_372_036_854_775_808, rest) {
            None => None,
            Some(n) => Some((0 - i128::from(n)) as i64),
        },
        [b'0'] => Some(0),
        [..] => match magnitude(9_223_372_036_854_775_807, word) {
            None => None,
            Some(n) => Some(n as i64),
        },
    }
}

#[tactic(auto, unfolding(crate::specs::Spelled::whole))]
pub fn whole(word: &[u8]) -> Result<i64, LineRefusal>
    ensures { Gives (λ z. z) result (whole word.now) }
{
    match number(word) {
        Some(z) => Ok(z),
        None => Err(LineRefusal::Cause(TextCause::BadNumber)),
    }
}

#[tactic(auto, unfolding(crate::specs::Spelled::count))]
pub fn count(word: &[u8]) -> Result<u8, LineRefusal>
    ensures given { Gives (λ n. n) result (count word.now) }
    ensures few { IfOk result (λ n. n ≤ MAX_ARGS) }
{
    let n = whole(word)?;
    if n < 0 {
        return Err(LineRefusal::Cause(TextCause::BadNumber));
    }
    if n > 8 {
        return Err(LineRefusal::Cause(TextCause::TooMany));
    }
    Ok(n as u8)
}

/// A number from 0 up that is below the limit.
#[tactic(auto, unfolding(crate::specs::Spelled::index))]
fn index(limit: u8, word: &[u8]) -> Option<u8>
    ensures value { result ≡ index limit word.now }
    ensures small { IfSome result (λ n. n < limit) }
{
    match number(word) {
        None => None,
        Some(n) => {
            if n < 0 || n >= i64::from(limit) {
                None
            } else {
                Some(n as u8)
            }
        }
    }
}

/// Whether a word is spelled as a name.
#[tactic(auto, unfolding(crate::specs::Spelled::name))]
fn check_name(word: &[u8]) -> Result<(), LineRefusal>
    ensures given { Gives (λ _. word.now) result (name word.now) }
    ensures named { OnOk result ((is_named word.now ≡ true) × (length word.now ≤ MAX_NAME)) }
{
    if !is_named(word) {
        return Err(LineRefusal::Cause(TextCause::BadStep));
    }
    if word.len() > MAX_NAME {
        return Err(LineRefusal::Cause(TextCause::TooMany));
    }
    Ok(())
}

/// The name of a word that is spelled as one.
fn kept_name(word: &[u8]) -> Name
    requires named { is_named word.now ≡ true }
    requires short { length word.now ≤ MAX_NAME }
    ensures { result ≡ word.now }
{
    let Ok(text) = str::from_utf8(word) else {
        unreachable!();
    };
    let Some(name) = Name::of(text) else {
        unreachable!();
    };
    name
}

/// Whether two texts are the same.
#[inline(always)]
fn same_bytes(name: &[u8], word: &[u8]) -> bool
    ensures { IsTrue result ↔ (name.now ≡ word.now) }
{
    if name.len() != word.len() {
        return false;
    }
    for i in 0..name.len() {
        if name[i] != word[i] {
            return false;
        }
    }
    true
}

/// Whether a name is this word. Names are short, so that their bytes are compared with no call.
#[inline(always)]
pub fn is_same(name: &[u8], word: &[u8]) -> bool
    ensures { result ≡ bytes_eq name.now word.now }
{
    same_bytes(name, word)
}

/// The number of a name in a list.
fn place_of_name(names: &[Name], word: &[u8]) -> Option<usize>
    ensures value { result ≡ place_from 0 word.now names.now }
    ensures within { IfSome result (λ i. i < length names.now) }
{
    for (i, n) in names.iter().enumerate() {
        if is_same(n.as_str().as_bytes(), word) {
            return Some(i);
        }
    }
    None
}

/// The number of a declared table.
#[inline(always)]
#[tactic(auto, unfolding(crate::specs::Spelled::known))]
pub fn known_table(tables: &[Name], word: &[u8]) -> Result<u16, LineRefusal>
    requires { length tables.now ≤ MAX_TABLES }
    ensures given { Gives (λ n. n) result (known tables.now word.now) }
    ensures declared { IfOk result (λ n. n < length tables.now) }
{
    check_name(word)?;
    match place_of_name(tables, word) {
        Some(i) => Ok(i as u16),
        None => Err(LineRefusal::Cause(TextCause::UnknownName)),
    }
}

/// A table's name that is not declared yet.
#[tactic(auto, unfolding(crate::specs::Spelled::new_name))]
pub fn new_table(tables: &[Name], word: &[u8]) -> Result<Name, LineRefusal>
    ensures { Gives (λ n. n) result (new_name tables.now word.now) }
{
    check_name(word)?;
    match place_of_name(tables, word) {
        Some(_) => Err(LineRefusal::Cause(TextCause::Twice)),
        None => Ok(kept_name(word)),
    }
}

/// What stands before the closing quote of a text.
#[tactic(auto, unfolding(crate::specs::Spelled::unquoted))]
fn unquoted(bytes: &[u8]) -> Option<&str>
    ensures { option_map (λ t. t.now) result ≡ unquoted bytes.now }
{
    let (before, end) = bytes.split_at(bytes.len().saturating_sub(1));
    if end != b"\"".as_slice() || !are_text_bytes(before) {
        return None;
    }
    match str::from_utf8(before) {
        Ok(text) => Some(text),
        Err(_) => None,
    }
}

#[tactic(auto, unfolding(crate::specs::Spelled::quoted))]
fn quoted(bytes: &[u8]) -> Result<Text64, LineRefusal>
    ensures { Gives (λ t. t) result (quoted bytes.now) }
{
    match unquoted(bytes) {
        None => Err(LineRefusal::Cause(TextCause::BadStep)),
        Some(text) => match Text64::of(text) {
            Some(t) => Ok(t),
            None => Err(LineRefusal::Cause(TextCause::TooMany)),
        },
    }
}

#[tactic(auto, unfolding(crate::specs::Spelled::literal))]
pub fn literal(word: &[u8]) -> Result<Value, LineRefusal>
    ensures { Gives (λ v. v) result (literal word.now) }
{
    match word {
        [] => Err(LineRefusal::Cause(TextCause::BadStep)),
        [b, rest @ ..] => {
            if is_digit(*b) || *b == b'-' {
                Ok(Value::Int(whole(word)?))
            } else if *b == b'"' {
                Ok(Value::Text(quoted(rest)?))
            } else if word == b"none".as_slice() {
                Ok(Value::Absent)
            } else {
                Err(LineRefusal::Cause(TextCause::BadStep))
            }
        }
    }
}

#[tactic(auto, unfolding(crate::specs::Spelled::register))]
pub fn register(word: &[u8]) -> Result<u8, LineRefusal>
    ensures given { Gives (λ r. r) result (or_else TextCause.BadStep (register word.now)) }
    ensures fits { IfOk result (λ r. IsTrue (is_register r)) }
{
    match word {
        [b'r', rest @ ..] => match index(REGISTERS as u8, rest) {
            Some(r) => Ok(r),
            None => Err(LineRefusal::Cause(TextCause::BadStep)),
        },
        [..] => Err(LineRefusal::Cause(TextCause::BadStep)),
    }
}

#[tactic(auto, unfolding(crate::specs::Spelled::argument))]
fn argument(count: u8, word: &[u8]) -> Result<u8, LineRefusal>
    requires { count ≤ MAX_ARGS }
    ensures given { Gives (λ r. r) result (or_else TextCause.BadStep (argument count word.now)) }
    ensures fits { IfOk result (λ r. (1 ≤ r) × (r ≤ count)) }
{
    match word {
        [b'$', rest @ ..] => match index(count + 1, rest) {
            Some(0) => Err(LineRefusal::Cause(TextCause::BadStep)),
            Some(k) => Ok(k),
            None => Err(LineRefusal::Cause(TextCause::BadStep)),
        },
        [..] => Err(LineRefusal::Cause(TextCause::BadStep)),
    }
}

fn constant(value: Value) -> Operand
    ensures same { result ≡ constant value }
    ensures fits { (args : ℕ) → IsTrue (operand_fits args result) }
{
    match value {
        Value::Absent => Operand::Absent,
        Value::Int(z) => Operand::Int(z),
        Value::Text(t) => Operand::Text(t),
    }
}

#[tactic(auto, unfolding(crate::specs::Spelled::operand))]
pub fn operand(count: u8, word: &[u8]) -> Result<Operand, LineRefusal>
    requires { count ≤ MAX_ARGS }
    ensures given { Gives (λ o. o) result (operand count word.now) }
    ensures fits { IfOk result (λ o. IsTrue (operand_fits count o)) }
{
    if begins_with(b'r', word) {
        Ok(Operand::Register(register(word)?))
    } else if begins_with(b'$', word) {
        Ok(Operand::Argument(argument(count, word)?))
    } else {
        Ok(constant(literal(word)?))
    }
}

#[tactic(auto, unfolding(crate::specs::Spelled::compare))]
pub fn compare(word: &[u8]) -> Result<Compare, LineRefusal>
    ensures { Gives (λ x. x) result (compare word.now) }
{
    if is_same(word, b"=") {
        Ok(Compare::Equal)
    } else if is_same(word, b"!=") {
        Ok(Compare::NotEqual)
    } else if is_same(word, b"<") {
        Ok(Compare::Less)
    } else if is_same(word, b"<=") {
        Ok(Compare::AtMost)
    } else if is_same(word, b">") {
        Ok(Compare::Greater)
    } else if is_same(word, b">=") {
        Ok(Compare::AtLeast)
    } else {
        Err(LineRefusal::Cause(TextCause::BadStep))
    }
}

#[tactic(auto, unfolding(crate::specs::Spelled::turn))]
pub fn turn(word: &[u8]) -> Result<Turn, LineRefusal>
    ensures { Gives (λ x. x) result (turn word.now) }
{
    match word {
        [] => Err(LineRefusal::Cause(TextCause::BadStep)),
        [b, rest @ ..] => {
            if *b == b'w' {
                match index(TURN_ACTORS as u8, rest) {
                    Some(i) => Ok(Turn::Worker(i)),
                    None => Err(LineRefusal::Cause(TextCause::BadStep)),
                }
            } else if *b == b'm' {
                match index(TURN_ACTORS as u8, rest) {
                    Some(i) => Ok(Turn::Manager(i)),
                    None => Err(LineRefusal::Cause(TextCause::BadStep)),
                }
            } else if *b == b'a' {
                match index(TURN_ACTORS as u8, rest) {
                    Some(i) => Ok(Turn::Anchor(i)),
                    None => Err(LineRefusal::Cause(TextCause::BadStep)),
                }
            } else if word == b"c".as_slice() {
                Ok(Turn::Clerk)
            } else if word == b"d".as_slice() {
                Ok(Turn::Drop)
            } else {
                Err(LineRefusal::Cause(TextCause::BadStep))
            }
        }
    }
}

/// The number of a name among the procedures.
fn place_of_proc(procs: &[Proc], word: &[u8]) -> Option<usize>
    ensures value { result ≡ place_from 0 word.now (names_of procs.now) }
    ensures within { IfSome result (λ i. i < length procs.now) }
{
    for (i, p) in procs.iter().enumerate() {
        if is_same(p.name.as_str().as_bytes(), word) {
            return Some(i);
        }
    }
    None
}

/// The number of a declared procedure.
#[tactic(auto, unfolding(crate::specs::Spelled::known))]
pub fn known_proc(procs: &[Proc], word: &[u8]) -> Result<usize, LineRefusal>
    ensures given { Gives (λ n. n) result (known (names_of procs.now) word.now) }
    ensures within { IfOk result (λ i. i < length procs.now) }
{
    check_name(word)?;
    match place_of_proc(procs, word) {
        Some(i) => Ok(i),
        None => Err(LineRefusal::Cause(TextCause::UnknownName)),
    }
}

/// A procedure's name that is not declared yet.
#[tactic(auto, unfolding(crate::specs::Spelled::new_name))]
pub fn new_proc(procs: &[Proc], word: &[u8]) -> Result<Name, LineRefusal>
    ensures { Gives (λ n. n) result (new_name (names_of procs.now) word.now) }
{
    check_name(word)?;
    match place_of_proc(procs, word) {
        Some(_) => Err(LineRefusal::Cause(TextCause::Twice)),
        None => Ok(kept_name(word)),
    }
}

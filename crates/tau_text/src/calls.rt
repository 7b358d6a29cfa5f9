//! The calls of a text. Each function puts the arguments of a call into an empty list, and on an error may have put some.
ghost use Rattle.std.specs.Prelude.{◌≡◌, ◌≤◌, ◌<◌, ◌+◌, Ok, [], List, length, map, slice_get, IfOk, OnOk, IfSome, IsTrue, All};
ghost use Rattle.tau_text.specs.Lines.{words};
ghost use Rattle.tau_text.specs.Given.{Gives};
ghost use Rattle.tau_text.specs.Puts.{Puts};
ghost use Rattle.tau_text.specs.Spelled.{literal};
ghost use Rattle.tau_text.specs.Forms.{key_words, put_call, add_call, key_call, call_of, number_value, literals, proc_call, args_at};
ghost use Rattle.tau_text.specs.Called.{called, numbered};
ghost use Rattle.tau_proc.specs.declared.proc.Proc.{Proc};
ghost use Rattle.tau_proc.specs.Limits.{IsWellFormed, KeepsLimits};
ghost use Rattle.tau_proc.specs.Takes.{takes, takes_put, takes_add, takes_row};

use crate::fault::{LineRefusal, TextCause};
use crate::heads::Head;
use crate::lines::{first_word, no_more};
use crate::spelled::{is_digit, known_proc, known_table, literal, whole};
use arrayvec::ArrayVec;
use tau_base::{MAX_ARGS, MAX_TABLES, Name, Value};
use tau_proc::{ADD, DEL, FIRST_DECLARED, GET, PUT, Proc};

pub type Args = ArrayVec<Value, MAX_ARGS>;

/// A table and a row, and what is after them.
#[inline(always)]
#[tactic(auto, unfolding(crate::specs::Forms::key_words))]
fn key_words<'a>(tables: &[Name], rest: &'a [u8], args: &mut Args) -> Result<&'a [u8], LineRefusal>
    requires few { length tables.now ≤ MAX_TABLES }
    requires empty { args.old.items ≡ [] }
    ensures given { Gives (λ x. (args.new.items, words x.now)) result (key_words tables.now (words rest.now)) }
    ensures two { OnOk result (length args.new.items ≡ 2) }
    ensures taken { OnOk result (IsTrue (takes_row args.new.items)) }
{
    let (word, rest) = first_word(rest)?;
    let table = known_table(tables, word)?;
    let (word, rest) = first_word(rest)?;
    let row = whole(word)?;
    args.push(Value::Int(i64::from(table)));
    args.push(Value::Int(row));
    Ok(rest)
}

/// Puts the value of a literal at the end.
#[inline(never)]
fn push_other(word: &[u8], args: &mut Args) -> Result<(), LineRefusal>
    requires room { length args.old.items < 8 }
    ensures { Puts args.old.items args.new.items result (literal word.now) }
{
    let value = literal(word)?;
    args.push(value);
    Ok(())
}

/// The same. A whole number, as most literals are, is put with no value between, since values are large.
#[tactic(auto, unfolding(crate::specs::Spelled::literal))]
fn push_literal(word: &[u8], args: &mut Args) -> Result<(), LineRefusal>
    requires room { length args.old.items < 8 }
    ensures { Puts args.old.items args.new.items result (literal word.now) }
{
    match word {
        [] => Err(LineRefusal::Cause(TextCause::BadStep)),
        [b, ..] => {
            if is_digit(*b) || *b == b'-' {
                let z = whole(word)?;
                args.push(Value::Int(z));
                Ok(())
            } else {
                push_other(word, args)
            }
        }
    }
}

/// The arguments of a `put`.
#[tactic(auto, unfolding(crate::specs::Forms::put_call), using(crate::proofs::Taken::put_taken))]
fn put_args(tables: &[Name], rest: &[u8], args: &mut Args) -> Result<(), LineRefusal>
    requires few { length tables.now ≤ MAX_TABLES }
    requires empty { args.old.items ≡ [] }
    ensures given { Gives (λ _. args.new.items) result (put_call tables.now (words rest.now)) }
    ensures taken { OnOk result (IsTrue (takes_put args.new.items)) }
{
    let rest = key_words(tables, rest, args)?;
    let (word, rest) = first_word(rest)?;
    push_literal(word, args)?;
    no_more(rest)?;
    Ok(())
}

/// The arguments of an `add`.
#[tactic(auto, unfolding(crate::specs::Forms::add_call), using(crate::proofs::Taken::add_taken))]
fn add_args(tables: &[Name], rest: &[u8], args: &mut Args) -> Result<(), LineRefusal>
    requires few { length tables.now ≤ MAX_TABLES }
    requires empty { args.old.items ≡ [] }
    ensures given { Gives (λ _. args.new.items) result (add_call tables.now (words rest.now)) }
    ensures taken { OnOk result (IsTrue (takes_add args.new.items)) }
{
    let rest = key_words(tables, rest, args)?;
    let (word, rest) = first_word(rest)?;
    let number = whole(word)?;
    no_more(rest)?;
    args.push(Value::Int(number));
    Ok(())
}

/// The arguments of a `get` and of a `del`.
#[tactic(auto, unfolding(crate::specs::Forms::key_call))]
fn key_args(tables: &[Name], rest: &[u8], args: &mut Args) -> Result<(), LineRefusal>
    requires few { length tables.now ≤ MAX_TABLES }
    requires empty { args.old.items ≡ [] }
    ensures given { Gives (λ _. args.new.items) result (key_call tables.now (words rest.now)) }
    ensures taken { OnOk result (IsTrue (takes_row args.new.items)) }
{
    let rest = key_words(tables, rest, args)?;
    no_more(rest)?;
    Ok(())
}

fn put_line(tables: &[Name], rest: &[u8], args: &mut Args) -> Result<u16, LineRefusal>
    requires few { length tables.now ≤ MAX_TABLES }
    requires empty { args.old.items ≡ [] }
    ensures given { Gives (λ p. call_of p args.new.items) result (numbered PUT (put_call tables.now (words rest.now))) }
    ensures taken { IfOk result (λ p. (procs : List Proc) → IsTrue (takes procs (call_of p args.new.items))) }
{
    put_args(tables, rest, args)?;
    Ok(PUT)
}

fn add_line(tables: &[Name], rest: &[u8], args: &mut Args) -> Result<u16, LineRefusal>
    requires few { length tables.now ≤ MAX_TABLES }
    requires empty { args.old.items ≡ [] }
    ensures given { Gives (λ p. call_of p args.new.items) result (numbered ADD (add_call tables.now (words rest.now))) }
    ensures taken { IfOk result (λ p. (procs : List Proc) → IsTrue (takes procs (call_of p args.new.items))) }
{
    add_args(tables, rest, args)?;
    Ok(ADD)
}

fn get_line(tables: &[Name], rest: &[u8], args: &mut Args) -> Result<u16, LineRefusal>
    requires few { length tables.now ≤ MAX_TABLES }
    requires empty { args.old.items ≡ [] }
    ensures given { Gives (λ p. call_of p args.new.items) result (numbered GET (key_call tables.now (words rest.now))) }
    ensures taken { IfOk result (λ p. (procs : List Proc) → IsTrue (takes procs (call_of p args.new.items))) }
{
    key_args(tables, rest, args)?;
    Ok(GET)
}

fn del_line(tables: &[Name], rest: &[u8], args: &mut Args) -> Result<u16, LineRefusal>
    requires few { length tables.now ≤ MAX_TABLES }
    requires empty { args.old.items ≡ [] }
    ensures given { Gives (λ p. call_of p args.new.items) result (numbered DEL (key_call tables.now (words rest.now))) }
    ensures taken { IfOk result (λ p. (procs : List Proc) → IsTrue (takes procs (call_of p args.new.items))) }
{
    key_args(tables, rest, args)?;
    Ok(DEL)
}

/// The next so many words, each a literal.
fn literals<'a>(n: u8, rest: &'a [u8], args: &mut Args) -> Result<&'a [u8], LineRefusal>
    requires few { n ≤ MAX_ARGS }
    requires empty { args.old.items ≡ [] }
    ensures given { Gives (λ x. (args.new.items, words x.now)) result (literals n (words rest.now)) }
    ensures all { OnOk result (length args.new.items ≡ n) }
{
    let mut rest = rest;
    for _ in 0..n {
        let (word, after) = first_word(rest)?;
        push_literal(word, args)?;
        rest = after;
    }
    Ok(rest)
}

/// A call of a declared procedure.
#[tactic(auto, unfolding(crate::specs::Forms::proc_call))]
fn declared_line(procs: &[Proc], rest: &[u8], args: &mut Args) -> Result<u16, LineRefusal>
    requires limits { KeepsLimits procs.now }
    requires empty { args.old.items ≡ [] }
    ensures given { Gives (λ p. call_of p args.new.items) result (proc_call procs.now (words rest.now)) }
    ensures taken { IfOk result (λ p. IsTrue (takes procs.now (call_of p args.new.items))) }
{
    let (word, rest) = first_word(rest)?;
    let i = known_proc(procs, word)?;
    let rest = literals(args_of(procs, i), rest, args)?;
    no_more(rest)?;
    Ok(FIRST_DECLARED + i as u16)
}

/// How many arguments the procedure at a place takes.
#[tactic(auto, using(crate::proofs::Literals::args_there))]
pub fn args_of(procs: &[Proc], i: usize) -> u8
    requires there { i < length procs.now }
    requires limits { All IsWellFormed procs.now }
    ensures value { result ≡ args_at i procs.now }
    ensures few { result ≤ MAX_ARGS }
    ensures declared { IfSome (slice_get procs.now i) (λ p. p.args ≡ result) }
{
    procs[i].args
}

/// The number of the procedure that a line calls, by its first word.
#[inline(always)]
#[tactic(auto, unfolding(crate::specs::Called::called))]
pub fn call_line(
    tables: &[Name],
    procs: &[Proc],
    head: Head,
    rest: &[u8],
    args: &mut Args,
) -> Result<u16, LineRefusal>
    requires few { length tables.now ≤ MAX_TABLES }
    requires limits { KeepsLimits procs.now }
    requires empty { args.old.items ≡ [] }
    ensures given { Gives (λ p. call_of p args.new.items) result (called tables.now procs.now head (words rest.now)) }
    ensures taken { IfOk result (λ p. IsTrue (takes procs.now (call_of p args.new.items))) }
{
    match head {
        Head::Put => put_line(tables, rest, args),
        Head::Add => add_line(tables, rest, args),
        Head::Get => get_line(tables, rest, args),
        Head::Del => del_line(tables, rest, args),
        Head::Call => declared_line(procs, rest, args),
        Head::Table => Err(LineRefusal::Cause(TextCause::UnknownWord)),
        Head::Proc => Err(LineRefusal::Cause(TextCause::UnknownWord)),
        Head::Turns => Err(LineRefusal::Cause(TextCause::UnknownWord)),
    }
}

//! Lines of calls, read in one pass if they are spelled as most are. That nothing is found tells nothing of a line: another
//! reader goes through it.
ghost use Rattle.std.specs.Prelude.{ℕ, ◌≡◌, ◌<◌, ◌≤◌, ◌+◌, ◌-◌, ◌^◌, ◌++◌, ◌∷◌, [], List, IfSome, IsTrue, MatchOption, Some, length, pos, take};
ghost use Rattle.tau_base.specs.declared.value.Value.TheVariants.{Int};
ghost use Rattle.tau_proc.specs.declared.proc.Proc.{Proc};
ghost use Rattle.tau_proc.specs.Limits.{KeepsLimits};
ghost use Rattle.tau_proc.specs.Takes.{takes, takes_put, takes_add, takes_row};
ghost use Rattle.tau_text.specs.declared.heads.Head.TheVariants.{Put, Add, Get, Del, Call as Called};
ghost use Rattle.tau_text.specs.Called.{called};
ghost use Rattle.tau_text.specs.Forms.{names_of, put_call, add_call, key_call, literals};
ghost use Rattle.tau_text.specs.Quick.{AreNames, AreNamed, IsNumbered, IsDeclared, IsRead, IsCallLine};
ghost use Rattle.tau_text.specs.Spelled.{digits_after};

use crate::calls::{Args, args_of};
use tau_base::{Call, MAX_ARGS, MAX_TABLES, Name, Value};
use tau_proc::{ADD, DEL, FIRST_DECLARED, GET, PUT, Proc};

/// What comes after this word and the space after it, if a text begins with them.
#[inline(always)]
fn behind_word<'a>(text: &'a [u8], word: &[u8]) -> Option<&'a [u8]>
    ensures { MatchOption result ((rest : List ℕ) → text.now ≡ word.now ++ 32 ∷ rest → ⊥) (λ rest. text.now ≡ word.now ++ 32 ∷ rest.now) }
{
    if text.len() <= word.len() {
        return None;
    }
    for i in 0..word.len() {
        if text[i] != word[i] {
            return None;
        }
    }
    if text[word.len()] != b' ' {
        return None;
    }
    Some(&text[word.len() + 1..])
}

/// The number that so many digits spell with which a text begins, if they begin as a number does and this byte comes after
/// them; and what comes after that.
#[inline(always)]
fn spelled(text: &[u8], count: usize, value: u64, end: u8) -> Option<(u64, &[u8])>
    requires within { count < length text.now }
    requires few { value < 10 ^ 18 }
    requires read { digits_after 0 (take count text.now) ≡ Some value }
    ensures { IfSome result (λ a. IsNumbered text.now end a.0 a.1.now) }
{
    if count == 0 {
        return None;
    }
    if text[count] != end {
        return None;
    }
    if count == 1 {
        return Some((value, &text[2..]));
    }
    if text[0] == b'0' {
        return None;
    }
    Some((value, &text[count + 1..]))
}

/// The number with which a text begins, if it has at most 17 digits and no minus, and if this byte comes after it; and what
/// comes after that. A text of fewer than 18 bytes is left to another reader, so that no digit is tested for the end of the
/// text.
#[inline(always)]
fn number(text: &[u8], end: u8) -> Option<(u64, &[u8])>
    ensures { IfSome result (λ a. IsNumbered text.now end a.0 a.1.now) }
{
    if text.len() < 18 {
        return None;
    }
    let mut value: u64 = 0;
    for i in 0..18 {
        let byte = text[i];
        if byte < b'0' || byte > b'9' {
            return spelled(text, i, value, end);
        }
        value = value * 10 + u64::from(byte) - 48;
    }
    None
}

/// The number of the table whose name a text begins with, with a space after it, and what comes after that.
#[inline(always)]
fn table<'a>(tables: &[Name], text: &'a [u8]) -> Option<(usize, &'a [u8])>
    requires names { AreNames tables.now }
    ensures { IfSome result (λ a. IsDeclared tables.now text.now a.0 a.1.now) }
{
    for (i, n) in tables.iter().enumerate() {
        if let Some(rest) = behind_word(text, n.as_str().as_bytes()) {
            return Some((i, rest));
        }
    }
    None
}

/// The same of the procedures.
#[inline(always)]
fn declared<'a>(procs: &[Proc], text: &'a [u8]) -> Option<(usize, &'a [u8])>
    requires names { AreNamed procs.now }
    ensures read { IfSome result (λ a. IsDeclared (names_of procs.now) text.now a.0 a.1.now) }
    ensures within { IfSome result (λ a. a.0 < length procs.now) }
{
    for (i, p) in procs.iter().enumerate() {
        if let Some(rest) = behind_word(text, p.name.as_str().as_bytes()) {
            return Some((i, rest));
        }
    }
    None
}

/// A number as a value.
#[inline(always)]
fn value_of(number: u64) -> Value
    requires { number < 2 ^ 63 }
    ensures { result ≡ Int (pos number) }
{
    Value::Int(number as i64)
}

/// Puts a number at a place of the arguments. Those before stay.
#[inline(always)]
fn keep(args: &mut Args, place: usize, number: u64)
    requires room { place < MAX_ARGS }
    requires within { place ≤ length args.old.items }
    requires small { number < 2 ^ 63 }
    ensures kept { take (place + 1) args.new.items ≡ take place args.old.items ++ Int (pos number) ∷ [] }
    ensures within { place + 1 ≤ length args.new.items }
{
    let value = value_of(number);
    if place < args.len() {
        args.as_mut_slice()[place] = value;
        return;
    }
    args.push(value);
}

/// These are the arguments: a table, a row and a number.
#[inline(always)]
fn set_three(args: &mut Args, table: usize, row: u64, number: u64)
    requires table { table < 2 ^ 63 }
    requires row { row < 2 ^ 63 }
    requires number { number < 2 ^ 63 }
    ensures { args.new.items ≡ Int (pos table) ∷ Int (pos row) ∷ Int (pos number) ∷ [] }
{
    keep(args, 0, table as u64);
    keep(args, 1, row);
    keep(args, 2, number);
    args.truncate(3);
}

/// These are the arguments: a table and a row.
#[inline(always)]
fn set_two(args: &mut Args, table: usize, row: u64)
    requires table { table < 2 ^ 63 }
    requires row { row < 2 ^ 63 }
    ensures { args.new.items ≡ Int (pos table) ∷ Int (pos row) ∷ [] }
{
    keep(args, 0, table as u64);
    keep(args, 1, row);
    args.truncate(2);
}

/// A table, a row and a number, and what comes after their line.
#[inline(always)]
fn three<'a>(tables: &[Name], text: &'a [u8], args: &mut Args) -> Option<&'a [u8]>
    requires few { length tables.now ≤ MAX_TABLES }
    requires names { AreNames tables.now }
    ensures put { IfSome result (λ rest. IsRead (put_call tables.now) text.now args.new.items rest.now) }
    ensures add { IfSome result (λ rest. IsRead (add_call tables.now) text.now args.new.items rest.now) }
    ensures taken { IfSome result (λ _. IsTrue (takes_put args.new.items) × IsTrue (takes_add args.new.items)) }
{
    let (table, rest) = table(tables, text)?;
    let (row, rest) = number(rest, b' ')?;
    let (number, rest) = number(rest, b'\n')?;
    set_three(args, table, row, number);
    Some(rest)
}

/// A table and a row, and what comes after their line.
#[inline(always)]
fn two<'a>(tables: &[Name], text: &'a [u8], args: &mut Args) -> Option<&'a [u8]>
    requires few { length tables.now ≤ MAX_TABLES }
    requires names { AreNames tables.now }
    ensures read { IfSome result (λ rest. IsRead (key_call tables.now) text.now args.new.items rest.now) }
    ensures taken { IfSome result (λ _. IsTrue (takes_row args.new.items)) }
{
    let (table, rest) = table(tables, text)?;
    let (row, rest) = number(rest, b'\n')?;
    set_two(args, table, row);
    Some(rest)
}

/// So many numbers, and what comes after their line.
#[inline(always)]
fn numbers<'a>(count: u8, text: &'a [u8], args: &mut Args) -> Option<&'a [u8]>
    requires few { count ≤ MAX_ARGS }
    ensures read { IfSome result (λ rest. IsRead (literals count) text.now (args.new.items, []) rest.now) }
    ensures all { IfSome result (λ _. length args.new.items ≡ count) }
{
    if count == 0 {
        return None;
    }
    let last = count as usize - 1;
    let mut rest = text;
    for place in 0..last {
        let (z, more) = number(rest, b' ')?;
        keep(args, place, z);
        rest = more;
    }
    let (z, more) = number(rest, b'\n')?;
    keep(args, last, z);
    args.truncate(count as usize);
    Some(more)
}

/// A `put`, after its first word, and what comes after its line.
#[inline(always)]
fn quick_put<'a>(tables: &[Name], text: &'a [u8], call: &mut Call) -> Option<&'a [u8]>
    requires few { length tables.now ≤ MAX_TABLES }
    requires names { AreNames tables.now }
    ensures read { IfSome result (λ rest. (procs : List Proc) → IsRead (called tables.now procs Put) text.now call.new rest.now) }
    ensures taken { IfSome result (λ _. (procs : List Proc) → IsTrue (takes procs call.new)) }
{
    let rest = three(tables, text, &mut call.args)?;
    call.proc = PUT;
    Some(rest)
}

/// The same of an `add`.
#[inline(always)]
fn quick_add<'a>(tables: &[Name], text: &'a [u8], call: &mut Call) -> Option<&'a [u8]>
    requires few { length tables.now ≤ MAX_TABLES }
    requires names { AreNames tables.now }
    ensures read { IfSome result (λ rest. (procs : List Proc) → IsRead (called tables.now procs Add) text.now call.new rest.now) }
    ensures taken { IfSome result (λ _. (procs : List Proc) → IsTrue (takes procs call.new)) }
{
    let rest = three(tables, text, &mut call.args)?;
    call.proc = ADD;
    Some(rest)
}

/// The same of a `get`.
#[inline(always)]
fn quick_get<'a>(tables: &[Name], text: &'a [u8], call: &mut Call) -> Option<&'a [u8]>
    requires few { length tables.now ≤ MAX_TABLES }
    requires names { AreNames tables.now }
    ensures read { IfSome result (λ rest. (procs : List Proc) → IsRead (called tables.now procs Get) text.now call.new rest.now) }
    ensures taken { IfSome result (λ _. (procs : List Proc) → IsTrue (takes procs call.new)) }
{
    let rest = two(tables, text, &mut call.args)?;
    call.proc = GET;
    Some(rest)
}

/// The same of a `del`.
#[inline(always)]
fn quick_del<'a>(tables: &[Name], text: &'a [u8], call: &mut Call) -> Option<&'a [u8]>
    requires few { length tables.now ≤ MAX_TABLES }
    requires names { AreNames tables.now }
    ensures read { IfSome result (λ rest. (procs : List Proc) → IsRead (called tables.now procs Del) text.now call.new rest.now) }
    ensures taken { IfSome result (λ _. (procs : List Proc) → IsTrue (takes procs call.new)) }
{
    let rest = two(tables, text, &mut call.args)?;
    call.proc = DEL;
    Some(rest)
}

/// The same of a call of a declared procedure.
#[inline(always)]
fn quick_declared<'a>(procs: &[Proc], text: &'a [u8], call: &mut Call) -> Option<&'a [u8]>
    requires limits { KeepsLimits procs.now }
    requires names { AreNamed procs.now }
    ensures read { IfSome result (λ rest. (tables : List (List ℕ)) → IsRead (called tables procs.now Called) text.now call.new rest.now) }
    ensures taken { IfSome result (λ _. IsTrue (takes procs.now call.new)) }
{
    let (place, rest) = declared(procs, text)?;
    let rest = numbers(args_of(procs, place), rest, &mut call.args)?;
    call.proc = FIRST_DECLARED + place as u16;
    Some(rest)
}

/// The call with whose line a text begins, put into a place, and what comes after the line. If nothing is found, the place may
/// have changed.
#[inline(always)]
pub fn quick_call<'a>(
    tables: &[Name],
    procs: &[Proc],
    text: &'a [u8],
    call: &mut Call,
) -> Option<&'a [u8]>
    requires few { length tables.now ≤ MAX_TABLES }
    requires tables { AreNames tables.now }
    requires limits { KeepsLimits procs.now }
    requires procs { AreNamed procs.now }
    ensures read { IfSome result (λ rest. IsCallLine tables.now procs.now text.now call.new rest.now) }
    ensures taken { IfSome result (λ _. IsTrue (takes procs.now call.new)) }
{
    if let Some(rest) = behind_word(text, b"call") {
        return quick_declared(procs, rest, call);
    }
    if let Some(rest) = behind_word(text, b"add") {
        return quick_add(tables, rest, call);
    }
    if let Some(rest) = behind_word(text, b"put") {
        return quick_put(tables, rest, call);
    }
    if let Some(rest) = behind_word(text, b"get") {
        return quick_get(tables, rest, call);
    }
    if let Some(rest) = behind_word(text, b"del") {
        return quick_del(tables, rest, call);
    }
    None
}

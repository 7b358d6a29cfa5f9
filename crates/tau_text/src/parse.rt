//! What a text means. A line changes in place what was read, and on an error may have changed a part of it.
ghost use Rattle.std.specs.Prelude.{ℕ, IfErr, true, false, ◌≡◌, ◌≤◌, ◌<◌, ◌+◌, ◌^◌, Ok, Result, None, Some, length, IfOk, OnOk, IfSome, IsTrue, unwrap_or, is_none, [], ◌∷◌, IsUtf8};
ghost use Rattle.std.specs.Str.{is_utf8};
ghost use Rattle.tau_proc.specs.Takes.{takes};
ghost use Rattle.tau_text.specs.Lines.{words, lines};
ghost use Rattle.tau_text.specs.Given.{Gives};
ghost use Rattle.tau_text.specs.Called.{called};
ghost use Rattle.tau_text.specs.Text.{workload_of, outer_read, inner_read, words_read, statement_read, line_read, with_call, is_before, lines_read, nothing, closed};
ghost use Rattle.tau_text.specs.Kept.{IsWithin, IsBegun, IsRunnable, Reads, refusal};
ghost use Rattle.tau_text.specs.Quick.{HasNames, IsLineRead, IsLineBad};

use crate::calls::call_line;
use crate::fault::{LineRefusal, TextCause, TextFault, TextRefusal};
use crate::forms::{
    depth_at, grown, head, proc_line, step_added, step_head, table_line, turns_line,
};
use crate::heads::{Head, StepHead};
use crate::lines::{first_line, next_word, no_more};
use crate::load::{Declarations, Turn, Workload};
use crate::quick::quick_call;
use crate::reading::{Begun, Reading};
use crate::spelled::begins_with;
use arrayvec::ArrayVec;
use std::alloc::Global;
use std::str;
use tau_base::{Call, Calls, Listed, MAX_CALLS, MAX_TURNS, MAX_WORKLOAD};
use tau_proc::{Proc, Procs};

/// A line of a call. The call is built in a place that serves for all lines, since it is large, and the list keeps it short.
#[inline(always)]
fn call_read(s: &mut Reading, h: Head, rest: &[u8], call: &mut Call) -> Result<(), LineRefusal>
    requires within { IsWithin s.old }
    requires outside { s.old.begun ≡ None }
    ensures given { Gives (λ _. s.new) result (with_call s.old (called s.old.tables s.old.procs h (words rest.now))) }
    ensures within { OnOk result (IsWithin s.new) }
{
    call.args.clear();
    let proc = call_line(s.tables.as_slice(), s.procs.list(), h, rest, &mut call.args)?;
    call.proc = proc;
    if s.calls.len() >= MAX_CALLS {
        return Err(LineRefusal::Cause(TextCause::TooMany));
    }
    Ok(s.calls.push(call)?)
}

/// A line of a table.
#[inline(never)]
#[tactic(auto, unfolding(crate::specs::Text::outer_read))]
fn table_read(s: &mut Reading, n: u32, line: &[u8], rest: &[u8]) -> Result<(), LineRefusal>
    requires within { IsWithin s.old }
    requires outside { s.old.begun ≡ None }
    ensures given { Gives (λ _. s.new) result (outer_read s.old n Head.Table (words line.now) (words rest.now)) }
    ensures within { OnOk result (IsWithin s.new) }
{
    let _ = n;
    let name = table_line(s.tables.as_slice(), rest)?;
    let size = grown(s.size, line)?;
    s.tables.push(name)?;
    s.size = size;
    Ok(())
}

/// A line that begins a procedure.
#[inline(never)]
#[tactic(auto, unfolding(crate::specs::Text::outer_read))]
fn proc_read(
    alloc: Global,
    s: &mut Reading,
    n: u32,
    line: &[u8],
    rest: &[u8],
) -> Result<(), LineRefusal>
    requires within { IsWithin s.old }
    requires first { s.old.calls ≡ [] }
    ensures given { Gives (λ _. s.new) result (outer_read s.old n Head.Proc (words line.now) (words rest.now)) }
    ensures within { OnOk result (IsWithin s.new) }
{
    let (name, args) = proc_line(s.procs.list(), rest)?;
    s.size = grown(s.size, line)?;
    let steps = Listed::new(alloc);
    s.begun = Some(Begun {
        line: n,
        proc: Proc { name, args, steps },
        depth: 0,
    });
    Ok(())
}

/// The turn words so far.
fn turns_before(alloc: Global, turns: Option<Listed<Turn>>) -> Listed<Turn>
    requires { IfSome turns (λ ts. length ts ≤ MAX_TURNS) }
    ensures same { result ≡ unwrap_or turns [] }
    ensures few { length result ≤ MAX_TURNS }
{
    match turns {
        Some(turns) => turns,
        None => Listed::new(alloc),
    }
}

/// A line of turns.
#[inline(never)]
#[tactic(auto, unfolding(crate::specs::Text::outer_read))]
fn turns_read(
    alloc: Global,
    s: &mut Reading,
    n: u32,
    line: &[u8],
    rest: &[u8],
) -> Result<(), LineRefusal>
    requires { IsWithin s.old }
    ensures given { Gives (λ _. s.new) result (outer_read s.old n Head.Turns (words line.now) (words rest.now)) }
    ensures within { OnOk result (IsWithin s.new) }
{
    let _ = n;
    let _ = line;
    let turns = turns_line(turns_before(alloc, s.turns.take()), rest)?;
    s.turns = Some(turns);
    Ok(())
}

/// A line outside the procedures, by its first word.
#[tactic(auto, unfolding(crate::specs::Text::outer_read, crate::specs::Called::called))]
fn outer_read(
    alloc: Global,
    s: &mut Reading,
    n: u32,
    h: Head,
    line: &[u8],
    rest: &[u8],
    call: &mut Call,
) -> Result<(), LineRefusal>
    requires within { IsWithin s.old }
    requires outside { s.old.begun ≡ None }
    requires first { h ≡ Head.Proc → s.old.calls ≡ [] }
    ensures given { Gives (λ _. s.new) result (outer_read s.old n h (words line.now) (words rest.now)) }
    ensures within { OnOk result (IsWithin s.new) }
{
    match h {
        Head::Table => table_read(s, n, line, rest),
        Head::Proc => proc_read(alloc, s, n, line, rest),
        Head::Put => call_read(s, Head::Put, rest, call),
        Head::Add => call_read(s, Head::Add, rest, call),
        Head::Get => call_read(s, Head::Get, rest, call),
        Head::Del => call_read(s, Head::Del, rest, call),
        Head::Call => call_read(s, Head::Call, rest, call),
        Head::Turns => turns_read(alloc, s, n, line, rest),
    }
}

/// Whether a first word may stand here.
#[tactic(auto, unfolding(crate::specs::Text::is_before))]
fn is_before(h: Head, s: &Reading) -> bool
    ensures value { result ≡ is_before h s.now }
    ensures first { result ≡ true → h ≡ Head.Proc → s.now.calls ≡ [] }
{
    match h {
        Head::Table | Head::Proc => s.calls.len() == 0 && s.turns.is_none(),
        Head::Turns => true,
        _ => s.turns.is_none(),
    }
}

/// A line of a step.
#[tactic(auto, unfolding(crate::specs::Text::inner_read))]
fn step_read(
    s: &mut Reading,
    b: Begun,
    h: StepHead,
    line: &[u8],
    rest: &[u8],
) -> Result<(), LineRefusal>
    requires within { IsWithin s.old }
    requires begun { IsBegun s.old.procs b }
    requires first { s.old.calls ≡ [] }
    requires step { h ≡ StepHead.End → ⊥ }
    ensures given { Gives (λ _. s.new) result (inner_read s.old b h (words line.now) (words rest.now)) }
    ensures within { OnOk result (IsWithin s.new) }
{
    let depth = depth_at(b.depth, h)?;
    let proc = step_added(s.tables.as_slice(), b.proc, h, rest)?;
    s.size = grown(s.size, line)?;
    s.begun = Some(Begun {
        line: b.line,
        proc,
        depth,
    });
    Ok(())
}

/// A line that ends a procedure.
#[tactic(auto, unfolding(crate::specs::Text::inner_read))]
fn end_read(s: &mut Reading, b: Begun, line: &[u8], rest: &[u8]) -> Result<(), LineRefusal>
    requires within { IsWithin s.old }
    requires begun { IsBegun s.old.procs b }
    requires first { s.old.calls ≡ [] }
    requires outside { s.old.begun ≡ None }
    ensures given { Gives (λ _. s.new) result (inner_read s.old b StepHead.End (words line.now) (words rest.now)) }
    ensures within { OnOk result (IsWithin s.new) }
{
    depth_at(b.depth, StepHead::End)?;
    no_more(rest)?;
    s.size = grown(s.size, line)?;
    Ok(s.procs.add(b.proc)?)
}

/// A line inside a procedure, by its first word.
fn inner_read(
    s: &mut Reading,
    b: Begun,
    h: StepHead,
    line: &[u8],
    rest: &[u8],
) -> Result<(), LineRefusal>
    requires within { IsWithin s.old }
    requires begun { IsBegun s.old.procs b }
    requires first { s.old.calls ≡ [] }
    requires outside { s.old.begun ≡ None }
    ensures given { Gives (λ _. s.new) result (inner_read s.old b h (words line.now) (words rest.now)) }
    ensures within { OnOk result (IsWithin s.new) }
{
    match h {
        StepHead::End => end_read(s, b, line, rest),
        _ => step_read(s, b, h, line, rest),
    }
}

/// Whether no procedure is begun.
fn is_outside(s: &Reading) -> bool
    ensures value { result ≡ is_none s.now.begun }
    ensures none { result ≡ true → s.now.begun ≡ None }
{
    match &s.begun {
        None => true,
        Some(_) => false,
    }
}

/// A line with a word at its front, outside the procedures.
#[tactic(auto, unfolding(crate::specs::Text::statement_read), using(crate::proofs::Texts::statement_outside))]
fn outside_read(
    alloc: Global,
    s: &mut Reading,
    n: u32,
    line: &[u8],
    word: &[u8],
    rest: &[u8],
    call: &mut Call,
) -> Result<(), LineRefusal>
    requires within { IsWithin s.old }
    requires outside { s.old.begun ≡ None }
    requires cut { words line.now ≡ word.now ∷ words rest.now }
    ensures given { Gives (λ _. s.new) result (statement_read s.old n None word.now (words rest.now)) }
    ensures within { OnOk result (IsWithin s.new) }
{
    let h = head(word)?;
    if !is_before(h, s) {
        return Err(LineRefusal::Cause(TextCause::UnknownWord));
    }
    outer_read(alloc, s, n, h, line, rest, call)
}

/// A line with a word at its front, inside a procedure. It is a function of its own, since a line of a call pays for no
/// place for a procedure.
#[inline(never)]
#[tactic(auto, unfolding(crate::specs::Text::statement_read))]
fn inside_read(
    s: &mut Reading,
    n: u32,
    line: &[u8],
    word: &[u8],
    rest: &[u8],
) -> Result<(), LineRefusal>
    requires within { IsWithin s.old }
    requires inside { is_none s.old.begun ≡ false }
    requires cut { words line.now ≡ word.now ∷ words rest.now }
    ensures given { Gives (λ _. s.new) result (statement_read s.old n s.old.begun word.now (words rest.now)) }
    ensures within { OnOk result (IsWithin s.new) }
{
    let _ = n;
    let Some(b) = s.begun.take() else {
        unreachable!();
    };
    let h = step_head(word)?;
    inner_read(s, b, h, line, rest)
}

/// A line with a word at its front.
fn statement_read(
    alloc: Global,
    s: &mut Reading,
    n: u32,
    line: &[u8],
    word: &[u8],
    rest: &[u8],
    call: &mut Call,
) -> Result<(), LineRefusal>
    requires within { IsWithin s.old }
    requires cut { words line.now ≡ word.now ∷ words rest.now }
    ensures given { Gives (λ _. s.new) result (statement_read s.old n s.old.begun word.now (words rest.now)) }
    ensures within { OnOk result (IsWithin s.new) }
{
    if is_outside(s) {
        outside_read(alloc, s, n, line, word, rest, call)
    } else {
        inside_read(s, n, line, word, rest)
    }
}

/// The words of a line.
#[tactic(auto, unfolding(crate::specs::Text::words_read))]
fn words_read(
    alloc: Global,
    s: &mut Reading,
    n: u32,
    line: &[u8],
    call: &mut Call,
) -> Result<(), LineRefusal>
    requires { IsWithin s.old }
    ensures given { Gives (λ _. s.new) result (words_read s.old n (words line.now)) }
    ensures within { OnOk result (IsWithin s.new) }
{
    match next_word(line) {
        None => Ok(()),
        Some((word, rest)) => {
            if begins_with(b'#', word) {
                Ok(())
            } else {
                statement_read(alloc, s, n, line, word, rest, call)
            }
        }
    }
}

/// Whether bytes are UTF-8. A line of a text that is known to be is not looked at again.
#[inline(always)]
#[tactic(auto, using(crate::proofs::Texts::utf8_yes, crate::proofs::Texts::utf8_no))]
fn is_utf8(bytes: &[u8], known: bool) -> bool
    requires { known ≡ true → IsUtf8 bytes.now }
    ensures value { result ≡ is_utf8 bytes.now }
    ensures text { result ≡ true → IsUtf8 bytes.now }
{
    if known {
        return true;
    }
    match str::from_utf8(bytes) {
        Ok(_) => true,
        Err(_) => false,
    }
}

/// One line, and whether it is known to be UTF-8.
#[tactic(auto, unfolding(crate::specs::Text::line_read))]
fn line_read(
    alloc: Global,
    s: &mut Reading,
    n: u32,
    line: &[u8],
    known: bool,
    call: &mut Call,
) -> Result<(), LineRefusal>
    requires within { IsWithin s.old }
    requires text { known ≡ true → IsUtf8 line.now }
    ensures given { Gives (λ _. s.new) result (line_read s.old n line.now) }
    ensures within { OnOk result (IsWithin s.new) }
{
    if !is_utf8(line, known) {
        return Err(LineRefusal::Cause(TextCause::NotUtf8));
    }
    words_read(alloc, s, n, line, call)
}

/// Whether a call may stand here and there is room for one.
#[inline(always)]
fn takes_calls(s: &Reading) -> bool
    ensures outside { result ≡ true → s.now.begun ≡ None }
    ensures before { result ≡ true → s.now.turns ≡ None }
    ensures room { result ≡ true → length s.now.calls < MAX_CALLS }
{
    if !is_outside(s) {
        return false;
    }
    match &s.turns {
        Some(_) => false,
        None => s.calls.len() < MAX_CALLS,
    }
}

/// The first line of a text that has bytes left, whose lines may be known to be UTF-8, is read; and what comes after it.
fn slow_taken<'a>(
    alloc: Global,
    s: &mut Reading,
    n: u32,
    text: &'a [u8],
    known: bool,
    call: &mut Call,
) -> Result<&'a [u8], LineRefusal>
    requires within { IsWithin s.old }
    requires some { 0 < length text.now }
    requires text { known ≡ true → IsUtf8 text.now }
    ensures read { IfOk result (λ rest. IsLineRead s.old n text.now s.new rest.now) }
    ensures bad { IfErr result (λ e. IsLineBad e s.old n text.now) }
    ensures within { OnOk result (IsWithin s.new) }
{
    let (line, rest) = first_line(text);
    match line_read(alloc, s, n, line, known, call) {
        Ok(()) => Ok(rest),
        Err(e) => Err(e),
    }
}

/// The same. A line of a call is read in one pass, if it is spelled as most are.
#[inline(always)]
fn line_taken<'a>(
    alloc: Global,
    s: &mut Reading,
    n: u32,
    text: &'a [u8],
    known: bool,
    call: &mut Call,
) -> Result<&'a [u8], LineRefusal>
    requires within { IsWithin s.old }
    requires names { HasNames s.old }
    requires some { 0 < length text.now }
    requires text { known ≡ true → IsUtf8 text.now }
    ensures read { IfOk result (λ rest. IsLineRead s.old n text.now s.new rest.now) }
    ensures bad { IfErr result (λ e. IsLineBad e s.old n text.now) }
    ensures within { OnOk result (IsWithin s.new) }
{
    if !takes_calls(s) {
        return slow_taken(alloc, s, n, text, known, call);
    }
    let Some(rest) = quick_call(s.tables.as_slice(), s.procs.list(), text, call) else {
        return slow_taken(alloc, s, n, text, known, call);
    };
    match s.calls.push(call) {
        Ok(()) => Ok(rest),
        Err(_) => Err(LineRefusal::Memory),
    }
}

/// The refusal of a line, with its number.
fn refusal(n: u32, e: LineRefusal) -> TextRefusal
    ensures { result ≡ refusal n e }
{
    match e {
        LineRefusal::Memory => TextRefusal::NoMemory,
        LineRefusal::Cause(cause) => TextRefusal::Bad(TextFault { line: n, cause }),
    }
}

/// The place in which each call is built.
fn blank_call() -> Call {
    Call {
        proc: 0,
        args: ArrayVec::new(),
    }
}

/// Nothing is read.
fn nothing(alloc: Global) -> Reading
    ensures same { result ≡ nothing }
    ensures within { IsWithin result }
{
    Reading {
        tables: Listed::new(alloc),
        procs: Procs::new(alloc),
        size: 0,
        begun: None,
        calls: Calls::new(alloc),
        turns: None,
    }
}

/// The lines of a text, one after the other. The text is UTF-8 as a whole if its lines are, so that one look does for all of them.
fn lines_read(alloc: Global, text: &[u8]) -> Result<Reading, TextRefusal>
    ensures given { Reads result (lines_read nothing 1 0 (lines text.now)) }
    ensures within { IfOk result IsWithin }
    ensures short { OnOk result (length text.now ≤ MAX_WORKLOAD) }
{
    let known = is_utf8(text, false);
    let mut s = nothing(alloc);
    let mut call = blank_call();
    let mut rest = text;
    let mut n: u32 = 1;
    while !rest.is_empty() {
        let after = match line_taken(alloc, &mut s, n, rest, known, &mut call) {
            Ok(after) => after,
            Err(e) => return Err(refusal(n, e)),
        };
        if text.len() - after.len() > MAX_WORKLOAD {
            return Err(refusal(n, LineRefusal::Cause(TextCause::TooMany)));
        }
        n += 1;
        rest = after;
    }
    Ok(s)
}

/// The workload that a text means. Otherwise the first bad line, numbered from 1, with its cause.
#[tactic(auto, unfolding(crate::specs::Text::workload_of))]
pub fn parse_workload(alloc: Global, bytes: &[u8]) -> Result<Workload, TextRefusal>
    // The reading of the text, or its first bad line, unless memory ran out.
    ensures exact { Reads result (workload_of bytes.now) }
    // Its calls can run.
    ensures runnable { IfOk result IsRunnable }
    ensures short { OnOk result (length bytes.now ≤ MAX_WORKLOAD) }
{
    let Reading {
        tables,
        procs,
        size,
        begun,
        calls,
        turns,
    } = lines_read(alloc, bytes)?;
    let _ = size;
    match begun {
        Some(b) => Err(TextRefusal::Bad(TextFault {
            line: b.line,
            cause: TextCause::NoEnd,
        })),
        None => Ok(Workload {
            declarations: Declarations { tables, procs },
            calls,
            turns,
        }),
    }
}

//! The first line of a text, as one of a report.
ghost use Rattle.std.specs.Prelude.{◌≡◌, IfOk, IsTrue, MatchOption, OnOk, length};
ghost use Rattle.tau_inspect.specs.Bodies.{order_body, fate_body, ack_body, IsAck};
ghost use Rattle.tau_inspect.specs.Parts.{lacks};
ghost use Rattle.tau_inspect.specs.ReportFor.{IsCall, IsFate};
ghost use Rattle.tau_inspect.specs.Sections.{IsLine, NoLine};

use crate::parts::cut_at;
use crate::quick::{quick_ack, quick_order, quick_reply};
use crate::told::{AckLine, read_ack, read_fate, read_order};
use std::alloc::Global;
use tau_base::{NoMemory, Value};
use tau_proc::Reply;
use tau_report::{Fate, KeptFate};

/// The first line, if it is whole, and what comes after it.
pub fn next_line<'a>(text: &'a [u8]) -> Option<(&'a [u8], &'a [u8])>
    ensures { MatchOption result (IsTrue (lacks 10 text.now)) (λ p. IsLine text.now p.0.now p.1.now) }
{
    match cut_at(text, b'\n') {
        None => None,
        Some(i) => Some((&text[..i], &text[i + 1..])),
    }
}

/// The call of the history that the first line tells, and what comes after it.
pub fn next_order(text: &[u8], calls: u32) -> Result<Option<(u64, &[u8])>, NoMemory>
    ensures { IfOk result (λ o. MatchOption o (NoLine order_body (IsCall calls) text.now) (λ a. IsLine text.now (order_body a.0) a.1.now × IsCall calls a.0)) }
{
    match quick_order(text, calls) {
        Some(found) => Ok(Some(found)),
        None => any_order(text, calls),
    }
}

/// The same, however it is spelled.
#[inline(never)]
fn any_order(text: &[u8], calls: u32) -> Result<Option<(u64, &[u8])>, NoMemory>
    ensures { IfOk result (λ o. MatchOption o (NoLine order_body (IsCall calls) text.now) (λ a. IsLine text.now (order_body a.0) a.1.now × IsCall calls a.0)) }
{
    match next_line(text) {
        None => Ok(None),
        Some((line, rest)) => match read_order(line, calls) {
            Err(_) => Err(NoMemory),
            Ok(None) => Ok(None),
            Ok(Some(number)) => Ok(Some((number, rest))),
        },
    }
}

/// The acknowledged call that the first line tells, put into a place, with a vector as wide as the place has; and what comes
/// after the line. If it tells none, the place may have changed.
pub fn next_ack<'a>(
    text: &'a [u8],
    calls: u32,
    ack: &mut AckLine,
) -> Result<Option<&'a [u8]>, NoMemory>
    ensures wide { OnOk result (length ack.new.lv ≡ length ack.old.lv) }
    ensures read { IfOk result (λ o. MatchOption o (NoLine ack_body (IsAck calls (length ack.old.lv)) text.now) (λ rest. IsLine text.now (ack_body ack.new) rest.now × IsAck calls (length ack.old.lv) ack.new)) }
{
    match quick_ack(text, calls, ack) {
        Some(rest) => Ok(Some(rest)),
        None => any_ack(text, calls, ack),
    }
}

/// The same, however it is spelled.
#[inline(never)]
fn any_ack<'a>(text: &'a [u8], calls: u32, ack: &mut AckLine) -> Result<Option<&'a [u8]>, NoMemory>
    ensures wide { OnOk result (length ack.new.lv ≡ length ack.old.lv) }
    ensures read { IfOk result (λ o. MatchOption o (NoLine ack_body (IsAck calls (length ack.old.lv)) text.now) (λ rest. IsLine text.now (ack_body ack.new) rest.now × IsAck calls (length ack.old.lv) ack.new)) }
{
    match next_line(text) {
        None => Ok(None),
        Some((line, rest)) => match read_ack(line, calls, ack) {
            Err(_) => Err(NoMemory),
            Ok(false) => Ok(None),
            Ok(true) => Ok(Some(rest)),
        },
    }
}

/// What became of a call, kept short.
fn kept(alloc: Global, fate: &Fate) -> Result<KeptFate, NoMemory>
    ensures { IfOk result (λ kept. kept ≡ fate.now) }
{
    match fate {
        Fate::Acked(reply) => KeptFate::of(alloc, true, reply),
        Fate::Unsure(reply) => KeptFate::of(alloc, false, reply),
        Fate::Unrun => Ok(KeptFate::unrun()),
    }
}

/// What the first line tells of the call with this number, kept short, and what comes after it.
pub fn next_fate(
    alloc: Global,
    text: &[u8],
    number: u64,
) -> Result<Option<(KeptFate, &[u8])>, NoMemory>
    ensures { IfOk result (λ o. MatchOption o (NoLine (fate_body number) IsFate text.now) (λ a. IsLine text.now (fate_body number a.0) a.1.now × IsFate a.0)) }
{
    match quick_reply(text, number) {
        Some((told, rest)) => {
            let fate = KeptFate::of(alloc, true, &Reply::Ok(Value::Int(told)))?;
            Ok(Some((fate, rest)))
        }
        None => any_fate(alloc, text, number),
    }
}

/// The same, however it is spelled.
#[inline(never)]
fn any_fate(alloc: Global, text: &[u8], number: u64) -> Result<Option<(KeptFate, &[u8])>, NoMemory>
    ensures { IfOk result (λ o. MatchOption o (NoLine (fate_body number) IsFate text.now) (λ a. IsLine text.now (fate_body number a.0) a.1.now × IsFate a.0)) }
{
    match next_line(text) {
        None => Ok(None),
        Some((line, rest)) => match read_fate(line, number) {
            Err(_) => Err(NoMemory),
            Ok(None) => Ok(None),
            Ok(Some(fate)) => {
                let fate = kept(alloc, &fate)?;
                Ok(Some((fate, rest)))
            }
        },
    }
}

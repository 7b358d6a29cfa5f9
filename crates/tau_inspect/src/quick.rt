//! Reading the lines of a report in one pass, if they are spelled as most are. That nothing is found tells nothing of a text:
//! another reader goes through it.
ghost use Rattle.std.specs.Prelude.{ℕ, ◌≡◌, ◌<◌, ◌≤◌, ◌^◌, ◌-◌, ◌++◌, ◌∷◌, IfSome, Some, decimal, length, take, true};
ghost use Rattle.tau_base.specs.declared.value.Value.TheVariants.{Int};
ghost use Rattle.tau_inspect.specs.Bodies.{order_body, fate_body, ack_body, IsAck};
ghost use Rattle.tau_inspect.specs.ReportFor.{IsCall, IsFate, IsVector};
ghost use Rattle.tau_inspect.specs.Sections.{IsLine};
ghost use Rattle.tau_proc.specs.declared.reply.Reply.TheVariants.{Ok};
ghost use Rattle.tau_report.specs.declared.report.Fate.TheVariants.{Acked};
ghost use Rattle.tau_report.specs.Lines.{vector_text};
ghost use Rattle.tau_text.specs.Spelled.{digits_after};

use crate::told::AckLine;
use crate::words::after;
use tau_base::{Lv, MAX_LSN};

/// The number that so many digits spell with which a text starts, if they begin as a number does; and what comes after them.
#[inline(always)]
fn spelled(text: &[u8], count: usize, value: u64) -> Option<(u64, &[u8])>
    requires within { count ≤ length text.now }
    requires few { value < 10 ^ 18 }
    requires read { digits_after 0 (take count text.now) ≡ Some value }
    ensures { IfSome result (λ a. (a.0 < 10 ^ 18) × (text.now ≡ decimal a.0 ++ a.1.now)) }
{
    if count == 0 {
        return None;
    }
    if count == 1 {
        return Some((value, &text[1..]));
    }
    if text[0] == b'0' {
        return None;
    }
    Some((value, &text[count..]))
}

/// The number with which a text starts, if it has at most 17 digits, and what comes after it. A text of fewer than 18 bytes
/// is left to another reader, so that no digit is tested for the end of the text.
#[inline(always)]
fn digits(text: &[u8]) -> Option<(u64, &[u8])>
    ensures { IfSome result (λ a. (a.0 < 10 ^ 18) × (text.now ≡ decimal a.0 ++ a.1.now)) }
{
    if text.len() < 18 {
        return None;
    }
    let mut value: u64 = 0;
    for i in 0..18 {
        // A byte below that of 0 gives a number far above 9, so one test serves for both.
        let digit = u64::from(text[i]).wrapping_sub(48);
        if digit > 9 {
            return spelled(text, i, value);
        }
        value = value * 10 + digit;
    }
    None
}

/// What comes after this byte, if a text starts with it.
#[inline(always)]
fn past(text: &[u8], byte: u8) -> Option<&[u8]>
    ensures { IfSome result (λ rest. text.now ≡ byte ∷ rest.now) }
{
    match text {
        [] => None,
        [first, rest @ ..] => { if *first == byte { Some(rest) } else { None } }
    }
}

/// A component with which a text starts, with this byte after it, and what comes after that.
#[inline(always)]
fn component(text: &[u8], byte: u8) -> Option<(u64, &[u8])>
    ensures { IfSome result (λ a. (a.0 < MAX_LSN) × (text.now ≡ decimal a.0 ++ byte ∷ a.1.now)) }
{
    let (position, rest) = digits(text)?;
    if position >= MAX_LSN {
        return None;
    }
    let rest = past(rest, byte)?;
    Some((position, rest))
}

/// The vector with which a line ends, put into a place that is as wide, and what comes after the line.
#[inline(always)]
fn vector<'a>(text: &'a [u8], lv: &mut Lv) -> Option<&'a [u8]>
    ensures wide { length lv.new ≡ length lv.old }
    ensures read { IfSome result (λ rest. IsVector (length lv.old) lv.new × (text.now ≡ vector_text lv.new ++ 10 ∷ rest.now)) }
{
    let last = lv.width() - 1;
    let mut rest = text;
    for j in 0..last {
        let (position, more) = component(rest, b',')?;
        lv.set(j, position);
        rest = more;
    }
    let (position, more) = component(rest, b'\n')?;
    lv.set(last, position);
    let _known = lv.as_slice();
    Some(more)
}

/// The number of one of so many calls with which a text starts, with this byte after it, and what comes after that.
#[inline(always)]
fn call(text: &[u8], calls: u32, byte: u8) -> Option<(u64, &[u8])>
    ensures { IfSome result (λ a. IsCall calls a.0 × (text.now ≡ decimal a.0 ++ byte ∷ a.1.now)) }
{
    let (number, rest) = digits(text)?;
    if number < 1 {
        return None;
    }
    if number > u64::from(calls) {
        return None;
    }
    let rest = past(rest, byte)?;
    Some((number, rest))
}

/// The acknowledged call with whose line a text starts, put into a place, with a vector as wide as the place has; and what
/// comes after the line. If nothing is found, the place may have changed.
#[inline(always)]
pub fn quick_ack<'a>(text: &'a [u8], calls: u32, ack: &mut AckLine) -> Option<&'a [u8]>
    ensures wide { length ack.new.lv ≡ length ack.old.lv }
    ensures read { IfSome result (λ rest. IsLine text.now (ack_body ack.new) rest.now × IsAck calls (length ack.old.lv) ack.new) }
{
    let rest = after(text, b"ack ")?;
    let (number, rest) = call(rest, calls, b' ')?;
    ack.number = number;
    vector(rest, &mut ack.lv)
}

/// The whole number that the call with this number replied, if a text starts with the line that says so and that it is
/// acknowledged; and what comes after the line.
#[inline(always)]
pub fn quick_reply(text: &[u8], number: u64) -> Option<(i64, &[u8])>
    ensures { IfSome result (λ a. IsLine text.now (fate_body number (Acked (Ok (Int a.0)))) a.1.now × IsFate (Acked (Ok (Int a.0)))) }
{
    let rest = after(text, b"reply ")?;
    let (told, rest) = digits(rest)?;
    if told != number {
        return None;
    }
    let rest = after(rest, b" int ")?;
    let (value, rest) = digits(rest)?;
    let rest = past(rest, b'\n')?;
    Some((value as i64, rest))
}

/// The call of the history with whose line a text starts, and what comes after the line.
#[inline(always)]
pub fn quick_order(text: &[u8], calls: u32) -> Option<(u64, &[u8])>
    ensures { IfSome result (λ a. IsLine text.now (order_body a.0) a.1.now × IsCall calls a.0) }
{
    let rest = after(text, b"order ")?;
    call(rest, calls, b'\n')
}

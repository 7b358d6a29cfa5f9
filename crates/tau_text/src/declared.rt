//! The text of declarations alone.
ghost use Rattle.std.specs.Prelude.{◌≡◌, ◌≤◌, length, IfOk};
ghost use Rattle.tau_text.specs.Lines.{lines};
ghost use Rattle.tau_text.specs.Canonical.{declarations_text};
ghost use Rattle.tau_text.specs.Alone.{differs, declarations_of, unless_differs};
ghost use Rattle.tau_text.specs.Kept.{Reads};

use crate::fault::{TextCause, TextFault, TextRefusal};
use crate::lines::whole_line;
use crate::load::{Declarations, Workload};
use crate::parse::parse_workload;
use crate::print::print_declarations;
use std::alloc::Global;
use tau_base::{MAX_TABLES, MAX_WORKLOAD};

/// The number of the first line at which two texts differ. A line has its byte 10.
fn first_difference(text: &[u8], other: &[u8]) -> Option<u32>
    requires { length text.now ≤ MAX_WORKLOAD }
    ensures { result ≡ differs 1 (lines text.now) (lines other.now) }
{
    let mut left = text;
    let mut right = other;
    let mut n: u32 = 1;
    while !left.is_empty() {
        if right.is_empty() {
            return Some(n);
        }
        let (line, after) = whole_line(left);
        let (wanted, others) = whole_line(right);
        if line != wanted {
            return Some(n);
        }
        left = after;
        right = others;
        n += 1;
    }
    if right.is_empty() { None } else { Some(n) }
}

/// The declarations, where their canonical text is just as this one.
#[tactic(auto, using(crate::proofs::Differences::same_texts))]
fn if_canonical(alloc: Global, bytes: &[u8], d: Declarations) -> Result<Declarations, TextRefusal>
    requires { length bytes.now ≤ MAX_WORKLOAD }
    ensures exact { Reads result (unless_differs d (differs 1 (lines bytes.now) (lines (declarations_text d)))) }
    ensures same { IfOk result (λ e. e ≡ d) }
    ensures canonical { IfOk result (λ e. bytes.now ≡ declarations_text e) }
{
    let Ok(canonical) = print_declarations(alloc, &d) else {
        return Err(TextRefusal::NoMemory);
    };
    match first_difference(bytes, canonical.as_slice()) {
        None => Ok(d),
        Some(line) => Err(TextRefusal::Bad(TextFault {
            line,
            cause: TextCause::UnknownWord,
        })),
    }
}

/// The declarations of which the bytes are the canonical text. Otherwise the first bad line of the text, or where it
/// means a workload, the first line that is not that of the canonical text of its declarations, with `UnknownWord`.
#[tactic(auto, unfolding(crate::specs::Alone::declarations_of))]
pub fn parse_declarations(alloc: Global, bytes: &[u8]) -> Result<Declarations, TextRefusal>
    // The declarations, or the first bad line, unless memory ran out.
    ensures exact { Reads result (declarations_of bytes.now) }
    // Only the canonical text of the declarations is taken.
    ensures canonical { IfOk result (λ d. bytes.now ≡ declarations_text d) }
    ensures few { IfOk result (λ d. length d.tables ≤ MAX_TABLES) }
{
    let Workload {
        declarations,
        calls,
        turns,
    } = parse_workload(alloc, bytes)?;
    let _ = calls;
    let _ = turns;
    if_canonical(alloc, bytes, declarations)
}

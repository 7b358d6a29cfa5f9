//! Cutting texts at a byte, and reading the components of a vector.
ghost use Rattle.std.specs.Prelude.{ℕ, ◌≡◌, ◌<◌, ◌≤◌, ◌++◌, ◌∷◌, List, true, IfOk, OnOk, MatchOption, decimal, length, take};
ghost use Rattle.tau_report.specs.Lines.{vector_text};
ghost use Rattle.tau_inspect.specs.Parts.{lacks, IsCut};
ghost use Rattle.tau_inspect.specs.Reading.{Reads, if_found};
ghost use Rattle.tau_inspect.specs.ReportFor.{IsVector};

use crate::words::read_plain;
use tau_base::{Lv, MAX_LSN, NoMemory};

/// The same, if it stands at none of the first so many places.
fn cut_after(text: &[u8], byte: u8, begin: usize) -> Option<usize>
    requires within { begin ≤ length text.now }
    requires none { lacks byte (take begin text.now) ≡ true }
    ensures { MatchOption result (lacks byte text.now ≡ true) (IsCut byte text.now) }
{
    let mut i = begin;
    while i < text.len() {
        if text[i] == byte {
            return Some(i);
        }
        i += 1;
    }
    None
}

/// Where a byte stands first in a text. Four bytes are tested for each test whether the end is near.
pub fn cut_at(text: &[u8], byte: u8) -> Option<usize>
    ensures { MatchOption result (lacks byte text.now ≡ true) (IsCut byte text.now) }
{
    let mut i = 0;
    while text.len() - i >= 4 {
        if text[i] == byte {
            return Some(i);
        }
        if text[i + 1] == byte {
            return Some(i + 1);
        }
        if text[i + 2] == byte {
            return Some(i + 2);
        }
        if text[i + 3] == byte {
            return Some(i + 3);
        }
        i += 4;
    }
    cut_after(text, byte, i)
}

/// A component of a vector.
fn read_position(word: &[u8]) -> Result<Option<u64>, NoMemory>
    ensures { IfOk result (Reads decimal (λ p. p < MAX_LSN) word.now) }
{
    match read_plain(word) {
        Err(_) => Err(NoMemory),
        Ok(None) => Ok(None),
        Ok(Some(position)) => {
            if position >= MAX_LSN {
                return Ok(None);
            }
            Ok(Some(position))
        }
    }
}

/// A component of a vector with a comma after it, and what is left.
fn next_part(text: &[u8]) -> Result<Option<(u64, &[u8])>, NoMemory>
    ensures { IfOk result (λ o. MatchOption o ((p : ℕ) (more : List ℕ) → p < MAX_LSN → text.now ≡ decimal p ++ 44 ∷ more → ⊥) (λ a. (a.0 < MAX_LSN) × (text.now ≡ decimal a.0 ++ 44 ∷ a.1.now))) }
{
    match cut_at(text, b',') {
        None => Ok(None),
        Some(i) => match read_position(&text[..i]) {
            Err(_) => Err(NoMemory),
            Ok(None) => Ok(None),
            Ok(Some(position)) => Ok(Some((position, &text[i + 1..]))),
        },
    }
}

/// Reads a vector into a place, with as many components as the place has. Returns whether the text is one. If it is not,
/// some may have changed.
pub fn read_vector(text: &[u8], lv: &mut Lv) -> Result<bool, NoMemory>
    ensures wide { OnOk result (length lv.new ≡ length lv.old) }
    ensures read { IfOk result (λ found. Reads vector_text (IsVector (length lv.old)) text.now (if_found found lv.new)) }
{
    let streams = lv.width();
    let mut rest = text;
    for j in 0..streams - 1 {
        match next_part(rest) {
            Err(_) => return Err(NoMemory),
            Ok(None) => return Ok(false),
            Ok(Some((position, more))) => {
                lv.set(j, position);
                rest = more;
            }
        }
    }
    match read_position(rest) {
        Err(_) => Err(NoMemory),
        Ok(None) => Ok(false),
        Ok(Some(position)) => {
            lv.set(streams - 1, position);
            let _known = lv.as_slice();
            Ok(true)
        }
    }
}

//! The line of a taken record. It is written from its end on, in a place that all lines share, and then put into the text
//! as one piece.
ghost use Rattle.std.specs.Prelude.{◌≡◌, ◌+◌, ◌≤◌, ◌++◌, ◌∷◌, [], codes, decimal, drop, length, OnOk};
ghost use Rattle.tau_report.specs.Lines.{line};

use itoa::write_digits;
use std::alloc::AllocError;

const WORD: &[u8] = b"taken";

/// The longest line has the word, three numbers of twenty digits, each after a space, and a line's end.
const MAX_LINE: usize = 69;

/// A place for a line.
pub type Line = [u8; MAX_LINE];

/// A place for lines.
pub fn place() -> Line {
    [0; MAX_LINE]
}

/// Writes a number, and the space before it, so that they end at `end`, and returns where they start.
#[inline(always)]
fn number_before(line: &mut [u8], end: usize, number: u64) -> usize
    requires low { 21 ≤ end }
    requires high { end ≤ length line.old }
    ensures within { result ≤ end }
    ensures near { end ≤ result + 21 }
    ensures written { drop result line.new ≡ 32 ∷ decimal number ++ drop end line.old }
{
    let at = write_digits(number, line, end) - 1;
    line[at] = b' ';
    at
}

/// Writes the word so that it ends at `end`, and returns where it starts.
fn word_before(line: &mut [u8], end: usize) -> usize
    requires low { 5 ≤ end }
    requires high { end ≤ length line.old }
    ensures within { result ≤ end }
    ensures written { drop result line.new ≡ codes "taken" ++ drop end line.old }
{
    let at = end - WORD.len();
    line[at..end].copy_from_slice(WORD);
    at
}

/// Writes the line at the end of the place, and returns where it starts.
fn write_line(place: &mut Line, stream: u64, start: u64, number: u64) -> usize
    ensures within { result ≤ length place.new }
    ensures written { drop result place.new ≡ line (codes "taken" ∷ decimal stream ∷ decimal start ∷ decimal number ∷ []) }
{
    let end = MAX_LINE - 1;
    place[end] = b'\n';
    let end = number_before(place, end, number);
    let end = number_before(place, end, start);
    let end = number_before(place, end, stream);
    word_before(place, end)
}

/// Puts the line of a record of a call with this number, by way of the place.
pub fn put_line(
    out: &mut Vec<u8>,
    place: &mut Line,
    stream: u64,
    start: u64,
    number: u64,
) -> Result<(), AllocError>
    ensures { OnOk result (out.new.items ≡ out.old.items ++ line (codes "taken" ∷ decimal stream ∷ decimal start ∷ decimal number ∷ [])) }
{
    let from = write_line(place, stream, start, number);
    out.extend_from_slice(&place[from..])
}

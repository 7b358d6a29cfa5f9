//! The lines of a text and the words of a line.
ghost use Rattle.std.specs.Prelude.{◌≡◌, ◌≢◌, ◌==◌, ◌+◌, ◌≤◌, ◌<◌, ◌-◌, Ok, List, [], ◌∷◌, length, take, drop, slice_index, MatchOption, IfSome, IsUtf8};
ghost use Rattle.std.specs.List.{position_or_len};
ghost use Rattle.tau_text.specs.Lines.{lines, body, words};
ghost use Rattle.tau_text.specs.Given.{Gives};
ghost use Rattle.tau_text.specs.Places.{HasNone};
ghost use Rattle.tau_text.specs.Spelled.{first, ended};

use crate::fault::{LineRefusal, TextCause};

/// The place of the first such byte, or the length. None stands before the place where the search begins.
#[inline(always)]
fn place_after(bytes: &[u8], wanted: u8, begin: usize) -> usize
    requires within { begin ≤ length bytes.now }
    requires none { HasNone wanted begin bytes.now }
    ensures first { result ≡ position_or_len (λ b. b == wanted) bytes.now }
    ensures within { result ≤ length bytes.now }
{
    let mut i = begin;
    while i < bytes.len() {
        if bytes[i] == wanted {
            return i;
        }
        i += 1;
    }
    i
}

/// The place of the first such byte, or the length. Four bytes are tested for each test whether the end is near.
#[inline(always)]
pub fn place_of(bytes: &[u8], wanted: u8) -> usize
    ensures first { result ≡ position_or_len (λ b. b == wanted) bytes.now }
    ensures within { result ≤ length bytes.now }
{
    let mut i = 0;
    while bytes.len() - i >= 4 {
        if bytes[i] == wanted {
            return i;
        }
        if bytes[i + 1] == wanted {
            return i + 1;
        }
        if bytes[i + 2] == wanted {
            return i + 2;
        }
        if bytes[i + 3] == wanted {
            return i + 3;
        }
        i += 4;
    }
    place_after(bytes, wanted, i)
}

/// The first line of a text that has bytes left, without its byte 10, and the bytes after it.
pub fn first_line(text: &[u8]) -> (&[u8], &[u8])
    requires { 0 < length text.now }
    ensures cut { lines text.now ≡ take (length text.now - length result.1.now) text.now ∷ lines result.1.now }
    ensures body { body (take (length text.now - length result.1.now) text.now) ≡ result.0.now }
    ensures utf8 { IsUtf8 text.now → IsUtf8 result.0.now × IsUtf8 result.1.now }
    ensures shorter { length result.1.now < length text.now }
{
    let n = place_of(text, b'\n');
    if n == text.len() {
        return (text, &[]);
    }
    (&text[..n], &text[n + 1..])
}

/// The first line of a text that has bytes left, with its byte 10 where it has one, and the bytes after it.
pub fn whole_line(text: &[u8]) -> (&[u8], &[u8])
    requires { 0 < length text.now }
    ensures cut { lines text.now ≡ result.0.now ∷ lines result.1.now }
    ensures shorter { length result.1.now < length text.now }
{
    let n = place_of(text, b'\n');
    if n == text.len() {
        return (text, &[]);
    }
    (&text[..n + 1], &text[n + 1..])
}

/// The bytes after the spaces at the front.
fn behind_spaces(bytes: &[u8]) -> &[u8]
    ensures same { words result.now ≡ words bytes.now }
    ensures begins { slice_index result.now 0 ≢ 32 }
    ensures shorter { length result.now ≤ length bytes.now }
{
    let n = spaces_of(bytes);
    &bytes[n..]
}

/// How many spaces stand at the front.
fn spaces_of(bytes: &[u8]) -> usize
    ensures within { result ≤ length bytes.now }
    ensures same { words (drop result bytes.now) ≡ words bytes.now }
    ensures begins { slice_index (drop result bytes.now) 0 ≢ 32 }
{
    for (i, b) in bytes.iter().enumerate() {
        if *b != b' ' {
            return i;
        }
    }
    bytes.len()
}

/// How long the text at the front is, which begins with a quote. Few words are texts.
#[inline(never)]
fn text_len(line: &[u8]) -> usize
    requires some { 0 < length line.now }
    requires begins { slice_index line.now 0 ≡ 34 }
    ensures within { result ≤ length line.now }
    ensures some { 0 < result }
    ensures cut { words line.now ≡ take result line.now ∷ words (drop result line.now) }
{
    let n = place_of(&line[1..], b'"') + 2;
    if n > line.len() {
        return line.len();
    }
    n + place_of(&line[n..], b' ')
}

/// How long the word at the front is.
#[inline(always)]
fn word_len(line: &[u8]) -> usize
    requires some { 0 < length line.now }
    requires begins { slice_index line.now 0 ≢ 32 }
    ensures within { result ≤ length line.now }
    ensures some { 0 < result }
    ensures cut { words line.now ≡ take result line.now ∷ words (drop result line.now) }
{
    if line[0] == b'"' {
        return text_len(line);
    }
    place_of(line, b' ')
}

/// The first word of a line, and what is after it.
#[inline(always)]
pub fn first_word(line: &[u8]) -> Result<(&[u8], &[u8]), LineRefusal>
    ensures { Gives (λ x. (x.0.now, words x.1.now)) result (first (words line.now)) }
{
    let line = behind_spaces(line);
    if line.is_empty() {
        return Err(LineRefusal::Cause(TextCause::Missing));
    }
    let n = word_len(line);
    Ok((&line[..n], &line[n..]))
}

/// No word is left.
pub fn no_more(line: &[u8]) -> Result<(), LineRefusal>
    ensures { Gives (λ _. tt) result (ended (words line.now)) }
{
    let line = behind_spaces(line);
    if line.is_empty() {
        return Ok(());
    }
    let n = word_len(line);
    let _ = n;
    Err(LineRefusal::Cause(TextCause::TooMany))
}

/// The first word of a line and what is after it, if a word is left.
#[inline(always)]
pub fn next_word(line: &[u8]) -> Option<(&[u8], &[u8])>
    ensures given { MatchOption result (words line.now ≡ []) (λ x. words line.now ≡ x.0.now ∷ words x.1.now) }
    ensures shorter { IfSome result (λ x. length x.0.now + length x.1.now ≤ length line.now) }
    ensures some { IfSome result (λ x. 0 < length x.0.now) }
{
    let line = behind_spaces(line);
    if line.is_empty() {
        return None;
    }
    let n = word_len(line);
    Some((&line[..n], &line[n..]))
}

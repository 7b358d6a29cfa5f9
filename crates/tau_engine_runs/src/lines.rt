//! Lines that scenes spell, and lines that a call told.
use crate::spell::{named, number_of};
use std::alloc::Global;
use std::process::Abort;
use std::str;

// What these lines are: those that a name beginning with `@` stands for in the text, or what is spelled. Lines have ` ; ` between them.
fn lines_of<'t>(text: &'t str, spelled: &'t str) -> Option<&'t str> {
    if spelled.starts_with('@') {
        named(text, spelled)
    } else {
        Some(spelled)
    }
}

/// The lines as they are told, each with its end.
pub(crate) fn spelled_lines<R: Abort>(
    rt: &R,
    alloc: Global,
    text: &str,
    spelled: &str,
) -> Option<String> {
    let spelled = lines_of(text, spelled)?;
    let mut lines = spelled.replace(alloc, " ; ", "\n").expect(rt, "memory");
    lines.push_str("\n").expect(rt, "memory");
    Some(lines)
}

/// Whether these lines were told, one after another.
pub(crate) fn are_told<R: Abort>(rt: &R, alloc: Global, told: &[u8], lines: &str) -> bool {
    let told = str::from_utf8(told).unwrap_or("");
    if told.starts_with(lines) {
        return true;
    }
    let wanted = format!(in alloc; "\n{lines}").expect(rt, "memory");
    told.contains(wanted.as_str())
}

/// The first line.
pub(crate) fn first_of(told: &[u8]) -> &str {
    let text = str::from_utf8(told).unwrap_or("");
    text.lines().next().unwrap_or("")
}

/// Whether the line begins with these words.
pub(crate) fn begins(line: &str, words: &str) -> bool {
    match line.strip_prefix(words) {
        Some(rest) => rest.is_empty() || rest.starts_with(' '),
        None => false,
    }
}

// The number at the end of the line.
fn last_number(line: &str) -> i64 {
    let (_, number) = line.rsplit_once(' ').unwrap_or(("", line));
    number.parse::<i64>().unwrap_or(0)
}

// How many of the lines that were told begin with these words, and the sum of the numbers at their ends.
fn tally_of(told: &[u8], words: &str) -> (u64, i64) {
    let mut count = 0u64;
    let mut sum = 0i64;
    for line in str::from_utf8(told).unwrap_or("").lines() {
        if begins(line, words) {
            count = count.wrapping_add(1);
            sum = sum.wrapping_add(last_number(line));
        }
    }
    (count, sum)
}

/// Whether as many lines begin with the words as stand before them.
pub(crate) fn is_count(told: &[u8], spelled: &str) -> bool {
    match number_of(spelled) {
        Some((count, words)) => tally_of(told, words).0 == count,
        None => false,
    }
}

/// Whether the lines that begin with the words have the sum that stands before them.
pub(crate) fn is_sum(told: &[u8], spelled: &str) -> bool {
    match number_of(spelled) {
        Some((sum, words)) => i64::try_from(sum) == Ok(tally_of(told, words).1),
        None => false,
    }
}

/// Whether a line begins with these words.
pub(crate) fn has_one(told: &[u8], words: &str) -> bool {
    tally_of(told, words).0 != 0
}

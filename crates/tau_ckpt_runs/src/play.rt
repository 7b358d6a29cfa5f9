//! What the rows of a text say: a word, what it is about, ` = `, and what is wanted. Images are names and digits, a checkpoint is its
//! number, its epoch and its positions, and behind them the table, the row and the amount of each of its rows. Two slots stand on
//! the two sides of ` / `.

use crate::logs::{after, is_chosen, marks, redo};
use crate::names::bytes_of;
use crate::slots::{are_slots, goes_to, hold, reads, says};
use crate::stops::{stops, writes};
use std::alloc::Global;
use std::process::Abort;

/// `length`: whether there are so many bytes.
fn is_long(alloc: Global, words: &str, wanted: &str) -> Option<bool> {
    says(wanted, &[bytes_of(alloc, words)?.len() as u64])
}

/// Whether what a row says is so.
fn is_so(alloc: Global, row: &str) -> Option<bool> {
    let (what, wanted) = row.split_once(" = ")?;
    let (word, rest) = what.split_once(' ').unwrap_or((what, ""));
    match word {
        "length" => is_long(alloc, rest, wanted),
        "read" => reads(alloc, rest, wanted),
        "slots" => are_slots(wanted),
        "hold" => hold(alloc, rest, wanted),
        "next" => goes_to(alloc, rest, wanted),
        "chosen" => is_chosen(alloc, rest, wanted),
        "redo" => redo(alloc, rest, wanted),
        "after" => after(alloc, rest, wanted),
        "mark" => marks(alloc, rest, wanted),
        "stop" => stops(alloc, rest, wanted),
        "write" => writes(alloc, rest, wanted),
        _ => None,
    }
}

/// Plays a text, each line of which is a row or, from `#` on, says what the next rows show.
pub fn play<R: Abort>(rt: &R, alloc: Global, text: &str) {
    for line in text.lines() {
        let good = line.starts_with("# ") || is_so(alloc, line) == Some(true);
        assert!(rt; good, "{line}");
    }
}

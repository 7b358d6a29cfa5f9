//! What calls of scenes have told, and what is seen of it.
use crate::lines::{are_told, begins, first_of, has_one, is_count, is_sum, spelled_lines};
use std::alloc::Global;
use std::process::Abort;

/// What the last call has told.
#[derive(Drop)]
pub(crate) struct Told {
    bytes: Vec<u8>,
    // How much of it was looked at.
    seen: usize,
    // What was told before, and kept.
    kept: Vec<u8>,
}

impl Told {
    pub(crate) fn new(alloc: Global) -> Told {
        Told {
            bytes: Vec::new(alloc),
            seen: 0,
            kept: Vec::new(alloc),
        }
    }

    pub(crate) fn bytes(&self) -> &[u8] {
        &self.bytes
    }

    /// A call has told this; it may be that nothing of it is to be looked at.
    pub(crate) fn set<R: Abort>(&mut self, rt: &R, bytes: &[u8], is_any: bool) {
        self.bytes.clear();
        self.bytes.extend_from_slice(bytes).expect(rt, "memory");
        self.seen = if is_any { bytes.len() } else { 0 };
    }

    /// Whether all of it was looked at.
    pub(crate) fn is_seen(&self) -> bool {
        self.seen == self.bytes.len()
    }

    // The next lines that were told are these.
    fn next_is<R: Abort>(&mut self, rt: &R, alloc: Global, text: &str, lines: &str) -> bool {
        let Some(lines) = spelled_lines(rt, alloc, text, lines) else {
            return false;
        };
        let rest = self.bytes.get(self.seen..).unwrap_or(&[]);
        let is_next = rest.starts_with(lines.as_bytes());
        self.seen = self.seen.wrapping_add(lines.len());
        is_next
    }

    // These are some of the next lines.
    fn has_next<R: Abort>(&mut self, rt: &R, alloc: Global, text: &str, lines: &str) -> bool {
        let Some(lines) = spelled_lines(rt, alloc, text, lines) else {
            return false;
        };
        self.seen = self.seen.wrapping_add(lines.len());
        are_told(rt, alloc, &self.bytes, &lines)
    }

    // Keeps what was told.
    fn keep<R: Abort>(&mut self, rt: &R) -> bool {
        self.kept.clear();
        self.kept
            .extend_from_slice(&self.bytes)
            .expect(rt, "memory");
        self.seen = self.bytes.len();
        true
    }

    // After a first line that begins with these words, what was told is what was kept.
    fn is_kept(&mut self, words: &str) -> bool {
        self.seen = self.bytes.len();
        let line = first_of(&self.bytes);
        let rest = self.bytes.get(line.len().wrapping_add(1)..);
        begins(line, words) && rest == Some(self.kept.as_slice())
    }

    // Of all that was told, lines are these.
    fn has<R: Abort>(&mut self, rt: &R, alloc: Global, text: &str, lines: &str) -> bool {
        self.seen = 0;
        let is_so = self.has_next(rt, alloc, text, lines);
        self.seen = self.bytes.len();
        is_so
    }

    // If a line begins with the words before ` ; `, the line after it was told.
    fn has_where<R: Abort>(&mut self, rt: &R, alloc: Global, text: &str, rest: &str) -> bool {
        let Some((words, line)) = rest.split_once(" ; ") else {
            return false;
        };
        self.seen = self.bytes.len();
        !has_one(&self.bytes, words) || self.has(rt, alloc, text, line)
    }

    // How many lines begin with words, and their sum.
    fn has_tally(&mut self, word: &str, rest: &str) -> bool {
        self.seen = self.bytes.len();
        match word {
            "count" => is_count(&self.bytes, rest),
            "sum" => is_sum(&self.bytes, rest),
            _ => false,
        }
    }

    /// Whether what the word says of what was told is so.
    pub(crate) fn look<R: Abort>(
        &mut self,
        rt: &R,
        alloc: Global,
        text: &str,
        word: &str,
        rest: &str,
    ) -> bool {
        match word {
            "<" => self.next_is(rt, alloc, text, rest),
            "~" => self.has_next(rt, alloc, text, rest),
            "has" => self.has(rt, alloc, text, rest),
            "where" => self.has_where(rt, alloc, text, rest),
            "keep" => self.keep(rt),
            "kept" => self.is_kept(rest),
            _ => self.has_tally(word, rest),
        }
    }
}

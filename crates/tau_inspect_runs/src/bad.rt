//! Texts that are no report, with their first bad lines.
ghost use Rattle.std.specs.Prelude.{◌<◌, length};
ghost use Rattle.tau_scan.specs.Reading.{IsLog};

use crate::logs::log_of;
use crate::reports::{bad_line, text_of, verdict_on};
use std::alloc::Global;
use std::process::Abort;
use std::test::*;
use tau_inspect::Verdict;
use tau_scan::Log;

// A call that writes a row, and one of another stream that adds to it.
static ACROSS: &[u8] = b"table a\nput a 1 5\nadd a 1 2\n";

// What their run tells.
static ACROSS_TOLD: &[u8] =
    b"ack 1 53,0\nack 2 53,61\nreply 1 none\nreply 2 int 7\norder 1\norder 2\nrow a 1 int 7\nend 0\n";

// The first bad line of each text, 0 if it is a report, of these two calls over two streams.
static TEXTS: &str = "\
1:
1:¶
1:end 0¶
0:unrun 1¶unrun 2¶end 0¶
0:unrun 1¶unrun 2¶end 6 0¶
0:unsure 1 none¶unrun 2¶order 1¶end 6 1¶
# Acknowledgements.
2:ack 1 53,0¶ack 1 53,0¶unrun 1¶unrun 2¶end 0¶
3:ack 2 1,2¶ack 1 53,0¶ack 2 1,2¶unrun 1¶unrun 2¶end 0¶
1:ack 0 53,0¶unrun 1¶unrun 2¶end 0¶
1:ack 3 53,0¶unrun 1¶unrun 2¶end 0¶
1:ack 01 53,0¶unrun 1¶unrun 2¶end 0¶
1:ack 1 53¶unrun 1¶unrun 2¶end 0¶
1:ack 1 53,0,0¶unrun 1¶unrun 2¶end 0¶
1:ack 1 53, 0¶unrun 1¶unrun 2¶end 0¶
1:ack 1 53,0 ¶unrun 1¶unrun 2¶end 0¶
1:ack 1 4611686018427387904,0¶unrun 1¶unrun 2¶end 0¶
0:ack 1 4611686018427387903,0¶unrun 1¶unrun 2¶end 0¶
1:ack 1 053,0¶unrun 1¶unrun 2¶end 0¶
0:ack 1 99999999999999999,0¶unrun 1¶unrun 2¶end 0¶
0:ack 1 0,999999999999999999¶unrun 1¶unrun 2¶end 0¶
0:ack 1 0,1000000000000000000¶unrun 1¶unrun 2¶end 0¶
2:unrun 1¶ack 1 53,0¶unrun 2¶end 0¶
# What became of the calls.
1:unrun 2¶unrun 1¶end 0¶
2:unrun 1¶end 0¶
3:unrun 1¶unrun 2¶unrun 3¶end 0¶
2:unrun 1¶unrun 1¶end 0¶
1:reply 1¶unrun 2¶end 0¶
1:reply 1 int 05¶unrun 2¶end 0¶
1:reply 1 int 9223372036854775808¶unrun 2¶end 0¶
0:reply 1 int -9223372036854775808¶unsure 2 text \"\"¶end 0¶
1:reply 1 text \"a¶unrun 2¶end 0¶
1:reply 1 refused 0¶unrun 2¶end 0¶
0:reply 1 refused 64¶unrun 2¶end 0¶
1:reply 1 refused 65¶unrun 2¶end 0¶
1:unrun 1 none¶unrun 2¶end 0¶
# The history.
3:unrun 1¶unrun 2¶order 0¶end 0¶
3:unrun 1¶unrun 2¶order 01¶row a 1 int 1¶end 0¶
0:reply 1 int 99999999999999999¶unrun 2¶order 1¶row a 1 int 1¶end 0¶
4:unrun 1¶unrun 2¶order 2¶order 3¶end 0¶
# Rows.
3:unrun 1¶unrun 2¶row b 1 int 1¶end 0¶
3:unrun 1¶unrun 2¶row a 1 none¶end 0¶
4:unrun 1¶unrun 2¶row a 1 int 1¶row a 1 int 1¶end 0¶
4:unrun 1¶unrun 2¶row a 2 int 1¶row a -1 int 1¶end 0¶
0:unrun 1¶unrun 2¶row a -1 int 1¶row a 2 text \"b c\"¶end 0¶
4:unrun 1¶unrun 2¶row a 1 int 1¶order 1¶end 0¶
# The end.
3:unrun 1¶unrun 2¶
3:unrun 1¶unrun 2¶end 0
3:unrun 1¶unrun 2¶end 1¶
3:unrun 1¶unrun 2¶end 6 2¶
4:unrun 1¶unrun 2¶end 0¶¶
4:unrun 1¶unrun 2¶end 0¶end 0¶";

// Whether a row is so.
fn is_row(rt: &impl Abort, alloc: Global, row: &str) -> bool {
    let Some((line, spelled)) = row.split_once(':') else {
        return false;
    };
    let text = text_of(rt, alloc, spelled);
    let found = bad_line(alloc, ACROSS, text.as_str().as_bytes());
    found.is_some() && line.parse::<u32>().ok() == found
}

#[test]
fn first_bad_lines(rt: HostRuntime) {
    for row in TEXTS.lines() {
        assert!(rt;
            row.starts_with("# ") || is_row(&rt, rt.alloc(), row),
            "{row}"
        );
    }
}

// How many lines of a text are whole.
fn lines_of(text: &[u8]) -> u32 {
    let mut lines = 0u32;
    for byte in text {
        if *byte == b'\n' {
            lines = lines.wrapping_add(1);
        }
    }
    lines
}

// What is left of a report that ends too early is bad in the line that lacks or is not whole.
#[test]
fn a_report_cut_short(rt: HostRuntime) {
    for end in 0..ACROSS_TOLD.len() {
        let text = &ACROSS_TOLD[..end];
        let found = bad_line(rt.alloc(), ACROSS, text);
        assert!(rt;
            found == Some(lines_of(text).wrapping_add(1)),
            "cut at {end}"
        );
    }
}

// Whether a text is no report, or one that is not true of the log.
fn is_not_true(alloc: Global, text: &[u8], log: &Log) -> bool
    requires { IsLog log.now }
{
    match bad_line(alloc, ACROSS, text) {
        None => false,
        Some(0) => match verdict_on(alloc, ACROSS, text, log) {
            None => false,
            Some(verdict) => verdict != Verdict::Yes,
        },
        Some(_) => true,
    }
}

// Bytes that take the place of another one.
static BYTES: &[u8; 15] = b"0123456789 ,\n\"-";

// The byte that takes the place of another one: one of those, or with one of its bits changed.
fn other_byte(was: u8, which: usize) -> u8 {
    match BYTES.get(which) {
        Some(byte) => *byte,
        None => was ^ (1 << (which % 8)),
    }
}

// Checks this of a text with another byte at this place, for each byte that takes it.
fn are_not_true(rt: &impl Abort, alloc: Global, text: &mut [u8], place: usize, log: &Log)
    requires log { IsLog log.now }
    requires place { place < length text.old }
{
    let was = text[place];
    for which in 0..23 {
        let byte = other_byte(was, which);
        text[place] = byte;
        let so = byte == was || is_not_true(alloc, text, log);
        assert!(rt; so, "byte {place} as {byte}");
    }
    text[place] = was;
}

// Checks this of the report with each of its bytes changed.
fn changed_are_not_true(rt: &impl Abort, alloc: Global, log: &Log)
    requires { IsLog log.now }
{
    let mut text = Vec::from_slice(alloc, ACROSS_TOLD).expect(rt, "memory");
    for place in 0..text.len() {
        if place < text.len() {
            are_not_true(rt, alloc, text.as_mut_slice(), place, log);
        }
    }
}

#[test]
fn each_byte_changed(rt: HostRuntime) {
    let log = log_of(&rt, rt.alloc(), "1", "first,second");
    changed_are_not_true(&rt, rt.alloc(), &log);
}

//! Scenes of runs in threads in both styles, against reports and records that were worked by hand.
use crate::play::play;
use std::alloc::Global;
use std::test::*;

/// Reports of one worker.
static REPORTS: &str = "
scene: the record of the call takes 40 bytes after the 13 of the catalogue
table a
put a 1 5

run: new 1, locking 1, optimistic 1
ack 1 53,0
reply 1 none
order 1
row a 1 int 5
end 0

scene: calls that read, write, refuse and only read, one after another; the declarations have 136 bytes, the record of the catalogue 141; the records of the calls that write end at 181, 221 and 288
table acct
proc move 3
get r0 acct $1
need r0 >= $3
sub r0 r0 $3
get r1 acct $2
add r1 r1 $3
put acct $1 r0
put acct $2 r1
reply r0
end
put acct 1 100
put acct 2 50
call move 1 2 30
call move 1 2 80
get acct 2

run: locking 1, optimistic 1
ack 1 181,0
ack 2 221,0
ack 3 288,0
ack 4 288,0
ack 5 288,0
reply 1 none
reply 2 none
reply 3 int 70
reply 4 refused 2
reply 5 int 80
order 1
order 2
order 3
order 4
order 5
row acct 1 int 70
row acct 2 int 80
end 0
";

#[test]
fn reports_in_either_style(rt: HostRuntime) -> Result<(), Fail> {
    play(&rt, rt.alloc(), "", REPORTS)
}

/// What the disks hold after the run.
static IMAGES: &str = "
scene: two puts that write apart: each record stands at 13 to 53 of its stream with the vector 0,0, however the threads go; an image of 53 bytes of content in two blocks has 80 bytes
table a
put a 1 5
put a 2 6

run: locking 2, optimistic 2
image 5441555255532d4c4f472d3100020000010000000d040000000d7461626c6520610a01000000280100000028000000000000000100000000000000010000000000000000000101000000000000000500
image 5441555255532d4c4f472d3100020001010000000d040000000d7461626c6520610a01000000280100000028000000000000000200000000000000010000000000000000000201000000000000000600
";

#[test]
fn puts_apart_in_either_style(rt: HostRuntime) -> Result<(), Fail> {
    play(&rt, rt.alloc(), "", IMAGES)
}

/// The anchors that the first stream gets.
static ANCHORS: &str = "
scene: fifteen calls put a text of 64 bytes into 64 rows each: the record of such a call takes 4,949 bytes or 8 more: 21, and for each row 13 and those of the text; so the records of the first stream take 74,235 to 74,347 bytes: from 65,536 on an anchor is due, and a second one is not before 131,072; a stream that has 2^32 - 1 of them gets none, and the run goes to its end
table a
proc fill 1
put a 1 $1
put a 2 $1
put a 3 $1
put a 4 $1
put a 5 $1
put a 6 $1
put a 7 $1
put a 8 $1
put a 9 $1
put a 10 $1
put a 11 $1
put a 12 $1
put a 13 $1
put a 14 $1
put a 15 $1
put a 16 $1
put a 17 $1
put a 18 $1
put a 19 $1
put a 20 $1
put a 21 $1
put a 22 $1
put a 23 $1
put a 24 $1
put a 25 $1
put a 26 $1
put a 27 $1
put a 28 $1
put a 29 $1
put a 30 $1
put a 31 $1
put a 32 $1
put a 33 $1
put a 34 $1
put a 35 $1
put a 36 $1
put a 37 $1
put a 38 $1
put a 39 $1
put a 40 $1
put a 41 $1
put a 42 $1
put a 43 $1
put a 44 $1
put a 45 $1
put a 46 $1
put a 47 $1
put a 48 $1
put a 49 $1
put a 50 $1
put a 51 $1
put a 52 $1
put a 53 $1
put a 54 $1
put a 55 $1
put a 56 $1
put a 57 $1
put a 58 $1
put a 59 $1
put a 60 $1
put a 61 $1
put a 62 $1
put a 63 $1
put a 64 $1
end
call fill \"abcdefghijklmnopqrstuvwxyzabcdefghijklmnopqrstuvwxyzabcdefghijkl\"
call fill \"abcdefghijklmnopqrstuvwxyzabcdefghijklmnopqrstuvwxyzabcdefghijkl\"
call fill \"abcdefghijklmnopqrstuvwxyzabcdefghijklmnopqrstuvwxyzabcdefghijkl\"
call fill \"abcdefghijklmnopqrstuvwxyzabcdefghijklmnopqrstuvwxyzabcdefghijkl\"
call fill \"abcdefghijklmnopqrstuvwxyzabcdefghijklmnopqrstuvwxyzabcdefghijkl\"
call fill \"abcdefghijklmnopqrstuvwxyzabcdefghijklmnopqrstuvwxyzabcdefghijkl\"
call fill \"abcdefghijklmnopqrstuvwxyzabcdefghijklmnopqrstuvwxyzabcdefghijkl\"
call fill \"abcdefghijklmnopqrstuvwxyzabcdefghijklmnopqrstuvwxyzabcdefghijkl\"
call fill \"abcdefghijklmnopqrstuvwxyzabcdefghijklmnopqrstuvwxyzabcdefghijkl\"
call fill \"abcdefghijklmnopqrstuvwxyzabcdefghijklmnopqrstuvwxyzabcdefghijkl\"
call fill \"abcdefghijklmnopqrstuvwxyzabcdefghijklmnopqrstuvwxyzabcdefghijkl\"
call fill \"abcdefghijklmnopqrstuvwxyzabcdefghijklmnopqrstuvwxyzabcdefghijkl\"
call fill \"abcdefghijklmnopqrstuvwxyzabcdefghijklmnopqrstuvwxyzabcdefghijkl\"
call fill \"abcdefghijklmnopqrstuvwxyzabcdefghijklmnopqrstuvwxyzabcdefghijkl\"
call fill \"abcdefghijklmnopqrstuvwxyzabcdefghijklmnopqrstuvwxyzabcdefghijkl\"

run: locking 1
anchors 15 1

run: locking 1 after 4294967295
anchors 15 0
";

#[test]
fn a_full_stream_gets_no_anchor(rt: HostRuntime) -> Result<(), Fail> {
    play(&rt, rt.alloc(), "", ANCHORS)
}

/// A row that all workers write.
static COUNTS: &str = "
scene: each of 200 calls adds 1 to one row: whatever peeks differ, each call is acknowledged, and they reply the numbers from 1 in the order of the history

run: locking 2, optimistic 2, locking 4, optimistic 4, locking 16, optimistic 16
counts 200
";

/// The calls of that scene.
fn adds(alloc: Global) -> Result<String, Fail> {
    let mut text = String::from_str(alloc, "table a\n")?;
    for _ in 0..200 {
        text.push_str("add a 1 1\n")?;
    }
    Ok(text)
}

#[test]
fn a_row_that_all_write(rt: HostRuntime) -> Result<(), Fail> {
    let text = adds(rt.alloc())?;
    play(&rt, rt.alloc(), text.as_str(), COUNTS)
}

//! Images: how blocks are written, and what is found in them, against bytes spelled by hand.
use std::alloc::Global;
use std::process::Abort;
use std::test::*;
use tau_base::{Format, MAX_BODY};
use tau_block::{
    ImageRefusal, append_tail, contents_of, header, header_wide, open_gate, stated_format,
};

// The log of a stream of one: the catalogue of `table a`, and the data record of `put a 1 5`. Its gates are at 16, 34
// and 79.
static LOG: [u8; 80] = [
    84, 65, 85, 82, 85, 83, 45, 76, 79, 71, 45, 49, 0, 1, 0, 0, 1, 0, 0, 0, 13, 4, 0, 0, 0, 13,
    116, 97, 98, 108, 101, 32, 97, 10, 1, 0, 0, 0, 40, 1, 0, 0, 0, 40, 0, 0, 0, 0, 0, 0, 0, 1, 0,
    0, 0, 0, 0, 0, 0, 1, 0, 0, 0, 0, 0, 0, 0, 0, 0, 1, 1, 0, 0, 0, 0, 0, 0, 0, 5, 0,
];

fn log() -> &'static [u8] {
    &LOG
}

// The log of stream 0 of two in format 2: the same catalogue, and the same record with its wider mask. Its gates are at
// 16, 34 and 81.
static WIDE_LOG: [u8; 82] = [
    84, 65, 85, 82, 85, 83, 45, 76, 79, 71, 45, 50, 0, 2, 0, 0, 1, 0, 0, 0, 13, 4, 0, 0, 0, 13,
    116, 97, 98, 108, 101, 32, 97, 10, 1, 0, 0, 0, 42, 1, 0, 0, 0, 42, 0, 0, 0, 0, 0, 0, 0, 1, 0,
    0, 0, 0, 0, 0, 0, 0, 0, 1, 0, 0, 0, 0, 0, 0, 0, 0, 0, 1, 1, 0, 0, 0, 0, 0, 0, 0, 5, 0,
];

fn wide_log() -> &'static [u8] {
    &WIDE_LOG
}

/// The number of streams, the place of the closed gate, the size of the content, and the number of the cause.
type Found = (u16, u64, usize, u8);

// What is found in an image, or the number of the cause alone.
fn found(alloc: Global, image: &[u8], j: u16) -> Found {
    match contents_of(alloc, image, j) {
        Ok(content) => (
            content.count.unwrap_or(0),
            content.gate_at,
            content.bytes.len(),
            0,
        ),
        Err(ImageRefusal::Bad(fault)) => (0, 0, 0, fault as u8),
        Err(ImageRefusal::NoMemory) => (0, 0, 0, 255),
    }
}

/// The first bytes of an image.
fn first<'a>(rt: &impl Abort, image: &'a [u8], size: usize) -> &'a [u8] {
    assert!(rt; size <= image.len());
    &image[..size]
}

/// The bytes from a place up to another.
fn part<'a>(rt: &impl Abort, image: &'a [u8], from: usize, past: usize) -> &'a [u8] {
    assert!(rt; from <= past && past <= image.len());
    &image[from..past]
}

/// Puts a block behind a closed gate.
fn append_closed(rt: &impl Abort, image: &mut Vec<u8>, body: &[u8]) -> Result<(), Fail> {
    assert!(rt; 1 <= body.len() && body.len() <= MAX_BODY);
    append_tail(image, body)?;
    Ok(())
}

fn open(rt: &impl Abort, image: &mut [u8], gate: usize) {
    assert!(rt; gate < image.len());
    image[gate] = open_gate()[0];
}

/// This image becomes the log when its blocks are put behind it and its gates are opened: where the gate stands, and where
/// in the log its body begins and ends.
fn becomes(
    rt: &impl Abort,
    image: &mut Vec<u8>,
    log: &[u8],
    blocks: &[(usize, usize, usize)],
) -> Result<(), Fail> {
    for (gate, from, past) in blocks {
        append_closed(rt, image, part(rt, log, *from, *past))?;
        open(rt, image.as_mut_slice(), *gate);
    }
    assert!(rt; image.as_slice() == log);
    Ok(())
}

/// Changes bytes of an image.
fn change(rt: &impl Abort, image: &mut [u8], changes: &[(usize, u8)]) {
    for (at, byte) in changes {
        assert!(rt; *at < image.len());
        image[*at] = *byte;
    }
}

/// What is found in a log with these bytes changed.
fn found_changed(
    rt: &impl Abort,
    alloc: Global,
    log: &[u8],
    changes: &[(usize, u8)],
    j: u16,
) -> Result<Found, Fail> {
    let mut image = log.to_vec(alloc)?;
    change(rt, image.as_mut_slice(), changes);
    Ok(found(alloc, image.as_slice(), j))
}

/// The header in format 1 of stream 1 of 2.
static HEADER: [u8; 17] = [
    84, 65, 85, 82, 85, 83, 45, 76, 79, 71, 45, 49, 0, 2, 0, 1, 0,
];

#[test]
fn images_are_written(rt: HostRuntime) -> Result<(), Fail> {
    assert!(rt; header(2, 1) == HEADER);
    let mut image = header(1, 0).to_vec(rt.alloc())?;
    becomes(&rt, &mut image, log(), &[(16, 21, 34), (34, 39, 79)])
}

/// The header in format 2 of stream 31 of 32.
static WIDE_HEADER: [u8; 17] = [
    84, 65, 85, 82, 85, 83, 45, 76, 79, 71, 45, 50, 0, 32, 0, 31, 0,
];

#[test]
fn images_of_format_2_are_written(rt: HostRuntime) -> Result<(), Fail> {
    assert!(rt; header_wide(32, 31) == WIDE_HEADER);
    let mut image = header_wide(2, 0).to_vec(rt.alloc())?;
    becomes(&rt, &mut image, wide_log(), &[(16, 21, 34), (34, 39, 81)])
}

/// The bytes of the content are those of both blocks of the log.
fn are_both(rt: &impl Abort, bytes: &[u8], log: &[u8]) {
    assert!(rt; bytes.len() == 53);
    assert!(rt;
        part(rt, bytes, 0, 13) == part(rt, log, 21, 34)
            && part(rt, bytes, 13, 53) == part(rt, log, 39, 79)
    );
}

#[test]
fn closed_gates_end_the_content(rt: HostRuntime) -> Result<(), Fail> {
    let content = contents_of(rt.alloc(), log(), 0)?;
    assert!(rt; content.count == Some(1) && content.gate_at == 79);
    are_both(&rt, content.bytes.as_slice(), log());
    Ok(())
}

#[test]
fn what_stands_after_a_closed_gate_is_not_read(rt: HostRuntime) -> Result<(), Fail> {
    let mut image = first(&rt, log(), 35).to_vec(rt.alloc())?;
    change(&rt, image.as_mut_slice(), &[(34, 0)]);
    image.extend_from_slice(&[1; 45])?;
    assert!(rt; found(rt.alloc(), image.as_slice(), 0) == (1, 34, 13, 0));
    Ok(())
}

/// Nothing but the first gate is found in these bytes.
fn are_unborn(rt: &impl Abort, alloc: Global, image: &[u8], j: u16) {
    let size = image.len();
    assert!(rt; found(alloc, image, j) == (0, 16, 0, 0), "{size} bytes");
}

#[test]
fn short_images_are_unborn(rt: HostRuntime) {
    let alloc = rt.alloc();
    for size in 0usize..18 {
        are_unborn(&rt, alloc, first(&rt, log(), size), 0);
        are_unborn(&rt, alloc, first(&rt, &[1; 17], size.min(17)), 5);
    }
    assert!(rt; found(alloc, &[0u8; 18], 0) == (0, 0, 0, 1));
}

static CUT: [usize; 8] = [18, 20, 21, 33, 34, 39, 78, 79];

#[test]
fn logs_that_are_cut(rt: HostRuntime) {
    for size in &CUT {
        let seen = found(rt.alloc(), first(&rt, log(), *size), 0);
        assert!(rt; seen == (0, 0, 0, 4), "cut to {size} bytes");
    }
}

/// The image of stream 2 of three with this body, before its gate is opened and after.
fn found_both(rt: &impl Abort, alloc: Global, body: &[u8]) -> Result<[Found; 2], Fail> {
    let mut image = header(3, 2).to_vec(alloc)?;
    append_closed(rt, &mut image, body)?;
    let closed = found(alloc, image.as_slice(), 2);
    open(rt, image.as_mut_slice(), 16);
    Ok([closed, found(alloc, image.as_slice(), 2)])
}

#[test]
fn bodies_of_all_sizes(rt: HostRuntime) -> Result<(), Fail> {
    for size in [1usize, MAX_BODY] {
        let body = vec![in rt.alloc(); 9; size]?;
        let seen = found_both(&rt, rt.alloc(), body.as_slice())?;
        let wanted = [(3, 16, 0, 0), (3, 21 + size as u64, size, 0)];
        assert!(rt; seen == wanted, "{size} bytes, closed and open");
    }
    Ok(())
}

#[test]
fn a_wide_content_is_read(rt: HostRuntime) -> Result<(), Fail> {
    let content = contents_of(rt.alloc(), wide_log(), 0)?;
    assert!(rt; content.count == Some(2) && content.gate_at == 81 && content.bytes.len() == 55);
    Ok(())
}

#[test]
fn a_content_states_its_format(rt: HostRuntime) -> Result<(), Fail> {
    let rows = [
        (wide_log(), Some(Format::Two)),
        (log(), Some(Format::One)),
        (first(&rt, wide_log(), 17), None),
    ];
    for (image, format) in rows {
        assert!(rt; contents_of(rt.alloc(), image, 0)?.format == format);
        assert!(rt; stated_format(image) == format);
    }
    assert!(rt; stated_format(first(&rt, wide_log(), 18)) == Some(Format::Two));
    Ok(())
}

// Each number of streams above those of format 1 is one of format 2 alone. Bytes 11, 13 and 15 are the digit of the format,
// the number of streams and the stream.
#[test]
fn counts_of_format_2(rt: HostRuntime) -> Result<(), Fail> {
    for n in 17u8..33 {
        let last = n - 1;
        let changes = [(13, n), (15, last)];
        let wide = found_changed(&rt, rt.alloc(), wide_log(), &changes, u16::from(last))?;
        assert!(rt; wide == (u16::from(n), 81, 55, 0), "{n} streams");
        let changes = [(11, 49), (13, n), (15, last)];
        let narrow = found_changed(&rt, rt.alloc(), wide_log(), &changes, 16)?;
        assert!(rt; narrow == (0, 0, 0, 2), "{n} streams in format 1");
    }
    Ok(())
}

/// Whether a log is that of format 2, which of its bytes are changed, the stream that is asked, and what is found.
static CHANGES: [(bool, &[(usize, u8)], u16, Found); 37] = [
    // a gate that does not read 1 ends the content
    (false, &[(34, 0)], 0, (1, 34, 13, 0)),
    (false, &[(34, 2)], 0, (1, 34, 13, 0)),
    (false, &[(34, 7)], 0, (1, 34, 13, 0)),
    (false, &[(34, 255)], 0, (1, 34, 13, 0)),
    // each cause at its edge
    (false, &[(0, 0)], 0, (0, 0, 0, 1)),
    (false, &[(11, 51)], 0, (0, 0, 0, 1)),
    (false, &[(12, 1)], 0, (0, 0, 0, 2)),
    (false, &[(13, 0)], 0, (0, 0, 0, 2)),
    (false, &[(13, 17)], 0, (0, 0, 0, 2)),
    (false, &[(14, 1)], 0, (0, 0, 0, 3)),
    (false, &[(15, 1)], 0, (0, 0, 0, 3)),
    (false, &[(17, 1)], 0, (0, 0, 0, 4)),
    (false, &[(18, 1)], 0, (0, 0, 0, 4)),
    (false, &[(20, 0)], 0, (0, 0, 0, 4)),
    (false, &[(20, 63)], 0, (0, 0, 0, 4)),
    (false, &[(38, 41)], 0, (0, 0, 0, 4)),
    (false, &[(79, 1)], 0, (0, 0, 0, 4)),
    // of several causes the first one that is looked for is told; bytes 13 and 15 are the number of streams and the stream
    (false, &[(13, 16), (15, 15)], 15, (16, 79, 53, 0)),
    (false, &[(13, 16), (15, 15)], 14, (0, 0, 0, 3)),
    (false, &[(13, 15), (15, 15)], 15, (0, 0, 0, 3)),
    (false, &[(13, 0), (15, 15)], 0, (0, 0, 0, 2)),
    (false, &[(13, 0), (15, 15), (0, 0)], 0, (0, 0, 0, 1)),
    // the same in format 2
    (true, &[(0, 0)], 0, (0, 0, 0, 1)),
    (true, &[(11, 51)], 0, (0, 0, 0, 1)),
    (true, &[(12, 1)], 0, (0, 0, 0, 2)),
    (true, &[(13, 0)], 0, (0, 0, 0, 2)),
    (true, &[(13, 33)], 0, (0, 0, 0, 2)),
    (true, &[(14, 1)], 0, (0, 0, 0, 3)),
    (true, &[(15, 1)], 0, (0, 0, 0, 3)),
    (true, &[(17, 1)], 0, (0, 0, 0, 4)),
    (true, &[(20, 0)], 0, (0, 0, 0, 4)),
    (true, &[(38, 43)], 0, (0, 0, 0, 4)),
    (true, &[(81, 1)], 0, (0, 0, 0, 4)),
    (true, &[(13, 33), (15, 32)], 32, (0, 0, 0, 2)),
    (true, &[(13, 33), (0, 0)], 0, (0, 0, 0, 1)),
    (true, &[(13, 32), (15, 32)], 32, (0, 0, 0, 3)),
    (true, &[(13, 32), (15, 31)], 30, (0, 0, 0, 3)),
];

#[test]
fn changed_logs_end_or_have_causes(rt: HostRuntime) -> Result<(), Fail> {
    for (row, (is_wide, changes, j, wanted)) in CHANGES.iter().enumerate() {
        let log = if *is_wide { wide_log() } else { log() };
        let seen = found_changed(&rt, rt.alloc(), log, changes, *j)?;
        assert!(rt; seen == *wanted, "row {row}");
    }
    Ok(())
}

//! What a follower goes through, as scenes: texts with a line for each thing that is done with it or compared.
ghost use Rattle.std.specs.Prelude.{◌≡◌, ◌<◌, ◌≤◌, true, IsNone};
ghost use Rattle.tau_follow.specs.Follower.{IsOpen, width_of};

use crate::bytes::{put_content, put_spelled};
use std::alloc::Global;
use std::process::Abort;
use tau_base::{Format, Key, Value};
use tau_follow::{FollowRefusal, Follower};
use tau_model::Tables;
use tau_scan::LogFault;

// Whether there is such a stream.
fn is_stream(stream: u8, n: u16) -> bool
    ensures { result ≡ true → stream < n }
{
    (stream as u16) < n
}

// Whether this is the fault that is told; none is told where there is to be none.
fn is_told(alloc: Global, found: &LogFault, told: &str) -> bool {
    match format!(in alloc; "{found:?}") {
        Ok(text) => text.as_str() == told,
        Err(_) => false,
    }
}

// Whether this is what came of a feed or of sealing.
fn is_outcome(alloc: Global, outcome: &Result<(), FollowRefusal>, told: Option<&str>) -> bool {
    match (outcome, told) {
        (Ok(()), None) => true,
        (Err(FollowRefusal::Bad(found)), Some(told)) => is_told(alloc, found, told),
        _ => false,
    }
}

// Feeds bytes, and returns whether they are taken, or refused with the fault that is told.
fn is_fed(
    alloc: Global,
    follower: &mut Follower,
    n: u16,
    stream: u8,
    bytes: &[u8],
    told: Option<&str>,
) -> bool
    requires open { IsOpen follower.old }
    requires width { width_of follower.old ≡ n }
    ensures open { IsOpen follower.new }
    ensures width { width_of follower.new ≡ n }
{
    if !is_stream(stream, n) {
        return false;
    }
    let outcome = follower.feed(stream, bytes);
    is_outcome(alloc, &outcome, told)
}

// Feeds what is spelled so: the stream and its bytes.
fn is_fed_spelled(
    alloc: Global,
    follower: &mut Follower,
    n: u16,
    cut: usize,
    fed: &str,
    told: Option<&str>,
) -> bool
    requires open { IsOpen follower.old }
    requires width { width_of follower.old ≡ n }
    ensures open { IsOpen follower.new }
    ensures width { width_of follower.new ≡ n }
{
    let Some((stream, spelled)) = fed.split_once(' ') else {
        return false;
    };
    let Ok(stream) = stream.parse::<u8>() else {
        return false;
    };
    let mut bytes = Vec::new(alloc);
    put_spelled(&mut bytes, spelled, cut)
        && is_fed(alloc, follower, n, stream, bytes.as_slice(), told)
}

// A line that feeds.
fn is_feed(alloc: Global, follower: &mut Follower, n: u16, cut: usize, line: &str) -> bool
    requires open { IsOpen follower.old }
    requires width { width_of follower.old ≡ n }
    ensures open { IsOpen follower.new }
    ensures width { width_of follower.new ≡ n }
{
    match line.split_once(" refused ") {
        Some((fed, told)) => is_fed_spelled(alloc, follower, n, cut, fed, Some(told)),
        None => is_fed_spelled(alloc, follower, n, cut, line, None),
    }
}

// Feeds the byte at this index of a content, if it has one.
fn is_byte_fed(
    alloc: Global,
    follower: &mut Follower,
    n: u16,
    stream: u8,
    name: &str,
    index: usize,
) -> bool
    requires open { IsOpen follower.old }
    requires width { width_of follower.old ≡ n }
    ensures open { IsOpen follower.new }
    ensures width { width_of follower.new ≡ n }
{
    let mut bytes = Vec::new(alloc);
    if !put_content(&mut bytes, name) {
        return false;
    }
    match bytes.get(index) {
        None => true,
        Some(byte) => is_fed(alloc, follower, n, stream, &[*byte], None),
    }
}

// Feeds the byte at this index of each stream's content.
fn are_bytes_fed(alloc: Global, follower: &mut Follower, n: u16, names: &str, index: usize) -> bool
    requires open { IsOpen follower.old }
    requires width { width_of follower.old ≡ n }
    ensures open { IsOpen follower.new }
    ensures width { width_of follower.new ≡ n }
{
    let mut stream = 0u8;
    for name in names.split(' ') {
        if !is_byte_fed(alloc, follower, n, stream, name, index) {
            return false;
        }
        stream = stream.wrapping_add(1);
    }
    true
}

// A line that feeds so many times a byte of each stream in turn.
fn are_turns(alloc: Global, follower: &mut Follower, n: u16, line: &str) -> bool
    requires open { IsOpen follower.old }
    requires width { width_of follower.old ≡ n }
    ensures open { IsOpen follower.new }
    ensures width { width_of follower.new ≡ n }
{
    let Some((times, names)) = line.split_once(' ') else {
        return false;
    };
    let Ok(times) = times.parse::<usize>() else {
        return false;
    };
    for index in 0..times {
        if !are_bytes_fed(alloc, follower, n, names, index) {
            return false;
        }
    }
    true
}

// It is refused to be sealed with the fault that is told.
fn stays(alloc: Global, follower: &mut Follower, told: &str) -> bool
    requires open { IsOpen follower.old }
    ensures open { result ≡ true → IsOpen follower.new }
    ensures width { width_of follower.new ≡ width_of follower.old }
{
    let outcome = follower.seal();
    outcome.is_err() && is_outcome(alloc, &outcome, Some(told))
}

// A row of table 0 is told as `row=number`.
fn is_row(key: &Key, value: &Value, told: &str) -> bool {
    let Some((row, number)) = told.split_once('=') else {
        return false;
    };
    match (row.parse::<i64>(), number.parse::<i64>()) {
        (Ok(row), Ok(number)) => *key == Key { table: 0, row } && *value == Value::Int(number),
        _ => false,
    }
}

// These are the rows.
fn are_rows(tables: &Tables, told: &str) -> bool {
    let mut rows = tables.rows().iter();
    for word in told.split(' ') {
        match rows.next() {
            None => return false,
            Some((key, value)) => {
                if !is_row(key, value, word) {
                    return false;
                }
            }
        }
    }
    rows.next().is_none()
}

// A line that compares.
fn is_so(follower: &Follower, line: &str) -> bool {
    match line.split_once(' ') {
        Some(("applied", count)) => count.parse::<usize>().ok() == Some(follower.applied()),
        Some(("rows", "none")) => follower.tables().rows().is_empty(),
        Some(("rows", told)) => are_rows(follower.tables(), told),
        Some(("#", _)) => true,
        _ => false,
    }
}

// A line before it is sealed.
fn is_step(alloc: Global, follower: &mut Follower, n: u16, cut: usize, line: &str) -> bool
    requires open { IsOpen follower.old }
    requires width { width_of follower.old ≡ n }
    ensures open { result ≡ true → IsOpen follower.new }
    ensures width { width_of follower.new ≡ n }
{
    match line.split_once(' ') {
        Some(("feed", fed)) => is_feed(alloc, follower, n, cut, fed),
        Some(("turns", names)) => are_turns(alloc, follower, n, names),
        Some(("stay", told)) => stays(alloc, follower, told),
        _ => is_so(follower, line),
    }
}

// The first line that is not so, of those before it is sealed.
fn wrong_step<'a>(
    alloc: Global,
    follower: &mut Follower,
    n: u16,
    cut: usize,
    lines: &'a str,
) -> Option<&'a str>
    requires open { IsOpen follower.old }
    requires width { width_of follower.old ≡ n }
    ensures { IsNone result → IsOpen follower.new }
{
    for line in lines.lines() {
        if !is_step(alloc, follower, n, cut, line) {
            return Some(line);
        }
    }
    None
}

// The lines before it is sealed.
fn play_steps(
    rt: &impl Abort,
    alloc: Global,
    follower: &mut Follower,
    n: u16,
    cut: usize,
    lines: &str,
)
    requires open { IsOpen follower.old }
    requires width { width_of follower.old ≡ n }
    ensures { IsOpen follower.new }
{
    match wrong_step(alloc, follower, n, cut, lines) {
        None => {}
        Some(line) => panic!(rt; "{line}, cut at {cut}"),
    }
}

// The contents have these lengths.
fn are_lengths(lengths: &[u64], told: &str) -> bool {
    let mut rest = lengths.iter();
    for word in told.split(',') {
        match (rest.next(), word.parse::<u64>()) {
            (Some(length), Ok(wanted)) if *length == wanted => {}
            _ => return false,
        }
    }
    rest.next().is_none()
}

// It is sealed, and its log has contents of these lengths.
fn is_sealed(follower: &mut Follower, told: &str) -> bool
    requires open { IsOpen follower.old }
{
    if follower.log().is_some() || follower.seal().is_err() {
        return false;
    }
    match follower.log() {
        Some(log) => are_lengths(log.elv.as_slice(), told),
        None => false,
    }
}

// The lines from the one on that seals it.
fn play_end(rt: &impl Abort, follower: &mut Follower, lines: &str)
    requires open { IsOpen follower.old }
{
    let (lengths, rest) = lines.split_once('\n').unwrap_or((lines, ""));
    assert!(rt; is_sealed(follower, lengths), "sealed {lines}");
    for line in rest.lines() {
        assert!(rt; is_so(follower, line), "sealed {line}");
    }
}

// A new follower of so many streams goes through these lines, with contents that are cut at this byte.
fn play_once(rt: &impl Abort, alloc: Global, n: u16, cut: usize, lines: &str)
    requires low { 1 ≤ n }
    requires high { n ≤ 16 }
{
    let mut follower = Follower::new(alloc, Format::One, n).expect(rt, "memory");
    match lines.split_once("\nsealed ") {
        Some((steps, end)) => {
            play_steps(rt, alloc, &mut follower, n, cut, steps);
            play_end(rt, &mut follower, end);
        }
        None => play_steps(rt, alloc, &mut follower, n, cut, lines),
    }
}

// Whether the last line compares.
fn compares(lines: &str) -> bool {
    match lines.rsplit_once('\n') {
        Some((_, last)) => !last.starts_with('#')
            && (!last.starts_with("feed ") || last.contains(" refused ")),
        None => false,
    }
}

// How many streams there are, and in how many ways contents are cut: 0 if the line is no head.
fn head_of(head: &str) -> (u16, usize) {
    let Some(rest) = head.strip_prefix("follower ") else {
        return (0, 0);
    };
    let (n, cuts) = rest.split_once(" cuts ").unwrap_or((rest, "1"));
    match (n.parse::<u16>(), cuts.parse::<usize>()) {
        (Ok(n), Ok(cuts)) => (n, cuts),
        _ => (0, 0),
    }
}

// A scene: its head, and lines of which the last one compares.
fn play_scene(rt: &impl Abort, alloc: Global, scene: &str) {
    let (head, lines) = scene.split_once('\n').unwrap_or((scene, ""));
    let (n, cuts) = head_of(head);
    assert!(rt; 1 <= n && n <= 16 && cuts > 0 && compares(lines), "{scene}");
    for cut in 0..cuts {
        play_once(rt, alloc, n, cut, lines);
    }
}

/// Plays scenes, between which there are empty lines. What their lines say:
///
///     follower N               a new follower of so many streams
///     follower N cuts K        the scene is played K times, and `cut` is 0 to K - 1
///     feed J BYTES             bytes are fed to stream J, and taken
///     feed J BYTES refused F   they are refused with this fault
///     turns K NAME NAME ..     K times a byte of each of these contents is fed, to streams 0, 1 ..
///     stay F                   it is not sealed, by this fault
///     sealed L,L ..            it is sealed, and its log has contents of these lengths
///     applied K                so many records are applied
///     rows ROW=NUMBER ..       these are the rows of table 0; `none` if there are none
///
/// The bytes are in hexadecimal digits, as `bytes 04 00`, or of a content, as `all first` and `part 0 13 first`, or they are the
/// records of calls of one stream, as `calls 1,5,7 2,5,none`: call 1 puts 7 into row 5, and call 2 deletes it.
pub fn play(rt: &impl Abort, alloc: Global, scenes: &str) {
    for scene in scenes.split("\n\n") {
        play_scene(rt, alloc, scene);
    }
}

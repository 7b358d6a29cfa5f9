//! Scenes of records: what is done, ` => `, and what comes of it, a line each. A line that begins with `#` says in words what the next
//! ones show.
use crate::bytes::put_all;
use crate::words::{
    are_rows, are_spelled, call_of, is_number, is_vector, put_digits, put_rows, vector_of,
};
use std::alloc::Global;
use std::process::Abort;
use std::test::*;
use tau_base::{Call, Key, Lv, Value};
use tau_record::{
    Entry, Format, KeptLv, KeptWrites, LentWrites, Placed, RecordRefusal, compress, compress_wide,
    decode, decode_as, encode_catalogue, encode_written_into, encode_written_wide_into, put_writes,
    raise, read_writes,
};

/// What a content of so many streams is read as: by `decode`, or in format `1` or `2`.
fn decoded(
    alloc: Global,
    by: &str,
    n: u16,
    content: &[u8],
) -> Option<Result<Vec<Placed>, RecordRefusal>> {
    if n == 0 || n > 32 {
        return None;
    }
    match by {
        "2" => Some(decode_as(alloc, Format::Two, n, content)),
        "1" if n <= 16 => Some(decode_as(alloc, Format::One, n, content)),
        "decode" if n <= 16 => Some(decode(alloc, n, content)),
        _ => None,
    }
}

/// What a record is: a write with the number of its anchor and its vector, an epoch, a call, or any `other`. The write is the one of
/// call 1, and the call is call 1 above no anchor and with the vector (0,0).
fn is_entry(entry: &Entry, told: &str) -> bool {
    let (word, rest) = told.split_once(' ').unwrap_or((told, ""));
    let (named, positions) = rest.split_once(' ').unwrap_or(("", ""));
    match (word, entry) {
        ("other", _) => rest.is_empty(),
        (
            "write",
            Entry::Written {
                number,
                anchor,
                dep,
                writes,
            },
        ) => {
            *number == 1
                && is_number(u64::from(*anchor), named)
                && is_vector(dep.as_slice(), positions)
                && count_of(writes) == 1
        }
        (
            "call",
            Entry::Command {
                number,
                anchor,
                dep,
                call,
            },
        ) => {
            *number == 1
                && *anchor == 0
                && is_vector(dep.as_slice(), "0,0")
                && is_call(&call.call(), rest)
        }
        ("epoch", Entry::Epoch { number, lv }) => {
            is_number(u64::from(*number), named) && is_vector(lv.as_slice(), positions)
        }
        _ => false,
    }
}

/// Whether this is the call: its procedure and its arguments.
fn is_call(call: &Call, told: &str) -> bool {
    match call_of(told) {
        Some(wanted) => call.proc == wanted.proc && call.args.as_slice() == wanted.args.as_slice(),
        None => false,
    }
}

/// How many writes there are.
fn count_of(writes: &KeptWrites) -> usize {
    match writes.lent() {
        LentWrites::Numbers(numbers) => numbers.len(),
        LentWrites::Whole(rows) => rows.len(),
    }
}

/// A record of a content: its index, where it begins and where the next one does, and what it is.
fn is_there(placed: &[Placed], told: &str) -> bool {
    let mut words = told.splitn(4, ' ');
    let (Some(i), Some(start), Some(past), Some(entry)) = (
        words.next(),
        words.next(),
        words.next(),
        words.next(),
    ) else {
        return false;
    };
    match i.parse::<usize>() {
        Ok(i) if i < placed.len() => {
            is_number(placed[i].start, start)
                && is_number(placed[i].past, past)
                && is_entry(&placed[i].entry, entry)
        }
        _ => false,
    }
}

/// Just `ok`, or how many bytes and records there are, and some of these.
fn are_there(size: usize, placed: &[Placed], told: &str) -> bool {
    if told == "ok" {
        return true;
    }
    let mut parts = told.split("; ");
    match parts.next().unwrap_or("").split_once(' ') {
        Some((bytes, records))
            if is_number(size as u64, bytes) && is_number(placed.len() as u64, records) => {}
        _ => return false,
    }
    for part in parts {
        if !is_there(placed, part) {
            return false;
        }
    }
    true
}

/// Whether this is the fault: `bad`, where the bad record starts, and the number of the cause.
fn is_fault(at: u64, cause: u64, told: &str) -> bool {
    match told.strip_prefix("bad ").unwrap_or("").split_once(' ') {
        Some((place, number)) => is_number(at, place) && is_number(cause, number),
        None => false,
    }
}

/// Whether a content is read so: what is there, or `bad`, where the bad record starts, and the number of the cause.
fn reads(alloc: Global, by: &str, n: u16, content: &[u8], told: &str) -> bool {
    match decoded(alloc, by, n, content) {
        Some(Ok(placed)) => are_there(content.len(), placed.as_slice(), told),
        Some(Err(RecordRefusal::Bad(fault))) => { is_fault(fault.at, fault.cause as u64, told) }
        _ => false,
    }
}

/// Whether a scene of a content goes as its line says: how it is read, of how many streams, and its parts.
fn reads_parts(alloc: Global, given: &str, told: &str) -> bool {
    let mut words = given.splitn(3, ' ');
    let (Some(by), Some(n), Some(parts)) = (words.next(), words.next(), words.next()) else {
        return false;
    };
    let Ok(n) = n.parse::<u16>() else {
        return false;
    };
    let mut content = Vec::new(alloc);
    put_all(alloc, &mut content, parts) && reads(alloc, by, n, content.as_slice(), told)
}

/// Whether both contents have the same bytes.
fn is_spelled(alloc: Global, bytes: &[u8], told: &str) -> bool {
    let mut wanted = Vec::new(alloc);
    put_all(alloc, &mut wanted, told) && bytes == wanted.as_slice()
}

/// The bytes of a content, or its size.
fn has_bytes(alloc: Global, word: &str, parts: &str, told: &str) -> bool {
    let mut bytes = Vec::new(alloc);
    put_all(alloc, &mut bytes, parts)
        && match word {
            "bytes" => is_spelled(alloc, bytes.as_slice(), told),
            _ => is_number(bytes.len() as u64, told),
        }
}

/// Whether a vector comes back as it was put.
fn keeps_vector(alloc: Global, positions: &str, told: &str) -> bool {
    let Some(vector) = vector_of(positions) else {
        return false;
    };
    match KeptLv::of(alloc, &vector) {
        Ok(kept) => is_vector(kept.as_slice(), told),
        Err(_) => false,
    }
}

/// Whether a scene of a vector and that of an anchor goes as its line says: the raised vector, or the mask in both formats or in format
/// 2.
fn goes_above(word: &str, dep: &Lv, anchor: &Lv, told: &str) -> bool {
    if word == "raise" {
        return is_vector(raise(dep, anchor).as_slice(), told);
    }
    if dep.width() != anchor.width() || !dep.covers(anchor) {
        return false;
    }
    if word == "mask" && (dep.width() > 16 || !is_number(u64::from(compress(dep, anchor)), told)) {
        return false;
    }
    is_number(u64::from(compress_wide(dep, anchor)), told)
}

/// The same of both vectors, which are spelled.
fn goes_with(word: &str, given: &str, told: &str) -> bool {
    let Some((dep, anchor)) = given.split_once(' ') else {
        return false;
    };
    match (vector_of(dep), vector_of(anchor)) {
        (Some(dep), Some(anchor)) => goes_above(word, &dep, &anchor, told),
        _ => false,
    }
}

/// Whether these are whole numbers, and just those writes.
fn are_numbers(numbers: &[(Key, i64)], writes: &[(Key, Value)]) -> bool {
    if numbers.len() != writes.len() {
        return false;
    }
    for (number, write) in numbers.iter().zip(writes.iter()) {
        if number.0 != write.0 || write.1 != Value::Int(number.1) {
            return false;
        }
    }
    true
}

/// Whether writes come back as they were put, and lie in the value itself, `numbers`, or in a `list`.
fn lies(alloc: Global, writes: &[(Key, Value)], told: &str) -> bool {
    match KeptWrites::of(alloc, writes) {
        Ok(kept) => match kept.lent() {
            LentWrites::Numbers(numbers) => told == "numbers" && are_numbers(numbers, writes),
            LentWrites::Whole(rows) => told == "list" && rows == writes,
        },
        Err(_) => false,
    }
}

/// The bytes of rows that are put after another byte.
fn puts(alloc: Global, writes: &[(Key, Value)], told: &str) -> bool {
    let mut bytes = Vec::new(alloc);
    put_digits(&mut bytes, "09")
        && put_writes(&mut bytes, writes).is_ok()
        && are_spelled(alloc, bytes.as_slice(), told)
}

/// Whether a scene of writes goes as its line says: they are put, or kept.
fn goes_for(alloc: Global, word: &str, rows: &str, told: &str) -> bool {
    let mut writes = Vec::new(alloc);
    put_rows(&mut writes, rows)
        && match word {
            "put-writes" => puts(alloc, writes.as_slice(), told),
            _ => lies(alloc, writes.as_slice(), told),
        }
}

fn are_left(alloc: Global, rows: &[(Key, Value)], rest: &[u8], told: &str) -> bool {
    match told.split_once(" | ") {
        Some((wanted, left)) => are_rows(rows, wanted) && are_spelled(alloc, rest, left),
        None => false,
    }
}

fn finds(alloc: Global, count: u64, bytes: &[u8], told: &str) -> bool {
    match read_writes(alloc, count, bytes) {
        Ok(None) => told == "none",
        Ok(Some((rows, rest))) => {
            rows.len() as u64 == count && are_left(alloc, rows.as_slice(), rest, told)
        }
        Err(_) => false,
    }
}

/// So many rows that stand at the front of the bytes, and what is left after them, or `none`.
fn finds_rows(alloc: Global, given: &str, told: &str) -> bool {
    let Some((count, digits)) = given.split_once(' ') else {
        return false;
    };
    let Ok(count) = count.parse::<u64>() else {
        return false;
    };
    let mut bytes = Vec::new(alloc);
    put_digits(&mut bytes, digits) && finds(alloc, count, bytes.as_slice(), told)
}

/// Whether a scene goes as its line says.
fn goes(alloc: Global, line: &str) -> bool {
    let Some((done, told)) = line.split_once(" => ") else {
        return false;
    };
    let Some((word, given)) = done.split_once(' ') else {
        return false;
    };
    match word {
        "read" => reads_parts(alloc, given, told),
        "bytes" | "size" => has_bytes(alloc, word, given, told),
        "mask" | "wide-mask" | "raise" => goes_with(word, given, told),
        "kept-vector" => keeps_vector(alloc, given, told),
        "kept-writes" | "put-writes" => goes_for(alloc, word, given, told),
        "read-writes" => finds_rows(alloc, given, told),
        _ => false,
    }
}

/// Plays each scene.
fn play(rt: &impl Abort, alloc: Global, scenes: &str) {
    let mut is_empty = true;
    for line in scenes.lines() {
        if line.is_empty() || line.starts_with('#') {
            continue;
        }
        assert!(rt; goes(alloc, line), "{line}");
        is_empty = false;
    }
    assert!(rt; !is_empty);
}

static ROWS: &str = "
# vectors of up to four positions lie in the value itself, and longer ones in a box
kept-vector 53 => 53
kept-vector 53,0,61,77 => 53,0,61,77
kept-vector 53,0,61,77,13 => 53,0,61,77,13
kept-vector 1,2,3,4,5,6,7,8,9,10,11,12,13,14,15,16 => 1,2,3,4,5,6,7,8,9,10,11,12,13,14,15,16
kept-vector ends => ends
# one or two writes of whole numbers lie in the value itself, and others in a list
kept-writes 0:1:5 => numbers
kept-writes 0:1:5 0:2:-9223372036854775808 => numbers
kept-writes 0:1:5 0:2:-9223372036854775808 1:-3:7 => list
kept-writes 1:-3:7 2:4:none => list
kept-writes 2:4:none => list
kept-writes 0:1:\"five\" => list
# rows are written after a 9: row 1 of table 0 holds 5, and row -2 of table 3 the text \"ab\"
put-writes 0:1:5 3:-2:\"ab\" => 09 0000 0000000000000001 01 0000000000000005 0003 fffffffffffffffe 02 0002 6162
# so many rows stand at the front of bytes, and what is left after them
read-writes 2 0000 0000000000000001 01 0000000000000005 0003 fffffffffffffffe 02 0002 6162 07 => 0:1:5 3:-2:\"ab\" | 07
read-writes 1 0000 0000000000000001 01 0000000000000005 => 0:1:5 | -
read-writes 0 07 => - | 07
# too few
read-writes 3 0000 0000000000000001 01 0000000000000005 0003 fffffffffffffffe 02 0002 6162 => none
read-writes 18446744073709551615 0000 0000000000000001 01 0000000000000005 => none
# not in ascending order
read-writes 2 0003 fffffffffffffffe 02 0002 6162 0000 0000000000000001 01 0000000000000005 => none
# twice the same
read-writes 2 0000 0000000000000001 01 0000000000000005 0000 0000000000000001 01 0000000000000005 => none
# cut short
read-writes 1 0000 0000000000000001 01 00000000000000 => none
# of an unknown kind of value
read-writes 1 0000 0000000000000001 03 => none
";

#[test]
fn rows_and_what_is_kept(rt: HostRuntime) {
    play(&rt, rt.alloc(), ROWS);
}

static RECORDS: &str = "
# the bytes of records
bytes catalogue:7461626c6520610a => catalogue
bytes write:1:0,0:0:0,0:5 => written
bytes write:2:53,0:0:0,0:7 => 01 00000030 0000000000000002 00000000 0001 0000000000000035 0001 0000 0000000000000001 01 0000000000000007
bytes anchor:13,13,53 => 03 0000001d 000000000000000d 000000000000000d 0000000000000035
bytes command:0 0 1 5 => 02 00000031 0000000000000001 00000000 0000 0000 03 01 0000000000000000 01 0000000000000001 01 0000000000000005
# an epoch takes 9 bytes and 8 for each stream, and is the same in both formats
bytes epoch:1:13,61 => epoch
bytes epoch:4294967295:0,4611686018427387903 => 05 00000019 ffffffff 0000000000000000 3fffffffffffffff
# epochs of one stream
bytes epoch:1:13 => 05 00000011 00000001 000000000000000d
bytes epoch:2:13 => 05 00000011 00000002 000000000000000d
bytes epoch:4294967295:13 => 05 00000011 ffffffff 000000000000000d
# in format 2
bytes wide-write:1:0,0:0:0,0:5 => wide-written
bytes wide-write:2:55,0:0:0,0:7 => 01 00000032 0000000000000002 00000000 00000001 0000000000000037 0001 0000 0000000000000001 01 0000000000000007
bytes wide-command:0 0 1 5 => wide-command
# of 32 streams: masks have bits above 16, an anchor and an epoch have a component for each stream
bytes wide-write:1:two-high:0:0*32:5 => high-written
bytes wide-write:1:ends-raised:1:ends:5 => anchored-written
bytes wide-write:1:ends:1:ends:5 => same-written
bytes anchor:ends => 03 00000105 + positions:ends
bytes epoch:1:ends => 05 00000109 00000001 + positions:ends
# masks of vectors of up to 16 streams above an anchor: bit j is stream j in both formats, and a call with the vector of its stream's anchor has an empty mask
mask 53,0,0,0,0,0,0,0,0,0,0,0,0,0,0,0 0*16 => 1
mask 53,0,0,0,0,0,0,0,0,0,0,0,0,0,0,61 0*16 => 32769
mask 53,0,0,0,0,0,0,0,0,0,0,0,0,0,0,61 53,0,0,0,0,0,0,0,0,0,0,0,0,0,0,0 => 32768
mask 13,13,53 13,13,53 => 0
# masks of up to 32 streams, in format 2
wide-mask 0*32 0*32 => 0
wide-mask 1*32 0*32 => 4294967295
wide-mask 1*17 0*17 => 131071
wide-mask two-high 0*32 => 2147549184
wide-mask ends-raised ends => 2147483648
wide-mask ends-raised 13*32 => 2147549184
# a vector raised to that of an anchor covers it, also one of few streams
raise 0,0,53 13,13,53 => 13,13,53
raise two-high ends => ends
raise 0*32 ends => ends
raise ends ends-raised => ends-raised
raise ends-raised ends => ends-raised
raise 13*17 ends => ends
raise ends-raised 13*17 => ends-raised
";

#[test]
fn records_have_the_stated_bytes(rt: HostRuntime) {
    play(&rt, rt.alloc(), RECORDS);
}

/// How a content is read and of how many streams, and its parts; its size, the number of its records, and some of these.
static CONTENTS: &str = "
# call 1 is raised to the anchor of its stream, names it, and has an empty mask
read decode 3 catalogue + anchor:13,13,53 + write:1:13,13,53:1:13,13,53:5 => 82 3; 1 13 42 other; 2 42 82 write 1 13,13,53
# a data record of format 2
read 2 2 catalogue + wide-written => 55 2; 1 13 55 write 0 0,0
# a command record of format 2
read 2 2 catalogue + wide-command => 64 2; 1 13 64 call 0 0 1 5
# a mask of 32 streams
read 2 32 catalogue + high-written => 71 2; 1 13 71 write 0 two-high
# a mask of 32 streams above an anchor
read 2 32 catalogue + 03 00000105 + positions:ends + anchored-written => 324 3; 2 274 324 write 1 ends-raised
# the vector of an anchor of 32 streams
read 2 32 catalogue + 03 00000105 + positions:ends + same-written => 316 3; 2 274 316 write 1 ends
# epochs are no anchors: the anchor after one has number 1
read decode 2 catalogue + epoch:1:13,61 + anchor:13,13 + write:1:13,13:1:13,13:5 + epoch:3:99,61 => 124 5; 1 13 38 epoch 1 13,61; 2 38 59 other; 3 59 99 write 1 13,13; 4 99 124 epoch 3 99,61
# an epoch of format 1
read 1 2 catalogue + epoch => 38 2; 1 13 38 epoch 1 13,61
# an epoch of format 2 has the same bytes
read 2 2 catalogue + epoch => 38 2; 1 13 38 epoch 1 13,61
# the record of one write of the longest text, above no anchor and with an empty mask
size write:1:0*16:0:0*16:\"xxxxxxxxxxxxxxxxxxxxxxxxxxxxxxxxxxxxxxxxxxxxxxxxxxxxxxxxxxxxxxxx\" => 98
";

#[test]
fn contents_are_read(rt: HostRuntime) {
    play(&rt, rt.alloc(), CONTENTS);
}

/// Causes: 1 short, 2 kind, 3 length, 4 anchor, 5 mask, 6 body.
static CAUSES: &str = "
# bytes behind the catalogue record, and the cause that is found there: kinds, lengths and anchors
read decode 1 catalogue => ok
# the kind, and then the length
read decode 1 catalogue + 05 => bad 13 1
read decode 1 catalogue + 06 => bad 13 2
read decode 1 catalogue + 06 00000005 => bad 13 2
read decode 1 catalogue + 00 00000005 => bad 13 2
read decode 1 catalogue + 04 00000005 => bad 13 2
read decode 1 catalogue + 03 => bad 13 1
read decode 1 catalogue + 01 000000 => bad 13 1
read decode 1 catalogue + 03 0000000e 0000000000000001 => bad 13 1
read decode 1 catalogue + 03 00000004 00 => bad 13 3
read decode 1 catalogue + 03 0000000c 00000000000001 => bad 13 3
read decode 1 catalogue + 03 0000000e 0000000000000001 00 => bad 13 3
# an anchor's component
read decode 1 catalogue + 03 0000000d 3fffffffffffffff => ok
read decode 1 catalogue + 03 0000000d 4000000000000000 => bad 13 6
# the same of epochs of one stream
# the number, and then the components
read decode 1 catalogue + 05 00000011 00000001 000000000000000d => ok
read decode 1 catalogue + 05 00000011 ffffffff 0000000000000000 => ok
read decode 1 catalogue + 05 00000011 00000000 000000000000000d => bad 13 6
read decode 1 catalogue + 05 00000009 00000000 => bad 13 6
read decode 1 catalogue + 05 00000011 00000001 3fffffffffffffff => ok
read decode 1 catalogue + 05 00000011 00000001 4000000000000000 => bad 13 6
# the length
read decode 1 catalogue + 05 00000005 => bad 13 3
read decode 1 catalogue + 05 00000008 000001 => bad 13 3
read decode 1 catalogue + 05 00000010 00000001 00000000000000 => bad 13 3
read decode 1 catalogue + 05 00000012 00000001 000000000000000d 00 => bad 13 3
# the same of the head of a data record
# the call's number, the anchor's number and the mask
read decode 1 catalogue + 01 00000028 0000000000000000 00000000 0000 0001 0000 0000000000000001 01 0000000000000005 => bad 13 6
read decode 1 catalogue + 01 00000028 0000000000000001 00000001 0000 0001 0000 0000000000000001 01 0000000000000005 => bad 13 4
read decode 1 catalogue + 01 00000028 0000000000000001 00000000 0002 0001 0000 0000000000000001 01 0000000000000005 => bad 13 5
read decode 1 catalogue + 01 00000030 0000000000000001 00000000 0001 0000000000000000 0001 0000 0000000000000001 01 0000000000000005 => bad 13 5
read decode 1 catalogue + 01 00000030 0000000000000001 00000000 0001 0000000000000001 0001 0000 0000000000000001 01 0000000000000005 => ok
read decode 1 catalogue + 01 00000030 0000000000000001 00000000 0001 3fffffffffffffff 0001 0000 0000000000000001 01 0000000000000005 => ok
read decode 1 catalogue + 01 00000030 0000000000000001 00000000 0001 4000000000000000 0001 0000 0000000000000001 01 0000000000000005 => bad 13 5
read decode 1 catalogue + 01 00000015 0000000000000001 00000000 0001 0000 => bad 13 3
# the same of its writes
# the count of writes, their order, and what is cut
read decode 1 catalogue + 01 00000015 0000000000000001 00000000 0000 0000 => bad 13 6
read decode 1 catalogue + 01 00000015 0000000000000001 00000000 0000 0040 => bad 13 3
read decode 1 catalogue + 01 00000015 0000000000000001 00000000 0000 0041 => bad 13 6
read decode 1 catalogue + 01 0000002b 0000000000000001 00000000 0000 0002 0000 0000000000000001 00 0000 0000000000000002 00 => ok
read decode 1 catalogue + 01 0000002b 0000000000000001 00000000 0000 0002 0000 ffffffffffffffff 00 0000 0000000000000000 00 => ok
read decode 1 catalogue + 01 0000002b 0000000000000001 00000000 0000 0002 0000 0000000000000002 00 0001 0000000000000001 00 => ok
read decode 1 catalogue + 01 0000002b 0000000000000001 00000000 0000 0002 0000 0000000000000001 00 0000 0000000000000001 00 => bad 13 6
read decode 1 catalogue + 01 0000002b 0000000000000001 00000000 0000 0002 0000 0000000000000002 00 0000 0000000000000001 00 => bad 13 6
read decode 1 catalogue + 01 0000002a 0000000000000001 00000000 0000 0002 0000 0000000000000002 00 0000 0000000000000001 => bad 13 6
read decode 1 catalogue + 01 0000002a 0000000000000001 00000000 0000 0002 0000 0000000000000001 00 0000 0000000000000002 => bad 13 3
read decode 1 catalogue + 01 0000002c 0000000000000001 00000000 0000 0002 0000 0000000000000001 00 0000 0000000000000002 00 00 => bad 13 3
# the same of values and arguments
# values
read decode 1 catalogue + 01 00000020 0000000000000001 00000000 0000 0001 0000 0000000000000001 03 => bad 13 6
read decode 1 catalogue + 01 00000024 0000000000000001 00000000 0000 0001 0000 0000000000000001 02 0002 c3a9 => ok
read decode 1 catalogue + 01 00000024 0000000000000001 00000000 0000 0001 0000 0000000000000001 02 0002 c3c3 => bad 13 6
read decode 1 catalogue + 01 00000022 0000000000000001 00000000 0000 0001 0000 0000000000000001 02 0040 => bad 13 3
read decode 1 catalogue + 01 00000022 0000000000000001 00000000 0000 0001 0000 0000000000000001 02 0041 => bad 13 6
read decode 1 catalogue + 01 00000021 0000000000000001 00000000 0000 0001 0000 0000000000000001 02 00 => bad 13 3
# arguments
read decode 1 catalogue + 02 00000016 0000000000000001 00000000 0000 0000 00 => ok
read decode 1 catalogue + 02 0000001e 0000000000000001 00000000 0000 0000 08 0000000000000000 => ok
read decode 1 catalogue + 02 0000001f 0000000000000001 00000000 0000 0000 09 000000000000000000 => bad 13 6
read decode 1 catalogue + 02 00000018 0000000000000001 00000000 0000 ffff 01 03 00 => bad 13 6
read decode 1 catalogue + 02 00000015 0000000000000001 00000000 0000 0000 => bad 13 3
# in format 1 the count of a record of format 2 is the second half of the mask
read decode 1 catalogue + wide-written => bad 13 6
# records of format 2 and of the other format
read 2 1 catalogue + wide-written => ok
# the mask
read 2 1 catalogue + 01 00000032 0000000000000001 00000000 00000001 0000000000000001 0001 0000 0000000000000001 01 0000000000000005 => ok
read 2 1 catalogue + 01 0000002a 0000000000000001 00000000 00000002 0001 0000 0000000000000001 01 0000000000000005 => bad 13 5
read 2 1 catalogue + 01 0000002a 0000000000000001 00000000 00010000 0001 0000 0000000000000001 01 0000000000000005 => bad 13 5
read 2 1 catalogue + 01 00000014 0000000000000001 00000000 000000 => bad 13 3
# mask and count together are the mask, whose component is then 0
read 2 1 catalogue + written => bad 13 5
# of how many streams, and the record: with the mask of stream 16, with that of stream 17, with that of stream 31
# a bit at the number of streams, and one below it
read 2 16 catalogue + 01 00000032 0000000000000001 00000000 00010000 0000000000000001 0001 0000 0000000000000001 01 0000000000000005 => bad 13 5
read 2 17 catalogue + 01 00000032 0000000000000001 00000000 00010000 0000000000000001 0001 0000 0000000000000001 01 0000000000000005 => ok
read 2 17 catalogue + 01 00000032 0000000000000001 00000000 00020000 0000000000000001 0001 0000 0000000000000001 01 0000000000000005 => bad 13 5
read 2 18 catalogue + 01 00000032 0000000000000001 00000000 00020000 0000000000000001 0001 0000 0000000000000001 01 0000000000000005 => ok
read 2 31 catalogue + 01 00000032 0000000000000001 00000000 80000000 0000000000000001 0001 0000 0000000000000001 01 0000000000000005 => bad 13 5
read 2 32 catalogue + 01 00000032 0000000000000001 00000000 80000000 0000000000000001 0001 0000 0000000000000001 01 0000000000000005 => ok
read 2 32 catalogue + high-written => ok
read 2 31 catalogue + high-written => bad 13 5
# the component
read 2 32 catalogue + 01 00000032 0000000000000001 00000000 80000000 0000000000000000 0001 0000 0000000000000001 01 0000000000000005 => bad 13 5
read 2 32 catalogue + 01 00000032 0000000000000001 00000000 80000000 3fffffffffffffff 0001 0000 0000000000000001 01 0000000000000005 => ok
read 2 32 catalogue + 01 00000032 0000000000000001 00000000 80000000 4000000000000000 0001 0000 0000000000000001 01 0000000000000005 => bad 13 5
# the components of 32 streams are too many for 31, and the last one is below 2^62
read 2 32 catalogue + 03 00000105 + first-31:ends + 000000000000004d => ok
read 2 32 catalogue + 05 00000109 00000001 + first-31:ends + 000000000000004d => ok
read 2 31 catalogue + 03 00000105 + first-31:ends + 000000000000004d => bad 13 3
read 2 31 catalogue + 05 00000109 00000001 + first-31:ends + 000000000000004d => bad 13 3
read 2 16 catalogue + 03 00000105 + first-31:ends + 000000000000004d => bad 13 3
read 2 16 catalogue + 05 00000109 00000001 + first-31:ends + 000000000000004d => bad 13 3
read 2 32 catalogue + 03 00000105 + first-31:ends + 3fffffffffffffff => ok
read 2 32 catalogue + 05 00000109 00000001 + first-31:ends + 3fffffffffffffff => ok
read 2 32 catalogue + 03 00000105 + first-31:ends + 4000000000000000 => bad 13 6
read 2 32 catalogue + 05 00000109 00000001 + first-31:ends + 4000000000000000 => bad 13 6
# the numbers of the epochs of a stream rise: the first stands at 13 and takes 17 bytes, the anchor 13
read decode 1 catalogue + epoch:1:13 + anchor:30 + epoch:2:13 => 60 4
read decode 1 catalogue + epoch:1:13 + anchor:30 + epoch:7:13 => 60 4
read decode 1 catalogue + epoch:7:13 + anchor:30 + epoch:4294967295:13 => 60 4
read decode 1 catalogue + epoch:1:13 + anchor:30 + epoch:1:13 => bad 43 6
read decode 1 catalogue + epoch:7:13 + anchor:30 + epoch:7:13 => bad 43 6
read decode 1 catalogue + epoch:7:13 + anchor:30 + epoch:1:13 => bad 43 6
read decode 1 catalogue + epoch:4294967295:13 + anchor:30 + epoch:7:13 => bad 43 6
# no epoch is the first record of a stream
read decode 1 epoch:1:13 => bad 0 2
# the catalogue record and that of call 1, with other bytes from a place on
size catalogue + written => 53
read decode 1 catalogue + written + change:0:01 => bad 0 2
read decode 1 catalogue + written + change:13:09 => bad 13 2
read decode 1 catalogue + written + change:14:00000029 => bad 13 1
read decode 1 catalogue + written + change:14:00000027 => bad 13 3
read decode 1 catalogue + written + change:18:0000000000000000 => bad 13 6
read decode 1 catalogue + written + change:26:00000001 => bad 13 4
read decode 1 catalogue + written + change:32:0000 => bad 13 6
read decode 1 catalogue + written + change:44:03 => bad 13 6
";

#[test]
fn each_cause_at_its_edge(rt: HostRuntime) {
    play(&rt, rt.alloc(), CAUSES);
}

/// The size of the record of a call that puts a number, written into this empty vector in format 1 and in format 2.
fn has_sizes(out: &mut Vec<u8>, dep: &Lv, narrow: usize, wide: usize) -> bool {
    if !out.is_empty() || dep.width() > 16 || !dep.covers(dep) {
        return false;
    }
    let writes = [(Key { table: 0, row: 1 }, Value::Int(5))];
    if encode_written_into(out, 1, 0, dep, dep, &writes).is_err() || out.len() != narrow {
        return false;
    }
    out.clear();
    encode_written_wide_into(out, 1, 0, dep, dep, &writes).is_ok() && out.len() == wide
}

#[test]
fn records_are_written_into_memory_that_is_there(rt: HostRuntime) {
    let mut out = Vec::with_capacity(rt.alloc(), 64).expect(&rt, "memory");
    assert!(rt; has_sizes(&mut out, &Lv::zero(2), 40, 42) && out.capacity() == 64);
}

/// Puts a record so many times.
fn put_many(content: &mut Vec<u8>, record: &[u8], count: u32) -> bool {
    for _ in 0..count {
        if content.extend_from_slice(record).is_err() {
            return false;
        }
    }
    true
}

/// The same after the catalogue record.
fn are_read(alloc: Global, record: &[u8], count: u32, told: &str) -> bool {
    let mut content = Vec::new(alloc);
    put_all(alloc, &mut content, "catalogue")
        && put_many(&mut content, record, count)
        && reads(alloc, "decode", 2, content.as_slice(), told)
}

/// 200,000 records are read in one pass.
#[test]
fn many_records(rt: HostRuntime) {
    let mut record = Vec::new(rt.alloc());
    assert!(rt; put_all(rt.alloc(), &mut record, "write:2:53,0:0:0,0:7"));
    let told = "9600013 200001; 200000 9599965 9600013 other";
    assert!(rt; are_read(rt.alloc(), record.as_slice(), 200_000, told));
}

/// Whether a head and a text are read so.
fn is_read_after(alloc: Global, head: &str, text: &[u8], told: &str) -> bool {
    let mut bytes = Vec::new(alloc);
    put_digits(&mut bytes, head)
        && bytes.extend_from_slice(text).is_ok()
        && reads(alloc, "decode", 1, bytes.as_slice(), told)
}

/// Whether the catalogue record of a text is read so, and with one more byte so.
fn is_read_long(alloc: Global, text: &[u8], told: &str, longer: &str) -> bool {
    if text.len() > 32_768 {
        return false;
    }
    match encode_catalogue(alloc, text) {
        Ok(mut bytes) => {
            reads(alloc, "decode", 1, bytes.as_slice(), told)
                && bytes.push(32).is_ok()
                && reads(alloc, "decode", 1, bytes.as_slice(), longer)
        }
        Err(_) => false,
    }
}

/// A catalogue text has at most 32,768 bytes.
#[test]
fn longest_catalogue(rt: HostRuntime) {
    let mut text = Vec::from_elem(rt.alloc(), 32u8, 32_768).expect(&rt, "memory");
    assert!(rt; is_read_long(rt.alloc(), text.as_slice(), "32773 1", "bad 32773 2"));
    assert!(rt; text.push(32).is_ok());
    assert!(rt; is_read_after(rt.alloc(), "04 00008006", text.as_slice(), "bad 0 6"));
}

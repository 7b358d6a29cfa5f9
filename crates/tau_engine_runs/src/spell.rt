//! What scenes spell: numbers, words, bytes, images of disks, and pieces of streams.
use crate::number::value_of;
use std::alloc::Global;
use std::process::Abort;

/// The first word of a text, and what comes after it.
pub(crate) fn word_of(text: &str) -> (&str, &str) {
    text.split_once(' ').unwrap_or((text, ""))
}

/// The number that is the first word of a text, and what comes after it.
pub(crate) fn number_of(text: &str) -> Option<(u64, &str)> {
    let (word, rest) = word_of(text);
    Some((word.parse::<u64>().ok()?, rest))
}

/// The words of a line; an empty line has none.
pub(crate) fn words_of<R: Abort>(rt: &R, alloc: Global, line: &str) -> Vec<String> {
    let mut words = Vec::new(alloc);
    for word in line.split_whitespace() {
        let word = String::from_str(alloc, word).expect(rt, "memory");
        words.push(word).expect(rt, "memory");
    }
    words
}

/// Numbers with spaces between them.
pub(crate) fn numbers_of<R: Abort>(rt: &R, alloc: Global, text: &str) -> Option<Vec<u32>> {
    let mut numbers = Vec::new(alloc);
    for word in text.split_whitespace() {
        numbers.push(word.parse::<u32>().ok()?).expect(rt, "memory");
    }
    Some(numbers)
}

/// What stands behind this name, at the beginning of a line.
pub(crate) fn named<'t>(text: &'t str, name: &str) -> Option<&'t str> {
    for line in text.lines() {
        let (word, rest) = word_of(line);
        if word == name {
            return Some(rest);
        }
    }
    None
}

// Puts the bytes of hexadecimal digits, between which there may be spaces.
fn put_digits<R: Abort>(rt: &R, alloc: Global, digits: &str, to: &mut Vec<u8>) -> bool {
    let digits = digits.replace(alloc, " ", "").expect(rt, "memory");
    let Ok(bytes) = hex::decode(alloc, &digits) else {
        return false;
    };
    to.extend_from_slice(&bytes).expect(rt, "memory");
    true
}

// Puts a range of the bytes of these digits, its ends with `:` between them.
fn put_range<R: Abort>(rt: &R, alloc: Global, digits: &str, range: &str, to: &mut Vec<u8>) -> bool {
    let mut bytes = Vec::new(alloc);
    if !put_digits(rt, alloc, digits, &mut bytes) {
        return false;
    }
    let (from, past) = range.split_once(':').unwrap_or((range, ""));
    let (Ok(from), Ok(past)) = (from.parse::<u32>(), past.parse::<u32>()) else {
        return false;
    };
    match bytes.get(from as usize..past as usize) {
        Some(part) => to.extend_from_slice(part).expect(rt, "memory"),
        None => return false,
    }
    true
}

// Puts the bytes of a word: digits, a name of digits, or a range of the bytes behind a name.
fn put_word<R: Abort>(rt: &R, alloc: Global, text: &str, word: &str, to: &mut Vec<u8>) -> bool {
    if !word.starts_with('$') {
        return put_digits(rt, alloc, word, to);
    }
    let (name, range) = word.split_once(':').unwrap_or((word, ""));
    match named(text, name) {
        Some(digits) if range.is_empty() => put_digits(rt, alloc, digits, to),
        Some(digits) => put_range(rt, alloc, digits, range, to),
        None => false,
    }
}

/// Puts spelled bytes: hexadecimal digits, names of such digits in the text, ranges `$name:FROM:PAST` of named ones, and numbers `{ }` worked
/// out for this one.
pub(crate) fn put_bytes<R: Abort>(
    rt: &R,
    alloc: Global,
    text: &str,
    spelled: &str,
    k: u64,
    to: &mut Vec<u8>,
) -> bool {
    for word in spelled.split_whitespace() {
        let is_put = match word.strip_prefix('{') {
            Some(spelled) => put_number(rt, spelled, k, to),
            None => put_word(rt, alloc, text, word, to),
        };
        if !is_put {
            return false;
        }
    }
    true
}

// Puts what stands before `}` as eight bytes.
fn put_number<R: Abort>(rt: &R, spelled: &str, k: u64, to: &mut Vec<u8>) -> bool {
    let Some(spelled) = spelled.strip_suffix('}') else {
        return false;
    };
    let Some(value) = value_of(spelled, k) else {
        return false;
    };
    to.extend_from_slice(&value.to_be_bytes())
        .expect(rt, "memory");
    true
}

// Puts a block: its gate, the length of its body, and the body, filled for this number.
fn put_block<R: Abort>(
    rt: &R,
    alloc: Global,
    text: &str,
    body: &str,
    k: u64,
    to: &mut Vec<u8>,
) -> bool {
    let mut bytes = Vec::new(alloc);
    if !put_bytes(rt, alloc, text, body, k, &mut bytes) {
        return false;
    }
    let Ok(long) = u32::try_from(bytes.len()) else {
        return false;
    };
    to.push(1).expect(rt, "memory");
    to.extend_from_slice(&long.to_be_bytes())
        .expect(rt, "memory");
    to.extend_from_slice(&bytes).expect(rt, "memory");
    true
}

// Puts a block, or one for each of these numbers.
fn put_blocks<R: Abort>(rt: &R, alloc: Global, text: &str, body: &str, to: &mut Vec<u8>) -> bool {
    let Some(rest) = body.trim().strip_prefix("each ") else {
        return put_block(rt, alloc, text, body, 0, to);
    };
    let Some((from, rest)) = number_of(rest) else {
        return false;
    };
    let Some((past, body)) = number_of(rest) else {
        return false;
    };
    for k in from..past {
        if !put_block(rt, alloc, text, body, k, to) {
            return false;
        }
    }
    true
}

// Puts the header of a stream, and returns the bodies of its blocks: the digit of its format, the number of streams, its own number.
fn put_header<'t, R: Abort>(rt: &R, spelled: &'t str, to: &mut Vec<u8>) -> Option<&'t str> {
    let (digit, rest) = word_of(spelled);
    let (streams, rest) = number_of(rest)?;
    let (stream, bodies) = number_of(rest)?;
    to.extend_from_slice(b"TAURUS-LOG-").expect(rt, "memory");
    to.extend_from_slice(digit.as_bytes()).expect(rt, "memory");
    let streams = u8::try_from(streams).ok()?;
    let stream = u8::try_from(stream).ok()?;
    let fields = [0, streams, 0, stream];
    to.extend_from_slice(&fields).expect(rt, "memory");
    Some(bodies)
}

// Puts the image of a stream, whose blocks are all there.
fn put_stream<R: Abort>(
    rt: &R,
    alloc: Global,
    text: &str,
    spelled: &str,
    to: &mut Vec<u8>,
) -> bool {
    let Some(bodies) = put_header(rt, spelled, to) else {
        return false;
    };
    for body in bodies.split('/') {
        if !body.is_empty() && !put_blocks(rt, alloc, text, body, to) {
            return false;
        }
    }
    to.push(0).expect(rt, "memory");
    true
}

/// The image that is spelled: bytes, or a stream.
pub(crate) fn image_of<R: Abort>(
    rt: &R,
    alloc: Global,
    text: &str,
    spelled: &str,
) -> Option<Vec<u8>> {
    let mut image = Vec::new(alloc);
    let (word, rest) = word_of(spelled);
    let is_spelled = match word {
        "bytes" => put_bytes(rt, alloc, text, rest, 0, &mut image),
        "stream" => put_stream(rt, alloc, text, rest, &mut image),
        _ => false,
    };
    if is_spelled { Some(image) } else { None }
}

/// Puts a piece: the number of its stream, how many bytes, and these.
pub(crate) fn put_piece<R: Abort>(
    rt: &R,
    alloc: Global,
    text: &str,
    spelled: &str,
    to: &mut Vec<u8>,
) -> bool {
    let Some((stream, rest)) = number_of(spelled) else {
        return false;
    };
    let mut bytes = Vec::new(alloc);
    if !put_bytes(rt, alloc, text, rest, 0, &mut bytes) {
        return false;
    }
    let Ok(stream) = u8::try_from(stream) else {
        return false;
    };
    let Ok(long) = u32::try_from(bytes.len()) else {
        return false;
    };
    to.push(stream).expect(rt, "memory");
    to.extend_from_slice(&long.to_be_bytes())
        .expect(rt, "memory");
    to.extend_from_slice(&bytes).expect(rt, "memory");
    true
}

/// The text with the fields of the row, which have ` / ` between them, in the places of `%1`, `%2` .. Where there is none, they stay.
pub(crate) fn filled<R: Abort>(rt: &R, alloc: Global, text: &str, row: &str) -> String {
    let mut whole = String::new(alloc);
    let mut is_first = true;
    for part in text.split('%') {
        if is_first {
            whole.push_str(part).expect(rt, "memory");
        } else {
            put_field(rt, row, part, &mut whole);
        }
        is_first = false;
    }
    whole
}

// Puts the field with the number with which the part begins, and the rest of the part.
fn put_field<R: Abort>(rt: &R, row: &str, part: &str, to: &mut String) {
    let (digit, rest) = part.split_at_checked(1).unwrap_or(("", part));
    let (field, rest) = match field_of(row, digit) {
        Some(field) => (field, rest),
        None => ("%", part),
    };
    to.push_str(field).expect(rt, "memory");
    to.push_str(rest).expect(rt, "memory");
}

// The field with this number, from 1.
fn field_of<'t>(row: &'t str, digit: &str) -> Option<&'t str> {
    let mut left = digit.parse::<u64>().ok()?;
    for field in row.split(" / ") {
        left = left.wrapping_sub(1);
        if left == 0 {
            return if row.is_empty() { None } else { Some(field) };
        }
    }
    None
}

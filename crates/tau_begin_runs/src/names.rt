//! Names of bytes, which scenes spell.

use std::alloc::Global;

// Each name, and its bytes as hexadecimal digits.
static NAMES: &str = "\
# The header of each of two streams: `TAURUS-LOG-1`, their number, and which one it is. WIDE is that of stream 0 in format 2.
HEAD-0 5441555255532d4c4f472d31 0002 0000
HEAD-1 5441555255532d4c4f472d31 0002 0001
WIDE 5441555255532d4c4f472d32 0002 0000
# Declarations: `table a`, `table b`, `table ab`, and `table` with no end of the line.
TABLE-A 7461626c6520610a
TABLE-B 7461626c6520620a
TABLE-AB 7461626c652061620a
TABLE 7461626c65
# Blocks, each behind an open gate and its length: the catalogue of `table a`; call 1, `put a 1 5`, which waits for nothing; call 2,
# `add a 1 2`, which waits for position 53 of stream 0; and call 1 of the next run, `put a 7 1`, which waits for (13, 61).
CATALOGUE 01 0000000d 04 0000000d 7461626c6520610a
PUT 01 00000028 01 00000028 0000000000000001 00000000 0000 0001 0000 0000000000000001 01 0000000000000005
ADD 01 00000030 01 00000030 0000000000000002 00000000 0001 0000000000000035 0001 0000 0000000000000001 01 0000000000000007
NEXT-PUT 01 00000038 01 00000038 0000000000000001 00000000 0003 000000000000000d 000000000000003d 0001 0000 0000000000000007 01 0000000000000001
# Epoch 1 with (13, 61), epoch 2 with (94, 86), and epoch 1 with (0, 13), also in one block with the catalogue.
EPOCH-1 01 00000019 05 00000019 00000001 000000000000000d 000000000000003d
EPOCH-2 01 00000019 05 00000019 00000002 000000000000005e 0000000000000056
EPOCH-ALONE 01 00000019 05 00000019 00000001 0000000000000000 000000000000000d
CATALOGUE-AND-EPOCH 01 00000026 04 0000000d 7461626c6520610a 05 00000019 00000001 0000000000000000 000000000000000d
# An anchor with (53, 13).
ANCHOR 01 00000015 03 00000015 0000000000000035 000000000000000d
# Epoch 4,294,967,295 with (13, 13) and with (0, 13), and epoch 4,294,967,294 with (0, 13).
ENDED 01 00000019 05 00000019 ffffffff 000000000000000d 000000000000000d
LAST 01 00000019 05 00000019 ffffffff 0000000000000000 000000000000000d
LAST-BUT-ONE 01 00000019 05 00000019 fffffffe 0000000000000000 000000000000000d
";

/// The digits of a name, or those that a word is.
fn digits_of(word: &str) -> &str {
    for line in NAMES.lines() {
        if let Some((name, digits)) = line.split_once(' ') {
            if name == word {
                return digits;
            }
        }
    }
    word
}

/// Puts the bytes that hexadecimal digits spell, with spaces between.
fn put_digits(bytes: &mut Vec<u8>, digits: &str) -> Option<()> {
    let mut high: Option<u8> = None;
    for letter in digits.chars() {
        if letter == ' ' {
            continue;
        }
        let low = letter.to_digit(16)? as u8;
        match high {
            None => high = Some(low),
            Some(first) => {
                bytes.push((first << 4) | low).ok()?;
                high = None;
            }
        }
    }
    if high.is_none() { Some(()) } else { None }
}

/// The bytes of names and digits; `none` for no byte.
pub fn bytes_of(alloc: Global, words: &str) -> Option<Vec<u8>> {
    let mut bytes = Vec::new(alloc);
    if words == "none" {
        return Some(bytes);
    }
    for word in words.split(' ') {
        put_digits(&mut bytes, digits_of(word))?;
    }
    Some(bytes)
}

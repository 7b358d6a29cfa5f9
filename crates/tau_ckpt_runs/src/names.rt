//! Names of bytes and of logs, which the rows of the tests spell.

use std::alloc::Global;

// Each name, and its bytes as hexadecimal digits; the names of logs stand for those of two streams.
static NAMES: &str = "\
# The header of each of two streams, `TAURUS-LOG-1`, their number and which one it is; and the block with the catalogue of `table a`.
HEAD-0 5441555255532d4c4f472d31 0002 0000
HEAD-1 5441555255532d4c4f472d31 0002 0001
CATALOGUE 01 0000000d 04 0000000d 7461626c6520610a
# Stream 0: call 1 puts 5 into row 1, at [13, 53).
FIRST 01 00000028 01 00000028 0000000000000001 00000000 0000 0001 0000 0000000000000001 01 0000000000000005
# Stream 1: call 2 puts 7 into row 1 and waits for the end of stream 0, at [13, 61).
SECOND 01 00000030 01 00000030 0000000000000002 00000000 0001 0000000000000035 0001 0000 0000000000000001 01 0000000000000007
# Stream 0 after another run: epoch 1 with (53, 61) at [53, 78), and call 1, which puts 8 into row 1 and waits for that, at [78, 134).
NEXT-0 01 00000051 05 00000019 00000001 0000000000000035 000000000000003d 01 00000038 0000000000000001 00000000 0003 0000000000000035 000000000000003d 0001 0000 0000000000000001 01 0000000000000008
# Stream 1 then: the same epoch at [61, 86).
NEXT-1 01 00000019 05 00000019 00000001 0000000000000035 000000000000003d
# Stream 0: call 1 puts 5 into row 1 and waits for the end of stream 1, at [13, 61).
FIRST-WAITS 01 00000030 01 00000030 0000000000000001 00000000 0002 000000000000003d 0001 0000 0000000000000001 01 0000000000000005
# Stream 1: call 2 puts 6 into row 2 and waits for the end of stream 0, at [13, 61).
SECOND-WAITS 01 00000030 01 00000030 0000000000000002 00000000 0001 000000000000003d 0001 0000 0000000000000002 01 0000000000000006
# Logs of these streams.
LOG HEAD-0 CATALOGUE FIRST 00 / HEAD-1 CATALOGUE SECOND 00
CONTINUED HEAD-0 CATALOGUE FIRST NEXT-0 00 / HEAD-1 CATALOGUE SECOND NEXT-1 00
TANGLED HEAD-0 CATALOGUE FIRST-WAITS 00 / HEAD-1 CATALOGUE SECOND-WAITS 00
# Checkpoint 1 in slot 0, of two streams up to 53 and 61, with no epoch: row 1 of table 0 holds 7. The gate; `TAURUS-CKP-1`, the
# number of streams, the slot and the length of the body, 55; the number, the epoch, the positions and the count of the rows; the row.
SLOT 01 5441555255532d434b502d31 0002 0000 0000000000000037 0000000000000001 00000000 0000000000000035 000000000000003d 0000000000000001 0000 0000000000000001 01 0000000000000007
# The same with rows 1 and 2.
TWO 01 5441555255532d434b502d31 0002 0000 000000000000004a 0000000000000001 00000000 0000000000000035 000000000000003d 0000000000000002 0000 0000000000000001 01 0000000000000007 0000 0000000000000002 01 0000000000000008
";

/// What a name stands for, or the word itself.
pub fn words_of(word: &str) -> &str {
    for line in NAMES.lines() {
        if let Some((name, words)) = line.split_once(' ') {
            if name == word {
                return words;
            }
        }
    }
    word
}

/// Puts the bytes that hexadecimal digits spell, with spaces between.
fn put_digits(bytes: &mut Vec<u8>, digits: &str) -> Option<()> {
    let mut high: Option<u8> = None;
    for letter in digits.chars() {
        if letter == ' ' {
            continue;
        }
        let low = letter.to_digit(16)? as u8;
        match high {
            None => high = Some(low),
            Some(first) => {
                bytes.push((first << 4) | low).ok()?;
                high = None;
            }
        }
    }
    if high.is_none() { Some(()) } else { None }
}

/// Puts the bytes of a name or of digits, or, as `24:47`, another byte, 47, in place of byte 24.
fn put_word(bytes: &mut Vec<u8>, word: &str) -> Option<()> {
    match word.split_once(':') {
        Some((at, byte)) => {
            *bytes.get_mut(at.parse::<usize>().ok()?)? = byte.parse::<u8>().ok()?;
            Some(())
        }
        None => put_digits(bytes, words_of(word)),
    }
}

/// The bytes of these words; `none` for no byte.
pub fn bytes_of(alloc: Global, words: &str) -> Option<Vec<u8>> {
    let mut bytes = Vec::new(alloc);
    if words == "none" {
        return Some(bytes);
    }
    for word in words.split(' ') {
        put_word(&mut bytes, word)?;
    }
    Some(bytes)
}

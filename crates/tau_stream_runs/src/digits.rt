//! Numbers; and images and records, spelled by hand as hexadecimal digits with spaces between the fields.
use std::alloc::Global;

/// The bytes of hexadecimal digits, between which there may be spaces.
pub(crate) fn bytes_of(alloc: Global, digits: &str) -> Option<Vec<u8>> {
    let mut bytes = Vec::new(alloc);
    let mut high: Option<u8> = None;
    for letter in digits.chars() {
        if letter == ' ' {
            continue;
        }
        let low = letter.to_digit(16)? as u8;
        match high {
            None => high = Some(low),
            Some(first) => {
                bytes.push((first << 4) | low).ok()?;
                high = None;
            }
        }
    }
    if high.is_none() { Some(bytes) } else { None }
}

/// Whether there is a word, which is this number.
pub(crate) fn is(word: Option<&str>, number: u64) -> bool {
    match word {
        Some(digits) => match digits.parse::<u64>() {
            Ok(given) => given == number,
            Err(_) => false,
        },
        None => false,
    }
}

//! A log that a scene of a text spells out. Its first line is `log` with the format and the number of the streams. `stream` with
//! a number, and `streams`, go on with the bytes of that stream, and of all, behind its header, up to the closed gate.
ghost use Rattle.std.specs.Prelude.{IfSome};
ghost use Rattle.tau_scan.specs.Reading.{IsLog};

use std::alloc::Global;
use tau_disk::MemDisk;
use tau_scan::{Log, scan};

/// Puts the bytes that hexadecimal digits spell, with spaces between.
pub fn put_digits(bytes: &mut Vec<u8>, digits: &str) -> Option<()> {
    let mut high: Option<u8> = None;
    for letter in digits.chars() {
        if letter == ' ' {
            continue;
        }
        let low = letter.to_digit(16)? as u8;
        match high {
            None => high = Some(low),
            Some(first) => {
                bytes.push((first << 4) | low).ok()?;
                high = None;
            }
        }
    }
    if high.is_none() { Some(()) } else { None }
}

/// What a line spells of stream `j`.
fn digits_of(line: &str, j: u8) -> Option<&str> {
    if let Some(digits) = line.strip_prefix("streams ") {
        return Some(digits);
    }
    let (number, digits) = line.strip_prefix("stream ")?.split_once(' ')?;
    if number.parse::<u8>().ok()? == j {
        Some(digits)
    } else {
        None
    }
}

/// Puts what a scene spells of stream `j`, and the closed gate.
fn put_stream(image: &mut Vec<u8>, scene: &str, j: u8) -> Option<()> {
    for line in scene.lines() {
        if let Some(digits) = digits_of(line, j) {
            put_digits(image, digits)?;
        }
    }
    image.push(0).ok()
}

/// The disk of stream `j` of `n` in a format, whose digit this is.
fn disk_of(alloc: Global, scene: &str, format: &str, n: u8, j: u8) -> Option<MemDisk> {
    let mut image = Vec::from_slice(alloc, b"TAURUS-LOG-").ok()?;
    image.extend_from_slice(format.as_bytes()).ok()?;
    image.extend_from_slice(&[0, n, 0, j]).ok()?;
    put_stream(&mut image, scene, j)?;
    MemDisk::of_image(alloc, image.as_slice()).ok()
}

/// Puts the disks of all streams.
fn put_disks(disks: &mut Vec<MemDisk>, alloc: Global, scene: &str) -> Option<()> {
    let (format, number) = scene.lines().next()?.strip_prefix("log ")?.split_once(' ')?;
    let n = number.parse::<u8>().ok()?;
    for j in 0..n {
        disks.push(disk_of(alloc, scene, format, n, j)?).ok()?;
    }
    Some(())
}

/// The log of a scene.
pub fn log_of(alloc: Global, scene: &str) -> Option<Log>
    ensures { IfSome result (λ log. IsLog log) }
{
    let mut disks = Vec::new(alloc);
    put_disks(&mut disks, alloc, scene)?;
    if disks.is_empty() || disks.len() > 32 {
        return None;
    }
    scan(alloc, disks.as_mut_slice(), None).ok()
}

//! Logs in words.
ghost use Rattle.tau_scan.specs.Reading.{IsLog};

use crate::records::record;
use std::alloc::{AllocError, Global};
use std::process::Abort;
use tau_disk::MemDisk;
use tau_scan::{Log, scan};

// Puts the bytes of hexadecimal digits, between which there may be spaces.
fn put_digits(bytes: &mut Vec<u8>, digits: &str) -> bool {
    let mut high: Option<u8> = None;
    for c in digits.chars() {
        if c == ' ' {
            continue;
        }
        let Some(digit) = c.to_digit(16) else {
            return false;
        };
        let low = digit as u8;
        match high {
            None => high = Some(low),
            Some(first) => {
                if bytes.push((first << 4) | low).is_err() {
                    return false;
                }
                high = None;
            }
        }
    }
    high.is_none()
}

// Puts the record with this name.
fn put_record(bytes: &mut Vec<u8>, name: &str) -> bool {
    match record(name) {
        Some(digits) => put_digits(bytes, digits),
        None => false,
    }
}

// The records with these names, one after another; `-` if there are none.
fn records_of(rt: &impl Abort, alloc: Global, names: &str) -> Vec<u8> {
    let mut bytes = Vec::new(alloc);
    if names != "-" {
        for name in names.split('+') {
            assert!(rt; put_record(&mut bytes, name), "{name}");
        }
    }
    bytes
}

// Puts an open gate and a block with these records, if there are any, and the gate that ends the stream.
fn put_block(image: &mut Vec<u8>, records: &[u8]) -> Result<(), AllocError> {
    if !records.is_empty() {
        let length = u32::try_from(records.len()).unwrap_or(0);
        image.push(1)?;
        image.extend_from_slice(&length.to_be_bytes())?;
        image.extend_from_slice(records)?;
    }
    image.push(0)?;
    Ok(())
}

// Puts the head of stream `j` of `n` in the format of this digit, and the catalogue of `table a`.
fn put_head(image: &mut Vec<u8>, digit: &str, n: u8, j: u8) -> Result<(), AllocError> {
    image.extend_from_slice(b"TAURUS-LOG-")?;
    image.extend_from_slice(digit.as_bytes())?;
    image.extend_from_slice(&[0, n, 0, j])?;
    image.extend_from_slice(b"\x01\x00\x00\x00\x0d\x04\x00\x00\x00\x0dtable a\n")
}

// A disk with a stream that has these records after the catalogue.
fn disk_of(rt: &impl Abort, alloc: Global, digit: &str, n: u8, j: u8, records: &[u8]) -> MemDisk {
    let mut image = Vec::new(alloc);
    put_head(&mut image, digit, n, j).expect(rt, "memory");
    put_block(&mut image, records).expect(rt, "memory");
    MemDisk::of_image(alloc, &image).expect(rt, "memory")
}

// The disks of streams with the records of these names.
fn disks_of(rt: &impl Abort, alloc: Global, digit: &str, n: u8, streams: &str) -> Vec<MemDisk> {
    let mut disks = Vec::new(alloc);
    let mut j = 0u8;
    for names in streams.split(',') {
        let records = records_of(rt, alloc, names);
        let disk = disk_of(rt, alloc, digit, n, j, records.as_slice());
        assert!(rt; disks.push(disk).is_ok(), "memory");
        j = j.wrapping_add(1);
    }
    disks
}

// How many streams there are.
fn count_of(streams: &str) -> u8 {
    let mut n = 0u8;
    for _ in streams.split(',') {
        n = n.wrapping_add(1);
    }
    n
}

/// The log of streams in the format of this digit: the names of their records with `+` between them, with `,` between the
/// streams.
pub fn log_of(rt: &impl Abort, alloc: Global, digit: &str, streams: &str) -> Log
    ensures { IsLog result }
{
    let n = count_of(streams);
    let mut disks = disks_of(rt, alloc, digit, n, streams);
    assert!(rt; !disks.is_empty() && disks.len() <= 16);
    scan(alloc, disks.as_mut_slice(), None).expect(rt, "a log")
}

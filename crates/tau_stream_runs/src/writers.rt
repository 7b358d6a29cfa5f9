//! What is done with a stream, by the lines of a scene, which `= ` and the facts of its disk end. The first line says how the stream
//! comes about:
//!
//! - `fails 5`: the stream is made and a record is flushed; that call fails.
//! - `stops 5`: a stop comes at that call.
//! - `body 7`: a body of so many bytes is published behind a header.
//! - `made 5`: the stream is made; that call will fail.
//! - `narrow` and `wide`: a run goes on with the body of these digits, `on` an image, in the first format or the second.
ghost use Rattle.std.specs.Prelude.{◌≡◌, []};
ghost use Rattle.tau_disk.specs.Memory.{seen_by};

use crate::digits::bytes_of;
use crate::disks::all_hold;
use crate::reopen::gone_on;
use std::alloc::Global;
use std::process::Abort;
use tau_base::MAX_BODY;
use tau_block::{append_tail, header};
use tau_disk::{Disk, MemDisk};
use tau_stream::{Flush, Writer, publish};

/// Adds a body.
pub(crate) fn adds<D: Disk>(writer: &mut Writer<D>, body: &[u8]) -> Option<()> {
    if writer.gathered() > 1_000_000_000 || body.len() > 1_000_000_000 {
        return None;
    }
    writer.add(body).ok()
}

/// Prepares and flushes.
fn flush(writer: &mut Writer<MemDisk>, upto: u64) -> Option<Result<(), Flush>> {
    let durable = writer.durable();
    if writer.failed() || upto < durable || upto > writer.gathered() {
        return None;
    }
    let count = upto - durable;
    if count > MAX_BODY as u64 || (count > 0 && count < 5) {
        return None;
    }
    writer.prepare(upto).ok()?;
    Some(writer.flush(upto))
}

/// Adds the record of `put a 1 5`, and flushes it, if that goes.
fn put(alloc: Global, writer: &mut Writer<MemDisk>) -> Option<()> {
    let record = bytes_of(
        alloc,
        "01 00000028 0000000000000001 00000000 0000 0001 0000 0000000000000001 01 0000000000000005",
    )?;
    adds(writer, record.as_slice())?;
    let _ = flush(writer, 53)?;
    Some(())
}

/// Asks the length, creates the stream, and flushes the record. Calls 2 to 7 create it, 8 to 11 flush.
fn written(alloc: Global, mut disk: MemDisk) -> Option<MemDisk>
    requires { seen_by disk ≡ [] }
{
    if disk.len().is_err() {
        return Some(disk);
    }
    match Writer::create(alloc, disk, 1, 0, b"table a\n") {
        Ok(mut writer) => {
            put(alloc, &mut writer)?;
            Some(writer.into_disk())
        }
        Err((disk, _)) => Some(disk),
    }
}

/// The disk of a stream of one after a body of so many bytes was published there.
fn published(alloc: Global, size: u32) -> Option<MemDisk> {
    let filled = vec![in alloc; 9; size as usize].ok()?;
    let body = filled.as_slice();
    if body.is_empty() || body.len() > MAX_BODY {
        return None;
    }
    let mut block = Vec::new(alloc);
    append_tail(&mut block, body).ok()?;
    if block.len() > 2 * MAX_BODY {
        return None;
    }
    let mut disk = MemDisk::of_image(alloc, &header(1, 0)).ok()?;
    publish(&mut disk, 16, block.as_slice()).ok()?;
    Some(disk)
}

fn made(alloc: Global, failing: u32) -> Option<Writer<MemDisk>> {
    let disk = MemDisk::new(alloc, &[failing]).ok()?;
    Writer::create(alloc, disk, 1, 0, b"table a\n").ok()
}

fn adds_digits(alloc: Global, writer: &mut Writer<MemDisk>, digits: &str) -> Option<bool> {
    adds(writer, bytes_of(alloc, digits)?.as_slice())?;
    Some(true)
}

/// As many bytes as a block holds.
fn adds_longest(alloc: Global, writer: &mut Writer<MemDisk>) -> Option<bool> {
    let body = vec![in alloc; 9; MAX_BODY].ok()?;
    adds(writer, body.as_slice())?;
    Some(true)
}

/// Flushes up to there, and this comes of it.
fn flushes(writer: &mut Writer<MemDisk>, words: &str) -> Option<bool> {
    let (upto, wanted) = words.split_once(' ')?;
    Some(match flush(writer, upto.parse::<u64>().ok()?)? {
        Ok(()) => wanted == "done",
        Err(Flush::Failed) => wanted == "failed",
        Err(Flush::Idle) => wanted == "idle",
        Err(Flush::NoMemory) => false,
    })
}

/// So many bytes are durable, so many are gathered, and whether the disk has failed.
fn stands(writer: &Writer<MemDisk>, words: &str) -> Option<bool> {
    let (durable, rest) = words.split_once(' ')?;
    let (gathered, state) = rest.split_once(' ')?;
    let wanted = if writer.failed() { "failed" } else { "good" };
    Some(
        durable.parse::<u64>().ok()? == writer.durable()
            && gathered.parse::<u64>().ok()? == writer.gathered()
            && state == wanted,
    )
}

fn does(alloc: Global, writer: &mut Writer<MemDisk>, line: &str) -> Option<bool> {
    let (word, rest) = line.split_once(' ').unwrap_or((line, ""));
    match word {
        "#" => Some(true),
        "add" => adds_digits(alloc, writer, rest),
        "longest" => adds_longest(alloc, writer),
        "flush" => flushes(writer, rest),
        "stands" => stands(writer, rest),
        _ => None,
    }
}

fn does_all(rt: &impl Abort, alloc: Global, writer: &mut Writer<MemDisk>, lines: &str) {
    for line in lines.lines() {
        assert!(rt; does(alloc, writer, line) == Some(true), "{line}");
    }
}

/// The disk of a scene that has no line but its first.
fn disk_of(alloc: Global, word: &str, number: &str) -> Option<MemDisk> {
    let call = number.parse::<u32>().ok()?;
    match word {
        "fails" => written(alloc, MemDisk::new(alloc, &[call]).ok()?),
        "stops" => written(alloc, MemDisk::stopping(alloc, call, true).ok()?),
        "body" => published(alloc, call),
        _ => None,
    }
}

/// The stream of a scene.
fn writer_of(alloc: Global, word: &str, rest: &str) -> Option<Writer<MemDisk>> {
    match word {
        "made" => made(alloc, rest.parse::<u32>().ok()?),
        "narrow" => gone_on(alloc, false, rest),
        "wide" => gone_on(alloc, true, rest),
        _ => None,
    }
}

/// The disk after what is done with a stream.
fn disk_after(rt: &impl Abort, alloc: Global, acts: &str) -> Option<MemDisk> {
    let (first, lines) = acts.split_once('\n').unwrap_or((acts, ""));
    let (word, rest) = first.split_once(' ')?;
    if lines.is_empty() {
        return disk_of(alloc, word, rest);
    }
    let mut writer = writer_of(alloc, word, rest)?;
    does_all(rt, alloc, &mut writer, lines);
    Some(writer.into_disk())
}

fn play_scene(rt: &impl Abort, alloc: Global, scene: &str) -> Option<()> {
    let (acts, facts) = scene.split_once("\n= ")?;
    let disk = disk_after(rt, alloc, acts)?;
    all_hold(rt, alloc, &[disk], facts, scene);
    Some(())
}

/// Plays all scenes of a text, between which there are empty lines.
pub(crate) fn play(rt: &impl Abort, alloc: Global, text: &str) {
    for scene in text.split("\n\n") {
        assert!(rt; play_scene(rt, alloc, scene).is_some(), "{scene}");
    }
}

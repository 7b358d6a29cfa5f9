//! What a run has come to.
use std::alloc::Global;
use std::test::Fail;
use tau_base::Value;
use tau_disk::{MemDisk, Tear};
use tau_proc::Reply;
use tau_report::{Fate, RunEnd, report_text};
use tau_scan::{count_anchors, scan};
use tau_stream::Writer;
use tau_text::Workload;

/// Whether the run told this. It begins with the acknowledgements, which the sink has.
pub fn tells(
    alloc: Global,
    load: &Workload,
    end: &RunEnd,
    acks: &[u8],
    wanted: &str,
) -> Result<bool, Fail> {
    let rest = report_text(alloc, &load.declarations, &end.report, end.disk)?;
    Ok(wanted.as_bytes().strip_prefix(acks) == Some(rest.as_slice()))
}

/// Both disks.
fn disks_of(alloc: Global, mut writers: Vec<Writer<MemDisk>>) -> Result<Vec<MemDisk>, Fail> {
    let second = writers.pop().ok_or("two streams")?;
    let first = writers.pop().ok_or("two streams")?;
    let mut disks = Vec::new(alloc);
    disks.push(first.into_disk())?;
    disks.push(second.into_disk())?;
    Ok(disks)
}

/// Whether the disks hold these images.
pub fn are_images(
    alloc: Global,
    writers: Vec<Writer<MemDisk>>,
    wanted: &str,
) -> Result<bool, Fail> {
    let disks = disks_of(alloc, writers)?;
    let mut text = String::new(alloc);
    for disk in disks.iter() {
        let image = disk.image(Tear::New)?;
        text.push_str("image ")?;
        text.push_str(hex::encode(alloc, image.as_slice())?.as_str())?;
        text.push('\n')?;
    }
    Ok(text.as_str() == wanted)
}

/// Whether these words are these numbers.
fn says(words: &str, numbers: &[usize]) -> bool {
    let mut left = numbers.iter();
    for word in words.trim_end().split(' ') {
        match (word.parse::<usize>(), left.next()) {
            (Ok(number), Some(wanted)) if number == *wanted => {}
            _ => return false,
        }
    }
    left.next() == None
}

/// Whether the run did its work, with so many calls acknowledged, and gave the first stream so many anchors.
pub fn are_anchors(
    alloc: Global,
    end: &RunEnd,
    writers: Vec<Writer<MemDisk>>,
    wanted: &str,
) -> Result<bool, Fail> {
    if end.disk != None || end.sink_failed {
        return Ok(false);
    }
    let mut disks = disks_of(alloc, writers)?;
    if disks.len() != 2 {
        return Err("two streams".into());
    }
    let Ok(log) = scan(alloc, disks.as_mut_slice(), None) else {
        return Err("the log".into());
    };
    let records = log.streams.as_slice().get(0).ok_or("two streams")?;
    let anchors = count_anchors(records.as_slice());
    Ok(says(wanted, &[end.report.acks.len(), anchors]))
}

/// Whether the run did its work, and its calls, of which there are so many, replied the numbers from 1 in the order of the history.
pub fn counts_up(end: &RunEnd, wanted: &str) -> bool {
    end.disk == None
        && !end.sink_failed
        && says(wanted, &[end.report.acks.len()])
        && says(wanted, &[end.report.order.len()])
        && replies_in_order(end)
}

/// Whether each call in the order of the history replied the number of its place.
fn replies_in_order(end: &RunEnd) -> bool {
    let fates = end.report.fates.as_slice();
    let mut wanted: i64 = 0;
    for number in end.report.order.as_slice() {
        wanted = wanted.wrapping_add(1);
        let Some(kept) = fates.get(number.wrapping_sub(1) as usize) else {
            return false;
        };
        if kept.fate() != Fate::Acked(Reply::Ok(Value::Int(wanted))) {
            return false;
        }
    }
    true
}

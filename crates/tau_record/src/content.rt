//! Reading contents.
ghost use Rattle.std.specs.Prelude.{◌≡◌, ◌<◌, ◌≤◌, ◌+◌, ◌^◌, List, Err, IfOk, length};
ghost use Rattle.tau_base.specs.declared.limits.TheConstants.{MAX_STREAMS};
ghost use Rattle.tau_record.specs.Field.{Gives};
ghost use Rattle.tau_record.specs.Format.{One, most_streams};
ghost use Rattle.tau_record.specs.Content.{puts, anchor_at, Joins, IsContent, IsAnswer, FirstBad, content_at, GivesAll};
ghost use Rattle.tau_record.specs.Record.{written_at, command_at, epoch_at, fields_at};
ghost use Rattle.tau_record.specs.declared.entry.Placed.{Placed};
ghost use Rattle.tau_record.specs.declared.fault.RecordFault.{RecordFault};
ghost use Rattle.tau_record.specs.declared.fault.RecordRefusal.TheVariants.{Bad};

use crate::dep::KeptLv;
use crate::entry::{Entry, Placed};
use crate::fault::{FieldError, RecordCause, RecordRefusal, refusal_at};
use crate::kind;
use crate::record::{command_of, epoch_of, frame_of, is_whole, lv_of, written_of};
use arrayvec::ArrayVec;
use std::alloc::Global;
use tau_base::{Call, Format, KeptCall, Key, Listed, Lv, MAX_CATALOGUE, Value};

/// Where the parts of a record are read that are too long to be kept in the record itself: one place for all records.
#[derive(Drop)]
struct Reading {
    alloc: Global,
    dep: Lv,
    writes: Vec<(Key, Value)>,
    call: Call,
}

impl Reading {
    fn new(alloc: Global) -> Reading {
        Reading {
            alloc,
            dep: Lv::zero(1),
            writes: Vec::new(alloc),
            call: Call {
                proc: 0,
                args: ArrayVec::new(),
            },
        }
    }
}

/// What the records so far name: the zero vector and those of the anchors in order, and the number of the last epoch, or 0.
#[derive(Drop)]
struct Named {
    vectors: Vec<Lv>,
    number: u32,
}

/// Puts a data record after those before it.
fn put_written(
    format: Format,
    named: &Named,
    fields: &[u8],
    start: u64,
    past: u64,
    placed: &mut Vec<Placed>,
    reading: &mut Reading,
) -> Result<(), FieldError>
    ensures { Gives (λ _. (placed.new.items, named.now.vectors.items, named.now.number)) result
        (puts (written_at format named.now.vectors.items fields.now) named.now.vectors.items named.now.number placed.old.items start past) }
{
    let (number, anchor, dep, writes, rest) = written_of(
        reading.alloc,
        format,
        named.vectors.as_slice(),
        fields,
        &mut reading.dep,
        &mut reading.writes,
    )?;
    if !is_whole(rest) {
        return Err(FieldError::Bad(RecordCause::BadLength));
    }
    placed.push(Placed {
        entry: Entry::Written {
            number,
            anchor,
            dep,
            writes,
        },
        start,
        past,
    })?;
    Ok(())
}

/// Puts a command record after those before it.
fn put_command(
    format: Format,
    named: &Named,
    fields: &[u8],
    start: u64,
    past: u64,
    placed: &mut Vec<Placed>,
    reading: &mut Reading,
) -> Result<(), FieldError>
    ensures { Gives (λ _. (placed.new.items, named.now.vectors.items, named.now.number)) result
        (puts (command_at format named.now.vectors.items fields.now) named.now.vectors.items named.now.number placed.old.items start past) }
{
    let (number, anchor, dep, rest) = command_of(
        reading.alloc,
        format,
        named.vectors.as_slice(),
        fields,
        &mut reading.dep,
        &mut reading.call,
    )?;
    if !is_whole(rest) {
        return Err(FieldError::Bad(RecordCause::BadLength));
    }
    let call = KeptCall::of(reading.alloc, &reading.call)?;
    placed.push(Placed {
        entry: Entry::Command {
            number,
            anchor,
            dep,
            call,
        },
        start,
        past,
    })?;
    Ok(())
}

/// Puts an anchor after the records before it, and gives it the next number.
fn put_anchor(
    alloc: Global,
    n: usize,
    fields: &[u8],
    start: u64,
    past: u64,
    named: &mut Named,
    placed: &mut Vec<Placed>,
) -> Result<(), FieldError>
    requires low { 1 ≤ n }
    requires high { n ≤ MAX_STREAMS }
    ensures { Gives (λ _. (placed.new.items, named.new.vectors.items, named.new.number)) result
        (puts (anchor_at n fields.now) named.old.vectors.items named.old.number placed.old.items start past) }
{
    match lv_of(n, fields) {
        Err(e) => Err(e),
        Ok((lv, rest)) => {
            if !is_whole(rest) {
                return Err(FieldError::Bad(RecordCause::BadLength));
            }
            let kept = KeptLv::of(alloc, &lv)?;
            named.vectors.push(lv)?;
            placed.push(Placed {
                entry: Entry::Anchor { lv: kept },
                start,
                past,
            })?;
            Ok(())
        }
    }
}

/// Puts an epoch after the records before it.
fn put_epoch(
    alloc: Global,
    n: usize,
    fields: &[u8],
    start: u64,
    past: u64,
    named: &mut Named,
    placed: &mut Vec<Placed>,
) -> Result<(), FieldError>
    requires low { 1 ≤ n }
    requires high { n ≤ MAX_STREAMS }
    ensures { Gives (λ _. (placed.new.items, named.new.vectors.items, named.new.number)) result
        (puts (epoch_at n named.old.number fields.now) named.old.vectors.items named.old.number placed.old.items start past) }
{
    match epoch_of(n, named.number, fields) {
        Err(e) => Err(e),
        Ok((number, lv, rest)) => {
            if !is_whole(rest) {
                return Err(FieldError::Bad(RecordCause::BadLength));
            }
            let kept = KeptLv::of(alloc, &lv)?;
            placed.push(Placed {
                entry: Entry::Epoch { number, lv: kept },
                start,
                past,
            })?;
            named.number = number;
            Ok(())
        }
    }
}

/// Puts a record of a kind after those before it.
#[tactic(auto, unfolding(crate::specs::Record::fields_at))]
fn put_fields(
    format: Format,
    n: usize,
    kind: u8,
    fields: &[u8],
    start: u64,
    past: u64,
    named: &mut Named,
    placed: &mut Vec<Placed>,
    reading: &mut Reading,
) -> Result<(), FieldError>
    requires low { 1 ≤ n }
    requires high { n ≤ MAX_STREAMS }
    ensures { Gives (λ _. (placed.new.items, named.new.vectors.items, named.new.number)) result
        (puts (fields_at format n named.old.number named.old.vectors.items kind fields.now) named.old.vectors.items named.old.number placed.old.items start past) }
{
    if kind == kind::WRITTEN {
        return put_written(format, named, fields, start, past, placed, reading);
    }
    if kind == kind::COMMAND {
        return put_command(format, named, fields, start, past, placed, reading);
    }
    if kind == kind::ANCHOR {
        return put_anchor(reading.alloc, n, fields, start, past, named, placed);
    }
    if kind == kind::EPOCH {
        return put_epoch(reading.alloc, n, fields, start, past, named, placed);
    }
    if fields.len() > MAX_CATALOGUE {
        return Err(FieldError::Bad(RecordCause::BadBody));
    }
    let text = Vec::from_slice(reading.alloc, fields)?;
    placed.push(Placed {
        entry: Entry::Catalogue {
            text: Listed::of(text),
        },
        start,
        past,
    })?;
    Ok(())
}

/// Puts the record at the front of the bytes after those before it, and returns the bytes after it.
#[tactic(auto, unfolding(crate::specs::Record::record_at))]
fn put_record<'a>(
    format: Format,
    n: usize,
    at: u64,
    bytes: &'a [u8],
    named: &mut Named,
    placed: &mut Vec<Placed>,
    reading: &mut Reading,
) -> Result<&'a [u8], FieldError>
    requires low { 1 ≤ n }
    requires high { n ≤ MAX_STREAMS }
    requires fits { at + length bytes.now < 2 ^ 64 }
    ensures { Joins (λ x. x.now) format n at named.old.number named.new.number named.old.vectors.items named.new.vectors.items bytes.now placed.old.items placed.new.items result }
{
    let (kind, fields, after) = frame_of(at == 0, bytes)?;
    let past = at + (bytes.len() - after.len()) as u64;
    put_fields(format, n, kind, fields, at, past, named, placed, reading)?;
    Ok(after)
}

fn records(
    alloc: Global,
    format: Format,
    n: usize,
    content: &[u8],
) -> Result<Vec<Placed>, RecordRefusal>
    requires low { 1 ≤ n }
    requires high { n ≤ MAX_STREAMS }
    ensures { GivesAll result (content_at format n content.now) }
{
    let mut vectors = Vec::new(alloc);
    vectors.push(Lv::zero(n))?;
    let mut named = Named { vectors, number: 0 };
    let mut placed = Vec::new(alloc);
    let mut reading = Reading::new(alloc);
    let mut at: u64 = 0;
    let mut rest = content;
    for _ in 0..content.len() {
        if rest.is_empty() {
            return Ok(placed);
        }
        match put_record(format, n, at, rest, &mut named, &mut placed, &mut reading) {
            Err(e) => return Err(refusal_at(at, e)),
            Ok(after) => {
                let past = at + (rest.len() - after.len()) as u64;
                at = past;
                rest = after;
            }
        }
    }
    Ok(placed)
}

/// The records of the content of a stream, one of `n`, in a format, by its bytes alone: that the catalogue is the text of
/// declarations, and that what the records name is declared, is not looked at.
pub fn decode_as(
    alloc: Global,
    format: Format,
    n: u16,
    content: &[u8],
) -> Result<Vec<Placed>, RecordRefusal>
    requires low { 1 ≤ n }
    requires high { n ≤ most_streams format }
    // What is read is spelled so.
    ensures found { IfOk result (λ v. IsContent format n content.now v.items) }
    // What is spelled so is read.
    ensures only { (ps : List Placed) → IsContent format n content.now ps → IsAnswer ps result }
    // A refusal names the first bad record, with its cause.
    ensures bad { (fault : RecordFault) → result ≡ Err (Bad fault) → FirstBad format n content.now fault }
{
    records(alloc, format, n as usize, content)
}

/// The records of the content of a stream, one of `n`, in format 1, by its bytes alone: that the catalogue is the text of
/// declarations, and that what the records name is declared, is not looked at.
pub fn decode(alloc: Global, n: u16, content: &[u8]) -> Result<Vec<Placed>, RecordRefusal>
    requires low { 1 ≤ n }
    requires high { n ≤ most_streams One }
    // What is read is spelled so.
    ensures found { IfOk result (λ v. IsContent One n content.now v.items) }
    // What is spelled so is read.
    ensures only { (ps : List Placed) → IsContent One n content.now ps → IsAnswer ps result }
    // A refusal names the first bad record, with its cause.
    ensures bad { (fault : RecordFault) → result ≡ Err (Bad fault) → FirstBad One n content.now fault }
{
    decode_as(alloc, Format::One, n, content)
}

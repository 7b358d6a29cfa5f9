//! Reading one record, by what is known of those before it.
ghost use Rattle.std.specs.Prelude.{◌≡◌, ◌≤◌, ◌==◌};
ghost use Rattle.tau_base.specs.declared.limits.TheConstants.{MAX_STREAMS};
ghost use Rattle.tau_record.specs.Field.{Gives};
ghost use Rattle.tau_record.specs.Format.{most_streams};
ghost use Rattle.tau_record.specs.Content.{anchor_at};
ghost use Rattle.tau_record.specs.Record.{written_at, command_at, epoch_at, body_at, record_at};
ghost use Rattle.tau_record.specs.Single.{wholly, GivesAt};

use crate::dep::KeptLv;
use crate::entry::Entry;
use crate::fault::{FieldError, RecordCause, RecordRefusal, refusal_at};
use crate::kind;
use crate::record::{command_of, epoch_of, frame_of, is_whole, lv_of, written_of};
use arrayvec::ArrayVec;
use std::alloc::Global;
use tau_base::{Call, Format, KeptCall, Listed, Lv, MAX_CATALOGUE};

fn written_entry(
    alloc: Global,
    format: Format,
    vectors: &[Lv],
    fields: &[u8],
) -> Result<Entry, FieldError>
    ensures { Gives (λ e. e) result (wholly (written_at format vectors.now fields.now)) }
{
    let mut place = Lv::zero(1);
    let mut rows = Vec::new(alloc);
    let (number, anchor, dep, writes, rest) = written_of(
        alloc, format, vectors, fields, &mut place, &mut rows,
    )?;
    if !is_whole(rest) {
        return Err(FieldError::Bad(RecordCause::BadLength));
    }
    Ok(Entry::Written {
        number,
        anchor,
        dep,
        writes,
    })
}

fn command_entry(
    alloc: Global,
    format: Format,
    vectors: &[Lv],
    fields: &[u8],
) -> Result<Entry, FieldError>
    ensures { Gives (λ e. e) result (wholly (command_at format vectors.now fields.now)) }
{
    let mut place = Lv::zero(1);
    let mut read = Call {
        proc: 0,
        args: ArrayVec::new(),
    };
    let (number, anchor, dep, rest) = command_of(
        alloc, format, vectors, fields, &mut place, &mut read,
    )?;
    if !is_whole(rest) {
        return Err(FieldError::Bad(RecordCause::BadLength));
    }
    let call = KeptCall::of(alloc, &read)?;
    Ok(Entry::Command {
        number,
        anchor,
        dep,
        call,
    })
}

fn anchor_entry(alloc: Global, n: usize, fields: &[u8]) -> Result<Entry, FieldError>
    requires low { 1 ≤ n }
    requires high { n ≤ MAX_STREAMS }
    ensures { Gives (λ e. e) result (wholly (anchor_at n fields.now)) }
{
    match lv_of(n, fields) {
        Err(e) => Err(e),
        Ok((lv, rest)) => {
            if !is_whole(rest) {
                return Err(FieldError::Bad(RecordCause::BadLength));
            }
            let kept = KeptLv::of(alloc, &lv)?;
            Ok(Entry::Anchor { lv: kept })
        }
    }
}

fn epoch_entry(alloc: Global, n: usize, last: u32, fields: &[u8]) -> Result<Entry, FieldError>
    requires low { 1 ≤ n }
    requires high { n ≤ MAX_STREAMS }
    ensures { Gives (λ e. e) result (wholly (epoch_at n last fields.now)) }
{
    match epoch_of(n, last, fields) {
        Err(e) => Err(e),
        Ok((number, lv, rest)) => {
            if !is_whole(rest) {
                return Err(FieldError::Bad(RecordCause::BadLength));
            }
            let kept = KeptLv::of(alloc, &lv)?;
            Ok(Entry::Epoch { number, lv: kept })
        }
    }
}

/// The record with these fields.
#[tactic(auto, unfolding(crate::specs::Record::body_at, crate::specs::Record::fields_at))]
fn entry_of(
    alloc: Global,
    format: Format,
    n: usize,
    last: u32,
    vectors: &[Lv],
    kind: u8,
    fields: &[u8],
) -> Result<Entry, FieldError>
    requires low { 1 ≤ n }
    requires high { n ≤ MAX_STREAMS }
    ensures { Gives (λ e. e) result (body_at format n last vectors.now kind fields.now) }
{
    if kind == kind::WRITTEN {
        return written_entry(alloc, format, vectors, fields);
    }
    if kind == kind::COMMAND {
        return command_entry(alloc, format, vectors, fields);
    }
    if kind == kind::ANCHOR {
        return anchor_entry(alloc, n, fields);
    }
    if kind == kind::EPOCH {
        return epoch_entry(alloc, n, last, fields);
    }
    if fields.len() > MAX_CATALOGUE {
        return Err(FieldError::Bad(RecordCause::BadBody));
    }
    let text = Vec::from_slice(alloc, fields)?;
    Ok(Entry::Catalogue {
        text: Listed::of(text),
    })
}

/// The record at the front of the bytes, and the bytes after it.
#[tactic(auto, unfolding(crate::specs::Record::record_at))]
fn front_of<'a>(
    alloc: Global,
    format: Format,
    n: usize,
    last: u32,
    vectors: &[Lv],
    first: bool,
    bytes: &'a [u8],
) -> Result<(Entry, &'a [u8]), FieldError>
    requires low { 1 ≤ n }
    requires high { n ≤ MAX_STREAMS }
    ensures { Gives (λ x. (x.0, x.1.now)) result (record_at format n last vectors.now first bytes.now) }
{
    let (kind, fields, after) = frame_of(first, bytes)?;
    let entry = entry_of(alloc, format, n, last, vectors, kind, fields)?;
    Ok((entry, after))
}

/// The record at the front of the bytes, which start at this place of the content of a stream, one of `n`, in a format, and
/// the bytes after it; by its bytes alone. `last` is the number of the last epoch before it, or 0, and `vectors` are the
/// zero vector and those of the anchors before it.
pub fn decode_one<'a>(
    alloc: Global,
    format: Format,
    n: u16,
    at: u64,
    last: u32,
    vectors: &[Lv],
    bytes: &'a [u8],
) -> Result<(Entry, &'a [u8]), RecordRefusal>
    requires low { 1 ≤ n }
    requires high { n ≤ most_streams format }
    ensures { GivesAt at (λ x. (x.0, x.1.now)) result (record_at format n last vectors.now (at == 0) bytes.now) }
{
    match front_of(alloc, format, n as usize, last, vectors, at == 0, bytes) {
        Ok((entry, after)) => Ok((entry, after)),
        Err(e) => Err(refusal_at(at, e)),
    }
}

//! Reading the parts of records. They are read one by one, long ones by way of a place that the caller lends, and kept as
//! soon as they are read.
ghost use Rattle.std.specs.Prelude.{◌≡◌, ◌≤◌, ◌==◌, length};
ghost use Rattle.tau_base.specs.declared.limits.TheConstants.{MAX_STREAMS};
ghost use Rattle.tau_record.specs.Field.{Gives};
ghost use Rattle.tau_record.specs.Record.{origin_at, written_at, command_at, lv_at, epoch_at, kind_fits, frame_at};
ghost use Rattle.tau_record.specs.declared.entry.Entry.TheVariants.{Written, Command, Epoch};

use crate::dep::KeptLv;
use crate::fault::{FieldError, RecordCause};
use crate::field::{byte_of, u16_of, u32_of, u64_of};
use crate::item::{args_of, kept_writes_of};
use crate::kind;
use crate::vector::vector_of;
use crate::writes::KeptWrites;
use std::alloc::Global;
use tau_base::{Call, Format, Key, Lv, MAX_ARGS, MAX_LSN, MAX_WRITES, Value};

/// The number of a record's call, that of its anchor, and its vector, which may be read by way of `dep`.
#[inline(always)]
#[tactic(auto, unfolding(crate::specs::Record::origin_at))]
fn origin_of<'a>(
    alloc: Global,
    format: Format,
    vectors: &[Lv],
    bytes: &'a [u8],
    dep: &mut Lv,
) -> Result<(u64, u32, KeptLv, &'a [u8]), FieldError>
    ensures { Gives (λ x. (record { number = x.0; anchor = x.1; dep = x.2 }, x.3.now)) result (origin_at format vectors.now bytes.now) }
{
    let (number, rest) = u64_of(bytes)?;
    if number == 0 {
        return Err(FieldError::Bad(RecordCause::BadBody));
    }
    let (anchor, rest) = u32_of(rest)?;
    if vectors.len() <= anchor as usize {
        return Err(FieldError::Bad(RecordCause::BadAnchor));
    }
    let (dep, rest) = vector_of(alloc, format, &vectors[anchor as usize], rest, dep)?;
    Ok((number, anchor, dep, rest))
}

/// The fields of a data record. Its vector may be read by way of `dep`, and its writes by way of `writes`.
#[inline(always)]
#[tactic(auto, unfolding(crate::specs::Record::written_at))]
pub(crate) fn written_of<'a>(
    alloc: Global,
    format: Format,
    vectors: &[Lv],
    bytes: &'a [u8],
    dep: &mut Lv,
    writes: &mut Vec<(Key, Value)>,
) -> Result<(u64, u32, KeptLv, KeptWrites, &'a [u8]), FieldError>
    ensures { Gives (λ x. (Written x.0 x.1 x.2 x.3, x.4.now)) result (written_at format vectors.now bytes.now) }
{
    let (number, anchor, dep, rest) = origin_of(alloc, format, vectors, bytes, dep)?;
    let (count, rest) = u16_of(rest)?;
    if count == 0 {
        return Err(FieldError::Bad(RecordCause::BadBody));
    }
    if count as usize > MAX_WRITES {
        return Err(FieldError::Bad(RecordCause::BadBody));
    }
    let (writes, rest) = kept_writes_of(alloc, count, rest, writes)?;
    Ok((number, anchor, dep, writes, rest))
}

/// The fields of a command record but its call, which goes into `call`. Its vector may be read by way of `dep`.
#[inline(always)]
#[tactic(auto, unfolding(crate::specs::Record::command_at))]
pub(crate) fn command_of<'a>(
    alloc: Global,
    format: Format,
    vectors: &[Lv],
    bytes: &'a [u8],
    dep: &mut Lv,
    call: &mut Call,
) -> Result<(u64, u32, KeptLv, &'a [u8]), FieldError>
    ensures { Gives (λ x. (Command x.0 x.1 x.2 call.new, x.3.now)) result (command_at format vectors.now bytes.now) }
{
    let (number, anchor, dep, rest) = origin_of(alloc, format, vectors, bytes, dep)?;
    let (proc, rest) = u16_of(rest)?;
    let (count, rest) = byte_of(rest)?;
    if count as usize > MAX_ARGS {
        return Err(FieldError::Bad(RecordCause::BadBody));
    }
    call.proc = proc;
    call.args.clear();
    let rest = args_of(count, rest, &mut call.args)?;
    Ok((number, anchor, dep, rest))
}

/// The vector of an anchor or of an epoch.
pub(crate) fn lv_of(n: usize, bytes: &[u8]) -> Result<(Lv, &[u8]), FieldError>
    requires low { 1 ≤ n }
    requires high { n ≤ MAX_STREAMS }
    ensures { Gives (λ x. (x.0, x.1.now)) result (lv_at n bytes.now) }
{
    let mut lv = Lv::zero(n);
    let mut rest = bytes;
    for j in 0..n {
        let (part, after) = u64_of(rest)?;
        if part >= MAX_LSN {
            return Err(FieldError::Bad(RecordCause::BadBody));
        }
        lv.set(j, part);
        rest = after;
    }
    Ok((lv, rest))
}

/// The number of an epoch, which is above that of the last one, and its vector.
#[tactic(auto, unfolding(crate::specs::Record::epoch_at))]
pub(crate) fn epoch_of(n: usize, last: u32, bytes: &[u8]) -> Result<(u32, Lv, &[u8]), FieldError>
    requires low { 1 ≤ n }
    requires high { n ≤ MAX_STREAMS }
    ensures { Gives (λ x. (Epoch x.0 x.1, x.2.now)) result (epoch_at n last bytes.now) }
{
    let (number, rest) = u32_of(bytes)?;
    if number <= last {
        return Err(FieldError::Bad(RecordCause::BadBody));
    }
    match lv_of(n, rest) {
        Err(e) => Err(e),
        Ok((lv, rest)) => Ok((number, lv, rest)),
    }
}

/// Whether the fields of a record take all of its bytes: nothing is left after them.
pub(crate) fn is_whole(rest: &[u8]) -> bool
    ensures { result ≡ (length rest.now == 0) }
{
    rest.is_empty()
}

fn is_kind(first: bool, kind: u8) -> bool
    ensures { result ≡ kind_fits first kind }
{
    if first {
        kind == kind::CATALOGUE
    } else if kind == kind::EPOCH {
        true
    } else if kind::WRITTEN <= kind {
        kind <= kind::ANCHOR
    } else {
        false
    }
}

/// The kind and the fields of the record at the front of the bytes, and the bytes after it.
#[tactic(auto, unfolding(crate::specs::Record::frame_at))]
pub(crate) fn frame_of(first: bool, bytes: &[u8]) -> Result<(u8, &[u8], &[u8]), FieldError>
    ensures { Gives (λ x. ((x.0, x.1.now), x.2.now)) result (frame_at first bytes.now) }
{
    match bytes {
        [] => Err(FieldError::Bad(RecordCause::Short)),
        [kind, rest @ ..] => {
            if !is_kind(first, *kind) {
                return Err(FieldError::Bad(RecordCause::BadKind));
            }
            if rest.len() < 4 {
                return Err(FieldError::Bad(RecordCause::Short));
            }
            let (head, left) = rest.split_at(4);
            let total = u32::from_be_bytes([head[0], head[1], head[2], head[3]]) as usize;
            if left.len() + 5 < total {
                return Err(FieldError::Bad(RecordCause::Short));
            }
            if total < 5 {
                return Err(FieldError::Bad(RecordCause::BadLength));
            }
            let (fields, after) = left.split_at(total - 5);
            Ok((*kind, fields, after))
        }
    }
}

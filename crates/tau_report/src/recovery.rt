//! The text of a recovery.
ghost use Rattle.std.specs.Prelude.{ℕ, [], ◌∷◌, ◌≡◌, ◌++◌, OnOk, IfOk, codes, decimal, if◌then◌else◌};
ghost use Rattle.std.specs.List.{filter};
ghost use Rattle.tau_base.specs.Vectors.{covers};
ghost use Rattle.tau_scan.specs.Epochs.{judge_of, vector_by};
ghost use Rattle.tau_scan.specs.Taken.{kept_as, taken_in, taken_from};
ghost use Rattle.tau_report.specs.Lines.{line};
ghost use Rattle.tau_report.specs.Recovery.{elv_line, taken_lines, recover_text};

use crate::lines::{put_end, put_rows};
use crate::taken_line::{self, Line, put_line};
use crate::words::next_vector;
use std::alloc::{AllocError, Global};
use tau_base::{Listed, Lv, NoMemory};
use tau_model::Tables;
use tau_record::{Entry, Placed};
use tau_scan::{Judge, Log};

fn put_elv(out: &mut Vec<u8>, elv: &Lv) -> Result<(), AllocError>
    ensures { OnOk result (out.new.items ≡ out.old.items ++ elv_line elv.now) }
{
    out.extend_from_slice(b"elv")?;
    next_vector(out, elv)?;
    out.push(b'\n')?;
    Ok(())
}

/// The line of a record of that call, if it is taken, by way of the place.
fn put_taken(
    out: &mut Vec<u8>,
    place: &mut Line,
    taken: bool,
    stream: u64,
    start: u64,
    number: u64,
) -> Result<(), AllocError>
    ensures { OnOk result (out.new.items ≡ out.old.items ++ (if taken then line (codes "taken" ∷ decimal stream ∷ decimal start ∷ decimal number ∷ []) else [])) }
{
    if !taken {
        return Ok(());
    }
    put_line(out, place, stream, start, number)
}

/// The line of a record that is judged against this vector, if it is taken, by way of the place.
fn put_record(
    out: &mut Vec<u8>,
    place: &mut Line,
    lv: &Lv,
    stream: u64,
    placed: &Placed,
) -> Result<(), AllocError>
    ensures { OnOk result (out.new.items ≡ out.old.items ++ taken_lines (filter (λ r. covers lv.now r.place.dep) (kept_as stream placed.now placed.now.entry))) }
{
    match &placed.entry {
        Entry::Written { number, dep, .. } => {
            put_taken(
                out,
                place,
                lv.covers_all(dep.as_slice()),
                stream,
                placed.start,
                *number,
            )
        }
        Entry::Command { number, dep, .. } => {
            put_taken(
                out,
                place,
                lv.covers_all(dep.as_slice()),
                stream,
                placed.start,
                *number,
            )
        }
        Entry::Anchor { .. } => Ok(()),
        Entry::Catalogue { .. } => Ok(()),
        Entry::Epoch { .. } => Ok(()),
    }
}

/// The lines of the records of a stream.
fn put_stream(
    out: &mut Vec<u8>,
    judge: &Judge,
    stream: u64,
    records: &[Placed],
) -> Result<(), AllocError>
    ensures { OnOk result (out.new.items ≡ out.old.items ++ taken_lines (taken_in (vector_by judge.now) stream 0 records.now)) }
{
    let mut lv = judge.vector(0);
    let mut place = taken_line::place();
    for placed in records {
        put_record(out, &mut place, &lv, stream, placed)?;
        judge.pass(&mut lv, &placed.entry);
    }
    Ok(())
}

/// The lines of the records of all streams.
fn put_streams(
    out: &mut Vec<u8>,
    judge: &Judge,
    streams: &[Listed<Placed>],
) -> Result<(), AllocError>
    ensures { OnOk result (out.new.items ≡ out.old.items ++ taken_lines (taken_from (vector_by judge.now) 0 streams.now)) }
{
    let mut stream = 0u64;
    for records in streams {
        put_stream(out, judge, stream, records.as_slice())?;
        stream += 1;
    }
    Ok(())
}

fn put_judged(
    out: &mut Vec<u8>,
    judge: &Judge,
    log: &Log,
    tables: &Tables,
) -> Result<(), AllocError>
    requires { vector_by judge.now ≡ judge_of log.now }
    ensures { OnOk result (out.new.items ≡ out.old.items ++ recover_text log.now tables.now) }
{
    put_elv(out, &log.elv)?;
    put_streams(out, judge, log.streams.as_slice())?;
    put_rows(out, log.declarations.tables.as_slice(), tables.rows())?;
    put_end(out, None)
}

/// Adds to a text what recovery tells of a log: its end-of-log vector, the taken records by stream and place, and the rows
/// that redoing them gives.
pub fn put_recovery(
    alloc: Global,
    out: &mut Vec<u8>,
    log: &Log,
    tables: &Tables,
) -> Result<(), NoMemory>
    ensures { OnOk result (out.new.items ≡ out.old.items ++ recover_text log.now tables.now) }
{
    let judge = Judge::of(alloc, log)?;
    put_judged(out, &judge, log, tables)?;
    Ok(())
}

/// The text of a recovery alone.
pub fn recover_text(alloc: Global, log: &Log, tables: &Tables) -> Result<Vec<u8>, NoMemory>
    ensures { IfOk result (λ text. text.items ≡ recover_text log.now tables.now) }
{
    let mut text = Vec::new(alloc);
    put_recovery(alloc, &mut text, log, tables)?;
    Ok(text)
}

//! What a log holds, record by record.
ghost use Rattle.std.specs.Prelude.{ℕ, ◌≡◌, ◌++◌, ◌∷◌, [], OnOk, IfOk, codes, decimal};
ghost use Rattle.tau_scan.specs.Epochs.{judge_of, vector_by};
ghost use Rattle.tau_report.specs.Lines.{line, vector_text, end_line};
ghost use Rattle.tau_report.specs.Recovery.{elv_line};
ghost use Rattle.tau_inspect.specs.Inspection.{lowest_uncovered, judged_words, place_words, call_words, record_line, stream_lines, streams_lines, inspect_text};
ghost use Rattle.tau_inspect.specs.Spaced.{spaced};

use std::alloc::{AllocError, Global};
use tau_base::{Listed, Lv, NoMemory};
use tau_record::{Entry, Placed};
use tau_report::{next_number, next_vector, put_number};
use tau_scan::{Judge, Log};

/// The lowest component of a vector that the judging vector does not cover; none if it covers all.
fn lowest_uncovered(judge: &Lv, dep: &[u64]) -> Option<usize>
    ensures { result ≡ lowest_uncovered judge.now dep.now }
{
    for j in 0..dep.len() {
        if dep[j] > judge.position(j) {
            return Some(j);
        }
    }
    None
}

/// The positions of a vector after another word.
fn next_positions(out: &mut Vec<u8>, positions: &[u64]) -> Result<(), AllocError>
    ensures { OnOk result (out.new.items ≡ out.old.items ++ 32 ∷ vector_text positions.now) }
{
    out.push(b' ')?;
    if positions.len() == 0 {
        return Ok(());
    }
    put_number(out, positions[0])?;
    for j in 1..positions.len() {
        out.push(b',')?;
        put_number(out, positions[j])?;
    }
    Ok(())
}

/// Where a record stands.
fn put_place(out: &mut Vec<u8>, word: &[u8], stream: u64, placed: &Placed) -> Result<(), AllocError>
    ensures { OnOk result (out.new.items ≡ out.old.items ++ word.now ++ spaced (decimal stream ∷ decimal placed.now.start ∷ decimal placed.now.past ∷ [])) }
{
    out.extend_from_slice(word)?;
    next_number(out, stream)?;
    next_number(out, placed.start)?;
    next_number(out, placed.past)
}

/// Whether a record is taken, and else the lowest component that is not covered.
fn put_judged(out: &mut Vec<u8>, judge: &Lv, dep: &[u64]) -> Result<(), AllocError>
    ensures { OnOk result (out.new.items ≡ out.old.items ++ spaced (judged_words (lowest_uncovered judge.now dep.now))) }
{
    match lowest_uncovered(judge, dep) {
        None => out.extend_from_slice(b" taken"),
        Some(j) => {
            out.extend_from_slice(b" out")?;
            next_number(out, j as u64)
        }
    }
}

/// The line of a record of a call.
fn put_call(
    out: &mut Vec<u8>,
    judge: &Lv,
    word: &[u8],
    stream: u64,
    placed: &Placed,
    number: u64,
    dep: &[u64],
) -> Result<(), AllocError>
    ensures { OnOk result (out.new.items ≡ out.old.items ++ line (call_words word.now judge.now stream placed.now number dep.now)) }
{
    put_place(out, word, stream, placed)?;
    next_number(out, number)?;
    next_positions(out, dep)?;
    put_judged(out, judge, dep)?;
    out.push(b'\n')?;
    Ok(())
}

/// The line of an anchor.
fn put_anchor(out: &mut Vec<u8>, stream: u64, placed: &Placed, lv: &[u64]) -> Result<(), AllocError>
    ensures { OnOk result (out.new.items ≡ out.old.items ++ line (place_words (codes "anchor") stream placed.now (vector_text lv.now ∷ []))) }
{
    put_place(out, b"anchor", stream, placed)?;
    next_positions(out, lv)?;
    out.push(b'\n')?;
    Ok(())
}

/// The line of a catalogue.
fn put_catalogue(out: &mut Vec<u8>, stream: u64, placed: &Placed) -> Result<(), AllocError>
    ensures { OnOk result (out.new.items ≡ out.old.items ++ line (place_words (codes "catalogue") stream placed.now [])) }
{
    put_place(out, b"catalogue", stream, placed)?;
    out.push(b'\n')?;
    Ok(())
}

/// The line of an epoch record.
fn put_epoch(
    out: &mut Vec<u8>,
    stream: u64,
    placed: &Placed,
    number: u32,
    lv: &[u64],
) -> Result<(), AllocError>
    ensures { OnOk result (out.new.items ≡ out.old.items ++ line (place_words (codes "epoch") stream placed.now (decimal number ∷ vector_text lv.now ∷ []))) }
{
    put_place(out, b"epoch", stream, placed)?;
    next_number(out, u64::from(number))?;
    next_positions(out, lv)?;
    out.push(b'\n')?;
    Ok(())
}

/// The line of a record that is judged against this vector.
fn put_record(out: &mut Vec<u8>, judge: &Lv, stream: u64, placed: &Placed) -> Result<(), AllocError>
    ensures { OnOk result (out.new.items ≡ out.old.items ++ record_line judge.now stream placed.now) }
{
    match &placed.entry {
        Entry::Written { number, dep, .. } => put_call(
            out,
            judge,
            b"data",
            stream,
            placed,
            *number,
            dep.as_slice(),
        ),
        Entry::Command { number, dep, .. } => put_call(
            out,
            judge,
            b"command",
            stream,
            placed,
            *number,
            dep.as_slice(),
        ),
        Entry::Anchor { lv } => put_anchor(out, stream, placed, lv.as_slice()),
        Entry::Catalogue { .. } => put_catalogue(out, stream, placed),
        Entry::Epoch { number, lv } => put_epoch(out, stream, placed, *number, lv.as_slice()),
    }
}

/// The lines of the records of a stream.
fn put_stream(
    out: &mut Vec<u8>,
    judge: &Judge,
    stream: u64,
    records: &[Placed],
) -> Result<(), AllocError>
    ensures { OnOk result (out.new.items ≡ out.old.items ++ stream_lines (vector_by judge.now) stream 0 records.now) }
{
    let mut lv = judge.vector(0);
    for placed in records {
        put_record(out, &lv, stream, placed)?;
        judge.pass(&mut lv, &placed.entry);
    }
    Ok(())
}

/// The lines of the records of all streams.
fn put_streams(
    out: &mut Vec<u8>,
    judge: &Judge,
    streams: &[Listed<Placed>],
) -> Result<(), AllocError>
    ensures { OnOk result (out.new.items ≡ out.old.items ++ streams_lines (vector_by judge.now) 0 streams.now) }
{
    let mut stream = 0u64;
    for records in streams {
        put_stream(out, judge, stream, records.as_slice())?;
        stream += 1;
    }
    Ok(())
}

/// The line of the end-of-log vector.
fn put_elv(out: &mut Vec<u8>, elv: &Lv) -> Result<(), AllocError>
    ensures { OnOk result (out.new.items ≡ out.old.items ++ elv_line elv.now) }
{
    out.extend_from_slice(b"elv")?;
    next_vector(out, elv)?;
    out.push(b'\n')?;
    Ok(())
}

/// The whole text.
fn put_inspection(out: &mut Vec<u8>, judge: &Judge, log: &Log) -> Result<(), AllocError>
    requires { vector_by judge.now ≡ judge_of log.now }
    ensures { OnOk result (out.new.items ≡ out.old.items ++ inspect_text log.now) }
{
    put_elv(out, &log.elv)?;
    put_streams(out, judge, log.streams.as_slice())?;
    out.extend_from_slice(b"end 0\n")
}

/// What a log holds: its end-of-log vector, and a line for each record by stream and place. A record of a call is `taken`,
/// or `out` with the lowest component that its judging vector does not cover.
pub fn inspect_text(alloc: Global, log: &Log) -> Result<Vec<u8>, NoMemory>
    ensures { IfOk result (λ text. text.items ≡ inspect_text log.now) }
{
    let judge = Judge::of(alloc, log)?;
    let mut text = Vec::new(alloc);
    put_inspection(&mut text, &judge, log)?;
    Ok(text)
}

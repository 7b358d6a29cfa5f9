//! The records of a stream, judged by its declarations.
ghost use Rattle.std.specs.Prelude.{◌≡◌, ◌≤◌, ◌&&◌, List, length, Err, None, Some, IsNone, is_ok, IfOk, IfSome};
ghost use Rattle.tau_proc.specs.Takes.{takes};
ghost use Rattle.tau_record.specs.Content.{FirstBad, content_at};
ghost use Rattle.tau_record.specs.declared.entry.Placed.{Placed};
ghost use Rattle.tau_base.specs.Modes.{most_streams};
ghost use Rattle.tau_text.specs.Alone.{declarations_of};
ghost use Rattle.tau_scan.specs.Reading.{text_of, catalogue_of, declared_by, or_none, names_table, is_of_table, is_declared, first_undeclared, undeclared, records_of, judged, or_no_records, unless, IsReading};
ghost use Rattle.tau_scan.specs.Found.{Judged, IsShort};

use arrayvec::ArrayVec;
use std::alloc::Global;
use tau_base::{Call, Format, KeptCall, Listed, NoMemory, Value};
use tau_proc::{FIRST_DECLARED, Procs};
use tau_record::{Entry, Placed, RecordCause, RecordFault, RecordRefusal, decode_as};
use tau_text::{Declarations, TextRefusal, parse_declarations};

/// The declarations of a log without a catalogue.
pub fn none_declared(alloc: Global) -> Declarations
    ensures { result ≡ declared_by None }
{
    Declarations {
        tables: Listed::new(alloc),
        procs: Procs::new(alloc),
    }
}

/// What a text declares; nothing where it is not the canonical text of declarations.
pub fn declarations_in(alloc: Global, text: &[u8]) -> Result<Declarations, NoMemory>
    ensures { IfOk result (λ d. d ≡ or_none (declarations_of text.now)) }
{
    match parse_declarations(alloc, text) {
        Ok(declarations) => Ok(declarations),
        Err(TextRefusal::NoMemory) => Err(NoMemory),
        Err(TextRefusal::Bad(_)) => Ok(none_declared(alloc)),
    }
}

/// Whether it is the canonical text of declarations.
#[inline(never)]
fn is_canonical(alloc: Global, text: &[u8]) -> Result<bool, NoMemory>
    ensures { IfOk result (λ b. b ≡ is_ok (declarations_of text.now)) }
{
    match parse_declarations(alloc, text) {
        Ok(_) => Ok(true),
        Err(TextRefusal::NoMemory) => Err(NoMemory),
        Err(TextRefusal::Bad(_)) => Ok(false),
    }
}

/// The text of a catalogue.
fn text_in(entry: &Entry) -> Option<&[u8]>
    ensures some { IfSome result (λ text. text_of entry.now ≡ Some text.now) }
    ensures none { IsNone result → text_of entry.now ≡ None }
{
    match entry {
        Entry::Catalogue { text } => Some(text.as_slice()),
        Entry::Written { .. } => None,
        Entry::Command { .. } => None,
        Entry::Anchor { .. } => None,
        Entry::Epoch { .. } => None,
    }
}

/// The text of the catalogue of a stream, where it has records.
pub fn catalogue_text(records: &[Placed]) -> Option<&[u8]>
    ensures some { IfSome result (λ text. catalogue_of records.now ≡ Some text.now) }
    ensures none { IsNone result → catalogue_of records.now ≡ None }
{
    match records {
        [] => None,
        [first, ..] => text_in(&first.entry),
    }
}

/// What the catalogue of a stream declares; nothing without one.
pub fn declared_in(alloc: Global, records: &[Placed]) -> Result<Declarations, NoMemory>
    ensures { IfOk result (λ d. d ≡ declared_by (catalogue_of records.now)) }
{
    match catalogue_text(records) {
        None => Ok(none_declared(alloc)),
        Some(text) => declarations_in(alloc, text),
    }
}

/// Whether the first argument is the number of a declared table.
fn names_table(declarations: &Declarations, args: &[Value]) -> bool
    ensures { result ≡ names_table declarations.now args.now }
{
    match args {
        [Value::Int(table), ..] => table.unsigned_abs() < declarations.tables.len() as u64,
        _ => false,
    }
}

/// Whether a call of a built-in procedure is for a declared table.
fn is_of_table(declarations: &Declarations, call: &Call) -> bool
    ensures { result ≡ is_of_table declarations.now call.now }
{
    if call.proc < FIRST_DECLARED {
        names_table(declarations, call.args.as_slice())
    } else {
        true
    }
}

/// Whether what a call names is declared. The call is put into a place that is kept.
#[inline(never)]
fn is_declared_call(declarations: &Declarations, kept: &KeptCall, place: &mut Call) -> bool
    ensures { result ≡ (takes declarations.now.procs kept.now && is_of_table declarations.now kept.now) }
{
    kept.put_into(place);
    declarations.procs.takes(place) && is_of_table(declarations, place)
}

/// Whether what the record names is declared. A call is put into a place that is kept.
#[inline(always)]
pub fn is_declared(
    alloc: Global,
    declarations: &Declarations,
    entry: &Entry,
    place: &mut Call,
) -> Result<bool, NoMemory>
    ensures { IfOk result (λ b. b ≡ is_declared declarations.now entry.now) }
{
    match entry {
        Entry::Written { writes, .. } => Ok(writes.are_of(declarations.tables.len())),
        Entry::Command { call, .. } => Ok(is_declared_call(declarations, call, place)),
        Entry::Anchor { .. } => Ok(true),
        Entry::Epoch { .. } => Ok(true),
        Entry::Catalogue { text } => is_canonical(alloc, text.as_slice()),
    }
}

/// The first record that names what is not declared.
fn first_undeclared(
    alloc: Global,
    declarations: &Declarations,
    records: &[Placed],
) -> Result<Option<RecordFault>, NoMemory>
    ensures { IfOk result (λ fault. fault ≡ first_undeclared declarations.now records.now) }
{
    let mut place = Call {
        proc: 0,
        args: ArrayVec::new(),
    };
    for placed in records {
        if !is_declared(alloc, declarations, &placed.entry, &mut place)? {
            return Ok(Some(RecordFault {
                at: placed.start,
                cause: RecordCause::BadBody,
            }));
        }
    }
    Ok(None)
}

/// The first record that names what the catalogue of its stream does not declare.
fn undeclared(alloc: Global, records: &[Placed]) -> Result<Option<RecordFault>, NoMemory>
    ensures { IfOk result (λ fault. fault ≡ undeclared records.now) }
{
    let declarations = declared_in(alloc, records)?;
    first_undeclared(alloc, &declarations, records)
}

/// The refusal of a stream whose bytes have this first bad record: that of an earlier record that names what is not
/// declared, where there is one.
fn earlier(
    alloc: Global,
    format: Format,
    n: u16,
    content: &[u8],
    fault: RecordFault,
) -> RecordRefusal
    requires low { 1 ≤ n }
    requires high { n ≤ most_streams format }
    requires first { FirstBad format n content.now fault }
    ensures { Judged {A = List Placed} (Err result) (judged format n content.now (Err fault)) }
{
    let Ok(before) = decode_as(alloc, format, n, &content[..fault.at as usize]) else {
        return RecordRefusal::NoMemory;
    };
    match undeclared(alloc, &before) {
        Ok(None) => RecordRefusal::Bad(fault),
        Ok(Some(earlier)) => RecordRefusal::Bad(earlier),
        Err(_) => RecordRefusal::NoMemory,
    }
}

/// The records, where each names only what is declared.
fn declared_ones(alloc: Global, records: Vec<Placed>) -> Result<Listed<Placed>, RecordRefusal>
    ensures judged { Judged result (unless (undeclared records.items) records.items) }
    ensures same { IfOk result (λ listed. (listed ≡ records.items) × (undeclared listed ≡ None)) }
{
    match undeclared(alloc, &records).map_err(|_| RecordRefusal::NoMemory)? {
        None => Ok(Listed::of(records)),
        Some(fault) => Err(RecordRefusal::Bad(fault)),
    }
}

/// The records of the content of a stream of `n`, in a format, or the first bad one.
pub fn records_in(
    alloc: Global,
    format: Format,
    n: u16,
    content: &[u8],
) -> Result<Listed<Placed>, RecordRefusal>
    requires low { 1 ≤ n }
    requires high { n ≤ most_streams format }
    ensures same { Judged result (records_of format n content.now) }
    ensures read { IfOk result (λ records. IsReading format n content.now records) }
    ensures short { IfOk result (λ records. IsShort (catalogue_of records)) }
{
    match decode_as(alloc, format, n, content) {
        Ok(records) => declared_ones(alloc, records),
        Err(RecordRefusal::NoMemory) => Err(RecordRefusal::NoMemory),
        Err(RecordRefusal::Bad(fault)) => Err(earlier(alloc, format, n, content, fault)),
    }
}

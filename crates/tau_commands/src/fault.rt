//! The one line of a refusal.
ghost use Rattle.std.specs.Prelude.{◌≡◌, ◌++◌, [], ◌∷◌, true, IfOk, string_bytes};
ghost use Rattle.tau_disk.specs.Disk.{Rose};
ghost use Rattle.tau_scan.specs.declared.fault.LogCause.{LogCause};
ghost use Rattle.tau_commands.specs.Fault.{fault_text, log_fault_text, image_fault_number, record_cause_number, TellsFault};
ghost use Rattle.tau_commands.specs.Outside.{Wrote};

use crate::status::Status;
use std::alloc::{AllocError, Global};
use tau_block::ImageFault;
use tau_disk::{Sink, write_all};
use tau_record::{RecordCause, RecordFault};
use tau_scan::{LogCause, LogFault};
use tau_text::TextCause;

// The line of a bad text.
fn bad_text_line(alloc: Global, at: u32, cause: TextCause) -> Result<String, AllocError>
    ensures { IfOk result (λ text. string_bytes text ≡ fault_text (Status.BadText at cause)) }
{
    let number = cause.number();
    let mut text = String::new(alloc);
    write!(text, "fault 3 {at} {number}\n")?;
    Ok(text)
}

// The number of an image's cause.
fn image_number(fault: ImageFault) -> u8
    ensures { result ≡ image_fault_number fault }
{
    match fault {
        ImageFault::BadMagic => 1,
        ImageFault::BadCount => 2,
        ImageFault::BadIndex => 3,
        ImageFault::OpenGateWithoutBlock => 4,
    }
}

// The number of a record's cause.
fn record_number(cause: RecordCause) -> u8
    ensures { result ≡ record_cause_number cause }
{
    match cause {
        RecordCause::Short => 1,
        RecordCause::BadKind => 2,
        RecordCause::BadLength => 3,
        RecordCause::BadAnchor => 4,
        RecordCause::BadMask => 5,
        RecordCause::BadBody => 6,
    }
}

// The line of a stream with an image that is none.
fn image_line(alloc: Global, stream: u8, fault: ImageFault) -> Result<String, AllocError>
    ensures { IfOk result (λ text. string_bytes text ≡ log_fault_text stream (LogCause.Image fault)) }
{
    let number = image_number(fault);
    let mut text = String::new(alloc);
    write!(text, "fault 7 {stream} image {number}\n")?;
    Ok(text)
}

// The line of a stream of a log in another format.
fn format_line(alloc: Global, stream: u8, asked: u8, found: u8) -> Result<String, AllocError>
    ensures { IfOk result (λ text. string_bytes text ≡ log_fault_text stream (LogCause.Format asked found)) }
{
    let mut text = String::new(alloc);
    write!(text, "fault 7 {stream} format {asked} {found}\n")?;
    Ok(text)
}

// The line of a stream of a log of another number of streams.
fn count_line(alloc: Global, stream: u8, asked: u16, found: u16) -> Result<String, AllocError>
    ensures { IfOk result (λ text. string_bytes text ≡ log_fault_text stream (LogCause.Count asked found)) }
{
    let mut text = String::new(alloc);
    write!(text, "fault 7 {stream} count {asked} {found}\n")?;
    Ok(text)
}

// The line of a stream with a bad record.
fn record_line(alloc: Global, stream: u8, fault: RecordFault) -> Result<String, AllocError>
    ensures { IfOk result (λ text. string_bytes text ≡ log_fault_text stream (LogCause.Body fault)) }
{
    let number = record_number(fault.cause);
    let at = fault.at;
    let mut text = String::new(alloc);
    write!(text, "fault 7 {stream} record {number} {at}\n")?;
    Ok(text)
}

// The line of a stream whose catalogue differs.
fn catalogue_line(alloc: Global, stream: u8, with: u8, at: u32) -> Result<String, AllocError>
    ensures { IfOk result (λ text. string_bytes text ≡ log_fault_text stream (LogCause.Catalogue with at)) }
{
    let mut text = String::new(alloc);
    write!(text, "fault 7 {stream} catalogue {with} {at}\n")?;
    Ok(text)
}

// The line of a stream of which the vector of an epoch differs.
fn epoch_line(alloc: Global, stream: u8, with: u8, number: u32) -> Result<String, AllocError>
    ensures { IfOk result (λ text. string_bytes text ≡ log_fault_text stream (LogCause.Epoch with number)) }
{
    let mut text = String::new(alloc);
    write!(text, "fault 7 {stream} epoch {with} {number}\n")?;
    Ok(text)
}

// The line of a stream whose catalogue is not that of the workload.
fn declared_line(alloc: Global, stream: u8, at: u32) -> Result<String, AllocError>
    ensures { IfOk result (λ text. string_bytes text ≡ log_fault_text stream (LogCause.Declared at)) }
{
    let mut text = String::new(alloc);
    write!(text, "fault 7 {stream} declared {at}\n")?;
    Ok(text)
}

// The line of a stream that is too long to go on from.
fn long_line(alloc: Global, stream: u8, length: u64) -> Result<String, AllocError>
    ensures { IfOk result (λ text. string_bytes text ≡ log_fault_text stream (LogCause.Long length)) }
{
    let mut text = String::new(alloc);
    write!(text, "fault 7 {stream} long {length}\n")?;
    Ok(text)
}

// The line of a stream after whose epochs there is no other.
fn last_line(alloc: Global, stream: u8) -> Result<String, AllocError>
    ensures { IfOk result (λ text. string_bytes text ≡ log_fault_text stream LogCause.Last) }
{
    let mut text = String::new(alloc);
    write!(text, "fault 7 {stream} last\n")?;
    Ok(text)
}

// The line of a stream with a record that can't be redone.
fn tangled_line(alloc: Global, stream: u8, at: u64) -> Result<String, AllocError>
    ensures { IfOk result (λ text. string_bytes text ≡ log_fault_text stream (LogCause.Tangled at)) }
{
    let mut text = String::new(alloc);
    write!(text, "fault 7 {stream} tangled {at}\n")?;
    Ok(text)
}

// The line of a stream with a record that was applied too early.
fn late_line(alloc: Global, stream: u8, at: u64) -> Result<String, AllocError>
    ensures { IfOk result (λ text. string_bytes text ≡ log_fault_text stream (LogCause.Late at)) }
{
    let mut text = String::new(alloc);
    write!(text, "fault 7 {stream} late {at}\n")?;
    Ok(text)
}

// The line of images that hold no log.
fn log_line(alloc: Global, fault: LogFault) -> Result<String, AllocError>
    ensures { IfOk result (λ text. string_bytes text ≡ fault_text (Status.BadLog fault)) }
{
    let stream = fault.stream;
    match fault.cause {
        LogCause::Image(image) => image_line(alloc, stream, image),
        LogCause::Format { asked, found } => format_line(alloc, stream, asked, found),
        LogCause::Count { asked, found } => count_line(alloc, stream, asked, found),
        LogCause::Body(record) => record_line(alloc, stream, record),
        LogCause::Catalogue { with, at } => catalogue_line(alloc, stream, with, at),
        LogCause::Epoch { with, number } => epoch_line(alloc, stream, with, number),
        LogCause::Declared { at } => declared_line(alloc, stream, at),
        LogCause::Long { length } => long_line(alloc, stream, length),
        LogCause::Last => last_line(alloc, stream),
        LogCause::Tangled { at } => tangled_line(alloc, stream, at),
        LogCause::Late { at } => late_line(alloc, stream, at),
    }
}

/// The line of a status, where it has one.
pub fn fault_line(alloc: Global, status: Status) -> Result<String, AllocError>
    ensures { IfOk result (λ text. string_bytes text ≡ fault_text status) }
{
    match status {
        Status::Usage => format!(in alloc; "fault 2\n"),
        Status::BadText { line, cause } => bad_text_line(alloc, line, cause),
        Status::ReadFault => format!(in alloc; "fault 4\n"),
        Status::DiskFault { stream } => format!(in alloc; "fault 6 {stream}\n"),
        Status::BadLog(fault) => log_line(alloc, fault),
        Status::TooLong => format!(in alloc; "fault 9\n"),
        Status::BadFeed { at } => format!(in alloc; "fault 10 {at}\n"),
        Status::BadReport { line } => format!(in alloc; "fault 11 {line}\n"),
        _ => format!(in alloc; ""),
    }
}

/// Writes the line of a refusal, and returns with its status, or for lack of memory with NoMemory and no line. A sink
/// that fails changes nothing of the answer.
pub fn refuse<K: Sink>(alloc: Global, sink: &mut K, status: Status) -> Status
    ensures { TellsFault (Wrote K.tells (K.held sink.old) (K.held sink.new)) (Rose (K.faults sink.old) (K.faults sink.new)) status result }
{
    match fault_line(alloc, status) {
        Ok(line) => {
            let _ = write_all(sink, line.as_bytes());
            status
        }
        Err(_) => Status::NoMemory,
    }
}

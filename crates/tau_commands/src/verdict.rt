//! Whether a report is true of what the streams hold.
ghost use Rattle.std.specs.Prelude.{◌≡◌, ◌≤◌, true, length, string_bytes, IfOk, Some};
ghost use Rattle.tau_base.specs.declared.limits.TheConstants.{MAX_STREAMS, MAX_WORKERS};
ghost use Rattle.tau_disk.specs.Disk.{Rose};
ghost use Rattle.tau_words.specs.declared.command.Command.{Command};
ghost use Rattle.tau_inspect.specs.Audit.{case_of};
ghost use Rattle.tau_inspect.specs.Cases.{IsCase};
ghost use Rattle.tau_commands.specs.Auditing.{AuditTells, EndsAuditing, OfAudit, TellsVerdict, audit_text, check_word};
ghost use Rattle.tau_commands.specs.Cases.{IsRead};
ghost use Rattle.tau_commands.specs.First.{TellsOfLog};
ghost use Rattle.tau_commands.specs.Outside.{Wrote, ends_rehearsal};
ghost use Rattle.tau_commands.specs.Reads.{HasOnlyRead, HasReadSource};

use crate::case::read_case;
use crate::fault::refuse;
use crate::look::{refuse_scan, scan_first, tell};
use crate::status::Status;
use std::alloc::{AllocError, Global};
use tau_disk::{Disk, Sink, Source};
use tau_inspect::{Check, Verdict, audit as judge};
use tau_report::RunReport;
use tau_scan::Log;
use tau_text::Workload;

/// The word of a check.
fn word_of(check: Check) -> &'static str
    ensures { result.now ≡ check_word check }
{
    match check {
        Check::Epoch => "epoch",
        Check::Fate => "fate",
        Check::Reply => "reply",
        Check::Row => "row",
        Check::Record => "record",
        Check::Ack => "ack",
        Check::Closed => "closed",
        Check::Order => "order",
    }
}

/// The text of a check that fails, with the number of a call.
fn no_text(alloc: Global, check: Check, number: u64) -> Result<String, AllocError>
    ensures { IfOk result (λ text. string_bytes text ≡ audit_text (Verdict.No check number)) }
{
    let word = word_of(check);
    let mut text = String::new(alloc);
    write!(text, "audit no {word} {number}\nend 0\n")?;
    Ok(text)
}

/// The text of a verdict.
fn verdict_text(alloc: Global, verdict: Verdict) -> Result<String, AllocError>
    ensures { IfOk result (λ text. string_bytes text ≡ audit_text verdict) }
{
    match verdict {
        Verdict::Yes => format!(in alloc; "audit yes\nend 0\n"),
        Verdict::Cut => format!(in alloc; "audit cut\nend 0\n"),
        Verdict::No { check, number } => no_text(alloc, check, number),
    }
}

/// Writes the verdict on a report of a run by so many workers and on a log.
fn tell_verdict<K: Sink>(
    alloc: Global,
    load: &Workload,
    workers: u8,
    report: &RunReport,
    log: &Log,
    sink: &mut K,
) -> Status
    requires { IsCase (case_of load.now workers report.now log.now) }
    ensures told { TellsVerdict (case_of load.now workers report.now log.now) (Wrote K.tells (K.held sink.old) (K.held sink.new)) result }
    ensures kind { ends_rehearsal result ≡ true }
    ensures write_fault { result ≡ Status.WriteFault → Rose (K.faults sink.old) (K.faults sink.new) }
{
    let Ok(verdict) = judge(alloc, load, workers, report, log) else {
        return Status::NoMemory;
    };
    let Ok(text) = verdict_text(alloc, verdict) else {
        return Status::NoMemory;
    };
    tell(sink, text.as_bytes())
}

/// Writes the verdict on a report of a run by so many workers and on what the first `streams` disks hold.
fn audit_disks<D: Disk, K: Sink>(
    alloc: Global,
    streams: u8,
    workers: u8,
    load: &Workload,
    report: &RunReport,
    sink: &mut K,
    disks: &mut [D],
) -> Status
    requires low { 1 ≤ streams }
    requires high { streams ≤ MAX_STREAMS }
    requires there { streams ≤ length disks.old }
    requires workers { 1 ≤ workers }
    requires read { IsRead streams load.now report.now }
    ensures read { HasOnlyRead ⟦<D as Disk>⟧ (record { hears = K.tells; held = K.held sink.old; held' = K.held sink.new; faults = K.faults sink.old; faults' = K.faults sink.new }) disks.old disks.new result streams }
    ensures tells { TellsOfLog (AuditTells workers load.now report.now) ⟦<D as Disk>⟧ (record { hears = K.tells; held = K.held sink.old; held' = K.held sink.new; faults = K.faults sink.old; faults' = K.faults sink.new }) disks.old disks.new result streams }
{
    match scan_first(alloc, streams as usize, disks) {
        Ok(log) => tell_verdict(alloc, load, workers, report, &log, sink),
        Err(refusal) => refuse_scan(alloc, sink, refusal),
    }
}

/// Reads a workload and the report of a run of it by `workers` workers from the source, and writes the verdict of an audit on
/// it and on what the first `streams` disks hold.
pub fn audit<S: Source, D: Disk, K: Sink>(
    alloc: Global,
    streams: u8,
    workers: u8,
    source: &mut S,
    sink: &mut K,
    disks: &mut [D],
) -> Status
    requires low { 1 ≤ streams }
    requires high { streams ≤ MAX_STREAMS }
    requires there { streams ≤ length disks.old }
    requires workers { (1 ≤ workers) × (workers ≤ MAX_WORKERS) }
    ensures source { HasReadSource (record { tells = S.tells; left = S.left source.old; left' = S.left source.new; rose = Rose (S.faults source.old) (S.faults source.new) }) (Some (Command.Audit streams workers)) result }
    ensures ends { EndsAuditing ⟦<D as Disk>⟧ (record { tells = S.tells; left = S.left source.old; left' = S.left source.new; rose = Rose (S.faults source.old) (S.faults source.new) })
        (record { hears = K.tells; held = K.held sink.old; held' = K.held sink.new; faults = K.faults sink.old; faults' = K.faults sink.new }) disks.old disks.new result streams workers }
    ensures of { OfAudit ⟦<D as Disk>⟧ (record { tells = S.tells; left = S.left source.old; left' = S.left source.new; rose = Rose (S.faults source.old) (S.faults source.new) })
        (record { hears = K.tells; held = K.held sink.old; held' = K.held sink.new; faults = K.faults sink.old; faults' = K.faults sink.new }) disks.old disks.new result streams workers }
{
    match read_case(alloc, streams, source) {
        Ok((load, report)) => audit_disks(alloc, streams, workers, &load, &report, sink, disks),
        Err(refusal) => refuse(alloc, sink, refusal),
    }
}

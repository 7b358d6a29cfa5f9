//! The measured job: the generated calls, run on new disks in memory and recovered from them.
ghost use Rattle.std.specs.Prelude.{ℕ, ◌≡◌, ◌≤◌, ◌+◌, ◌++◌, ◌∷◌, List, [], false, true, length, map, string_bytes, vec_len, vec_capacity, codes, Ok, Some, None, IfOk, OnOk};
ghost use Rattle.tau_base.specs.declared.limits.TheConstants.{MAX_CALLS, MAX_CATALOGUE, MAX_RECOVERY_WORKERS};
ghost use Rattle.tau_base.specs.declared.format.Format.TheVariants.{One};
ghost use Rattle.tau_base.specs.declared.value.LogMode.TheVariants.{Values};
ghost use Rattle.tau_base.specs.Modes.{most_streams};
ghost use Rattle.tau_disk.specs.Disk.{Rose};
ghost use Rattle.tau_disk.specs.Memory.{seen_by};
ghost use Rattle.tau_disk.specs.Streams.{held_by};
ghost use Rattle.tau_disk.specs.Used.{AreEmpty};
ghost use Rattle.tau_occ.specs.declared.style.Style.TheVariants.{Locking};
ghost use Rattle.tau_text.specs.Canonical.{declarations_text};
ghost use Rattle.tau_text.specs.Kept.{AreCalls};
ghost use Rattle.tau_scan.specs.declared.log.Log.{Log};
ghost use Rattle.tau_scan.specs.Reading.{log_of};
ghost use Rattle.tau_scan.specs.Taken.{Kept};
ghost use Rattle.tau_replay.specs.Redone.{IsOrderOf};
ghost use Rattle.tau_report.specs.Lines.{line};
ghost use Rattle.tau_gen.specs.Generated.{generated};
ghost use Rattle.tau_run.specs.Gives.{GaveNew};
ghost use Rattle.tau_run.specs.Start.{catalogue_of};
ghost use Rattle.tau_run.specs.CoreRun.{IsSoundLoad};
ghost use Rattle.tau_run.specs.Writers.{AreNew};
ghost use Rattle.tau_engine.specs.Bench.{AreFound, BenchTells, IsMeasured, PlaysWell, bench_text, count_lines, digest_lines, digest_of, lines_in, measured_text, number_in, number_line, sum_of};
ghost use Rattle.tau_engine.specs.declared.limits.TheConstants.{MAX_COUNT};
ghost use Rattle.tau_engine.specs.Drill.{AreNewDisks};
ghost use Rattle.tau_engine.specs.DiskFacts.{AreUnborn};
ghost use Rattle.tau_commands.specs.Outside.{Wrote, ends_rehearsal};
ghost use Rattle.tau_engine.specs.Runs.{ran_by};

use sha2::{Digest, Sha256};
use std::alloc::{AllocError, Global};
use std::sync::Wait;
use std::thread::Threads;
use tau_base::{Format, Key, LogMode, NoMemory, Value};
use tau_commands::Status;
use tau_crew::run_threads;
use tau_disk::{Disk, Gate, MemDisk, MemSink, Sink, write_all};
use tau_gen::generate;
use tau_model::Tables;
use tau_open::{close_streams, open_streams};
use tau_replay::replay_threads;
use tau_report::{RunEnd, table_text};
use tau_scan::{Log, ReplayRefusal, ScanRefusal, scan};
use tau_step::run_turns;
use tau_stream::Writer;
use tau_text::{Declarations, Workload, print_declarations};

/// What the measured job is.
#[derive(Clone, Copy, Debug)]
pub struct Job {
    /// Where the rows begin, 0 to 999.
    pub start: u16,
    /// Calls, up to 200,000.
    pub calls: u32,
    /// Streams, 1 to 16.
    pub streams: u8,
    /// Workers, 1 to 16.
    pub workers: u8,
}

/// The rows of a run in which nothing failed. Out of memory if a disk or the sink failed: those in memory do so for
/// want of it alone.
fn rows_of(end: RunEnd) -> Result<Tables, NoMemory>
    ensures heard { OnOk result (end.sink_failed ≡ false) }
    ensures whole { OnOk result (end.disk ≡ None) }
    ensures rows { IfOk result (λ rows. end.report.tables ≡ rows) }
{
    let RunEnd {
        report,
        disk,
        sink_failed,
    } = end;
    if sink_failed {
        return Err(NoMemory);
    }
    match disk {
        Some(_) => Err(NoMemory),
        None => Ok(report.tables),
    }
}

/// Runs a workload on the streams of these writers, of which records hold values: by turns if it has them, else in
/// threads.
fn run_writers<R: Threads + Wait + Sync, D: Disk + Send, K: Sink + Send, G: Gate + Sync>(
    rt: &R,
    alloc: Global,
    load: &Workload,
    workers: u8,
    writers: &mut Vec<Writer<D>>,
    sink: &mut K,
    gate: &G,
) -> Result<RunEnd, NoMemory>
    requires streams_low { 1 ≤ length writers.old.items }
    requires streams_high { length writers.old.items ≤ most_streams One }
    requires low { 1 ≤ workers }
    requires high { workers ≤ MAX_COUNT }
    requires calls { AreCalls load.now.declarations.procs load.now.calls }
    requires text { length (declarations_text load.now.declarations) ≤ MAX_CATALOGUE }
    requires fresh { AreNew One (λ j. catalogue_of load.now) writers.old.items }
    ensures ran { GaveNew (ran_by load.now.turns Locking (length writers.old.items) workers load.now) workers Values load.now writers.old.items writers.new.items K.tells (K.held sink.old) (K.held sink.new) (Rose (K.faults sink.old) (K.faults sink.new)) result }
    ensures faults { K.faults sink.old ≤ K.faults sink.new }
    ensures count { length writers.new.items ≡ length writers.old.items }
{
    match load.turns {
        Some(_) => run_turns(alloc, load, workers, LogMode::Values, writers, sink),
        None => run_threads(
            rt,
            alloc,
            load,
            workers,
            LogMode::Values,
            writers,
            sink,
            gate,
        ),
    }
}

/// The writers of streams, and how many workers run on them.
struct Crew<D: Disk> {
    writers: Vec<Writer<D>>,
    workers: u8,
}

/// Runs the calls of a workload on the streams of these writers, and puts their disks back in front of the others. The
/// lines of acknowledgements go to the sink.
fn play_on<R: Threads + Wait + Sync, D: Disk + Send, K: Sink + Send, G: Gate + Sync>(
    rt: &R,
    alloc: Global,
    load: &Workload,
    crew: Crew<D>,
    sink: &mut K,
    disks: &mut Vec<D>,
    gate: &G,
) -> Result<Tables, NoMemory>
    requires streams_low { 1 ≤ vec_len crew.writers }
    requires streams_high { vec_len crew.writers ≤ MAX_COUNT }
    requires low { 1 ≤ crew.workers }
    requires high { crew.workers ≤ MAX_COUNT }
    requires calls { AreCalls load.now.declarations.procs load.now.calls }
    requires text { length (declarations_text load.now.declarations) ≤ MAX_CATALOGUE }
    requires fresh { AreNew One (λ j. catalogue_of load.now) crew.writers.items }
    requires room { vec_len disks.old + vec_len crew.writers ≤ vec_capacity disks.old }
    ensures ran { IfOk result (λ rows. PlaysWell crew.workers load.now crew.writers.items disks.old.items disks.new.items K.tells (K.held sink.old) (K.held sink.new) (Rose (K.faults sink.old) (K.faults sink.new)) rows) }
    ensures len { vec_len disks.new ≡ vec_len crew.writers + vec_len disks.old }
{
    let Crew {
        mut writers,
        workers,
    } = crew;
    let end = run_writers(rt, alloc, load, workers, &mut writers, sink, gate);
    close_streams(disks, writers);
    rows_of(end?)
}

/// Runs the calls of a workload on empty disks. The lines of acknowledgements go to the sink. Out of memory also if a
/// disk or the sink fails.
fn play<R: Threads + Wait + Sync, D: Disk + Send, K: Sink + Send, G: Gate + Sync>(
    rt: &R,
    alloc: Global,
    load: &Workload,
    job: Job,
    sink: &mut K,
    disks: &mut Vec<D>,
    gate: &G,
) -> Result<Tables, NoMemory>
    requires streams_low { 1 ≤ job.streams }
    requires streams_high { job.streams ≤ MAX_COUNT }
    requires low { 1 ≤ job.workers }
    requires high { job.workers ≤ MAX_COUNT }
    requires sound { IsSoundLoad load.now }
    requires calls { AreCalls load.now.declarations.procs load.now.calls }
    requires count { vec_len disks.old ≡ job.streams }
    requires tells { D.tells }
    requires empty { AreEmpty D.tells D.seen disks.old.items job.streams }
    requires unborn { AreUnborn D.tells D.may_leave disks.old.items job.streams }
    ensures told { IfOk result (λ rows. IsMeasured ⟦<D as Disk>⟧ job.streams job.workers load.now disks.old.items disks.new.items (Wrote K.tells (K.held sink.old) (K.held sink.new)) rows) }
    ensures count { OnOk result (vec_len disks.new ≡ job.streams) }
{
    let catalogue = print_declarations(alloc, &load.declarations)?;
    match open_streams(alloc, disks, job.streams, &catalogue) {
        Ok(writers) => {
            let crew = Crew {
                writers,
                workers: job.workers,
            };
            play_on(rt, alloc, load, crew, sink, disks, gate)
        }
        // That a disk in memory fails is want of memory.
        Err(_) => Err(NoMemory),
    }
}

/// So many new disks.
fn new_disks(alloc: Global, streams: u8) -> Result<Vec<MemDisk>, NoMemory>
    ensures count { IfOk result (λ disks. vec_len disks ≡ streams) }
    ensures new { IfOk result (λ disks. AreNewDisks (λ j d. Unit {0}) disks.items) }
{
    let mut disks = Vec::new(alloc);
    for _j in 0..streams {
        let disk = MemDisk::new(alloc, &[])?;
        disks.push(disk)?;
    }
    Ok(disks)
}

/// The rows that so many workers recover from these disks, which hold a log in format 1.
fn recovered<R: Threads + Wait + Sync, G: Gate + Sync>(
    rt: &R,
    alloc: Global,
    workers: u8,
    disks: &mut [MemDisk],
    gate: &G,
) -> Result<Tables, NoMemory>
    requires low { 1 ≤ length disks.old }
    requires high { length disks.old ≤ most_streams One }
    requires workers { (1 ≤ workers) × (workers ≤ MAX_RECOVERY_WORKERS) }
    requires ordered { (log : Log) × (log_of (Some One) (map seen_by disks.old) ≡ Ok log) × (order : List Kept) × IsOrderOf log order }
    ensures { IfOk result (λ rows. AreFound disks.old rows) }
{
    let log = match scan(alloc, disks, Some(Format::One)) {
        Ok(log) => log,
        Err(ScanRefusal::Bad(_)) => unreachable!(),
        Err(_) => return Err(NoMemory),
    };
    match replay_threads(rt, alloc, &log, workers, gate) {
        Ok(rows) => Ok(rows),
        Err(ReplayRefusal::NoMemory) => Err(NoMemory),
        Err(ReplayRefusal::Tangled { stream: _, at: _ }) => unreachable!(),
    }
}

/// How many lines there are.
fn lines_in(text: &[u8]) -> usize
    ensures { result ≡ lines_in text.now }
{
    let mut count = 0;
    for byte in text {
        if *byte == b'\n' {
            count += 1;
        }
    }
    count
}

/// The number of a row; none is below 0.
fn number_in(value: &Value) -> u64
    ensures { result ≡ number_in value.now }
{
    match value {
        Value::Int(number) if *number >= 0 => *number as u64,
        _ => 0,
    }
}

/// The sum of the numbers of these rows. Out of memory if it is too large for its type.
fn sum_of(rows: &[(Key, Value)]) -> Result<u64, NoMemory>
    ensures { IfOk result (λ sum. sum ≡ sum_of rows.now) }
{
    let mut sum = 0u64;
    for row in rows {
        sum = match sum.checked_add(number_in(&row.1)) {
            Some(sum) => sum,
            None => return Err(NoMemory),
        };
    }
    Ok(sum)
}

/// The digest of the lines of these rows, in lower-case digits.
fn digest_of(alloc: Global, declarations: &Declarations, rows: &Tables) -> Result<String, NoMemory>
    ensures { IfOk result (λ digest. string_bytes digest ≡ digest_of declarations.now.tables rows.now) }
{
    let text = table_text(alloc, declarations, rows)?;
    let digest = Sha256::digest(text.as_slice());
    Ok(hex::encode(alloc, digest.as_slice())?)
}

/// Puts a line of a word and a number.
fn put_number(text: &mut String, word: &str, number: u64) -> Result<(), AllocError>
    ensures { OnOk result (string_bytes text.new ≡ string_bytes text.old ++ number_line word.now number) }
{
    write!(text, "{word} {number}\n")
}

/// Puts a line of two words.
fn put_word(text: &mut String, word: &str, second: &str) -> Result<(), AllocError>
    ensures { OnOk result (string_bytes text.new ≡ string_bytes text.old ++ line (word.now ∷ second.now ∷ [])) }
{
    write!(text, "{word} {second}\n")
}

/// Puts how many calls there are, how many were acknowledged, how many rows they left, and the sum of these.
fn put_counts(
    text: &mut String,
    calls: u64,
    acked: u64,
    rows: u64,
    sum: u64,
) -> Result<(), AllocError>
    ensures { OnOk result (string_bytes text.new ≡ string_bytes text.old ++ count_lines calls acked rows sum) }
{
    put_number(text, "calls", calls)?;
    put_number(text, "acked", acked)?;
    put_number(text, "rows", rows)?;
    put_number(text, "sum", sum)
}

/// Puts the digests of the rows of the run and of those that recovery found, and the end.
fn put_digests(text: &mut String, tables: &str, recovered: &str) -> Result<(), AllocError>
    ensures { OnOk result (string_bytes text.new ≡ string_bytes text.old ++ digest_lines tables.now recovered.now) }
{
    put_word(text, "tables", tables)?;
    put_word(text, "recovered", recovered)?;
    text.push_str("end 0\n")
}

/// What is told of so many calls, of which so many were acknowledged: the rows of the run, and those that recovery
/// found.
fn measured_text(
    alloc: Global,
    declarations: &Declarations,
    calls: u32,
    acked: usize,
    rows: &Tables,
    recovered: &Tables,
) -> Result<String, NoMemory>
    ensures { IfOk result (λ text. string_bytes text ≡ measured_text declarations.now.tables calls acked rows.now recovered.now) }
{
    let sum = sum_of(rows.rows())?;
    let before = digest_of(alloc, declarations, rows)?;
    let after = digest_of(alloc, declarations, recovered)?;
    let count = rows.rows().len() as u64;
    let mut text = String::new(alloc);
    put_counts(&mut text, u64::from(calls), acked as u64, count, sum)?;
    put_digests(&mut text, &before, &after)?;
    Ok(text)
}

/// Runs the generated calls on these new disks, recovers them, and says what came of both.
fn measure_on<R: Threads + Wait + Sync, G: Gate + Sync>(
    rt: &R,
    alloc: Global,
    load: &Workload,
    job: Job,
    out: &mut MemSink,
    disks: &mut Vec<MemDisk>,
    gate: &G,
) -> Result<String, NoMemory>
    requires start { job.start ≤ 999 }
    requires calls { job.calls ≤ MAX_CALLS }
    requires streams_low { 1 ≤ job.streams }
    requires streams_high { job.streams ≤ MAX_COUNT }
    requires low { 1 ≤ job.workers }
    requires high { job.workers ≤ MAX_COUNT }
    requires load { load.now ≡ generated job.start job.calls }
    requires count { vec_len disks.old ≡ job.streams }
    requires new { AreNewDisks (λ j d. Unit {0}) disks.old.items }
    requires empty { held_by out.old ≡ [] }
    ensures { IfOk result (λ text. string_bytes text ≡ bench_text job.start job.calls) }
{
    let rows = play(rt, alloc, load, job, out, disks, gate)?;
    let acked = lines_in(out.bytes());
    let again = recovered(rt, alloc, job.workers, disks.as_mut_slice(), gate)?;
    measured_text(alloc, &load.declarations, job.calls, acked, &rows, &again)
}

/// Makes new disks for the generated calls and runs these on them, recovers them, and says what came of both.
fn measure_load<R: Threads + Wait + Sync, G: Gate + Sync>(
    rt: &R,
    alloc: Global,
    load: &Workload,
    job: Job,
    gate: &G,
) -> Result<String, NoMemory>
    requires start { job.start ≤ 999 }
    requires calls { job.calls ≤ MAX_CALLS }
    requires streams_low { 1 ≤ job.streams }
    requires streams_high { job.streams ≤ MAX_COUNT }
    requires low { 1 ≤ job.workers }
    requires high { job.workers ≤ MAX_COUNT }
    requires load { load.now ≡ generated job.start job.calls }
    ensures { IfOk result (λ text. string_bytes text ≡ bench_text job.start job.calls) }
{
    let mut disks = new_disks(alloc, job.streams)?;
    let mut out = MemSink::new(alloc, &[])?;
    measure_on(rt, alloc, load, job, &mut out, &mut disks, gate)
}

/// Runs the generated calls, recovers them, and says what came of both.
fn measure<R: Threads + Wait + Sync, G: Gate + Sync>(
    rt: &R,
    alloc: Global,
    job: Job,
    gate: &G,
) -> Result<String, NoMemory>
    requires start { job.start ≤ 999 }
    requires calls { job.calls ≤ MAX_CALLS }
    requires streams_low { 1 ≤ job.streams }
    requires streams_high { job.streams ≤ MAX_COUNT }
    requires low { 1 ≤ job.workers }
    requires high { job.workers ≤ MAX_COUNT }
    ensures { IfOk result (λ text. string_bytes text ≡ bench_text job.start job.calls) }
{
    let load = generate(alloc, job.start, job.calls)?;
    let text = measure_load(rt, alloc, &load, job, gate);
    drop(load);
    text
}

/// Does the measured job: runs the generated calls by so many workers on so many new disks in memory, recovers from
/// these by as many workers, and writes what came of both. The time and the memory that it takes grow with the number
/// of calls.
pub fn bench<R: Threads + Wait + Sync, K: Sink, G: Gate + Sync>(
    rt: &R,
    alloc: Global,
    job: Job,
    sink: &mut K,
    gate: &G,
) -> Status
    requires start { job.start ≤ 999 }
    requires calls { job.calls ≤ MAX_CALLS }
    requires streams_low { 1 ≤ job.streams }
    requires streams_high { job.streams ≤ MAX_COUNT }
    requires low { 1 ≤ job.workers }
    requires high { job.workers ≤ MAX_COUNT }
    // The text is a function of the first row and of how many calls there are.
    ensures told { BenchTells job.start job.calls (Wrote K.tells (K.held sink.old) (K.held sink.new)) result }
    ensures kind { ends_rehearsal result ≡ true }
    ensures write_fault { result ≡ Status.WriteFault → Rose (K.faults sink.old) (K.faults sink.new) }
{
    let Ok(text) = measure(rt, alloc, job, gate) else {
        return Status::NoMemory;
    };
    match write_all(sink, text.as_bytes()) {
        Ok(()) => Status::Ok,
        Err(_) => Status::WriteFault,
    }
}

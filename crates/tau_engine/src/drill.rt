//! A rehearsed crash: a run on disks in memory that fail as told, and what recovery finds on them.
ghost use Rattle.std.specs.Prelude.{ℕ, ◌≡◌, ◌≤◌, ◌<◌, ◌+◌, ◌++◌, ◌∷◌, ◌==◌, List, [], true, false, length, take, drop, map, slice_get, string_bytes, vec_len, vec_capacity, None, Ok, IfOk, OnOk};
ghost use Rattle.std.specs.List.{filter, list_any};
ghost use Rattle.tau_base.specs.declared.limits.TheConstants.{MAX_CATALOGUE};
ghost use Rattle.tau_base.specs.declared.format.Format.TheVariants.{One};
ghost use Rattle.tau_disk.specs.Disk.{Rose};
ghost use Rattle.tau_disk.specs.Memory.{is_short_by, seen_by, state_of};
ghost use Rattle.tau_disk.specs.Tear.{image_by};
ghost use Rattle.tau_disk.specs.Streams.{held_by};
ghost use Rattle.tau_disk.specs.Used.{AreEmpty};
ghost use Rattle.tau_model.specs.History.{Member};
ghost use Rattle.tau_text.specs.declared.fault.TextCause.{TextCause};
ghost use Rattle.tau_text.specs.declared.fault.TextFault.{TextFault};
ghost use Rattle.tau_text.specs.Canonical.{declarations_text};
ghost use Rattle.tau_text.specs.Kept.{AreCalls, IsRunnable};
ghost use Rattle.tau_text.specs.Text.{workload_of};
ghost use Rattle.tau_scan.specs.declared.log.Log.{Log};
ghost use Rattle.tau_scan.specs.Reading.{log_of};
ghost use Rattle.tau_scan.specs.Taken.{Kept};
ghost use Rattle.tau_replay.specs.Redone.{IsOrderOf};
ghost use Rattle.tau_run.specs.Start.{catalogue_of};
ghost use Rattle.tau_run.specs.CoreRun.{IsSoundLoad};
ghost use Rattle.tau_run.specs.RunFacts.{WroteFront};
ghost use Rattle.tau_run.specs.Writers.{AreNew};
ghost use Rattle.tau_engine.specs.declared.limits.TheConstants.{MAX_COUNT};
ghost use Rattle.tau_engine.specs.Drill.{AreNewDisks, DrillTells, FailsOnce, IsDrill, IsFound, IsNew, IsPlay, PlaysOn, StopsAt, calls_of, images_by, is_ending, is_of, stopped_line, with_turns};
ghost use Rattle.tau_engine.specs.DiskFacts.{AreUnborn};
ghost use Rattle.tau_commands.specs.Fault.{fault_text, is_refusal};
ghost use Rattle.tau_commands.specs.Outside.{HasFault, HasWorkload, Wrote, ends_drill, ends_rehearsal, is_behind_end, is_behind_text};

use std::alloc::{AllocError, Global};
use std::sync::Wait;
use std::thread::Threads;
use tau_base::{Listed, LogMode, MAX_WORKLOAD, NoMemory};
use tau_commands::{Status, read_source, recover, refuse};
use tau_disk::{Disk, Gate, MemDisk, MemSink, Sink, Source, Tear, write_all};
use tau_open::{OpenRefusal, close_streams, open_streams};
use tau_step::{device_order, run_turns};
use tau_stream::Writer;
use tau_text::{Workload, print_declarations};
use tau_words::Ending;

/// Runs a workload on the streams of these writers, and puts their disks back in front of the others. The lines of
/// acknowledgements go to the sink.
fn play_on<D: Disk, K: Sink>(
    alloc: Global,
    load: &Workload,
    workers: u8,
    sink: &mut K,
    disks: &mut Vec<D>,
    writers: Vec<Writer<D>>,
) -> Result<(), NoMemory>
    requires streams_low { 1 ≤ vec_len writers }
    requires streams_high { vec_len writers ≤ MAX_COUNT }
    requires low { 1 ≤ workers }
    requires high { workers ≤ MAX_COUNT }
    requires calls { AreCalls load.now.declarations.procs load.now.calls }
    requires text { length (declarations_text load.now.declarations) ≤ MAX_CATALOGUE }
    requires fresh { AreNew One (λ j. catalogue_of load.now) writers.items }
    requires room { vec_len disks.old + vec_len writers ≤ vec_capacity disks.old }
    ensures ran { OnOk result (PlaysOn workers load.now writers.items disks.old.items disks.new.items K.tells (K.held sink.old) (K.held sink.new) (Rose (K.faults sink.old) (K.faults sink.new))) }
    ensures len { vec_len disks.new ≡ vec_len writers + vec_len disks.old }
{
    let mut writers = writers;
    let end = run_turns(alloc, load, workers, LogMode::Values, &mut writers, sink);
    close_streams(disks, writers);
    if end?.sink_failed {
        return Err(NoMemory);
    }
    Ok(())
}

/// Runs a workload by turns on empty disks. The lines of acknowledgements go to the sink.
fn rehearse<D: Disk, K: Sink>(
    alloc: Global,
    load: &Workload,
    streams: u8,
    workers: u8,
    sink: &mut K,
    disks: &mut Vec<D>,
) -> Result<(), NoMemory>
    requires streams_low { 1 ≤ streams }
    requires streams_high { streams ≤ MAX_COUNT }
    requires low { 1 ≤ workers }
    requires high { workers ≤ MAX_COUNT }
    requires sound { IsSoundLoad load.now }
    requires calls { AreCalls load.now.declarations.procs load.now.calls }
    requires count { vec_len disks.old ≡ streams }
    requires tells { D.tells }
    requires empty { AreEmpty D.tells D.seen disks.old.items streams }
    requires unborn { AreUnborn D.tells D.may_leave disks.old.items streams }
    ensures told { OnOk result (IsPlay ⟦<D as Disk>⟧ streams workers load.now disks.old.items disks.new.items (Wrote K.tells (K.held sink.old) (K.held sink.new))) }
    ensures count { vec_len disks.new ≡ streams }
{
    let catalogue = print_declarations(alloc, &load.declarations)?;
    match open_streams(alloc, disks, streams, &catalogue) {
        Ok(writers) => play_on(alloc, load, workers, sink, disks, writers),
        Err(OpenRefusal::NoMemory) => Err(NoMemory),
        Err(OpenRefusal::Failed { stream: _ }) => Ok(()),
        Err(
            OpenRefusal::NotEmpty {
                stream: _,
                length: _,
            },
        ) => unreachable!(),
    }
}

/// The first of these calls, at most so many.
fn first_calls(order: &[u8], upto: usize) -> &[u8]
    ensures { result.now ≡ take upto order.now }
{
    &order[..upto.min(order.len())]
}

/// How many of these calls are of the disk of that stream.
fn calls_among(calls: &[u8], stream: u8) -> u32
    requires { length calls.now ≤ 1000000 }
    ensures count { result ≡ length (filter (λ i. i == stream) calls.now) }
    ensures low { result ≤ length calls.now }
{
    let mut count = 0u32;
    for call in calls {
        if *call == stream {
            count += 1;
        }
    }
    count
}

/// Whether this call is of the disk of that stream.
fn is_call_of(order: &[u8], at: usize, stream: u8) -> bool
    ensures { result ≡ is_of stream (slice_get order.now at) }
{
    match order.get(at) {
        Some(call) => *call == stream,
        None => false,
    }
}

/// New disks, of which all stop at that call of this order.
fn stopping_disks(
    alloc: Global,
    streams: u8,
    order: &[u8],
    after: u32,
) -> Result<Vec<MemDisk>, NoMemory>
    requires low { 1 ≤ after }
    requires high { after ≤ 1000000 }
    ensures count { IfOk result (λ disks. vec_len disks ≡ streams) }
    ensures new { IfOk result (λ disks. AreNewDisks (λ j d. StopsAt order.now after j d) disks.items) }
{
    let before = (after - 1) as usize;
    let first = first_calls(order, before);
    let mut disks = Vec::new(alloc);
    for stream in 0..streams {
        let from = 1 + calls_among(first, stream);
        let disk = MemDisk::stopping(alloc, from, is_call_of(order, before, stream))?;
        disks.push(disk)?;
    }
    Ok(disks)
}

/// A new disk of a stream, whose call with that number fails if it is the one of the failing stream.
fn failing_disk(alloc: Global, stream: u8, failing: u8, call: u32) -> Result<MemDisk, NoMemory>
    ensures new { IfOk result (λ d. IsNew d) }
    ensures plan { IfOk result (λ d. FailsOnce failing call stream d) }
{
    if stream == failing {
        return MemDisk::new(alloc, &[call]);
    }
    MemDisk::new(alloc, &[])
}

/// New disks, of which one call of one disk fails.
fn failing_disks(
    alloc: Global,
    streams: u8,
    stream: u8,
    call: u32,
) -> Result<Vec<MemDisk>, NoMemory>
    ensures count { IfOk result (λ disks. vec_len disks ≡ streams) }
    ensures new { IfOk result (λ disks. AreNewDisks (λ j d. FailsOnce stream call j d) disks.items) }
{
    let mut disks = Vec::new(alloc);
    for j in 0..streams {
        let disk = failing_disk(alloc, j, stream, call)?;
        disks.push(disk)?;
    }
    Ok(disks)
}

/// Whether one of these disks was refused a growth.
fn any_short(disks: &[MemDisk]) -> bool
    ensures { result ≡ list_any is_short_by disks.now }
{
    for disk in disks {
        if disk.short() {
            return true;
        }
    }
    false
}

/// How many calls these disks have had.
fn calls_of(disks: &[MemDisk]) -> Result<u64, NoMemory>
    ensures { IfOk result (λ count. count ≡ calls_of disks.now) }
{
    let mut count = 0u64;
    for disk in disks {
        count = match count.checked_add(disk.calls()) {
            Some(count) => count,
            None => return Err(NoMemory),
        };
    }
    Ok(count)
}

/// A disk that holds the image which a stop leaves of this one.
fn image_of(alloc: Global, disk: &MemDisk, tear: Tear) -> Result<MemDisk, NoMemory>
    ensures { IfOk result (λ image. seen_by image ≡ image_by (state_of disk.now) tear) }
{
    let image = disk.image(tear)?;
    MemDisk::of_image(alloc, &image)
}

/// Disks that hold the images which a stop leaves of these.
fn images_of(alloc: Global, disks: &[MemDisk], tear: Tear) -> Result<Vec<MemDisk>, NoMemory>
    ensures held { IfOk result (λ images. map seen_by images.items ≡ images_by tear disks.now) }
    ensures count { IfOk result (λ images. vec_len images ≡ length disks.now) }
{
    let mut images = Vec::new(alloc);
    for disk in disks {
        images.push(image_of(alloc, disk, tear)?)?;
    }
    Ok(images)
}

/// The line of how many calls were counted.
fn stopped_line(alloc: Global, calls: u64) -> Result<String, AllocError>
    ensures { IfOk result (λ text. string_bytes text ≡ stopped_line calls) }
{
    let mut text = String::new(alloc);
    write!(text, "stopped {calls}\n")?;
    Ok(text)
}

/// Runs the workload on these disks, which are new. Out of memory if one of them was refused a growth.
fn play(
    alloc: Global,
    load: &Workload,
    streams: u8,
    workers: u8,
    out: &mut MemSink,
    disks: &mut Vec<MemDisk>,
) -> Result<(), NoMemory>
    requires streams_low { 1 ≤ streams }
    requires streams_high { streams ≤ MAX_COUNT }
    requires low { 1 ≤ workers }
    requires high { workers ≤ MAX_COUNT }
    requires sound { IsSoundLoad load.now }
    requires calls { AreCalls load.now.declarations.procs load.now.calls }
    requires count { vec_len disks.old ≡ streams }
    requires new { AreNewDisks (λ j d. Unit {0}) disks.old.items }
    ensures told { OnOk result (IsPlay ⟦<MemDisk as Disk>⟧ streams workers load.now disks.old.items disks.new.items (λ lines. held_by out.new ≡ held_by out.old ++ lines)) }
    ensures has_room { OnOk result (list_any is_short_by disks.new.items ≡ false) }
    ensures count { vec_len disks.new ≡ streams }
{
    rehearse(alloc, load, streams, workers, out, disks)?;
    if any_short(disks) {
        return Err(NoMemory);
    }
    Ok(())
}

/// Tells how many calls were counted, and what recovery finds on the images that a stop leaves of these disks.
fn tell<R: Threads + Wait + Sync, G: Gate + Sync>(
    rt: &R,
    alloc: Global,
    streams: u8,
    calls: u64,
    tear: Tear,
    disks: &[MemDisk],
    out: &mut MemSink,
    gate: &G,
) -> Result<(), NoMemory>
    requires low { 1 ≤ streams }
    requires high { streams ≤ MAX_COUNT }
    requires count { length disks.now ≡ streams }
    requires ordered { (log : Log) × (log_of None (images_by tear disks.now) ≡ Ok log) × (order : List Kept) × IsOrderOf log order }
    ensures { OnOk result (IsFound (images_by tear disks.now) calls (λ text. held_by out.new ≡ held_by out.old ++ text)) }
{
    let mut images = images_of(alloc, disks, tear)?;
    let line = stopped_line(alloc, calls)?;
    write_all(out, line.as_bytes()).map_err(|_| NoMemory)?;
    // One worker: the drill starts no thread.
    match recover(rt, alloc, usize::from(streams), 1, out, &mut images, gate) {
        Status::Ok => Ok(()),
        Status::BadLog(_) => unreachable!(),
        _ => Err(NoMemory),
    }
}

/// The drill of a stop at a call of all disks.
fn drill_stop<R: Threads + Wait + Sync, G: Gate + Sync>(
    rt: &R,
    alloc: Global,
    load: &Workload,
    streams: u8,
    workers: u8,
    after: u32,
    tear: Tear,
    out: &mut MemSink,
    gate: &G,
) -> Result<(), NoMemory>
    requires streams_low { 1 ≤ streams }
    requires streams_high { streams ≤ MAX_COUNT }
    requires low { 1 ≤ workers }
    requires high { workers ≤ MAX_COUNT }
    requires sound { IsSoundLoad load.now }
    requires calls { AreCalls load.now.declarations.procs load.now.calls }
    requires after_low { 1 ≤ after }
    requires after_high { after ≤ 1000000 }
    requires empty { held_by out.old ≡ [] }
    ensures { OnOk result (IsDrill ⟦<MemDisk as Disk>⟧ streams workers (Ending.Stop after tear) load.now (held_by out.new)) }
{
    let order = device_order(alloc, load, streams, workers, LogMode::Values)?;
    let mut disks = stopping_disks(alloc, streams, order.as_slice(), after)?;
    play(alloc, load, streams, workers, out, &mut disks)?;
    let calls = u64::from(after).min(order.len() as u64);
    tell(rt, alloc, streams, calls, tear, disks.as_slice(), out, gate)
}

/// The drill of a call of one disk that fails.
fn drill_failure<R: Threads + Wait + Sync, G: Gate + Sync>(
    rt: &R,
    alloc: Global,
    load: &Workload,
    streams: u8,
    workers: u8,
    stream: u8,
    call: u32,
    out: &mut MemSink,
    gate: &G,
) -> Result<(), NoMemory>
    requires streams_low { 1 ≤ streams }
    requires streams_high { streams ≤ MAX_COUNT }
    requires low { 1 ≤ workers }
    requires high { workers ≤ MAX_COUNT }
    requires sound { IsSoundLoad load.now }
    requires calls { AreCalls load.now.declarations.procs load.now.calls }
    requires empty { held_by out.old ≡ [] }
    ensures { OnOk result (IsDrill ⟦<MemDisk as Disk>⟧ streams workers (Ending.Fail stream call) load.now (held_by out.new)) }
{
    let mut disks = failing_disks(alloc, streams, stream, call)?;
    play(alloc, load, streams, workers, out, &mut disks)?;
    let calls = calls_of(disks.as_slice())?;
    tell(
        rt,
        alloc,
        streams,
        calls,
        Tear::New,
        disks.as_slice(),
        out,
        gate,
    )
}

/// The drill, by how it is to end.
fn drill_by<R: Threads + Wait + Sync, G: Gate + Sync>(
    rt: &R,
    alloc: Global,
    load: &Workload,
    streams: u8,
    workers: u8,
    ending: Ending,
    out: &mut MemSink,
    gate: &G,
) -> Result<(), NoMemory>
    requires streams_low { 1 ≤ streams }
    requires streams_high { streams ≤ MAX_COUNT }
    requires low { 1 ≤ workers }
    requires high { workers ≤ MAX_COUNT }
    requires sound { IsSoundLoad load.now }
    requires calls { AreCalls load.now.declarations.procs load.now.calls }
    requires ending { is_ending streams ending ≡ true }
    requires empty { held_by out.old ≡ [] }
    ensures { OnOk result (IsDrill ⟦<MemDisk as Disk>⟧ streams workers ending load.now (held_by out.new)) }
{
    match ending {
        Ending::Stop { after, tear } => drill_stop(
            rt, alloc, load, streams, workers, after, tear, out, gate,
        ),
        Ending::Fail { stream, call } => drill_failure(
            rt, alloc, load, streams, workers, stream, call, out, gate,
        ),
    }
}

/// The workload with its turns; none if it has no section of them.
fn with_turns(alloc: Global, load: Workload) -> Workload
    ensures { result ≡ with_turns load }
{
    let Workload {
        declarations,
        calls,
        turns,
    } = load;
    match turns {
        Some(turns) => Workload {
            declarations,
            calls,
            turns: Some(turns),
        },
        None => Workload {
            declarations,
            calls,
            turns: Some(Listed::new(alloc)),
        },
    }
}

/// Runs a workload by turns on disks of its own that fail as told, and writes its acknowledgements, how many calls of
/// the disks were counted, and what recovery finds on the images.
fn drill_load<R: Threads + Wait + Sync, K: Sink, G: Gate + Sync>(
    rt: &R,
    alloc: Global,
    load: &Workload,
    streams: u8,
    workers: u8,
    ending: Ending,
    sink: &mut K,
    gate: &G,
) -> Status
    requires streams_low { 1 ≤ streams }
    requires streams_high { streams ≤ MAX_COUNT }
    requires low { 1 ≤ workers }
    requires high { workers ≤ MAX_COUNT }
    requires sound { IsSoundLoad load.now }
    requires calls { AreCalls load.now.declarations.procs load.now.calls }
    requires ending { is_ending streams ending ≡ true }
    ensures told { DrillTells ⟦<MemDisk as Disk>⟧ streams workers ending load.now (Wrote K.tells (K.held sink.old) (K.held sink.new)) result }
    ensures kind { ends_rehearsal result ≡ true }
    ensures write_fault { result ≡ Status.WriteFault → Rose (K.faults sink.old) (K.faults sink.new) }
{
    let Ok(mut out) = MemSink::new(alloc, &[]) else {
        return Status::NoMemory;
    };
    match drill_by(rt, alloc, load, streams, workers, ending, &mut out, gate) {
        Ok(()) => {}
        Err(_) => return Status::NoMemory,
    }
    match write_all(sink, out.bytes()) {
        Ok(()) => Status::Ok,
        Err(_) => Status::WriteFault,
    }
}

/// The same of a workload that may have no turns.
fn drill<R: Threads + Wait + Sync, K: Sink, G: Gate + Sync>(
    rt: &R,
    alloc: Global,
    load: Workload,
    streams: u8,
    workers: u8,
    ending: Ending,
    sink: &mut K,
    gate: &G,
) -> Status
    requires streams_low { 1 ≤ streams }
    requires streams_high { streams ≤ MAX_COUNT }
    requires low { 1 ≤ workers }
    requires high { workers ≤ MAX_COUNT }
    requires ending { is_ending streams ending ≡ true }
    requires runnable { IsRunnable load }
    requires meant { (text : List ℕ) × (workload_of text ≡ Ok load) }
    ensures told { DrillTells ⟦<MemDisk as Disk>⟧ streams workers ending (with_turns load) (Wrote K.tells (K.held sink.old) (K.held sink.new)) result }
    ensures kind { ends_rehearsal result ≡ true }
    ensures write_fault { result ≡ Status.WriteFault → Rose (K.faults sink.old) (K.faults sink.new) }
{
    let load = with_turns(alloc, load);
    let status = drill_load(rt, alloc, &load, streams, workers, ending, sink, gate);
    drop(load);
    status
}

/// The drill of the workload that the source holds.
pub fn drill_source<R: Threads + Wait + Sync, S: Source, K: Sink, G: Gate + Sync>(
    rt: &R,
    alloc: Global,
    streams: u8,
    workers: u8,
    ending: Ending,
    source: &mut S,
    sink: &mut K,
    gate: &G,
) -> Status
    requires streams_low { 1 ≤ streams }
    requires streams_high { streams ≤ MAX_COUNT }
    requires low { 1 ≤ workers }
    requires high { workers ≤ MAX_COUNT }
    requires ending { is_ending streams ending ≡ true }

    // What it does with a workload.
    ensures told { S.tells → (load : Workload) → HasWorkload (S.left source.old) load → DrillTells ⟦<MemDisk as Disk>⟧ streams workers ending (with_turns load) (Wrote K.tells (K.held sink.old) (K.held sink.new)) result }
    ensures done { S.tells → (load : Workload) → HasWorkload (S.left source.old) load → (Rose (S.faults source.old) (S.faults source.new) → ⊥) → (Rose (K.faults sink.old) (K.faults sink.new) → ⊥) → Member result (Status.Ok ∷ Status.NoMemory ∷ []) }

    // Each status has its cause.
    ensures kind { ends_drill result ≡ true }
    ensures read_fault { result ≡ Status.ReadFault → Rose (S.faults source.old) (S.faults source.new) }
    ensures too_long { result ≡ Status.TooLong → S.tells → MAX_WORKLOAD < length (S.left source.old) }
    ensures too_long_told { S.tells → MAX_WORKLOAD < length (S.left source.old) → Member result (Status.TooLong ∷ Status.ReadFault ∷ Status.NoMemory ∷ []) }
    ensures bad_text { (line : ℕ) (cause : TextCause) → result ≡ Status.BadText line cause → S.tells → HasFault (S.left source.old) (record { line = line; cause = cause }) }
    ensures bad_text_told { S.tells → (fault : TextFault) → HasFault (S.left source.old) fault → Member result (Status.BadText fault.line fault.cause ∷ Status.ReadFault ∷ Status.NoMemory ∷ []) }
    ensures behind_text { is_behind_text result ≡ true → S.tells → (load : Workload) × HasWorkload (S.left source.old) load }
    ensures write_fault { result ≡ Status.WriteFault → Rose (K.faults sink.old) (K.faults sink.new) }

    // What is read, and what is written by a refusal or out of memory.
    ensures source { S.tells → (k : ℕ) × (k ≤ MAX_WORKLOAD + 1) × (S.left source.new ≡ drop k (S.left source.old)) }
    ensures source_end { S.tells → is_behind_end result ≡ true → S.left source.new ≡ [] }
    ensures refusal { is_refusal result ≡ true → WroteFront (Wrote K.tells (K.held sink.old) (K.held sink.new)) (Rose (K.faults sink.old) (K.faults sink.new)) (fault_text result) }
    ensures silent { result ≡ Status.NoMemory → Wrote K.tells (K.held sink.old) (K.held sink.new) [] }
{
    match read_source(alloc, source) {
        Err(refusal) => refuse(alloc, sink, refusal),
        Ok(load) => drill(rt, alloc, load, streams, workers, ending, sink, gate),
    }
}

//! The audit: whether a report and a log fit together.
ghost use Rattle.std.specs.Prelude.{ℕ, ◌≡◌, ◌≤◌, List, length, map, All, IfOk};
ghost use Rattle.std.specs.List.{filter};
ghost use Rattle.tau_base.specs.Vectors.{covers};
ghost use Rattle.tau_scan.specs.Epochs.{mark_of, marks_in, marks_from};
ghost use Rattle.tau_model.specs.Store.{database};
ghost use Rattle.tau_inspect.specs.Audit.{case_of, acts, records, Pass, before, IsVerdict};
ghost use Rattle.tau_inspect.specs.ByNumber.{HasFlags, HasPlaces};
ghost use Rattle.tau_inspect.specs.Cases.{IsCase, has_mark, in_case};
ghost use Rattle.tau_inspect.specs.Executed.{effects, rows_after};

use crate::acked::{Ack, acks_of, numbers_of};
use crate::by_number::{counts, flags, places};
use crate::case::LentCase;
use crate::check_order::check_order;
use crate::check_records::check_records;
use crate::check_taint::{check_acks, check_closed, is_any_missing, is_whole, tainted_of};
use crate::checks::{check_fate, check_reply};
use crate::executed::{AllDone, Executed, execute};
use crate::records::{Record, records_of};
use crate::same::same_rows;
use crate::verdict::{Check, Verdict};
use crate::walk::passes_at_once;
use std::alloc::Global;
use tau_base::{Listed, Lv, NoMemory};
use tau_record::{Entry, Placed};
use tau_report::RunReport;
use tau_scan::Log;
use tau_text::Workload;

/// Whether the record is the mark of an epoch.
fn is_epoch(entry: &Entry) -> bool
    ensures { result ≡ has_mark (mark_of entry.now) }
{
    match entry {
        Entry::Written { .. } => false,
        Entry::Command { .. } => false,
        Entry::Anchor { .. } => false,
        Entry::Catalogue { .. } => false,
        Entry::Epoch { .. } => true,
    }
}

/// Whether a stream has one.
fn stream_has_epoch(records: &[Placed]) -> bool
    ensures { result ≡ has_mark (marks_in records.now) }
{
    for i in 0..records.len() {
        if is_epoch(&records[i].entry) {
            return true;
        }
    }
    false
}

/// Whether a log has one.
fn has_epoch(streams: &[Listed<Placed>]) -> bool
    ensures { result ≡ has_mark (marks_from streams.now) }
{
    for j in 0..streams.len() {
        if stream_has_epoch(streams[j].as_slice()) {
            return true;
        }
    }
    false
}

/// The numbers of the records whose vectors are covered.
fn covered_numbers(alloc: Global, elv: &Lv, all: &[Record<'_>]) -> Result<Vec<u64>, NoMemory>
    ensures { IfOk result (λ numbers. numbers.items ≡ map (λ r. r.number) (filter (λ r. covers elv.now r.place.dep) all.now)) }
{
    let mut numbers = Vec::with_capacity(alloc, all.len())?;
    for i in 0..all.len() {
        if elv.covers_all(all[i].dep()) {
            numbers.push(all[i].number())?;
        }
    }
    Ok(numbers)
}

/// The numbers of all records.
fn all_numbers(alloc: Global, all: &[Record<'_>]) -> Result<Vec<u64>, NoMemory>
    ensures { IfOk result (λ numbers. numbers.items ≡ map (λ r. r.number) all.now) }
{
    let mut numbers = Vec::with_capacity(alloc, all.len())?;
    for i in 0..all.len() {
        numbers.push(all[i].number())?;
    }
    Ok(numbers)
}

/// The last check.
fn by_order(
    alloc: Global,
    case: &LentCase<'_>,
    done: &AllDone,
    acks: &[Ack<'_>],
    ack_places: &[usize],
    all: &[Record<'_>],
) -> Result<Verdict, NoMemory>
    requires is { IsCase (in_case case.now) }
    requires passed { Pass (in_case case.now) (before Check.Order) }
    requires done { done.now ≡ effects (acts (in_case case.now)) }
    requires acks { acks.now ≡ case.now.report.now.acks }
    requires acks_placed { HasPlaces (length case.now.load.now.calls) (map (λ a. a.0) case.now.report.now.acks) ack_places.now }
    requires all { all.now ≡ records (in_case case.now) }
    ensures { IfOk result (IsVerdict (in_case case.now)) }
{
    let ack_numbers = numbers_of(alloc, acks)?;
    let acked = flags(alloc, case.load.calls.len(), ack_numbers.as_slice())?;
    let numbers = all_numbers(alloc, all)?;
    let recorded = flags(alloc, case.load.calls.len(), numbers.as_slice())?;
    if !is_whole(case, done, recorded.as_slice(), acked.as_slice()) {
        return Ok(Verdict::Cut);
    }
    let record_places = places(alloc, case.load.calls.len(), numbers.as_slice())?;
    match check_order(
        alloc,
        case,
        done,
        acks,
        ack_places,
        all,
        record_places.as_slice(),
    ) {
        Err(_) => Err(NoMemory),
        Ok(Some(number)) => Ok(Verdict::No {
            check: Check::Order,
            number,
        }),
        Ok(None) => Ok(Verdict::Yes),
    }
}

/// The checks of what recovery takes, and what follows. If it takes every call that writes, nothing depends on one that it
/// does not.
fn by_taken(
    alloc: Global,
    case: &LentCase<'_>,
    done: &AllDone,
    order_places: &[usize],
    acks: &[Ack<'_>],
    ack_places: &[usize],
    all: &[Record<'_>],
) -> Result<Verdict, NoMemory>
    requires is { IsCase (in_case case.now) }
    requires passed { Pass (in_case case.now) (before Check.Ack) }
    requires done { done.now ≡ effects (acts (in_case case.now)) }
    requires placed { HasPlaces (length case.now.load.now.calls) case.now.report.now.order order_places.now }
    requires acks { acks.now ≡ case.now.report.now.acks }
    requires acks_placed { HasPlaces (length case.now.load.now.calls) (map (λ a. a.0) case.now.report.now.acks) ack_places.now }
    requires all { all.now ≡ records (in_case case.now) }
    ensures { IfOk result (IsVerdict (in_case case.now)) }
{
    let numbers = covered_numbers(alloc, &case.log.elv, all)?;
    let takes = flags(alloc, case.load.calls.len(), numbers.as_slice())?;
    if !is_any_missing(case, done, takes.as_slice()) {
        return by_order(alloc, case, done, acks, ack_places, all);
    }
    let tainted = tainted_of(alloc, case, done, takes.as_slice())?;
    match check_acks(
        case,
        done,
        order_places,
        takes.as_slice(),
        tainted.as_slice(),
        acks,
    ) {
        Some(number) => Ok(Verdict::No {
            check: Check::Ack,
            number,
        }),
        None => match check_closed(case, done, takes.as_slice(), tainted.as_slice()) {
            Some(number) => Ok(Verdict::No {
                check: Check::Closed,
                number,
            }),
            None => by_order(alloc, case, done, acks, ack_places, all),
        },
    }
}

/// The check of the records, and what follows.
fn by_records(
    alloc: Global,
    case: &LentCase<'_>,
    done: &AllDone,
    acks: &[Ack<'_>],
    ack_numbers: &[u64],
) -> Result<Verdict, NoMemory>
    requires is { IsCase (in_case case.now) }
    requires passed { Pass (in_case case.now) (before Check.Record) }
    requires done { done.now ≡ effects (acts (in_case case.now)) }
    requires acks { acks.now ≡ case.now.report.now.acks }
    requires numbers { ack_numbers.now ≡ map (λ a. a.0) case.now.report.now.acks }
    ensures { IfOk result (IsVerdict (in_case case.now)) }
{
    let all = records_of(alloc, case.log.streams.as_slice(), case.report.order.len())?;
    let order_places = places(alloc, case.load.calls.len(), case.report.order.as_slice())?;
    let ack_places = places(alloc, case.load.calls.len(), ack_numbers)?;
    match check_records(
        alloc,
        case,
        done,
        order_places.as_slice(),
        acks,
        ack_places.as_slice(),
        all.as_slice(),
    ) {
        Err(_) => Err(NoMemory),
        Ok(Some(number)) => Ok(Verdict::No {
            check: Check::Record,
            number,
        }),
        Ok(None) => by_taken(
            alloc,
            case,
            done,
            order_places.as_slice(),
            acks,
            ack_places.as_slice(),
            all.as_slice(),
        ),
    }
}

/// The check of the rows, and what follows.
fn by_rows(
    alloc: Global,
    case: &LentCase<'_>,
    all: &Executed,
    acks: &[Ack<'_>],
    ack_numbers: &[u64],
) -> Result<Verdict, NoMemory>
    requires is { IsCase (in_case case.now) }
    requires passed { Pass (in_case case.now) (before Check.Row) }
    requires done { all.now.done ≡ effects (acts (in_case case.now)) }
    requires rows { database all.now.store ≡ rows_after case.now.load.now.declarations.procs case.now.load.now.calls case.now.report.now.order }
    requires acks { acks.now ≡ case.now.report.now.acks }
    requires numbers { ack_numbers.now ≡ map (λ a. a.0) case.now.report.now.acks }
    ensures { IfOk result (IsVerdict (in_case case.now)) }
{
    let tables = all.store.tables(alloc)?;
    if !same_rows(tables.rows(), case.report.tables.rows()) {
        return Ok(Verdict::No {
            check: Check::Row,
            number: 0,
        });
    }
    by_records(alloc, case, &all.done, acks, ack_numbers)
}

/// The check of the replies, and what follows, one after another.
fn by_executing(
    alloc: Global,
    case: &LentCase<'_>,
    acks: &[Ack<'_>],
    ack_numbers: &[u64],
) -> Result<Verdict, NoMemory>
    requires is { IsCase (in_case case.now) }
    requires passed { Pass (in_case case.now) (before Check.Reply) }
    requires acks { acks.now ≡ case.now.report.now.acks }
    requires numbers { ack_numbers.now ≡ map (λ a. a.0) case.now.report.now.acks }
    ensures { IfOk result (IsVerdict (in_case case.now)) }
{
    let all = execute(
        alloc,
        &case.load.declarations.procs,
        &case.load.calls,
        case.report.order.as_slice(),
    )?;
    match check_reply(case, &all.done) {
        Some(number) => Ok(Verdict::No {
            check: Check::Reply,
            number,
        }),
        None => by_rows(alloc, case, &all, acks, ack_numbers),
    }
}

/// What follows if the fates fit. Mostly each check passes, and that is found while the order is executed.
fn by_reply(
    alloc: Global,
    case: &LentCase<'_>,
    acks: &[Ack<'_>],
    ack_numbers: &[u64],
) -> Result<Verdict, NoMemory>
    requires is { IsCase (in_case case.now) }
    requires passed { Pass (in_case case.now) (before Check.Reply) }
    requires acks { acks.now ≡ case.now.report.now.acks }
    requires numbers { ack_numbers.now ≡ map (λ a. a.0) case.now.report.now.acks }
    ensures { IfOk result (IsVerdict (in_case case.now)) }
{
    let ack_places = places(alloc, case.load.calls.len(), ack_numbers)?;
    if passes_at_once(alloc, case, acks, ack_places.as_slice())? {
        return Ok(Verdict::Yes);
    }
    by_executing(alloc, case, acks, ack_numbers)
}

/// The check of the fates, and what follows.
fn by_fate(alloc: Global, case: &LentCase<'_>) -> Result<Verdict, NoMemory>
    requires is { IsCase (in_case case.now) }
    requires passed { Pass (in_case case.now) (before Check.Fate) }
    ensures { IfOk result (IsVerdict (in_case case.now)) }
{
    let acks = acks_of(alloc, &case.report.acks)?;
    let ack_numbers = numbers_of(alloc, acks.as_slice())?;
    let acked = flags(alloc, case.load.calls.len(), ack_numbers.as_slice())?;
    let times = counts(alloc, case.load.calls.len(), case.report.order.as_slice())?;
    match check_fate(case, times.as_slice(), acked.as_slice()) {
        Some(number) => Ok(Verdict::No {
            check: Check::Fate,
            number,
        }),
        None => by_reply(alloc, case, acks.as_slice(), ack_numbers.as_slice()),
    }
}

/// Whether a report of a run of this workload by so many workers is true of a log: the first check that fails, if one does.
/// The log is one that a scan gives, and the report is one over its streams.
pub fn audit(
    alloc: Global,
    load: &Workload,
    workers: u8,
    report: &RunReport,
    log: &Log,
) -> Result<Verdict, NoMemory>
    requires { IsCase (case_of load.now workers report.now log.now) }
    ensures { IfOk result (IsVerdict (case_of load.now workers report.now log.now)) }
{
    if has_epoch(log.streams.as_slice()) {
        return Ok(Verdict::No {
            check: Check::Epoch,
            number: 0,
        });
    }
    by_fate(
        alloc,
        &LentCase {
            load,
            workers: usize::from(workers),
            report,
            log,
        },
    )
}

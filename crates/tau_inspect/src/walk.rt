//! The order, followed along the records of a log.
ghost use Rattle.std.specs.Prelude.{ℕ, ◌≡◌, ◌<◌, ◌≤◌, ◌-◌, true, length, map, All, IfOk, IfSome, IsTrue, None, is_some, slice_index, slice_index_or};
ghost use Rattle.tau_base.specs.Database.{empty_db};
ghost use Rattle.tau_proc.specs.Meaning.{meaning};
ghost use Rattle.tau_proc.specs.Progress.{buffered};
ghost use Rattle.tau_proc.specs.Takes.{takes};
ghost use Rattle.tau_model.specs.History.{updating};
ghost use Rattle.tau_model.specs.Store.{database};
ghost use Rattle.tau_inspect.specs.declared.verdict.Check.TheVariants as Check;
ghost use Rattle.tau_inspect.specs.declared.verdict.Verdict.TheVariants.{Yes};
ghost use Rattle.tau_report.specs.declared.report.Fate.TheVariants.{Unrun};
ghost use Rattle.tau_inspect.specs.Audit.{acts, before, records, reply_of, FitRows, IsVerdict, Pass};
ghost use Rattle.tau_inspect.specs.ByNumber.{HasPlaces, IsUnique};
ghost use Rattle.tau_inspect.specs.Cases.{in_case, IsCase};
ghost use Rattle.tau_inspect.specs.Executed.{rows_after, IsNumberOf};
ghost use Rattle.tau_inspect.specs.Walks.{head_of, head_passes, next_of, start_or, Goes, HasGone, IsAt, IsFor, IsLowest, IsOneOn, IsPassed, IsReach, Reads, Step, Walks};

use crate::acked::{Ack, ack_at};
use crate::by_number::index_of;
use crate::case::LentCase;
use crate::check_records::{ack_agrees, is_home};
use crate::checks::has_replied;
use crate::executed::blank_call;
use crate::records::{Record, records_of};
use crate::same::same_rows;
use std::alloc::Global;
use tau_base::{Call, Key, Lv, MAX_LSN, NoMemory, Value};
use tau_model::{RowPlaces, SerialStore};
use tau_proc::{Machine, Procs, Want};
use tau_report::KeptFate;

/// How far an order was followed along the records.
#[derive(Drop)]
struct Walk {
    /// For each stream the index of its next record.
    nexts: Vec<usize>,
    /// For each stream where that one starts, or where the stream ends.
    reach: Lv,
    /// Whether a record was passed.
    passed: bool,
    /// The stream of the last one that was.
    stream: usize,
    /// Where that one starts.
    start: u64,
    /// The last call after it that only reads, or 0.
    last: u64,
}

/// The index of the next record of a stream.
#[inline(always)]
fn next_index(walk: &Walk, stream: usize) -> usize
    requires { stream < length walk.now.nexts.items }
    ensures { result ≡ slice_index walk.now.nexts.items stream }
{
    let nexts = walk.nexts.as_slice();
    nexts[stream]
}

/// Whether there is a record at this index, in this stream.
fn is_next(all: &[Record<'_>], index: usize, stream: usize) -> bool
    ensures { result ≡ is_some (head_of all.now index stream) }
{
    if index >= all.len() {
        return false;
    }
    all[index].stream() == stream as u64
}

/// Where the record at this index starts, if it is in this stream; else the end.
fn next_start(all: &[Record<'_>], index: usize, stream: usize, end: u64) -> u64
    ensures { result ≡ start_or (head_of all.now index stream) end }
{
    if !is_next(all, index, stream) {
        return end;
    }
    all[index].start()
}

/// Whether there is a record at this index, in this stream, and it is covered.
fn is_next_covered(all: &[Record<'_>], index: usize, stream: usize, reach: &Lv) -> bool
    ensures { result ≡ head_passes reach.now (head_of all.now index stream) }
{
    if !is_next(all, index, stream) {
        return false;
    }
    reach.covers_all(all[index].dep())
}

/// The lowest stream whose next record is covered.
fn lowest_covered(walk: &Walk, all: &[Record<'_>]) -> Option<usize>
    ensures { IfSome result (IsLowest all.now walk.now) }
{
    for j in 0..walk.nexts.len() {
        if is_next_covered(all, next_index(walk, j), j, &walk.reach) {
            return Some(j);
        }
    }
    None
}

/// Whether a record holds what the call with this number wrote, or the call, stands in the stream of its worker, and has
/// the vector of its acknowledgement, if it has one.
fn is_for(
    case: &LentCase<'_>,
    acks: &[Ack<'_>],
    ack_places: &[usize],
    one: &Record<'_>,
    number: u64,
    writes: &[(Key, Value)],
) -> bool
    requires workers { 1 ≤ case.now.workers }
    requires number { IsNumberOf case.now.load.now.calls number }
    requires named { one.now.number ≡ number }
    requires acks { acks.now ≡ case.now.report.now.acks }
    requires acked_once { IsUnique (map (λ a. a.0) case.now.report.now.acks) }
    requires acks_placed { HasPlaces (length case.now.load.now.calls) (map (λ a. a.0) case.now.report.now.acks) ack_places.now }
    ensures { result ≡ true → IsFor (in_case case.now) number writes.now one.now }
{
    if !one.has_work(writes, case.load.calls.at((number - 1) as usize)) {
        return false;
    }
    if !is_home(case, one) {
        return false;
    }
    ack_agrees(case, acks, ack_places, one)
}

/// Passes the record of a call, if it is the next one, and is for it.
fn pass_writer(
    walk: &mut Walk,
    case: &LentCase<'_>,
    acks: &[Ack<'_>],
    ack_places: &[usize],
    all: &[Record<'_>],
    number: u64,
    writes: &[(Key, Value)],
) -> bool
    requires at { IsAt all.now case.now.log.now.elv walk.old }
    requires workers { 1 ≤ case.now.workers }
    requires number { IsNumberOf case.now.load.now.calls number }
    requires acks { acks.now ≡ case.now.report.now.acks }
    requires acked_once { IsUnique (map (λ a. a.0) case.now.report.now.acks) }
    requires acks_placed { HasPlaces (length case.now.load.now.calls) (map (λ a. a.0) case.now.report.now.acks) ack_places.now }
    ensures { result ≡ true → Goes all.now case.now.log.now.elv (IsFor (in_case case.now) number writes.now) number walk.old walk.new }
{
    let Some(j) = lowest_covered(walk, all) else {
        return false;
    };
    let index = next_index(walk, j);
    let one = &all[index];
    if one.number() != number {
        return false;
    }
    if !is_for(case, acks, ack_places, one, number, writes) {
        return false;
    }
    let next = next_start(all, index + 1, j, case.log.elv.get(j));
    if next < one.start() || next >= MAX_LSN {
        return false;
    }
    walk.nexts[j] = index + 1;
    walk.reach.set(j, next);
    walk.passed = true;
    walk.stream = j;
    walk.start = one.start();
    walk.last = 0;
    true
}

/// Passes a call that only reads, if it comes next.
fn pass_reader(walk: &mut Walk, dep: &[u64], number: u64) -> bool
    ensures { result ≡ true → Reads dep.now number walk.old walk.new }
{
    if number <= walk.last {
        return false;
    }
    if !walk.reach.covers_all(dep) {
        return false;
    }
    if walk.passed && !is_above(dep, walk.stream, walk.start) {
        return false;
    }
    walk.last = number;
    true
}

/// Whether the position in the stream is above this one.
fn is_above(dep: &[u64], stream: usize, start: u64) -> bool
    ensures { result ≡ true → start < slice_index dep.now stream }
{
    match dep.get(stream) {
        Some(position) => *position > start,
        None => false,
    }
}

/// Passes a call with these writes, if it comes next.
fn pass_call(
    walk: &mut Walk,
    case: &LentCase<'_>,
    acks: &[Ack<'_>],
    ack_places: &[usize],
    all: &[Record<'_>],
    number: u64,
    writes: &[(Key, Value)],
) -> bool
    requires at { IsAt all.now case.now.log.now.elv walk.old }
    requires workers { 1 ≤ case.now.workers }
    requires number { IsNumberOf case.now.load.now.calls number }
    requires acks { acks.now ≡ case.now.report.now.acks }
    requires acked_once { IsUnique (map (λ a. a.0) case.now.report.now.acks) }
    requires acks_placed { HasPlaces (length case.now.load.now.calls) (map (λ a. a.0) case.now.report.now.acks) ack_places.now }
    ensures { result ≡ true → Step all.now acks.now case.now.log.now.elv (IsFor (in_case case.now) number writes.now) (updating writes.now) number walk.old walk.new }
{
    if writes.len() > 0 {
        return pass_writer(walk, case, acks, ack_places, all, number, writes);
    }
    match index_of(ack_places, number) {
        None => false,
        Some(index) => pass_reader(walk, ack_at(acks, index).lv(), number),
    }
}

/// For each of so many streams the index of its first record.
fn first_indices(alloc: Global, all: &[Record<'_>], width: usize) -> Result<Vec<usize>, NoMemory>
    ensures { IfOk result (λ nexts. length nexts.items ≡ width) }
{
    let mut nexts = vec![in alloc; all.len(); width]?;
    for k in 0..all.len() {
        let i = all.len() - 1 - k;
        let stream = all[i].stream() as usize;
        if stream < nexts.len() {
            nexts[stream] = i;
        }
    }
    Ok(nexts)
}

/// Where the first records start; none if a start cannot be one.
fn first_starts(all: &[Record<'_>], nexts: &[usize], ends: &Lv) -> Option<Lv>
    requires { length nexts.now ≡ length ends.now }
    ensures { IfSome result (λ reach. IsReach all.now ends.now nexts.now reach) }
{
    let mut reach = *ends;
    for j in 0..ends.width() {
        let start = next_start(all, nexts[j], j, ends.get(j));
        if start >= MAX_LSN {
            return None;
        }
        reach.set(j, start);
    }
    Some(reach)
}

/// A walk that has passed nothing.
fn at_start(alloc: Global, all: &[Record<'_>], ends: &Lv) -> Result<Option<Walk>, NoMemory>
    ensures { IfOk result (λ walk. IfSome walk (IsAt all.now ends.now)) }
{
    let nexts = first_indices(alloc, all, ends.width())?;
    match first_starts(all, nexts.as_slice(), ends) {
        None => Ok(None),
        Some(reach) => Ok(Some(Walk {
            nexts,
            reach,
            passed: false,
            stream: 0,
            start: 0,
            last: 0,
        })),
    }
}

/// Whether no stream has a next record.
fn is_at_end(walk: &Walk, all: &[Record<'_>]) -> bool
    ensures { result ≡ true → (k : ℕ) → k < length walk.now.nexts.items → next_of all.now walk.now k ≡ None }
{
    for j in 0..walk.nexts.len() {
        if is_next(all, next_index(walk, j), j) {
            return false;
        }
    }
    true
}

/// Whether the walk came from the first records to the ends of their streams, and so passed each of so many records.
fn is_whole_way(first: &[usize], last: &[usize], count: usize) -> bool
    requires { length last.now ≡ length first.now }
    ensures { result ≡ true → IsPassed count (length first.now) first.now last.now }
{
    if first.len() == 0 {
        return false;
    }
    if first[0] != 0 {
        return false;
    }
    let end = first.len() - 1;
    for k in 0..end {
        if last[k] != first[k + 1] {
            return false;
        }
    }
    last[end] == count
}

/// What executing the order needs.
#[derive(Drop)]
struct Run {
    store: SerialStore,
    machine: Machine,
    places: RowPlaces,
    call: Call,
}

/// Goes through the call with this number on the rows of a store, which stay. Whether it replies as these fates tell; what
/// it writes is buffered.
fn goes_as_told(
    procs: &Procs,
    call: &Call,
    store: &SerialStore,
    machine: &mut Machine,
    places: &mut RowPlaces,
    fates: &[KeptFate],
    number: u64,
) -> bool
    requires { IsTrue (takes procs.now call.now) }
    ensures { HasGone (reply_of (slice_index_or fates.now (number - 1) Unrun)) (meaning procs.now call.now (database store.now)) (buffered machine.new) result }
{
    machine.restart(procs, call);
    let mut value = Value::Absent;
    'wants: loop {
        match machine.next() {
            Want::Read(key) => {
                store.read_noted(key, places, &mut value);
                machine.give_lent(&value);
            }
            Want::Write(_) => machine.granted(),
            Want::Finished(reply) => return has_replied(fates, number, &reply),
        }
    }
}

/// Executes the call with this number, and passes it, if it replies as it is told and comes next.
fn pass_one(
    walk: &mut Walk,
    run: &mut Run,
    case: &LentCase<'_>,
    acks: &[Ack<'_>],
    ack_places: &[usize],
    all: &[Record<'_>],
    number: u64,
) -> Result<bool, NoMemory>
    requires at { IsAt all.now case.now.log.now.elv walk.old }
    requires workers { 1 ≤ case.now.workers }
    requires number { IsNumberOf case.now.load.now.calls number }
    requires taken { All (λ c. IsTrue (takes case.now.load.now.declarations.procs c)) case.now.load.now.calls }
    requires acks { acks.now ≡ case.now.report.now.acks }
    requires acked_once { IsUnique (map (λ a. a.0) case.now.report.now.acks) }
    requires acks_placed { HasPlaces (length case.now.load.now.calls) (map (λ a. a.0) case.now.report.now.acks) ack_places.now }
    ensures { IfOk result (λ passed. passed ≡ true → IsOneOn (in_case case.now) all.now acks.now number walk.old walk.new (database run.old.store) (database run.new.store)) }
{
    case.load
        .calls
        .put_into((number - 1) as usize, &mut run.call);
    if !goes_as_told(
        &case.load.declarations.procs,
        &run.call,
        &run.store,
        &mut run.machine,
        &mut run.places,
        case.report.fates.as_slice(),
        number,
    ) {
        return Ok(false);
    }
    if !pass_call(
        walk,
        case,
        acks,
        ack_places,
        all,
        number,
        run.machine.writes(),
    ) {
        return Ok(false);
    }
    run.store.write_near(run.machine.writes(), &mut run.places)?;
    Ok(true)
}

/// Executes the order on no rows, and passes each of its calls, as long as each replies as it is told and comes next.
/// Whether all were passed and no record is left.
fn pass_all(
    walk: &mut Walk,
    run: &mut Run,
    case: &LentCase<'_>,
    acks: &[Ack<'_>],
    ack_places: &[usize],
    all: &[Record<'_>],
) -> Result<bool, NoMemory>
    requires at { IsAt all.now case.now.log.now.elv walk.old }
    requires is { IsCase (in_case case.now) }
    requires acks { acks.now ≡ case.now.report.now.acks }
    requires acks_placed { HasPlaces (length case.now.load.now.calls) (map (λ a. a.0) case.now.report.now.acks) ack_places.now }
    requires all { all.now ≡ records (in_case case.now) }
    requires rows { database run.old.store ≡ empty_db }
    ensures { IfOk result (λ passed. passed ≡ true → IsAt all.now case.now.log.now.elv walk.new × Walks (in_case case.now) walk.old (acts (in_case case.now)) walk.new × (database run.new.store ≡ rows_after case.now.load.now.declarations.procs case.now.load.now.calls case.now.report.now.order)) }
{
    for i in 0..case.report.order.len() {
        let number = case.report.order[i];
        if !pass_one(walk, run, case, acks, ack_places, all, number)? {
            return Ok(false);
        }
    }
    Ok(is_at_end(walk, all))
}

/// The rows that the order leaves, if each of its calls was passed and no record is left.
fn run_along(
    alloc: Global,
    walk: &mut Walk,
    case: &LentCase<'_>,
    acks: &[Ack<'_>],
    ack_places: &[usize],
    all: &[Record<'_>],
) -> Result<Option<SerialStore>, NoMemory>
    requires at { IsAt all.now case.now.log.now.elv walk.old }
    requires is { IsCase (in_case case.now) }
    requires acks { acks.now ≡ case.now.report.now.acks }
    requires acks_placed { HasPlaces (length case.now.load.now.calls) (map (λ a. a.0) case.now.report.now.acks) ack_places.now }
    requires all { all.now ≡ records (in_case case.now) }
    ensures { IfOk result (λ rows. IfSome rows (λ store. IsAt all.now case.now.log.now.elv walk.new × Walks (in_case case.now) walk.old (acts (in_case case.now)) walk.new × (database store ≡ rows_after case.now.load.now.declarations.procs case.now.load.now.calls case.now.report.now.order))) }
{
    let mut run = Run {
        store: SerialStore::new(alloc),
        machine: Machine::new(),
        places: RowPlaces::new(alloc),
        call: blank_call(),
    };
    if !pass_all(walk, &mut run, case, acks, ack_places, all)? {
        return Ok(None);
    }
    Ok(Some(run.store))
}

/// Whether the rows of the store are those of the report.
fn has_rows(alloc: Global, case: &LentCase<'_>, store: &SerialStore) -> Result<bool, NoMemory>
    requires { database store.now ≡ rows_after case.now.load.now.declarations.procs case.now.load.now.calls case.now.report.now.order }
    ensures { IfOk result (λ same. same ≡ true → FitRows (in_case case.now)) }
{
    let tables = store.tables(alloc)?;
    Ok(same_rows(tables.rows(), case.report.tables.rows()))
}

/// The same numbers.
fn copy_of(alloc: Global, numbers: &[usize]) -> Result<Vec<usize>, NoMemory>
    ensures { IfOk result (λ copy. copy.items ≡ numbers.now) }
{
    let copy = Vec::from_slice(alloc, numbers)?;
    Ok(copy)
}

/// How many of the last acknowledgements are looked at before the order is executed.
const LAST_ACKS: usize = 64;

/// Whether the log ends before one of the last acknowledgements.
fn ends_early(ends: &Lv, acks: &[Ack<'_>]) -> bool {
    for i in acks.len().saturating_sub(LAST_ACKS)..acks.len() {
        if !ends.covers_all(acks[i].lv()) {
            return true;
        }
    }
    false
}

/// Whether there are fewer acknowledgements and records of other calls than the order has calls.
fn is_one_without(order: usize, acks: usize, ack_places: &[usize], all: &[Record<'_>]) -> bool {
    let unsure = order.saturating_sub(acks);
    if unsure == 0 {
        return false;
    }
    let mut recorded: usize = 0;
    for i in 0..all.len() {
        if index_of(ack_places, all[i].number()).is_none() {
            recorded = recorded.saturating_add(1);
        }
    }
    recorded < unsure
}

/// Whether it is seen at once that the log was cut. The order would be executed in vain.
fn is_cut(case: &LentCase<'_>, acks: &[Ack<'_>], ack_places: &[usize], all: &[Record<'_>]) -> bool {
    if ends_early(&case.log.elv, acks) {
        return true;
    }
    is_one_without(case.report.order.len(), acks.len(), ack_places, all)
}

/// Whether each check was found to pass while the order was executed along the records, from a walk that has passed nothing.
fn passes_from(
    alloc: Global,
    walk: &mut Walk,
    case: &LentCase<'_>,
    acks: &[Ack<'_>],
    ack_places: &[usize],
    all: &[Record<'_>],
) -> Result<bool, NoMemory>
    requires at { IsAt all.now case.now.log.now.elv walk.old }
    requires is { IsCase (in_case case.now) }
    requires acks { acks.now ≡ case.now.report.now.acks }
    requires acks_placed { HasPlaces (length case.now.load.now.calls) (map (λ a. a.0) case.now.report.now.acks) ack_places.now }
    requires all { all.now ≡ records (in_case case.now) }
    requires passed { Pass (in_case case.now) (before Check.Reply) }
    ensures { IfOk result (λ found. found ≡ true → IsVerdict (in_case case.now) Yes) }
{
    let first = copy_of(alloc, walk.nexts.as_slice())?;
    let Some(store) = run_along(alloc, walk, case, acks, ack_places, all)? else {
        return Ok(false);
    };
    if !is_whole_way(first.as_slice(), walk.nexts.as_slice(), all.len()) {
        return Ok(false);
    }
    has_rows(alloc, case, &store)
}

/// Whether each check was found to pass while the order was executed along the records. All may pass even if that was not
/// found.
pub fn passes_at_once(
    alloc: Global,
    case: &LentCase<'_>,
    acks: &[Ack<'_>],
    ack_places: &[usize],
) -> Result<bool, NoMemory>
    requires is { IsCase (in_case case.now) }
    requires passed { Pass (in_case case.now) (before Check.Reply) }
    requires acks { acks.now ≡ case.now.report.now.acks }
    requires acks_placed { HasPlaces (length case.now.load.now.calls) (map (λ a. a.0) case.now.report.now.acks) ack_places.now }
    ensures { IfOk result (λ found. found ≡ true → IsVerdict (in_case case.now) Yes) }
{
    let records = records_of(alloc, case.log.streams.as_slice(), case.report.order.len())?;
    let all = records.as_slice();
    if is_cut(case, acks, ack_places, all) {
        return Ok(false);
    }
    match at_start(alloc, all, &case.log.elv)? {
        None => Ok(false),
        Some(begun) => {
            let mut walk = begun;
            passes_from(alloc, &mut walk, case, acks, ack_places, all)
        }
    }
}

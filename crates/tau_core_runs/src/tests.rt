//! Runs of the core, event by event: what is done with one, and what is then so.
ghost use Rattle.std.specs.Prelude.{◌≡◌, ◌<◌, ◌≤◌, IfOk, IsTrue};
ghost use Rattle.tau_base.specs.Modes.{format_of, most_streams};
ghost use Rattle.tau_base.specs.declared.limits.TheConstants.{MAX_WORKERS};
ghost use Rattle.tau_core.specs.State.{Plain};
ghost use Rattle.tau_core.specs.Stands.{Stood};
ghost use Rattle.tau_core.specs.Steps.{IsThere};

use arrayvec::ArrayVec;
use std::alloc::Global;
use std::marker::Model;
use std::process::Abort;
use std::test::Fail;
use tau_ack::Waiting;
use tau_base::{Key, LogMode, Lv, MAX_CATALOGUE, Mode, SHARDS, Value, format_of, most_streams};
use tau_core::{Acted, Core, Event, Gathering, Opening, Outcome, Phase};
use tau_model::{Spot, Tables};
use tau_text::{parse_workload, print_declarations};

/// What an event answered, in plain numbers: a row is a number or absent, a vector has zeros beyond its end.
#[derive(Clone, Copy, Debug, PartialEq, Eq)]
pub(crate) enum Said {
    Went,
    Granted(Option<i64>),
    Busy(u8),
    Placed(u64),
    Gathered(u64),
    Acked(u64, [u64; 3]),
    NothingCovered,
    NotNow(Phase),
    NoMemory,
}

/// What the call of one event told, in plain numbers.
#[derive(Clone, Copy, Debug, PartialEq, Eq)]
pub(crate) enum Told {
    Acted(Acted),
    Gathered(Gathering),
    Reached(Option<Phase>),
    Acked(u64, [u64; 3]),
    NothingCovered,
}

/// The first positions of a vector.
fn positions(lv: &Lv) -> [u64; 3] {
    [lv.position(0), lv.position(1), lv.position(2)]
}

/// The number of a value, if it is one.
fn number_of(value: &Value) -> Option<i64> {
    match value {
        Value::Int(n) => Some(*n),
        _ => None,
    }
}

fn plain_of(outcome: &Outcome) -> Said {
    match outcome {
        Outcome::Went => Said::Went,
        Outcome::Granted(value) => Said::Granted(number_of(value)),
        Outcome::Busy { holder } => Said::Busy(*holder),
        Outcome::Placed { start } => Said::Placed(*start),
        Outcome::Gathered { upto } => Said::Gathered(*upto),
        Outcome::Acked { number, lv } => Said::Acked(*number, positions(lv)),
        Outcome::NothingCovered => Said::NothingCovered,
        Outcome::NotNow { phase } => Said::NotNow(*phase),
        Outcome::NoMemory => Said::NoMemory,
    }
}

/// Whether the event is one of so many workers and streams.
fn is_of(event: Event, workers: u8, streams: u8) -> bool
    ensures { (p : Plain) → IsTrue result → p.load.workers ≡ workers → p.load.streams ≡ streams → IsThere p event }
{
    match event {
        Event::Lock { worker } => worker < workers,
        Event::Quit { worker } => worker < workers,
        Event::Commit { worker } => worker < workers,
        Event::Post { worker } => worker < workers,
        Event::Free { worker } => worker < workers,
        Event::Done { worker } => worker < workers,
        Event::Drop { shard } => usize::from(shard) < SHARDS,
        Event::Gather { stream } => stream < streams,
        Event::Anchor { stream } => stream < streams,
        Event::Persist { stream, .. } => stream < streams,
        Event::Ack { worker } => worker < workers,
        Event::Stop { stream, .. } => stream < streams,
    }
}

/// What an event of the core returns; none of one that is not there.
fn acts(core: &mut Core, workers: u8, streams: u8, event: Event) -> Option<Said>
    requires workers { core.old.load.workers ≡ workers }
    requires streams { core.old.load.streams ≡ streams }
    requires stood { Stood core.old }
    ensures load { core.new.load ≡ core.old.load }
    ensures stood { Stood core.new }
{
    if !is_of(event, workers, streams) {
        return None;
    }
    let outcome = core.step(event);
    Some(plain_of(&outcome))
}

/// Why a position was not reached, if it was not.
fn reached(said: Result<(), Phase>) -> Told {
    match said {
        Ok(()) => Told::Reached(None),
        Err(phase) => Told::Reached(Some(phase)),
    }
}

/// The call that is acknowledged, if one is.
fn acked(core: &mut Core, worker: u8) -> Told
    requires there { worker < core.old.load.workers }
    requires stood { Stood core.old }
    ensures load { core.new.load ≡ core.old.load }
    ensures stood { Stood core.new }
{
    let mut call = Waiting {
        number: 0,
        lv: Lv::zero(1),
    };
    if core.ack(worker, &mut call) {
        return Told::Acked(call.number, positions(&call.lv));
    }
    Told::NothingCovered
}

/// What the call of one event tells; none of an event that is not there, or that has no call of its own.
fn tells(core: &mut Core, workers: u8, streams: u8, event: Event) -> Option<Told>
    requires workers { core.old.load.workers ≡ workers }
    requires streams { core.old.load.streams ≡ streams }
    requires stood { Stood core.old }
    ensures load { core.new.load ≡ core.old.load }
    ensures stood { Stood core.new }
{
    if !is_of(event, workers, streams) {
        return None;
    }
    match event {
        Event::Lock { worker } => Some(Told::Acted(core.lock(worker))),
        Event::Quit { worker } => Some(Told::Acted(core.quit(worker))),
        Event::Commit { worker } => Some(Told::Acted(core.commit(worker))),
        Event::Post { worker } => Some(Told::Acted(core.post(worker))),
        Event::Free { worker } => Some(Told::Acted(core.free(worker))),
        Event::Done { worker } => Some(Told::Acted(core.done(worker))),
        Event::Gather { stream } => Some(Told::Gathered(core.gather(stream))),
        Event::Persist { stream, upto } => Some(reached(core.persist(stream, upto))),
        Event::Ack { worker } => Some(acked(core, worker)),
        Event::Stop { stream, at } => Some(reached(core.stop(stream, at))),
        Event::Drop { .. } => None,
        Event::Anchor { .. } => None,
    }
}

/// The core of a run of this text, in which nothing has happened.
fn core_of(alloc: Global, text: &[u8], n: u8, m: u8, mode: LogMode) -> Result<Core, Fail>
    requires n_low { 1 ≤ n }
    requires n_high { n ≤ most_streams (format_of mode) }
    requires m_low { 1 ≤ m }
    requires m_high { m ≤ MAX_WORKERS }
    ensures workers { IfOk result (λ core. core.load.workers ≡ m) }
    ensures streams { IfOk result (λ core. core.load.streams ≡ n) }
    ensures stood { IfOk result Stood }
{
    let Ok(load) = parse_workload(alloc, text) else {
        return Err(Fail::new("the text is no workload"));
    };
    let Ok(printed) = print_declarations(alloc, &load.declarations) else {
        return Err(Fail::new("no memory"));
    };
    if printed.len() > MAX_CATALOGUE {
        return Err(Fail::new("the declarations are too long"));
    }
    match Core::new(alloc, &load, n, m, mode) {
        Ok(core) => Ok(core),
        Err(_) => Err(Fail::new("no memory")),
    }
}

/// The bytes of stream 0.
fn body_of(core: &mut Core) -> Vec<u8>
    requires streams { 1 ≤ core.old.load.streams }
    requires stood { Stood core.old }
    ensures load { core.new.load ≡ core.old.load }
    ensures stood { Stood core.new }
{
    core.take_body(0)
}

/// The bytes of stream 0, of two, put in the place of those of stream 1.
fn body_instead(core: &mut Core) -> Vec<u8>
    requires streams { core.old.load.streams ≡ 2 }
    requires stood { Stood core.old }
    ensures load { core.new.load ≡ core.old.load }
    ensures stood { Stood core.new }
{
    let mut bytes = core.take_body(1);
    core.swap_body(0, &mut bytes);
    bytes
}

/// The worker to which a call that was left over went back.
fn resumed(core: &mut Core) -> Option<u8>
    requires { Stood core.old }
    ensures load { core.new.load ≡ core.old.load }
    ensures stood { Stood core.new }
{
    core.resume()
}

/// What a retry of worker 0 tells: the lock that it wants is not taken.
fn retried(core: &mut Core) -> Said
    requires workers { 1 ≤ core.old.load.workers }
    requires stood { Stood core.old }
    ensures load { core.new.load ≡ core.old.load }
    ensures stood { Stood core.new }
{
    let outcome = core.retry(0);
    plain_of(&outcome)
}

/// The lock that worker 0 takes next: the number of its call, the row, and whether it is for writing.
fn lock_asked(core: &Core) -> Option<(u64, i64, bool)>
    requires { 1 ≤ core.now.load.workers }
{
    let (number, key, mode) = core.next_lock(0)?;
    Some((number, key.row, mode == Mode::Write))
}

/// A core of one worker and two streams that begins with a row of 5, a floor, ends, and two anchors in stream 0.
fn opened(alloc: Global, text: &[u8]) -> Result<Core, Fail>
    ensures workers { IfOk result (λ core. core.load.workers ≡ 1) }
    ensures streams { IfOk result (λ core. core.load.streams ≡ 2) }
    ensures stood { IfOk result Stood }
{
    let Ok(load) = parse_workload(alloc, text) else {
        return Err(Fail::new("the text is no workload"));
    };
    let mut rows = Vec::new(alloc);
    rows.push((Key { table: 0, row: 1 }, Value::Int(5)))?;
    let mut anchors = ArrayVec::new();
    anchors.push(2);
    anchors.push(0);
    let opening = Opening {
        rows: Tables::of(rows),
        floor: Lv::zero(2).with(0, 20).with(1, 30),
        ends: Lv::zero(2).with(0, 40).with(1, 50),
        anchors,
    };
    match Core::open(alloc, &load, opening, 1, LogMode::Values) {
        Ok(core) => Ok(core),
        Err(_) => Err(Fail::new("no memory")),
    }
}

/// A core with how many workers and streams it is of.
#[derive(Drop)]
struct Run {
    core: Core,
    workers: u8,
    streams: u8,
}

impl Model for Run {
    ghost use Rattle.std.specs.Prelude.{◌≡◌, ℕ};
    ghost use Rattle.tau_core.specs.Stands.{Stood};

    ghost Value = { ℕ };

    ghost view = { λ r. r.workers };

    ghost invariant = { λ r. Stood r.core × (r.core.load.workers ≡ r.workers) × (r.core.load.streams ≡ r.streams) };
}

impl Run {
    /// A run of this text, in which nothing has happened.
    fn new(
        rt: &impl Abort,
        alloc: Global,
        text: &[u8],
        n: u8,
        m: u8,
        mode: LogMode,
    ) -> Result<Run, Fail> {
        assert!(rt; 1 <= n);
        assert!(rt; usize::from(n) <= most_streams(format_of(mode)));
        assert!(rt; 1 <= m);
        assert!(rt; m <= 32);
        let core = core_of(alloc, text, n, m, mode)?;
        Ok(Run {
            core,
            workers: m,
            streams: n,
        })
    }

    /// A run of one worker and two streams that goes on from an opening.
    fn opened(alloc: Global, text: &[u8]) -> Result<Run, Fail> {
        let core = opened(alloc, text)?;
        Ok(Run {
            core,
            workers: 1,
            streams: 2,
        })
    }

    /// What an event returns; none of one that is not there.
    fn acts(&mut self, event: Event) -> Option<Said> {
        acts(&mut self.core, self.workers, self.streams, event)
    }

    /// What the call of one event tells.
    fn tells(&mut self, event: Event) -> Option<Told> {
        tells(&mut self.core, self.workers, self.streams, event)
    }

    /// What a retry of worker 0 tells.
    fn retried(&mut self, rt: &impl Abort) -> Said {
        assert!(rt; 1 <= self.workers);
        retried(&mut self.core)
    }

    /// The lock that worker 0 takes next.
    fn lock_asked(&self, rt: &impl Abort) -> Option<(u64, i64, bool)> {
        assert!(rt; 1 <= self.workers);
        lock_asked(&self.core)
    }

    /// The worker to which a call that was left over went back.
    fn resumed(&mut self) -> Option<u8> {
        resumed(&mut self.core)
    }

    /// The bytes of stream 0.
    fn body_of(&mut self, rt: &impl Abort) -> Vec<u8> {
        assert!(rt; 1 <= self.streams);
        body_of(&mut self.core)
    }

    /// The same, in the place of those of stream 1.
    fn body_instead(&mut self, rt: &impl Abort) -> Vec<u8> {
        assert!(rt; self.streams == 2);
        body_instead(&mut self.core)
    }
}

/// The text of a run.
#[derive(Clone, Copy)]
pub(crate) enum Text {
    Of(&'static str),
    /// So many calls that write one row.
    Puts(u16),
}

/// How a run begins.
#[derive(Clone, Copy)]
pub(crate) enum Start {
    /// With nothing, in this mode, on so many streams, with so many workers.
    New(LogMode, u8, u8),
    /// With the opening.
    Opened,
}

/// A run: in words what it shows, its text, how it begins, and what it goes through.
pub(crate) type Play = (&'static str, Text, Start, &'static [Row]);

/// What is done with a run, and what is then so.
#[derive(Clone, Copy)]
pub(crate) enum Row {
    /// These events return so.
    Does(&'static [(Event, Said)]),
    /// The calls of these events tell so.
    Tells(&'static [(Event, Told)]),
    /// The event returns so, so many times.
    DoesAlways(u16, Event, Said),
    /// A put of worker 0 is persisted, and its entry is removed.
    Removes,
    /// A call that was left over goes back to this worker.
    Resumes(Option<u8>),
    /// The call in hand of this worker, which has its locks, goes on to its end.
    Finishes(u8),
    /// So many calls of the worker find the row as it was written and run to their ends.
    Runs(u8, u16),
    /// Calls that were left over go back to workers 1 and 2 in turn, so many times, and run to their ends.
    GoBack(u16),
    /// What is kept of the committed call of this place: its number, its dep and its vector.
    Keeps(usize, u64, [u64; 3], [u64; 3]),
    /// The position in this stream of its dep and of its vector.
    Reaches(usize, usize, (u64, u64)),
    /// The number of the committed call of this place.
    Numbers(usize, u64),
    /// Where its record stands.
    Stands(usize, Option<Spot>),
    /// How many calls are committed.
    Commits(usize),
    /// The number of the row of the first table.
    Finds(i64, Option<i64>),
    /// The shard's floor.
    Floor(u8, [u64; 3]),
    /// The streams' ends.
    Ends([u64; 3]),
    /// The bytes that are handed out of stream 0, as hexadecimal digits.
    Hands(&'static str),
    /// The same, in the place of those of stream 1.
    HandsInstead(&'static str),
    /// The lock that worker 0 takes next: the number of its call, the row, and whether it is for writing.
    Asks(Option<(u64, i64, bool)>),
    /// What a retry of worker 0 tells.
    Retries(Said),
    /// What is persisted.
    Persisted([u64; 3]),
}

/// A text of so many calls that write one row.
fn puts(alloc: Global, calls: u16) -> Result<Vec<u8>, Fail> {
    let mut text = Vec::new(alloc);
    text.extend_from_slice(b"table a\n")?;
    for _call in 0..calls {
        text.extend_from_slice(b"put a 1 5\n")?;
    }
    Ok(text)
}

/// The text of a run.
fn text_of(alloc: Global, text: &Text) -> Result<Vec<u8>, Fail> {
    match text {
        Text::Of(text) => Ok(Vec::from_slice(alloc, text.as_bytes())?),
        Text::Puts(calls) => puts(alloc, *calls),
    }
}

/// The number of the row of the first table.
fn number_at(core: &Core, row: i64) -> Option<i64> {
    number_of(&core.value(Key { table: 0, row }))
}

/// What is kept of the i-th committed call: its number, its dep and its vector.
fn kept(core: &Core, i: usize) -> (u64, [u64; 3], [u64; 3]) {
    let list = core.committed();
    if i >= list.len() {
        return (0, [0; 3], [0; 3]);
    }
    let call = list.at(i);
    let vector = [call.position(0), call.position(1), call.position(2)];
    (call.number(), parts(call.dep()), vector)
}

/// The position in this stream of the dep and of the vector of the i-th committed call.
fn positions_at(core: &Core, i: usize, stream: usize) -> (u64, u64) {
    let list = core.committed();
    if i >= list.len() {
        return (0, 0);
    }
    let call = list.at(i);
    (part(call.dep(), stream), call.position(stream))
}

/// The first three of these positions, 0 beyond the end.
fn parts(positions: &[u64]) -> [u64; 3] {
    [part(positions, 0), part(positions, 1), part(positions, 2)]
}

fn part(positions: &[u64], j: usize) -> u64 {
    match positions.get(j) {
        Some(lsn) => *lsn,
        None => 0,
    }
}

/// Where the record of the i-th committed call stands.
fn spot(core: &Core, i: usize) -> Option<Spot> {
    let list = core.committed();
    if i >= list.len() {
        return None;
    }
    list.at(i).spot()
}

/// These events return so.
fn does(rt: &impl Abort, run: &mut Run, name: &str, rows: &[(Event, Said)]) {
    for row in rows {
        let said = run.acts(row.0);
        assert!(rt; said == Some(row.1), "{name}: {said:?}");
    }
}

/// The calls of these events tell so.
fn all_tell(rt: &impl Abort, run: &mut Run, name: &str, rows: &[(Event, Told)]) {
    for row in rows {
        let told = run.tells(row.0);
        assert!(rt; told == Some(row.1), "{name}: {told:?}");
    }
}

/// The event returns so, so many times.
fn does_always(rt: &impl Abort, run: &mut Run, name: &str, times: u16, row: (Event, Said)) {
    for _time in 0..times {
        does(rt, run, name, &[row]);
    }
}

/// The call in hand, which has its locks, goes on to its end.
fn finishes(rt: &impl Abort, run: &mut Run, name: &str, worker: u8) {
    let Some(Said::Placed(_)) = run.acts(Event::Commit { worker }) else {
        assert!(rt; false, "{name}");
        return;
    };
    let rows = [
        (Event::Post { worker }, Said::Went),
        (Event::Free { worker }, Said::Went),
        (Event::Done { worker }, Said::Went),
    ];
    does(rt, run, name, &rows);
}

/// So many calls of the worker find the row as it was written and run to their ends.
fn all_run(rt: &impl Abort, run: &mut Run, name: &str, worker: u8, calls: u16) {
    for _call in 0..calls {
        does(
            rt,
            run,
            name,
            &[(Event::Lock { worker }, Said::Granted(Some(5)))],
        );
        finishes(rt, run, name, worker);
    }
}

/// A put of worker 0 is persisted, and its entry is removed.
fn removes(rt: &impl Abort, run: &mut Run, name: &str) {
    let rows = [
        (Event::Lock { worker: 0 }, Said::Granted(None)),
        (Event::Commit { worker: 0 }, Said::Placed(13)),
        (Event::Post { worker: 0 }, Said::Went),
        (Event::Free { worker: 0 }, Said::Went),
        (Event::Done { worker: 0 }, Said::Went),
        (Event::Gather { stream: 0 }, Said::Gathered(53)),
        (
            Event::Persist {
                stream: 0,
                upto: 53,
            },
            Said::Went,
        ),
        (Event::Drop { shard: 1 }, Said::Went),
    ];
    does(rt, run, name, &rows);
}

/// A call that was left over goes back to this worker.
fn resumes(rt: &impl Abort, run: &mut Run, name: &str, worker: Option<u8>) {
    assert!(rt; run.resumed() == worker, "{name}");
}

/// Calls that were left over go back to workers 1 and 2 in turn, so many times, and run to their ends.
fn all_go_back(rt: &impl Abort, run: &mut Run, name: &str, times: u16) {
    for _time in 0..times {
        resumes(rt, run, name, Some(1));
        all_run(rt, run, name, 1, 1);
        resumes(rt, run, name, Some(2));
        all_run(rt, run, name, 2, 1);
    }
}

/// Whether bytes are those of these hexadecimal digits, between which there may be spaces.
fn are_spelled(bytes: &[u8], digits: &str) -> bool {
    let mut at = 0usize;
    let mut high: Option<u8> = None;
    for c in digits.chars() {
        if let Some(digit) = c.to_digit(16) {
            let low = digit as u8;
            match high {
                None => high = Some(low),
                Some(first) => {
                    if bytes.get(at) != Some(&((first << 4) | low)) {
                        return false;
                    }
                    at = at.wrapping_add(1);
                    high = None;
                }
            }
        }
    }
    at == bytes.len()
}

/// The bytes that are handed out of stream 0.
fn hands(rt: &impl Abort, run: &mut Run, name: &str, digits: &str) {
    assert!(rt; are_spelled(run.body_of(rt).as_slice(), digits), "{name}");
}

/// The same, in the place of those of stream 1.
fn hands_instead(rt: &impl Abort, run: &mut Run, name: &str, digits: &str) {
    assert!(rt;
        are_spelled(run.body_instead(rt).as_slice(), digits),
        "{name}"
    );
}

/// What a retry of worker 0 tells.
fn retries(rt: &impl Abort, run: &mut Run, name: &str, said: Said) {
    assert!(rt; run.retried(rt) == said, "{name}");
}

/// The lock that worker 0 takes next.
fn asks(rt: &impl Abort, run: &Run, name: &str, lock: Option<(u64, i64, bool)>) {
    assert!(rt; run.lock_asked(rt) == lock, "{name}");
}

/// The shard's floor.
fn floor(rt: &impl Abort, core: &Core, shard: u8) -> [u64; 3] {
    assert!(rt; shard < 64);
    positions(&core.floor(shard))
}

/// Whether the core is as the row says. Only rows that change nothing come here.
fn is_so(rt: &impl Abort, core: &Core, look: Row) -> bool {
    match look {
        Row::Keeps(i, number, dep, lv) => kept(core, i) == (number, dep, lv),
        Row::Reaches(i, stream, both) => positions_at(core, i, stream) == both,
        Row::Numbers(i, number) => kept(core, i).0 == number,
        Row::Stands(i, want) => spot(core, i) == want,
        Row::Commits(calls) => core.committed().len() == calls,
        Row::Finds(at, number) => number_at(core, at) == number,
        Row::Floor(shard, lv) => floor(rt, core, shard) == lv,
        Row::Ends(lv) => positions(&core.ends()) == lv,
        Row::Persisted(lv) => positions(&core.plv()) == lv,
        _ => false,
    }
}

/// Does what the row says, and sees that it is so.
fn play(rt: &impl Abort, run: &mut Run, name: &str, row: Row) {
    match row {
        Row::Does(rows) => does(rt, run, name, rows),
        Row::Tells(rows) => all_tell(rt, run, name, rows),
        Row::DoesAlways(times, event, said) => does_always(rt, run, name, times, (event, said)),
        Row::Removes => removes(rt, run, name),
        Row::Resumes(worker) => resumes(rt, run, name, worker),
        Row::Finishes(worker) => finishes(rt, run, name, worker),
        Row::Runs(worker, calls) => all_run(rt, run, name, worker, calls),
        Row::GoBack(times) => all_go_back(rt, run, name, times),
        Row::Hands(digits) => hands(rt, run, name, digits),
        Row::HandsInstead(digits) => hands_instead(rt, run, name, digits),
        Row::Asks(lock) => asks(rt, run, name, lock),
        Row::Retries(said) => retries(rt, run, name, said),
        look => assert!(rt; is_so(rt, &run.core, look), "{name}"),
    }
}

/// A run of this text that begins so.
fn run_of(rt: &impl Abort, alloc: Global, text: &Text, start: &Start) -> Result<Run, Fail> {
    let text = text_of(alloc, text)?;
    match start {
        Start::New(mode, n, m) => Run::new(rt, alloc, text.as_slice(), *n, *m, *mode),
        Start::Opened => Run::opened(alloc, text.as_slice()),
    }
}

/// A run goes through its rows.
pub(crate) fn goes(rt: &impl Abort, alloc: Global, whole: &Play) -> Result<(), Fail> {
    let (name, text, start, rows) = whole;
    let mut run = run_of(rt, alloc, text, start)?;
    for row in *rows {
        play(rt, &mut run, name, *row);
    }
    Ok(())
}

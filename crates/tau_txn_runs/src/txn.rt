//! Calls of several workers over one shard, against the worked runs.
ghost use Rattle.std.specs.Prelude.{◌≡◌, ◌<◌, ◌≤◌, length};
ghost use Rattle.tau_txn.specs.Txn.{RunsBy};

use arrayvec::ArrayVec;
use std::alloc::Global;
use std::marker::Model;
use std::process::Abort;
use std::test::Fail;
use tau_base::{
    Call, KeptCall, Key, Listed, LogMode, Lv, MAX_STREAMS, Mode, Name, Text64, Value, format_of,
    most_streams,
};
use tau_model::{Committed, CommittedList};
use tau_proc::{ADD, FIRST_DECLARED, GET, Operand, PUT, Proc, Procs, Reply, Step};
use tau_shard::{Shard, ShardRefusal};
use tau_txn::{Action, ActionKind, Txn};

/// What became of an action, in plain numbers: a key is its table and its row, a reply is a number or absent.
#[derive(Clone, Copy, Debug, PartialEq, Eq)]
enum Went {
    Granted,
    Busy(u8),
    NoMemory,
    Quit(u16, i64),
    Commit(u64),
    Post,
    Freed(u16, i64),
    Done(Option<i64>, [u64; 3]),
    OtherReply,
    LeftOver,
    Nothing,
}

/// A step of a procedure.
#[derive(Clone, Copy)]
enum Word {
    /// `get r0 a 1`
    Gets,
    /// `put a 2 r0`
    PutsRegister,
    /// `put a ROW NUMBER`
    Puts(i64, i64),
}

/// Two workers at a shard: who they are, of how many streams, in which mode, the steps of a procedure of the first one, and the
/// shard's floor, if it has one from the beginning.
type Seats = (
    (u8, u8),
    usize,
    LogMode,
    &'static [Word],
    Option<&'static [u64]>,
);

/// In words what is shown, the workers, and the rows, each with 0 for the first worker or 1 for the second.
type Play = (&'static str, Seats, &'static [(u8, Row)]);

/// What is done with a worker's call, and what is then so. A key is its row of the first table.
#[derive(Clone, Copy)]
enum Row {
    /// A call begins: its number, its procedure, and its arguments, all of them numbers.
    Begins(u64, u16, &'static [i64]),
    /// Its next actions become these.
    Goes(&'static [Went]),
    /// So many times it takes its first lock, meets Busy and gives its key back.
    MeetsBusy(usize),
    /// Its record, after the anchor of this number and vector, begins here and has so many bytes.
    Commits(u32, &'static [u64], u64, usize),
    /// Its record, after the anchor of this number and vector, begins here and has these bytes, as hexadecimal digits.
    Writes(u32, &'static [u64], u64, &'static str),
    /// It is given up.
    GivesUp,
    /// The lock that comes next.
    NextLock(Option<(u64, Key, Mode)>),
    /// The number of the call in hand.
    Number(u64),
    /// Its vectors: before its record had a place, and with which it frees its keys.
    Dep([u64; 3]),
    Lv([u64; 3]),
    /// The position in this stream of the vector with which it frees its keys.
    Reaches(usize, u64),
    InHand(bool),
    HoldsKey(bool),
    HasJoined(bool),
    /// Something is kept of it, without the place of a record.
    KeptUnplaced,
    /// What is kept of it has this vector.
    KeptLv([u64; 3]),
    /// Up to this vector so many entries of the shard are dropped.
    Drops(&'static [u64], usize),
    /// The shard's row has this number.
    Finds(i64, i64),
    /// Another worker reads this row.
    IsRead(u8, i64),
    /// The lock that is asked is that of row 1 to read it, and nothing else is asked.
    LocksToRead,
    /// The lock that is asked is granted, with this number in the row.
    ReadsNumber(i64),
    /// What is asked is to free the key of row 1, which was not written, and nothing else.
    FreesNext,
    /// One call is kept once this one is.
    IsKept,
}

fn key(row: i64) -> Key {
    Key { table: 0, row }
}

fn call_of(proc: u16, args: &[Value]) -> Call {
    let mut list = ArrayVec::new();
    for value in args {
        if !list.is_full() {
            list.push(value.copied());
        }
    }
    Call { proc, args: list }
}

/// The call with these numbers as arguments.
fn numbers_call(proc: u16, args: &[i64]) -> Call {
    let mut list = ArrayVec::new();
    for number in args {
        if !list.is_full() {
            list.push(Value::Int(*number));
        }
    }
    Call { proc, args: list }
}

/// The name of this text.
fn name_of(text: &str) -> Result<Name, Fail> {
    match Name::of(text) {
        Some(name) => Ok(name),
        None => Err(Fail::new("name")),
    }
}

/// A procedure of these steps.
fn proc_of(name: Name, args: u8, steps: Vec<Step>) -> Proc {
    Proc {
        name,
        args,
        steps: Listed::of(steps),
    }
}

/// The procedures with one of these steps more.
fn declare(rt: &impl Abort, alloc: Global, args: u8, steps: Vec<Step>) -> Result<Procs, Fail> {
    let proc = proc_of(name_of("p")?, args, steps);
    assert!(rt; proc.is_well_formed());
    let mut procs = Procs::new(alloc);
    procs.add(proc)?;
    Ok(procs)
}

fn step_of(word: Word) -> Step {
    match word {
        Word::Gets => Step::Get {
            into: 0,
            table: 0,
            row: Operand::Int(1),
        },
        Word::PutsRegister => Step::Put {
            table: 0,
            row: Operand::Int(2),
            value: Operand::Register(0),
        },
        Word::Puts(row, number) => Step::Put {
            table: 0,
            row: Operand::Int(row),
            value: Operand::Int(number),
        },
    }
}

fn steps_of(alloc: Global, words: &[Word]) -> Result<Vec<Step>, Fail> {
    let mut steps = Vec::new(alloc);
    for word in words {
        steps.push(step_of(*word))?;
    }
    Ok(steps)
}

/// The procedures with one of these steps more, without arguments; none if there is no step.
fn procs_of(rt: &impl Abort, alloc: Global, words: &[Word]) -> Result<Procs, Fail> {
    if words.is_empty() {
        return Ok(Procs::new(alloc));
    }
    declare(rt, alloc, 0, steps_of(alloc, words)?)
}

/// The first positions of a vector, zeros beyond its end.
fn positions(lv: &Lv) -> [u64; 3] {
    [lv.position(0), lv.position(1), lv.position(2)]
}

fn begin(rt: &impl Abort, alloc: Global, txn: &mut Txn, procs: &Procs, number: u64, call: &Call)
    requires number { 1 ≤ number }
    ensures run { RunsBy procs.now txn.new }
    ensures width { txn.new.width ≡ txn.old.width }
{
    assert!(rt; procs.takes(call));
    assert!(rt; !txn.in_hand());
    let Ok(kept) = KeptCall::of(alloc, call) else {
        assert!(rt; false);
        return;
    };
    txn.begin(procs, number, &kept);
}

/// The worker gives a key back. That it holds the key is seen by asking for another worker.
fn give_back(rt: &impl Abort, shard: &mut Shard, worker: u8, key: Key)
    requires { worker < 31 }
{
    let mut other = Lv::zero(1);
    let Err(ShardRefusal::Busy { holder }) = shard.lock(31, key, Mode::Write, &mut other) else {
        assert!(rt; false);
        return;
    };
    assert_eq!(rt; holder, worker);
    shard.quit(holder, key);
}

/// The worker frees a key that it only read.
fn free_read(rt: &impl Abort, shard: &mut Shard, worker: u8, key: Key, lv: &Lv)
    requires { worker < 31 }
{
    let mut other = Lv::zero(1);
    let Err(ShardRefusal::Busy { holder }) = shard.lock(31, key, Mode::Write, &mut other) else {
        assert!(rt; false);
        return;
    };
    assert_eq!(rt; holder, worker);
    shard.free(holder, key, lv, None);
}

/// The worker frees a key that it wrote, which stands against readers too.
fn free_written(rt: &impl Abort, shard: &mut Shard, worker: u8, key: Key, lv: &Lv, value: Value)
    requires { worker < 31 }
{
    let mut other = Lv::zero(1);
    let Err(ShardRefusal::Busy { holder }) = shard.lock(31, key, Mode::Read, &mut other) else {
        assert!(rt; false);
        return;
    };
    assert_eq!(rt; holder, worker);
    shard.free(holder, key, lv, Some(value));
}

/// What a call that has run to its end returned.
fn done_of(reply: &Reply, lv: &Lv) -> Went {
    match reply {
        Reply::Ok(Value::Absent) => Went::Done(None, positions(lv)),
        Reply::Ok(Value::Int(number)) => Went::Done(Some(*number), positions(lv)),
        _ => Went::OtherReply,
    }
}

/// Does the next action, but for a Commit and a Post.
fn act(rt: &impl Abort, txn: &mut Txn, procs: &Procs, shard: &mut Shard, worker: u8) -> Went
    requires worker { worker < 31 }
    requires run { RunsBy procs.now txn.old }
    ensures run { RunsBy procs.now txn.new }
    ensures width { txn.new.width ≡ txn.old.width }
{
    match txn.turn() {
        Action::Lock { key, mode } => {
            let mut dep = txn.dep();
            match shard.lock(worker, key, mode, &mut dep) {
                Ok(value) => {
                    assert!(rt; dep.width() == txn.dep().width());
                    txn.granted(value, dep);
                    Went::Granted
                }
                Err(ShardRefusal::Busy { holder }) => {
                    txn.busy(procs, holder);
                    Went::Busy(holder)
                }
                Err(ShardRefusal::NoMemory) => Went::NoMemory,
            }
        }
        Action::Quit { key } => {
            give_back(rt, shard, worker, key);
            txn.went(procs);
            Went::Quit(key.table, key.row)
        }
        Action::Commit { size } => Went::Commit(size),
        Action::Post => Went::Post,
        Action::Free { key, write } => {
            match write {
                None => free_read(rt, shard, worker, key, &txn.lv()),
                Some(value) => free_written(rt, shard, worker, key, &txn.lv(), value),
            }
            txn.went(procs);
            Went::Freed(key.table, key.row)
        }
        Action::Done { reply, lv } => {
            txn.went(procs);
            done_of(&reply, &lv)
        }
        Action::LeftOver => {
            txn.went(procs);
            Went::LeftOver
        }
        Action::Nothing => Went::Nothing,
    }
}

/// Gives the call's record its place, after an anchor, and posts it: its bytes.
fn place(
    rt: &impl Abort,
    txn: &mut Txn,
    procs: &Procs,
    anchor_number: u32,
    anchor: &Lv,
    start: u64,
) -> Result<Vec<u8>, Fail>
    requires start { start < 10000 }
    requires run { RunsBy procs.now txn.old }
    ensures run { RunsBy procs.now txn.new }
    ensures width { txn.new.width ≡ txn.old.width }
{
    let _limits = procs.list();
    let Action::Commit { size } = txn.turn() else {
        return Err("no commit".into());
    };
    assert_eq!(rt; size, 0);
    assert!(rt; anchor.width() == txn.dep().width());
    txn.prepare(anchor_number, anchor)?;
    let Action::Commit { size } = txn.turn() else {
        return Err("no record".into());
    };
    assert_eq!(rt; txn.record_size(), size);
    assert!(rt; txn.kind() == ActionKind::Commit);
    assert!(rt; size < 10000);
    txn.placed(start);
    let Action::Post = txn.turn() else {
        return Err("no post".into());
    };
    Ok(txn.take_bytes())
}

fn give_up(rt: &impl Abort, txn: &mut Txn, procs: &Procs)
    requires { RunsBy procs.now txn.old }
    ensures run { RunsBy procs.now txn.new }
{
    let _procs = procs.list();
    assert!(rt; !txn.has_joined());
    txn.give_up();
}

/// Grants so many locks.
fn grant(rt: &impl Abort, txn: &mut Txn, procs: &Procs, dep: &Lv, times: usize)
    requires run { RunsBy procs.now txn.old }
    requires width { length dep.now ≡ txn.old.width }
    ensures run { RunsBy procs.now txn.new }
    ensures width { txn.new.width ≡ txn.old.width }
{
    for _ in 0..times {
        let Action::Lock { .. } = txn.turn() else {
            assert!(rt; false);
            return;
        };
        txn.granted(Value::Absent, *dep);
    }
}

/// Grants the lock that is asked, with row and vector lent. Whether there was one.
fn grant_lent(txn: &mut Txn, procs: &Procs, row: Option<&Value>) -> bool
    requires { RunsBy procs.now txn.old }
    ensures { RunsBy procs.now txn.new }
{
    let _procs = procs.list();
    let Some(_) = txn.lock_asked() else {
        return false;
    };
    let dep = *txn.dep_ref();
    txn.granted_by(row, &dep);
    true
}

/// The key that is freed next, and the vector that it is freed with.
fn free_lent(txn: &Txn) -> Option<(Key, Lv)> {
    let Some(key) = txn.free_asked() else {
        return None;
    };
    Some((key, *txn.lv_ref()))
}

/// The vector with these positions.
fn vector(rt: &impl Abort, positions: &[u64]) -> Lv {
    assert!(rt; 1 <= positions.len());
    assert!(rt; positions.len() <= MAX_STREAMS);
    let mut lv = Lv::zero(positions.len());
    for j in 0..positions.len() {
        let lsn = positions[j];
        if j < lv.width() && lsn < 10000 {
            lv.set(j, lsn);
        }
    }
    lv
}

/// A worker with the procedures of its calls.
#[derive(Drop)]
struct Seat {
    txn: Txn,
    procs: Procs,
    worker: u8,
    alloc: Global,
}

impl Model for Seat {
    ghost use Rattle.std.specs.Prelude.{◌<◌, ℕ};
    ghost use Rattle.tau_txn.specs.Txn.{RunsBy};

    ghost Value = { ℕ };

    ghost view = { λ s. s.worker };

    ghost invariant = { λ s. RunsBy s.procs s.txn × (s.worker < 31) };
}

impl Seat {
    fn new(
        rt: &impl Abort,
        alloc: Global,
        worker: u8,
        n: usize,
        mode: LogMode,
        procs: Procs,
    ) -> Seat {
        assert!(rt; worker < 31);
        assert!(rt; 1 <= n);
        assert!(rt; n <= most_streams(format_of(mode)));
        Seat {
            txn: Txn::new(alloc, worker, n, mode),
            procs,
            worker,
            alloc,
        }
    }

    fn begin(&mut self, rt: &impl Abort, number: u64, call: &Call) {
        assert!(rt; 1 <= number);
        begin(rt, self.alloc, &mut self.txn, &self.procs, number, call);
    }

    fn act(&mut self, rt: &impl Abort, shard: &mut Shard) -> Went {
        act(rt, &mut self.txn, &self.procs, shard, self.worker)
    }

    fn place(
        &mut self,
        rt: &impl Abort,
        anchor_number: u32,
        anchor: &Lv,
        start: u64,
    ) -> Result<Vec<u8>, Fail> {
        assert!(rt; start < 10000);
        place(rt, &mut self.txn, &self.procs, anchor_number, anchor, start)
    }

    fn give_up(&mut self, rt: &impl Abort) {
        give_up(rt, &mut self.txn, &self.procs);
    }

    fn grant(&mut self, rt: &impl Abort, dep: &Lv, times: usize) {
        assert!(rt; dep.width() == self.txn.dep().width());
        grant(rt, &mut self.txn, &self.procs, dep, times);
    }

    fn grant_lent(&mut self, row: Option<&Value>) -> bool {
        grant_lent(&mut self.txn, &self.procs, row)
    }

    fn next_lock(&self) -> Option<(u64, Key, Mode)> {
        self.txn.next_lock()
    }

    fn number(&self) -> Option<u64> {
        self.txn.number()
    }

    fn dep(&self) -> [u64; 3] {
        positions(&self.txn.dep())
    }

    fn lv(&self) -> [u64; 3] {
        positions(&self.txn.lv())
    }

    fn position(&self, stream: usize) -> u64 {
        self.txn.lv().position(stream)
    }

    fn in_hand(&self) -> bool {
        self.txn.in_hand()
    }

    fn holds_key(&self) -> bool {
        self.txn.holds_key()
    }

    fn has_joined(&self) -> bool {
        self.txn.has_joined()
    }

    fn committed(&self) -> Option<Committed> {
        self.txn.committed()
    }
}

/// The seat's next actions are these.
fn follows(rt: &impl Abort, seat: &mut Seat, shard: &mut Shard, name: &str, wants: &[Went]) {
    for want in wants {
        let went = seat.act(rt, shard);
        assert!(rt; went == *want, "{name}: {went:?}");
    }
}

/// Gives the seat's call its place: the bytes of its record after this anchor.
fn placed(
    rt: &impl Abort,
    seat: &mut Seat,
    anchor_number: u32,
    anchor: &[u64],
    start: u64,
) -> Result<Vec<u8>, Fail> {
    let anchor = vector(rt, anchor);
    seat.place(rt, anchor_number, &anchor, start)
}

/// Whether bytes are those of these hexadecimal digits, between which there may be spaces.
fn are_spelled(bytes: &[u8], digits: &str) -> bool {
    let mut at = 0usize;
    let mut high: Option<u8> = None;
    for c in digits.chars() {
        if let Some(digit) = c.to_digit(16) {
            let low = digit as u8;
            match high {
                None => high = Some(low),
                Some(first) => {
                    if bytes.get(at) != Some(&((first << 4) | low)) {
                        return false;
                    }
                    at = at.wrapping_add(1);
                    high = None;
                }
            }
        }
    }
    at == bytes.len() && high.is_none()
}

/// The call takes its first lock, and then meets Busy and gives its key back, so many times.
fn meets_busy(rt: &impl Abort, seat: &mut Seat, shard: &mut Shard, name: &str, times: usize) {
    for _ in 0..times {
        let wants = [Went::Granted, Went::Busy(1), Went::Quit(0, 1)];
        follows(rt, seat, shard, name, &wants);
    }
}

/// Something is kept of the call in hand, without the place of a record.
fn is_kept_unplaced(seat: &Seat) -> bool {
    match seat.committed() {
        Some(call) => call.spot.is_none(),
        None => false,
    }
}

/// The vector of what is kept of the call in hand.
fn kept_lv(seat: &Seat) -> Option<[u64; 3]> {
    match seat.committed() {
        Some(call) => Some(positions(&call.lv)),
        None => None,
    }
}

/// A call that has its one key, of row 1, and wrote nothing, is asked to free that key, and nothing else.
fn frees_next(seat: &Seat) -> bool {
    let Some((freed, _)) = free_lent(&seat.txn) else {
        return false;
    };
    freed == key(1) && seat.txn.written_at(key(1)).is_none() && !seat.txn.is_left_over()
}

/// A call that has not its one key, of row 1, is asked to lock that key, and nothing else.
fn locks_to_read(seat: &Seat) -> bool {
    seat.txn.lock_asked() == Some((key(1), Mode::Read)) && seat.txn.quit_asked().is_none()
}

/// Whether the seat is as the row says. Only rows that change nothing come here.
fn is_so(seat: &Seat, row: Row) -> bool {
    match row {
        Row::NextLock(want) => seat.next_lock() == want,
        Row::Number(number) => seat.number() == Some(number),
        Row::Dep(dep) => seat.dep() == dep,
        Row::Lv(lv) => seat.lv() == lv,
        Row::Reaches(stream, position) => seat.position(stream) == position,
        Row::InHand(in_hand) => seat.in_hand() == in_hand,
        Row::HoldsKey(holds) => seat.holds_key() == holds,
        Row::HasJoined(joined) => seat.has_joined() == joined,
        Row::KeptUnplaced => is_kept_unplaced(seat),
        Row::KeptLv(lv) => kept_lv(seat) == Some(lv),
        Row::LocksToRead => locks_to_read(seat),
        Row::FreesNext => frees_next(seat),
        _ => false,
    }
}

/// Up to this vector so many entries of the shard are dropped.
fn drops(rt: &impl Abort, shard: &mut Shard, upto: &[u64], entries: usize) -> bool {
    shard.drop_covered(&vector(rt, upto)) == entries
}

/// The shard's row has this number.
fn finds(shard: &Shard, row: i64, number: i64) -> bool {
    shard.value(key(row)) == Value::Int(number)
}

/// Another worker reads a row.
fn is_read(rt: &impl Abort, shard: &mut Shard, worker: u8, row: i64) -> bool {
    assert!(rt; worker < 31);
    let mut other = Lv::zero(2);
    shard
        .lock_key(worker, key(row), Mode::Read, &mut other)
        .is_ok()
}

/// One call is kept once that in hand is.
fn is_kept(alloc: Global, seat: &Seat) -> Result<bool, Fail> {
    let mut kept = CommittedList::new(alloc);
    kept.reserve(1)?;
    seat.txn.commit_into(&mut kept);
    Ok(kept.len() == 1)
}

/// Does what the row says, and sees that it is so.
fn play(
    rt: &impl Abort,
    alloc: Global,
    shard: &mut Shard,
    seat: &mut Seat,
    name: &str,
    row: Row,
) -> Result<bool, Fail> {
    match row {
        Row::Begins(number, proc, args) => seat.begin(rt, number, &numbers_call(proc, args)),
        Row::Goes(wants) => follows(rt, seat, shard, name, wants),
        Row::MeetsBusy(times) => meets_busy(rt, seat, shard, name, times),
        Row::Commits(anchor, upto, start, size) => {
            return Ok(placed(rt, seat, anchor, upto, start)?.len() == size);
        }
        Row::Writes(anchor, upto, start, record) => {
            return Ok(are_spelled(placed(rt, seat, anchor, upto, start)?.as_slice(), record));
        }
        Row::GivesUp => seat.give_up(rt),
        Row::Drops(upto, entries) => return Ok(drops(rt, shard, upto, entries)),
        Row::Finds(row, number) => return Ok(finds(shard, row, number)),
        Row::IsRead(worker, row) => return Ok(is_read(rt, shard, worker, row)),
        Row::ReadsNumber(number) => return Ok(seat.grant_lent(Some(&Value::Int(number)))),
        Row::IsKept => return is_kept(alloc, seat),
        other => return Ok(is_so(seat, other)),
    }
    Ok(true)
}

/// The shard of so many streams, with this floor if it has one from the beginning.
fn shard_of(rt: &impl Abort, alloc: Global, n: usize, floor: Option<&[u64]>) -> Shard {
    assert!(rt; 1 <= n && n <= MAX_STREAMS);
    match floor {
        None => Shard::new(alloc, n),
        Some(positions) => Shard::with_floor(alloc, vector(rt, positions)),
    }
}

/// Two seats at a shard go through these rows, the first through those of number 0.
fn both_go(
    rt: &impl Abort,
    alloc: Global,
    shard: &mut Shard,
    first: &mut Seat,
    second: &mut Seat,
    name: &str,
    rows: &[(u8, Row)],
) -> Result<(), Fail> {
    for (index, (number, row)) in rows.iter().enumerate() {
        let went = match *number {
            0 => play(rt, alloc, shard, first, name, *row)?,
            _ => play(rt, alloc, shard, second, name, *row)?,
        };
        assert!(rt; went, "{name}: row {index}");
    }
    Ok(())
}

/// The workers go through their rows.
fn goes(rt: &impl Abort, alloc: Global, played: &Play) -> Result<(), Fail> {
    let (name, seats, rows) = played;
    let (workers, n, mode, words, floor) = *seats;
    let procs = procs_of(rt, alloc, words)?;
    let mut first = Seat::new(rt, alloc, workers.0, n, mode, procs);
    let mut second = Seat::new(rt, alloc, workers.1, n, mode, Procs::new(alloc));
    let mut shard = shard_of(rt, alloc, n, floor);
    both_go(rt, alloc, &mut shard, &mut first, &mut second, name, rows)
}

/// The step that writes the first argument to this row.
fn puts_argument(row: i64) -> Step {
    Step::Put {
        table: 0,
        row: Operand::Int(row),
        value: Operand::Argument(1),
    }
}

/// The steps that write their argument to 64 rows.
fn many_writes(alloc: Global) -> Result<Vec<Step>, Fail> {
    let mut steps = Vec::new(alloc);
    for row in 0..64 {
        steps.push(puts_argument(row))?;
    }
    Ok(steps)
}

/// The key of row 1.
const FIRST_ROW: Key = Key { table: 0, row: 1 };

/// The record of call 1, which puts 5 into row 1.
const PUT_RECORD: &str =
    "01 00000028 0000000000000001 00000000 0000 0001 0000 0000000000000001 01 0000000000000005";

/// The same above anchor 1, with an empty mask.
const PUT_ABOVE_RECORD: &str =
    "01 00000028 0000000000000001 00000001 0000 0001 0000 0000000000000001 01 0000000000000005";

/// The same as a command record.
const COMMAND_RECORD: &str =
    "02 00000031 0000000000000001 00000000 0000 0000 03 01 0000000000000000 01 0000000000000001 01 0000000000000005";

/// All three in format 2.
const WIDE_RECORD: &str =
    "01 0000002a 0000000000000001 00000000 00000000 0001 0000 0000000000000001 01 0000000000000005";

const WIDE_ABOVE_RECORD: &str =
    "01 0000002a 0000000000000001 00000001 00000000 0001 0000 0000000000000001 01 0000000000000005";

const WIDE_COMMAND_RECORD: &str =
    "02 00000033 0000000000000001 00000000 00000000 0000 03 01 0000000000000000 01 0000000000000001 01 0000000000000005";

/// In format 2, the record of call 2, which puts 7 into row 1 and waits for stream 20 up to 55.
const AFTER_20_RECORD: &str =
    "01 00000032 0000000000000002 00000000 00100000 0000000000000037 0001 0000 0000000000000001 01 0000000000000007";

static PLAYS: [Play; 17] = [
    (
        "read then written by another",
        (
            (0, 1),
            2,
            LogMode::Values,
            &[Word::Gets, Word::PutsRegister],
            None,
        ),
        &[
            (0, Row::Begins(1, FIRST_DECLARED, &[])),
            (0, Row::Goes(&[Went::Granted, Went::Granted])),
            (0, Row::Commits(0, &[0, 0], 50, 32)),
            (
                0,
                Row::Goes(&[
                    Went::Freed(0, 1),
                    Went::Freed(0, 2),
                    Went::Done(None, [82, 0, 0]),
                ]),
            ),
            (1, Row::Begins(2, PUT, &[0, 1, 9])),
            (1, Row::Goes(&[Went::Granted])),
            (1, Row::Commits(0, &[0, 0], 50, 48)),
            (
                1,
                Row::Goes(&[Went::Freed(0, 1), Went::Done(None, [82, 98, 0])]),
            ),
        ],
    ),
    // The later one of two writers meets Busy, begins again at once, and comes after.
    (
        "busy names the holder",
        ((0, 1), 2, LogMode::Values, &[], None),
        &[
            (0, Row::Begins(1, PUT, &[0, 1, 5])),
            (1, Row::Begins(2, PUT, &[0, 1, 6])),
            (1, Row::Goes(&[Went::Granted])),
            (0, Row::Goes(&[Went::Busy(1)])),
            (1, Row::Commits(0, &[0, 0], 13, 40)),
            (
                1,
                Row::Goes(&[Went::Freed(0, 1), Went::Done(None, [0, 53, 0])]),
            ),
            (0, Row::Goes(&[Went::Granted])),
            (0, Row::Commits(0, &[0, 0], 13, 48)),
            (
                0,
                Row::Goes(&[Went::Freed(0, 1), Went::Done(None, [61, 53, 0])]),
            ),
        ],
    ),
    // A removed entry raises the floor, below which no call of the shard begins.
    (
        "calls start at the floor",
        ((0, 1), 2, LogMode::Values, &[], None),
        &[
            (0, Row::Begins(1, PUT, &[0, 1, 5])),
            (0, Row::Goes(&[Went::Granted])),
            (0, Row::Commits(0, &[0, 0], 13, 40)),
            (0, Row::Goes(&[Went::Freed(0, 1)])),
            (0, Row::Drops(&[53, 0], 1)),
            (1, Row::Begins(2, ADD, &[0, 1, 2])),
            (1, Row::Goes(&[Went::Granted, Went::Granted])),
            (1, Row::Commits(0, &[0, 0], 13, 48)),
            (
                1,
                Row::Goes(&[Went::Freed(0, 1), Went::Done(Some(7), [53, 61, 0])]),
            ),
            (1, Row::Begins(3, PUT, &[0, 65, 7])),
            (1, Row::Goes(&[Went::Granted])),
            (1, Row::Dep([53, 0, 0])),
        ],
    ),
    // Call 3 is in the anchor; call 1 is raised to it and names it; call 2 depends on call 1 and names none.
    (
        "record above an anchor",
        ((0, 1), 3, LogMode::Values, &[], None),
        &[
            (0, Row::Begins(1, PUT, &[0, 1, 5])),
            (0, Row::Goes(&[Went::Granted])),
            (0, Row::Commits(1, &[13, 13, 53], 42, 40)),
            (
                0,
                Row::Goes(&[Went::Freed(0, 1), Went::Done(None, [82, 13, 53])]),
            ),
            (1, Row::Begins(2, ADD, &[0, 1, 2])),
            (1, Row::Goes(&[Went::Granted, Went::Granted])),
            (1, Row::Commits(0, &[0, 0, 0], 13, 64)),
            (
                1,
                Row::Goes(&[Went::Freed(0, 1), Went::Done(Some(7), [82, 77, 53])]),
            ),
        ],
    ),
    // The record names anchor 1 and has an empty mask.
    (
        "bytes above an anchor",
        ((0, 1), 3, LogMode::Values, &[], None),
        &[
            (0, Row::Begins(1, PUT, &[0, 1, 5])),
            (0, Row::Goes(&[Went::Granted])),
            (0, Row::Writes(1, &[13, 13, 53], 42, PUT_ABOVE_RECORD)),
        ],
    ),
    (
        "command record",
        ((0, 1), 1, LogMode::Commands, &[], None),
        &[
            (0, Row::Begins(1, PUT, &[0, 1, 5])),
            (0, Row::Goes(&[Went::Granted])),
            (0, Row::Writes(0, &[0], 13, COMMAND_RECORD)),
            (0, Row::Lv([62, 0, 0])),
        ],
    ),
    // The mode picks the record: its kind, and whether its mask has 16 bits or 32.
    (
        "the mode of values picks the record",
        ((0, 1), 2, LogMode::Values, &[], None),
        &[
            (0, Row::Begins(1, PUT, &[0, 1, 5])),
            (0, Row::Goes(&[Went::Granted])),
            (0, Row::Writes(0, &[0, 0], 13, PUT_RECORD)),
            (0, Row::Lv([53, 0, 0])),
        ],
    ),
    (
        "the mode of wide values picks the record",
        ((0, 1), 2, LogMode::WideValues, &[], None),
        &[
            (0, Row::Begins(1, PUT, &[0, 1, 5])),
            (0, Row::Goes(&[Went::Granted])),
            (0, Row::Writes(0, &[0, 0], 13, WIDE_RECORD)),
            (0, Row::Lv([55, 0, 0])),
        ],
    ),
    (
        "the mode of wide commands picks the record",
        ((0, 1), 2, LogMode::WideCommands, &[], None),
        &[
            (0, Row::Begins(1, PUT, &[0, 1, 5])),
            (0, Row::Goes(&[Went::Granted])),
            (0, Row::Writes(0, &[0, 0], 13, WIDE_COMMAND_RECORD)),
            (0, Row::Lv([64, 0, 0])),
        ],
    ),
    // Of 32 streams, worker 30 depends on worker 20: its mask has bit 20.
    (
        "wide record with a high bit",
        ((20, 30), 32, LogMode::WideValues, &[], None),
        &[
            (0, Row::Begins(1, PUT, &[0, 1, 5])),
            (0, Row::Goes(&[Went::Granted])),
            (0, Row::Commits(0, &[0; 32], 13, 42)),
            (0, Row::Reaches(20, 55)),
            (
                0,
                Row::Goes(&[Went::Freed(0, 1), Went::Done(None, [0, 0, 0])]),
            ),
            (1, Row::Begins(2, ADD, &[0, 1, 2])),
            (1, Row::Goes(&[Went::Granted, Went::Granted])),
            (1, Row::Writes(0, &[0; 32], 13, AFTER_20_RECORD)),
            (1, Row::Reaches(20, 55)),
            (1, Row::Reaches(30, 63)),
            (1, Row::Reaches(31, 0)),
        ],
    ),
    // Of 32 streams, a record names an anchor of all of them and has an empty mask.
    (
        "wide record above an anchor",
        ((16, 30), 32, LogMode::WideValues, &[], None),
        &[
            (0, Row::Begins(1, PUT, &[0, 1, 5])),
            (0, Row::Goes(&[Went::Granted])),
            (0, Row::Writes(1, &[13; 32], 274, WIDE_ABOVE_RECORD)),
            (0, Row::Lv([13, 13, 13])),
            (0, Row::Reaches(16, 316)),
            (0, Row::Reaches(31, 13)),
        ],
    ),
    (
        "locks that come next",
        ((0, 1), 1, LogMode::Values, &[], None),
        &[
            (0, Row::NextLock(None)),
            (0, Row::Begins(7, PUT, &[0, 1, 5])),
            (0, Row::NextLock(Some((7, FIRST_ROW, Mode::Write)))),
        ],
    ),
    // A read-only call joins the committed ones as it begins to free its keys.
    (
        "read only call",
        ((1, 2), 2, LogMode::Values, &[], Some(&[53, 0])),
        &[
            (0, Row::Begins(2, GET, &[0, 1])),
            (0, Row::Goes(&[Went::Granted])),
            (0, Row::HasJoined(false)),
            (0, Row::KeptUnplaced),
            (0, Row::Goes(&[Went::Freed(0, 1)])),
            (0, Row::HasJoined(true)),
            (0, Row::KeptLv([53, 0, 0])),
            (0, Row::Goes(&[Went::Done(None, [53, 0, 0]), Went::Nothing])),
        ],
    ),
    // A key that was read and then written is raised to write mode, and freed once.
    (
        "key read and then written",
        (
            (0, 1),
            1,
            LogMode::Values,
            &[Word::Gets, Word::Puts(1, 3), Word::PutsRegister],
            None,
        ),
        &[
            (0, Row::Begins(1, FIRST_DECLARED, &[])),
            (0, Row::NextLock(Some((1, FIRST_ROW, Mode::Read)))),
            (0, Row::Goes(&[Went::Granted])),
            (0, Row::NextLock(Some((1, FIRST_ROW, Mode::Write)))),
            (0, Row::Goes(&[Went::Granted, Went::Granted])),
            (0, Row::Commits(0, &[0], 13, 51)),
            (
                0,
                Row::Goes(&[
                    Went::Freed(0, 1),
                    Went::Freed(0, 2),
                    Went::Done(None, [64, 0, 0]),
                ]),
            ),
            (0, Row::Finds(1, 3)),
        ],
    ),
    // A call that is given up only gives its keys back, and then it is in hand no more.
    (
        "given up",
        (
            (0, 1),
            1,
            LogMode::Values,
            &[Word::Puts(1, 3), Word::Puts(2, 4)],
            None,
        ),
        &[
            (0, Row::Begins(1, FIRST_DECLARED, &[])),
            (
                0,
                Row::Goes(&[Went::Granted, Went::Granted, Went::Commit(0)]),
            ),
            (0, Row::HoldsKey(true)),
            (0, Row::GivesUp),
            (
                0,
                Row::Goes(&[Went::Quit(0, 1), Went::Quit(0, 2), Went::Nothing]),
            ),
            (0, Row::Begins(2, PUT, &[0, 1, 5])),
            (0, Row::HoldsKey(false)),
            (0, Row::GivesUp),
            (0, Row::InHand(false)),
        ],
    ),
    // After the 64th Busy the call gives its keys back and is left over. Another worker reads row 2.
    (
        "left over after the last try",
        (
            (0, 1),
            2,
            LogMode::Values,
            &[Word::Puts(1, 3), Word::Puts(2, 4)],
            None,
        ),
        &[
            (0, Row::IsRead(1, 2)),
            (0, Row::Begins(1, FIRST_DECLARED, &[])),
            (0, Row::MeetsBusy(63)),
            (0, Row::NextLock(Some((1, FIRST_ROW, Mode::Write)))),
            (0, Row::MeetsBusy(1)),
            (0, Row::Number(1)),
            (0, Row::Goes(&[Went::LeftOver, Went::Nothing])),
        ],
    ),
    // What is asked of a call that reads a row, one thing at a time.
    (
        "one thing is asked at a time",
        ((0, 1), 1, LogMode::Values, &[], None),
        &[
            (0, Row::Begins(2, GET, &[0, 1])),
            (0, Row::LocksToRead),
            (0, Row::ReadsNumber(4)),
            (0, Row::FreesNext),
            (0, Row::IsKept),
        ],
    ),
];

#[test]
fn calls_go_as_worked(rt: HostRuntime) -> Result<(), Fail> {
    for played in &PLAYS {
        goes(&rt, rt.alloc(), played)?;
    }
    Ok(())
}

/// The first action of the call is to lock row 1 to write it.
fn locks_first(rt: &impl Abort, procs: &Procs, call: &Call) {
    assert!(rt; procs.takes(call));
    assert!(rt; Txn::first_lock(procs, call) == Some((key(1), Mode::Write)));
}

/// The first action of `put a 1 5` is to lock row 1 to write it.
#[test]
fn the_lock_that_comes_first(rt: HostRuntime) {
    locks_first(&rt, &Procs::new(rt.alloc()), &numbers_call(PUT, &[0, 1, 5]));
}

/// A call whose one argument is a text of 64 bytes.
fn text_call() -> Result<Call, Fail> {
    let text = Text64::of("xxxxxxxxxxxxxxxxxxxxxxxxxxxxxxxxxxxxxxxxxxxxxxxxxxxxxxxxxxxxxxxx").ok_or(
        "text",
    )?;
    Ok(call_of(FIRST_DECLARED, &[Value::Text(text)]))
}

/// The record of a call that writes a text of 64 bytes to 64 rows, each of which it depends on by this vector, above no anchor.
fn long_record(
    rt: &impl Abort,
    alloc: Global,
    mode: LogMode,
    full: &[u64],
    none: &[u64],
) -> Result<Vec<u8>, Fail> {
    let procs = declare(rt, alloc, 1, many_writes(alloc)?)?;
    let mut seat = Seat::new(rt, alloc, 3, full.len(), mode, procs);
    seat.begin(rt, 1, &text_call()?);
    seat.grant(rt, &vector(rt, full), 64);
    placed(rt, &mut seat, 0, none, 13)
}

/// The mode, as many positions as there are streams, none of them, and how long the longest record is: 64 texts of 64 bytes, and
/// 16 positions, or 32 in format 2.
static LONGEST: [(LogMode, &[u64], &[u64], usize); 2] = [
    (LogMode::Values, &[7; 16], &[0; 16], 5077),
    (LogMode::WideValues, &[7; 32], &[0; 32], 5207),
];

#[test]
fn longest_records(rt: HostRuntime) -> Result<(), Fail> {
    for (mode, full, none, size) in &LONGEST {
        let record = long_record(&rt, rt.alloc(), *mode, full, none)?;
        assert!(rt; record.len() == *size);
    }
    Ok(())
}

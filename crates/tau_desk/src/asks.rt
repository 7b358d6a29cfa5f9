//! What is asked of the head and of a manager's seat.
ghost use Rattle.std.specs.Prelude.{◌≡◌, ◌<◌, ◌≤◌, [], Some, None, true, false, length, slice_get};
ghost use Rattle.tau_base.specs.declared.limits.TheConstants.{MAX_LSN};
ghost use Rattle.tau_desk.specs.Asks.{AreIdle, AreThere, IsIdle, covered_calls};
ghost use Rattle.tau_desk.specs.Ends.{AreResting, IsWhole};
ghost use Rattle.tau_desk.specs.Manages.{PlacedTo};
ghost use Rattle.tau_desk.specs.Shares.{PlainStock, PlainWork};

use crate::desk::Desk;
use crate::seat::{Head, ManagerSeat, Stock, Work};
use tau_base::Lv;
use tau_model::CommittedList;

impl ManagerSeat {
    /// Where what the manager has gathered ends.
    pub fn gathered(&self) -> u64
        ensures same { result ≡ self.now.stock.gathered }
        ensures small { result < MAX_LSN }
    {
        self.stock.upto()
    }

    /// Whether a record of an anchor of its own waits to be gathered.
    pub fn has_own(&self) -> bool
        ensures none { result ≡ false → self.now.stock.own.pieces ≡ [] }
        ensures some { result ≡ true → self.now.stock.own.pieces ≡ [] → ⊥ }
    {
        !self.stock.own.is_empty()
    }
}

impl Head {
    /// Whether the head has the role of the worker.
    pub fn has_worker(&self, worker: u8) -> bool
        ensures there { result ≡ true → (o : PlainWork) × (slice_get self.now.workers worker ≡ Some (Some o)) }
        ensures out { result ≡ false → (o : PlainWork) → slice_get self.now.workers worker ≡ Some (Some o) → ⊥ }
    {
        work_there(&self.workers, worker as usize)
    }

    /// Whether the head has the role of the manager of the stream.
    pub fn has_manager(&self, stream: u8) -> bool
        ensures there { result ≡ true → (o : PlainStock) × (slice_get self.now.managers stream ≡ Some (Some o)) }
        ensures out { result ≡ false → (o : PlainStock) → slice_get self.now.managers stream ≡ Some (Some o) → ⊥ }
    {
        stock_there(&self.managers, stream as usize)
    }

    /// Whether the head has the clerk's role.
    pub fn has_clerk(&self) -> bool
        ensures { result ≡ self.now.clerk }
    {
        self.clerk
    }

    /// Whether no role is out.
    pub fn is_whole(&self) -> bool
        ensures whole { result ≡ true → IsWhole self.now }
        ensures out { result ≡ false → IsWhole self.now → ⊥ }
    {
        if !works_there(&self.workers) {
            return false;
        }
        if !stocks_there(&self.managers) {
            return false;
        }
        self.clerk
    }

    /// Whether no worker whose role the head has has a call in hand.
    pub fn is_idle(&self) -> bool
        ensures idle { result ≡ true → AreIdle self.now.workers }
        ensures rests { result ≡ true → AreResting self.now }
        ensures other { result ≡ false → AreIdle self.now.workers → ⊥ }
    {
        works_idle(&self.workers)
    }

    /// Up to where a stream is placed.
    pub fn placed_end(&mut self, desk: &Desk, stream: u8) -> u64
        requires own { self.old.table_id ≡ desk.now.table.shared.table_id }
        requires opened { self.old.me.0.opened ≡ Some desk.now.table.shared.key.value }
        requires there { stream < desk.now.streams }
        ensures same { self.new ≡ self.old }
        ensures end { PlacedTo desk.now.table.shared.key.value self.old.me.0 stream result }
    {
        desk.placed_end(&mut self.seat, stream)
    }

    /// How many committed calls of a worker, whose role the head has, these positions cover.
    pub fn covered(&self, worker: u8, positions: &Lv) -> usize
        requires there { (o : PlainWork) × (slice_get self.now.workers worker ≡ Some (Some o)) }
        ensures { (o : PlainWork) → slice_get self.now.workers worker ≡ Some (Some o) → result ≡ covered_calls positions.now o.committed }
    {
        covered_of(&self.workers[worker as usize], positions)
    }
}

/// How many committed calls of the worker, which is there, these positions cover.
fn covered_of(work: &Option<Work>, positions: &Lv) -> usize
    requires there { (o : PlainWork) × (work.now ≡ Some o) }
    ensures { (o : PlainWork) → work.now ≡ Some o → result ≡ covered_calls positions.now o.committed }
{
    match work {
        Some(work) => covered_in(&work.committed, positions),
        None => unreachable!(),
    }
}

/// How many of these calls the positions cover.
fn covered_in(calls: &CommittedList, positions: &Lv) -> usize
    ensures { result ≡ covered_calls positions.now calls.now.items }
{
    let mut count = 0;
    for i in 0..calls.len() {
        if calls.at(i).is_covered(positions) {
            count += 1;
        }
    }
    count
}

fn work_there(works: &Vec<Option<Work>>, at: usize) -> bool
    ensures there { result ≡ true → (o : PlainWork) × (slice_get works.now.items at ≡ Some (Some o)) }
    ensures out { result ≡ false → (o : PlainWork) → slice_get works.now.items at ≡ Some (Some o) → ⊥ }
{
    if at >= works.len() {
        return false;
    }
    match &works[at] {
        Some(_) => true,
        None => false,
    }
}

fn stock_there(stocks: &Vec<Option<Stock>>, at: usize) -> bool
    ensures there { result ≡ true → (o : PlainStock) × (slice_get stocks.now.items at ≡ Some (Some o)) }
    ensures out { result ≡ false → (o : PlainStock) → slice_get stocks.now.items at ≡ Some (Some o) → ⊥ }
{
    if at >= stocks.len() {
        return false;
    }
    match &stocks[at] {
        Some(_) => true,
        None => false,
    }
}

fn works_there(works: &Vec<Option<Work>>) -> bool
    ensures there { result ≡ true → AreThere works.now.items }
    ensures out { result ≡ false → AreThere works.now.items → ⊥ }
{
    for worker in 0..works.len() {
        if !work_there(works, worker) {
            return false;
        }
    }
    true
}

fn stocks_there(stocks: &Vec<Option<Stock>>) -> bool
    ensures there { result ≡ true → AreThere stocks.now.items }
    ensures out { result ≡ false → AreThere stocks.now.items → ⊥ }
{
    for stream in 0..stocks.len() {
        if !stock_there(stocks, stream) {
            return false;
        }
    }
    true
}

fn works_idle(works: &Vec<Option<Work>>) -> bool
    ensures idle { result ≡ true → AreIdle works.now.items }
    ensures other { result ≡ false → AreIdle works.now.items → ⊥ }
{
    for worker in 0..works.len() {
        if !work_idle(&works[worker]) {
            return false;
        }
    }
    true
}

fn work_idle(work: &Option<Work>) -> bool
    ensures idle { result ≡ true → IsIdle work.now }
    ensures other { result ≡ false → IsIdle work.now → ⊥ }
{
    match work {
        Some(work) => idle(work),
        None => true,
    }
}

fn idle(work: &Work) -> bool
    ensures idle { result ≡ true → work.now.txn.hand ≡ None }
    ensures other { result ≡ false → work.now.txn.hand ≡ None → ⊥ }
{
    !work.txn.in_hand()
}

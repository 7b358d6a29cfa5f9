//! A call that was left over goes on.
ghost use Rattle.std.specs.Prelude.{ℕ, ◌≡◌, ◌<◌, [], Some, None, IfErr, IfOk, length, slice_get, true, false};
ghost use Rattle.std.specs.List.Sorted.{IsNonDecreasing};
ghost use Rattle.tau_rule.specs.Heads.{left_by};
ghost use Rattle.tau_desk.specs.Resumes.{AllRest, CanGoOn, IsLowestIn, IsLowestOf, ResumedBy, ResumesAt, Rests, RestsWork, left_in, lower, told_resumed};

use crate::desk::Desk;
use crate::seat::{Head, Work, WorkerSeat};
use crate::splits::{put_work, take_work};
use std::marker::Brand;
use tau_base::{Lv, NoMemory};
use tau_core::LeftOvers;
use tau_rule::{Seat, SplitOff, Told};

/// A call that was left over.
#[derive(Clone, Copy)]
struct LeftOver {
    number: u64,
    worker: usize,
    /// Where it stands among those of its worker.
    at: usize,
}

impl Desk {
    /// Where each worker's role is in the head, and none has a call in hand or one to begin, a seat for the worker of the lowest call that was left over, which comes next there. None where that is not so, and where no call was left over.
    pub fn split_resumed(&self, head: &mut Head) -> Result<Option<WorkerSeat>, NoMemory>
        requires own { head.old.table_id ≡ self.now.table.shared.table_id }
        requires opened { head.old.me.0.opened ≡ Some self.now.table.shared.key.value }
        ensures split { IfOk result (λ seat. ResumedBy self.now.table.shared.key.value.load head.old head.new seat) }
        ensures refused { IfErr result (λ _. head.new ≡ head.old) }
    {
        match lowest_left(&head.workers, self.load.calls.len()) {
            Some(left) => self.split_left(head, left),
            None => Ok(None),
        }
    }

    /// A seat for the worker of this call, which was left over and comes next there.
    fn split_left(&self, head: &mut Head, left: LeftOver) -> Result<Option<WorkerSeat>, NoMemory>
        requires own { head.old.table_id ≡ self.now.table.shared.table_id }
        requires opened { head.old.me.0.opened ≡ Some self.now.table.shared.key.value }
        requires can { CanGoOn (length self.now.table.shared.key.value.load.calls) head.old.workers (Some left) }
        ensures split { IfOk result (λ seat. ResumedBy self.now.table.shared.key.value.load head.old head.new seat) }
        ensures refused { IfErr result (λ _. head.new ≡ head.old) }
    {
        let mut work = take_work(&mut head.workers, left.worker);
        if work.committed.reserve(1).is_err() {
            put_work(&mut head.workers, left.worker, work);
            return Err(NoMemory);
        }
        work.left.remove(left.at);
        work.again = Some(left.number);
        let seat = self.part_resumed(&mut head.seat, left.worker, left.at);
        Ok(Some(WorkerSeat {
            seat,
            worker: left.worker as u8,
            work,
            anchor: 0,
            anchor_lv: Lv::zero(self.streams),
            seen: head.seen,
        }))
    }

    /// A new seat has the role of the worker, and its call that was left over and stands there comes next.
    fn part_resumed(&self, seat: &mut Seat, worker: usize, at: usize) -> Seat
        requires own { seat.old.table_id ≡ self.now.table.shared.table_id }
        requires idle { seat.old.me.0.hand ≡ None }
        requires can { ResumesAt self.now.table.shared.key.value.load seat.old.me.0 worker at }
        ensures own { (seat.new.table_id ≡ seat.old.table_id) × (seat.new.id ≡ seat.old.id) × (result.table_id ≡ seat.old.table_id) }
        ensures parted { (seat.new.me ≡ (left_by worker seat.old.me.0, seat.old.me.1)) × (result.me ≡ (told_resumed worker at seat.old.me.0, [])) }
    {
        self.part_resumed_told::<Brand>(seat, worker, at)
    }

    fn part_resumed_told<N: Told>(&self, seat: &mut Seat, worker: usize, at: usize) -> Seat
        requires own { seat.old.table_id ≡ self.now.table.shared.table_id }
        requires idle { seat.old.me.0.hand ≡ None }
        requires can { ResumesAt self.now.table.shared.key.value.load seat.old.me.0 worker at }
        requires told { (N.knows 0 ≡ left_by worker seat.old.me.0) × (N.knows 1 ≡ told_resumed worker at seat.old.me.0) }
        ensures own { (seat.new.table_id ≡ seat.old.table_id) × (seat.new.id ≡ seat.old.id) × (result.table_id ≡ seat.old.table_id) }
        ensures parted { (seat.new.me ≡ (left_by worker seat.old.me.0, seat.old.me.1)) × (result.me ≡ (told_resumed worker at seat.old.me.0, [])) }
    {
        let _ = worker;
        let _ = at;
        self.table.shared.split_seat::<SplitOff<N>>(seat)
    }
}

/// Where each worker is here and has no call in hand and none to begin, the lowest call that was left over.
fn lowest_left(works: &Vec<Option<Work>>, calls: usize) -> Option<LeftOver>
    ensures { CanGoOn calls works.now.items result }
{
    if !all_rest(works, calls) {
        return None;
    }
    lowest(works)
}

/// Whether each worker is here and has no call in hand and none to begin.
fn all_rest(works: &Vec<Option<Work>>, calls: usize) -> bool
    ensures all { result ≡ true → AllRest calls works.now.items }
    ensures other { result ≡ false → AllRest calls works.now.items → ⊥ }
{
    for worker in 0..works.len() {
        if !rests(&works[worker], calls) {
            return false;
        }
    }
    true
}

/// Whether the worker is here and has no call in hand and none to begin.
fn rests(work: &Option<Work>, calls: usize) -> bool
    ensures all { result ≡ true → Rests calls work.now }
    ensures other { result ≡ false → Rests calls work.now → ⊥ }
{
    match work {
        Some(work) => work_rests(work, calls),
        None => false,
    }
}

fn work_rests(work: &Work, calls: usize) -> bool
    ensures all { result ≡ true → RestsWork calls work.now }
    ensures other { result ≡ false → RestsWork calls work.now → ⊥ }
{
    if work.txn.in_hand() {
        return false;
    }
    if work.mark.is_some() {
        return false;
    }
    if work.again.is_some() {
        return false;
    }
    work.next > calls
}

/// The lowest call that was left over.
fn lowest(works: &Vec<Option<Work>>) -> Option<LeftOver>
    ensures { IsLowestOf works.now.items result }
{
    let mut found = None;
    for worker in 0..works.len() {
        found = lower(found, lowest_at(worker, &works[worker]));
    }
    found
}

/// The lowest call that was left over of a worker.
fn lowest_at(worker: usize, work: &Option<Work>) -> Option<LeftOver>
    ensures { IsLowestIn worker (left_in work.now) result }
{
    match work {
        Some(work) => lowest_of(worker, work),
        None => None,
    }
}

fn lowest_of(worker: usize, work: &Work) -> Option<LeftOver>
    ensures { IsLowestIn worker work.now.left result }
{
    lowest_in(worker, &work.left)
}

/// The lowest of these calls. Where they ascend none but the first is looked at.
fn lowest_in(worker: usize, left: &LeftOvers) -> Option<LeftOver>
    ensures { IsLowestIn worker left.now.numbers result }
{
    if left.ascends() {
        return first_in(worker, left);
    }
    lowest_of_all(worker, left)
}

/// The first of them.
fn first_in(worker: usize, left: &LeftOvers) -> Option<LeftOver>
    requires ascend { IsNonDecreasing left.now.numbers }
    ensures { IsLowestIn worker left.now.numbers result }
{
    if left.len() == 0 {
        return None;
    }
    Some(LeftOver {
        number: left.get(0),
        worker,
        at: 0,
    })
}

/// The lowest of them, in whatever order they are.
fn lowest_of_all(worker: usize, left: &LeftOvers) -> Option<LeftOver>
    ensures { IsLowestIn worker left.now.numbers result }
{
    let mut found = None;
    for at in 0..left.len() {
        let next = LeftOver {
            number: left.get(at),
            worker,
            at,
        };
        found = lower(found, Some(next));
    }
    found
}

/// The lower of two calls, of equal ones the first.
fn lower(first: Option<LeftOver>, second: Option<LeftOver>) -> Option<LeftOver>
    ensures { result ≡ lower first second }
{
    match (first, second) {
        (None, _) => second,
        (_, None) => first,
        (Some(a), Some(b)) => { if a.number <= b.number { first } else { second } }
    }
}

//! Calls that have ended and wait for their acknowledgement.
#![tactic(auto)]

ghost use Rattle.std.specs.Prelude.{◌≡◌, ◌==◌, ◌≤◌, ◌<◌, ◌+◌, [], ◌∷◌, ◌++◌, length, OnOk, true, false, IfSome, IfNone, set, get_or, take, vec_len, vec_capacity};
ghost use Rattle.tau_ack.specs.declared.Waiting.{Waiting};
ghost use Rattle.tau_base.specs.Vectors.{AtMost};
ghost use Rattle.tau_ack.specs.Pending.{NoneCovered, TakesFirst, IsPass, in_pass};

use std::alloc::Global;
use std::marker::Model;
use tau_base::{Lv, NoMemory};

/// A call that has ended.
#[derive(Debug, Clone, Copy, PartialEq, Eq)]
pub struct Waiting {
    /// Its number.
    pub number: u64,
    /// Its vector. The call is acknowledged once it is persisted.
    pub lv: Lv,
}

/// The calls of a worker that wait for their acknowledgement, in the order in which they were put.
///
/// To take all calls that a vector covers costs one scan: a pass goes on where the last call of `take_covered` with
/// the same vector stopped, and moves each call that it leaves at most once.
#[derive(Drop)]
pub struct Pending {
    calls: Slots,
    pass: Pass,
}

/// A list of calls. The slots of calls that are gone stay, and later calls are written over them.
#[derive(Drop)]
struct Slots {
    slots: Vec<Waiting>,
    /// So many slots in front hold the calls.
    count: usize,
}

/// How far a pass over the calls has come.
#[derive(Clone, Copy)]
struct Pass {
    /// Its vector.
    plv: Lv,
    /// So many calls in front were looked at and left.
    passed: usize,
    /// The calls before this one were looked at. Those from `passed` on are gone.
    next: usize,
}

impl Model for Pending {
    ghost use Rattle.tau_ack.specs.Pending.{PlainPending, IsPass, in_pass};

    ghost Value = { PlainPending };

    ghost view = { λ p. record { calls = in_pass p.pass.passed p.pass.next p.calls.calls; room = p.calls.room } };

    ghost invariant = { λ p. IsPass p.pass.plv p.pass.passed p.pass.next p.calls.calls };
}

impl Model for Slots {
    ghost use Rattle.std.specs.Prelude.{◌-◌, ◌≤◌, take, vec_len, vec_capacity};
    ghost use Rattle.tau_ack.specs.Pending.{PlainPending};

    ghost Value = { PlainPending };

    ghost view = { λ s. record { calls = take s.count s.slots.items; room = vec_capacity s.slots - s.count } };

    ghost invariant = { λ s. s.count ≤ vec_len s.slots };
}

impl Pending {
    /// No calls. It takes no memory.
    pub fn new(alloc: Global) -> Pending
        ensures { result.calls ≡ [] }
    {
        Pending {
            calls: Slots::new(alloc),
            pass: Pass {
                plv: Lv::zero(1),
                passed: 0,
                next: 0,
            },
        }
    }

    /// Whether no call waits.
    pub fn is_empty(&self) -> bool
        ensures { result ≡ (length self.now.calls == 0) }
    {
        // A pass leaves a gap where it took calls.
        let gone = self.pass.next - self.pass.passed;
        gone == self.calls.len()
    }

    /// Makes room for one more call.
    pub fn reserve(&mut self) -> Result<(), NoMemory>
        ensures room { OnOk result (1 ≤ self.new.room) }
        ensures kept { self.old.room ≤ self.new.room }
        ensures calls { self.new.calls ≡ self.old.calls }
    {
        self.calls.reserve()
    }

    /// How many more calls are put without memory.
    pub fn room(&self) -> usize
        ensures { result ≡ self.now.room }
    {
        self.calls.room()
    }

    /// Puts a call last. It takes no memory.
    pub fn put(&mut self, number: u64, lv: Lv)
        requires { 1 ≤ self.old.room }
        ensures calls { self.new.calls ≡ self.old.calls ++ record { number = number; lv = lv } ∷ [] }
        ensures room { self.old.room ≤ self.new.room + 1 }
    {
        self.put_from(number, &lv);
    }

    /// Puts a call last, with a vector that is lent: it is copied once, to where it stays. It takes no memory.
    pub fn put_from(&mut self, number: u64, lv: &Lv)
        requires { 1 ≤ self.old.room }
        ensures calls { self.new.calls ≡ self.old.calls ++ record { number = number; lv = lv.now } ∷ [] }
        ensures room { self.old.room ≤ self.new.room + 1 }
    {
        self.calls.put(number, lv);
    }

    /// The first call whose vector `plv` covers, taken out. None exactly where no call is covered.
    pub fn take_covered(&mut self, plv: &Lv) -> Option<Waiting>
        ensures first { IfSome result (λ w. TakesFirst plv.now self.old.calls w self.new.calls) }
        ensures none { IfNone result (NoneCovered plv.now self.old.calls) }
        ensures unchanged { IfNone result (self.new.calls ≡ self.old.calls) }
        ensures room { self.old.room ≤ self.new.room }
    {
        match next_covered(&mut self.calls, &mut self.pass, plv) {
            Some(at) => Some(*self.calls.get(at)),
            None => None,
        }
    }

    /// The same, where the call that is taken out is written into `taken`. Returns whether there was one.
    pub fn take_covered_into(&mut self, plv: &Lv, taken: &mut Waiting) -> bool
        ensures first { result ≡ true → TakesFirst plv.now self.old.calls taken.new self.new.calls }
        ensures none { result ≡ false → NoneCovered plv.now self.old.calls }
        ensures unchanged { result ≡ false → self.new.calls ≡ self.old.calls }
        ensures kept { result ≡ false → taken.new ≡ taken.old }
        ensures room { self.old.room ≤ self.new.room }
    {
        match next_covered(&mut self.calls, &mut self.pass, plv) {
            Some(at) => {
                take_call(taken, self.calls.get(at));
                true
            }
            None => false,
        }
    }
}

impl Slots {
    fn new(alloc: Global) -> Slots
        ensures { result.calls ≡ [] }
    {
        Slots {
            slots: Vec::new(alloc),
            count: 0,
        }
    }

    fn len(&self) -> usize
        ensures { result ≡ length self.now.calls }
    {
        self.count
    }

    fn get(&self, at: usize) -> &Waiting
        requires { at < length self.now.calls }
        ensures { result.now ≡ get_or self.now.calls at result.now }
    {
        &self.slots[at]
    }

    /// Makes room for one more call.
    fn reserve(&mut self) -> Result<(), NoMemory>
        ensures room { OnOk result (1 ≤ self.new.room) }
        ensures kept { self.old.room ≤ self.new.room }
        ensures calls { self.new.calls ≡ self.old.calls }
    {
        if self.count < self.slots.len() {
            return Ok(());
        }
        self.slots.try_reserve(1)?;
        Ok(())
    }

    /// How many more calls are put without memory.
    fn room(&self) -> usize
        ensures { result ≡ self.now.room }
    {
        self.slots.capacity() - self.count
    }

    /// Puts a call last, in the slot of one that is gone if there is any.
    fn put(&mut self, number: u64, lv: &Lv)
        requires { 1 ≤ self.old.room }
        ensures calls { self.new.calls ≡ self.old.calls ++ record { number = number; lv = lv.now } ∷ [] }
        ensures room { self.old.room ≤ self.new.room + 1 }
    {
        put_at(&mut self.slots, self.count, number, lv);
        self.count += 1;
    }

    /// Moves a call to the front of the gap, if there is one.
    fn move_down(&mut self, from: usize, to: usize)
        requires order { to ≤ from }
        requires inside { from < length self.old.calls }
        ensures calls { (d : Waiting) → self.new.calls ≡ set self.old.calls to (get_or self.old.calls from d) }
        ensures room { self.new.room ≡ self.old.room }
    {
        if to == from {
            return;
        }
        self.slots[to] = self.slots[from];
    }

    /// Only the first ones stay.
    fn truncate(&mut self, count: usize)
        requires { count ≤ length self.old.calls }
        ensures calls { self.new.calls ≡ take count self.old.calls }
        ensures room { self.old.room ≤ self.new.room }
    {
        self.count = count;
    }
}

/// Writes a call into this slot, or after the last one.
fn put_at(slots: &mut Vec<Waiting>, at: usize, number: u64, lv: &Lv)
    requires there { at ≤ vec_len slots.old }
    requires room { at < vec_capacity slots.old }
    ensures calls { take (at + 1) slots.new.items ≡ take at slots.old.items ++ record { number = number; lv = lv.now } ∷ [] }
    ensures there { at + 1 ≤ vec_len slots.new }
    ensures capacity { vec_capacity slots.new ≡ vec_capacity slots.old }
{
    if at == slots.len() {
        slots.push_reserved(Waiting { number, lv: *lv });
        return;
    }
    put_over(&mut slots[at], number, lv);
}

/// Becomes the call with this number and vector.
fn put_over(call: &mut Waiting, number: u64, lv: &Lv)
    ensures { call.new ≡ record { number = number; lv = lv.now } }
{
    call.number = number;
    call.lv.copy_from(lv);
}

/// Becomes the same as another call.
fn take_call(taken: &mut Waiting, call: &Waiting)
    ensures { taken.new ≡ call.now }
{
    taken.number = call.number;
    taken.lv.copy_from(&call.lv);
}

/// Takes out the first call that the vector covers. Returns where that call still lies.
fn next_covered(calls: &mut Slots, pass: &mut Pass, plv: &Lv) -> Option<usize>
    requires { IsPass pass.old.plv pass.old.passed pass.old.next calls.old.calls }
    ensures pass { IsPass pass.new.plv pass.new.passed pass.new.next calls.new.calls }
    ensures there { IfSome result (λ at. at < length calls.new.calls) }
    ensures first { IfSome result (λ at. (w : Waiting) → w ≡ get_or calls.new.calls at w → TakesFirst plv.now (in_pass pass.old.passed pass.old.next calls.old.calls) w (in_pass pass.new.passed pass.new.next calls.new.calls)) }
    ensures none { IfNone result (NoneCovered plv.now (in_pass pass.old.passed pass.old.next calls.old.calls)) }
    ensures unchanged { IfNone result (in_pass pass.new.passed pass.new.next calls.new.calls ≡ in_pass pass.old.passed pass.old.next calls.old.calls) }
    ensures room { calls.old.room ≤ calls.new.room }
{
    if calls.len() == 0 {
        return None;
    }
    if !begin(calls, pass, plv) {
        return None;
    }
    scan(calls, pass)
}

/// Turns the pass to this vector, from the front where it may have left a call that it would now take. It answers
/// whether there is a call to look at.
fn begin(calls: &mut Slots, pass: &mut Pass, plv: &Lv) -> bool
    requires { IsPass pass.old.plv pass.old.passed pass.old.next calls.old.calls }
    ensures pass { IsPass pass.new.plv pass.new.passed pass.new.next calls.new.calls }
    ensures plv { result ≡ true → pass.new.plv ≡ plv.now }
    ensures none { result ≡ false → NoneCovered plv.now (in_pass pass.new.passed pass.new.next calls.new.calls) }
    ensures calls { in_pass pass.new.passed pass.new.next calls.new.calls ≡ in_pass pass.old.passed pass.old.next calls.old.calls }
    ensures room { calls.old.room ≤ calls.new.room }
{
    if pass.plv.covers(plv) {
        if pass.passed == calls.len() {
            return false;
        }
        turn_to(&mut pass.plv, plv);
        return true;
    }
    close(calls, pass.passed, pass.next);
    pass.plv.copy_from(plv);
    pass.passed = 0;
    pass.next = 0;
    true
}

/// Becomes the other vector. One that is the same already, as in a pass that goes on, is not copied.
fn turn_to(plv: &mut Lv, other: &Lv)
    requires { AtMost other.now plv.old }
    ensures { plv.new ≡ other.now }
{
    if is_same(plv, other) {
        return;
    }
    plv.copy_from(other);
}

/// Whether two vectors are the same, of which the first covers the second.
fn is_same(plv: &Lv, other: &Lv) -> bool
    requires { AtMost other.now plv.now }
    ensures { result ≡ true → plv.now ≡ other.now }
{
    if plv.width() != other.width() {
        return false;
    }
    other.covers(plv)
}

/// Closes the gap that a pass has left, if any.
fn close(calls: &mut Slots, passed: usize, next: usize)
    requires order { passed ≤ next }
    requires inside { next ≤ length calls.old.calls }
    ensures calls { calls.new.calls ≡ in_pass passed next calls.old.calls }
    ensures room { calls.old.room ≤ calls.new.room }
{
    if passed == next {
        return;
    }
    let mut to = passed;
    for from in next..calls.len() {
        calls.move_down(from, to);
        to += 1;
    }
    calls.truncate(to);
}

/// Goes on with a pass as far as the next covered call, which is gone from then on. Returns where that call still lies.
fn scan(calls: &mut Slots, pass: &mut Pass) -> Option<usize>
    requires { IsPass pass.old.plv pass.old.passed pass.old.next calls.old.calls }
    ensures pass { IsPass pass.new.plv pass.new.passed pass.new.next calls.new.calls }
    ensures there { IfSome result (λ at. at < length calls.new.calls) }
    ensures first { IfSome result (λ at. (w : Waiting) → w ≡ get_or calls.new.calls at w → TakesFirst pass.old.plv (in_pass pass.old.passed pass.old.next calls.old.calls) w (in_pass pass.new.passed pass.new.next calls.new.calls)) }
    ensures none { IfNone result (NoneCovered pass.old.plv (in_pass pass.old.passed pass.old.next calls.old.calls)) }
    ensures unchanged { IfNone result (in_pass pass.new.passed pass.new.next calls.new.calls ≡ in_pass pass.old.passed pass.old.next calls.old.calls) }
    ensures room { calls.old.room ≤ calls.new.room }
{
    let mut passed = pass.passed;
    for next in pass.next..calls.len() {
        if pass.plv.covers(&calls.get(next).lv) {
            pass.passed = passed;
            pass.next = next + 1;
            return Some(next);
        }
        calls.move_down(next, passed);
        passed += 1;
    }
    calls.truncate(passed);
    pass.passed = passed;
    pass.next = passed;
    None
}

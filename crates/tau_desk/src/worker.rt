//! A worker on its seat.
ghost use Rattle.std.specs.Prelude.{◌≡◌, ◌≤◌, ◌<◌, ◌+◌, ◌-◌, ◌^◌, ◌++◌, ◌∷◌, [], ℕ, None, Some, IfOk, IsTrue, OnOk, true, false, is_some, length, vec_len, vec_capacity};
ghost use Rattle.tau_proc.specs.Takes.{takes};
ghost use Rattle.tau_machine.specs.Worker.{fresh};
ghost use Rattle.tau_core.specs.Begins.{next_behind, number_by};
ghost use Rattle.tau_core.specs.Opens.{Opened};
ghost use Rattle.tau_core.specs.State.{Plain};
ghost use Rattle.tau_rule.specs.Role.{Role as RoleOf};
ghost use Rattle.tau_desk.specs.Shares.{FitsWork, IsWork};
ghost use Rattle.tau_txn.specs.Txn.{RunsBy, hand_in, has_joined, held_in, leaves_in};
ghost use Rattle.tau_txn.specs.Next.{kind_of, next_action};
ghost use Rattle.tau_desk.specs.Acts.{MeetsHolder};
ghost use Rattle.tau_desk.specs.Works.{BeginsIn, CommitsOn, EndsOn, EndsReadingOn, FirstFreesOn, FreesOn, GivesUp, GivesUpOn, IsSameSeat, Leaves, LocksOn, PostsOn, QuitsOn, RoomMade, RoomOn, undone};

use crate::desk::Desk;
use crate::mark::Mark;
use crate::seat::{Work, WorkerSeat};
use crate::work::Acted;
use crate::{keeps, work};
use std::sync::Wait;
use tau_base::{KeptCall, NoMemory};
use tau_model::CommittedList;
use tau_proc::Procs;
use tau_txn::{Action, ActionKind, Txn};

impl WorkerSeat {
    /// The call in hand locks the key that it wants. It is Busy only if another worker holds the key in a mode that conflicts. Out of memory, nothing has changed.
    pub fn lock<R: Wait>(&mut self, rt: &R, desk: &Desk) -> Acted
        requires own { self.old.table_id ≡ desk.now.table.shared.table_id }
        requires opened { self.old.me.0.opened ≡ Some desk.now.table.shared.key.value }
        ensures step { LocksOn desk.now.table.shared.key.value.load self.old self.new result }
        ensures busy { result ≡ Acted.Busy → MeetsHolder desk.now.table.shared.key.value self.old.me.0 self.old.work.txn }
        ensures other { result ≡ Acted.Other → kind_of (next_action self.old.work.txn) ≡ ActionKind.Lock → ⊥ }
        ensures seat { IsSameSeat self.old self.new }
    {
        if !self.work.txn.in_hand() {
            return Acted::Other;
        }
        let procs = &desk.load.procs;
        match work::lock(
            rt,
            desk,
            &mut self.seat,
            self.worker,
            procs,
            &mut self.work.txn,
        ) {
            Acted::Went => {
                self.work.mark = None;
                Acted::Went
            }
            Acted::Busy => {
                self.work.mark = None;
                leave(&mut self.work, procs);
                Acted::Busy
            }
            Acted::Other => Acted::Other,
            Acted::NoMemory => Acted::NoMemory,
        }
    }

    /// The call in hand, which is to quit, gives its lowest key back.
    pub fn quit<R: Wait>(&mut self, rt: &R, desk: &Desk) -> Acted
        requires own { self.old.table_id ≡ desk.now.table.shared.table_id }
        requires opened { self.old.me.0.opened ≡ Some desk.now.table.shared.key.value }
        ensures step { QuitsOn desk.now.table.shared.key.value.load self.old self.new result }
        ensures other { result ≡ Acted.Other → kind_of (next_action self.old.work.txn) ≡ ActionKind.Quit → ⊥ }
        ensures seat { IsSameSeat self.old self.new }
    {
        if !self.work.txn.in_hand() {
            return Acted::Other;
        }
        let procs = &desk.load.procs;
        match work::quit(
            rt,
            desk,
            &mut self.seat,
            self.worker,
            procs,
            &mut self.work.txn,
        ) {
            Acted::Went => {
                self.work.mark = None;
                leave(&mut self.work, procs);
                Acted::Went
            }
            Acted::Busy => Acted::Busy,
            Acted::Other => Acted::Other,
            Acted::NoMemory => Acted::NoMemory,
        }
    }

    /// The call in hand, which has joined the committed ones, frees its lowest key.
    pub fn free<R: Wait>(&mut self, rt: &R, desk: &Desk) -> Acted
        requires own { self.old.table_id ≡ desk.now.table.shared.table_id }
        requires opened { self.old.me.0.opened ≡ Some desk.now.table.shared.key.value }
        requires joined { has_joined self.old.work.txn ≡ true }
        ensures step { FreesOn desk.now.table.shared.key.value.load self.old self.new result }
        ensures other { result ≡ Acted.Other → kind_of (next_action self.old.work.txn) ≡ ActionKind.Free → ⊥ }
        ensures seat { IsSameSeat self.old self.new }
    {
        if !self.work.txn.in_hand() {
            return Acted::Other;
        }
        let procs = &desk.load.procs;
        match work::free(
            rt,
            desk,
            &mut self.seat,
            self.worker,
            procs,
            &mut self.work.txn,
        ) {
            Acted::Went => {
                self.work.mark = None;
                Acted::Went
            }
            Acted::Busy => Acted::Busy,
            Acted::Other => Acted::Other,
            Acted::NoMemory => Acted::NoMemory,
        }
    }

    /// The call in hand, which only read and has not joined the committed ones, frees its lowest key; it joins them by that.
    pub fn first_free<R: Wait>(&mut self, rt: &R, desk: &Desk) -> Acted
        requires own { self.old.table_id ≡ desk.now.table.shared.table_id }
        requires opened { self.old.me.0.opened ≡ Some desk.now.table.shared.key.value }
        requires unjoined { has_joined self.old.work.txn ≡ false }
        ensures step { FirstFreesOn desk.now.table.shared.key.value.load self.old self.new result }
        ensures other { result ≡ Acted.Other → kind_of (next_action self.old.work.txn) ≡ ActionKind.Free → ⊥ }
        ensures seat { IsSameSeat self.old self.new }
    {
        if !self.work.txn.in_hand() {
            return Acted::Other;
        }
        if !keeps::first_free(
            rt,
            desk,
            &mut self.seat,
            self.worker,
            &desk.load.procs,
            &mut self.work.txn,
            &mut self.work.committed,
        ) {
            return Acted::Other;
        }
        self.work.mark = None;
        Acted::Went
    }

    /// The record of the call in hand, which has all its keys and writes, is made above the anchor that the seat read last, and gets its place; the call has joined the committed ones. NoMemory also where the outbox has no room for a record, which `make_room` makes. After that nothing has changed.
    pub fn commit(&mut self, desk: &Desk) -> Acted
        requires own { self.old.table_id ≡ desk.now.table.shared.table_id }
        requires opened { self.old.me.0.opened ≡ Some desk.now.table.shared.key.value }
        ensures step { CommitsOn desk.now.table.shared.key.value.load self.old self.new result }
        ensures other { result ≡ Acted.Other → kind_of (next_action self.old.work.txn) ≡ ActionKind.Commit → ⊥ }
        ensures seat { IsSameSeat self.old self.new }
    {
        let ActionKind::Commit = self.work.txn.kind() else {
            return Acted::Other;
        };
        if self.work.room.records == 0 {
            return Acted::NoMemory;
        }
        match keeps::commit(
            desk,
            &mut self.seat,
            self.worker,
            self.anchor,
            &self.anchor_lv,
            &mut self.work.txn,
            &mut self.work.committed,
        ) {
            Ok(start) => {
                self.work.start = start;
                self.work.mark = None;
                Acted::Went
            }
            Err(_) => Acted::NoMemory,
        }
    }

    /// The record of the call in hand, which has its place, is posted.
    pub fn post<R: Wait>(&mut self, rt: &R, desk: &Desk)
        requires own { self.old.table_id ≡ desk.now.table.shared.table_id }
        requires opened { self.old.me.0.opened ≡ Some desk.now.table.shared.key.value }
        requires next { next_action self.old.work.txn ≡ Action.Post }
        ensures step { PostsOn desk.now.table.shared.key.value.load self.old self.new }
        ensures seat { IsSameSeat self.old self.new }
    {
        work::post(
            rt,
            desk,
            &mut self.seat,
            self.worker,
            self.work.start,
            &mut self.work.txn,
            &mut self.work.room,
        );
        self.work.mark = None;
    }

    /// The call in hand, which has joined the committed ones and freed its keys, waits for its acknowledgement, and is in hand no more. Where room for the next call is missing, it is made.
    pub fn done<R: Wait>(&mut self, rt: &R, desk: &Desk)
        requires own { self.old.table_id ≡ desk.now.table.shared.table_id }
        requires opened { self.old.me.0.opened ≡ Some desk.now.table.shared.key.value }
        requires joined { has_joined self.old.work.txn ≡ true }
        requires next { kind_of (next_action self.old.work.txn) ≡ ActionKind.Done }
        ensures step { EndsOn desk.now.table.shared.key.value.load self.old self.new }
        ensures seat { IsSameSeat self.old self.new }
    {
        work::done(
            rt,
            desk,
            &mut self.seat,
            self.worker,
            &desk.load.procs,
            &mut self.work.txn,
            &mut self.work.room,
        );
        self.work.mark = None;
    }

    /// The call in hand, which only read, holds no key and has not joined the committed ones, joins them, waits for its acknowledgement, and is in hand no more. Where room for the next call is missing, it is made.
    pub fn done_reading<R: Wait>(&mut self, rt: &R, desk: &Desk)
        requires own { self.old.table_id ≡ desk.now.table.shared.table_id }
        requires opened { self.old.me.0.opened ≡ Some desk.now.table.shared.key.value }
        requires unjoined { has_joined self.old.work.txn ≡ false }
        requires next { kind_of (next_action self.old.work.txn) ≡ ActionKind.Done }
        ensures step { EndsReadingOn desk.now.table.shared.key.value.load self.old self.new }
        ensures seat { IsSameSeat self.old self.new }
    {
        keeps::done_reading(
            rt,
            desk,
            &mut self.seat,
            self.worker,
            &desk.load.procs,
            &mut self.work.txn,
            &mut self.work.room,
            &mut self.work.committed,
        );
        self.work.mark = None;
    }

    /// The call in hand, where it has made no event, is in hand no more, and comes next again.
    pub fn undo(&mut self)
        ensures { self.new ≡ record self.old { work = undone self.old.work self.old.work.mark } }
    {
        undo(&mut self.work);
    }

    /// From now on the call in hand, which has not joined the committed ones, only gives its keys back, and then it is in hand no more. One that holds none stays, or is undone where it has made no event. Returns whether it holds any.
    pub fn give_up(&mut self) -> bool
        requires unjoined { has_joined self.old.work.txn ≡ false }
        ensures { GivesUpOn self.old self.new result }
    {
        if !self.work.txn.holds_key() {
            undo(&mut self.work);
            return false;
        }
        give_back_keys(&mut self.work.txn);
        true
    }

    /// Whether the call in hand has joined the committed ones.
    pub fn has_joined(&self) -> bool
        ensures { result ≡ has_joined self.now.work.txn }
    {
        self.work.txn.has_joined()
    }

    /// What is kept of its calls that have joined the committed ones, in their order.
    pub fn committed(&self) -> &CommittedList
        ensures { result.now.items ≡ self.now.work.committed }
    {
        &self.work.committed
    }

    /// Whether a call is in hand.
    pub fn in_hand(&self) -> bool
        ensures { result ≡ is_some self.now.work.txn.hand }
    {
        self.work.txn.in_hand()
    }

    /// Whether the outbox has room for the next call's record, and for the call while it waits.
    pub fn is_roomy(&self) -> bool
        ensures roomy { result ≡ true → (1 ≤ self.now.work.spare.0) × (1 ≤ self.now.work.spare.1) }
        ensures other { result ≡ false → 1 ≤ self.now.work.spare.0 → 1 ≤ self.now.work.spare.1 → ⊥ }
    {
        work::is_roomy(self.work.room)
    }

    /// Where room for the next call is missing in the outbox, it is made; returns whether there is room now.
    pub fn make_room<R: Wait>(&mut self, rt: &R, desk: &Desk) -> bool
        requires own { self.old.table_id ≡ desk.now.table.shared.table_id }
        requires opened { self.old.me.0.opened ≡ Some desk.now.table.shared.key.value }
        ensures made { RoomOn self.old self.new }
        ensures roomy { result ≡ true → (1 ≤ self.new.work.spare.0) × (1 ≤ self.new.work.spare.1) }
        ensures other { result ≡ false → 1 ≤ self.new.work.spare.0 → 1 ≤ self.new.work.spare.1 → ⊥ }
    {
        work::make_room(rt, desk, &mut self.seat, self.worker, &mut self.work.room)
    }

    /// The next call comes into the hand, with room for what it puts away, and returns whether there is one. Out of memory, no call is in hand.
    pub fn begin(&mut self, desk: &Desk) -> Result<bool, NoMemory>
        requires opened { self.old.me.0.opened ≡ Some desk.now.table.shared.key.value }
        requires run { Opened desk.now.table.shared.key.value.load desk.now.table.shared.key.value }
        requires rests { self.old.work.txn.hand ≡ None }
        requires room { 1 ≤ self.old.work.spare.1 }
        ensures begins { BeginsIn desk.now.table.shared.key.value.load self.old.work self.new.work result }
        ensures others { self.new ≡ record self.old { work = self.new.work } }
    {
        begin_next(&mut self.work, desk)
    }

    /// The kind of what the call in hand does next.
    pub fn next(&self) -> ActionKind
        ensures { result ≡ kind_of (next_action self.now.work.txn) }
    {
        self.work.txn.kind()
    }
}

/// The next call comes into the hand.
fn begin_next(work: &mut Work, desk: &Desk) -> Result<bool, NoMemory>
    requires run { Opened desk.now.table.shared.key.value.load desk.now.table.shared.key.value }
    requires fits { (w : ℕ) × FitsWork desk.now.table.shared.key.value.load w work.old }
    requires rests { work.old.txn.hand ≡ None }
    ensures begins { BeginsIn desk.now.table.shared.key.value.load work.old work.new result }
    ensures roomy { IfOk result (λ b. b ≡ true → (1 ≤ work.new.left_room) × (1 ≤ work.new.committed_room)) }
    ensures runs { IfOk result (λ b. b ≡ true → RunsBy desk.now.table.shared.key.value.load.procs work.new.txn) }
{
    let Some(number) = number_in(work, desk.load.calls.len()) else {
        return Ok(false);
    };
    reserve(work)?;
    let call = desk.load.calls.at((number - 1) as usize);
    start(work, &desk.load.procs, number, call, desk.load.workers);
    Ok(true)
}

/// The number of the next call, where there are so many calls.
fn number_in(work: &Work, calls: usize) -> Option<u64>
    ensures { result ≡ number_by calls work.now.next work.now.again }
{
    match work.again {
        Some(number) => Some(number),
        None => {
            if work.next <= calls {
                Some(work.next as u64)
            } else {
                None
            }
        }
    }
}

/// Makes room for a call that is left over, and for one that commits.
fn reserve(work: &mut Work) -> Result<(), NoMemory>
    ensures made { RoomMade work.old work.new }
    ensures roomy { OnOk result ((1 ≤ work.new.left_room) × (1 ≤ work.new.committed_room)) }
{
    work.committed.reserve(1)?;
    work.left.reserve()
}

/// Takes the call into the hand, and goes on by one among the calls.
fn start(work: &mut Work, procs: &Procs, number: u64, call: &KeptCall, workers: usize)
    requires rests { work.old.txn.hand ≡ None }
    requires takes { IsTrue (takes procs.now call.now) }
    requires low { 1 ≤ number }
    requires small { work.old.next + workers < 2 ^ 32 }
    ensures begun { hand_in procs.now work.new.txn ≡ Some (fresh work.old.txn.width (record { number = number; call = call.now }) 0) }
    ensures runs { RunsBy procs.now work.new.txn }
    ensures stays { leaves_in work.new.txn ≡ false }
    ensures same { work.new.txn ≡ record work.old.txn { hand = work.new.txn.hand } }
    ensures others { work.new ≡ record work.old { txn = work.new.txn; next = next_behind workers work.old.next work.old.again; again = None; mark = Some (record { next = work.old.next; again = work.old.again }) } }
{
    work.mark = Some(Mark {
        next: work.next,
        again: work.again,
    });
    work.txn.begin(procs, number, call);
    if work.again.is_none() {
        work.next += workers;
    }
    work.again = None;
}

/// The call in hand, which holds keys, from now on only gives them back.
fn give_back_keys(txn: &mut Txn)
    requires unjoined { has_joined txn.old ≡ false }
    requires held { 1 ≤ length (held_in txn.old) }
    ensures { GivesUp txn.old txn.new }
{
    txn.give_up();
}

/// The call in hand, where it has made no event, goes back among those that wait.
fn undo(work: &mut Work)
    requires shows { (p : Plain) × (w : ℕ) × (r : RoleOf) × IsWork p.load w r work.old }
    ensures { work.new ≡ undone work.old work.old.mark }
{
    let Some(mark) = work.mark else {
        return;
    };
    work.next = mark.next;
    work.again = mark.again;
    work.txn.give_up();
    work.mark = None;
}

/// A call that is left over goes to the others that are.
pub(crate) fn leave(work: &mut Work, procs: &Procs)
    requires run { RunsBy procs.now work.old.txn }
    requires room { is_some work.old.txn.hand ≡ true → 1 ≤ work.old.left_room }
    ensures { Leaves work.old work.new }
{
    if !work.txn.is_left_over() {
        return;
    }
    if let Some(number) = work.txn.number() {
        work.left.push(number);
    }
    work.txn.went(procs);
}

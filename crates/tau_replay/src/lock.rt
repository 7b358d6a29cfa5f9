//! The lock and its four kinds of step: take the turn, give the turn, split a seat, join a seat.
ghost use Rattle.std.specs.Prelude.{◌≡◌, ◌<◌, [], ◌∷◌, ℕ, length, replicate, slice_get, true, false, Some, None, IfOk};
ghost use Rattle.tau_replay.specs.Sound.{AreWorking};
ghost use Rattle.tau_replay.specs.Rule.{IsIdle, MayGive, Names, Took, Boxed, hands_of, first_view, holding, given, without_first, first_alone, both};

use crate::view::{Give, HANDS, OneHand, OneRecovery, Part, Seat, Take, View};
use atomic_table::Table;
use std::alloc::{AllocError, Global};
use std::hint::spin_loop;
use std::snapshot::Snapshot;
use std::sync::Wait;
use std::sync::atomic::AtomicU64;
use tau_scan::Log;

/// How often a worker looks for the turn before it sleeps: far longer than the others mostly keep it, since for one that
/// sleeps each turn that is given back costs a call of the system, and then others sleep too.
const LOOKS: u64 = 5_000;

/// One recovery, of which one seat at a time has the turn. The word is 0 where it is free, and 2 where somebody may wait.
pub struct Lock {
    table: Table<Option<Box<Part>>, View, Snapshot<Log>, OneRecovery, Global>,
    /// It changes when a sleeping worker is to look again.
    pub bell: AtomicU64,
    ghost sized: { (table.shared.table_id.words ≡ 1) × (table.shared.table_id.slots ≡ 1) },
}

impl Lock {
    /// The lock with the seat that steps for all hands.
    pub fn new(alloc: Global, log: &Log, part: Part) -> Result<(Lock, Seat), AllocError>
        requires working { AreWorking log.now part.replay }
        requires idle { part.replay.hands.items ≡ replicate HANDS None }
        ensures own { IfOk result (λ made. made.1.table_id ≡ made.0.table.shared.table_id) }
        ensures first { IfOk result (λ made. made.1.me ≡ (first_view log.now, [])) }
    {
        let about = Snapshot::of(log);
        let mut slots = Vec::new(alloc);
        slots.reserve(1)?;
        slots.push_reserved(Some(Box::new(alloc, part)?));
        let Ok((table, seat)) = Table::new(alloc, &[0], slots, &about) else {
            return Err(AllocError);
        };
        Ok((
            Lock {
                table,
                bell: AtomicU64::new(0),
            },
            seat,
        ))
    }

    /// The part whose turn the seat has.
    fn lift(&self, seat: &mut Seat) -> Box<Part>
        requires own { seat.old.table_id ≡ self.now.table.shared.table_id }
        requires has { (b : Boxed) × (seat.old.me.1 ≡ (0, Some b) ∷ []) }
        ensures own { (seat.new.table_id ≡ seat.old.table_id) × (seat.new.id ≡ seat.old.id) }
        ensures part { seat.old.me.1 ≡ (0, Some result) ∷ [] }
        ensures seat { seat.new.me ≡ (seat.old.me.0, (0, None) ∷ []) }
    {
        self.table.shared.exchange(seat, 0, None).unwrap()
    }

    /// Takes the turn where it is free.
    fn try_take(&self, seat: &mut Seat) -> bool
        requires own { seat.old.table_id ≡ self.now.table.shared.table_id }
        requires idle { IsIdle seat.old.me }
        ensures own { (seat.new.table_id ≡ seat.old.table_id) × (seat.new.id ≡ seat.old.id) }
        ensures took { result ≡ true → Took seat.old.me seat.new.me }
        ensures missed { result ≡ false → seat.new.me ≡ seat.old.me }
    {
        self.table.shared.compare_exchange::<Take>(seat, 0, 0, 1) == 0
    }

    /// The same, where the turn was seen to be free.
    fn try_seen(&self, seat: &mut Seat) -> bool
        requires own { seat.old.table_id ≡ self.now.table.shared.table_id }
        requires idle { IsIdle seat.old.me }
        ensures own { (seat.new.table_id ≡ seat.old.table_id) × (seat.new.id ≡ seat.old.id) }
        ensures took { result ≡ true → Took seat.old.me seat.new.me }
        ensures missed { result ≡ false → seat.new.me ≡ seat.old.me }
    {
        if self.table.shared.peek(0) != 0 {
            return false;
        }
        self.try_take(seat)
    }

    /// Takes the turn where it becomes free soon.
    fn look_for(&self, seat: &mut Seat) -> bool
        requires own { seat.old.table_id ≡ self.now.table.shared.table_id }
        requires idle { IsIdle seat.old.me }
        ensures own { (seat.new.table_id ≡ seat.old.table_id) × (seat.new.id ≡ seat.old.id) }
        ensures took { result ≡ true → Took seat.old.me seat.new.me }
        ensures missed { result ≡ false → seat.new.me ≡ seat.old.me }
    {
        for _ in 0..LOOKS {
            if self.try_seen(seat) {
                return true;
            }
            spin_loop();
        }
        false
    }

    /// Takes the turn where it is free. The word is 2 then, so that who gives the turn back wakes another.
    fn swap_turn(&self, seat: &mut Seat) -> bool
        requires own { seat.old.table_id ≡ self.now.table.shared.table_id }
        requires idle { IsIdle seat.old.me }
        ensures own { (seat.new.table_id ≡ seat.old.table_id) × (seat.new.id ≡ seat.old.id) }
        ensures took { result ≡ true → Took seat.old.me seat.new.me }
        ensures missed { result ≡ false → seat.new.me ≡ seat.old.me }
    {
        self.table.shared.swap::<Take>(seat, 0, 2) == 0
    }

    /// Looks until the turn is free, or for some time. One that was woken looks before it asks for the turn again, since
    /// asking in vain makes another wake it.
    fn see_free(&self) {
        for _ in 0..LOOKS {
            if self.table.shared.peek(0) == 0 {
                return;
            }
            spin_loop();
        }
    }

    /// Sleeps until the turn is free, and takes it.
    fn wait_for<R: Wait>(&self, rt: &R, seat: &mut Seat)
        requires own { seat.old.table_id ≡ self.now.table.shared.table_id }
        requires idle { IsIdle seat.old.me }
        ensures own { (seat.new.table_id ≡ seat.old.table_id) × (seat.new.id ≡ seat.old.id) }
        ensures took { Took seat.old.me seat.new.me }
    {
        for _ in rt.forever() {
            if self.swap_turn(seat) {
                return;
            }
            self.table.shared.park(rt, 0, 2);
            self.see_free();
        }
        unreachable!()
    }

    /// Takes the turn: at once, or after some looks, or after a sleep.
    fn take_turn<R: Wait>(&self, rt: &R, seat: &mut Seat)
        requires own { seat.old.table_id ≡ self.now.table.shared.table_id }
        requires idle { IsIdle seat.old.me }
        ensures own { (seat.new.table_id ≡ seat.old.table_id) × (seat.new.id ≡ seat.old.id) }
        ensures took { Took seat.old.me seat.new.me }
    {
        if self.try_take(seat) {
            return;
        }
        if self.look_for(seat) {
            return;
        }
        self.wait_for(rt, seat)
    }

    /// Waits for the turn, and takes the part.
    pub fn take<R: Wait>(&self, rt: &R, seat: &mut Seat) -> Box<Part>
        requires own { seat.old.table_id ≡ self.now.table.shared.table_id }
        requires idle { IsIdle seat.old.me }
        ensures own { (seat.new.table_id ≡ seat.old.table_id) × (seat.new.id ≡ seat.old.id) }
        ensures held { seat.new.me ≡ (holding seat.old.me.0 result, (0, None) ∷ []) }
        ensures working { AreWorking seat.old.me.0.log result.value.replay }
        ensures named { Names (hands_of result) seat.old.me.0.hands }
    {
        self.take_turn(rt, seat);
        self.lift(seat)
    }

    /// The part comes home. Only what the seat's hands have in flight may have changed.
    pub fn give(&self, seat: &mut Seat, part: Box<Part>)
        requires own { seat.old.table_id ≡ self.now.table.shared.table_id }
        requires held { (seat.old.me.1 ≡ (0, None) ∷ []) × MayGive seat.old.me.0 part }
        ensures own { (seat.new.table_id ≡ seat.old.table_id) × (seat.new.id ≡ seat.old.id) }
        ensures given { seat.new.me ≡ (given seat.old.me.0 part, []) }
    {
        let shared = &self.table.shared;
        shared.exchange(seat, 0, Some(part));
        if shared.swap::<Give>(seat, 0, 0) == 2 {
            shared.wake_one(0);
        }
    }

    /// The first hand of the seat goes to a seat of its own.
    pub fn split(&self, seat: &mut Seat) -> Seat
        requires own { seat.old.table_id ≡ self.now.table.shared.table_id }
        requires idle { IsIdle seat.old.me }
        ensures own { (seat.new.table_id ≡ seat.old.table_id) × (result.table_id ≡ seat.old.table_id) }
        ensures views { (seat.new.me ≡ (without_first seat.old.me.0, [])) × (result.me ≡ (first_alone seat.old.me.0, [])) }
    {
        self.table.shared.split_seat::<OneHand>(seat)
    }

    /// The hands of another seat come to this one.
    pub fn join(&self, seat: &mut Seat, other: Seat)
        requires own { (seat.old.table_id ≡ self.now.table.shared.table_id) × (other.table_id ≡ seat.old.table_id) }
        requires idle { IsIdle seat.old.me × IsIdle other.me }
        ensures own { seat.new.table_id ≡ seat.old.table_id }
        ensures views { seat.new.me ≡ (both seat.old.me.0 other.me.0, []) }
    {
        self.table.shared.join_seat::<OneHand>(seat, other)
    }

    /// What is under the lock, once one seat steps for all hands.
    pub fn close(self, seat: Seat) -> Part
        requires own { seat.table_id ≡ self.table.shared.table_id }
        requires whole { IsIdle seat.me × (length seat.me.0.hands ≡ HANDS) }
        ensures working { AreWorking seat.me.0.log result.replay }
    {
        let Lock { table, bell: _ } = self;
        let mut closed = table.close_with(seat);
        let part = closed.take(0).unwrap();
        closed.free();
        Box::into_inner(part)
    }
}

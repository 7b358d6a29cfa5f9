// What lies outside: a source, a sink and a disk.
ghost use Rattle.std.specs.Prelude.{◌≡◌, ◌+◌, ◌<◌, ◌≤◌, ◌^◌, ◌++◌, Bool, List, ℕ, length, take, drop, IfOk, OnOk, OnErr};
ghost use Rattle.tau_disk.specs.Disk.{Only, Follows, Torn, Holds, Elapses, HasCause, IsPlanned, Moved};
ghost use Rattle.tau_disk.specs.Left.{LeavesAll, LeavesSync, LeavesWrite, MayLeaveEach};
ghost use Rattle.tau_disk.specs.declared.call.Tear.{Tear};

use thiserror::Error;

/// A call of the outside that failed.
#[derive(Clone, Copy, Debug, PartialEq, Eq, Error)]
#[error("a call of the outside failed")]
pub struct Failed;

pub trait Source {
    /// Whether it tells what is left.
    ghost tells: { Type 0 };

    /// What is left.
    ghost left: { Self → List ℕ };

    /// How often it has failed.
    ghost faults: { Self → ℕ };

    /// Moves the first bytes of what is left into the buffer; 0 exactly if nothing is left.
    fn read(&mut self, buf: &mut [u8]) -> Result<usize, Failed>
        requires { 0 < length buf.old }
        ensures bound { IfOk result (λ n. n ≤ length buf.old) }
        ensures bytes { IfOk result (λ n. tells → Moved (left self.old) (left self.new) n (take n buf.new)) }
        ensures none { OnErr result (left self.new ≡ left self.old) }
        ensures cause { HasCause (faults self.old) (faults self.new) result };
}

pub trait Sink {
    /// Whether it tells what it holds.
    ghost tells: { Type 0 };

    /// What it holds.
    ghost held: { Self → List ℕ };

    /// How often it has failed.
    ghost faults: { Self → ℕ };

    /// Appends the first bytes of the piece and returns how many, at least one.
    fn write(&mut self, bytes: &[u8]) -> Result<usize, Failed>
        requires { 0 < length bytes.now }
        ensures bound { IfOk result (λ n. (1 ≤ n) × (n ≤ length bytes.now)) }
        ensures bytes { IfOk result (λ n. tells → held self.new ≡ held self.old ++ take n bytes.now) }
        ensures none { OnErr result (tells → held self.new ≡ held self.old) }
        ensures cause { HasCause (faults self.old) (faults self.new) result };
}

pub trait Disk {
    /// Whether it tells what a read gives. A real file does not.
    ghost tells: { Type 0 };

    /// The bytes that a read gives.
    ghost seen: { Self → List ℕ };

    /// Whether a stop now may leave this image.
    ghost may_leave: { Self → List ℕ → Type 0 };

    /// The moment, as a number that never falls.
    ghost moment: { Self → ℕ };

    /// Whether a stop at some moment from that one to now, also within a call, might have left this image.
    ghost may_leave_since: { Self → ℕ → List ℕ → Type 0 };

    /// How often it has failed.
    ghost faults: { Self → ℕ };

    /// How many calls it has had, if it tells that.
    ghost number: { Self → ℕ };

    /// Whether the call with this number is to fail, if it tells that.
    ghost fails: { Self → ℕ → Bool };

    /// Whether a call that was not to fail was refused a growth, if it tells that.
    ghost short: { Self → Bool };

    /// The images that a stop now leaves, by what it leaves of the writes since the last sync, if it tells that.
    ghost image: { Self → Tear → List ℕ };

    /// Whether a write that is the call with this number, and is to fail, counts as written and not synced, if it tells that.
    ghost keeps: { Self → ℕ → Bool };

    /// Whether a call that was to fail was refused a growth for what it leaves, if it tells that.
    ghost cut: { Self → Bool };

    /// The length.
    fn len(&mut self) -> Result<u64, Failed>
        ensures length { IfOk result (λ n. tells → n ≡ length (seen self.old)) }
        ensures seen { tells → seen self.new ≡ seen self.old }
        ensures crash { (x : List ℕ) → may_leave self.new x → may_leave self.old x }
        ensures keeps { (x : List ℕ) → may_leave self.old x → may_leave self.new x }
        ensures time { Elapses (moment self.old) (moment self.new) (may_leave_since self.old) (may_leave_since self.new) (may_leave self.new) }
        ensures plan { tells → IsPlanned (number self.old) (number self.new) (fails self.old) (fails self.new) (short self.old) (short self.new) result }
        ensures left { tells → LeavesAll (image self.old) (image self.new) (keeps self.old) (keeps self.new) }
        ensures cause { HasCause (faults self.old) (faults self.new) result };

    /// Fills the buffer with the bytes from `at` on.
    fn read_at(&mut self, at: u64, buf: &mut [u8]) -> Result<(), Failed>
        requires { tells → at + length buf.old ≤ length (seen self.old) }
        ensures bytes { OnOk result (tells → buf.new ≡ take (length buf.old) (drop at (seen self.old))) }
        ensures seen { tells → seen self.new ≡ seen self.old }
        ensures crash { (x : List ℕ) → may_leave self.new x → may_leave self.old x }
        ensures keeps { (x : List ℕ) → may_leave self.old x → may_leave self.new x }
        ensures time { Elapses (moment self.old) (moment self.new) (may_leave_since self.old) (may_leave_since self.new) (may_leave self.new) }
        ensures plan { tells → IsPlanned (number self.old) (number self.new) (fails self.old) (fails self.new) (short self.old) (short self.new) result }
        ensures left { tells → LeavesAll (image self.old) (image self.new) (keeps self.old) (keeps self.new) }
        ensures cause { HasCause (faults self.old) (faults self.new) result };

    /// Writes over what is there, and past the end. Until a sync succeeds, a stop may leave any bytes in
    /// the range and past the old end. After a failure nothing more is known.
    fn write_at(&mut self, at: u64, bytes: &[u8]) -> Result<(), Failed>
        requires within { tells → at ≤ length (seen self.old) }
        requires end { at + length bytes.now < 2 ^ 62 }
        ensures written { OnOk result (tells → Holds (seen self.old) at bytes.now (seen self.new)) }
        ensures crash { Follows (Torn at (length bytes.now)) (may_leave self.old) (may_leave self.new) }
        ensures keeps { (x : List ℕ) → may_leave self.old x → may_leave self.new x }
        ensures time { Elapses (moment self.old) (moment self.new) (may_leave_since self.old) (may_leave_since self.new) (may_leave self.new) }
        ensures plan { tells → IsPlanned (number self.old) (number self.new) (fails self.old) (fails self.new) (short self.old) (short self.new) result }
        ensures left { tells → LeavesWrite at bytes.now (number self.new) (short self.new) (cut self.new) (image self.old) (image self.new) (keeps self.old) (keeps self.new) result }
        ensures cause { HasCause (faults self.old) (faults self.new) result };

    /// After it, a stop leaves what a read gives. After a failure nothing more is known than before.
    fn sync(&mut self) -> Result<(), Failed>
        ensures durable { OnOk result (tells → Only (seen self.new) (may_leave self.new)) }
        ensures seen { OnOk result (tells → seen self.new ≡ seen self.old) }
        ensures crash { (x : List ℕ) → may_leave self.new x → may_leave self.old x }
        ensures keeps { OnErr result ((x : List ℕ) → may_leave self.old x → may_leave self.new x) }
        ensures time { Elapses (moment self.old) (moment self.new) (may_leave_since self.old) (may_leave_since self.new) (may_leave self.new) }
        ensures plan { tells → IsPlanned (number self.old) (number self.new) (fails self.old) (fails self.new) (short self.old) (short self.new) result }
        ensures left { tells → LeavesSync (seen self.old) (image self.old) (image self.new) (keeps self.old) (keeps self.new) result }
        ensures cause { HasCause (faults self.old) (faults self.new) result };

    /// What a read gives is an image that a stop may leave.
    ghost seen_now: { (d : Self) → tells → may_leave d (seen d) };

    /// Each of these kinds is an image that a stop may leave.
    ghost leaves_each: { MayLeaveEach tells may_leave image };

    /// This moment is one of those since an earlier one.
    ghost counts_now: { (d : Self) (t : ℕ) (x : List ℕ) → t ≤ moment d → may_leave d x → may_leave_since d t x };

    /// Since this moment there is no other.
    ghost only_now: { (d : Self) (x : List ℕ) → may_leave_since d (moment d) x → may_leave d x };
}

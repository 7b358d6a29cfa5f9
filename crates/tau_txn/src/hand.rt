//! A call in hand.
ghost use Rattle.std.specs.Prelude.{◌≡◌, ◌==◌, ◌<◌, ◌≤◌, ◌+◌, ◌-◌, ◌++◌, ◌||◌, [], ◌∷◌, List, ℕ, Option, Some, length, not, replicate, IsTrue, IsSome, IfOk, true, false, IfErr, OnOk, OnErr, slice_set};
ghost use Rattle.std.specs.Option.{option_copied, unwrap_or};
ghost use Rattle.std.specs.Map.{lookup};
ghost use Rattle.arrayvec.specs.ArrayVec.{array_vec_len};
ghost use Rattle.std.specs.FinMap.{is_sorted};
ghost use Rattle.tau_base.specs.Database.{same_key, key_cmp};
ghost use Rattle.tau_base.specs.Modes.{format_of, most_streams};
ghost use Rattle.tau_base.specs.Vectors.{AtMost, join};
ghost use Rattle.tau_base.specs.declared.limits.TheConstants.{MAX_LSN, MAX_STREAMS};
ghost use Rattle.tau_base.specs.declared.value.Key.{Key};
ghost use Rattle.tau_base.specs.declared.value.Mode.{Mode};
ghost use Rattle.tau_base.specs.declared.value.Call.{Call};
ghost use Rattle.tau_base.specs.declared.value.Value.{Value};
ghost use Rattle.tau_proc.specs.declared.proc.Proc.{Proc};
ghost use Rattle.tau_proc.specs.declared.reply.Reply.{Reply};
ghost use Rattle.tau_proc.specs.declared.reply.Want.{Want};
ghost use Rattle.tau_proc.specs.Progress.{ahead, buffered, next_want};
ghost use Rattle.tau_proc.specs.Takes.{takes};
ghost use Rattle.tau_record.specs.Record.{base_of, Spells};
ghost use Rattle.tau_model.specs.History.{Act};
ghost use Rattle.tau_model.specs.Committed.{lv_at};
ghost use Rattle.tau_machine.specs.Hands.{Txn, Placed, Freeing, hold};
ghost use Rattle.tau_machine.specs.Worker.{Worker, fresh, settled, hand_busy, hand_quit, hand_joined, hand_freed};
ghost use Rattle.tau_txn.specs.Actions.{quits, frees};
ghost use Rattle.tau_txn.specs.Kept.{Shaped, KeepsHand, keeps_in, kept, is_leaving};
ghost use Rattle.tau_txn.specs.Narrow.{lock_asked, quit_asked, free_asked, free_wanted, is_left_over, listed};
ghost use Rattle.tau_txn.specs.Next.{ends_with, asks, frees_on, kind_of, next_by, IsForWent, FreesBy};
ghost use Rattle.tau_txn.specs.Progress.{IsRunBy, IsRun, Follows, WantsUnseen, HasCommitted, IsFinished};
ghost use Rattle.tau_txn.specs.Read.{hand_of, act_in, placed_act, reading_act};
ghost use Rattle.tau_txn.specs.Record.{kept_reading, kept_joined, kept_by, spot_by};
ghost use Rattle.tau_txn.specs.Steps.{lock_by, lock_in, locked_with, first_key, without_first, record_of};
ghost use Rattle.tau_txn.specs.Txn.{shown_of, worker_in, joined_by, lv_by};
ghost use Rattle.tau_shard.specs.Blocks.{RefusedBy, dep_locked};
ghost use Rattle.tau_shard.specs.Read.{shard_of};
ghost use Rattle.tau_shard.specs.Shard.{entry_in};
ghost use Rattle.tau_txn.specs.Locked.{HandLocked, RunsOn};

use crate::action::{Action, ActionKind};
use crate::course::Course;
use crate::held::{leave_first, lent_at, take, value_at};
use crate::standing::Standing;
use arrayvec::ArrayVec;
use std::alloc::Global;
use std::marker::Model;
use std::mem;
use tau_base::{
    Call, KeptCall, Key, LogMode, Lv, MAX_HOLDERS, MAX_STEPS, MAX_TRIES, Mode, NoMemory, Text64,
    Value,
};
use tau_model::{Committed, CommittedList, Spot};
use tau_proc::{Procs, Reply, Want};
use tau_record::{
    encode_command_into, encode_command_wide_into, encode_written_into, encode_written_wide_into,
    raise,
};
use tau_shard::{Shard, ShardRefusal};

/// A call in hand. Its keys, the values that it has seen and its machine lie in the value itself; its record alone is on the heap.
#[derive(Drop)]
pub struct Hand {
    alloc: Global,
    number: u64,
    call: Call,
    machine: Course,
    tries: u8,
    leaves: bool,
    given_up: bool,
    standing: Standing,
    dep: Lv,
    held: ArrayVec<(Key, Mode), MAX_STEPS>,
    seen: ArrayVec<(Key, Value), MAX_STEPS>,
    anchor: u32,
    stream: u8,
    start: u64,
    past: u64,
    lv: Lv,
    bytes: Vec<u8>,
    /// Memory for the bytes of the next record.
    spare: Vec<u8>,
}

impl Model for Hand {
    ghost use Rattle.tau_txn.specs.Hand.{PlainHand};

    ghost Value = { PlainHand };

    ghost view = { λ h. record { number = h.number; call = h.call; machine = h.machine; tries = h.tries; leaves = h.leaves; given_up = h.given_up; standing = h.standing; dep = h.dep; held = h.held.items; seen = h.seen.items; anchor = h.anchor; stream = h.stream; start = h.start; past = h.past; lv = h.lv; bytes = h.bytes.items } };
}

impl Hand {
    /// With no call yet.
    pub fn new(alloc: Global, streams: usize) -> Hand
        requires low { 1 ≤ streams }
        requires high { streams ≤ MAX_STREAMS }
        ensures { result.dep ≡ replicate streams 0 }
    {
        Hand {
            alloc,
            number: 0,
            call: Call {
                proc: 0,
                args: ArrayVec::new(),
            },
            machine: Course::new(),
            tries: 0,
            leaves: false,
            given_up: false,
            standing: Standing::LeftOver,
            dep: Lv::zero(streams),
            held: ArrayVec::new(),
            seen: ArrayVec::new(),
            anchor: 0,
            stream: 0,
            start: 0,
            past: 0,
            lv: Lv::zero(streams),
            bytes: Vec::new(alloc),
            spare: Vec::new(alloc),
        }
    }

    /// A call that begins in the place of the one before. It takes no memory.
    pub fn begin(&mut self, procs: &Procs, number: u64, call: &KeptCall, streams: usize)
        requires low { 1 ≤ streams }
        requires high { streams ≤ MAX_STREAMS }
        requires takes { IsTrue (takes procs.now call.now) }
        requires number { 1 ≤ number }
        ensures begun { (w : ℕ) → hand_of procs.now w self.new ≡ fresh streams (record { number = number; call = call.now }) 0 }
        ensures standing { self.new.standing ≡ Standing.Running }
        ensures stays { self.new.leaves ≡ false }
        ensures bytes { self.new.bytes ≡ [] }
        ensures runs { IsRunBy procs.now self.new }
        ensures keeps { KeepsHand streams self.new }
    {
        self.number = number;
        call.put_into(&mut self.call);
        self.tries = 0;
        self.leaves = false;
        self.given_up = false;
        self.dep.set_zero(streams);
        self.held.clear();
        self.bytes.clear();
        self.run_anew(procs);
    }

    /// Its number.
    pub fn number(&self) -> u64
        ensures { result ≡ self.now.number }
    {
        self.number
    }

    /// Its vector so far, without its own record.
    pub fn dep(&self) -> &Lv
        ensures { result.now ≡ self.now.dep }
    {
        &self.dep
    }

    /// The vector that it frees its keys with: its own once it has joined the committed calls, before that the one so far.
    pub fn lv(&self) -> &Lv
        ensures { result.now ≡ lv_by self.now.standing self.now }
    {
        match self.standing {
            Standing::Running => &self.dep,
            Standing::Quitting => &self.dep,
            Standing::Placed => &self.lv,
            Standing::Freeing => &self.lv,
            Standing::LeftOver => &self.dep,
        }
    }

    /// Whether it has joined the committed calls.
    pub fn has_joined(&self) -> bool
        ensures { result ≡ joined_by self.now.standing }
    {
        match self.standing {
            Standing::Running => false,
            Standing::Quitting => false,
            Standing::Placed => true,
            Standing::Freeing => true,
            Standing::LeftOver => false,
        }
    }

    /// What is kept of it, where it has joined the committed calls or has finished and writes nothing.
    pub fn committed(&self) -> Option<Committed>
        ensures kept { result ≡ kept_by self.now.standing self.now }
        ensures ascend { IsTrue (is_sorted key_cmp (buffered self.now.machine)) }
    {
        let _ascending = self.machine.writes();
        match self.standing {
            Standing::Running => self.kept_reading(),
            Standing::Quitting => None,
            Standing::Placed => self.kept_joined(),
            Standing::Freeing => self.kept_joined(),
            Standing::LeftOver => None,
        }
    }

    fn kept_reading(&self) -> Option<Committed>
        ensures { result ≡ kept_reading (next_want self.now.machine) (buffered self.now.machine) self.now }
    {
        let Want::Finished(reply) = self.machine.want() else {
            return None;
        };
        if !self.machine.writes().is_empty() {
            return None;
        }
        Some(Committed {
            number: self.number,
            reply: reply.copied(),
            dep: self.dep,
            lv: self.dep,
            spot: None,
        })
    }

    fn kept_joined(&self) -> Option<Committed>
        ensures { result ≡ kept_joined (next_want self.now.machine) self.now }
    {
        let Want::Finished(reply) = self.machine.want() else {
            return None;
        };
        Some(Committed {
            number: self.number,
            reply: reply.copied(),
            dep: self.dep,
            lv: self.lv,
            spot: self.spot(),
        })
    }

    /// Appends what is kept of it, as `committed` answers it.
    pub fn commit_into(&self, out: &mut CommittedList)
        requires room { 1 ≤ out.old.room }
        requires vector { HasCommitted self.now.standing → self.now.lv ≡ lv_at self.now.dep (spot_by (buffered self.now.machine) self.now) }
        ensures items { out.new.items ≡ out.old.items ++ listed (kept_by self.now.standing self.now) }
        ensures room { out.old.room ≤ out.new.room + 1 }
        ensures ascend { IsTrue (is_sorted key_cmp (buffered self.now.machine)) }
    {
        let _ascending = self.machine.writes();
        match self.standing {
            Standing::Running => self.put_reading(out),
            Standing::Quitting => {}
            Standing::Placed => self.put_joined(out),
            Standing::Freeing => self.put_joined(out),
            Standing::LeftOver => {}
        }
    }

    fn put_reading(&self, out: &mut CommittedList)
        requires { 1 ≤ out.old.room }
        ensures items { out.new.items ≡ out.old.items ++ listed (kept_reading (next_want self.now.machine) (buffered self.now.machine) self.now) }
        ensures room { out.old.room ≤ out.new.room + 1 }
    {
        let Want::Finished(reply) = self.machine.want() else {
            return;
        };
        if !self.machine.writes().is_empty() {
            return;
        }
        out.push_reserved(self.number, reply, &self.dep, None);
    }

    fn put_joined(&self, out: &mut CommittedList)
        requires room { 1 ≤ out.old.room }
        requires vector { self.now.lv ≡ lv_at self.now.dep (spot_by (buffered self.now.machine) self.now) }
        ensures items { out.new.items ≡ out.old.items ++ listed (kept_joined (next_want self.now.machine) self.now) }
        ensures room { out.old.room ≤ out.new.room + 1 }
    {
        let Want::Finished(reply) = self.machine.want() else {
            return;
        };
        out.push_reserved(self.number, reply, &self.dep, self.spot());
    }

    /// The place of its record.
    fn spot(&self) -> Option<Spot>
        ensures { result ≡ spot_by (buffered self.now.machine) self.now }
    {
        if self.machine.writes().is_empty() {
            return None;
        }
        Some(Spot {
            stream: self.stream,
            start: self.start,
            past: self.past,
            anchor: self.anchor,
        })
    }

    /// Whether it holds a key.
    pub fn holds_key(&self) -> bool
        ensures { result ≡ not (length self.now.held == 0) }
    {
        !self.held.is_empty()
    }

    /// From now on it only gives its keys back. Whether it stays in hand, which it does where it holds a key.
    pub fn give_up(&mut self) -> bool
        requires { joined_by self.old.standing ≡ false }
        ensures stays { result ≡ not (length self.old.held == 0) }
        ensures leaves { self.new ≡ record self.old { leaves = true } }
        ensures runs { (procs : List Proc) → IsRunBy procs self.old → IsRunBy procs self.new }
        ensures keeps { (width : ℕ) → KeepsHand width self.old → keeps_in width (kept result self.new) }
    {
        self.leaves = true;
        !self.held.is_empty()
    }

    /// What the call does next.
    pub fn turn(&self) -> Action
        ensures next { result ≡ next_by self.now.standing self.now }
        ensures ascend { IsTrue (is_sorted key_cmp (buffered self.now.machine)) }
    {
        let _ascending = self.machine.writes();
        match self.standing {
            Standing::Running => {
                if self.leaves {
                    quits(self.held.as_slice())
                } else {
                    self.run()
                }
            }
            Standing::Quitting => quits(self.held.as_slice()),
            Standing::Placed => Action::Post,
            Standing::Freeing => self.free(),
            Standing::LeftOver => Action::LeftOver,
        }
    }

    /// What a call does next that runs.
    fn run(&self) -> Action
        ensures { result ≡ asks (next_want self.now.machine) self.now }
    {
        match self.machine.want() {
            Want::Read(key) => Action::Lock {
                key: *key,
                mode: Mode::Read,
            },
            Want::Write(key) => Action::Lock {
                key: *key,
                mode: Mode::Write,
            },
            Want::Finished(reply) => self.end(reply),
        }
    }

    /// What a call does next that has all its locks.
    fn end(&self, reply: &Reply) -> Action
        ensures { result ≡ ends_with (length (buffered self.now.machine) == 0) reply.now self.now }
    {
        if self.machine.writes().is_empty() {
            return frees(self.held.as_slice(), &[], reply, &self.dep);
        }
        Action::Commit {
            size: self.bytes.len() as u64,
        }
    }

    /// What a call does next that frees its keys.
    fn free(&self) -> Action
        ensures { result ≡ frees_on (next_want self.now.machine) self.now }
    {
        let Want::Finished(reply) = self.machine.want() else {
            return Action::Nothing;
        };
        frees(self.held.as_slice(), self.machine.writes(), reply, &self.lv)
    }

    /// What the call does next, without what that carries: nothing is copied.
    pub fn kind(&self) -> ActionKind
        ensures kind { result ≡ kind_of (next_by self.now.standing self.now) }
        ensures ascend { IsTrue (is_sorted key_cmp (buffered self.now.machine)) }
    {
        let _ascending = self.machine.writes();
        match self.standing {
            Standing::Running => {
                if self.leaves {
                    kind_of_quits(self.held.as_slice())
                } else {
                    self.run_kind()
                }
            }
            Standing::Quitting => kind_of_quits(self.held.as_slice()),
            Standing::Placed => ActionKind::Post,
            Standing::Freeing => self.free_kind(),
            Standing::LeftOver => ActionKind::LeftOver,
        }
    }

    /// That its writes ascend; it does nothing.
    #[inline(always)]
    pub fn ascends(&self)
        ensures { IsTrue (is_sorted key_cmp (buffered self.now.machine)) }
    {
        let _ascending = self.machine.writes();
    }

    fn run_kind(&self) -> ActionKind
        ensures { result ≡ kind_of (asks (next_want self.now.machine) self.now) }
    {
        match self.machine.want() {
            Want::Read(_) => ActionKind::Lock,
            Want::Write(_) => ActionKind::Lock,
            Want::Finished(_) => self.end_kind(),
        }
    }

    fn end_kind(&self) -> ActionKind
        ensures { (reply : Reply) → result ≡ kind_of (ends_with (length (buffered self.now.machine) == 0) reply self.now) }
    {
        if self.machine.writes().is_empty() {
            return kind_of_frees(self.held.as_slice());
        }
        ActionKind::Commit
    }

    fn free_kind(&self) -> ActionKind
        ensures { result ≡ kind_of (frees_on (next_want self.now.machine) self.now) }
    {
        let Want::Finished(_) = self.machine.want() else {
            return ActionKind::Nothing;
        };
        kind_of_frees(self.held.as_slice())
    }

    /// The lock that it takes next.
    pub fn lock_asked(&self) -> Option<(Key, Mode)>
        ensures asked { result ≡ lock_asked self.now.standing self.now }
        ensures ascend { IsTrue (is_sorted key_cmp (buffered self.now.machine)) }
    {
        let _ascending = self.machine.writes();
        match self.standing {
            Standing::Running => {
                if self.leaves {
                    None
                } else {
                    lock_of(self.machine.want())
                }
            }
            Standing::Quitting => None,
            Standing::Placed => None,
            Standing::Freeing => None,
            Standing::LeftOver => None,
        }
    }

    /// The key that it gives back next.
    pub fn quit_asked(&self) -> Option<Key>
        ensures asked { result ≡ quit_asked self.now.standing self.now }
        ensures ascend { IsTrue (is_sorted key_cmp (buffered self.now.machine)) }
    {
        let _ascending = self.machine.writes();
        match self.standing {
            Standing::Running => {
                if self.leaves {
                    lowest(self.held.as_slice())
                } else {
                    None
                }
            }
            Standing::Quitting => lowest(self.held.as_slice()),
            Standing::Placed => None,
            Standing::Freeing => None,
            Standing::LeftOver => None,
        }
    }

    /// The key that it frees next.
    pub fn free_asked(&self) -> Option<Key>
        ensures asked { result ≡ free_asked self.now.standing self.now }
        ensures ascend { IsTrue (is_sorted key_cmp (buffered self.now.machine)) }
    {
        let _ascending = self.machine.writes();
        match self.standing {
            Standing::Running => {
                if self.leaves {
                    None
                } else {
                    self.read_only_free()
                }
            }
            Standing::Quitting => None,
            Standing::Placed => None,
            Standing::Freeing => self.finished_free(),
            Standing::LeftOver => None,
        }
    }

    fn read_only_free(&self) -> Option<Key>
        ensures { result ≡ free_wanted (length (buffered self.now.machine) == 0) (next_want self.now.machine) self.now.held }
    {
        if self.machine.writes().is_empty() {
            return self.finished_free();
        }
        None
    }

    fn finished_free(&self) -> Option<Key>
        ensures { result ≡ free_wanted true (next_want self.now.machine) self.now.held }
    {
        let Want::Finished(_) = self.machine.want() else {
            return None;
        };
        lowest(self.held.as_slice())
    }

    /// What it wrote at this key so far.
    pub fn written_at(&self, key: Key) -> Option<&Value>
        ensures { option_copied result ≡ lookup (same_key key) (buffered self.now.machine) }
    {
        lent_at(key, self.machine.writes())
    }

    /// Whether it is left over.
    pub fn is_left_over(&self) -> bool
        ensures asked { result ≡ is_left_over self.now.standing }
        ensures ascend { IsTrue (is_sorted key_cmp (buffered self.now.machine)) }
    {
        let _ascending = self.machine.writes();
        match self.standing {
            Standing::Running => false,
            Standing::Quitting => false,
            Standing::Placed => false,
            Standing::Freeing => false,
            Standing::LeftOver => true,
        }
    }

    /// How many bytes the record has, 0 while there is no record.
    pub fn record_size(&self) -> u64
        ensures { result ≡ length self.now.bytes }
    {
        self.bytes.len() as u64
    }

    /// The lock was granted, showed this row, and raised the vector to `dep`. It takes no memory.
    pub fn granted(&mut self, row: Option<&Value>, dep: &Lv)
        requires run { IsRun self.old }
        requires running { self.old.standing ≡ Standing.Running }
        requires lock { IsSome (lock_in self.old) }
        ensures locked { (procs : List Proc) (w : ℕ) (l : Key × Mode) → lock_in self.old ≡ Some l → hand_of procs w self.new ≡ locked_with (hand_of procs w self.old) l.0 l.1 (unwrap_or (option_copied row.entry) Value.Absent) dep.now }
        ensures runs { (procs : List Proc) → IsRunBy procs self.old → IsRunBy procs self.new }
        ensures standing { self.new.standing ≡ Standing.Running }
        ensures keeps { (width : ℕ) → length dep.now ≡ width → KeepsHand width self.old → KeepsHand width self.new }
        ensures leaves { self.new.leaves ≡ self.old.leaves }
        ensures bytes { self.new.bytes ≡ self.old.bytes }
    {
        match self.machine.want() {
            Want::Read(key) => {
                let key = *key;
                self.read(key, row, dep)
            }
            Want::Write(key) => {
                let key = *key;
                self.write(key, dep)
            }
            Want::Finished(_) => {}
        }
    }

    /// A read lock was granted.
    fn read(&mut self, key: Key, row: Option<&Value>, dep: &Lv)
        requires run { IsRun self.old }
        requires running { self.old.standing ≡ Standing.Running }
        requires wanted { next_want self.old.machine ≡ Want.Read key }
        ensures locked { (procs : List Proc) (w : ℕ) → hand_of procs w self.new ≡ locked_with (hand_of procs w self.old) key Mode.Read (unwrap_or (option_copied row.entry) Value.Absent) dep.now }
        ensures same { self.new ≡ record self.old { machine = self.new.machine; held = hold key Mode.Read self.old.held; seen = self.new.seen; dep = dep.now } }
        ensures runs { (procs : List Proc) → IsRunBy procs self.old → IsRunBy procs self.new }
    {
        self.dep.copy_from(dep);
        self.see(key, row);
    }

    /// A read lock was granted, which has raised the vector.
    fn see(&mut self, key: Key, row: Option<&Value>)
        requires run { IsRun self.old }
        requires running { self.old.standing ≡ Standing.Running }
        requires wanted { next_want self.old.machine ≡ Want.Read key }
        ensures locked { (procs : List Proc) (w : ℕ) → hand_of procs w self.new ≡ locked_with (hand_of procs w self.old) key Mode.Read (unwrap_or (option_copied row.entry) Value.Absent) self.old.dep }
        ensures same { self.new ≡ record self.old { machine = self.new.machine; held = hold key Mode.Read self.old.held; seen = self.new.seen } }
        ensures runs { (procs : List Proc) → IsRunBy procs self.old → IsRunBy procs self.new }
    {
        take(&mut self.held, key, Mode::Read);
        push_seen(&mut self.seen, key, row);
        self.machine.give_row(row);
        catch_up(&mut self.machine, self.seen.as_slice());
    }

    /// A write lock was granted.
    fn write(&mut self, key: Key, dep: &Lv)
        requires run { IsRun self.old }
        requires running { self.old.standing ≡ Standing.Running }
        requires wanted { next_want self.old.machine ≡ Want.Write key }
        ensures locked { (procs : List Proc) (w : ℕ) (row : Value) → hand_of procs w self.new ≡ locked_with (hand_of procs w self.old) key Mode.Write row dep.now }
        ensures same { self.new ≡ record self.old { machine = self.new.machine; held = hold key Mode.Write self.old.held; seen = self.new.seen; dep = dep.now } }
        ensures runs { (procs : List Proc) → IsRunBy procs self.old → IsRunBy procs self.new }
    {
        self.dep.copy_from(dep);
        self.may_write(key);
    }

    /// A write lock was granted, which has raised the vector.
    fn may_write(&mut self, key: Key)
        requires run { IsRun self.old }
        requires running { self.old.standing ≡ Standing.Running }
        requires wanted { next_want self.old.machine ≡ Want.Write key }
        ensures locked { (procs : List Proc) (w : ℕ) (row : Value) → hand_of procs w self.new ≡ locked_with (hand_of procs w self.old) key Mode.Write row self.old.dep }
        ensures same { self.new ≡ record self.old { machine = self.new.machine; held = hold key Mode.Write self.old.held; seen = self.new.seen } }
        ensures runs { (procs : List Proc) → IsRunBy procs self.old → IsRunBy procs self.new }
    {
        take(&mut self.held, key, Mode::Write);
        self.machine.granted();
    }

    /// Locks the key on the shard for the worker, which raises the vector in place, and takes what the row shows. After a refusal shard and call are as before.
    pub fn lock_on(
        &mut self,
        shard: &mut Shard,
        worker: u8,
        key: Key,
        mode: Mode,
    ) -> Result<(), ShardRefusal>
        requires run { IsRun self.old }
        requires running { self.old.standing ≡ Standing.Running }
        requires wanted { lock_in self.old ≡ Some (key, mode) }
        requires small { worker < MAX_HOLDERS }
        ensures step { OnOk result (HandLocked worker key mode (shard_of shard.old) (shard_of shard.new) self.old self.new) }
        ensures runs { RunsOn (dep_locked mode self.old.dep (entry_in (shard_of shard.old) key)) self.old self.new }
        ensures refused { IfErr result (λ e. RefusedBy (entry_in (shard_of shard.old) key) worker mode e) }
        ensures unchanged { OnErr result (shard_of shard.new ≡ shard_of shard.old) }
        ensures same { OnErr result (self.new ≡ self.old) }
    {
        match mode {
            Mode::Read => self.read_on(shard, worker, key),
            Mode::Write => self.write_on(shard, worker, key),
        }
    }

    fn read_on(&mut self, shard: &mut Shard, worker: u8, key: Key) -> Result<(), ShardRefusal>
        requires run { IsRun self.old }
        requires running { self.old.standing ≡ Standing.Running }
        requires wanted { next_want self.old.machine ≡ Want.Read key }
        requires small { worker < MAX_HOLDERS }
        ensures step { OnOk result (HandLocked worker key Mode.Read (shard_of shard.old) (shard_of shard.new) self.old self.new) }
        ensures runs { RunsOn (dep_locked Mode.Read self.old.dep (entry_in (shard_of shard.old) key)) self.old self.new }
        ensures refused { IfErr result (λ e. RefusedBy (entry_in (shard_of shard.old) key) worker Mode.Read e) }
        ensures unchanged { OnErr result (shard_of shard.new ≡ shard_of shard.old) }
        ensures same { OnErr result (self.new ≡ self.old) }
    {
        match shard.lock_key(worker, key, Mode::Read, &mut self.dep) {
            Ok(()) => {
                self.see(key, shard.row(key));
                Ok(())
            }
            Err(refusal) => Err(refusal),
        }
    }

    fn write_on(&mut self, shard: &mut Shard, worker: u8, key: Key) -> Result<(), ShardRefusal>
        requires run { IsRun self.old }
        requires running { self.old.standing ≡ Standing.Running }
        requires wanted { next_want self.old.machine ≡ Want.Write key }
        requires small { worker < MAX_HOLDERS }
        ensures step { OnOk result (HandLocked worker key Mode.Write (shard_of shard.old) (shard_of shard.new) self.old self.new) }
        ensures runs { RunsOn (dep_locked Mode.Write self.old.dep (entry_in (shard_of shard.old) key)) self.old self.new }
        ensures refused { IfErr result (λ e. RefusedBy (entry_in (shard_of shard.old) key) worker Mode.Write e) }
        ensures unchanged { OnErr result (shard_of shard.new ≡ shard_of shard.old) }
        ensures same { OnErr result (self.new ≡ self.old) }
    {
        match shard.lock_key(worker, key, Mode::Write, &mut self.dep) {
            Ok(()) => {
                self.may_write(key);
                Ok(())
            }
            Err(refusal) => Err(refusal),
        }
    }

    /// The lock was refused: the call has met Busy once more. Whether it stays in hand.
    pub fn busy(&mut self, procs: &Procs) -> bool
        requires run { IsRunBy procs.now self.old }
        requires running { self.old.standing ≡ Standing.Running }
        requires stays { self.old.leaves ≡ false }
        ensures settled { (w : ℕ) (wk : Worker) → worker_in procs.now w wk (kept result self.new) ≡ settled (length self.old.dep) wk (hand_busy (hand_of procs.now w self.old)) }
        ensures runs { IsRunBy procs.now self.new }
        ensures keeps { (width : ℕ) → Shaped width self.old → keeps_in width (kept result self.new) }
        ensures leaves { self.new.leaves ≡ self.old.leaves }
        ensures bytes { self.new.bytes ≡ self.old.bytes }
    {
        self.refused();
        self.settle(procs)
    }

    /// It has met Busy once more.
    fn refused(&mut self)
        requires run { IsRun self.old }
        requires running { self.old.standing ≡ Standing.Running }
        ensures busy { self.new ≡ record self.old { tries = self.old.tries + 1; standing = Standing.Quitting } }
        ensures runs { (procs : List Proc) → IsRunBy procs self.old → IsRunBy procs self.new }
    {
        self.tries += 1;
        self.standing = Standing::Quitting;
    }

    /// Its next action was done, and it is none of those with an answer of their own. Whether it stays in hand.
    pub fn went(&mut self, procs: &Procs) -> bool
        requires run { IsRunBy procs.now self.old }
        requires rest { IsForWent (next_by self.old.standing self.old) }
        ensures quit { (w : ℕ) (wk : Worker) (x : Key) → next_by self.old.standing self.old ≡ Action.Quit x →
            worker_in procs.now w wk (kept result self.new) ≡ settled (length self.old.dep) wk (hand_quit (hand_of procs.now w self.old) x self.old.leaves) }
        ensures freed { (w : ℕ) (x : Key) (write : Option Value) (act : Act Txn) → next_by self.old.standing self.old ≡ Action.Free x write → FreesBy procs.now (joined_by self.old.standing) w (hand_of procs.now w self.old) act →
            shown_of procs.now w (kept result self.new) ≡ Some (hand_freed (hand_joined (hand_of procs.now w self.old) (Freeing act) self.old.dep) x) }
        ensures done { (reply : Reply) (lv : List ℕ) → next_by self.old.standing self.old ≡ Action.Done reply lv → result ≡ false }
        ensures left { next_by self.old.standing self.old ≡ Action.LeftOver → result ≡ false }
        ensures runs { IsRunBy procs.now self.new }
        ensures keeps { (width : ℕ) → KeepsHand width self.old → keeps_in width (kept result self.new) }
        ensures leaves { self.new.leaves ≡ self.old.leaves }
        ensures bytes { self.new.bytes ≡ self.old.bytes }
    {
        match self.standing {
            Standing::Running => {
                if self.leaves {
                    self.give_back(procs)
                } else {
                    self.read_only();
                    self.free_lowest()
                }
            }
            Standing::Quitting => self.give_back(procs),
            Standing::Placed => true,
            Standing::Freeing => self.free_lowest(),
            Standing::LeftOver => false,
        }
    }

    /// Gives the lowest key back. Whether it stays in hand.
    fn give_back(&mut self, procs: &Procs) -> bool
        requires run { IsRunBy procs.now self.old }
        requires leaving { is_leaving self.old.standing self.old.leaves ≡ true }
        ensures settled { (w : ℕ) (wk : Worker) (x : Key) → first_key self.old.held ≡ Some x →
            worker_in procs.now w wk (kept result self.new) ≡ settled (length self.old.dep) wk (hand_quit (hand_of procs.now w self.old) x self.old.leaves) }
        ensures runs { IsRunBy procs.now self.new }
        ensures keeps { (width : ℕ) → Shaped width self.old → keeps_in width (kept result self.new) }
        ensures leaves { self.new.leaves ≡ self.old.leaves }
        ensures bytes { self.new.bytes ≡ self.old.bytes }
    {
        self.quit();
        self.settle(procs)
    }

    /// It is to quit, and holds its lowest key no more.
    fn quit(&mut self)
        requires { is_leaving self.old.standing self.old.leaves ≡ true }
        ensures quit { self.new ≡ record self.old { standing = Standing.Quitting; given_up = self.old.given_up || self.old.leaves; held = without_first self.old.held } }
        ensures runs { (procs : List Proc) → IsRunBy procs self.old → IsRunBy procs self.new }
    {
        leave_first(&mut self.held);
        if self.leaves {
            self.given_up = true;
        }
        self.standing = Standing::Quitting;
    }

    /// Frees the lowest key. Whether it stays in hand, which it does where it held one.
    fn free_lowest(&mut self) -> bool
        requires { self.old.standing ≡ Standing.Freeing }
        ensures stays { result ≡ not (length self.old.held == 0) }
        ensures freed { self.new ≡ record self.old { held = without_first self.old.held } }
        ensures runs { (procs : List Proc) → IsRunBy procs self.old → IsRunBy procs self.new }
    {
        let stays = !self.held.is_empty();
        leave_first(&mut self.held);
        stays
    }

    /// A read-only call ends: from here on it frees its keys.
    fn read_only(&mut self)
        requires running { self.old.standing ≡ Standing.Running }
        requires finished { IsFinished (next_want self.old.machine) }
        requires writes { buffered self.old.machine ≡ [] }
        ensures joined { self.new ≡ record self.old { anchor = 0; stream = 0; start = 0; past = 0; lv = self.old.dep; standing = Standing.Freeing } }
        ensures runs { (procs : List Proc) → IsRunBy procs self.old → IsRunBy procs self.new }
    {
        self.anchor = 0;
        self.stream = 0;
        self.start = 0;
        self.past = 0;
        self.lv.copy_from(&self.dep);
        self.standing = Standing::Freeing;
    }

    /// Raises the vector by an anchor and makes the record. After NoMemory the call is as before.
    pub fn prepare(
        &mut self,
        mode: LogMode,
        anchor_number: u32,
        anchor: &Lv,
    ) -> Result<(), NoMemory>
        requires run { IsRun self.old }
        requires running { self.old.standing ≡ Standing.Running }
        requires finished { IsFinished (next_want self.old.machine) }
        requires writes { 1 ≤ length (buffered self.old.machine) }
        requires width { length anchor.now ≡ length self.old.dep }
        requires few { length self.old.dep ≤ most_streams (format_of mode) }
        ensures raised { OnOk result (self.new ≡ record self.old { dep = join self.old.dep anchor.now; anchor = anchor_number; bytes = self.new.bytes }) }
        ensures bytes { OnOk result ((vectors : List (List ℕ)) → base_of vectors anchor_number ≡ anchor.now → Spells (format_of mode) (length self.old.dep) vectors false (record_of mode self.new) self.new.bytes) }
        ensures unchanged { OnErr result (self.new ≡ self.old) }
        ensures runs { (procs : List Proc) → IsRunBy procs self.old → IsRunBy procs self.new }
        ensures keeps { (width : ℕ) → KeepsHand width self.old → KeepsHand width self.new }
        ensures leaves { self.new.leaves ≡ self.old.leaves }
    {
        if self.dep.covers(anchor) {
            return self.prepare_covering(mode, anchor_number, anchor);
        }
        self.prepare_raised(mode, anchor_number, anchor)
    }

    /// The vector covers that of the anchor, as that of no anchor: it stays, and is not copied.
    fn prepare_covering(
        &mut self,
        mode: LogMode,
        anchor_number: u32,
        anchor: &Lv,
    ) -> Result<(), NoMemory>
        requires run { IsRun self.old }
        requires running { self.old.standing ≡ Standing.Running }
        requires finished { IsFinished (next_want self.old.machine) }
        requires writes { 1 ≤ length (buffered self.old.machine) }
        requires width { length anchor.now ≡ length self.old.dep }
        requires few { length self.old.dep ≤ most_streams (format_of mode) }
        requires covers { AtMost anchor.now self.old.dep }
        ensures raised { OnOk result (self.new ≡ record self.old { anchor = anchor_number; bytes = self.new.bytes }) }
        ensures bytes { OnOk result ((vectors : List (List ℕ)) → base_of vectors anchor_number ≡ anchor.now → Spells (format_of mode) (length self.old.dep) vectors false (record_of mode self.new) self.new.bytes) }
        ensures unchanged { OnErr result (self.new ≡ self.old) }
        ensures runs { (procs : List Proc) → IsRunBy procs self.old → IsRunBy procs self.new }
        ensures keeps { (width : ℕ) → KeepsHand width self.old → KeepsHand width self.new }
        ensures leaves { self.new.leaves ≡ self.old.leaves }
    {
        let mut bytes = self.take_spare();
        self.put_record(&mut bytes, mode, anchor_number, &self.dep, anchor)?;
        self.anchor = anchor_number;
        self.bytes = bytes;
        Ok(())
    }

    /// The vector is raised by that of the anchor.
    fn prepare_raised(
        &mut self,
        mode: LogMode,
        anchor_number: u32,
        anchor: &Lv,
    ) -> Result<(), NoMemory>
        requires run { IsRun self.old }
        requires running { self.old.standing ≡ Standing.Running }
        requires finished { IsFinished (next_want self.old.machine) }
        requires writes { 1 ≤ length (buffered self.old.machine) }
        requires width { length anchor.now ≡ length self.old.dep }
        requires few { length self.old.dep ≤ most_streams (format_of mode) }
        ensures raised { OnOk result (self.new ≡ record self.old { dep = join self.old.dep anchor.now; anchor = anchor_number; bytes = self.new.bytes }) }
        ensures bytes { OnOk result ((vectors : List (List ℕ)) → base_of vectors anchor_number ≡ anchor.now → Spells (format_of mode) (length self.old.dep) vectors false (record_of mode self.new) self.new.bytes) }
        ensures unchanged { OnErr result (self.new ≡ self.old) }
        ensures runs { (procs : List Proc) → IsRunBy procs self.old → IsRunBy procs self.new }
        ensures keeps { (width : ℕ) → KeepsHand width self.old → KeepsHand width self.new }
        ensures leaves { self.new.leaves ≡ self.old.leaves }
    {
        let dep = raise(&self.dep, anchor);
        let mut bytes = self.take_spare();
        self.put_record(&mut bytes, mode, anchor_number, &dep, anchor)?;
        self.dep = dep;
        self.anchor = anchor_number;
        self.bytes = bytes;
        Ok(())
    }

    /// An empty vector, with the memory that was kept for it.
    fn take_spare(&mut self) -> Vec<u8>
        ensures empty { result.items ≡ [] }
        ensures same { self.new ≡ self.old }
    {
        let mut spare = mem::replace(&mut self.spare, Vec::new(self.alloc));
        spare.clear();
        spare
    }

    /// Keeps the memory of a vector for the next record.
    pub fn keep(&mut self, spare: Vec<u8>)
        ensures { self.new ≡ self.old }
    {
        self.spare = spare;
    }

    /// The record of the call, with this vector over that of an anchor, written into an empty vector.
    fn put_record(
        &self,
        out: &mut Vec<u8>,
        mode: LogMode,
        anchor_number: u32,
        dep: &Lv,
        anchor: &Lv,
    ) -> Result<(), NoMemory>
        requires empty { out.old.items ≡ [] }
        requires run { IsRun self.now }
        requires finished { IsFinished (next_want self.now.machine) }
        requires writes { 1 ≤ length (buffered self.now.machine) }
        requires width { length dep.now ≡ length anchor.now }
        requires covers { AtMost anchor.now dep.now }
        requires few { length dep.now ≤ most_streams (format_of mode) }
        ensures { OnOk result ((vectors : List (List ℕ)) → base_of vectors anchor_number ≡ anchor.now →
            Spells (format_of mode) (length dep.now) vectors false (record_of mode (record self.now { dep = dep.now; anchor = anchor_number })) out.new.items) }
    {
        match mode {
            LogMode::Values => encode_written_into(
                out,
                self.number,
                anchor_number,
                dep,
                anchor,
                self.machine.writes(),
            ),
            LogMode::Commands => encode_command_into(
                out,
                self.number,
                anchor_number,
                dep,
                anchor,
                &self.call,
            ),
            LogMode::WideValues => encode_written_wide_into(
                out,
                self.number,
                anchor_number,
                dep,
                anchor,
                self.machine.writes(),
            ),
            LogMode::WideCommands => encode_command_wide_into(
                out,
                self.number,
                anchor_number,
                dep,
                anchor,
                &self.call,
            ),
        }
    }

    /// The record got its place. It takes no memory, and nothing takes any from here on.
    pub fn placed(&mut self, stream: u8, start: u64)
        requires running { self.old.standing ≡ Standing.Running }
        requires finished { IsFinished (next_want self.old.machine) }
        requires writes { 1 ≤ length (buffered self.old.machine) }
        requires stream { stream < length self.old.dep }
        requires small { start + length self.old.bytes < MAX_LSN }
        ensures placed { (procs : List Proc) (w : ℕ) → hand_of procs w self.new ≡ hand_joined (hand_of procs w self.old) (Placed (placed_act procs w stream start self.old)) self.old.dep }
        ensures same { self.new ≡ record self.old { stream = stream; start = start; past = start + length self.old.bytes; lv = self.new.lv; standing = Standing.Placed } }
        ensures runs { (procs : List Proc) → IsRunBy procs self.old → IsRunBy procs self.new }
        ensures keeps { (width : ℕ) → KeepsHand width self.old → KeepsHand width self.new }
    {
        self.stream = stream;
        self.start = start;
        self.past = start + self.bytes.len() as u64;
        put_placed(&mut self.lv, &self.dep, usize::from(stream), self.past);
        self.standing = Standing::Placed;
    }

    /// The bytes of the record, to post. From here on the call frees its keys. It takes no memory.
    pub fn take_bytes(&mut self) -> Vec<u8>
        requires { self.old.standing ≡ Standing.Placed }
        ensures bytes { result.items ≡ self.old.bytes }
        ensures posted { (procs : List Proc) (w : ℕ) → hand_of procs w self.new ≡ record (hand_of procs w self.old) { phase = Freeing (act_in procs w self.old) } }
        ensures same { self.new ≡ record self.old { standing = Standing.Freeing; bytes = [] } }
        ensures runs { (procs : List Proc) → IsRunBy procs self.old → IsRunBy procs self.new }
        ensures keeps { (width : ℕ) → KeepsHand width self.old → KeepsHand width self.new }
    {
        self.standing = Standing::Freeing;
        mem::replace(&mut self.bytes, Vec::new(self.alloc))
    }

    /// What becomes of a call that is to quit, once it has given a key back or met Busy: whether it stays in hand.
    fn settle(&mut self, procs: &Procs) -> bool
        requires run { IsRunBy procs.now self.old }
        requires quitting { self.old.standing ≡ Standing.Quitting }
        requires given_up { self.old.leaves ≡ true → self.old.given_up ≡ true }
        ensures settled { (w : ℕ) (wk : Worker) → worker_in procs.now w wk (kept result self.new) ≡ settled (length self.old.dep) wk (hand_of procs.now w self.old) }
        ensures runs { IsRunBy procs.now self.new }
        ensures keeps { (width : ℕ) → Shaped width self.old → keeps_in width (kept result self.new) }
        ensures leaves { self.new.leaves ≡ self.old.leaves }
        ensures bytes { self.new.bytes ≡ self.old.bytes }
    {
        if !self.held.is_empty() {
            return true;
        }
        if self.given_up {
            return false;
        }
        if usize::from(self.tries) == MAX_TRIES {
            self.standing = Standing::LeftOver;
        } else {
            self.restart(procs);
        }
        true
    }

    /// The call begins, or begins again, with the zero vector. It takes no memory.
    fn restart(&mut self, procs: &Procs)
        requires takes { IsTrue (takes procs.now self.old.call) }
        requires number { 1 ≤ self.old.number }
        requires tries { self.old.tries < MAX_TRIES }
        requires given_up { self.old.given_up ≡ false }
        requires held { self.old.held ≡ [] }
        ensures same { self.new ≡ record self.old { machine = self.new.machine; seen = []; dep = replicate (length self.old.dep) 0; standing = Standing.Running } }
        ensures begun { (w : ℕ) → hand_of procs.now w self.new ≡ fresh (length self.old.dep) (record { number = self.old.number; call = self.old.call }) self.old.tries }
        ensures runs { IsRunBy procs.now self.new }
    {
        let width = self.dep.width();
        self.dep.set_zero(width);
        self.run_anew(procs);
    }

    /// The call begins, or begins again, whose vector is zero. It takes no memory.
    fn run_anew(&mut self, procs: &Procs)
        requires takes { IsTrue (takes procs.now self.old.call) }
        requires number { 1 ≤ self.old.number }
        requires tries { self.old.tries < MAX_TRIES }
        requires given_up { self.old.given_up ≡ false }
        requires held { self.old.held ≡ [] }
        requires zero { self.old.dep ≡ replicate (length self.old.dep) 0 }
        ensures same { self.new ≡ record self.old { machine = self.new.machine; seen = []; standing = Standing.Running } }
        ensures begun { (w : ℕ) → hand_of procs.now w self.new ≡ fresh (length self.old.dep) (record { number = self.old.number; call = self.old.call }) self.old.tries }
        ensures runs { IsRunBy procs.now self.new }
    {
        let _limits = procs.list();
        self.machine.restart(procs, &self.call);
        clear_seen(&mut self.seen);
        self.standing = Standing::Running;
    }
}

/// The lock that is wanted.
fn lock_of(want: &Want) -> Option<(Key, Mode)>
    ensures { result ≡ lock_by want.now }
{
    match want {
        Want::Read(key) => Some((*key, Mode::Read)),
        Want::Write(key) => Some((*key, Mode::Write)),
        Want::Finished(_) => None,
    }
}

/// The lowest key that is held.
fn lowest(held: &[(Key, Mode)]) -> Option<Key>
    ensures { result ≡ first_key held.now }
{
    match held.first() {
        Some(entry) => Some(entry.0),
        None => None,
    }
}

/// Forgets what was seen. A single value is taken out in place.
fn clear_seen(seen: &mut ArrayVec<(Key, Value), MAX_STEPS>)
    ensures { seen.new.items ≡ [] }
{
    if seen.len() == 1 {
        let _only = seen.pop();
        return;
    }
    seen.clear();
}

/// Puts a key at the end with the value of its row, Absent where there is none.
fn push_seen(seen: &mut ArrayVec<(Key, Value), MAX_STEPS>, key: Key, row: Option<&Value>)
    requires { array_vec_len seen.old < MAX_STEPS }
    ensures { seen.new.items ≡ seen.old.items ++ (key, unwrap_or (option_copied row.entry) Value.Absent) ∷ [] }
{
    match row {
        Some(value) => push_value(seen, key, value),
        None => seen.push((key, Value::Absent)),
    }
}

/// Puts a key at the end with a value that is lent. A whole number is not moved through a place of its own, a text apart.
fn push_value(seen: &mut ArrayVec<(Key, Value), MAX_STEPS>, key: Key, value: &Value)
    requires { array_vec_len seen.old < MAX_STEPS }
    ensures { seen.new.items ≡ seen.old.items ++ (key, value.now) ∷ [] }
{
    match value {
        Value::Absent => seen.push((key, Value::Absent)),
        Value::Int(number) => seen.push((key, Value::Int(*number))),
        Value::Text(text) => push_text(seen, key, text),
    }
}

#[inline(never)]
fn push_text(seen: &mut ArrayVec<(Key, Value), MAX_STEPS>, key: Key, text: &Text64)
    requires { array_vec_len seen.old < MAX_STEPS }
    ensures { seen.new.items ≡ seen.old.items ++ (key, Value.Text text.now) ∷ [] }
{
    seen.push((key, Value::Text(text.copied())));
}

/// The vector with the end of the record in its stream.
fn put_placed(lv: &mut Lv, dep: &Lv, stream: usize, past: u64)
    requires there { stream < length dep.now }
    requires small { past < MAX_LSN }
    ensures { lv.new ≡ slice_set dep.now stream past }
{
    lv.copy_from(dep);
    lv.set(stream, past);
}

/// Gives the lowest key back.
fn quits(held: &[(Key, Mode)]) -> Action
    ensures { result ≡ quits held.now }
{
    match held.first() {
        Some(entry) => Action::Quit { key: entry.0 },
        None => Action::Nothing,
    }
}

/// Whether it has a key to give back.
fn kind_of_quits(held: &[(Key, Mode)]) -> ActionKind
    ensures { result ≡ kind_of (quits held.now) }
{
    match held.first() {
        Some(_) => ActionKind::Quit,
        None => ActionKind::Nothing,
    }
}

/// Whether it has a key to free.
fn kind_of_frees(held: &[(Key, Mode)]) -> ActionKind
    ensures { (reply : Reply) (lv : List ℕ) (writes : List (Key × Value)) → result ≡ kind_of (frees reply lv writes held.now) }
{
    match held.first() {
        Some(_) => ActionKind::Free,
        None => ActionKind::Done,
    }
}

/// Frees the lowest key.
fn frees(held: &[(Key, Mode)], writes: &[(Key, Value)], reply: &Reply, lv: &Lv) -> Action
    ensures { result ≡ frees reply.now lv.now writes.now held.now }
{
    match held.first() {
        Some(entry) => Action::Free {
            key: entry.0,
            write: value_at(entry.0, writes),
        },
        None => Action::Done {
            reply: reply.copied(),
            lv: *lv,
        },
    }
}

/// Gives the machine each value that it wants again.
fn catch_up(machine: &mut Course, seen: &[(Key, Value)])
    ensures follows { (procs : List Proc) (c : Call) → Follows procs c seen.now machine.old → Follows procs c seen.now machine.new }
    ensures unseen { WantsUnseen seen.now (ahead machine.new []) }
    ensures granted { machine.new.granted ≡ machine.old.granted }
{
    while let Want::Read(key) = machine.want() {
        let key = *key;
        match lent_at(key, seen) {
            Some(value) => machine.give(value),
            None => return,
        }
    }
}

//! A worker's calls, one at a time.
ghost use Rattle.std.specs.Prelude.{◌≡◌, ◌<◌, ◌≤◌, ◌+◌, ◌-◌, ◌++◌, ◌∷◌, [], List, ℕ, Option, Some, None, false, true, length, is_some, IsTrue, IsSome, IfSome, IfNone, IfErr, OnOk, OnErr};
ghost use Rattle.std.specs.Option.{option_copied, unwrap_or};
ghost use Rattle.tau_base.specs.Modes.{format_of, most_streams};
ghost use Rattle.tau_base.specs.Vectors.{join};
ghost use Rattle.tau_base.specs.declared.limits.TheConstants.{MAX_LSN};
ghost use Rattle.tau_base.specs.declared.value.Key.{Key};
ghost use Rattle.tau_base.specs.declared.value.Mode.{Mode};
ghost use Rattle.tau_base.specs.declared.value.Value.{Value};
ghost use Rattle.tau_proc.specs.declared.proc.Proc.{Proc};
ghost use Rattle.tau_proc.specs.declared.reply.Reply.{Reply};
ghost use Rattle.tau_proc.specs.Takes.{takes};
ghost use Rattle.tau_record.specs.Record.{base_of, Spells};
ghost use Rattle.tau_model.specs.History.{Act};
ghost use Rattle.tau_machine.specs.Stage.{stage};
ghost use Rattle.tau_machine.specs.Worker.{Worker, lock_of, fresh, settled, hand_busy, hand_quit, hand_joined, hand_freed};
ghost use Rattle.tau_machine.specs.Hands as theory;
ghost use Rattle.tau_machine.specs.Hands.{Placed, Freeing, act_of, lv_of, committed_of};
ghost use Rattle.tau_txn.specs.Actions.{action_of};
ghost use Rattle.tau_txn.specs.Narrow.{lock_at, quit_at, free_at, left_over_at, written_in, listed};
ghost use Rattle.tau_txn.specs.Next.{next_action, kind_of, Means, Locks, Quits, Frees, IsLeftOver, IsLock, IsCommit, IsForWent, FreesBy, Reads, act_at, lock_by};
ghost use Rattle.tau_txn.specs.Record.{entry_of, kept_of};
ghost use Rattle.tau_txn.specs.Steps.{locked_with};
ghost use Rattle.tau_shard.specs.Blocks.{RefusedBy, dep_locked};
ghost use Rattle.tau_shard.specs.Read.{shard_of};
ghost use Rattle.tau_shard.specs.Shard.{entry_in};
ghost use Rattle.tau_txn.specs.Locked.{TxnLocked};
ghost use Rattle.tau_txn.specs.Txn.{hand_in, worker_of, RunsBy, number_in, dep_in, anchor_in, bytes_in, leaves_in, held_in, lv_in, has_joined};

use crate::action::{Action, ActionKind};
use crate::course::first_want;
use crate::hand::Hand;
use std::alloc::Global;
use std::marker::Model;
use tau_base::{Call, KeptCall, Key, LogMode, Lv, MAX_HOLDERS, Mode, NoMemory, Value, stream_of};
use tau_model::{Committed, CommittedList};
use tau_proc::{Procs, Want};
use tau_shard::{Shard, ShardRefusal};

/// A worker with the call in its hand. It runs its calls one at a time.
#[derive(Drop)]
pub struct Txn {
    worker: u8,
    streams: usize,
    mode: LogMode,
    hand: Hand,
    in_hand: bool,
}

impl Model for Txn {
    ghost use Rattle.tau_txn.specs.Txn.{PlainTxn};
    ghost use Rattle.tau_txn.specs.Kept.{Keeps, kept};

    ghost Value = { PlainTxn };

    ghost view = { λ t. record { worker = t.worker; width = t.streams; mode = t.mode; hand = kept t.in_hand t.hand } };

    ghost invariant = { λ t. Keeps (record { worker = t.worker; width = t.streams; mode = t.mode; hand = kept t.in_hand t.hand }) };
}

impl Txn {
    /// A worker of a run with so many streams, which the format of the mode has room for, with no call in hand.
    pub fn new(alloc: Global, worker: u8, streams: usize, mode: LogMode) -> Txn
        requires low { 1 ≤ streams }
        requires high { streams ≤ most_streams (format_of mode) }
        ensures { result ≡ record { worker = worker; width = streams; mode = mode; hand = None } }
    {
        Txn {
            worker,
            streams,
            mode,
            hand: Hand::new(alloc, streams),
            in_hand: false,
        }
    }

    /// Takes a call into its hand. It takes no memory.
    pub fn begin(&mut self, procs: &Procs, number: u64, call: &KeptCall)
        requires resting { self.old.hand ≡ None }
        requires takes { IsTrue (takes procs.now call.now) }
        requires number { 1 ≤ number }
        ensures begun { hand_in procs.now self.new ≡ Some (fresh self.old.width (record { number = number; call = call.now }) 0) }
        ensures runs { RunsBy procs.now self.new }
        ensures stays { leaves_in self.new ≡ false }
        ensures bytes { bytes_in self.new ≡ [] }
        ensures same { self.new ≡ record self.old { hand = self.new.hand } }
    {
        self.hand.begin(procs, number, call, self.streams);
        self.in_hand = true;
    }

    /// What the call in hand does next; the same until it is answered. Nothing where no call is in hand. The size of a Commit is 0
    /// before `prepare` has made the record.
    pub fn turn(&self) -> Action
        ensures asked { result ≡ next_action self.now }
        ensures next { (procs : List Proc) (hand : theory.Hand) → RunsBy procs self.now → hand_in procs self.now ≡ Some hand →
            result ≡ action_of procs self.now.worker (leaves_in self.now) (length (bytes_in self.now)) hand }
        ensures means { (procs : List Proc) → RunsBy procs self.now → Means procs self.now result }
    {
        if !self.in_hand {
            return Action::Nothing;
        }
        self.hand.turn()
    }

    /// The kind of the next action, which copies nothing; and what that action means.
    pub fn kind(&self) -> ActionKind
        ensures kind { result ≡ kind_of (next_action self.now) }
        ensures means { (procs : List Proc) → RunsBy procs self.now → Means procs self.now (next_action self.now) }
    {
        if !self.in_hand {
            return ActionKind::Nothing;
        }
        self.hand.kind()
    }

    /// What the next action means; it does nothing.
    #[inline(always)]
    pub fn means(&self)
        ensures { (procs : List Proc) → RunsBy procs self.now → Means procs self.now (next_action self.now) }
    {
        if !self.in_hand {
            return;
        }
        self.hand.ascends();
    }

    /// How many bytes the record of the call in hand has, 0 while there is no record.
    pub fn record_size(&self) -> u64
        ensures { result ≡ length (bytes_in self.now) }
    {
        if !self.in_hand {
            return 0;
        }
        self.hand.record_size()
    }

    /// The lock that is the next action. It copies nothing else.
    pub fn lock_asked(&self) -> Option<(Key, Mode)>
        ensures asked { result ≡ lock_at (next_action self.now) }
        ensures next { IfSome result (λ l. next_action self.now ≡ Action.Lock l.0 l.1) }
        ensures means { (procs : List Proc) → RunsBy procs self.now → IfSome result (λ l. Locks procs self.now l.0 l.1) }
        ensures other { IfNone result ((x : Key) (m : Mode) → next_action self.now ≡ Action.Lock x m → ⊥) }
        ensures hand { IsSome result → is_some self.now.hand ≡ true }
    {
        if !self.in_hand {
            return None;
        }
        self.hand.lock_asked()
    }

    /// The key that the next action gives back.
    pub fn quit_asked(&self) -> Option<Key>
        ensures asked { result ≡ quit_at (next_action self.now) }
        ensures next { IfSome result (λ x. next_action self.now ≡ Action.Quit x) }
        ensures means { (procs : List Proc) → RunsBy procs self.now → IfSome result (λ x. Quits procs self.now x) }
        ensures other { IfNone result ((x : Key) → next_action self.now ≡ Action.Quit x → ⊥) }
        ensures hand { IsSome result → is_some self.now.hand ≡ true }
    {
        if !self.in_hand {
            return None;
        }
        self.hand.quit_asked()
    }

    /// The key that the next action frees. `written_at` has what the call wrote there.
    pub fn free_asked(&self) -> Option<Key>
        ensures asked { result ≡ free_at (next_action self.now) }
        ensures next { IfSome result (λ x. next_action self.now ≡ Action.Free x (written_in self.now x)) }
        ensures means { (procs : List Proc) → RunsBy procs self.now → IfSome result (λ x. Frees procs self.now x (written_in self.now x)) }
        ensures other { IfNone result ((x : Key) (write : Option Value) → next_action self.now ≡ Action.Free x write → ⊥) }
        ensures hand { IsSome result → is_some self.now.hand ≡ true }
    {
        if !self.in_hand {
            return None;
        }
        self.hand.free_asked()
    }

    /// What the call in hand wrote at this key so far, lent.
    pub fn written_at(&self, key: Key) -> Option<&Value>
        ensures { option_copied result ≡ written_in self.now key }
    {
        if !self.in_hand {
            return None;
        }
        self.hand.written_at(key)
    }

    /// Whether the next action is that the call is left over.
    pub fn is_left_over(&self) -> bool
        ensures asked { result ≡ left_over_at (next_action self.now) }
        ensures next { result ≡ true → next_action self.now ≡ Action.LeftOver }
        ensures means { (procs : List Proc) → RunsBy procs self.now → result ≡ true → IsLeftOver procs self.now }
        ensures other { result ≡ false → next_action self.now ≡ Action.LeftOver → ⊥ }
    {
        if !self.in_hand {
            return false;
        }
        self.hand.is_left_over()
    }

    /// The lock was granted, as for `granted`, with the row and the vector lent; no row is one that is Absent. It takes no memory.
    pub fn granted_by(&mut self, row: Option<&Value>, dep: &Lv)
        requires lock { IsLock (next_action self.old) }
        requires wide { length dep.now ≡ self.old.width }
        ensures locked { (procs : List Proc) (hand : theory.Hand) (x : Key) (m : Mode) → RunsBy procs self.old → next_action self.old ≡ Action.Lock x m → hand_in procs self.old ≡ Some hand →
            hand_in procs self.new ≡ Some (locked_with hand x m (unwrap_or (option_copied row.entry) Value.Absent) dep.now) }
        ensures runs { (procs : List Proc) → RunsBy procs self.old → RunsBy procs self.new }
        ensures stays { leaves_in self.old ≡ false → leaves_in self.new ≡ false }
        ensures bytes { bytes_in self.old ≡ [] → bytes_in self.new ≡ [] }
        ensures same { self.new ≡ record self.old { hand = self.new.hand } }
    {
        if !self.in_hand {
            unreachable!()
        }
        self.hand.granted(row, dep);
    }

    /// Locks on the shard, for the worker, the key that is the next action, as `lock_key`, and takes the lock as granted: the vector is raised in place, the row is lent, and looked up only for a read lock. After a refusal shard and call are as before.
    pub fn lock_on(
        &mut self,
        shard: &mut Shard,
        worker: u8,
        key: Key,
        mode: Mode,
    ) -> Result<(), ShardRefusal>
        requires lock { next_action self.old ≡ Action.Lock key mode }
        requires wide { length (dep_locked mode (dep_in self.old) (entry_in (shard_of shard.old) key)) ≡ self.old.width }
        requires small { worker < MAX_HOLDERS }
        ensures step { OnOk result (TxnLocked worker key mode (shard_of shard.old) (shard_of shard.new) self.old self.new) }
        ensures refused { IfErr result (λ e. RefusedBy (entry_in (shard_of shard.old) key) worker mode e) }
        ensures unchanged { OnErr result (shard_of shard.new ≡ shard_of shard.old) }
        ensures as_before { OnErr result (self.new ≡ self.old) }
        ensures runs { (procs : List Proc) → RunsBy procs self.old → RunsBy procs self.new }
        ensures stays { leaves_in self.old ≡ false → leaves_in self.new ≡ false }
        ensures bytes { bytes_in self.old ≡ [] → bytes_in self.new ≡ [] }
        ensures same { self.new ≡ record self.old { hand = self.new.hand } }
    {
        self.hand.lock_on(shard, worker, key, mode)
    }

    /// The lock was granted: the row that it showed, and the vector that it raised. It takes no memory.
    pub fn granted(&mut self, value: Value, dep: Lv)
        requires lock { IsLock (next_action self.old) }
        requires wide { length dep ≡ self.old.width }
        ensures locked { (procs : List Proc) (hand : theory.Hand) (x : Key) (m : Mode) → RunsBy procs self.old → next_action self.old ≡ Action.Lock x m → hand_in procs self.old ≡ Some hand →
            hand_in procs self.new ≡ Some (locked_with hand x m value dep) }
        ensures runs { (procs : List Proc) → RunsBy procs self.old → RunsBy procs self.new }
        ensures stays { leaves_in self.old ≡ false → leaves_in self.new ≡ false }
        ensures bytes { bytes_in self.old ≡ [] → bytes_in self.new ≡ [] }
        ensures same { self.new ≡ record self.old { hand = self.new.hand } }
    {
        self.granted_by(Some(&value), &dep);
    }

    /// The lock was refused, since a worker holds the key. The procedures are those of `begin`. It takes no memory.
    pub fn busy(&mut self, procs: &Procs, _holder: u8)
        requires lock { IsLock (next_action self.old) }
        requires run { RunsBy procs.now self.old }
        ensures busy { (wk : Worker) (hand : theory.Hand) → hand_in procs.now self.old ≡ Some hand → worker_of procs.now wk self.new ≡ settled self.old.width wk (hand_busy hand) }
        ensures runs { RunsBy procs.now self.new }
        ensures stays { leaves_in self.old ≡ false → leaves_in self.new ≡ false }
        ensures bytes { bytes_in self.old ≡ [] → bytes_in self.new ≡ [] }
        ensures same { self.new ≡ record self.old { hand = self.new.hand } }
    {
        if !self.in_hand {
            unreachable!()
        }
        self.in_hand = self.hand.busy(procs);
    }

    /// Raises the call's vector by that of an anchor, or by zero where the number is 0, and makes the record. After NoMemory the call is
    /// as before.
    pub fn prepare(&mut self, anchor_number: u32, anchor: &Lv) -> Result<(), NoMemory>
        requires commit { IsCommit (next_action self.old) }
        requires wide { length anchor.now ≡ self.old.width }
        ensures raised { OnOk result ((procs : List Proc) (hand : theory.Hand) → hand_in procs self.old ≡ Some hand → hand_in procs self.new ≡ Some (record hand { dep = join hand.dep anchor.now })) }
        ensures anchor { OnOk result (anchor_in self.new ≡ anchor_number) }
        ensures next { OnOk result (next_action self.new ≡ Action.Commit (length (bytes_in self.new))) }
        ensures sized { OnOk result (1 ≤ length (bytes_in self.new)) }
        ensures bytes { OnOk result ((procs : List Proc) (hand : theory.Hand) (start : ℕ) (vectors : List (List ℕ)) → RunsBy procs self.old → hand_in procs self.new ≡ Some hand → base_of vectors anchor_number ≡ anchor.now →
            Spells (format_of self.old.mode) self.old.width vectors false (entry_of self.old.mode (act_at procs self.new start hand)) (bytes_in self.new)) }
        ensures runs { (procs : List Proc) → RunsBy procs self.old → RunsBy procs self.new }
        ensures stays { leaves_in self.old ≡ false → leaves_in self.new ≡ false }
        ensures same { self.new ≡ record self.old { hand = self.new.hand } }
        ensures unchanged { OnErr result (self.new ≡ self.old) }
    {
        let mode = self.mode;
        if !self.in_hand {
            unreachable!()
        }
        self.hand.prepare(mode, anchor_number, anchor)
    }

    /// The record got its place in the worker's stream. It takes no memory, and nothing takes any from here on.
    pub fn placed(&mut self, start: u64)
        requires commit { IsCommit (next_action self.old) }
        requires sized { 1 ≤ length (bytes_in self.old) }
        requires small { start + length (bytes_in self.old) < MAX_LSN }
        ensures placed { (procs : List Proc) (hand : theory.Hand) → RunsBy procs self.old → hand_in procs self.old ≡ Some hand →
            hand_in procs self.new ≡ Some (hand_joined hand (Placed (act_at procs self.old start hand)) hand.dep) }
        ensures bytes { bytes_in self.new ≡ bytes_in self.old }
        ensures runs { (procs : List Proc) → RunsBy procs self.old → RunsBy procs self.new }
        ensures stays { leaves_in self.old ≡ false → leaves_in self.new ≡ false }
        ensures same { self.new ≡ record self.old { hand = self.new.hand } }
    {
        let stream = stream_of(usize::from(self.worker), self.streams);
        if !self.in_hand {
            unreachable!()
        }
        self.hand.placed(stream as u8, start);
    }

    /// The bytes of the record, to post. It takes no memory.
    pub fn take_bytes(&mut self) -> Vec<u8>
        requires { next_action self.old ≡ Action.Post }
        ensures bytes { result.items ≡ bytes_in self.old }
        ensures posted { (procs : List Proc) (hand : theory.Hand) (act : Act theory.Txn) → RunsBy procs self.old → hand_in procs self.old ≡ Some hand → hand.phase ≡ Placed act →
            hand_in procs self.new ≡ Some (record hand { phase = Freeing act }) }
        ensures runs { (procs : List Proc) → RunsBy procs self.old → RunsBy procs self.new }
        ensures stays { leaves_in self.old ≡ false → leaves_in self.new ≡ false }
        ensures same { self.new ≡ record self.old { hand = self.new.hand } }
    {
        if !self.in_hand {
            unreachable!()
        }
        self.hand.take_bytes()
    }

    /// Keeps the memory of a vector for the record of a call to come.
    pub fn keep(&mut self, spare: Vec<u8>)
        ensures { self.new ≡ self.old }
    {
        self.hand.keep(spare);
    }

    /// The next action was done: a Quit, a Free, a Done or a LeftOver. The procedures are those of `begin`. It takes no memory.
    pub fn went(&mut self, procs: &Procs)
        requires rest { IsForWent (next_action self.old) }
        requires run { RunsBy procs.now self.old }
        ensures quit { (wk : Worker) (hand : theory.Hand) (x : Key) → next_action self.old ≡ Action.Quit x → hand_in procs.now self.old ≡ Some hand →
            worker_of procs.now wk self.new ≡ settled self.old.width wk (hand_quit hand x (leaves_in self.old)) }
        ensures freed { (hand : theory.Hand) (act : Act theory.Txn) (x : Key) (write : Option Value) → next_action self.old ≡ Action.Free x write → hand_in procs.now self.old ≡ Some hand →
            FreesBy procs.now (has_joined self.old) self.old.worker hand act → hand_in procs.now self.new ≡ Some (hand_freed (hand_joined hand (Freeing act) hand.dep) x) }
        ensures done { (reply : Reply) (lv : List ℕ) → next_action self.old ≡ Action.Done reply lv → self.new.hand ≡ None }
        ensures left { next_action self.old ≡ Action.LeftOver → self.new.hand ≡ None }
        ensures nothing { next_action self.old ≡ Action.Nothing → self.new ≡ self.old }
        ensures runs { RunsBy procs.now self.new }
        ensures stays { leaves_in self.old ≡ false → leaves_in self.new ≡ false }
        ensures bytes { bytes_in self.old ≡ [] → bytes_in self.new ≡ [] }
        ensures same { self.new ≡ record self.old { hand = self.new.hand } }
    {
        if !self.in_hand {
            return;
        }
        self.in_hand = self.hand.went(procs);
    }

    /// From now on the call only gives its keys back, and then it is in hand no more. It takes no memory.
    pub fn give_up(&mut self)
        requires { has_joined self.old ≡ false }
        ensures held { (procs : List Proc) → 1 ≤ length (held_in self.old) → hand_in procs self.new ≡ hand_in procs self.old }
        ensures leaves { 1 ≤ length (held_in self.old) → leaves_in self.new ≡ true }
        ensures gone { held_in self.old ≡ [] → self.new.hand ≡ None }
        ensures runs { (procs : List Proc) → RunsBy procs self.old → RunsBy procs self.new }
        ensures same { self.new ≡ record self.old { hand = self.new.hand } }
    {
        if !self.in_hand {
            return;
        }
        self.in_hand = self.hand.give_up();
    }

    /// Whether a call is in hand.
    pub fn in_hand(&self) -> bool
        ensures { result ≡ is_some self.now.hand }
    {
        self.in_hand
    }

    /// Whether the call in hand holds a key.
    pub fn holds_key(&self) -> bool
        ensures some { result ≡ true → 1 ≤ length (held_in self.now) }
        ensures none { result ≡ false → held_in self.now ≡ [] }
    {
        if !self.in_hand {
            return false;
        }
        self.hand.holds_key()
    }

    /// The number of the call in hand.
    pub fn number(&self) -> Option<u64>
        ensures { result ≡ number_in self.now }
    {
        if !self.in_hand {
            return None;
        }
        Some(self.hand.number())
    }

    /// The vector of the call in hand so far, without its own record; zero where none is in hand.
    pub fn dep(&self) -> Lv
        ensures dep { result ≡ dep_in self.now }
        ensures wide { length result ≡ self.now.width }
    {
        if !self.in_hand {
            return Lv::zero(self.streams);
        }
        *self.hand.dep()
    }

    /// The same vector, lent, where a call is in hand.
    pub fn dep_ref(&self) -> &Lv
        requires { is_some self.now.hand ≡ true }
        ensures dep { result.now ≡ dep_in self.now }
        ensures wide { length result.now ≡ self.now.width }
    {
        self.hand.dep()
    }

    /// The vector with which the call in hand frees its keys: its own, once its record has its place, before that the one so far; zero
    /// where none is in hand.
    pub fn lv(&self) -> Lv
        ensures lv { result ≡ lv_in self.now }
        ensures frees { (procs : List Proc) (hand : theory.Hand) (act : Act theory.Txn) → RunsBy procs self.now → hand_in procs self.now ≡ Some hand → FreesBy procs (has_joined self.now) self.now.worker hand act → result ≡ lv_of act }
    {
        if !self.in_hand {
            return Lv::zero(self.streams);
        }
        *self.hand.lv()
    }

    /// The same vector, lent, where a call is in hand.
    pub fn lv_ref(&self) -> &Lv
        requires { is_some self.now.hand ≡ true }
        ensures lv { result.now ≡ lv_in self.now }
        ensures frees { (procs : List Proc) (hand : theory.Hand) (act : Act theory.Txn) → RunsBy procs self.now → hand_in procs self.now ≡ Some hand → FreesBy procs (has_joined self.now) self.now.worker hand act → result.now ≡ lv_of act }
    {
        self.hand.lv()
    }

    /// Whether the call in hand has joined the committed ones: its record has its place, or it is read-only and has freed a key.
    pub fn has_joined(&self) -> bool
        ensures { result ≡ has_joined self.now }
    {
        if !self.in_hand {
            return false;
        }
        self.hand.has_joined()
    }

    /// What is kept of the call in hand once it has joined the committed ones, and before that where it is read-only and has finished.
    pub fn committed(&self) -> Option<Committed>
        ensures kept { result ≡ kept_of self.now.hand }
        ensures joined { (procs : List Proc) (hand : theory.Hand) (act : Act theory.Txn) → RunsBy procs self.now → hand_in procs self.now ≡ Some hand → act_of hand.phase ≡ Some act → result ≡ Some (committed_of act) }
        ensures reading { (procs : List Proc) (hand : theory.Hand) (act : Act theory.Txn) → RunsBy procs self.now → hand_in procs self.now ≡ Some hand → Reads procs self.now.worker hand act → result ≡ Some (committed_of act) }
    {
        if !self.in_hand {
            return None;
        }
        self.hand.committed()
    }

    /// Appends what is kept of the call in hand, as `committed` answers it; nothing where that is nothing. It takes no memory.
    pub fn commit_into(&self, out: &mut CommittedList)
        requires room { 1 ≤ out.old.room }
        ensures kept { out.new.items ≡ out.old.items ++ listed (kept_of self.now.hand) }
        ensures joined { (procs : List Proc) (hand : theory.Hand) (act : Act theory.Txn) → RunsBy procs self.now → hand_in procs self.now ≡ Some hand → act_of hand.phase ≡ Some act → out.new.items ≡ out.old.items ++ committed_of act ∷ [] }
        ensures reading { (procs : List Proc) (hand : theory.Hand) (act : Act theory.Txn) → RunsBy procs self.now → hand_in procs self.now ≡ Some hand → Reads procs self.now.worker hand act → out.new.items ≡ out.old.items ++ committed_of act ∷ [] }
        ensures room { out.old.room ≤ out.new.room + 1 }
    {
        if !self.in_hand {
            return;
        }
        self.hand.commit_into(out);
    }

    /// The number of the call in hand with the lock that is its next action. None exactly where its next action is none.
    pub fn next_lock(&self) -> Option<(u64, Key, Mode)>
        ensures { result ≡ lock_by (number_in self.now) (next_action self.now) }
    {
        let number = self.number()?;
        match self.lock_asked() {
            Some((key, mode)) => Some((number, key, mode)),
            None => None,
        }
    }

    /// The lock that is the first action of a call that has not begun. None exactly where its first action is none.
    pub fn first_lock(procs: &Procs, call: &Call) -> Option<(Key, Mode)>
        requires { IsTrue (takes procs.now call.now) }
        ensures { result ≡ lock_of (stage procs.now call.now []) [] }
    {
        match first_want(procs, call) {
            Want::Read(key) => Some((key, Mode::Read)),
            Want::Write(key) => Some((key, Mode::Write)),
            Want::Finished(_) => None,
        }
    }
}

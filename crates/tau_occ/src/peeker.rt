//! A call that runs on peeked values.
ghost use Rattle.std.specs.Prelude.{◌≡◌, ◌≤◌, ◌∷◌, ◌++◌, ◌↔◌, [], List, length, IfSome, IfNone, IsTrue, OnErr, OnOk, None, Ok, Some};
ghost use Rattle.std.specs.Map.{lookup};
ghost use Rattle.std.specs.Option.{option_copied, unwrap_or};
ghost use Rattle.tau_base.specs.Database.{same_key};
ghost use Rattle.tau_base.specs.declared.limits.TheConstants.{MAX_STEPS};
ghost use Rattle.tau_machine.specs.Stage.{stage};
ghost use Rattle.tau_occ.specs.Peeker.{HasEnded, IsPeeking, PlainPeeker, blank_peeker, wanted_of};
ghost use Rattle.tau_proc.specs.Progress.{ahead};
ghost use Rattle.tau_proc.specs.Stage.{Wants};
ghost use Rattle.tau_proc.specs.Takes.{takes};
ghost use Rattle.tau_proc.specs.declared.proc.Proc.{Proc};
ghost use Rattle.tau_txn.specs.Progress.{Follows};

use std::alloc::Global;
use std::marker::Model;
use tau_base::{Call, Key, NoMemory, Value};
use tau_proc::{Machine, Procs, Want};

/// A call that runs on the values that its worker has peeked, each key once.
///
/// The memory of the values is kept from call to call; a call peeks at most 64 of them.
#[derive(Drop)]
pub struct Peeker {
    machine: Machine,
    seen: Vec<(Key, Value)>,
    /// The key that was asked for and has no value yet.
    asked: Option<Key>,
}

impl Model for Peeker {
    ghost use Rattle.tau_occ.specs.Peeker.{IsAsked, PlainPeeker};

    ghost Value = { PlainPeeker };

    ghost view = { λ p. record { machine = p.machine; seen = p.seen.items; asked = p.asked } };

    ghost invariant = { λ p. IsAsked p.machine p.asked };
}

impl Peeker {
    /// No call. It takes no memory.
    pub fn new(alloc: Global) -> Peeker
        ensures { result ≡ blank_peeker }
    {
        Peeker {
            machine: Machine::new(),
            seen: Vec::new(alloc),
            asked: None,
        }
    }

    /// A call begins, and no value is seen. It takes no memory.
    pub fn begin(&mut self, procs: &Procs, call: &Call) -> Result<(), NoMemory>
        requires { IsTrue (takes procs.now call.now) }
        ensures done { result ≡ Ok tt }
        ensures peeks { IsPeeking procs.now call.now self.new }
        ensures none { self.new.seen ≡ [] }
        ensures asked { self.new.asked ≡ None }
    {
        let _limits = procs.list();
        self.forget();
        self.machine.restart(procs, call);
        Ok(())
    }

    /// Forgets what was seen of the call.
    pub fn forget(&mut self)
        ensures { self.new ≡ record self.old { seen = []; asked = None } }
    {
        self.seen.clear();
        self.asked = None;
    }

    /// The key that the call reads next and of which no value was seen; none once it has finished on the values seen. It takes
    /// no memory.
    pub fn wants(&mut self) -> Option<Key>
        ensures asked { self.new.asked ≡ result }
        ensures seen { self.new.seen ≡ self.old.seen }
        ensures peeks { (procs : List Proc) (call : Call) → IsPeeking procs call self.old → IsPeeking procs call self.new }
        ensures wants { (procs : List Proc) (call : Call) → IsPeeking procs call self.old → result ≡ wanted_of (stage procs call self.old.seen) }
    {
        let seen = self.seen.as_slice();
        let key = run_on(&mut self.machine, seen);
        self.asked = key;
        key
    }

    /// The value of the key that was asked for. Out of memory, nothing has changed.
    pub fn saw(&mut self, value: Value) -> Result<(), NoMemory>
        requires asked { self.old.asked ≡ None → ⊥ }
        ensures saw { OnOk result ((key : Key) → self.old.asked ≡ Some key → self.new.seen ≡ self.old.seen ++ (key, value) ∷ []) }
        ensures answered { OnOk result (self.new.asked ≡ None) }
        ensures peeks { OnOk result ((procs : List Proc) (call : Call) → IsPeeking procs call self.old → IsPeeking procs call self.new) }
        ensures same { OnErr result (self.new ≡ self.old) }
    {
        let Some(key) = self.asked else {
            unreachable!();
        };
        self.seen.try_reserve(1)?;
        self.machine.give_lent(&value);
        self.seen.push_reserved((key, value));
        self.asked = None;
        Ok(())
    }

    /// Whether nothing was seen of the call.
    pub fn is_empty(&self) -> bool
        ensures { IsTrue result ↔ (self.now.seen ≡ []) }
    {
        self.seen.is_empty()
    }

    /// Whether this value was seen for the key.
    pub fn agrees(&self, key: Key, value: Value) -> bool
        ensures { IsTrue result ↔ (lookup (same_key key) self.now.seen ≡ Some value) }
    {
        self.agrees_row(key, Some(&value))
    }

    /// The same of a row that is lent; no row is one that is Absent.
    pub fn agrees_row(&self, key: Key, row: Option<&Value>) -> bool
        ensures { IsTrue result ↔ (lookup (same_key key) self.now.seen ≡ Some (unwrap_or (option_copied row.entry) Value.Absent)) }
    {
        let Some(seen) = lent_at(key, self.seen.as_slice()) else {
            return false;
        };
        match row {
            Some(value) => seen.is_same(value),
            None => seen.is_same(&Value::Absent),
        }
    }
}

/// The value that goes with the key, lent.
fn lent_at(key: Key, entries: &[(Key, Value)]) -> Option<&Value>
    ensures { option_copied result ≡ lookup (same_key key) entries.now }
{
    for entry in entries {
        if key == entry.0 {
            return Some(&entry.1);
        }
    }
    None
}

/// Runs the machine on, on the values seen, as far as a key is wanted that has none, which is returned, or it has ended.
fn run_on(machine: &mut Machine, seen: &[(Key, Value)]) -> Option<Key>
    ensures follows { (procs : List Proc) (c : Call) → Follows procs c seen.now machine.old → Follows procs c seen.now machine.new }
    ensures stands { IfSome result (λ key. (ahead machine.new [] ≡ Wants key) × (lookup (same_key key) seen.now ≡ None)) }
    ensures ended { IfNone result (HasEnded (ahead machine.new [])) }
{
    while let Want::Read(key) = machine.next() {
        match lent_at(key, seen) {
            Some(value) => machine.give_lent(value),
            None => return Some(key),
        }
    }
    None
}

//! Marks of keys that are carried along a history: which calls depend on an updating call that is not taken.
ghost use Rattle.std.specs.Prelude.{ℕ, ◌≡◌, ◌∷◌, [], ◌||◌, true, false, length, cond, IfOk, OnOk};
ghost use Rattle.std.specs.List.{list_any};
ghost use Rattle.tau_base.specs.Database.{same_key};
ghost use Rattle.tau_proc.specs.Effect.{has_key};
ghost use Rattle.tau_inspect.specs.Taint.{unmarked, any_written, any_touched, is_tainted, marked, pass, taints};

use crate::executed::{AllDone, Done};
use indexmap::IndexMap;
use std::alloc::Global;
use tau_base::{Key, NoMemory, Value};

/// What is known of a key: whether a call that is updating and not taken, or depends on one, has read it or written it.
#[derive(Clone, Copy, Debug)]
pub struct Mark {
    /// Such a call has read it.
    pub read: bool,
    /// Such a call has written it.
    pub written: bool,
}

/// The marks of all keys.
#[derive(Drop)]
pub struct Taint {
    marks: IndexMap<Key, Mark>,
}

impl Taint {
    ghost use Rattle.tau_inspect.specs.Marks.{marks_of};

    /// No marks. It takes no memory.
    fn new(alloc: Global) -> Taint
        ensures { marks_of result ≡ unmarked }
    {
        Taint {
            marks: IndexMap::new(alloc),
        }
    }

    /// The marks of a key.
    fn at(&self, key: Key) -> Mark
        ensures { result ≡ marks_of self.now key }
    {
        match self.marks.get(&key) {
            Some(mark) => *mark,
            None => Mark {
                read: false,
                written: false,
            },
        }
    }

    /// Sets the marks of a key.
    fn put(&mut self, key: Key, mark: Mark) -> Result<(), NoMemory>
        ensures { OnOk result ((q : Key) → marks_of self.new q ≡ cond (same_key q key) mark (marks_of self.old q)) }
    {
        self.marks.insert(key, mark)?;
        Ok(())
    }

    /// Marks keys as read.
    fn mark_read(&mut self, rows: &[(Key, Value)]) -> Result<(), NoMemory>
        ensures { OnOk result ((q : Key) → marks_of self.new q ≡ record { read = has_key q rows.now || (marks_of self.old q).read; written = (marks_of self.old q).written }) }
    {
        for i in 0..rows.len() {
            let key = rows[i].0;
            let mark = self.at(key);
            self.put(
                key,
                Mark {
                    read: true,
                    written: mark.written,
                },
            )?;
        }
        Ok(())
    }

    /// Marks keys as written.
    fn mark_written(&mut self, rows: &[(Key, Value)]) -> Result<(), NoMemory>
        ensures { OnOk result ((q : Key) → marks_of self.new q ≡ record { read = (marks_of self.old q).read; written = has_key q rows.now || (marks_of self.old q).written }) }
    {
        for i in 0..rows.len() {
            let key = rows[i].0;
            let mark = self.at(key);
            self.put(
                key,
                Mark {
                    read: mark.read,
                    written: true,
                },
            )?;
        }
        Ok(())
    }

    /// Whether one of the keys is marked as written.
    fn any_written(&self, rows: &[(Key, Value)]) -> bool
        ensures { result ≡ any_written (marks_of self.now) rows.now }
    {
        for i in 0..rows.len() {
            if self.at(rows[i].0).written {
                return true;
            }
        }
        false
    }

    /// Whether one of the keys is marked.
    fn any_touched(&self, rows: &[(Key, Value)]) -> bool
        ensures { result ≡ any_touched (marks_of self.now) rows.now }
    {
        for i in 0..rows.len() {
            let mark = self.at(rows[i].0);
            if mark.read || mark.written {
                return true;
            }
        }
        false
    }

    /// Whether the marks say that the call depends on an updating call that is not taken.
    fn is_tainted(&self, done: &Done<'_>) -> bool
        ensures { result ≡ is_tainted (marks_of self.now) done.now }
    {
        self.any_written(done.reads()) || self.any_touched(done.writes())
    }

    /// Leaves the marks of a call that is missing, or depends on one that is.
    fn mark(&mut self, done: &Done<'_>) -> Result<(), NoMemory>
        ensures { OnOk result (marks_of self.new ≡ marked done.now (marks_of self.old)) }
    {
        self.mark_read(done.reads())?;
        self.mark_written(done.writes())
    }

    /// Goes past a call: whether it depends on an updating call that is not taken.
    fn pass(&mut self, missing: bool, done: &Done<'_>) -> Result<bool, NoMemory>
        ensures tells { IfOk result (λ tainted. tainted ≡ is_tainted (marks_of self.old) done.now) }
        ensures marks { OnOk result (marks_of self.new ≡ pass missing done.now (marks_of self.old)) }
    {
        let tainted = self.is_tainted(done);
        if missing || tainted {
            self.mark(done)?;
        }
        Ok(tainted)
    }
}

/// Whether one of the calls is missing.
fn is_any(missing: &[bool]) -> bool
    ensures { result ≡ list_any (λ b. b) missing.now }
{
    missing.iter().any(|one| *one)
}

/// Of each call whether it depends on an updating call that is missing. If none is missing, no marks are carried.
pub fn taints(alloc: Global, all: &AllDone, missing: &[bool]) -> Result<Vec<bool>, NoMemory>
    requires { length missing.now ≡ length all.now }
    ensures { IfOk result (λ tainted. tainted.items ≡ taints unmarked all.now missing.now) }
{
    if !is_any(missing) {
        let clean = vec![in alloc; false; all.len()]?;
        return Ok(clean);
    }
    let mut taint = Taint::new(alloc);
    let mut tainted = Vec::new(alloc);
    for i in 0..all.len() {
        let did = all.at(i);
        tainted.push(taint.pass(missing[i], &did)?)?;
    }
    Ok(tainted)
}

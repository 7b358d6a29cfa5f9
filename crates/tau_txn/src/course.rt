//! A machine that is asked without being changed.
ghost use Rattle.std.specs.Prelude.{◌≡◌, ◌<◌, ◌+◌, List, [], ◌∷◌, IsTrue};
ghost use Rattle.std.specs.FinMap.{is_sorted};
ghost use Rattle.std.specs.Option.{option_copied, unwrap_or};
ghost use Rattle.tau_base.specs.Database.{key_cmp};
ghost use Rattle.tau_base.specs.declared.value.Value.{Value};
ghost use Rattle.tau_machine.specs.Stage.{stage};
ghost use Rattle.tau_machine.specs.Worker.{lock_of};
ghost use Rattle.tau_proc.specs.Takes.{takes};
ghost use Rattle.tau_proc.specs.Progress.{ahead, blank, buffered, IsAt, next_want, IsRead, IsWrite, wants_left};
ghost use Rattle.tau_txn.specs.Steps.{lock_by};

use std::marker::Model;
use tau_base::{Call, Key, Value};
use tau_proc::{Machine, Procs, Want};

/// A machine beside what it wants next.
#[derive(Drop)]
pub struct Course {
    machine: Machine,
    want: Want,
}

impl Model for Course {
    ghost use Rattle.std.specs.Prelude.{◌≡◌};
    ghost use Rattle.tau_proc.specs.Progress.{Progress, next_want};

    ghost Value = { Progress };

    ghost view = { λ c. c.machine };

    ghost invariant = { λ c. c.want ≡ next_want c.machine };
}

impl Course {
    /// A machine that has ended and wrote nothing.
    pub fn new() -> Course
        ensures { result ≡ blank }
    {
        let mut machine = Machine::new();
        let want = machine.next();
        Course { machine, want }
    }

    /// A call that begins.
    pub fn start(procs: &Procs, call: &Call) -> Course
        requires { IsTrue (takes procs.now call.now) }
        ensures { IsAt procs.now call.now [] 0 result }
    {
        let mut course = Course::new();
        course.restart(procs, call);
        course
    }

    /// A call that begins in the place of the one before.
    pub fn restart(&mut self, procs: &Procs, call: &Call)
        requires { IsTrue (takes procs.now call.now) }
        ensures { IsAt procs.now call.now [] 0 self.new }
    {
        self.machine.restart(procs, call);
        self.machine.put_next(&mut self.want);
    }

    /// What it wants next.
    pub fn want(&self) -> &Want
        ensures { result.now ≡ next_want self.now }
    {
        &self.want
    }

    /// Gives the value of the row that is wanted, lent.
    pub fn give(&mut self, value: &Value)
        requires { IsRead (next_want self.old) }
        ensures stands { (vs : List Value) → ahead self.new vs ≡ ahead self.old (value.now ∷ vs) }
        ensures granted { self.new.granted ≡ self.old.granted }
        ensures fewer { wants_left self.new < wants_left self.old }
    {
        self.machine.give_lent(value);
        self.machine.put_next(&mut self.want);
    }

    /// Gives the value of the row that is wanted, Absent where there is none.
    pub fn give_row(&mut self, row: Option<&Value>)
        requires { IsRead (next_want self.old) }
        ensures stands { (vs : List Value) → ahead self.new vs ≡ ahead self.old (unwrap_or (option_copied row.entry) Value.Absent ∷ vs) }
        ensures granted { self.new.granted ≡ self.old.granted }
        ensures fewer { wants_left self.new < wants_left self.old }
    {
        match row {
            Some(value) => self.give(value),
            None => self.give_absent(),
        }
    }

    #[inline(never)]
    fn give_absent(&mut self)
        requires { IsRead (next_want self.old) }
        ensures stands { (vs : List Value) → ahead self.new vs ≡ ahead self.old (Value.Absent ∷ vs) }
        ensures granted { self.new.granted ≡ self.old.granted }
        ensures fewer { wants_left self.new < wants_left self.old }
    {
        self.give(&Value::Absent);
    }

    /// Says that the key may be written that is wanted.
    pub fn granted(&mut self)
        requires { IsWrite (next_want self.old) }
        ensures stands { (vs : List Value) → ahead self.new vs ≡ ahead self.old vs }
        ensures granted { self.new.granted ≡ self.old.granted + 1 }
        ensures fewer { wants_left self.new < wants_left self.old }
    {
        self.machine.granted();
        self.machine.put_next(&mut self.want);
    }

    /// The writes so far, ascending, each key once.
    pub fn writes(&self) -> &[(Key, Value)]
        ensures same { result.now ≡ buffered self.now }
        ensures ascend { IsTrue (is_sorted key_cmp result.now) }
    {
        self.machine.writes()
    }
}

/// What a call wants first.
pub fn first_want(procs: &Procs, call: &Call) -> Want
    requires { IsTrue (takes procs.now call.now) }
    ensures { lock_by result ≡ lock_of (stage procs.now call.now []) [] }
{
    let _limits = procs.list();
    let course = Course::start(procs, call);
    let _ascending = course.writes();
    copied(course.want())
}

/// The same want.
fn copied(want: &Want) -> Want
    ensures { result ≡ want.now }
{
    match want {
        Want::Read(key) => Want::Read(*key),
        Want::Write(key) => Want::Write(*key),
        Want::Finished(reply) => Want::Finished(reply.copied()),
    }
}

//! A call that runs.
ghost use Rattle.std.specs.Prelude.{◌≡◌, ◌<◌, ◌≤◌, ◌+◌, List, [], ◌∷◌, ◌++◌, length, drop, IsTrue};
ghost use Rattle.std.specs.FinMap.{is_sorted};
ghost use Rattle.tau_base.specs.Database.{key_cmp};
ghost use Rattle.tau_proc.specs.Limits.{IsWellFormed};
ghost use Rattle.tau_proc.specs.Meaning.{begun, at_row, puts, adds, gets, dels, Puts};
ghost use Rattle.tau_proc.specs.Takes.{is_table, takes_put, takes_add, takes_row, takes};
ghost use Rattle.tau_proc.specs.Progress.{StopFits, KeepsCourse, at_stop, ahead, buffered, blank, IsAt, next_want, IsRead, IsWrite, wants_left, rows_at};
ghost use Rattle.tau_proc.specs.Stage.{stage_of, built_stage};

use crate::lent::{Lent, lent_of};
use crate::proc::Proc;
use crate::procs::{ADD, DEL, FIRST_DECLARED, GET, PUT, Procs};
use crate::program::Program;
use crate::reply::{Reply, Want, put_finished};
use crate::running::{Did, Running};
use crate::step::Step;
use crate::values::sum_with;
use arrayvec::ArrayVec;
use std::marker::Model;
use tau_base::{Call, Key, MAX_ARGS, Text64, Value};

/// What becomes of the value of a row.
#[derive(Clone, Copy, Debug)]
enum Use {
    /// It goes into a register, and the steps go on.
    Register(u8),
    /// It is the reply.
    Reply,
    /// The row becomes its sum with a number, which is the reply.
    Add(i64),
}

/// Where a call stops.
#[derive(Debug, Drop)]
enum Stop {
    /// It wants a row.
    Row(Key, Use),
    /// It has ended with this reply.
    End(Reply),
}

/// A call that runs. It stands at its next want at all times.
#[derive(Debug, Drop)]
pub struct Machine {
    args: ArrayVec<Value, MAX_ARGS>,
    steps: Program,
    done: usize,
    running: Running,
    stop: Stop,
    granted: usize,
}

impl Model for Machine {
    ghost use Rattle.tau_proc.specs.Progress.{Progress, StopFits, KeepsCourse};

    ghost Value = { Progress };

    ghost view = { λ m. record { args = m.args.items; steps = m.steps; done = m.done; running = m.running; stop = m.stop; granted = m.granted } };

    ghost invariant = { λ m. KeepsCourse m.args.items m.steps m.done m.running × StopFits m.stop m.steps m.running.writes };
}

impl Machine {
    /// A machine that has ended and wrote nothing.
    pub fn new() -> Machine
        ensures { result ≡ blank }
    {
        Machine {
            args: ArrayVec::new(),
            steps: Program::new(),
            done: 0,
            running: Running::new(),
            stop: Stop::End(Reply::Ok(Value::Absent)),
            granted: 0,
        }
    }

    /// A call that begins.
    pub fn start(procs: &Procs, call: &Call) -> Machine
        requires { IsTrue (takes procs.now call.now) }
        ensures { IsAt procs.now call.now [] 0 result }
    {
        let mut machine = Machine::new();
        machine.restart(procs, call);
        machine
    }

    /// A call that begins in the place of the one before.
    pub fn restart(&mut self, procs: &Procs, call: &Call)
        requires { IsTrue (takes procs.now call.now) }
        ensures { IsAt procs.now call.now [] 0 self.new }
    {
        let args = call.args.as_slice();
        match call.proc {
            PUT => self.begin_put(args),
            ADD => self.begin_add(args),
            GET => self.begin_get(args),
            DEL => self.begin_del(args),
            declared => {
                let list = procs.list();
                self.begin_declared(&list[usize::from(declared - FIRST_DECLARED)], args)
            }
        }
    }

    /// What is left of the call before goes.
    fn clear(&mut self)
        ensures { self.new ≡ blank }
    {
        self.args.clear();
        self.steps.leave();
        self.done = 0;
        self.running.clear();
        self.stop = Stop::End(Reply::Ok(Value::Absent));
        self.granted = 0;
    }

    /// A built-in that writes a row.
    fn begin_write(&mut self, key: Key, value: &Value)
        ensures stands { (vs : List Value) → ahead self.new vs ≡ built_stage (Puts key value.now) vs }
        ensures granted { self.new.granted ≡ 0 }
    {
        self.clear();
        self.running.put(key, &lent_of(value));
    }

    /// A built-in that reads a row.
    fn begin_read(&mut self, key: Key, use_of: Use)
        requires { StopFits (Stop.Row key use_of) [] [] }
        ensures stands { (vs : List Value) → ahead self.new vs ≡ at_stop [] [] 0 begun (Stop.Row key use_of) vs }
        ensures granted { self.new.granted ≡ 0 }
    {
        self.clear();
        self.stop = Stop::Row(key, use_of);
    }

    fn begin_put(&mut self, args: &[Value])
        requires { IsTrue (takes_put args.now) }
        ensures stands { (vs : List Value) → ahead self.new vs ≡ built_stage (puts args.now) vs }
        ensures granted { self.new.granted ≡ 0 }
    {
        match args {
            [Value::Int(table), Value::Int(row), value] => {
                self.begin_write(key_of(*table, *row), value)
            }
            _ => unreachable!(),
        }
    }

    fn begin_add(&mut self, args: &[Value])
        requires { IsTrue (takes_add args.now) }
        ensures stands { (vs : List Value) → ahead self.new vs ≡ built_stage (adds args.now) vs }
        ensures granted { self.new.granted ≡ 0 }
    {
        match args {
            [Value::Int(table), Value::Int(row), Value::Int(number)] => {
                self.begin_read(key_of(*table, *row), Use::Add(*number))
            }
            _ => unreachable!(),
        }
    }

    fn begin_get(&mut self, args: &[Value])
        requires { IsTrue (takes_row args.now) }
        ensures stands { (vs : List Value) → ahead self.new vs ≡ built_stage (gets args.now) vs }
        ensures granted { self.new.granted ≡ 0 }
    {
        match args {
            [Value::Int(table), Value::Int(row)] => {
                self.begin_read(key_of(*table, *row), Use::Reply)
            }
            _ => unreachable!(),
        }
    }

    fn begin_del(&mut self, args: &[Value])
        requires { IsTrue (takes_row args.now) }
        ensures stands { (vs : List Value) → ahead self.new vs ≡ built_stage (dels args.now) vs }
        ensures granted { self.new.granted ≡ 0 }
    {
        match args {
            [Value::Int(table), Value::Int(row)] => {
                self.begin_write(key_of(*table, *row), &Value::Absent)
            }
            _ => unreachable!(),
        }
    }

    /// A call of a declared procedure.
    fn begin_declared(&mut self, proc: &Proc, args: &[Value])
        requires well_formed { IsWellFormed proc.now }
        requires args { proc.now.args ≡ length args.now }
        ensures stands { (vs : List Value) → ahead self.new vs ≡ stage_of args.now proc.now.steps 1 begun vs }
        ensures granted { self.new.granted ≡ 0 }
    {
        self.clear();
        copy_values(&mut self.args, args);
        self.steps.take(proc.steps.as_slice());
        run_on(
            self.steps.as_slice(),
            self.args.as_slice(),
            &mut self.done,
            &mut self.running,
            &mut self.stop,
        );
    }

    /// The next read from the database, else the next written key in ascending order, else the reply.
    pub fn next(&mut self) -> Want
        ensures want { result ≡ next_want self.old }
        ensures same { self.new ≡ self.old }
    {
        match &self.stop {
            Stop::Row(key, _) => Want::Read(*key),
            Stop::End(reply) => match self.running.writes().get(self.granted) {
                Some((key, _)) => Want::Write(*key),
                None => Want::Finished(reply.copied()),
            },
        }
    }

    /// Puts in a place what `next` returns. A key is not moved through a place as large as a reply.
    pub fn put_next(&self, place: &mut Want)
        ensures { place.new ≡ next_want self.now }
    {
        match &self.stop {
            Stop::Row(key, _) => *place = Want::Read(*key),
            Stop::End(reply) => match self.running.writes().get(self.granted) {
                Some((key, _)) => *place = Want::Write(*key),
                None => put_finished(place, reply),
            },
        }
    }

    /// Gives the value of the row that is wanted.
    pub fn give(&mut self, value: Value)
        requires { IsRead (next_want self.old) }
        ensures stands { (vs : List Value) → ahead self.new vs ≡ ahead self.old (value ∷ vs) }
        ensures granted { self.new.granted ≡ self.old.granted }
        ensures fewer { wants_left self.new < wants_left self.old }
    {
        self.give_lent(&value);
    }

    /// The same of a value that is lent.
    pub fn give_lent(&mut self, value: &Value)
        requires { IsRead (next_want self.old) }
        ensures stands { (vs : List Value) → ahead self.new vs ≡ ahead self.old (value.now ∷ vs) }
        ensures granted { self.new.granted ≡ self.old.granted }
        ensures fewer { wants_left self.new < wants_left self.old }
    {
        let Stop::Row(key, use_of) = &self.stop else {
            unreachable!();
        };
        let (key, use_of) = (*key, *use_of);
        match use_of {
            Use::Register(into) => self.go_on(key, into, value),
            Use::Reply => put_end(&mut self.stop, value),
            Use::Add(number) => match sum_with(value, number) {
                Some(sum) => {
                    self.running.put(key, &Lent::Int(sum));
                    self.stop = Stop::End(Reply::Ok(Value::Int(sum)));
                }
                None => self.stop = Stop::End(Reply::Refused(1)),
            },
        }
    }

    /// The row's value goes into a register, and the steps go on.
    #[inline(never)]
    fn go_on(&mut self, key: Key, into: u8, value: &Value)
        requires { self.old.stop ≡ Stop.Row key (Use.Register into) }
        ensures stands { (vs : List Value) → ahead self.new vs ≡ ahead self.old (value.now ∷ vs) }
        ensures granted { self.new.granted ≡ self.old.granted }
        ensures fewer { wants_left self.new < wants_left self.old }
    {
        self.running.set_register(into, &lent_of(value));
        run_on(
            self.steps.as_slice(),
            self.args.as_slice(),
            &mut self.done,
            &mut self.running,
            &mut self.stop,
        );
    }

    /// Says that the key may be written that is wanted.
    pub fn granted(&mut self)
        requires { IsWrite (next_want self.old) }
        ensures stands { (vs : List Value) → ahead self.new vs ≡ ahead self.old vs }
        ensures granted { self.new.granted ≡ self.old.granted + 1 }
        ensures fewer { wants_left self.new < wants_left self.old }
    {
        self.granted += 1;
    }

    /// The writes so far, ascending, each key once. Behind a refusal there are none.
    pub fn writes(&self) -> &[(Key, Value)]
        ensures same { result.now ≡ buffered self.now }
        ensures ascend { IsTrue (is_sorted key_cmp result.now) }
    {
        self.running.writes()
    }
}

/// The key of a row.
fn key_of(table: i64, row: i64) -> Key
    requires { IsTrue (is_table table) }
    ensures { result ≡ at_row table row }
{
    Key {
        table: table as u16,
        row,
    }
}

/// Puts the values there, where none is.
fn copy_values(all: &mut ArrayVec<Value, MAX_ARGS>, values: &[Value])
    requires empty { all.old.items ≡ [] }
    requires short { length values.now ≤ MAX_ARGS }
    ensures { all.new.items ≡ values.now }
{
    for value in values {
        push_value(all, value);
    }
}

/// Puts a value that is lent at the end. A whole number is not moved through a place of its own, a text apart.
fn push_value(all: &mut ArrayVec<Value, MAX_ARGS>, value: &Value)
    requires { length all.old.items < MAX_ARGS }
    ensures { all.new.items ≡ all.old.items ++ value.now ∷ [] }
{
    match value {
        Value::Absent => all.push(Value::Absent),
        Value::Int(number) => all.push(Value::Int(*number)),
        Value::Text(text) => push_text(all, text),
    }
}

#[inline(never)]
fn push_text(all: &mut ArrayVec<Value, MAX_ARGS>, text: &Text64)
    requires { length all.old.items < MAX_ARGS }
    ensures { all.new.items ≡ all.old.items ++ Value.Text text.now ∷ [] }
{
    all.push(Value::Text(text.copied()));
}

/// Runs the steps on, as far as a row is wanted or they end.
fn run_on(steps: &[Step], args: &[Value], done: &mut usize, running: &mut Running, stop: &mut Stop)
    requires { KeepsCourse args.now steps.now done.old running.old }
    ensures keeps { KeepsCourse args.now steps.now done.new running.new }
    ensures stands { (vs : List Value) → at_stop args.now steps.now done.new running.new stop.new vs
        ≡ stage_of args.now (drop done.old steps.now) (done.old + 1) running.old vs }
    ensures fits { StopFits stop.new steps.now running.new.writes }
    ensures later { done.old + rows_at stop.new ≤ done.new }
{
    while *done < steps.len() {
        let did = running.step(args, &steps[*done]);
        *done += 1;
        match did {
            Did::Goes => {}
            Did::Asks(key, into) => {
                *stop = Stop::Row(key, Use::Register(into));
                return;
            }
            Did::Refuses => {
                running.forget();
                *stop = Stop::End(Reply::Refused(*done as u16));
                return;
            }
        }
    }
    put_end(stop, running.reply());
}

/// The steps have ended with a reply: that of a whole number without the bytes of a text.
fn put_end(stop: &mut Stop, value: &Value)
    ensures { stop.new ≡ Stop.End (Reply.Ok value.now) }
{
    match value {
        Value::Absent => *stop = Stop::End(Reply::Ok(Value::Absent)),
        Value::Int(number) => *stop = Stop::End(Reply::Ok(Value::Int(*number))),
        Value::Text(text) => put_end_text(stop, text),
    }
}

#[inline(never)]
fn put_end_text(stop: &mut Stop, text: &Text64)
    ensures { stop.new ≡ Stop.End (Reply.Ok (Value.Text text.now)) }
{
    *stop = Stop::End(Reply::Ok(Value::Text(text.copied())));
}

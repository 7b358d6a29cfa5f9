//! What a call holds while its steps run.
ghost use Rattle.std.specs.Prelude.{◌≡◌, ◌<◌, ◌+◌, ◌+ℤ◌, ◌-ℤ◌, ◌*ℤ◌, [], length, replicate, slice_get, IsTrue, Option};
ghost use Rattle.std.specs.Map.{lookup};
ghost use Rattle.std.specs.FinMap.{put, is_sorted};
ghost use Rattle.tau_base.specs.Database.{key_cmp, same_key};
ghost use Rattle.tau_proc.specs.Limits.{is_register, step_fits};
ghost use Rattle.tau_proc.specs.Meaning.{begun, value_of, set_register, become, read_at, got, stored, needed, chosen, does, skipped, action, computed, in_range, smaller, greater, joined, holds};
ghost use Rattle.tau_proc.specs.Did.{did_of, after};
ghost use Rattle.tau_proc.specs.Lent.{value_of_lent, number_value};

use crate::lent::{Lent, lend, lent_of, put_lent};
use crate::step::{Compare, Operand, Step};
use crate::values::{difference, greater, holds, joined, product, smaller, sum};
use crate::writes::{Writes, forget, write, written_last};
use arrayvec::ArrayVec;
use std::marker::Model;
use tau_base::{Key, MAX_STEPS, MAX_WRITES, REGISTERS, Value};

/// What a step does.
pub(crate) enum Did {
    /// The call goes on.
    Goes,
    /// It asks the database for a row, which goes into a register.
    Asks(Key, u8),
    /// It is refused.
    Refuses,
}

/// The registers of a call, its writes so far, its reply, and how many `when` it is skipping.
#[derive(Debug, Drop)]
pub(crate) struct Running {
    registers: [Value; REGISTERS],
    writes: Writes,
    reply: Value,
    skips: u8,
    /// Whether a register was written.
    touched: bool,
}

impl Model for Running {
    ghost use Rattle.std.specs.Prelude.{◌≡◌, length, IsTrue};
    ghost use Rattle.std.specs.FinMap.{is_sorted};
    ghost use Rattle.tau_base.specs.declared.limits.TheConstants.{REGISTERS};
    ghost use Rattle.tau_base.specs.Database.{key_cmp};
    ghost use Rattle.tau_proc.specs.Kept.{AbsentUnless};
    ghost use Rattle.tau_proc.specs.Meaning.{Running as Stand};

    ghost Value = { Stand };

    ghost view = { λ r. record { registers = r.registers; writes = r.writes.items; reply = r.reply; skips = r.skips } };

    ghost invariant = { λ r. (length r.registers ≡ REGISTERS) × IsTrue (is_sorted key_cmp r.writes.items) × AbsentUnless r.touched r.registers };
}

impl Running {
    /// A call before its first step.
    pub(crate) fn new() -> Running
        ensures { result ≡ begun }
    {
        Running {
            registers: Default::default(),
            writes: ArrayVec::new(),
            reply: Value::Absent,
            skips: 0,
            touched: false,
        }
    }

    /// As before the first step again.
    pub(crate) fn clear(&mut self)
        ensures { self.new ≡ begun }
    {
        self.clear_registers();
        self.forget();
        self.reply = Value::Absent;
        self.skips = 0;
    }

    /// Makes all registers absent. A call without registers leaves nothing to write there.
    fn clear_registers(&mut self)
        ensures { self.new ≡ record self.old { registers = replicate REGISTERS Value.Absent } }
    {
        if !self.touched {
            return;
        }
        make_absent(&mut self.registers);
        self.touched = false;
    }

    /// The writes so far, ascending, each key once.
    pub(crate) fn writes(&self) -> &[(Key, Value)]
        ensures same { result.now ≡ self.now.writes }
        ensures ascend { IsTrue (is_sorted key_cmp self.now.writes) }
    {
        self.writes.as_slice()
    }

    /// The reply so far.
    pub(crate) fn reply(&self) -> &Value
        ensures { result.now ≡ self.now.reply }
    {
        &self.reply
    }

    /// Forgets all writes.
    pub(crate) fn forget(&mut self)
        ensures { self.new ≡ record self.old { writes = [] } }
    {
        forget(&mut self.writes);
    }

    /// A register becomes a value that is lent.
    pub(crate) fn set_register(&mut self, into: u8, value: &Lent)
        requires { IsTrue (is_register into) }
        ensures { self.new ≡ set_register self.old into (value_of_lent value.now) }
    {
        put_lent(&mut self.registers[usize::from(into)], value);
        self.touched = true;
    }

    /// A row becomes a value that is lent.
    pub(crate) fn put(&mut self, key: Key, value: &Lent)
        requires { length self.old.writes < MAX_WRITES }
        ensures { self.new ≡ record self.old { writes = put key_cmp key (value_of_lent value.now) self.old.writes } }
    {
        write(&mut self.writes, key, value);
    }

    /// A row becomes the value of an operand.
    fn put_operand(&mut self, args: &[Value], key: Key, value: &Operand)
        requires { length self.old.writes < MAX_WRITES }
        ensures { self.new ≡ record self.old { writes = put key_cmp key (value_of args.now self.old.registers value.now) self.old.writes } }
    {
        write(&mut self.writes, key, &lend(args, &self.registers, value));
    }

    /// The reply becomes the value of an operand.
    fn set_reply(&mut self, args: &[Value], value: &Operand)
        ensures { self.new ≡ record self.old { reply = value_of args.now self.old.registers value.now } }
    {
        put_lent(&mut self.reply, &lend(args, &self.registers, value));
    }

    /// The value of an operand, lent.
    fn lend<'a>(&'a self, args: &'a [Value], operand: &'a Operand) -> Lent<'a>
        ensures { value_of_lent result ≡ value_of args.now self.now.registers operand.now }
    {
        lend(args, &self.registers, operand)
    }

    /// A register becomes the text, where there is one.
    fn settle(&mut self, into: u8, text: Option<Value>) -> Did
        requires { IsTrue (is_register into) }
        ensures did { result ≡ did_of (become self.old into text) }
        ensures stands { self.new ≡ after (become self.old into text) self.old }
    {
        let Some(text) = text else {
            return Did::Refuses;
        };
        self.set_register(into, &lent_of(&text));
        Did::Goes
    }

    /// A register becomes the number, where there is one.
    fn settle_number(&mut self, into: u8, number: Option<i64>) -> Did
        requires { IsTrue (is_register into) }
        ensures did { result ≡ did_of (become self.old into (number_value number)) }
        ensures stands { self.new ≡ after (become self.old into (number_value number)) self.old }
    {
        let Some(number) = number else {
            return Did::Refuses;
        };
        self.set_register(into, &Lent::Int(number));
        Did::Goes
    }

    /// Reads a row: the value that the call wrote last, else the database's.
    fn get(&mut self, into: u8, key: Key) -> Did
        requires { IsTrue (is_register into) }
        ensures did { result ≡ did_of (read_at self.old into key (lookup (same_key key) self.old.writes)) }
        ensures stands { self.new ≡ after (read_at self.old into key (lookup (same_key key) self.old.writes)) self.old }
    {
        if self.writes.is_empty() {
            return Did::Asks(key, into);
        }
        self.get_written(into, key)
    }

    /// The same of a call that wrote rows.
    #[inline(never)]
    fn get_written(&mut self, into: u8, key: Key) -> Did
        requires { IsTrue (is_register into) }
        ensures did { result ≡ did_of (read_at self.old into key (lookup (same_key key) self.old.writes)) }
        ensures stands { self.new ≡ after (read_at self.old into key (lookup (same_key key) self.old.writes)) self.old }
    {
        match written_last(key, self.writes.as_slice()) {
            Some(value) => {
                self.set_register(into, &lent_of(&value));
                Did::Goes
            }
            None => Did::Asks(key, into),
        }
    }

    /// Reads the row that an operand names.
    fn get_at(&mut self, args: &[Value], into: u8, table: u16, row: &Operand) -> Did
        requires { IsTrue (is_register into) }
        ensures did { result ≡ did_of (got self.old into table (value_of args.now self.old.registers row.now)) }
        ensures stands { self.new ≡ after (got self.old into table (value_of args.now self.old.registers row.now)) self.old }
    {
        match self.lend(args, row) {
            Lent::Int(row) => self.get(into, Key { table, row }),
            Lent::Absent => Did::Refuses,
            Lent::Text(_) => Did::Refuses,
        }
    }

    /// Writes the value of an operand to the row that an operand names.
    fn store_at(&mut self, args: &[Value], table: u16, row: &Operand, value: &Operand) -> Did
        requires { length self.old.writes < MAX_WRITES }
        ensures did { result ≡ did_of (stored self.old table (value_of args.now self.old.registers row.now) (value_of args.now self.old.registers value.now)) }
        ensures stands { self.new ≡ after (stored self.old table (value_of args.now self.old.registers row.now) (value_of args.now self.old.registers value.now)) self.old }
    {
        match self.lend(args, row) {
            Lent::Int(row) => {
                self.put_operand(args, Key { table, row }, value);
                Did::Goes
            }
            Lent::Absent => Did::Refuses,
            Lent::Text(_) => Did::Refuses,
        }
    }

    /// A register becomes the sum of two numbers.
    fn add(&mut self, args: &[Value], into: u8, left: &Operand, right: &Operand) -> Did
        requires { IsTrue (is_register into) }
        ensures did { result ≡ did_of (become self.old into (computed (λ a b. in_range (a +ℤ b)) (value_of args.now self.old.registers left.now) (value_of args.now self.old.registers right.now))) }
        ensures stands { self.new ≡ after (become self.old into (computed (λ a b. in_range (a +ℤ b)) (value_of args.now self.old.registers left.now) (value_of args.now self.old.registers right.now))) self.old }
    {
        let number = sum(&self.lend(args, left), &self.lend(args, right));
        self.settle_number(into, number)
    }

    /// A register becomes the difference of two numbers.
    fn subtract(&mut self, args: &[Value], into: u8, left: &Operand, right: &Operand) -> Did
        requires { IsTrue (is_register into) }
        ensures did { result ≡ did_of (become self.old into (computed (λ a b. in_range (a -ℤ b)) (value_of args.now self.old.registers left.now) (value_of args.now self.old.registers right.now))) }
        ensures stands { self.new ≡ after (become self.old into (computed (λ a b. in_range (a -ℤ b)) (value_of args.now self.old.registers left.now) (value_of args.now self.old.registers right.now))) self.old }
    {
        let number = difference(&self.lend(args, left), &self.lend(args, right));
        self.settle_number(into, number)
    }

    /// A register becomes the product of two numbers.
    fn multiply(&mut self, args: &[Value], into: u8, left: &Operand, right: &Operand) -> Did
        requires { IsTrue (is_register into) }
        ensures did { result ≡ did_of (become self.old into (computed (λ a b. in_range (a *ℤ b)) (value_of args.now self.old.registers left.now) (value_of args.now self.old.registers right.now))) }
        ensures stands { self.new ≡ after (become self.old into (computed (λ a b. in_range (a *ℤ b)) (value_of args.now self.old.registers left.now) (value_of args.now self.old.registers right.now))) self.old }
    {
        let number = product(&self.lend(args, left), &self.lend(args, right));
        self.settle_number(into, number)
    }

    /// A register becomes the smaller of two numbers.
    fn lower(&mut self, args: &[Value], into: u8, left: &Operand, right: &Operand) -> Did
        requires { IsTrue (is_register into) }
        ensures did { result ≡ did_of (become self.old into (computed (λ a b. Some (Value.Int (smaller a b))) (value_of args.now self.old.registers left.now) (value_of args.now self.old.registers right.now))) }
        ensures stands { self.new ≡ after (become self.old into (computed (λ a b. Some (Value.Int (smaller a b))) (value_of args.now self.old.registers left.now) (value_of args.now self.old.registers right.now))) self.old }
    {
        let number = smaller(&self.lend(args, left), &self.lend(args, right));
        self.settle_number(into, number)
    }

    /// A register becomes the greater of two numbers.
    fn higher(&mut self, args: &[Value], into: u8, left: &Operand, right: &Operand) -> Did
        requires { IsTrue (is_register into) }
        ensures did { result ≡ did_of (become self.old into (computed (λ a b. Some (Value.Int (greater a b))) (value_of args.now self.old.registers left.now) (value_of args.now self.old.registers right.now))) }
        ensures stands { self.new ≡ after (become self.old into (computed (λ a b. Some (Value.Int (greater a b))) (value_of args.now self.old.registers left.now) (value_of args.now self.old.registers right.now))) self.old }
    {
        let number = greater(&self.lend(args, left), &self.lend(args, right));
        self.settle_number(into, number)
    }

    /// A register becomes two texts joined.
    #[inline(never)]
    fn join(&mut self, args: &[Value], into: u8, left: &Operand, right: &Operand) -> Did
        requires { IsTrue (is_register into) }
        ensures did { result ≡ did_of (become self.old into (joined (value_of args.now self.old.registers left.now) (value_of args.now self.old.registers right.now))) }
        ensures stands { self.new ≡ after (become self.old into (joined (value_of args.now self.old.registers left.now) (value_of args.now self.old.registers right.now))) self.old }
    {
        let text = joined(&self.lend(args, left), &self.lend(args, right));
        self.settle(into, text)
    }

    /// Whether a comparison of two operands holds; none where it is not allowed.
    fn holds(&self, args: &[Value], how: Compare, left: &Operand, right: &Operand) -> Option<bool>
        ensures { result ≡ holds how (value_of args.now self.now.registers left.now) (value_of args.now self.now.registers right.now) }
    {
        holds(how, &self.lend(args, left), &self.lend(args, right))
    }

    /// Goes on where a comparison holds.
    fn need(&self, is_so: Option<bool>) -> Did
        ensures { result ≡ did_of (needed self.now is_so) }
    {
        match is_so {
            Some(true) => Did::Goes,
            _ => Did::Refuses,
        }
    }

    /// Skips on where a comparison does not hold.
    fn choose(&mut self, is_so: Option<bool>) -> Did
        ensures did { result ≡ did_of (chosen self.old is_so) }
        ensures stands { self.new ≡ after (chosen self.old is_so) self.old }
    {
        match is_so {
            Some(true) => Did::Goes,
            Some(false) => {
                self.skips = 1;
                Did::Goes
            }
            None => Did::Refuses,
        }
    }

    /// Counts the `when` that are skipped past a step.
    fn skip(&mut self, step: &Step)
        requires { self.old.skips < MAX_STEPS }
        ensures { self.new ≡ record self.old { skips = skipped self.old.skips step.now } }
    {
        match step {
            Step::When { .. } => self.skips += 1,
            Step::Done => self.skips = self.skips.saturating_sub(1),
            _ => {}
        }
    }

    /// Does a step that is not skipped.
    fn perform(&mut self, args: &[Value], step: &Step) -> Did
        requires fits { IsTrue (step_fits (length args.now) step.now) }
        requires room { length self.old.writes < MAX_WRITES }
        ensures did { result ≡ did_of (does args.now self.old step.now) }
        ensures stands { self.new ≡ after (does args.now self.old step.now) self.old }
    {
        match step {
            Step::Get { into, table, row } => self.get_at(args, *into, *table, row),
            Step::Put { table, row, value } => self.store_at(args, *table, row, value),
            Step::Del { table, row } => self.store_at(args, *table, row, &Operand::Absent),
            Step::Add { into, left, right } => self.add(args, *into, left, right),
            Step::Sub { into, left, right } => self.subtract(args, *into, left, right),
            Step::Mul { into, left, right } => self.multiply(args, *into, left, right),
            Step::Min { into, left, right } => self.lower(args, *into, left, right),
            Step::Max { into, left, right } => self.higher(args, *into, left, right),
            Step::Cat { into, left, right } => self.join(args, *into, left, right),
            Step::Need { left, how, right } => self.need(self.holds(args, *how, left, right)),
            Step::When { left, how, right } => {
                let is_so = self.holds(args, *how, left, right);
                self.choose(is_so)
            }
            Step::Done => Did::Goes,
            Step::Reply(value) => {
                self.set_reply(args, value);
                Did::Goes
            }
        }
    }

    /// Does a step, or skips it.
    pub(crate) fn step(&mut self, args: &[Value], step: &Step) -> Did
        requires fits { IsTrue (step_fits (length args.now) step.now) }
        requires room { length self.old.writes < MAX_WRITES }
        requires skips { self.old.skips < MAX_STEPS }
        ensures did { result ≡ did_of (action args.now self.old step.now) }
        ensures stands { self.new ≡ after (action args.now self.old step.now) self.old }
    {
        if self.skips > 0 {
            self.skip(step);
            return Did::Goes;
        }
        self.perform(args, step)
    }
}

/// Makes all registers absent, each in its place.
fn make_absent(registers: &mut [Value; REGISTERS])
    requires { length registers.old ≡ REGISTERS }
    ensures { registers.new ≡ replicate REGISTERS Value.Absent }
{
    for at in 0..REGISTERS {
        registers[at] = Value::Absent;
    }
}

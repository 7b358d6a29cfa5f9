//! Calls that are kept short.
ghost use Rattle.std.specs.Prelude.{◌≡◌, ◌<◌, ◌++◌, ◌∷◌, [], length, map, IfSome, IfOk, OnOk, OnErr, Some, slice_get};
ghost use Rattle.tau_base.specs.declared.value.Value.TheVariants.{Int};

use crate::limits::MAX_ARGS;
use crate::value::{Call, NoMemory, Value};
use arrayvec::ArrayVec;
use std::alloc::Global;
use std::marker::Model;

/// Up to how many arguments, all of them whole numbers, are kept short: those of each built-in procedure.
const SHORT_ARGS: usize = 3;

#[derive(Debug, Drop)]
enum Kept {
    Short {
        proc: u16,
        args: ArrayVec<i64, SHORT_ARGS>,
    },
    Whole(Box<Call>),
}

/// A call that is kept: it takes 40 bytes if its arguments are at most three whole numbers, and otherwise a box. Contracts see it as the call.
#[derive(Debug, Drop)]
pub struct KeptCall {
    kept: Kept,
}

impl Model for KeptCall {
    ghost use Rattle.tau_base.specs.declared.value.Call.{Call};
    ghost use Rattle.tau_base.specs.KeptCall.{call_of};

    ghost Value = { Call };

    ghost view = { λ k. call_of k.kept };
}

impl KeptCall {
    /// The same call, kept.
    pub fn of(alloc: Global, call: &Call) -> Result<KeptCall, NoMemory>
        ensures { IfOk result (λ kept. kept ≡ call.now) }
    {
        match short_args(call.args.as_slice()) {
            Some(args) => Ok(KeptCall {
                kept: Kept::Short {
                    proc: call.proc,
                    args,
                },
            }),
            None => KeptCall::boxed(alloc, call),
        }
    }

    /// The same call, in a box. It lays a place for a whole call, which short ones do without.
    #[inline(never)]
    fn boxed(alloc: Global, call: &Call) -> Result<KeptCall, NoMemory>
        ensures { IfOk result (λ kept. kept ≡ call.now) }
    {
        Ok(KeptCall {
            kept: Kept::Whole(Box::new(alloc, call.copied())?),
        })
    }

    /// Puts the call into a place. It takes no memory.
    pub fn put_into(&self, place: &mut Call)
        ensures { place.new ≡ self.now }
    {
        match &self.kept {
            Kept::Short { proc, args } => {
                place.proc = *proc;
                put_numbers(args.as_slice(), &mut place.args);
            }
            Kept::Whole(call) => place.set_to(call.as_ref()),
        }
    }

    /// The call. It takes no memory.
    pub fn call(&self) -> Call
        ensures { result ≡ self.now }
    {
        let mut call = Call {
            proc: 0,
            args: ArrayVec::new(),
        };
        self.put_into(&mut call);
        call
    }

    /// The same call again.
    fn copied(&self, alloc: Global) -> Result<KeptCall, NoMemory>
        ensures { IfOk result (λ copy. copy ≡ self.now) }
    {
        match &self.kept {
            Kept::Short { proc, args } => Ok(KeptCall {
                kept: Kept::Short {
                    proc: *proc,
                    args: copied_numbers(args.as_slice()),
                },
            }),
            Kept::Whole(call) => KeptCall::of(alloc, call.as_ref()),
        }
    }
}

/// The arguments, if they are few whole numbers.
fn short_args(args: &[Value]) -> Option<ArrayVec<i64, SHORT_ARGS>>
    ensures { IfSome result (λ numbers. map Int numbers.items ≡ args.now) }
{
    if args.len() > SHORT_ARGS {
        return None;
    }
    let mut numbers = ArrayVec::new();
    for arg in args {
        let Value::Int(number) = arg else {
            return None;
        };
        numbers.push(*number);
    }
    Some(numbers)
}

/// Whole numbers as the arguments of a call, in place of those before.
fn put_numbers(numbers: &[i64], args: &mut ArrayVec<Value, MAX_ARGS>)
    requires { length numbers.now < 4 }
    ensures { args.new.items ≡ map Int numbers.now }
{
    args.clear();
    for number in numbers {
        args.push(Value::Int(*number));
    }
}

/// Calls in order, of which those with up to three whole numbers as arguments take 40 bytes each. Contracts see it as the list of the calls.
#[derive(Debug, Drop)]
pub struct Calls {
    alloc: Global,
    kept: Vec<KeptCall>,
}

impl Model for Calls {
    ghost use Rattle.std.specs.Prelude.{List};
    ghost use Rattle.tau_base.specs.declared.value.Call.{Call};

    ghost Value = { List Call };

    ghost view = { λ c. c.kept.items };
}

impl Calls {
    /// No calls, which takes no memory.
    pub fn new(alloc: Global) -> Calls
        ensures { result ≡ [] }
    {
        Calls {
            alloc,
            kept: Vec::new(alloc),
        }
    }

    /// How many calls it has.
    pub fn len(&self) -> usize
        ensures { result ≡ length self.now }
    {
        self.kept.len()
    }

    /// Puts a call at the end. Out of memory the list is unchanged.
    pub fn push(&mut self, call: &Call) -> Result<(), NoMemory>
        ensures ok { OnOk result (self.new ≡ self.old ++ call.now ∷ []) }
        ensures err { OnErr result (self.new ≡ self.old) }
    {
        let kept = KeptCall::of(self.alloc, call)?;
        Ok(self.kept.push(kept)?)
    }

    /// Puts the call at this index, from 0, into a place. It takes no memory.
    pub fn put_into(&self, index: usize, place: &mut Call)
        requires { index < length self.now }
        ensures { slice_get self.now index ≡ Some place.new }
    {
        self.kept[index].put_into(place);
    }

    /// The call at this index, from 0, as it is kept.
    pub fn at(&self, index: usize) -> &KeptCall
        requires { index < length self.now }
        ensures { slice_get self.now index ≡ Some result.now }
    {
        &self.kept[index]
    }

    /// The call at this index, from 0. It takes no memory.
    pub fn call_at(&self, index: usize) -> Call
        requires { index < length self.now }
        ensures { slice_get self.now index ≡ Some result }
    {
        self.kept[index].call()
    }

    /// The same calls again.
    pub fn copied(&self, alloc: Global) -> Result<Calls, NoMemory>
        ensures { IfOk result (λ copy. copy ≡ self.now) }
    {
        let mut kept = Vec::with_capacity(alloc, self.kept.len())?;
        put_copies(alloc, self.kept.as_slice(), &mut kept)?;
        Ok(Calls { alloc, kept })
    }
}

/// Puts the same calls again into an empty list.
fn put_copies(alloc: Global, calls: &[KeptCall], kept: &mut Vec<KeptCall>) -> Result<(), NoMemory>
    requires { kept.old.items ≡ [] }
    ensures { OnOk result (kept.new.items ≡ calls.now) }
{
    for call in calls {
        put_copy(alloc, call, kept)?;
    }
    Ok(())
}

/// Puts the same call again at the end.
fn put_copy(alloc: Global, call: &KeptCall, kept: &mut Vec<KeptCall>) -> Result<(), NoMemory>
    ensures { OnOk result (kept.new.items ≡ kept.old.items ++ call.now ∷ []) }
{
    let copy = call.copied(alloc)?;
    kept.push(copy)?;
    Ok(())
}

/// The numbers again.
fn copied_numbers(numbers: &[i64]) -> ArrayVec<i64, SHORT_ARGS>
    requires { length numbers.now < 4 }
    ensures { result.items ≡ numbers.now }
{
    let mut copy = ArrayVec::new();
    for number in numbers {
        copy.push(*number);
    }
    copy
}

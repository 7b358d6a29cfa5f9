//! Values that are lent to a step.
ghost use Rattle.std.specs.Prelude.{◌≡◌, slice_index_or};
ghost use Rattle.tau_proc.specs.Meaning.{value_of};
ghost use Rattle.tau_proc.specs.Lent.{value_of_lent};

use crate::step::Operand;
use tau_base::{Text64, Value};

/// A value that a step reads. A number is copied, a text stays where it is.
#[derive(Clone, Copy)]
pub(crate) enum Lent<'a> {
    /// No value.
    Absent,
    /// A number.
    Int(i64),
    /// A text.
    Text(&'a Text64),
}

/// A value, lent.
pub(crate) fn lent_of(value: &Value) -> Lent<'_>
    ensures { value_of_lent result ≡ value.now }
{
    match value {
        Value::Absent => Lent::Absent,
        Value::Int(number) => Lent::Int(*number),
        Value::Text(text) => Lent::Text(text),
    }
}

/// The value that is lent, again. It takes no memory.
pub(crate) fn copied(lent: &Lent) -> Value
    ensures { result ≡ value_of_lent lent.now }
{
    match lent {
        Lent::Absent => Value::Absent,
        Lent::Int(number) => Value::Int(*number),
        Lent::Text(text) => Value::Text(text.copied()),
    }
}

/// Puts a value that is lent in its place. A whole number in place of another is one word, and a text is put apart.
pub(crate) fn put_lent(place: &mut Value, lent: &Lent)
    ensures { place.new ≡ value_of_lent lent.now }
{
    match lent {
        Lent::Absent => *place = Value::Absent,
        Lent::Int(number) => put_number(place, *number),
        Lent::Text(text) => put_text(place, text),
    }
}

fn put_number(place: &mut Value, number: i64)
    ensures { place.new ≡ Value.Int number }
{
    if let Value::Int(old) = place {
        *old = number;
        return;
    }
    *place = Value::Int(number);
}

#[inline(never)]
fn put_text(place: &mut Value, text: &Text64)
    ensures { place.new ≡ Value.Text text.now }
{
    *place = Value::Text(text.copied());
}

/// The value at a place, absent where there is none.
fn lent_at(values: &[Value], at: usize) -> Lent<'_>
    ensures { value_of_lent result ≡ slice_index_or values.now at Value.Absent }
{
    match values.get(at) {
        Some(value) => lent_of(value),
        None => Lent::Absent,
    }
}

/// The value of an operand, lent.
pub(crate) fn lend<'a>(args: &'a [Value], registers: &'a [Value], operand: &'a Operand) -> Lent<'a>
    ensures { value_of_lent result ≡ value_of args.now registers.now operand.now }
{
    match operand {
        Operand::Register(number) => lent_at(registers, usize::from(*number)),
        Operand::Argument(number) => lent_at(args, usize::from(*number).saturating_sub(1)),
        Operand::Int(number) => Lent::Int(*number),
        Operand::Text(text) => Lent::Text(text),
        Operand::Absent => Lent::Absent,
    }
}

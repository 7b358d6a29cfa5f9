//! What steps make of values.
ghost use Rattle.std.specs.Prelude.{◌≡◌, ◌+ℤ◌, ◌-ℤ◌, ◌*ℤ◌, ◌++◌, nat_le, length, Some, None, if◌then◌else◌};
ghost use Rattle.tau_proc.specs.Lent.{value_of_lent, number_value};
ghost use Rattle.tau_proc.specs.Meaning.{same_value, holds, computed, in_range, smaller, greater, joined, sum_with};

use crate::lent::Lent;
use crate::step::Compare;
use arrayvec::ArrayString;
use tau_base::{MAX_TEXT, Text64, Value};

/// Whether both are of one kind with equal content.
fn is_same(left: &Lent, right: &Lent) -> bool
    ensures { result ≡ same_value (value_of_lent left.now) (value_of_lent right.now) }
{
    match (left, right) {
        (Lent::Absent, Lent::Absent) => true,
        (Lent::Int(a), Lent::Int(b)) => a == b,
        (Lent::Text(a), Lent::Text(b)) => a == b,
        _ => false,
    }
}

/// Whether the comparison holds; none where it is not allowed.
pub(crate) fn holds(how: Compare, left: &Lent, right: &Lent) -> Option<bool>
    ensures { result ≡ holds how (value_of_lent left.now) (value_of_lent right.now) }
{
    match how {
        Compare::Equal => return Some(is_same(left, right)),
        Compare::NotEqual => return Some(!is_same(left, right)),
        _ => {}
    }
    let (Lent::Int(a), Lent::Int(b)) = (left, right) else {
        return None;
    };
    Some(match how {
        Compare::Less => a < b,
        Compare::AtMost => a <= b,
        Compare::Greater => a > b,
        _ => a >= b,
    })
}

/// The sum of two numbers; none of other values, or outside i64.
pub(crate) fn sum(left: &Lent, right: &Lent) -> Option<i64>
    ensures { number_value result ≡ computed (λ a b. in_range (a +ℤ b)) (value_of_lent left.now) (value_of_lent right.now) }
{
    match (left, right) {
        (Lent::Int(a), Lent::Int(b)) => Some(a.checked_add(*b)?),
        _ => None,
    }
}

/// The difference, likewise.
pub(crate) fn difference(left: &Lent, right: &Lent) -> Option<i64>
    ensures { number_value result ≡ computed (λ a b. in_range (a -ℤ b)) (value_of_lent left.now) (value_of_lent right.now) }
{
    match (left, right) {
        (Lent::Int(a), Lent::Int(b)) => Some(a.checked_sub(*b)?),
        _ => None,
    }
}

/// The product, likewise.
pub(crate) fn product(left: &Lent, right: &Lent) -> Option<i64>
    ensures { number_value result ≡ computed (λ a b. in_range (a *ℤ b)) (value_of_lent left.now) (value_of_lent right.now) }
{
    match (left, right) {
        (Lent::Int(a), Lent::Int(b)) => Some(a.checked_mul(*b)?),
        _ => None,
    }
}

/// The smaller of two numbers; none of other values.
pub(crate) fn smaller(left: &Lent, right: &Lent) -> Option<i64>
    ensures { number_value result ≡ computed (λ a b. Some (Value.Int (smaller a b))) (value_of_lent left.now) (value_of_lent right.now) }
{
    match (left, right) {
        (Lent::Int(a), Lent::Int(b)) => Some(if *b < *a { *b } else { *a }),
        _ => None,
    }
}

/// The greater, likewise.
pub(crate) fn greater(left: &Lent, right: &Lent) -> Option<i64>
    ensures { number_value result ≡ computed (λ a b. Some (Value.Int (greater a b))) (value_of_lent left.now) (value_of_lent right.now) }
{
    match (left, right) {
        (Lent::Int(a), Lent::Int(b)) => Some(if *a < *b { *b } else { *a }),
        _ => None,
    }
}

/// Two texts joined; none of other values, or where the result has more than 64 bytes.
pub(crate) fn joined(left: &Lent, right: &Lent) -> Option<Value>
    ensures { result ≡ joined (value_of_lent left.now) (value_of_lent right.now) }
{
    match (left, right) {
        (Lent::Text(a), Lent::Text(b)) => Some(Value::Text(joined_text(a, b)?)),
        _ => None,
    }
}

/// The sum of a row's value, where absent counts as 0, and a number; none of a text, or outside i64.
pub(crate) fn sum_with(value: &Value, number: i64) -> Option<i64>
    ensures { number_value result ≡ sum_with value.now number }
{
    match value {
        Value::Absent => Some(number),
        Value::Int(held) => Some(held.checked_add(number)?),
        Value::Text(_) => None,
    }
}

/// Two texts joined; none where the result has more than 64 bytes.
fn joined_text(left: &Text64, right: &Text64) -> Option<Text64>
    ensures { result ≡ (if nat_le (length (left.now ++ right.now)) MAX_TEXT then Some (left.now ++ right.now) else None) }
{
    let mut text: ArrayString<MAX_TEXT> = ArrayString::new();
    text.try_push_str(left.as_str()).ok()?;
    text.try_push_str(right.as_str()).ok()?;
    Text64::of(text.as_str())
}

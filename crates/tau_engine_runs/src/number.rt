//! Templates: texts in which `{ }` stands for what is worked out for a number `k`.
use std::alloc::Global;
use std::process::Abort;

// One step from left to right. Where the sign is none, there is no number.
fn apply(sign: char, left: u64, right: u64) -> Option<u64> {
    match sign {
        '+' => Some(left.wrapping_add(right)),
        '*' => Some(left.wrapping_mul(right)),
        ':' => left.checked_rem(right),
        _ => None,
    }
}

/// The number that is worked out for this one, from left to right: of `k` and digits, by `+`, `*`, and `:` for what a division leaves.
pub(crate) fn value_of(spelled: &str, k: u64) -> Option<u64> {
    let mut value = 0u64;
    let mut sign = '+';
    let mut number = 0u64;
    for c in spelled.chars() {
        match c.to_digit(10) {
            Some(digit) => number = number.wrapping_mul(10).wrapping_add(u64::from(digit)),
            None if c == 'k' => number = k,
            None => {
                value = apply(sign, value, number)?;
                sign = c;
                number = 0;
            }
        }
    }
    apply(sign, value, number)
}

// The choice with this number, from 0, of those that have `|` between them.
fn choice_of(choices: &str, number: u64) -> Option<&str> {
    let mut left = number;
    for choice in choices.split('|') {
        if left == 0 {
            return Some(choice);
        }
        left = left.wrapping_sub(1);
    }
    None
}

// Puts what is worked out for the number.
fn put_value<R: Abort>(rt: &R, alloc: Global, spelled: &str, k: u64, to: &mut Vec<u8>) -> bool {
    let Some(value) = value_of(spelled, k) else {
        return false;
    };
    let digits = format!(in alloc; "{value}").expect(rt, "memory");
    to.extend_from_slice(digits.as_bytes()).expect(rt, "memory");
    true
}

// Puts the choice whose number is worked out.
fn put_choice<R: Abort>(rt: &R, spelled: &str, choices: &str, k: u64, to: &mut Vec<u8>) -> bool {
    let Some(value) = value_of(spelled, k) else {
        return false;
    };
    let Some(choice) = choice_of(choices, value) else {
        return false;
    };
    to.extend_from_slice(choice.as_bytes()).expect(rt, "memory");
    true
}

// Puts what stands between `{` and `}`, and what comes after it.
fn put_part<R: Abort>(rt: &R, alloc: Global, part: &str, k: u64, to: &mut Vec<u8>) -> bool {
    let Some((spelled, rest)) = part.split_once('}') else {
        return false;
    };
    let is_put = match spelled.split_once('|') {
        Some((number, choices)) => put_choice(rt, number, choices, k, to),
        None => put_value(rt, alloc, spelled, k, to),
    };
    to.extend_from_slice(rest.as_bytes()).expect(rt, "memory");
    is_put
}

/// Puts the template, filled for this number.
pub(crate) fn put_template<R: Abort>(
    rt: &R,
    alloc: Global,
    template: &str,
    k: u64,
    to: &mut Vec<u8>,
) -> bool {
    let (first, rest) = template.split_once('{').unwrap_or((template, ""));
    to.extend_from_slice(first.as_bytes()).expect(rt, "memory");
    if rest.is_empty() {
        return first.len() == template.len();
    }
    for part in rest.split('{') {
        if !put_part(rt, alloc, part, k, to) {
            return false;
        }
    }
    true
}

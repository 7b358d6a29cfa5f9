//! The words of the canonical text. Each function puts bytes at the end of a text, and on an error may have put some.
ghost use Rattle.std.specs.Prelude.{ℕ, List, ◌≡◌, ◌++◌, ◌∷◌, [], OnOk, codes, map, decimal, flat_map};
ghost use Rattle.tau_text.specs.Forms.{names_of};
ghost use Rattle.tau_text.specs.Canonical.{value_word, operand_word, register_word, compare_word, turn_word, table_word, name_at};

use crate::load::Turn;
use itoa::Buffer;
use std::alloc::AllocError;
use tau_base::{Name, Value};
use tau_proc::{Compare, Operand, Proc};

/// The bytes of the name at a place, none where no name is there.
pub fn name_of(names: &[Name], place: usize) -> &[u8]
    ensures { result.now ≡ name_at names.now place }
{
    match names.get(place) {
        Some(name) => name.as_str().as_bytes(),
        None => &[],
    }
}

/// The bytes of the name of the procedure at a place, none where no procedure is there.
pub fn name_of_proc(procs: &[Proc], place: usize) -> &[u8]
    ensures { result.now ≡ name_at (names_of procs.now) place }
{
    match procs.get(place) {
        Some(proc) => proc.name.as_str().as_bytes(),
        None => &[],
    }
}

/// The bytes of the name of the table whose number an argument is.
pub fn name_of_table<'a>(tables: &'a [Name], table: &Value) -> &'a [u8]
    ensures { result.now ≡ table_word tables.now table.now }
{
    match table {
        Value::Int(number) if *number >= 0 => name_of(tables, *number as usize),
        _ => &[],
    }
}

/// A word after another.
pub fn next_word(out: &mut Vec<u8>, word: &[u8]) -> Result<(), AllocError>
    ensures { OnOk result (out.new.items ≡ out.old.items ++ 32 ∷ word.now) }
{
    out.push(b' ')?;
    out.extend_from_slice(word)
}

/// A count after another word.
pub fn next_count(out: &mut Vec<u8>, count: u8) -> Result<(), AllocError>
    ensures { OnOk result (out.new.items ≡ out.old.items ++ 32 ∷ decimal count) }
{
    let mut buffer = Buffer::new();
    next_word(out, buffer.format(count).as_bytes())
}

fn put_number(out: &mut Vec<u8>, number: i64) -> Result<(), AllocError>
    ensures { OnOk result (out.new.items ≡ out.old.items ++ value_word (Value.Int number)) }
{
    let mut buffer = Buffer::new();
    out.extend_from_slice(buffer.format(number).as_bytes())
}

fn put_index(out: &mut Vec<u8>, letter: u8, index: u8) -> Result<(), AllocError>
    ensures { OnOk result (out.new.items ≡ out.old.items ++ letter ∷ decimal index) }
{
    let mut buffer = Buffer::new();
    out.push(letter)?;
    out.extend_from_slice(buffer.format(index).as_bytes())
}

fn put_text(out: &mut Vec<u8>, text: &str) -> Result<(), AllocError>
    ensures { OnOk result (out.new.items ≡ out.old.items ++ value_word (Value.Text text.now)) }
{
    out.push(b'"')?;
    out.extend_from_slice(text.as_bytes())?;
    out.push(b'"')?;
    Ok(())
}

fn put_value(out: &mut Vec<u8>, value: &Value) -> Result<(), AllocError>
    ensures { OnOk result (out.new.items ≡ out.old.items ++ value_word value.now) }
{
    match value {
        Value::Absent => out.extend_from_slice(b"none"),
        Value::Int(number) => put_number(out, *number),
        Value::Text(text) => put_text(out, text.as_str()),
    }
}

fn put_operand(out: &mut Vec<u8>, operand: &Operand) -> Result<(), AllocError>
    ensures { OnOk result (out.new.items ≡ out.old.items ++ operand_word operand.now) }
{
    match operand {
        Operand::Register(number) => put_index(out, b'r', *number),
        Operand::Argument(number) => put_index(out, b'$', *number),
        Operand::Int(number) => put_number(out, *number),
        Operand::Text(text) => put_text(out, text.as_str()),
        Operand::Absent => out.extend_from_slice(b"none"),
    }
}

/// A register after another word.
pub fn next_register(out: &mut Vec<u8>, register: u8) -> Result<(), AllocError>
    ensures { OnOk result (out.new.items ≡ out.old.items ++ 32 ∷ register_word register) }
{
    out.push(b' ')?;
    put_index(out, b'r', register)
}

/// An operand after another word.
pub fn next_operand(out: &mut Vec<u8>, operand: &Operand) -> Result<(), AllocError>
    ensures { OnOk result (out.new.items ≡ out.old.items ++ 32 ∷ operand_word operand.now) }
{
    out.push(b' ')?;
    put_operand(out, operand)
}

/// A comparison after another word.
pub fn next_compare(out: &mut Vec<u8>, how: Compare) -> Result<(), AllocError>
    ensures { OnOk result (out.new.items ≡ out.old.items ++ 32 ∷ compare_word how) }
{
    match how {
        Compare::Equal => out.extend_from_slice(b" ="),
        Compare::NotEqual => out.extend_from_slice(b" !="),
        Compare::Less => out.extend_from_slice(b" <"),
        Compare::AtMost => out.extend_from_slice(b" <="),
        Compare::Greater => out.extend_from_slice(b" >"),
        Compare::AtLeast => out.extend_from_slice(b" >="),
    }
}

/// A value after another word.
fn next_value(out: &mut Vec<u8>, value: &Value) -> Result<(), AllocError>
    ensures { OnOk result (out.new.items ≡ out.old.items ++ 32 ∷ value_word value.now) }
{
    out.push(b' ')?;
    put_value(out, value)
}

/// Values after another word.
pub fn next_values(out: &mut Vec<u8>, values: &[Value]) -> Result<(), AllocError>
    ensures { OnOk result (out.new.items ≡ out.old.items ++ flat_map (λ v. 32 ∷ value_word v) values.now) }
{
    for value in values {
        next_value(out, value)?;
    }
    Ok(())
}

/// A turn after another word.
fn next_turn(out: &mut Vec<u8>, turn: Turn) -> Result<(), AllocError>
    ensures { OnOk result (out.new.items ≡ out.old.items ++ 32 ∷ turn_word turn) }
{
    out.push(b' ')?;
    match turn {
        Turn::Worker(index) => put_index(out, b'w', index),
        Turn::Manager(index) => put_index(out, b'm', index),
        Turn::Anchor(index) => put_index(out, b'a', index),
        Turn::Clerk => out.extend_from_slice(b"c"),
        Turn::Drop => out.extend_from_slice(b"d"),
    }
}

/// Turns after another word.
pub fn next_turns(out: &mut Vec<u8>, turns: &[Turn]) -> Result<(), AllocError>
    ensures { OnOk result (out.new.items ≡ out.old.items ++ flat_map (λ t. 32 ∷ turn_word t) turns.now) }
{
    for turn in turns {
        next_turn(out, *turn)?;
    }
    Ok(())
}

//! The words of a line. Each function puts bytes at the end of a text, and on an error may have put some.
ghost use Rattle.std.specs.Prelude.{◌≡◌, ◌++◌, ◌∷◌, [], OnOk, decimal, slice_index_or};
ghost use Rattle.std.specs.Fmt.{signed_decimal};
ghost use Rattle.tau_base.specs.declared.value.Value.{Value};
ghost use Rattle.tau_report.specs.Lines.{value_text, reply_text, vector_text};

use itoa::Buffer;
use std::alloc::AllocError;
use tau_base::{Lv, Name, Value};
use tau_proc::Reply;

/// The bytes of a table's name, none where there is no such table.
pub fn name_of(tables: &[Name], table: u16) -> &[u8]
    ensures { result.now ≡ slice_index_or tables.now table [] }
{
    match tables.get(usize::from(table)) {
        Some(name) => name.as_str().as_bytes(),
        None => &[],
    }
}

/// A number from 0 up.
#[inline(always)]
pub fn put_number(out: &mut Vec<u8>, number: u64) -> Result<(), AllocError>
    ensures { OnOk result (out.new.items ≡ out.old.items ++ decimal number) }
{
    let mut buffer = Buffer::new();
    out.extend_from_slice(buffer.format(number).as_bytes())
}

#[inline(always)]
fn put_whole(out: &mut Vec<u8>, number: i64) -> Result<(), AllocError>
    ensures { OnOk result (out.new.items ≡ out.old.items ++ signed_decimal number) }
{
    let mut buffer = Buffer::new();
    out.extend_from_slice(buffer.format(number).as_bytes())
}

/// A word after another.
pub fn next_word(out: &mut Vec<u8>, word: &[u8]) -> Result<(), AllocError>
    ensures { OnOk result (out.new.items ≡ out.old.items ++ 32 ∷ word.now) }
{
    out.push(b' ')?;
    out.extend_from_slice(word)
}

/// A number from 0 up after another word.
#[inline(always)]
pub fn next_number(out: &mut Vec<u8>, number: u64) -> Result<(), AllocError>
    ensures { OnOk result (out.new.items ≡ out.old.items ++ 32 ∷ decimal number) }
{
    out.push(b' ')?;
    put_number(out, number)
}

/// A whole number after another word.
pub fn next_whole(out: &mut Vec<u8>, number: i64) -> Result<(), AllocError>
    ensures { OnOk result (out.new.items ≡ out.old.items ++ 32 ∷ signed_decimal number) }
{
    out.push(b' ')?;
    put_whole(out, number)
}

#[inline(never)]
fn next_text(out: &mut Vec<u8>, text: &str) -> Result<(), AllocError>
    ensures { OnOk result (out.new.items ≡ out.old.items ++ 32 ∷ value_text (Value.Text text.now)) }
{
    out.extend_from_slice(b" text \"")?;
    out.extend_from_slice(text.as_bytes())?;
    out.push(b'"')?;
    Ok(())
}

/// A whole number as a value after another word.
#[inline(always)]
pub fn next_int(out: &mut Vec<u8>, number: i64) -> Result<(), AllocError>
    ensures { OnOk result (out.new.items ≡ out.old.items ++ 32 ∷ value_text (Value.Int number)) }
{
    out.extend_from_slice(b" int ")?;
    put_whole(out, number)
}

/// A value after another word.
pub fn next_value(out: &mut Vec<u8>, value: &Value) -> Result<(), AllocError>
    ensures { OnOk result (out.new.items ≡ out.old.items ++ 32 ∷ value_text value.now) }
{
    match value {
        Value::Absent => out.extend_from_slice(b" none"),
        Value::Int(number) => next_int(out, *number),
        Value::Text(text) => next_text(out, text.as_str()),
    }
}

/// A reply after another word.
pub fn next_reply(out: &mut Vec<u8>, reply: &Reply) -> Result<(), AllocError>
    ensures { OnOk result (out.new.items ≡ out.old.items ++ 32 ∷ reply_text reply.now) }
{
    match reply {
        Reply::Ok(value) => next_value(out, value),
        Reply::Refused(step) => {
            out.extend_from_slice(b" refused")?;
            next_number(out, u64::from(*step))
        }
    }
}

/// A vector after another word.
pub fn next_vector(out: &mut Vec<u8>, lv: &Lv) -> Result<(), AllocError>
    ensures { OnOk result (out.new.items ≡ out.old.items ++ 32 ∷ vector_text lv.now) }
{
    let width = lv.width();
    next_number(out, lv.get(0))?;
    for j in 1..width {
        out.push(b',')?;
        put_number(out, lv.get(j))?;
    }
    Ok(())
}

//! The lines of a report. Each function puts lines at the end of a text, and on an error may have put some bytes.
ghost use Rattle.std.specs.Prelude.{◌≡◌, ◌++◌, ◌∷◌, [], OnOk, OnErr, decimal};
ghost use Rattle.tau_report.specs.Lines.{line, value_text, reply_text, ack_line, fate_line, order_line, row_line, end_line};
ghost use Rattle.tau_base.specs.declared.value.Value.{Value};
ghost use Rattle.tau_proc.specs.declared.reply.Reply.{Reply};
ghost use Rattle.tau_report.specs.KeptFate.{fate_by};
ghost use Rattle.tau_report.specs.Report.{fate_lines, order_lines, row_lines};

use crate::fate::{Kept, KeptFate};
use crate::words::{
    name_of, next_int, next_number, next_reply, next_value, next_vector, next_whole, next_word,
    put_number,
};
use std::alloc::AllocError;
use tau_base::{Key, Lv, Name, NoMemory, Value};
use tau_proc::Reply;

fn put_ack(out: &mut Vec<u8>, number: u64, lv: &Lv) -> Result<(), AllocError>
    ensures { OnOk result (out.new.items ≡ out.old.items ++ ack_line (number, lv.now)) }
{
    out.extend_from_slice(b"ack ")?;
    put_number(out, number)?;
    next_vector(out, lv)?;
    out.push(b'\n')?;
    Ok(())
}

/// Makes the buffer the line of an acknowledgement: of the call with this number, which has this vector. For want of
/// memory the buffer is empty.
pub fn ack_line(buffer: &mut Vec<u8>, number: u64, lv: &Lv) -> Result<(), NoMemory>
    ensures line { OnOk result (buffer.new.items ≡ ack_line (number, lv.now)) }
    ensures none { OnErr result (buffer.new.items ≡ []) }
{
    buffer.clear();
    match put_ack(buffer, number, lv) {
        Ok(()) => Ok(()),
        Err(_) => {
            buffer.clear();
            Err(NoMemory)
        }
    }
}

/// The line of a call that replied.
fn put_reply(out: &mut Vec<u8>, word: &[u8], number: u64, reply: &Reply) -> Result<(), AllocError>
    ensures { OnOk result (out.new.items ≡ out.old.items ++ line (word.now ∷ decimal number ∷ reply_text reply.now ∷ [])) }
{
    out.extend_from_slice(word)?;
    next_number(out, number)?;
    next_reply(out, reply)?;
    out.push(b'\n')?;
    Ok(())
}

/// The same of one that replied a whole number, as most do. The word comes with the space after it.
#[inline(always)]
fn put_int_line(out: &mut Vec<u8>, word: &[u8], number: u64, reply: i64) -> Result<(), AllocError>
    ensures { OnOk result (out.new.items ≡ out.old.items ++ word.now ++ line (decimal number ∷ value_text (Value.Int reply) ∷ [])) }
{
    out.extend_from_slice(word)?;
    put_number(out, number)?;
    next_int(out, reply)?;
    out.push(b'\n')?;
    Ok(())
}

/// The line of a call of which nothing but its number is said. The word comes with the space after it.
#[inline(always)]
fn put_number_line(out: &mut Vec<u8>, word: &[u8], number: u64) -> Result<(), AllocError>
    ensures { OnOk result (out.new.items ≡ out.old.items ++ word.now ++ line (decimal number ∷ [])) }
{
    out.extend_from_slice(word)?;
    put_number(out, number)?;
    out.push(b'\n')?;
    Ok(())
}

/// The line of a call that committed.
fn put_committed(
    out: &mut Vec<u8>,
    number: u64,
    acknowledged: bool,
    reply: &Reply,
) -> Result<(), AllocError>
    ensures { OnOk result (out.new.items ≡ out.old.items ++ fate_line number (fate_by acknowledged reply.now)) }
{
    if acknowledged {
        put_reply(out, b"reply", number, reply)
    } else {
        put_reply(out, b"unsure", number, reply)
    }
}

/// The same of one that replied a whole number.
fn put_int_reply(
    out: &mut Vec<u8>,
    number: u64,
    acknowledged: bool,
    reply: i64,
) -> Result<(), AllocError>
    ensures { OnOk result (out.new.items ≡ out.old.items ++ fate_line number (fate_by acknowledged (Reply.Ok (Value.Int reply)))) }
{
    if acknowledged {
        put_int_line(out, b"reply ", number, reply)
    } else {
        put_int_line(out, b"unsure ", number, reply)
    }
}

fn put_fate(out: &mut Vec<u8>, number: u64, fate: &KeptFate) -> Result<(), AllocError>
    ensures { OnOk result (out.new.items ≡ out.old.items ++ fate_line number fate.now) }
{
    match &fate.kept {
        Kept::Unrun => put_number_line(out, b"unrun ", number),
        Kept::Int {
            acknowledged,
            number: reply,
        } => put_int_reply(out, number, *acknowledged, *reply),
        Kept::Other {
            acknowledged,
            reply,
        } => put_committed(out, number, *acknowledged, reply.as_ref()),
    }
}

/// A line for each call, from number 1 on.
pub fn put_fates(out: &mut Vec<u8>, fates: &[KeptFate]) -> Result<(), AllocError>
    ensures { OnOk result (out.new.items ≡ out.old.items ++ fate_lines 1 fates.now) }
{
    let mut number = 0u64;
    for fate in fates {
        number += 1;
        put_fate(out, number, fate)?;
    }
    Ok(())
}

/// A line for each call of the history.
pub fn put_order(out: &mut Vec<u8>, order: &[u64]) -> Result<(), AllocError>
    ensures { OnOk result (out.new.items ≡ out.old.items ++ order_lines order.now) }
{
    for number in order {
        put_number_line(out, b"order ", *number)?;
    }
    Ok(())
}

fn put_row(out: &mut Vec<u8>, tables: &[Name], key: Key, value: &Value) -> Result<(), AllocError>
    ensures { OnOk result (out.new.items ≡ out.old.items ++ row_line tables.now (key, value.now)) }
{
    out.extend_from_slice(b"row")?;
    next_word(out, name_of(tables, key.table))?;
    next_whole(out, key.row)?;
    next_value(out, value)?;
    out.push(b'\n')?;
    Ok(())
}

/// A line for each row.
pub fn put_rows(out: &mut Vec<u8>, tables: &[Name], rows: &[(Key, Value)]) -> Result<(), AllocError>
    ensures { OnOk result (out.new.items ≡ out.old.items ++ row_lines tables.now rows.now) }
{
    for row in rows {
        put_row(out, tables, row.0, &row.1)?;
    }
    Ok(())
}

/// The last line, with the stream whose disk failed.
pub fn put_end(out: &mut Vec<u8>, disk: Option<u8>) -> Result<(), AllocError>
    ensures { OnOk result (out.new.items ≡ out.old.items ++ end_line disk) }
{
    match disk {
        None => out.extend_from_slice(b"end 0\n"),
        Some(stream) => put_number_line(out, b"end 6 ", u64::from(stream)),
    }
}

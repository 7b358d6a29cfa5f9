//! Writing records.
ghost use Rattle.std.specs.Prelude.{◌≡◌, ◌<◌, ◌≤◌, ◌+◌, ◌^◌, ◌++◌, ◌∷◌, [], length, List, ℕ, IfOk, OnErr, OnOk, IsTrue, true, false};
ghost use Rattle.std.specs.FinMap.{is_sorted};
ghost use Rattle.std.specs.Int.{w32, w64, to_be_bytes};
ghost use Rattle.tau_base.specs.Database.{key_cmp};
ghost use Rattle.tau_base.specs.Vectors.{AtMost};
ghost use Rattle.tau_record.specs.Format.{One, Two, most_streams};
ghost use Rattle.tau_record.specs.Record.{origin, base_of, Spells};
ghost use Rattle.tau_record.specs.Vector.{ArePlaces};
ghost use Rattle.tau_record.specs.declared.entry.Entry.TheVariants.{Written, Command, Anchor, Catalogue, Epoch};

use crate::item::{args_size, put_args, put_writes, writes_size};
use crate::kind;
use crate::vector::{mask_size, parts_size, put_lv, put_vector};
use std::alloc::{AllocError, Global};
use tau_base::{Call, Format, Key, Lv, MAX_CATALOGUE, MAX_WRITES, NoMemory, Value};

/// A kind and the length of the whole record, with room for its fields, which take `size` bytes.
fn begin(alloc: Global, kind: u8, size: usize) -> Result<Vec<u8>, AllocError>
    requires { size < 2 ^ 31 }
    ensures { IfOk result (λ v. v.items ≡ kind ∷ to_be_bytes w32 (5 + size)) }
{
    let mut out = Vec::with_capacity(alloc, 5 + size)?;
    out.push(kind)?;
    out.extend_from_slice(&(5 + size as u32).to_be_bytes())?;
    Ok(out)
}

/// A kind, the length of the whole record, the number of a call and that of an anchor, as one piece.
fn head_of(kind: u8, len: u32, number: u64, anchor_number: u32) -> [u8; 17]
    ensures { result ≡ kind ∷ (to_be_bytes w32 len ++ (to_be_bytes w64 number ++ to_be_bytes w32 anchor_number)) }
{
    let [l0, l1, l2, l3] = len.to_be_bytes();
    let [n0, n1, n2, n3, n4, n5, n6, n7] = number.to_be_bytes();
    let [a0, a1, a2, a3] = anchor_number.to_be_bytes();
    [
        kind, l0, l1, l2, l3, n0, n1, n2, n3, n4, n5, n6, n7, a0, a1, a2, a3,
    ]
}

/// The kind, the length of the whole record, and whose record it is, with room for all fields, which take `size` bytes.
fn begin_call(
    out: &mut Vec<u8>,
    kind: u8,
    size: usize,
    format: Format,
    number: u64,
    anchor_number: u32,
    dep: &Lv,
    anchor: &Lv,
) -> Result<(), AllocError>
    requires empty { out.old.items ≡ [] }
    requires small { size < 2 ^ 31 }
    requires width { length anchor.now ≡ length dep.now }
    requires fits { length anchor.now ≤ most_streams format }
    ensures bytes { OnOk result (out.new.items ≡ (kind ∷ to_be_bytes w32 (5 + size)) ++ origin format anchor.now number anchor_number dep.now) }
    ensures places { OnOk result (ArePlaces dep.now) }
{
    out.try_reserve_exact(5 + size)?;
    out.extend_from_slice(&head_of(kind, 5 + size as u32, number, anchor_number))?;
    put_vector(out, format, anchor, dep)?;
    Ok(())
}

fn put_written(
    out: &mut Vec<u8>,
    format: Format,
    number: u64,
    anchor_number: u32,
    dep: &Lv,
    anchor: &Lv,
    writes: &[(Key, Value)],
) -> Result<(), AllocError>
    requires empty { out.old.items ≡ [] }
    requires width { length dep.now ≡ length anchor.now }
    requires covers { AtMost anchor.now dep.now }
    requires streams { length dep.now ≤ most_streams format }
    requires some { 1 ≤ length writes.now }
    requires most { length writes.now ≤ MAX_WRITES }
    requires ascending { IsTrue (is_sorted key_cmp writes.now) }
    requires number { 1 ≤ number }
    ensures { OnOk result ((vectors : List (List ℕ)) → base_of vectors anchor_number ≡ anchor.now →
        Spells format (length dep.now) vectors false (Written number anchor_number dep.now writes.now) out.new.items) }
{
    let size = 14 + mask_size(format) + parts_size(anchor, dep) + writes_size(writes);
    begin_call(
        out,
        kind::WRITTEN,
        size,
        format,
        number,
        anchor_number,
        dep,
        anchor,
    )?;
    out.extend_from_slice(&(writes.len() as u16).to_be_bytes())?;
    put_writes(out, writes)?;
    Ok(())
}

/// A data record. `anchor` is the vector of the stream's anchor with the number given, or zero where that is 0.
pub fn encode_written(
    alloc: Global,
    number: u64,
    anchor_number: u32,
    dep: &Lv,
    anchor: &Lv,
    writes: &[(Key, Value)],
) -> Result<Vec<u8>, NoMemory>
    requires width { length dep.now ≡ length anchor.now }
    requires covers { AtMost anchor.now dep.now }
    requires streams { length dep.now ≤ most_streams One }
    requires some { 1 ≤ length writes.now }
    requires most { length writes.now ≤ MAX_WRITES }
    requires ascending { IsTrue (is_sorted key_cmp writes.now) }
    requires number { 1 ≤ number }
    // The one spelling, after any anchors of which the number names this one.
    ensures { IfOk result (λ v. (vectors : List (List ℕ)) → base_of vectors anchor_number ≡ anchor.now →
        Spells One (length dep.now) vectors false (Written number anchor_number dep.now writes.now) v.items) }
{
    let mut out = Vec::new(alloc);
    encode_written_into(&mut out, number, anchor_number, dep, anchor, writes)?;
    Ok(out)
}

/// The same, written into an empty vector, which may have memory from before. Out of memory it stays empty.
pub fn encode_written_into(
    out: &mut Vec<u8>,
    number: u64,
    anchor_number: u32,
    dep: &Lv,
    anchor: &Lv,
    writes: &[(Key, Value)],
) -> Result<(), NoMemory>
    requires empty { out.old.items ≡ [] }
    requires width { length dep.now ≡ length anchor.now }
    requires covers { AtMost anchor.now dep.now }
    requires streams { length dep.now ≤ most_streams One }
    requires some { 1 ≤ length writes.now }
    requires most { length writes.now ≤ MAX_WRITES }
    requires ascending { IsTrue (is_sorted key_cmp writes.now) }
    requires number { 1 ≤ number }
    // The one spelling, after any anchors of which the number names this one.
    ensures spells { OnOk result ((vectors : List (List ℕ)) → base_of vectors anchor_number ≡ anchor.now →
        Spells One (length dep.now) vectors false (Written number anchor_number dep.now writes.now) out.new.items) }
    ensures none { OnErr result (out.new.items ≡ []) }
{
    match put_written(out, Format::One, number, anchor_number, dep, anchor, writes) {
        Ok(()) => Ok(()),
        Err(_) => {
            out.clear();
            Err(NoMemory)
        }
    }
}

/// A data record of format 2. `anchor` is the vector of the stream's anchor with the number given, or zero where that is 0.
pub fn encode_written_wide(
    alloc: Global,
    number: u64,
    anchor_number: u32,
    dep: &Lv,
    anchor: &Lv,
    writes: &[(Key, Value)],
) -> Result<Vec<u8>, NoMemory>
    requires width { length dep.now ≡ length anchor.now }
    requires covers { AtMost anchor.now dep.now }
    requires streams { length dep.now ≤ most_streams Two }
    requires some { 1 ≤ length writes.now }
    requires most { length writes.now ≤ MAX_WRITES }
    requires ascending { IsTrue (is_sorted key_cmp writes.now) }
    requires number { 1 ≤ number }
    // The one spelling, after any anchors of which the number names this one.
    ensures { IfOk result (λ v. (vectors : List (List ℕ)) → base_of vectors anchor_number ≡ anchor.now →
        Spells Two (length dep.now) vectors false (Written number anchor_number dep.now writes.now) v.items) }
{
    let mut out = Vec::new(alloc);
    encode_written_wide_into(&mut out, number, anchor_number, dep, anchor, writes)?;
    Ok(out)
}

/// The same, written into an empty vector, which may have memory from before. Out of memory it stays empty.
pub fn encode_written_wide_into(
    out: &mut Vec<u8>,
    number: u64,
    anchor_number: u32,
    dep: &Lv,
    anchor: &Lv,
    writes: &[(Key, Value)],
) -> Result<(), NoMemory>
    requires empty { out.old.items ≡ [] }
    requires width { length dep.now ≡ length anchor.now }
    requires covers { AtMost anchor.now dep.now }
    requires streams { length dep.now ≤ most_streams Two }
    requires some { 1 ≤ length writes.now }
    requires most { length writes.now ≤ MAX_WRITES }
    requires ascending { IsTrue (is_sorted key_cmp writes.now) }
    requires number { 1 ≤ number }
    // The one spelling, after any anchors of which the number names this one.
    ensures spells { OnOk result ((vectors : List (List ℕ)) → base_of vectors anchor_number ≡ anchor.now →
        Spells Two (length dep.now) vectors false (Written number anchor_number dep.now writes.now) out.new.items) }
    ensures none { OnErr result (out.new.items ≡ []) }
{
    match put_written(out, Format::Two, number, anchor_number, dep, anchor, writes) {
        Ok(()) => Ok(()),
        Err(_) => {
            out.clear();
            Err(NoMemory)
        }
    }
}

fn put_command(
    out: &mut Vec<u8>,
    format: Format,
    number: u64,
    anchor_number: u32,
    dep: &Lv,
    anchor: &Lv,
    call: &Call,
) -> Result<(), AllocError>
    requires empty { out.old.items ≡ [] }
    requires width { length dep.now ≡ length anchor.now }
    requires covers { AtMost anchor.now dep.now }
    requires streams { length dep.now ≤ most_streams format }
    requires number { 1 ≤ number }
    ensures { OnOk result ((vectors : List (List ℕ)) → base_of vectors anchor_number ≡ anchor.now →
        Spells format (length dep.now) vectors false (Command number anchor_number dep.now call.now) out.new.items) }
{
    let args = call.args.as_slice();
    let size = 15 + mask_size(format) + parts_size(anchor, dep) + args_size(args);
    begin_call(
        out,
        kind::COMMAND,
        size,
        format,
        number,
        anchor_number,
        dep,
        anchor,
    )?;
    out.extend_from_slice(&call.proc.to_be_bytes())?;
    out.push(args.len() as u8)?;
    put_args(out, args)?;
    Ok(())
}

/// A command record. `anchor` is the vector of the stream's anchor with the number given, or zero where that is 0.
pub fn encode_command(
    alloc: Global,
    number: u64,
    anchor_number: u32,
    dep: &Lv,
    anchor: &Lv,
    call: &Call,
) -> Result<Vec<u8>, NoMemory>
    requires width { length dep.now ≡ length anchor.now }
    requires covers { AtMost anchor.now dep.now }
    requires streams { length dep.now ≤ most_streams One }
    requires number { 1 ≤ number }
    // The one spelling, after any anchors of which the number names this one.
    ensures { IfOk result (λ v. (vectors : List (List ℕ)) → base_of vectors anchor_number ≡ anchor.now →
        Spells One (length dep.now) vectors false (Command number anchor_number dep.now call.now) v.items) }
{
    let mut out = Vec::new(alloc);
    encode_command_into(&mut out, number, anchor_number, dep, anchor, call)?;
    Ok(out)
}

/// The same, written into an empty vector, which may have memory from before. Out of memory it stays empty.
pub fn encode_command_into(
    out: &mut Vec<u8>,
    number: u64,
    anchor_number: u32,
    dep: &Lv,
    anchor: &Lv,
    call: &Call,
) -> Result<(), NoMemory>
    requires empty { out.old.items ≡ [] }
    requires width { length dep.now ≡ length anchor.now }
    requires covers { AtMost anchor.now dep.now }
    requires streams { length dep.now ≤ most_streams One }
    requires number { 1 ≤ number }
    // The one spelling, after any anchors of which the number names this one.
    ensures spells { OnOk result ((vectors : List (List ℕ)) → base_of vectors anchor_number ≡ anchor.now →
        Spells One (length dep.now) vectors false (Command number anchor_number dep.now call.now) out.new.items) }
    ensures none { OnErr result (out.new.items ≡ []) }
{
    match put_command(out, Format::One, number, anchor_number, dep, anchor, call) {
        Ok(()) => Ok(()),
        Err(_) => {
            out.clear();
            Err(NoMemory)
        }
    }
}

/// A command record of format 2. `anchor` is the vector of the stream's anchor with the number given, or zero where that is 0.
pub fn encode_command_wide(
    alloc: Global,
    number: u64,
    anchor_number: u32,
    dep: &Lv,
    anchor: &Lv,
    call: &Call,
) -> Result<Vec<u8>, NoMemory>
    requires width { length dep.now ≡ length anchor.now }
    requires covers { AtMost anchor.now dep.now }
    requires streams { length dep.now ≤ most_streams Two }
    requires number { 1 ≤ number }
    // The one spelling, after any anchors of which the number names this one.
    ensures { IfOk result (λ v. (vectors : List (List ℕ)) → base_of vectors anchor_number ≡ anchor.now →
        Spells Two (length dep.now) vectors false (Command number anchor_number dep.now call.now) v.items) }
{
    let mut out = Vec::new(alloc);
    encode_command_wide_into(&mut out, number, anchor_number, dep, anchor, call)?;
    Ok(out)
}

/// The same, written into an empty vector, which may have memory from before. Out of memory it stays empty.
pub fn encode_command_wide_into(
    out: &mut Vec<u8>,
    number: u64,
    anchor_number: u32,
    dep: &Lv,
    anchor: &Lv,
    call: &Call,
) -> Result<(), NoMemory>
    requires empty { out.old.items ≡ [] }
    requires width { length dep.now ≡ length anchor.now }
    requires covers { AtMost anchor.now dep.now }
    requires streams { length dep.now ≤ most_streams Two }
    requires number { 1 ≤ number }
    // The one spelling, after any anchors of which the number names this one.
    ensures spells { OnOk result ((vectors : List (List ℕ)) → base_of vectors anchor_number ≡ anchor.now →
        Spells Two (length dep.now) vectors false (Command number anchor_number dep.now call.now) out.new.items) }
    ensures none { OnErr result (out.new.items ≡ []) }
{
    match put_command(out, Format::Two, number, anchor_number, dep, anchor, call) {
        Ok(()) => Ok(()),
        Err(_) => {
            out.clear();
            Err(NoMemory)
        }
    }
}

fn anchor_bytes(alloc: Global, lv: &Lv) -> Result<Vec<u8>, AllocError>
    ensures { IfOk result (λ v. (f : Format) (vectors : List (List ℕ)) → Spells f (length lv.now) vectors false (Anchor lv.now) v.items) }
{
    let mut out = begin(alloc, kind::ANCHOR, 8 * lv.width())?;
    put_lv(&mut out, lv)?;
    Ok(out)
}

/// An anchor that holds the vector.
pub fn encode_anchor(alloc: Global, lv: &Lv) -> Result<Vec<u8>, NoMemory>
    // The one spelling in each format, after any anchors.
    ensures { IfOk result (λ v. (f : Format) (vectors : List (List ℕ)) → Spells f (length lv.now) vectors false (Anchor lv.now) v.items) }
{
    Ok(anchor_bytes(alloc, lv)?)
}

fn epoch_bytes(alloc: Global, number: u32, lv: &Lv) -> Result<Vec<u8>, AllocError>
    requires { 1 ≤ number }
    ensures { IfOk result (λ v. (f : Format) (vectors : List (List ℕ)) → Spells f (length lv.now) vectors false (Epoch number lv.now) v.items) }
{
    let mut out = begin(alloc, kind::EPOCH, 4 + 8 * lv.width())?;
    out.extend_from_slice(&number.to_be_bytes())?;
    put_lv(&mut out, lv)?;
    Ok(out)
}

/// An epoch with this number that holds the vector.
pub fn encode_epoch(alloc: Global, number: u32, lv: &Lv) -> Result<Vec<u8>, NoMemory>
    requires { 1 ≤ number }
    // The one spelling in each format, after any anchors.
    ensures { IfOk result (λ v. (f : Format) (vectors : List (List ℕ)) → Spells f (length lv.now) vectors false (Epoch number lv.now) v.items) }
{
    Ok(epoch_bytes(alloc, number, lv)?)
}

fn catalogue_bytes(alloc: Global, text: &[u8]) -> Result<Vec<u8>, AllocError>
    requires { length text.now ≤ MAX_CATALOGUE }
    ensures { IfOk result (λ v. (n : ℕ) (vectors : List (List ℕ)) → Spells One n vectors true (Catalogue text.now) v.items) }
{
    let mut out = begin(alloc, kind::CATALOGUE, text.len())?;
    out.extend_from_slice(text)?;
    Ok(out)
}

/// The catalogue record of a text.
pub fn encode_catalogue(alloc: Global, text: &[u8]) -> Result<Vec<u8>, NoMemory>
    requires { length text.now ≤ MAX_CATALOGUE }
    // The one spelling, of the first record.
    ensures { IfOk result (λ v. (n : ℕ) (vectors : List (List ℕ)) → Spells One n vectors true (Catalogue text.now) v.items) }
{
    Ok(catalogue_bytes(alloc, text)?)
}

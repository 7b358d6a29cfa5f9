//! The vector of a record.
ghost use Rattle.std.specs.Prelude.{◌≡◌, ◌<◌, ◌≤◌, ◌*◌, ◌^◌, ◌++◌, ℕ, length, slice_index, IfOk, OnOk, nat_lt, if◌then◌else◌};
ghost use Rattle.std.specs.Int.{w64, bit_at, byte_len, to_be_bytes};
ghost use Rattle.std.specs.List.{flat_map};
ghost use Rattle.tau_base.specs.Vectors.{AtMost, join};
ghost use Rattle.tau_record.specs.declared.dep.TheConstants.{SHORT_WIDTH};
ghost use Rattle.tau_record.specs.Field.{Gives, number_at};
ghost use Rattle.tau_record.specs.Format.{One, Two, mask_width, most_streams};
ghost use Rattle.tau_record.specs.Vector.{ArePlaces, mask_of, above, vector, part_at, parts_at, vector_at};

use crate::dep::{KeptLv, SHORT_WIDTH, Short};
use crate::fault::{FieldError, RecordCause};
use crate::field::{u16_of, u32_of, u64_of};
use arrayvec::ArrayVec;
use std::alloc::{AllocError, Global};
use tau_base::{Format, Lv, MAX_LSN};

// ---- reading

#[tactic(auto, unfolding(crate::specs::Vector::part_at))]
fn part_of(low: u64, bit: u32, bytes: &[u8]) -> Result<(u64, &[u8]), FieldError>
    requires { low < MAX_LSN }
    ensures exact { Gives (λ x. (x.0, x.1.now)) result (part_at low bit bytes.now) }
    ensures small { IfOk result (λ x. x.0 < MAX_LSN) }
{
    if bit == 0 {
        return Ok((low, bytes));
    }
    let (part, rest) = u64_of(bytes)?;
    if part <= low {
        return Err(FieldError::Bad(RecordCause::BadMask));
    }
    if part >= MAX_LSN {
        return Err(FieldError::Bad(RecordCause::BadMask));
    }
    Ok((part, rest))
}

fn parts_of<'a>(base: &Lv, mask: u32, bytes: &'a [u8], dep: &mut Lv) -> Result<&'a [u8], FieldError>
    ensures { Gives (λ x. (dep.new, x.now)) result (parts_at base.now mask bytes.now) }
{
    dep.copy_from(base);
    let mut left = mask;
    let mut rest = bytes;
    for j in 0..base.width() {
        let (part, after) = part_of(base.get(j), left % 2, rest)?;
        dep.set(j, part);
        left /= 2;
        rest = after;
    }
    Ok(rest)
}

/// Reads the parts of a vector of few positions, and keeps each at once.
#[inline(always)]
fn short_parts_of<'a>(
    base: &Lv,
    mask: u32,
    bytes: &'a [u8],
) -> Result<(Short, &'a [u8]), FieldError>
    requires { length base.now ≤ SHORT_WIDTH }
    ensures { Gives (λ x. (x.0.items, x.1.now)) result (parts_at base.now mask bytes.now) }
{
    let mut short = ArrayVec::new();
    let mut left = mask;
    let mut rest = bytes;
    for j in 0..base.width() {
        let (part, after) = part_of(base.get(j), left % 2, rest)?;
        short.push(part);
        left /= 2;
        rest = after;
    }
    Ok((short, rest))
}

/// Reads a mask, in the width of the format.
#[tactic(auto, unfolding(crate::specs::Format::mask_width))]
fn read_mask(format: Format, bytes: &[u8]) -> Result<(u32, &[u8]), FieldError>
    ensures { Gives (λ x. (x.0, x.1.now)) result (number_at (mask_width format) bytes.now) }
{
    match format {
        Format::One => {
            let (mask, rest) = u16_of(bytes)?;
            Ok((mask as u32, rest))
        }
        Format::Two => u32_of(bytes),
    }
}

/// Reads the parts of a vector of many positions, by way of `dep` unless it is the base's.
#[inline(never)]
fn long_parts_of<'a>(
    alloc: Global,
    base: &Lv,
    mask: u32,
    bytes: &'a [u8],
    dep: &mut Lv,
) -> Result<(KeptLv, &'a [u8]), FieldError>
    ensures { Gives (λ x. (x.0, x.1.now)) result (parts_at base.now mask bytes.now) }
{
    if mask == 0 {
        return Ok((KeptLv::whole(alloc, base)?, bytes));
    }
    let rest = parts_of(base, mask, bytes, dep)?;
    Ok((KeptLv::whole(alloc, dep)?, rest))
}

/// Reads a vector above a base, by way of `dep` if it is long and not the base's.
#[inline(always)]
#[tactic(auto, unfolding(crate::specs::Vector::vector_at))]
pub(crate) fn vector_of<'a>(
    alloc: Global,
    format: Format,
    base: &Lv,
    bytes: &'a [u8],
    dep: &mut Lv,
) -> Result<(KeptLv, &'a [u8]), FieldError>
    ensures { Gives (λ x. (x.0, x.1.now)) result (vector_at format base.now bytes.now) }
{
    let (mask, rest) = read_mask(format, bytes)?;
    if u64::from(mask) >= 1 << base.width() {
        return Err(FieldError::Bad(RecordCause::BadMask));
    }
    if base.width() > SHORT_WIDTH {
        return long_parts_of(alloc, base, mask, rest, dep);
    }
    let (short, rest) = short_parts_of(base, mask, rest)?;
    Ok((KeptLv::short(short), rest))
}

// ---- writing

fn bit_above(low: u64, part: u64) -> u64
    ensures { result ≡ (if nat_lt low part then 1 else 0) }
{
    if low < part { 1 } else { 0 }
}

fn mask_above(base: &Lv, dep: &Lv) -> u32
    requires { length base.now ≡ length dep.now }
    ensures { result ≡ mask_of base.now dep.now }
{
    let n = base.width();
    let mut mask: u64 = 0;
    for k in 0..n {
        let j = n - 1 - k;
        let bit = bit_above(base.get(j), dep.get(j));
        mask = 2 * mask + bit;
    }
    mask as u32
}

/// How many bytes the components above those of the base take.
pub(crate) fn parts_size(base: &Lv, dep: &Lv) -> usize
    requires { length base.now ≡ length dep.now }
    ensures exact { result ≡ length (flat_map (to_be_bytes w64) (above base.now dep.now)) }
    ensures small { result ≤ 8 * length base.now }
    ensures wide { 1 ≤ length base.now }
{
    let mut size = 0;
    for j in 0..base.width() {
        if base.get(j) < dep.get(j) {
            size += 8;
        }
    }
    size
}

fn put_parts(out: &mut Vec<u8>, base: &Lv, dep: &Lv) -> Result<(), AllocError>
    requires { length base.now ≡ length dep.now }
    ensures bytes { OnOk result (out.new.items ≡ out.old.items ++ flat_map (to_be_bytes w64) (above base.now dep.now)) }
    ensures places { OnOk result (ArePlaces dep.now) }
{
    for j in 0..base.width() {
        let part = dep.get(j);
        if base.get(j) < part {
            out.extend_from_slice(&part.to_be_bytes())?;
        }
    }
    Ok(())
}

/// How many bytes a mask takes.
#[tactic(auto, unfolding(crate::specs::Format::mask_width))]
pub(crate) fn mask_size(format: Format) -> usize
    ensures exact { result ≡ byte_len (mask_width format) }
    ensures small { result ≤ 4 }
{
    match format {
        Format::One => 2,
        Format::Two => 4,
    }
}

/// Writes a mask, in the width of the format.
#[tactic(auto, unfolding(crate::specs::Format::mask_width))]
fn put_mask(out: &mut Vec<u8>, format: Format, mask: u32) -> Result<(), AllocError>
    requires { mask < 2 ^ most_streams format }
    ensures { OnOk result (out.new.items ≡ out.old.items ++ to_be_bytes (mask_width format) mask) }
{
    match format {
        Format::One => out.extend_from_slice(&(mask as u16).to_be_bytes()),
        Format::Two => out.extend_from_slice(&mask.to_be_bytes()),
    }
}

/// Writes the mask, and the components above those of the base.
pub(crate) fn put_vector(
    out: &mut Vec<u8>,
    format: Format,
    base: &Lv,
    dep: &Lv,
) -> Result<(), AllocError>
    requires width { length base.now ≡ length dep.now }
    requires fits { length base.now ≤ most_streams format }
    ensures bytes { OnOk result (out.new.items ≡ out.old.items ++ vector format base.now dep.now) }
    ensures places { OnOk result (ArePlaces dep.now) }
{
    put_mask(out, format, mask_above(base, dep))?;
    put_parts(out, base, dep)
}

/// Writes each component.
pub(crate) fn put_lv(out: &mut Vec<u8>, lv: &Lv) -> Result<(), AllocError>
    ensures bytes { OnOk result (out.new.items ≡ out.old.items ++ flat_map (to_be_bytes w64) lv.now) }
    ensures places { OnOk result (ArePlaces lv.now) }
{
    for j in 0..lv.width() {
        out.extend_from_slice(&lv.get(j).to_be_bytes())?;
    }
    Ok(())
}

// ---- compression

/// The vector, raised to at least that of the anchor in each component. Only what was raised may be written above it.
pub fn raise(dep: &Lv, anchor: &Lv) -> Lv
    ensures same { result ≡ join dep.now anchor.now }
    ensures covers { AtMost anchor.now result }
    ensures width { length dep.now ≡ length anchor.now → length result ≡ length dep.now }
{
    dep.join(anchor)
}

/// The mask of a vector above an anchor's: bit `j` is stream `j`.
pub fn compress(dep: &Lv, anchor: &Lv) -> u16
    requires width { length dep.now ≡ length anchor.now }
    requires covers { AtMost anchor.now dep.now }
    requires streams { length dep.now ≤ most_streams One }
    ensures exact { result ≡ mask_of anchor.now dep.now }
    // A bit is set exactly where the component is above the anchor's.
    ensures bits { (j : ℕ) → j < length dep.now → bit_at result j ≡ (if nat_lt (slice_index anchor.now j) (slice_index dep.now j) then 1 else 0) }
    // There are no other bits.
    ensures small { result < 2 ^ length dep.now }
{
    mask_above(anchor, dep) as u16
}

/// The mask of a vector above an anchor's in format 2: bit `j` is stream `j`.
pub fn compress_wide(dep: &Lv, anchor: &Lv) -> u32
    requires width { length dep.now ≡ length anchor.now }
    requires covers { AtMost anchor.now dep.now }
    requires streams { length dep.now ≤ most_streams Two }
    ensures exact { result ≡ mask_of anchor.now dep.now }
    // A bit is set exactly where the component is above the anchor's.
    ensures bits { (j : ℕ) → j < length dep.now → bit_at result j ≡ (if nat_lt (slice_index anchor.now j) (slice_index dep.now j) then 1 else 0) }
    // There are no other bits.
    ensures small { result < 2 ^ length dep.now }
{
    mask_above(anchor, dep)
}

//! The fields that stand before the rows, spelled and read.
ghost use Rattle.std.specs.Prelude.{◌≡◌, ◌<◌, ◌≤◌, ◌+◌, ◌++◌, ◌∷◌, ◌^◌, List, ℕ, length, take, IfSome, IfNone};
ghost use Rattle.std.specs.Int.{w32, w64, to_be_bytes};
ghost use Rattle.tau_base.specs.declared.limits.TheConstants.{MAX_LSN, MAX_STREAMS};
ghost use Rattle.tau_ckpt.specs.Slot.{frame, ArePositions, Begins, IsFramed};
ghost use Rattle.tau_ckpt.specs.declared.front.Head.{Head as OneHead};

use tau_base::{Lv, MAX_LSN, MAX_STREAMS};

/// The bytes between a gate and a body.
pub(crate) const FRAME: usize = 24;

/// The fields of a body before its rows.
#[derive(Drop)]
pub(crate) struct Head {
    /// The number of the checkpoint.
    pub(crate) number: u64,
    /// The largest known epoch number.
    pub(crate) epoch: u32,
    /// The positions up to which the log was redone.
    pub(crate) lv: Lv,
    /// How many rows there are.
    pub(crate) count: u64,
}

/// The bytes between the gate of a slot and a body of so many bytes.
#[tactic(auto, unfolding(crate::specs::Slot::frame))]
pub(crate) fn frame(streams: u16, slot: u8, size: u64) -> [u8; FRAME]
    ensures { result ≡ frame streams slot size }
{
    let [n0, n1] = streams.to_be_bytes();
    let [j0, j1] = (slot as u16).to_be_bytes();
    let [s0, s1, s2, s3, s4, s5, s6, s7] = size.to_be_bytes();
    [
        b'T', b'A', b'U', b'R', b'U', b'S', b'-', b'C', b'K', b'P', b'-', b'1', n0, n1, j0, j1, s0,
        s1, s2, s3, s4, s5, s6, s7,
    ]
}

/// For how many streams the checkpoint in an image of a slot is, and its body.
pub(crate) fn framed(slot: u8, image: &[u8]) -> Option<(u16, &[u8])>
    ensures some { IfSome result (λ x. IsFramed slot image.now x.0 x.1.now) }
    ensures none { IfNone result ((streams : ℕ) (body : List ℕ) → IsFramed slot image.now streams body → ⊥) }
{
    if image.len() <= FRAME {
        return None;
    }
    if image[0] != 1 {
        return None;
    }
    let (front, behind) = image[1..].split_at(FRAME);
    let streams = u16::from_be_bytes([front[12], front[13]]);
    let size = u64::from_be_bytes([
        front[16], front[17], front[18], front[19], front[20], front[21], front[22], front[23],
    ]);
    if streams < 1 {
        return None;
    }
    if streams as usize > MAX_STREAMS {
        return None;
    }
    if !front.starts_with(&frame(streams, slot, size)) {
        return None;
    }
    if size > behind.len() as u64 {
        return None;
    }
    Some((streams, &behind[..size as usize]))
}

/// The number at the front of the bytes, and what is left after it.
fn u64_of(bytes: &[u8]) -> Option<(u64, &[u8])>
    ensures some { IfSome result (λ x. bytes.now ≡ to_be_bytes w64 x.0 ++ x.1.now) }
    ensures fits { IfSome result (λ x. x.0 < 2 ^ 64) }
    ensures none { IfNone result (length bytes.now < 8) }
{
    if bytes.len() < 8 {
        return None;
    }
    let (front, rest) = bytes.split_at(8);
    let number = u64::from_be_bytes([
        front[0], front[1], front[2], front[3], front[4], front[5], front[6], front[7],
    ]);
    Some((number, rest))
}

/// The same of a number of 4 bytes.
fn u32_of(bytes: &[u8]) -> Option<(u32, &[u8])>
    ensures some { IfSome result (λ x. bytes.now ≡ to_be_bytes w32 x.0 ++ x.1.now) }
    ensures fits { IfSome result (λ x. x.0 < 2 ^ 32) }
    ensures none { IfNone result (length bytes.now < 4) }
{
    if bytes.len() < 4 {
        return None;
    }
    let (front, rest) = bytes.split_at(4);
    let number = u32::from_be_bytes([front[0], front[1], front[2], front[3]]);
    Some((number, rest))
}

/// The position at the front of the bytes, and what is left after it.
fn position_of(bytes: &[u8]) -> Option<(u64, &[u8])>
    ensures some { IfSome result (λ x. (x.0 < MAX_LSN) × (bytes.now ≡ to_be_bytes w64 x.0 ++ x.1.now)) }
    ensures none { IfNone result ((p : ℕ) (rest : List ℕ) → p < MAX_LSN → bytes.now ≡ to_be_bytes w64 p ++ rest → ⊥) }
{
    let Some((position, rest)) = u64_of(bytes) else {
        return None;
    };
    if position >= MAX_LSN {
        return None;
    }
    Some((position, rest))
}

/// Puts the positions at the front of the bytes in the place of those that are there, as many, and says what is left
/// after them.
fn positions_of<'a>(lv: &mut Lv, bytes: &'a [u8]) -> Option<&'a [u8]>
    ensures some { IfSome result (λ rest. ArePositions (length lv.old) bytes.now lv.new rest.now) }
    ensures none { IfNone result ((v rest : List ℕ) → ArePositions (length lv.old) bytes.now v rest → ⊥) }
{
    let mut rest = bytes;
    for j in 0..lv.width() {
        let Some((position, after)) = position_of(rest) else {
            return None;
        };
        lv.set(j, position);
        rest = after;
    }
    Some(rest)
}

/// The fields of the body of a checkpoint for so many streams, and what is left after them.
pub(crate) fn head_of(streams: u16, body: &[u8]) -> Option<(Head, &[u8])>
    requires low { 1 ≤ streams }
    requires high { streams ≤ MAX_STREAMS }
    ensures some { IfSome result (λ x. Begins streams body.now x.0 x.1.now) }
    ensures none { IfNone result ((h : OneHead) (rest : List ℕ) → Begins streams body.now h rest → ⊥) }
{
    let Some((number, rest)) = u64_of(body) else {
        return None;
    };
    let Some((epoch, rest)) = u32_of(rest) else {
        return None;
    };
    let mut lv = Lv::zero(streams as usize);
    let Some(rest) = positions_of(&mut lv, rest) else {
        return None;
    };
    let Some((count, rest)) = u64_of(rest) else {
        return None;
    };
    Some((
        Head {
            number,
            epoch,
            lv,
            count,
        },
        rest,
    ))
}

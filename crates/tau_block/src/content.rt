// The content of an image.
ghost use Rattle.std.specs.Prelude.{◌≡◌, ◌≢◌, ◌↔◌, ◌+◌, ◌<◌, ◌≤◌, ◌++◌, List, ℕ, length, take, drop, slice_index, Option, Some, None, IfOk, IfErr, IfSome, IsNone, ◌∷◌, []};
ghost use Rattle.tau_base.specs.Modes.{most_streams};
ghost use Rattle.tau_block.specs.Image.{image_of, header_fault, format_in, stated_in, count_in, bodies, IfBorn, IsBlockAt, IsWalked, IsLog};

use crate::magic::magic_of;
use crate::{ImageFault, ImageRefusal};
use std::alloc::Global;
use tau_base::{Format, Listed, most_streams};

// The bytes before the first gate.
const HEADER: usize = 16;

/// What an image holds.
#[derive(Debug, Drop)]
pub struct Content {
    /// The format that the header states; none exactly for an unborn stream.
    pub format: Option<Format>,
    /// The number of streams that the header states; none exactly for an unborn stream.
    pub count: Option<u16>,
    /// The bodies of the blocks, one after another.
    pub bytes: Listed<u8>,
    /// Where the closed gate stands; 16 for an unborn stream.
    pub gate_at: u64,
}

/// The content of an image of stream `j`. Bad comes exactly where the image has none, with the first cause.
pub fn contents_of(alloc: Global, image: &[u8], j: u16) -> Result<Content, ImageRefusal>
    ensures ok { IfOk result (λ c. image_of j image.now ≡ Ok (record { format = c.format; count = c.count; bytes = c.bytes })) }
    ensures gate { IfOk result (λ c. IfBorn c.format c.count (λ f n. IsLog f n j image.now c.gate_at c.bytes)) }
    ensures fits { IfOk result (λ c. IfBorn c.format c.count (λ f n. (1 ≤ n) × (n ≤ most_streams f))) }
    ensures stated { IfOk result (λ c. (IsNone c.format → IsNone c.count) × (IsNone c.count → IsNone c.format)) }
    ensures unborn { IfOk result (λ c. IsNone c.count → c.gate_at ≡ 16) }
    ensures short { IfOk result (λ c. IsNone c.count → (c.bytes ≡ []) × (length image.now ≤ 17)) }
    ensures before { IfOk result (λ c. length c.bytes ≤ c.gate_at) }
    ensures bad { IfErr result (λ r. (f : _) → r ≡ ImageRefusal.Bad f → image_of j image.now ≡ Err f) }
{
    if image.len() <= HEADER + 1 {
        return Ok(Content {
            format: None,
            count: None,
            bytes: Listed::new(alloc),
            gate_at: HEADER as u64,
        });
    }
    let head = &image[..HEADER];
    let format = format_of_header(head);
    let count = count_of_header(head, format, j)?;
    let (bytes, gate_at) = blocks_of(alloc, image)?;
    Ok(Content {
        format: Some(format),
        count: Some(count),
        bytes: Listed::of(bytes),
        gate_at: gate_at as u64,
    })
}

/// The format that the header of an image states; none exactly for an unborn stream. Whether the header is sound is not looked at.
pub fn stated_format(image: &[u8]) -> Option<Format>
    ensures { result ≡ stated_in image.now }
{
    if image.len() < HEADER + 2 {
        return None;
    }
    Some(format_of_header(&image[..HEADER]))
}

// The bodies of the blocks after the header, and the place of the closed gate after them.
fn blocks_of(alloc: Global, image: &[u8]) -> Result<(Vec<u8>, usize), ImageRefusal>
    requires { 16 < length image.now }
    ensures walked { IfOk result (λ r. IsWalked image.now r.1 r.0.items) }
    ensures shut { IfOk result (λ r. slice_index image.now r.1 ≢ 1) }
    ensures before { IfOk result (λ r. length r.0.items ≤ r.1) }
    ensures bad { IfErr result (λ r. (f : _) → r ≡ ImageRefusal.Bad f → (f ≡ ImageFault.OpenGateWithoutBlock) × (bodies 0 (drop 16 image.now) ≡ None)) }
{
    let mut bytes = Vec::new(alloc);
    bytes.reserve(image.len())?;
    let mut gate_at = HEADER;
    while image[gate_at] == 1 {
        let body = body_at(image, gate_at + 1)?;
        bytes.extend_from_slice(body)?;
        gate_at += 5 + body.len();
    }
    Ok((bytes, gate_at))
}

// The format that a header states.
#[tactic(auto, unfolding(crate::specs::Image::format_in))]
fn format_of_header(head: &[u8]) -> Format
    requires { length head.now ≡ 16 }
    ensures { result ≡ format_in head.now }
{
    if head[11] == b'2' {
        Format::Two
    } else {
        Format::One
    }
}

// The number of streams that a header of stream `j` in this format states.
fn count_of_header(head: &[u8], format: Format, j: u16) -> Result<u16, ImageFault>
    requires size { length head.now ≡ 16 }
    requires states { format ≡ format_in head.now }
    ensures ok { IfOk result (λ count. (header_fault j head.now ≡ None) × (count ≡ count_in head.now)) }
    ensures fits { IfOk result (λ count. (1 ≤ count) × (count ≤ most_streams format)) }
    ensures bad { IfErr result (λ f. header_fault j head.now ≡ Some f) }
{
    if !head.starts_with(&magic_of(format)) {
        return Err(ImageFault::BadMagic);
    }
    let count = u16::from_be_bytes([head[12], head[13]]);
    let most = most_streams(format);
    if count < 1 || count as usize > most {
        return Err(ImageFault::BadCount);
    }
    let index = u16::from_be_bytes([head[14], head[15]]);
    if index != j || index >= count {
        return Err(ImageFault::BadIndex);
    }
    Ok(count)
}

// The body of the block whose length stands here. A byte for the next gate is after it.
fn body_at(image: &[u8], at: usize) -> Result<&[u8], ImageFault>
    requires { at ≤ length image.now }
    ensures ok { IfOk result (λ body. IsBlockAt image.now at body.now) }
    ensures bad { IfErr result (λ f. (f ≡ ImageFault.OpenGateWithoutBlock) × (bodies 0 (1 ∷ drop at image.now) ≡ None)) }
{
    let behind = &image[at..];
    if behind.len() < 4 {
        return Err(ImageFault::OpenGateWithoutBlock);
    }
    let size = u32::from_be_bytes([behind[0], behind[1], behind[2], behind[3]]) as usize;
    if size == 0 {
        return Err(ImageFault::OpenGateWithoutBlock);
    }
    if behind.len() <= 4 + size {
        return Err(ImageFault::OpenGateWithoutBlock);
    }
    Ok(&behind[4..4 + size])
}

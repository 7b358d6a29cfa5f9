// What a writer puts into an image.
ghost use Rattle.std.specs.Prelude.{◌≡◌, ◌+◌, ◌<◌, ◌≤◌, ◌++◌, ◌∷◌, [], List, ℕ, length, slice_set, take, vec_capacity, ◌^◌, OnOk, OnErr};
ghost use Rattle.tau_base.specs.declared.format.Format.{Format};
ghost use Rattle.tau_base.specs.declared.format.Format.TheVariants.{One, Two};
ghost use Rattle.tau_base.specs.Modes.{most_streams};
ghost use Rattle.tau_block.specs.Image.{count_in, format_in, header_of, index_in, tail_of, IsBody, IsLog};

use crate::magic::digit_of;
use std::alloc::AllocError;
use tau_base::{Format, NoMemory};

/// The header of stream `j` of `n` in format 1, and a closed gate.
pub fn header(n: u16, j: u16) -> [u8; 17]
    ensures bytes { result ≡ header_of One n j ++ 0 ∷ [] }
    ensures format { format_in result ≡ One }
    ensures names { (count_in result ≡ n) × (index_in result ≡ j) }
    ensures empty { 1 ≤ n → n ≤ most_streams One → j < n → IsLog One n j result 16 [] }
{
    header_in(Format::One, n, j)
}

/// The header of stream `j` of `n` in format 2, and a closed gate.
pub fn header_wide(n: u16, j: u16) -> [u8; 17]
    ensures bytes { result ≡ header_of Two n j ++ 0 ∷ [] }
    ensures format { format_in result ≡ Two }
    ensures names { (count_in result ≡ n) × (index_in result ≡ j) }
    ensures empty { 1 ≤ n → n ≤ most_streams Two → j < n → IsLog Two n j result 16 [] }
{
    header_in(Format::Two, n, j)
}

// The header of stream `j` of `n`, and a closed gate.
fn header_in(format: Format, n: u16, j: u16) -> [u8; 17]
    ensures bytes { result ≡ header_of format n j ++ 0 ∷ [] }
    ensures format { format_in result ≡ format }
    ensures names { (count_in result ≡ n) × (index_in result ≡ j) }
    ensures empty { 1 ≤ n → n ≤ most_streams format → j < n → IsLog format n j result 16 [] }
{
    let digit = digit_of(format);
    let [count_high, count_low] = n.to_be_bytes();
    let [index_high, index_low] = j.to_be_bytes();
    [
        b'T', b'A', b'U', b'R', b'U', b'S', b'-', b'L', b'O', b'G', b'-', digit, count_high,
        count_low, index_high, index_low, 0,
    ]
}

/// Appends the length, the body and a closed gate. A body has 1 to 1,048,576 bytes. Where there is room it succeeds.
pub fn append_tail(out: &mut Vec<u8>, body: &[u8]) -> Result<(), NoMemory>
    requires { IsBody body.now }
    ensures ok { OnOk result (out.new.items ≡ out.old.items ++ tail_of body.now) }

    // Behind the closed gate that ends an image the block is not seen. Once that gate is open, the image has the
    // content with the body appended.
    ensures closed { OnOk result ((f : Format) (n j gate_at : ℕ) (content : List ℕ) → gate_at + 1 ≡ length out.old.items →
        IsLog f n j out.old.items gate_at content → IsLog f n j out.new.items gate_at content) }
    ensures opened { OnOk result ((f : Format) (n j gate_at : ℕ) (content : List ℕ) → gate_at + 1 ≡ length out.old.items →
        IsLog f n j out.old.items gate_at content →
        IsLog f n j (slice_set out.new.items gate_at 1) (gate_at + length (tail_of body.now)) (content ++ body.now)) }
    ensures err { OnErr result (out.new.items ≡ out.old.items) }
    ensures full { OnErr result (vec_capacity out.old < length out.old.items + (5 + length body.now)) }
{
    let before = out.len();
    match push_tail(out, body) {
        Ok(()) => Ok(()),
        Err(_) => {
            out.truncate(before);
            Err(NoMemory)
        }
    }
}

// Appends the length, the body and a closed gate, or the first of them.
fn push_tail(out: &mut Vec<u8>, body: &[u8]) -> Result<(), AllocError>
    requires { length body.now < 2 ^ 32 }
    ensures ok { OnOk result (out.new.items ≡ out.old.items ++ tail_of body.now) }
    ensures err { OnErr result (take (length out.old.items) out.new.items ≡ out.old.items) }
    ensures full { OnErr result (vec_capacity out.old < length out.old.items + (5 + length body.now)) }
{
    out.reserve(body.len() + 5)?;
    out.extend_from_slice(&(body.len() as u32).to_be_bytes())?;
    out.extend_from_slice(body)?;
    out.push(0)?;
    Ok(())
}

/// An open gate.
pub fn open_gate() -> [u8; 1]
    ensures { result ≡ 1 ∷ [] }
{
    [1]
}

//! What each stream starts with.
ghost use Rattle.std.specs.Prelude.{◌≡◌, ◌≤◌, ◌<◌, ◌+◌, ◌++◌, ◌∷◌, ℕ, List, [], length, IfOk, vec_len, slice_get, Some};
ghost use Rattle.tau_base.specs.declared.limits.TheConstants.{MAX_CATALOGUE, MAX_STREAMS};
ghost use Rattle.tau_base.specs.Modes.{most_streams};
ghost use Rattle.tau_block.specs.declared.content.Content.{Content as OneContent};
ghost use Rattle.tau_block.specs.Image.{IsBody, count_in, format_in, header_of, index_in};
ghost use Rattle.tau_scan.specs.Contents.{AreShortContents, IsShortContent};
ghost use Rattle.tau_open.specs.Reopening.{IsStreamStart};
ghost use Rattle.tau_begin.specs.Starts.{AreStarts};

use crate::given::given_after;
use std::alloc::Global;
use tau_base::{Format, Listed, Lv, MAX_IMAGE, NoMemory};
use tau_block::{Content, header, header_wide};
use tau_open::StreamStart;

/// The header of stream `j` of `n` in this format, and a closed gate.
fn head_in(format: Format, n: u16, j: u16) -> [u8; 17]
    ensures bytes { result ≡ header_of format n j ++ 0 ∷ [] }
    ensures format { format_in result ≡ format }
    ensures names { (count_in result ≡ n) × (index_in result ≡ j) }
{
    match format {
        Format::One => header(n, j),
        Format::Two => header_wide(n, j),
    }
}

/// What stream `j` of `n` starts with on this content, and with this body after it. A content with a gate beyond all that
/// fits into memory is refused.
fn start_of(
    format: Format,
    n: u16,
    j: u16,
    content: Content,
    body: Listed<u8>,
) -> Result<StreamStart, NoMemory>
    requires streams { n ≤ most_streams format }
    requires stream { j < n }
    requires content { IsShortContent content }
    requires body { IsBody body × (5 ≤ length body) }
    ensures format { IfOk result (λ p. format_in p.head ≡ format) }
    ensures names { IfOk result (λ p. (count_in p.head ≡ n) × (index_in p.head ≡ j)) }
    ensures content { IfOk result (λ p. p.content ≡ content) }
    ensures body { IfOk result (λ p. p.body ≡ body) }
    ensures sound { IfOk result (λ p. IsStreamStart p) }
{
    if content.gate_at > MAX_IMAGE {
        return Err(NoMemory);
    }
    Ok(StreamStart {
        head: head_in(format, n, j),
        content,
        body,
    })
}

/// What each stream starts with, in the order of the streams.
pub fn starts_of(
    alloc: Global,
    format: Format,
    contents: Vec<Content>,
    text: &[u8],
    epoch: u32,
    elv: &Lv,
) -> Result<Vec<StreamStart>, NoMemory>
    requires text { length text.now ≤ MAX_CATALOGUE }
    requires few { vec_len contents ≤ most_streams format }
    requires contents { AreShortContents contents.items }
    requires fresh { epoch ≡ 0 → (j : ℕ) (c : OneContent) → slice_get contents.items j ≡ Some c → c.bytes ≡ [] }
    ensures { IfOk result (λ starts. AreStarts format text.now epoch elv.now contents.items starts.items) }
{
    let n = contents.len();
    let mut left = contents;
    left.reverse();
    let mut starts = Vec::with_capacity(alloc, n)?;
    for j in 0..n {
        let Some(content) = left.pop() else {
            unreachable!()
        };
        let body = given_after(alloc, content.bytes.as_slice(), text, epoch, elv)?;
        let start = start_of(format, n as u16, j as u16, content, Listed::of(body))?;
        starts.push(start)?;
    }
    Ok(starts)
}

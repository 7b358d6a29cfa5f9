//! The text of a source.
ghost use Rattle.std.specs.Prelude.{◌≡◌, ◌≤◌, ◌<◌, ◌+◌, ◌++◌, [], ℕ, length, drop, IfOk, MatchResult};
ghost use Rattle.tau_disk.specs.Disk.{Rose};
ghost use Rattle.tau_commands.specs.Source.{ReadsText, RefusesText};
ghost use Rattle.tau_commands.specs.declared.source.SourceRefusal.TheVariants.{Failed, NoMemory};

use std::alloc::{AllocError, Global};
use tau_base::MAX_WORKLOAD;
use tau_disk::{Failed, Source};

/// Bytes that are asked for at once.
const CHUNK: usize = 65_536;

/// Why a source gives no text.
#[derive(Clone, Copy, Debug, PartialEq, Eq)]
pub enum SourceRefusal {
    /// Out of memory.
    NoMemory,
    /// The source failed.
    Failed,
    /// It has more bytes than a workload may have.
    TooLong,
}

impl From<AllocError> for SourceRefusal {
    ghost from_gives = { λ _ refusal. refusal ≡ NoMemory };

    fn from(_e: AllocError) -> SourceRefusal {
        SourceRefusal::NoMemory
    }
}

impl From<Failed> for SourceRefusal {
    ghost from_gives = { λ _ refusal. refusal ≡ Failed };

    fn from(_e: Failed) -> SourceRefusal {
        SourceRefusal::Failed
    }
}

/// Reads all that is left, or as much as shows that it is too long.
pub fn read_text<S: Source>(alloc: Global, source: &mut S) -> Result<Vec<u8>, SourceRefusal>
    ensures text { MatchResult result
        (λ text. S.tells → ReadsText (S.left source.old) (S.left source.new) text.items)
        (λ refusal. RefusesText S.tells (S.left source.old) (S.faults source.old) (S.faults source.new) refusal) }
    ensures within { IfOk result (λ text. length text.items ≤ MAX_WORKLOAD) }
    ensures reads { S.tells → (k : ℕ) × (k ≤ MAX_WORKLOAD + 1) × (S.left source.new ≡ drop k (S.left source.old)) }
    ensures later { S.faults source.old ≤ S.faults source.new }
{
    let mut text = Vec::new(alloc);
    let mut chunk = room(alloc)?;
    while text.len() <= MAX_WORKLOAD {
        let wanted = CHUNK.min(MAX_WORKLOAD + 1 - text.len());
        let buf = &mut chunk[..wanted];
        let count = source.read(buf)?;
        if count == 0 {
            return Ok(text);
        }
        text.extend_from_slice(&buf[..count])?;
    }
    Err(SourceRefusal::TooLong)
}

// Bytes to read into.
fn room(alloc: Global) -> Result<Vec<u8>, AllocError>
    ensures { IfOk result (λ chunk. length chunk.items ≡ CHUNK) }
{
    vec![in alloc; 0; CHUNK]
}

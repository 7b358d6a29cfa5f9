//! Pieces of the contents of streams, as a source spells them.
ghost use Rattle.std.specs.Prelude.{◌≡◌, ◌≤◌, ◌<◌, ◌+◌, ◌++◌, ℕ, List, length, drop, IfSome, IsNone};
ghost use Rattle.tau_base.specs.declared.limits.TheConstants.{MAX_WORKLOAD};
ghost use Rattle.tau_follow_laws.specs.Feeding.{Piece as OnePiece};
ghost use Rattle.tau_commands.specs.Sources.{BeginsWith, NoPiece, HasBadPiece, ArePieces};

use std::marker::Model;

/// Bytes before those of a piece: the number of its stream, and how many bytes it has.
pub const HEAD: usize = 5;

/// A piece of the contents of a stream.
#[derive(Drop)]
pub struct Piece<'a> {
    /// The number of the stream.
    pub stream: u8,
    /// The next bytes of the stream.
    pub bytes: &'a [u8],
}

impl<'a> Model for Piece<'a> {
    ghost use Rattle.tau_follow_laws.specs.Feeding.{Piece as OnePiece};

    ghost Value = { OnePiece };

    ghost view = { λ p. record { stream = p.stream; bytes = p.bytes.now } };
}

/// The piece of one of `streams` streams that stands whole at the front of a text.
pub fn piece_in(text: &[u8], streams: u8) -> Option<Piece<'_>>
    requires within { length text.now ≤ MAX_WORKLOAD }
    ensures some { IfSome result (λ piece. BeginsWith streams text.now piece) }
    ensures none { IsNone result → NoPiece streams text.now }
{
    if text.len() < HEAD {
        return None;
    }
    let stream = text[0];
    if stream >= streams {
        return None;
    }
    let size = u32::from_be_bytes([text[1], text[2], text[3], text[4]]) as usize;
    let behind = &text[HEAD..];
    if size == 0 {
        return None;
    }
    if behind.len() < size {
        return None;
    }
    Some(Piece {
        stream,
        bytes: &behind[..size],
    })
}

/// Where the first bad piece stands: one that is cut short, has no byte, or is of no stream below `streams`. None if the
/// whole text is pieces.
pub fn bad_piece(text: &[u8], streams: u8) -> Option<usize>
    requires within { length text.now ≤ MAX_WORKLOAD }
    ensures some { IfSome result (λ at. HasBadPiece streams text.now at) }
    ensures none { IsNone result → (pieces : List OnePiece) × ArePieces streams pieces text.now }
{
    let mut at = 0;
    while at < text.len() {
        match piece_in(&text[at..], streams) {
            None => return Some(at),
            Some(piece) => at += HEAD + piece.bytes.len(),
        }
    }
    None
}

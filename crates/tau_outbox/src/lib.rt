//! Outboxes: records with their places, on their way to the manager of their stream.
#![tactic(auto)]

ghost use Rattle.std.specs.Prelude.{◌≡◌, ◌≤◌, ◌<◌, ◌+◌, [], ◌∷◌, ◌++◌, length, false, true, OnOk, OnErr, IfOk, IfSome, vec_len, vec_capacity};
ghost use Rattle.std.specs.VecDeque.{deque_len, deque_capacity};
ghost use Rattle.tau_base.specs.declared.limits.TheConstants.{MAX_LSN};
ghost use Rattle.tau_outbox.specs.Pieces.{past_of, bytes_of, end_of, InOrder};
ghost use Rattle.tau_outbox.specs.Gather.{Gathers, begins, fits, run, left, front_piece, others};

use std::alloc::Global;
use std::collections::VecDeque;
use std::marker::Model;
use tau_base::{Listed, MAX_BODY, NoMemory};

/// A record's bytes with its place.
#[derive(Debug, Drop)]
pub struct Piece {
    /// Where its first byte stands in its stream.
    pub start: u64,
    /// Its bytes.
    pub bytes: Listed<u8>,
}

/// The placed pieces of a worker that nobody has gathered yet, in order of their places.
#[derive(Drop)]
pub struct Outbox {
    pieces: VecDeque<Piece>,
    is_closed: bool,
    /// Emptied byte vectors, whose memory is used again.
    spares: Vec<Vec<u8>>,
    alloc: Global,
}

impl Model for Outbox {
    ghost use Rattle.std.specs.Prelude.{◌-◌};
    ghost use Rattle.std.specs.VecDeque.{deque_len, deque_capacity};
    ghost use Rattle.tau_outbox.specs.Pieces.{PlainOutbox, InOrder};

    ghost Value = { PlainOutbox };

    ghost view = { λ o. record { pieces = o.pieces.items; room = deque_capacity o.pieces - deque_len o.pieces; closed = o.is_closed } };

    ghost invariant = { λ o. InOrder 0 o.pieces.items };
}

impl Outbox {
    /// No pieces. It takes no memory.
    pub fn new(alloc: Global) -> Outbox
        ensures pieces { result.pieces ≡ [] }
        ensures open { result.closed ≡ false }
    {
        Outbox {
            pieces: VecDeque::new(alloc),
            is_closed: false,
            spares: Vec::new(alloc),
            alloc,
        }
    }

    /// Makes room for one more piece.
    pub fn reserve(&mut self) -> Result<(), NoMemory>
        ensures room { OnOk result (1 ≤ self.new.room) }
        ensures kept { self.old.room ≤ self.new.room }
        ensures pieces { self.new.pieces ≡ self.old.pieces }
        ensures closed { self.new.closed ≡ self.old.closed }
    {
        self.pieces.try_reserve(1)?;
        // A piece that finds no room among the spares gives its memory back.
        let room = self.pieces.capacity().saturating_sub(self.spares.len());
        let _ = self.spares.try_reserve(room);
        Ok(())
    }

    /// How many more pieces are put without memory.
    pub fn room(&self) -> usize
        ensures { result ≡ self.now.room }
    {
        self.pieces.capacity() - self.pieces.len()
    }

    /// Puts a piece last. It takes no memory.
    pub fn post(&mut self, start: u64, bytes: Vec<u8>)
        requires room { 1 ≤ self.old.room }
        requires order { end_of 0 self.old.pieces ≤ start }
        requires small { start + vec_len bytes < MAX_LSN }
        ensures pieces { self.new.pieces ≡ self.old.pieces ++ record { start = start; bytes = bytes.items } ∷ [] }
        ensures room { self.new.room + 1 ≡ self.old.room }
        ensures closed { self.new.closed ≡ self.old.closed }
    {
        self.pieces.push_back_reserved(Piece {
            start,
            bytes: Listed::of(bytes),
        });
    }

    /// An empty vector for the bytes of a piece to come, with the memory of one that was gathered if there is any. It
    /// takes no memory.
    pub fn spare(&mut self) -> Vec<u8>
        ensures empty { result.items ≡ [] }
        ensures pieces { self.new.pieces ≡ self.old.pieces }
        ensures room { self.new.room ≡ self.old.room }
        ensures closed { self.new.closed ≡ self.old.closed }
    {
        match self.spares.pop() {
            Some(mut bytes) => {
                bytes.clear();
                bytes
            }
            None => Vec::new(self.alloc),
        }
    }

    /// Moves front pieces to the body while each starts where the last one ended, the first at `next`, and the body
    /// stays within 1,048,576 bytes. Returns where the last one ends. After NoMemory nothing has changed.
    pub fn gather_into(&mut self, next: u64, body: &mut Vec<u8>) -> Result<u64, NoMemory>
        ensures gathers { IfOk result (λ past. Gathers next self.old.pieces self.new.pieces body.old.items body.new.items past) }
        ensures same_pieces { OnErr result (self.new.pieces ≡ self.old.pieces) }
        ensures same_body { OnErr result (body.new.items ≡ body.old.items) }
        ensures room { self.old.room ≤ self.new.room }
        ensures closed { self.new.closed ≡ self.old.closed }
    {
        if !begins_at(&self.pieces, next) {
            return Ok(next);
        }
        let size = run_size(&self.pieces, next, body.len());
        if body.try_reserve(size).is_err() {
            return Err(NoMemory);
        }
        Ok(move_run(&mut self.pieces, next, body, &mut self.spares))
    }

    /// As `gather_into`, where the body has room for all that is moved. It takes no memory.
    pub fn gather_reserved(&mut self, next: u64, body: &mut Vec<u8>) -> u64
        requires room { vec_len body.old + length (bytes_of (run next (vec_len body.old) self.old.pieces)) ≤ vec_capacity body.old }
        ensures gathers { Gathers next self.old.pieces self.new.pieces body.old.items body.new.items result }
        ensures kept { vec_capacity body.old ≤ vec_capacity body.new }
        ensures room { self.old.room ≤ self.new.room }
        ensures closed { self.new.closed ≡ self.old.closed }
    {
        if !begins_at(&self.pieces, next) {
            return next;
        }
        move_run(&mut self.pieces, next, body, &mut self.spares)
    }

    /// Says that no piece comes any more.
    pub fn close(&mut self)
        ensures closed { self.new.closed ≡ true }
        ensures pieces { self.new.pieces ≡ self.old.pieces }
        ensures room { self.new.room ≡ self.old.room }
    {
        self.is_closed = true;
    }

    /// Whether it was closed.
    pub fn closed(&self) -> bool
        ensures { result ≡ self.now.closed }
    {
        self.is_closed
    }
}

/// Whether the front piece starts at `next`. Mostly there is none, and nothing more is asked.
fn begins_at(pieces: &VecDeque<Piece>, next: u64) -> bool
    ensures { result ≡ begins next pieces.now.items }
{
    let Some(piece) = pieces.front() else {
        return false;
    };
    piece.start == next
}

/// How many bytes the pieces have that continue a body of `used` bytes.
fn run_size(pieces: &VecDeque<Piece>, next: u64, used: usize) -> usize
    requires order { InOrder 0 pieces.now.items }
    ensures { result ≡ length (bytes_of (run next used pieces.now.items)) }
{
    let mut to = next;
    let mut size = 0;
    for i in 0..pieces.len() {
        let Some(piece) = pieces.get(i) else {
            return size;
        };
        if !continues(piece, to, used + size) {
            return size;
        }
        to += piece.bytes.len() as u64;
        size += piece.bytes.len();
    }
    size
}

/// Moves the pieces that continue the body. It takes no memory.
fn move_run(
    pieces: &mut VecDeque<Piece>,
    next: u64,
    body: &mut Vec<u8>,
    spares: &mut Vec<Vec<u8>>,
) -> u64
    requires order { InOrder 0 pieces.old.items }
    requires room { vec_len body.old + length (bytes_of (run next (vec_len body.old) pieces.old.items)) ≤ vec_capacity body.old }
    ensures pieces { pieces.new.items ≡ left next (vec_len body.old) pieces.old.items }
    ensures body { body.new.items ≡ body.old.items ++ bytes_of (run next (vec_len body.old) pieces.old.items) }
    ensures past { result ≡ next + length (bytes_of (run next (vec_len body.old) pieces.old.items)) }
    ensures room { deque_capacity pieces.old + deque_len pieces.new ≤ deque_capacity pieces.new + deque_len pieces.old }
    ensures kept { vec_capacity body.old ≤ vec_capacity body.new }
{
    let mut to = next;
    while let Some(piece) = take_next(pieces, to, body.len()) {
        to += piece.bytes.len() as u64;
        let _ = body.extend_from_slice(piece.bytes.as_slice());
        keep_spare(spares, piece);
    }
    to
}

/// Keeps the memory of a piece that was moved, if there is room.
fn keep_spare(spares: &mut Vec<Vec<u8>>, piece: Piece) {
    if spares.len() < spares.capacity() {
        spares.push_reserved(piece.bytes.into_vec());
    }
}

/// The front piece, where it continues a body of `used` bytes.
fn take_next(pieces: &mut VecDeque<Piece>, to: u64, used: usize) -> Option<Piece>
    ensures value { result ≡ front_piece to used pieces.old.items }
    ensures others { pieces.new.items ≡ others to used pieces.old.items }
    ensures room { deque_capacity pieces.old + deque_len pieces.new ≤ deque_capacity pieces.new + deque_len pieces.old }
{
    if !continues(pieces.front()?, to, used) {
        return None;
    }
    pieces.pop_front()
}

/// Whether a piece continues a body of `used` bytes that ends at `to`.
fn continues(piece: &Piece, to: u64, used: usize) -> bool
    ensures { result ≡ fits to used piece.now }
{
    if piece.start != to || used > MAX_BODY {
        return false;
    }
    piece.bytes.len() <= MAX_BODY - used
}

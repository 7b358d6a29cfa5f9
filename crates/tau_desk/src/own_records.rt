//! The records of the anchors that a manager placed and has not gathered, with how many bytes they have.
ghost use Rattle.std.specs.Prelude.{◌≡◌, ◌+◌, ◌<◌, ◌≤◌, [], ◌∷◌, ◌++◌, true, false, IfOk, OnErr, OnOk, length, vec_len};
ghost use Rattle.tau_base.specs.declared.limits.TheConstants.{MAX_LSN};
ghost use Rattle.tau_outbox.specs.Gather.{Gathers};
ghost use Rattle.tau_outbox.specs.Pieces.{end_of};

use std::marker::Model;
use tau_base::NoMemory;
use tau_outbox::Outbox;

/// An outbox that knows whether it is empty, since it counts the bytes of its records and none is empty.
#[derive(Drop)]
pub struct OwnRecords {
    outbox: Outbox,
    bytes: usize,
}

impl Model for OwnRecords {
    ghost use Rattle.tau_outbox.specs.Pieces.{PlainOutbox};
    ghost use Rattle.tau_desk.specs.Shares.{AreCounted};

    ghost Value = { PlainOutbox };

    ghost view = { λ o. o.outbox };

    ghost invariant = { λ o. AreCounted o.bytes o.outbox.pieces };
}

impl OwnRecords {
    /// This outbox, which is empty.
    pub(crate) fn of(outbox: Outbox) -> OwnRecords
        requires none { outbox.pieces ≡ [] }
        ensures { result ≡ outbox }
    {
        OwnRecords { outbox, bytes: 0 }
    }

    /// The outbox alone.
    pub(crate) fn into_outbox(self) -> Outbox
        ensures { result ≡ self }
    {
        self.outbox
    }

    /// Whether no record waits.
    pub(crate) fn is_empty(&self) -> bool
        ensures none { result ≡ true → self.now.pieces ≡ [] }
        ensures some { result ≡ false → self.now.pieces ≡ [] → ⊥ }
    {
        self.bytes == 0
    }

    /// Makes room for one more record.
    pub(crate) fn reserve(&mut self) -> Result<(), NoMemory>
        ensures room { OnOk result (1 ≤ self.new.room) }
        ensures kept { self.old.room ≤ self.new.room }
        ensures pieces { self.new.pieces ≡ self.old.pieces }
    {
        self.outbox.reserve()
    }

    /// Puts a record last. It takes no memory.
    pub(crate) fn post(&mut self, start: u64, bytes: Vec<u8>)
        requires room { 1 ≤ self.old.room }
        requires order { end_of 0 self.old.pieces ≤ start }
        requires some { 1 ≤ vec_len bytes }
        requires small { start + vec_len bytes < MAX_LSN }
        ensures pieces { self.new.pieces ≡ self.old.pieces ++ record { start = start; bytes = bytes.items } ∷ [] }
    {
        self.bytes += bytes.len();
        self.outbox.post(start, bytes);
    }

    /// Moves front records to the body while each starts where the last one ended, the first at `next`, and the body stays within its limit. Returns where the last one ends. After NoMemory nothing has changed.
    pub(crate) fn gather_into(&mut self, next: u64, body: &mut Vec<u8>) -> Result<u64, NoMemory>
        ensures gathers { IfOk result (λ past. Gathers next self.old.pieces self.new.pieces body.old.items body.new.items past) }
        ensures same_pieces { OnErr result (self.new.pieces ≡ self.old.pieces) }
        ensures same_body { OnErr result (body.new.items ≡ body.old.items) }
        ensures room { self.old.room ≤ self.new.room }
    {
        let before = body.len();
        let past = self.outbox.gather_into(next, body)?;
        self.bytes -= body.len() - before;
        Ok(past)
    }
}

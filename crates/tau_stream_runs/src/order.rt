//! The calls that a stream makes, and where its gate is asked.
ghost use Rattle.std.specs.Prelude.{◌≡◌, [], false};
ghost use Rattle.tau_disk.specs.Disk.{HasCause};
ghost use Rattle.tau_disk.specs.Left.{may_leave_each};

use crate::writers::adds;
use std::alloc::Global;
use std::cell::Cell;
use std::test::*;
use tau_disk::{Disk, Failed, Gate, Place};
use tau_stream::Writer;

/// The calls of a disk when stream 2 of three is made, and a record is flushed: 1 and the place and length of a write, or 2 of a
/// sync.
static CALLS: [[u64; 3]; 10] = [
    [1, 0, 17],
    [2, 0, 0],
    [1, 17, 18],
    [2, 0, 0],
    [1, 16, 1],
    [2, 0, 0],
    [1, 35, 45],
    [2, 0, 0],
    [1, 34, 1],
    [2, 0, 0],
];

// How many calls a disk has had, how many of them from the first on were those that are listed, how often the gate was asked, and
// how many calls there had been when stream 2 last asked.
#[derive(Drop)]
struct Notes {
    calls: Cell<u64>,
    right: Cell<u64>,
    asked: Cell<u64>,
    before: Cell<u64>,
}

// A disk that notes its calls, and holds nothing.
#[derive(Drop)]
struct Recorder<'a> {
    notes: &'a Notes,
}

impl<'a> Recorder<'a> {
    fn note(&self, call: [u64; 3]) {
        let count = self.notes.calls.get();
        if self.notes.right.get() == count && CALLS.get(count as usize) == Some(&call) {
            self.notes.right.set(count.wrapping_add(1));
        }
        self.notes.calls.set(count.wrapping_add(1));
    }
}

impl<'a> Disk for Recorder<'a> {
    ghost tells = { ⊥ };

    ghost seen = { λ _. [] };

    ghost may_leave = { λ _ _. ⊥ };

    ghost moment = { λ _. 0 };

    ghost may_leave_since = { λ _ _ _. ⊥ };

    ghost faults = { λ _. 0 };

    ghost number = { λ _. 0 };

    ghost fails = { λ _ _. false };

    ghost short = { λ _. false };

    ghost image = { λ _ _. [] };

    ghost keeps = { λ _ _. false };

    ghost cut = { λ _. false };

    ghost seen_now = { λ _ tells. tells };

    ghost leaves_each = { may_leave_each ⊥ (λ _ _. ⊥) (λ _ _. []) (λ _ _ tells. tells) };

    ghost counts_now = { λ _ _ _ _ now. now };

    ghost only_now = { λ _ _ since. since };

    fn len(&mut self) -> Result<u64, Failed> {
        self.note([0, 0, 0]);
        Ok(0)
    }

    fn read_at(&mut self, at: u64, buf: &mut [u8]) -> Result<(), Failed> {
        self.note([3, at, buf.len() as u64]);
        Ok(())
    }

    fn write_at(&mut self, at: u64, bytes: &[u8]) -> Result<(), Failed> {
        self.note([1, at, bytes.len() as u64]);
        Ok(())
    }

    fn sync(&mut self) -> Result<(), Failed> {
        self.note([2, 0, 0]);
        Ok(())
    }
}

impl Gate for Notes {
    fn at(&self, place: Place) {
        self.asked.set(self.asked.get().wrapping_add(1));
        if place == (Place::Flush { stream: 2 }) {
            self.before.set(self.calls.get());
        }
    }
}

/// Makes the stream and adds 40 bytes. What prepares the content up to 53 makes no call. It is flushed by a gate.
fn flushed(alloc: Global, notes: &Notes) -> Option<()> {
    let disk = Recorder { notes };
    let mut writer = Writer::create(alloc, disk, 3, 2, b"table a\n").ok()?;
    adds(&mut writer, &[7; 40])?;
    if writer.failed() || writer.durable() != 13 || writer.gathered() < 53 {
        return None;
    }
    writer.prepare(53).ok()?;
    if notes.calls.get() != 6 {
        return None;
    }
    writer.flush_gated(53, notes).ok()
}

#[test]
fn order_of_calls(rt: HostRuntime) {
    let notes = Notes {
        calls: Cell::new(0),
        right: Cell::new(0),
        asked: Cell::new(0),
        before: Cell::new(0),
    };
    assert!(rt; flushed(rt.alloc(), &notes).is_some());
    assert!(rt; notes.right.get() == 10 && notes.calls.get() == 10);
    assert!(rt; notes.asked.get() == 1 && notes.before.get() == 8);
}

//! Streams go on from what was read of their disks.
ghost use Rattle.std.specs.Prelude.{◌≡◌, ◌∷◌, ◌<◌, ◌≤◌, ◌+◌, ◌++◌, ℕ, [], length, drop, map, reverse, vec_len, vec_capacity, slice_get, Some, OnOk, OnErr, IfOk, IfErr};
ghost use Rattle.tau_base.specs.declared.limits.TheConstants.{MAX_STREAMS};
ghost use Rattle.tau_stream.specs.Stream.{IsRead};
ghost use Rattle.tau_stream.specs.Writer.{disk_of};
ghost use Rattle.tau_open.specs.Reopening.{IsStreamStart, AreStreamStarts, AreRead, Starting, StartsNext, PutsBack, RefusesStart};

use crate::close::put_back;
use crate::refusal::OpenRefusal;
use crate::start::StreamStart;
use std::alloc::Global;
use tau_disk::Disk;
use tau_stream::{Flush, Writer};

/// Puts a body after the content of each of the first disks, the lowest first, and makes a writer of it. The disks leave
/// the list for the writers. At a refusal all disks stand in their places again; the first call that fails ends the
/// opening.
pub fn reopen_streams<D: Disk>(
    alloc: Global,
    disks: &mut Vec<D>,
    starts: Vec<StreamStart>,
) -> Result<Vec<Writer<D>>, OpenRefusal>
    requires few { vec_len starts ≤ MAX_STREAMS }
    requires there { vec_len starts ≤ vec_len disks.old }
    requires sound { AreStreamStarts starts.items }
    requires read { D.tells → AreRead ⟦<D as Disk>⟧ starts.items disks.old.items }

    ensures started { IfOk result (λ writers. Starting ⟦<D as Disk>⟧ starts.items (vec_len starts) disks.old.items disks.new.items writers.items) }
    ensures refused { IfErr result (λ refusal. RefusesStart ⟦<D as Disk>⟧ starts.items disks.old.items disks.new.items refusal) }
    ensures back { OnErr result (vec_len disks.new ≡ vec_len disks.old) }
    ensures capacity { vec_capacity disks.new ≡ vec_capacity disks.old }
    ensures len { IfOk result (λ writers. vec_len writers + vec_len disks.new ≡ vec_len disks.old) }
{
    let room = Vec::with_capacity(alloc, starts.len())?;
    start_into(alloc, disks, room, starts)
}

// Starts the streams into a list that has room for their writers.
fn start_into<D: Disk>(
    alloc: Global,
    disks: &mut Vec<D>,
    writers: Vec<Writer<D>>,
    starts: Vec<StreamStart>,
) -> Result<Vec<Writer<D>>, OpenRefusal>
    requires few { vec_len starts ≤ MAX_STREAMS }
    requires there { vec_len starts ≤ vec_len disks.old }
    requires none { writers.items ≡ [] }
    requires room { vec_len starts ≤ vec_capacity writers }
    requires sound { AreStreamStarts starts.items }
    requires read { D.tells → AreRead ⟦<D as Disk>⟧ starts.items disks.old.items }

    ensures started { IfOk result (λ writers. Starting ⟦<D as Disk>⟧ starts.items (vec_len starts) disks.old.items disks.new.items writers.items) }
    ensures refused { IfErr result (λ refusal. RefusesStart ⟦<D as Disk>⟧ starts.items disks.old.items disks.new.items refusal) }
    ensures back { OnErr result (vec_len disks.new ≡ vec_len disks.old) }
    ensures capacity { vec_capacity disks.new ≡ vec_capacity disks.old }
    ensures len { IfOk result (λ writers. vec_len writers + vec_len disks.new ≡ vec_len disks.old) }
{
    let mut writers = writers;
    disks.reverse();
    match start_streams(alloc, disks, &mut writers, starts) {
        Ok(()) => {
            disks.reverse();
            Ok(writers)
        }
        Err(refusal) => {
            put_back(disks, writers);
            disks.reverse();
            Err(refusal)
        }
    }
}

// Starts the streams, the lowest first. The disks stand on the stack, the first one at its end.
fn start_streams<D: Disk>(
    alloc: Global,
    stack: &mut Vec<D>,
    writers: &mut Vec<Writer<D>>,
    starts: Vec<StreamStart>,
) -> Result<(), OpenRefusal>
    requires few { vec_len starts ≤ MAX_STREAMS }
    requires there { vec_len starts ≤ vec_len stack.old }
    requires none { writers.old.items ≡ [] }
    requires room { vec_len starts ≤ vec_capacity writers.old }
    requires sound { AreStreamStarts starts.items }
    requires read { D.tells → AreRead ⟦<D as Disk>⟧ starts.items (reverse stack.old.items) }

    ensures started { OnOk result (Starting ⟦<D as Disk>⟧ starts.items (vec_len starts) (reverse stack.old.items) (reverse stack.new.items) writers.new.items) }
    ensures refused { IfErr result (λ refusal. RefusesStart ⟦<D as Disk>⟧ starts.items (reverse stack.old.items) (map disk_of writers.new.items ++ reverse stack.new.items) refusal) }
    ensures len { vec_len writers.new + vec_len stack.new ≡ vec_len stack.old }
    ensures capacity { vec_capacity stack.new ≡ vec_capacity stack.old }
{
    let count = starts.len();
    let mut left = starts;
    left.reverse();
    for j in 0..count {
        let Some(start) = left.pop() else {
            unreachable!()
        };
        start_next(alloc, stack, writers, start, j as u8)?;
    }
    Ok(())
}

// Starts the stream of the disk at the end of the stack.
fn start_next<D: Disk>(
    alloc: Global,
    stack: &mut Vec<D>,
    writers: &mut Vec<Writer<D>>,
    start: StreamStart,
    j: u8,
) -> Result<(), OpenRefusal>
    requires some { 0 < vec_len stack.old }
    requires room { vec_len writers.old < vec_capacity writers.old }
    requires sound { IsStreamStart start }
    requires read { D.tells → (d : D) → slice_get (reverse stack.old.items) 0 ≡ Some d → IsRead start.head start.content (D.seen d) (D.may_leave d) }

    ensures started { OnOk result (StartsNext ⟦<D as Disk>⟧ start (reverse stack.old.items) (reverse stack.new.items) writers.old.items writers.new.items) }
    ensures refused { IfErr result (λ refusal. PutsBack ⟦<D as Disk>⟧ start j (reverse stack.old.items) (reverse stack.new.items) refusal) }
    ensures same { OnErr result (writers.new.items ≡ writers.old.items) }
    ensures more { OnOk result (vec_len writers.new ≡ vec_len writers.old + 1) }
    ensures len { vec_len writers.new + vec_len stack.new ≡ vec_len writers.old + vec_len stack.old }
    ensures capacity { vec_capacity stack.new ≡ vec_capacity stack.old }
    ensures capacity_writers { vec_capacity writers.new ≡ vec_capacity writers.old }
{
    let disk = match stack.pop() {
        Some(disk) => disk,
        None => unreachable!(),
    };
    let StreamStart {
        head,
        content,
        body,
    } = start;
    match Writer::reopen(alloc, disk, head, content, body.as_slice()) {
        Ok(writer) => {
            writers.push_reserved(writer);
            Ok(())
        }
        Err((disk, refusal)) => {
            stack.push_reserved(disk);
            Err(refusal_of(refusal, j))
        }
    }
}

// Why a stream was not started.
fn refusal_of(refusal: Flush, stream: u8) -> OpenRefusal
    requires { refusal ≡ Flush.Idle → ⊥ }
    ensures failed { refusal ≡ Flush.Failed → result ≡ OpenRefusal.Failed stream }
    ensures memory { refusal ≡ Flush.NoMemory → result ≡ OpenRefusal.NoMemory }
{
    match refusal {
        Flush::Failed => OpenRefusal::Failed { stream },
        Flush::NoMemory => OpenRefusal::NoMemory,
        Flush::Idle => unreachable!(),
    }
}

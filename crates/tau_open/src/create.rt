//! The streams are made, the lowest first.
ghost use Rattle.std.specs.Prelude.{◌≡◌, ◌<◌, ◌≤◌, ◌+◌, ◌++◌, [], length, map, reverse, vec_len, vec_capacity, slice_get, Some, OnOk, IfErr, OnErr};
ghost use Rattle.tau_base.specs.declared.format.Format.TheVariants.{One};
ghost use Rattle.tau_base.specs.declared.limits.TheConstants.{MAX_CATALOGUE};
ghost use Rattle.tau_base.specs.Modes.{most_streams};
ghost use Rattle.tau_stream.specs.Stream.{catalogue_record};
ghost use Rattle.tau_stream.specs.Writer.{disk_of};
ghost use Rattle.tau_disk.specs.Used.{AreEmpty};
ghost use Rattle.tau_open.specs.Creating.{CreatesNext, KeepsPlace, Creating, Stops};

use crate::refusal::OpenRefusal;
use std::alloc::Global;
use tau_disk::Disk;
use tau_stream::{Flush, Writer};

/// Makes stream j of n on the j-th disk, for each j below n. The disks stand on the stack, the first one at its end.
/// Where one isn't made, its disk stands there again, and the writers of those below it are kept.
pub fn create_streams<D: Disk>(
    alloc: Global,
    stack: &mut Vec<D>,
    writers: &mut Vec<Writer<D>>,
    n: u8,
    catalogue: &[u8],
) -> Result<(), OpenRefusal>
    requires streams { n ≤ most_streams One }
    requires disks { n ≤ vec_len stack.old }
    requires none { writers.old.items ≡ [] }
    requires room { n ≤ vec_capacity writers.old }
    requires text { length catalogue.now ≤ MAX_CATALOGUE }
    requires empty { AreEmpty D.tells D.seen (reverse stack.old.items) n }

    ensures created { OnOk result (Creating ⟦<D as Disk>⟧ n (catalogue_record catalogue.now) n (reverse stack.old.items) (reverse stack.new.items) writers.new.items) }
    ensures stopped { IfErr result (λ refusal. Stops ⟦<D as Disk>⟧ n (catalogue_record catalogue.now) (reverse stack.old.items) (map disk_of writers.new.items ++ reverse stack.new.items) refusal) }
    ensures len { vec_len writers.new + vec_len stack.new ≡ vec_len stack.old }
    ensures capacity { vec_capacity stack.new ≡ vec_capacity stack.old }
{
    for j in 0..n {
        create_next(alloc, stack, writers, n, j, catalogue)?;
    }
    Ok(())
}

// Makes a stream on the disk at the end of the stack.
fn create_next<D: Disk>(
    alloc: Global,
    stack: &mut Vec<D>,
    writers: &mut Vec<Writer<D>>,
    n: u8,
    j: u8,
    catalogue: &[u8],
) -> Result<(), OpenRefusal>
    requires streams { n ≤ most_streams One }
    requires stream { j < n }
    requires some { 0 < vec_len stack.old }
    requires room { vec_len writers.old < vec_capacity writers.old }
    requires text { length catalogue.now ≤ MAX_CATALOGUE }
    requires empty { D.tells → (d : D) → slice_get (reverse stack.old.items) 0 ≡ Some d → D.seen d ≡ [] }

    ensures created { OnOk result (CreatesNext ⟦<D as Disk>⟧ n (catalogue_record catalogue.now) j (reverse stack.old.items) (reverse stack.new.items) writers.old.items writers.new.items) }
    ensures stopped { IfErr result (λ refusal. KeepsPlace ⟦<D as Disk>⟧ n (catalogue_record catalogue.now) j (reverse stack.old.items) (reverse stack.new.items) refusal) }
    ensures same { OnErr result (writers.new.items ≡ writers.old.items) }
    ensures more { OnOk result (vec_len writers.new ≡ vec_len writers.old + 1) }
    ensures len { vec_len writers.new + vec_len stack.new ≡ vec_len writers.old + vec_len stack.old }
    ensures capacity { vec_capacity stack.new ≡ vec_capacity stack.old }
    ensures capacity_writers { vec_capacity writers.new ≡ vec_capacity writers.old }
{
    let disk = match stack.pop() {
        Some(disk) => disk,
        None => unreachable!(),
    };
    match Writer::create(alloc, disk, n as u16, j as u16, catalogue) {
        Ok(writer) => {
            writers.push_reserved(writer);
            Ok(())
        }
        Err((disk, refusal)) => {
            stack.push_reserved(disk);
            Err(refusal_of(refusal, j))
        }
    }
}

// Why a stream was not made.
fn refusal_of(refusal: Flush, stream: u8) -> OpenRefusal
    requires { refusal ≡ Flush.Idle → ⊥ }
    ensures failed { refusal ≡ Flush.Failed → result ≡ OpenRefusal.Failed stream }
    ensures memory { refusal ≡ Flush.NoMemory → result ≡ OpenRefusal.NoMemory }
{
    match refusal {
        Flush::Failed => OpenRefusal::Failed { stream },
        Flush::NoMemory => OpenRefusal::NoMemory,
        Flush::Idle => unreachable!(),
    }
}

//! A run opens its streams.
ghost use Rattle.std.specs.Prelude.{◌≡◌, ◌<◌, ◌≤◌, ◌+◌, ℕ, [], length, drop, vec_len, vec_capacity, OnErr, IfOk, IfErr, Err};
ghost use Rattle.tau_base.specs.declared.format.Format.TheVariants.{One};
ghost use Rattle.tau_base.specs.declared.limits.TheConstants.{MAX_CATALOGUE};
ghost use Rattle.tau_base.specs.Modes.{most_streams};
ghost use Rattle.tau_stream.specs.Stream.{catalogue_record};
ghost use Rattle.tau_disk.specs.Used.{EachIn, EachUsed, RoseAt, IsFirstLong, OnlyRead, IsFirstStopped, Made};
ghost use Rattle.tau_open.specs.Outside.{calls_to_open};
ghost use Rattle.tau_open.specs.Opening.{Asked, Begins, Refuses, AreOpened, TellsLong};

use crate::ask::ask_lengths;
use crate::close::put_back;
use crate::create::create_streams;
use crate::refusal::OpenRefusal;
use std::alloc::Global;
use tau_disk::Disk;
use tau_stream::Writer;

/// Opens stream j of n on the j-th disk, for each j below n: all lengths are asked, the lowest first, and then the
/// streams are made in ascending order, each with the catalogue alone. The disks leave the list for the writers. At a
/// refusal all disks stand in their places again; the first call that fails ends the opening.
pub fn open_streams<D: Disk>(
    alloc: Global,
    disks: &mut Vec<D>,
    n: u8,
    catalogue: &[u8],
) -> Result<Vec<Writer<D>>, OpenRefusal>
    requires streams { n ≤ most_streams One }
    requires disks { n ≤ vec_len disks.old }
    requires text { length catalogue.now ≤ MAX_CATALOGUE }

    // What was made of the disks, and by which calls.
    ensures opened { IfOk result (λ writers. AreOpened ⟦<D as Disk>⟧ n (catalogue_record catalogue.now) disks.old.items disks.new.items writers.items) }
    ensures refused { IfErr result (λ refusal. Refuses ⟦<D as Disk>⟧ n (catalogue_record catalogue.now) disks.old.items disks.new.items refusal) }

    // A disk is told as failed only where its count rose, by the first of its calls that was to fail, one of the seven
    // that open a stream; those below it had none.
    ensures failed { (j : ℕ) → result ≡ Err (OpenRefusal.Failed j) → (j < n) × RoseAt D.faults disks.old.items disks.new.items j }
    ensures failed_first { (j : ℕ) → result ≡ Err (OpenRefusal.Failed j) → D.tells → IsFirstStopped D.tells D.number D.fails D.short disks.old.items disks.new.items j }
    ensures failed_early { (j : ℕ) → result ≡ Err (OpenRefusal.Failed j) → D.tells → (k : ℕ) × (k ≤ calls_to_open) × Made D.number D.short disks.old.items disks.new.items j k }

    // A disk is told as not empty only where it is the first one with a length, and each was asked that, once.
    ensures not_empty { (j long : ℕ) → result ≡ Err (OpenRefusal.NotEmpty j long) → (j < n) × (D.tells → IsFirstLong D.seen disks.old.items j long) }
    ensures asked { (j long : ℕ) → result ≡ Err (OpenRefusal.NotEmpty j long) → EachUsed (Asked ⟦<D as Disk>⟧) disks.old.items disks.new.items n }
    // Where a disk has a length, the disks are at most read.
    ensures long { (j long : ℕ) → j < n → D.tells → IsFirstLong D.seen disks.old.items j long →
        TellsLong j long result × EachUsed (OnlyRead D.tells D.seen D.may_leave D.moment D.may_leave_since) disks.old.items disks.new.items n }

    // At a refusal each used disk has no content or the catalogue alone, at each moment, and all stand in their places.
    ensures begins { OnErr result (EachIn (λ j. j < n) (Begins ⟦<D as Disk>⟧ n (catalogue_record catalogue.now)) disks.old.items disks.new.items) }
    ensures rest { OnErr result (drop n disks.new.items ≡ drop n disks.old.items) }
    ensures back { OnErr result (vec_len disks.new ≡ vec_len disks.old) }
    // The places stay.
    ensures capacity { vec_capacity disks.new ≡ vec_capacity disks.old }
    ensures room { IfOk result (λ writers. vec_len disks.new + vec_len writers ≤ vec_capacity disks.new) }
{
    let room = Vec::with_capacity(alloc, usize::from(n))?;
    open_into(alloc, disks, room, n, catalogue)
}

// Opens the streams into a list that has room for their writers.
fn open_into<D: Disk>(
    alloc: Global,
    disks: &mut Vec<D>,
    writers: Vec<Writer<D>>,
    n: u8,
    catalogue: &[u8],
) -> Result<Vec<Writer<D>>, OpenRefusal>
    requires streams { n ≤ most_streams One }
    requires disks { n ≤ vec_len disks.old }
    requires none { writers.items ≡ [] }
    requires room { n ≤ vec_capacity writers }
    requires text { length catalogue.now ≤ MAX_CATALOGUE }

    ensures opened { IfOk result (λ writers. AreOpened ⟦<D as Disk>⟧ n (catalogue_record catalogue.now) disks.old.items disks.new.items writers.items) }
    ensures refused { IfErr result (λ refusal. Refuses ⟦<D as Disk>⟧ n (catalogue_record catalogue.now) disks.old.items disks.new.items refusal) }
    ensures back { OnErr result (vec_len disks.new ≡ vec_len disks.old) }
    ensures len { IfOk result (λ writers. vec_len writers + vec_len disks.new ≡ vec_len disks.old) }
    ensures capacity { vec_capacity disks.new ≡ vec_capacity disks.old }
{
    let mut writers = writers;
    match ask_lengths(disks, n) {
        Ok(()) => {}
        Err(refusal) => {
            writers.destroy_empty();
            return Err(refusal);
        }
    }
    disks.reverse();
    match create_streams(alloc, disks, &mut writers, n, catalogue) {
        Ok(()) => {
            disks.reverse();
            Ok(writers)
        }
        Err(refusal) => {
            put_back(disks, writers);
            disks.reverse();
            Err(refusal)
        }
    }
}

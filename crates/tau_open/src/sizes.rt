//! All lengths are asked before anything else.
ghost use Rattle.std.specs.Prelude.{◌≡◌, ◌<◌, ◌≤◌, ℕ, [], length, vec_len, vec_capacity, OnOk, Err};
ghost use Rattle.tau_open.specs.Opening.{Asked, FailsAsked};
ghost use Rattle.tau_disk.specs.Stages.{Staged, StageFails, AreLengths};

use crate::refusal::OpenRefusal;
use tau_disk::Disk;

/// Asks each of the first n disks its length, once, the lowest first, and puts the lengths into the list. A disk that fails
/// ends the asking.
pub fn ask_each<D: Disk>(disks: &mut [D], n: u8, lengths: &mut Vec<u64>) -> Result<(), OpenRefusal>
    requires there { n ≤ length disks.old }
    requires none { lengths.old.items ≡ [] }
    requires room { n ≤ vec_capacity lengths.old }
    ensures asked { OnOk result (Staged (λ i. Asked ⟦<D as Disk>⟧) n disks.old disks.new) }
    ensures lengths { OnOk result (AreLengths D.tells D.seen disks.old lengths.new.items) }
    ensures count { OnOk result (vec_len lengths.new ≡ n) }
    ensures failed { (j : ℕ) → result ≡ Err (OpenRefusal.Failed j) → (j < n) × StageFails (λ i. Asked ⟦<D as Disk>⟧) (λ i. FailsAsked ⟦<D as Disk>⟧) j disks.old disks.new }
    ensures memory { result ≡ Err OpenRefusal.NoMemory → ⊥ }
    ensures long { (j size : ℕ) → result ≡ Err (OpenRefusal.NotEmpty j size) → ⊥ }
{
    for j in 0..n {
        let Ok(length) = disks[j as usize].len() else {
            return Err(OpenRefusal::Failed { stream: j });
        };
        lengths.push_reserved(length);
    }
    Ok(())
}

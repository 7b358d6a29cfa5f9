//! All lengths are asked before a stream is begun.
ghost use Rattle.std.specs.Prelude.{◌≡◌, ◌<◌, ◌≤◌, ℕ, length, OnOk, Err};
ghost use Rattle.tau_disk.specs.Used.{AreEmpty, IsFirstLong};
ghost use Rattle.tau_open.specs.Opening.{AreAsked, FailsAsking, lower_of};

use crate::refusal::OpenRefusal;
use tau_disk::Disk;

/// Asks each of the first n disks its length, once, the lowest first. A disk that fails ends the asking. If all
/// answered, and some hold anything, the lowest of those is named.
pub fn ask_lengths<D: Disk>(disks: &mut [D], n: u8) -> Result<(), OpenRefusal>
    requires { n ≤ length disks.old }

    ensures asked { OnOk result (AreAsked ⟦<D as Disk>⟧ n disks.old disks.new) }
    ensures empty { OnOk result (AreEmpty D.tells D.seen disks.old n) }
    ensures not_empty { (j long : ℕ) → result ≡ Err (OpenRefusal.NotEmpty j long) →
        (j < n) × AreAsked ⟦<D as Disk>⟧ n disks.old disks.new × (D.tells → IsFirstLong D.seen disks.old j long) }
    ensures failed { (j : ℕ) → result ≡ Err (OpenRefusal.Failed j) → (j < n) × FailsAsking ⟦<D as Disk>⟧ j disks.old disks.new }
    ensures memory { result ≡ Err OpenRefusal.NoMemory → ⊥ }
{
    let mut first = None;
    for j in 0..n {
        let Ok(length) = disks[j as usize].len() else {
            return Err(OpenRefusal::Failed { stream: j });
        };
        first = lower(first, j, length);
    }
    match first {
        None => Ok(()),
        Some((stream, length)) => Err(OpenRefusal::NotEmpty { stream, length }),
    }
}

// The first disk with a length: the one that was found before, or this one.
fn lower(first: Option<(u8, u64)>, stream: u8, length: u64) -> Option<(u8, u64)>
    ensures { result ≡ lower_of first stream length }
{
    match first {
        Some(found) => Some(found),
        None => {
            if length == 0 {
                None
            } else {
                Some((stream, length))
            }
        }
    }
}

// The images that a memory disk's calls may leave.
ghost use Rattle.std.specs.Prelude.{◌≡◌, ◌+◌, ◌≤◌, length, OnOk, OnErr, IfOk, true, false, ◌∷◌, []};
ghost use Rattle.tau_disk.specs.Replay.{opened, replayed, over, sevens};
ghost use Rattle.tau_disk.specs.Tear.{EndsAtSync, IsUnsynced, rewritten, sevened};

use crate::DiskCall;
use std::alloc::Global;
use tau_base::NoMemory;

/// What was synced last.
pub fn old_image(alloc: Global, first: &[u8], calls: &[DiskCall]) -> Result<Vec<u8>, NoMemory>
    ensures { IfOk result (λ v. v.items ≡ (replayed (opened first.now) calls.now).synced) }
{
    let last = last_sync(calls);
    let mut image = first.to_vec(alloc)?;
    write_again(&mut image, &calls[..last])?;
    Ok(image)
}

/// The same with each byte that was written since reading 7.
pub fn torn_image(alloc: Global, first: &[u8], calls: &[DiskCall]) -> Result<Vec<u8>, NoMemory>
    ensures { IfOk result (λ v. v.items ≡ (replayed (opened first.now) calls.now).torn) }
{
    let last = last_sync(calls);
    let mut image = first.to_vec(alloc)?;
    write_again(&mut image, &calls[..last])?;
    write_sevens(alloc, &mut image, &calls[last..])?;
    Ok(image)
}

// How many calls there are up to the last sync.
fn last_sync(calls: &[DiskCall]) -> usize
    ensures { EndsAtSync calls.now result }
{
    let mut last = 0;
    for (k, call) in calls.iter().enumerate() {
        if is_sync(call) {
            last = k + 1;
        }
    }
    last
}

fn is_sync(call: &DiskCall) -> bool
    ensures sync { result ≡ true → call.now ≡ DiskCall.Synced }
    ensures other { result ≡ false → IsUnsynced (call.now ∷ []) }
{
    match call {
        DiskCall::Synced => true,
        DiskCall::Wrote(_, _) => false,
        DiskCall::Lost(_, _) => false,
    }
}

// Makes the writes among these calls.
fn write_again(image: &mut Vec<u8>, calls: &[DiskCall]) -> Result<(), NoMemory>
    ensures { OnOk result (image.new.items ≡ rewritten image.old.items calls.now) }
{
    for call in calls {
        write_one(image, call)?;
    }
    Ok(())
}

fn write_one(image: &mut Vec<u8>, call: &DiskCall) -> Result<(), NoMemory>
    ensures { OnOk result (image.new.items ≡ rewritten image.old.items (call.now ∷ [])) }
{
    match call {
        DiskCall::Wrote(at, bytes) => overwrite(image, *at, bytes),
        DiskCall::Lost(_, _) => Ok(()),
        DiskCall::Synced => Ok(()),
    }
}

// Makes the writes among these calls, with 7 in the place of each byte.
fn write_sevens(alloc: Global, image: &mut Vec<u8>, calls: &[DiskCall]) -> Result<(), NoMemory>
    ensures { OnOk result (image.new.items ≡ sevened image.old.items calls.now) }
{
    for call in calls {
        write_one_sevens(alloc, image, call)?;
    }
    Ok(())
}

fn write_one_sevens(alloc: Global, image: &mut Vec<u8>, call: &DiskCall) -> Result<(), NoMemory>
    ensures { OnOk result (image.new.items ≡ sevened image.old.items (call.now ∷ [])) }
{
    match call {
        DiskCall::Wrote(at, bytes) => {
            let sevens = vec![in alloc; 7; bytes.len()]?;
            overwrite(image, *at, &sevens)
        }
        DiskCall::Lost(_, _) => Ok(()),
        DiskCall::Synced => Ok(()),
    }
}

/// Writes over what is there, and past the end.
pub fn overwrite(file: &mut Vec<u8>, at: usize, bytes: &[u8]) -> Result<(), NoMemory>
    ensures written { OnOk result (file.new.items ≡ over at bytes.now file.old.items) }
    ensures err { OnErr result (file.new.items ≡ file.old.items) }
{
    let at = at.min(file.len());
    let within = bytes.len().min(file.len() - at);
    file.extend_from_slice(&bytes[within..])?;
    file[at..at + within].copy_from_slice(&bytes[..within]);
    Ok(())
}

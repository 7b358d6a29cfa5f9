//! Whole texts go to a sink.
ghost use Rattle.std.specs.Prelude.{◌≡◌, ◌≤◌, ◌<◌, ◌++◌, ℕ, length, take, OnOk, OnErr};
ghost use Rattle.tau_disk.specs.Disk.{HasCause};

use crate::disk::{Failed, Sink};

/// Writes all of the bytes. Where the sink fails, a first part of them is written.
pub fn write_all<K: Sink>(sink: &mut K, bytes: &[u8]) -> Result<(), Failed>
    ensures ok { OnOk result (K.tells → K.held sink.new ≡ K.held sink.old ++ bytes.now) }
    ensures err { OnErr result ((k : ℕ) × (k < length bytes.now) × (K.tells → K.held sink.new ≡ K.held sink.old ++ take k bytes.now)) }
    ensures cause { HasCause (K.faults sink.old) (K.faults sink.new) result }
{
    let mut at = 0;
    while at < bytes.len() {
        let count = sink.write(&bytes[at..])?;
        at += count;
    }
    Ok(())
}

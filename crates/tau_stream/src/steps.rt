// A block goes onto a disk in two steps.
ghost use Rattle.std.specs.Prelude.{◌≡◌, ◌+◌, ◌<◌, ◌≤◌, ◌^◌, ◌++◌, List, ℕ, length, OnOk, OnErr};
ghost use Rattle.tau_base.specs.declared.format.Format.{Format};
ghost use Rattle.tau_block.specs.Image.{IsBody, tail_of};
ghost use Rattle.tau_disk.specs.Disk.{Passes, HasCause};
ghost use Rattle.tau_disk.specs.Left.{SameLast};
ghost use Rattle.tau_disk.specs.Plan.{HasMade};
ghost use Rattle.tau_stream.specs.Stream.{IsSettled, IsOldOrNew, MayHold, PublishStops};

use tau_block::open_gate;
use tau_disk::{Disk, Failed, Gate, Place, Quiet, write_durably};

/// Writes a block after the closed gate and syncs, then opens the gate and syncs. A gate place stands between the
/// two. The block is the length, the body and a closed gate.
pub fn publish_gated<D: Disk, G: Gate>(
    disk: &mut D,
    gate_at: u64,
    block: &[u8],
    gate: &G,
    stream: u8,
) -> Result<(), Failed>
    requires within { D.tells → gate_at < length (D.seen disk.old) }
    requires end { gate_at + 1 + length block.now < 2 ^ 62 }

    // After Ok the block is after the content, in every image.
    ensures done { OnOk result (D.tells → (f : Format) (n j : ℕ) (content body : List ℕ) →
        IsSettled f n j (D.seen disk.old) (D.may_leave disk.old) gate_at content → IsBody body → block.now ≡ tail_of body →
        IsSettled f n j (D.seen disk.new) (D.may_leave disk.new) (gate_at + length block.now) (content ++ body)) }

    ensures here { OnOk result (D.tells → gate_at + length block.now < length (D.seen disk.new)) }

    // At each moment every image has the old content or the new one.
    ensures moments { D.tells → (f : Format) (n j : ℕ) (content body : List ℕ) →
        IsSettled f n j (D.seen disk.old) (D.may_leave disk.old) gate_at content → IsBody body → block.now ≡ tail_of body →
        Passes D.moment D.may_leave_since disk.old disk.new (IsOldOrNew f n j content body) }

    // After a failure some image has the old content.
    ensures reached { OnErr result (D.tells → (f : Format) (n j : ℕ) (content : List ℕ) →
        IsSettled f n j (D.seen disk.old) (D.may_leave disk.old) gate_at content → MayHold f n j content (D.may_leave disk.new)) }
    // After a failure the content is there in each kind of image, and in the one with all writes the block too if it was through.
    ensures left { OnErr result (D.tells → PublishStops ⟦<D as Disk>⟧ gate_at block.now disk.old disk.new) }
    ensures last { D.tells → SameLast (D.keeps disk.old) (D.keeps disk.new) }
    ensures plan { D.tells → HasMade 4 (D.number disk.old) (D.number disk.new) (D.fails disk.old) (D.fails disk.new) (D.short disk.old) (D.short disk.new) result }
    ensures cause { HasCause (D.faults disk.old) (D.faults disk.new) result }
{
    write_durably(disk, gate_at + 1, block)?;
    gate.at(Place::Flush { stream });
    write_durably(disk, gate_at, &open_gate())?;
    Ok(())
}

/// The same with no gate place.
pub fn publish<D: Disk>(disk: &mut D, gate_at: u64, block: &[u8]) -> Result<(), Failed>
    requires within { D.tells → gate_at < length (D.seen disk.old) }
    requires end { gate_at + 1 + length block.now < 2 ^ 62 }

    // After Ok the block is after the content, in every image.
    ensures done { OnOk result (D.tells → (f : Format) (n j : ℕ) (content body : List ℕ) →
        IsSettled f n j (D.seen disk.old) (D.may_leave disk.old) gate_at content → IsBody body → block.now ≡ tail_of body →
        IsSettled f n j (D.seen disk.new) (D.may_leave disk.new) (gate_at + length block.now) (content ++ body)) }

    ensures here { OnOk result (D.tells → gate_at + length block.now < length (D.seen disk.new)) }

    // At each moment every image has the old content or the new one.
    ensures moments { D.tells → (f : Format) (n j : ℕ) (content body : List ℕ) →
        IsSettled f n j (D.seen disk.old) (D.may_leave disk.old) gate_at content → IsBody body → block.now ≡ tail_of body →
        Passes D.moment D.may_leave_since disk.old disk.new (IsOldOrNew f n j content body) }

    // After a failure some image has the old content.
    ensures reached { OnErr result (D.tells → (f : Format) (n j : ℕ) (content : List ℕ) →
        IsSettled f n j (D.seen disk.old) (D.may_leave disk.old) gate_at content → MayHold f n j content (D.may_leave disk.new)) }
    // After a failure the content is there in each kind of image, and in the one with all writes the block too if it was through.
    ensures left { OnErr result (D.tells → PublishStops ⟦<D as Disk>⟧ gate_at block.now disk.old disk.new) }
    ensures last { D.tells → SameLast (D.keeps disk.old) (D.keeps disk.new) }
    ensures plan { D.tells → HasMade 4 (D.number disk.old) (D.number disk.new) (D.fails disk.old) (D.fails disk.new) (D.short disk.old) (D.short disk.new) result }
    ensures cause { HasCause (D.faults disk.old) (D.faults disk.new) result }
{
    publish_gated(disk, gate_at, block, &Quiet, 0)
}

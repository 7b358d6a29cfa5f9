//! Laws of slots.
ghost use Rattle.std.specs.Prelude.{◌≡◌, List, ℕ};
ghost use Rattle.tau_ckpt.specs.Slot.{AreTables, Holds};
ghost use Rattle.tau_ckpt.specs.declared.checkpoint.Checkpoint.{Checkpoint};

/// An image of a slot holds at most one checkpoint.
pub fn one_checkpoint()
    ensures { (slot : ℕ) (image : List ℕ) (c d : Checkpoint) → Holds slot image c → Holds slot image d → c ≡ d }
{}

/// The rows of a checkpoint that a slot holds are tables.
pub fn held_rows()
    ensures { (slot : ℕ) (image : List ℕ) (c : Checkpoint) → Holds slot image c → AreTables c.rows }
{}

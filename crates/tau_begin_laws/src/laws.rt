//! What was opened is where a run may begin.
ghost use Rattle.tau_begin_laws.specs.Laws.{BegunIsStart};

use tau_disk::Disk;

/// What the opening of a run has read and redone is where a run may begin, and its state is the state of that.
pub fn begun_is_start<D: Disk>()
    ensures { BegunIsStart ⟦<D as Disk>⟧ }
{}

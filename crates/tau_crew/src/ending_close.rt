//! The desk closes, and the run has ended.
ghost use Rattle.std.specs.Prelude.{ℕ, ◌≡◌, List, map};
ghost use Rattle.tau_crew.specs.EndCloses.{IsAllBack};
ghost use Rattle.tau_crew.specs.EndDone.{ClosesDone};
ghost use Rattle.tau_crew.specs.EndJoins.{writer_in};
ghost use Rattle.tau_crew.specs.declared.clerk.ClerkJob.{ClerkJob as ClerkJobOf};
ghost use Rattle.tau_crew.specs.declared.manager.ManagerJob.{ManagerJob as ManagerJobOf};

use tau_core::Core;
use tau_desk::{Desk, Head};
use tau_disk::Disk;
use tau_stream::Writer;

/// The core that the run has led to. The head has every role, and the writers are back. It takes no memory.
pub(crate) fn close_run<D: Disk>(desk: Desk, head: Head, writers: &Vec<Writer<D>>) -> Core
    requires back { (bases : ℕ → List ℕ) × (ws : List _) × (jobs : List _) × (telling : ClerkJobOf) × (writers.now.items ≡ map writer_in jobs) × IsAllBack desk.table.shared.key.value desk.table.shared.table_id bases ws head jobs telling }
    ensures { (bases : ℕ → List ℕ) (ws : List _) (jobs : List _) (telling : ClerkJobOf) → writers.now.items ≡ map writer_in jobs → IsAllBack desk.table.shared.key.value desk.table.shared.table_id bases ws head jobs telling → ClosesDone desk.table.shared.key.value desk.table.shared.key.style bases ws writers.now.items head jobs telling result }
{
    let _ = writers;
    head.agrees();
    desk.close(head)
}

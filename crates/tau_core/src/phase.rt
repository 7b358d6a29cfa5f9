//! Where a worker stands.
ghost use Rattle.std.specs.Prelude.{◌≡◌};
ghost use Rattle.tau_core.specs.Phases.{phase_of_kind};

use crate::event::Phase;
use tau_txn::ActionKind;

/// The phase in which an action of this kind comes.
pub(crate) fn phase_of_kind(kind: ActionKind) -> Phase
    ensures { result ≡ phase_of_kind kind }
{
    match kind {
        ActionKind::Lock => Phase::Locking,
        ActionKind::Quit => Phase::Quitting,
        ActionKind::Commit => Phase::Ready,
        ActionKind::Post => Phase::Placed,
        ActionKind::Free => Phase::Freeing,
        ActionKind::Done => Phase::Ended,
        ActionKind::LeftOver => Phase::Resting,
        ActionKind::Nothing => Phase::Resting,
    }
}

//! Why a report is not read.
ghost use Rattle.std.specs.Prelude.{◌≡◌};
ghost use Rattle.tau_inspect.specs.declared.refusal.ReportRefusal.TheVariants.{NoMemory};

use tau_base::NoMemory;
use thiserror::Error;

/// Why a report was not read.
#[derive(Clone, Copy, Debug, PartialEq, Eq, Error)]
pub enum ReportRefusal {
    /// Out of memory.
    #[error("out of memory")]
    NoMemory,
    /// The text is not that of a run.
    #[error("line {line}: no line of a run's report")]
    Bad {
        /// Its first bad line, from 1.
        line: u32,
    },
}

impl From<NoMemory> for ReportRefusal {
    ghost from_gives = { λ _ e. e ≡ NoMemory };

    fn from(_: NoMemory) -> ReportRefusal {
        ReportRefusal::NoMemory
    }
}

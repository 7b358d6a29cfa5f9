//! From the words and the source to a workload.
ghost use Rattle.std.specs.Prelude.{◌≡◌, ◌≤◌, ◌<◌, ◌+◌, ℕ, List, [], ◌∷◌, true, false, length, drop, map, string_bytes, Some, None, Ok, Err, IfOk, IfErr, OnOk};
ghost use Rattle.tau_disk.specs.Disk.{Rose};
ghost use Rattle.tau_model.specs.History.{Member};
ghost use Rattle.tau_text.specs.declared.fault.TextCause.{TextCause};
ghost use Rattle.tau_text.specs.declared.fault.TextFault.{TextFault};
ghost use Rattle.tau_text.specs.Kept.{IsRunnable};
ghost use Rattle.tau_text.specs.Text.{workload_of};
ghost use Rattle.tau_commands.specs.Outside.{HasWorkload, HasFault, ends_text, is_behind_end};

use crate::source::{SourceRefusal, read_text};
use crate::status::Status;
use std::alloc::Global;
use tau_base::MAX_WORKLOAD;
use tau_disk::Source;
use tau_text::{TextRefusal, Workload, parse_workload};

/// The workload of the source's text.
pub fn read_source<S: Source>(alloc: Global, source: &mut S) -> Result<Workload, Status>
    ensures read_fault { result ≡ Err Status.ReadFault → Rose (S.faults source.old) (S.faults source.new) }
    ensures too_long { result ≡ Err Status.TooLong → S.tells → MAX_WORKLOAD < length (S.left source.old) }
    ensures too_long_told { S.tells → MAX_WORKLOAD < length (S.left source.old) → Member result (Err Status.TooLong ∷ Err Status.ReadFault ∷ Err Status.NoMemory ∷ []) }
    ensures bad_text { (line : ℕ) (cause : TextCause) → result ≡ Err (Status.BadText line cause) → S.tells → HasFault (S.left source.old) (record { line = line; cause = cause }) }
    ensures load { IfOk result (λ load. S.tells → HasWorkload (S.left source.old) load) }
    ensures end { IfOk result (λ load. S.tells → S.left source.new ≡ []) }
    ensures end_bad { (line : ℕ) (cause : TextCause) → result ≡ Err (Status.BadText line cause) → S.tells → S.left source.new ≡ [] }
    ensures meant { IfOk result (λ load. (text : List ℕ) × (workload_of text ≡ Ok load)) }
    ensures runnable { IfOk result (λ load. IsRunnable load) }
    ensures kind { IfErr result (λ status. ends_text status ≡ true) }
    ensures source { S.tells → (k : ℕ) × (k ≤ MAX_WORKLOAD + 1) × (S.left source.new ≡ drop k (S.left source.old)) }
    ensures later { S.faults source.old ≤ S.faults source.new }
{
    match read_text(alloc, source) {
        Err(SourceRefusal::NoMemory) => Err(Status::NoMemory),
        Err(SourceRefusal::Failed) => Err(Status::ReadFault),
        Err(SourceRefusal::TooLong) => Err(Status::TooLong),
        Ok(text) => match parse_workload(alloc, &text) {
            Ok(load) => Ok(load),
            Err(TextRefusal::NoMemory) => Err(Status::NoMemory),
            Err(TextRefusal::Bad(fault)) => Err(Status::BadText {
                line: fault.line,
                cause: fault.cause,
            }),
        },
    }
}

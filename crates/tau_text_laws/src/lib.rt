//! Laws of the workload text.
#![tactic(auto)]

ghost use Rattle.std.specs.Prelude.{◌≡◌, ◌≤◌, ◌<◌, ℕ, ℤ, List, Some, Ok, length, slice_index_or};
ghost use Rattle.std.specs.Fmt.{signed_decimal};
ghost use Rattle.tau_base.specs.declared.limits.TheConstants.{MAX_CATALOGUE, MAX_WORKLOAD};
ghost use Rattle.tau_text.specs.declared.load.Workload.{Workload};
ghost use Rattle.tau_text.specs.Alone.{declarations_of};
ghost use Rattle.tau_text.specs.Canonical.{declarations_text, workload_text};
ghost use Rattle.tau_text.specs.Spelled.{number};
ghost use Rattle.tau_text.specs.Text.{workload_of};

/// The canonical text of a workload that some text means has that workload as its one reading, within the limit of a
/// text.
#[tactic(auto, using(crate::proofs::Law::canonical_read))]
pub fn canonical_texts_are_read_again()
    ensures { (text : List ℕ) (load : Workload) → workload_of text ≡ Ok load → length (workload_text load) ≤ MAX_WORKLOAD → workload_of (workload_text load) ≡ Ok load }
{}

/// The canonical text of the declarations of such a workload is that of declarations alone, and within the limit of a
/// catalogue.
#[tactic(auto, using(crate::proofs::Law::declarations_read, crate::proofs::Law::declarations_fit))]
pub fn canonical_declarations_are_read_again()
    ensures read { (text : List ℕ) (load : Workload) → workload_of text ≡ Ok load → declarations_of (declarations_text load.declarations) ≡ Ok load.declarations }
    ensures short { (text : List ℕ) (load : Workload) → workload_of text ≡ Ok load → length (declarations_text load.declarations) ≤ MAX_CATALOGUE }
{}

/// And it is of bytes.
#[tactic(auto, using(crate::proofs::Ranges::declarations_bytes))]
pub fn canonical_declarations_are_bytes()
    ensures { (text : List ℕ) (load : Workload) → workload_of text ≡ Ok load → (i : ℕ) → slice_index_or (declarations_text load.declarations) i 0 < 256 }
{}

/// A number has one spelling, the one that is printed.
#[tactic(auto, using(crate::proofs::Unique::number_same))]
pub fn numbers_have_one_spelling()
    ensures { (w : List ℕ) (z : ℤ) → number w ≡ Some z → signed_decimal z ≡ w }
{}

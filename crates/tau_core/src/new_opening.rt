//! The opening of a log that begins.
ghost use Rattle.std.specs.Prelude.{◌≡◌, ◌≤◌, ◌<◌, IfOk, length, replicate};
ghost use Rattle.tau_base.specs.declared.limits.TheConstants.{MAX_CATALOGUE, MAX_LSN};
ghost use Rattle.tau_text.specs.Canonical.{declarations_text};
ghost use Rattle.tau_core.specs.Opens.{IsFresh, catalogue_size};

use crate::opening::Opening;
use arrayvec::ArrayVec;
use std::alloc::Global;
use tau_base::{Lv, MAX_STREAMS, NoMemory};
use tau_model::Tables;
use tau_record::encode_catalogue;
use tau_text::{Declarations, print_declarations};

/// The opening in which each stream has its catalogue's record alone.
pub(crate) fn fresh(
    alloc: Global,
    declarations: &Declarations,
    streams: usize,
) -> Result<Opening, NoMemory>
    requires low { 1 ≤ streams }
    requires high { streams ≤ MAX_STREAMS }
    requires text { length (declarations_text declarations.now) ≤ MAX_CATALOGUE }
    ensures { IfOk result (λ opening. IsFresh streams (catalogue_size (declarations_text declarations.now)) opening) }
{
    let size = catalogue_size(alloc, declarations)?;
    Ok(fresh_at(alloc, streams, size))
}

/// How long the record of the catalogue is.
fn catalogue_size(alloc: Global, declarations: &Declarations) -> Result<u64, NoMemory>
    requires { length (declarations_text declarations.now) ≤ MAX_CATALOGUE }
    ensures same { IfOk result (λ size. size ≡ catalogue_size (declarations_text declarations.now)) }
    ensures small { IfOk result (λ size. size < MAX_LSN) }
{
    let text = print_declarations(alloc, declarations)?;
    let record = encode_catalogue(alloc, text.as_slice())?;
    Ok(record.len() as u64)
}

/// The opening in which each of so many streams ends here.
fn fresh_at(alloc: Global, n: usize, end: u64) -> Opening
    requires low { 1 ≤ n }
    requires high { n ≤ MAX_STREAMS }
    requires small { end < MAX_LSN }
    ensures { IsFresh n end result }
{
    Opening {
        rows: Tables::of(Vec::new(alloc)),
        floor: Lv::zero(n),
        ends: same_ends(n, end),
        anchors: no_anchors(n),
    }
}

/// Each of so many streams ends here.
fn same_ends(n: usize, end: u64) -> Lv
    requires low { 1 ≤ n }
    requires high { n ≤ MAX_STREAMS }
    requires small { end < MAX_LSN }
    ensures { result ≡ replicate n end }
{
    let mut ends = Lv::zero(n);
    for j in 0..n {
        ends.set(j, end);
    }
    ends
}

/// No stream has an anchor.
fn no_anchors(n: usize) -> ArrayVec<u32, MAX_STREAMS>
    requires { n ≤ MAX_STREAMS }
    ensures { result.items ≡ replicate n 0 }
{
    let mut anchors = ArrayVec::new();
    for _stream in 0..n {
        anchors.push(0);
    }
    anchors
}

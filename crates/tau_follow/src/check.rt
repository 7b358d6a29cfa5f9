//! Judging all that is read.
ghost use Rattle.std.specs.Prelude.{◌≡◌, ◌≤◌, ◌<◌, ◌+◌, ◌++◌, ◌∷◌, [], ℕ, List, Option, Some, None, Ok, Err, true, false, length, drop, slice_get, IfOk, IfErr, IfSome, IsNone, OnOk};
ghost use Rattle.std.specs.List.{All};
ghost use Rattle.tau_base.specs.declared.format.Format.{Format};
ghost use Rattle.tau_base.specs.declared.limits.TheConstants.{MAX_STREAMS, MAX_CATALOGUE};
ghost use Rattle.tau_record.specs.declared.entry.Placed.{Placed as OnePlaced};
ghost use Rattle.tau_scan.specs.Epochs.{marks_from, with_marks};
ghost use Rattle.tau_scan.specs.Found.{IsShort};
ghost use Rattle.tau_scan.specs.Reading.{text_of, catalogue_of, catalogue_in, declared_by};
ghost use Rattle.tau_scan.specs.Taken.{Kept};
ghost use Rattle.tau_scan.specs.declared.fault.LogFault.{LogFault as OneFault};
ghost use Rattle.tau_scan.specs.declared.fault.LogRefusal.TheVariants as refusals;
ghost use Rattle.tau_follow_laws.specs.Fed.{fronts_of};
ghost use Rattle.tau_follow_laws.specs.Feeding.{read_now};
ghost use Rattle.tau_follow.specs.Feeding.{Standing};

use crate::judge::late_from;
use crate::stage::Stages;
use std::alloc::Global;
use tau_base::{Listed, MAX_CATALOGUE};
use tau_epoch::Epochs;
use tau_record::{Entry, Placed};
use tau_scan::{
    LogRefusal, declarations_in, known_in, none_declared, one_catalogue, one_vector_each,
};
use tau_text::Declarations;

/// Whether the text of a catalogue is no longer than one may be.
fn is_short_entry(entry: &Entry) -> bool
    ensures { result ≡ true → IsShort (text_of entry.now) }
{
    match entry {
        Entry::Catalogue { text } => text.len() <= MAX_CATALOGUE,
        Entry::Written { .. } => true,
        Entry::Command { .. } => true,
        Entry::Anchor { .. } => true,
        Entry::Epoch { .. } => true,
    }
}

/// Whether the text of the catalogue of a stream is no longer than one may be.
fn is_short(records: &[Placed]) -> bool
    ensures { result ≡ true → IsShort (catalogue_of records.now) }
{
    match records.get(0) {
        None => true,
        Some(placed) => is_short_entry(&placed.entry),
    }
}

/// The same of all streams. It is so of streams that were read.
fn all_short(streams: &[Listed<Placed>]) -> bool
    ensures { result ≡ true → All (λ ps. IsShort (catalogue_of ps)) streams.now }
{
    for j in 0..streams.len() {
        if !is_short(streams[j].as_slice()) {
            return false;
        }
    }
    true
}

/// What the one catalogue of all streams declares.
pub fn declared(alloc: Global, streams: &[Listed<Placed>]) -> Result<Declarations, LogRefusal>
    requires { length streams.now ≤ MAX_STREAMS }
    ensures ok { IfOk result (λ d. (c : Option (List ℕ)) × (catalogue_in streams.now ≡ Ok c) × (d ≡ declared_by c)) }
    ensures bad { (fault : OneFault) → result ≡ Err (refusals.Bad fault) → catalogue_in streams.now ≡ Err fault }
{
    if !all_short(streams) {
        return Err(LogRefusal::NoMemory);
    }
    match one_catalogue(streams) {
        Err(fault) => Err(LogRefusal::Bad(fault)),
        Ok(None) => Ok(none_declared(alloc)),
        Ok(Some(text)) => match declarations_in(alloc, text) {
            Ok(found) => Ok(found),
            Err(_) => Err(LogRefusal::NoMemory),
        },
    }
}

/// The epochs that are known of what is read, or the first cause why it is no log or comes too late.
pub fn checked(
    alloc: Global,
    streams: &[Listed<Placed>],
    stages: &[Stages],
) -> Result<Epochs, LogRefusal>
    requires { length streams.now ≤ MAX_STREAMS }
    ensures known { IfOk result (λ known. known ≡ with_marks [] (marks_from streams.now)) }
    ensures ok { (format : Format) (fed : List (List ℕ)) (out order : List Kept) → fronts_of format fed ≡ Ok streams.now → Standing streams.now stages.now out order → IfOk result (λ _. read_now format fed order ≡ Ok streams.now) }
    ensures bad { (format : Format) (fed : List (List ℕ)) (out order : List Kept) (fault : OneFault) → fronts_of format fed ≡ Ok streams.now → Standing streams.now stages.now out order → result ≡ Err (refusals.Bad fault) → read_now format fed order ≡ Err fault }
{
    if !all_short(streams) {
        return Err(LogRefusal::NoMemory);
    }
    match one_catalogue(streams) {
        Ok(_) => {}
        Err(fault) => return Err(LogRefusal::Bad(fault)),
    }
    match one_vector_each(alloc, streams) {
        Ok(()) => {}
        Err(e) => return Err(e),
    }
    let Ok(known) = known_in(alloc, streams) else {
        return Err(LogRefusal::NoMemory);
    };
    match late_from(&known, streams, stages) {
        Ok(None) => Ok(known),
        Ok(Some(fault)) => Err(LogRefusal::Bad(fault)),
        Err(_) => Err(LogRefusal::NoMemory),
    }
}

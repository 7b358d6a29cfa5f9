//! The check of the records.
ghost use Rattle.std.specs.Prelude.{ℕ, ◌≡◌, ◌≤◌, ◌↔◌, IsTrue, List, length, map, All, IfOk};
ghost use Rattle.tau_scan.specs.Taken.{Kept};
ghost use Rattle.tau_inspect.specs.Audit.{acts, records, HasAct, AckAgrees, IsHome, FitsRecord};
ghost use Rattle.tau_inspect.specs.ByNumber.{HasFlags, HasPlaces, IsUnique};
ghost use Rattle.tau_inspect.specs.Cases.{in_case};
ghost use Rattle.tau_inspect.specs.Executed.{effects, IsNumberOf};
ghost use Rattle.tau_inspect.specs.Firsts.{Finds};

use crate::acked::{Ack, ack_at};
use crate::by_number::{flag, flags, index_of, is_flagged};
use crate::case::LentCase;
use crate::executed::AllDone;
use crate::records::Record;
use std::alloc::Global;
use tau_base::{NoMemory, stream_of, worker_of};

/// Whether a record holds what a call of the order did that writes. `places` has where the numbers of the order stand in it.
fn has_act(case: &LentCase<'_>, done: &AllDone, places: &[usize], one: &Record<'_>) -> bool
    requires done { done.now ≡ effects (acts (in_case case.now)) }
    requires many { length done.now ≡ length case.now.report.now.order }
    requires there { All (IsNumberOf case.now.load.now.calls) case.now.report.now.order }
    requires unique { IsUnique case.now.report.now.order }
    requires placed { HasPlaces (length case.now.load.now.calls) case.now.report.now.order places.now }
    ensures { IsTrue result ↔ HasAct (in_case case.now) one.now }
{
    match index_of(places, one.number()) {
        None => false,
        Some(index) => {
            let did = done.at(index);
            if did.writes().is_empty() {
                return false;
            }
            one.has_work(
                did.writes(),
                case.load.calls.at((one.number() - 1) as usize),
            )
        }
    }
}

/// Whether a record stands in the stream of its call's worker.
pub fn is_home(case: &LentCase<'_>, one: &Record<'_>) -> bool
    requires { 1 ≤ case.now.workers }
    ensures { IsTrue result ↔ IsHome (in_case case.now) one.now }
{
    one.stream() == stream_of(worker_of(one.number(), case.workers), case.log.elv.width()) as u64
}

/// Whether an acknowledgement of its call, if there is one, has its vector. `places` has where the numbers of the
/// acknowledgements stand among them.
pub fn ack_agrees(case: &LentCase<'_>, acks: &[Ack<'_>], places: &[usize], one: &Record<'_>) -> bool
    requires acks { acks.now ≡ case.now.report.now.acks }
    requires small { one.now.number ≤ length case.now.load.now.calls }
    requires unique { IsUnique (map (λ a. a.0) case.now.report.now.acks) }
    requires placed { HasPlaces (length case.now.load.now.calls) (map (λ a. a.0) case.now.report.now.acks) places.now }
    ensures { IsTrue result ↔ AckAgrees (in_case case.now) one.now }
{
    match index_of(places, one.number()) {
        None => true,
        Some(index) => one.has_vector(ack_at(acks, index).lv()),
    }
}

/// Whether a record fits, after others whose numbers are flagged.
fn fits_record(
    case: &LentCase<'_>,
    done: &AllDone,
    places: &[usize],
    acks: &[Ack<'_>],
    ack_places: &[usize],
    seen: &[bool],
    one: &Record<'_>,
) -> bool
    requires workers { 1 ≤ case.now.workers }
    requires done { done.now ≡ effects (acts (in_case case.now)) }
    requires many { length done.now ≡ length case.now.report.now.order }
    requires there { All (IsNumberOf case.now.load.now.calls) case.now.report.now.order }
    requires unique { IsUnique case.now.report.now.order }
    requires placed { HasPlaces (length case.now.load.now.calls) case.now.report.now.order places.now }
    requires acks { acks.now ≡ case.now.report.now.acks }
    requires acked_once { IsUnique (map (λ a. a.0) case.now.report.now.acks) }
    requires acks_placed { HasPlaces (length case.now.load.now.calls) (map (λ a. a.0) case.now.report.now.acks) ack_places.now }
    ensures { (before : List Kept) → HasFlags (length case.now.load.now.calls) (map (λ r. r.number) before) seen.now → (IsTrue result ↔ FitsRecord (in_case case.now) before one.now) }
{
    if !has_act(case, done, places, one) {
        return false;
    }
    if one.number() > case.load.calls.len() as u64 {
        return false;
    }
    if is_flagged(seen, one.number()) {
        return false;
    }
    if !is_home(case, one) {
        return false;
    }
    ack_agrees(case, acks, ack_places, one)
}

/// The first record, by stream and place, that is not that of a call of the order.
pub fn check_records(
    alloc: Global,
    case: &LentCase<'_>,
    done: &AllDone,
    places: &[usize],
    acks: &[Ack<'_>],
    ack_places: &[usize],
    all: &[Record<'_>],
) -> Result<Option<u64>, NoMemory>
    requires workers { 1 ≤ case.now.workers }
    requires done { done.now ≡ effects (acts (in_case case.now)) }
    requires many { length done.now ≡ length case.now.report.now.order }
    requires there { All (IsNumberOf case.now.load.now.calls) case.now.report.now.order }
    requires unique { IsUnique case.now.report.now.order }
    requires placed { HasPlaces (length case.now.load.now.calls) case.now.report.now.order places.now }
    requires acks { acks.now ≡ case.now.report.now.acks }
    requires acked_once { IsUnique (map (λ a. a.0) case.now.report.now.acks) }
    requires acks_placed { HasPlaces (length case.now.load.now.calls) (map (λ a. a.0) case.now.report.now.acks) ack_places.now }
    requires all { all.now ≡ records (in_case case.now) }
    ensures { IfOk result (λ found. Finds (λ r. r.number) (FitsRecord (in_case case.now)) (records (in_case case.now)) found) }
{
    let mut seen = flags(alloc, case.load.calls.len(), &[])?;
    for i in 0..all.len() {
        let one = &all[i];
        if !fits_record(case, done, places, acks, ack_places, &seen, one) {
            return Ok(Some(one.number()));
        }
        flag(&mut seen, one.number());
    }
    Ok(None)
}

//! The check of the order: it is the reported history.
ghost use Rattle.std.specs.Prelude.{ℕ, ◌≡◌, ◌<◌, ◌≤◌, ◌-◌, ◌++◌, ◌∷◌, [], List, true, false, length, map, All, IfOk, IfSome, OnOk, Some, IsTrue, ◌↔◌, if◌then◌else◌, slice_get};
ghost use Rattle.tau_model.specs.History.{updates};
ghost use Rattle.tau_inspect.specs.Audit.{acts, records, committed_by, committed_of, has_ack, has_record, nowhere, place_in, vector_in, FitsOrder, IsWhole};
ghost use Rattle.tau_inspect.specs.ByNumber.{HasPlaces, IsUnique};
ghost use Rattle.tau_inspect.specs.Cases.{in_case, IsCase};
ghost use Rattle.tau_inspect.specs.Records.{IsLv, IsPlaced};
ghost use Rattle.tau_inspect.specs.Executed.{effects, IsNumberOf};
ghost use Rattle.tau_inspect.specs.Firsts.{Finds};

use crate::acked::{Ack, ack_at};
use crate::by_number::known_index;
use crate::case::LentCase;
use crate::executed::{AllDone, Done};
use crate::records::{Record, record_at};
use std::alloc::Global;
use tau_base::{Lv, NoMemory, Value};
use tau_model::{CommittedList, Spot, reported};
use tau_proc::Reply;

/// The vector with these positions.
fn vector_of(positions: &[u64]) -> Lv
    requires { IsLv positions.now }
    ensures { result ≡ positions.now }
{
    let mut lv = Lv::zero(positions.len());
    for j in 0..positions.len() {
        lv.set(j, positions[j]);
    }
    lv
}

/// The place of a record.
fn spot_of(one: &Record<'_>) -> Spot
    requires { one.now.place.stream ≤ 255 }
    ensures { result ≡ record { stream = one.now.place.stream; start = one.now.place.start; past = one.now.place.past; anchor = 0 } }
{
    Spot {
        stream: one.stream() as u8,
        start: one.start(),
        past: one.past(),
        anchor: 0,
    }
}

/// Puts a call that writes at the end, with the place of its record.
fn put_writer(
    list: &mut CommittedList,
    all: &[Record<'_>],
    places: &[usize],
    number: u64,
) -> Result<(), NoMemory>
    requires unique { IsUnique (map (λ r. r.number) all.now) }
    requires placed { HasPlaces (length places.now - 1) (map (λ r. r.number) all.now) places.now }
    requires within { number < length places.now }
    requires there { has_record number all.now ≡ true }
    requires fits { All IsPlaced all.now }
    ensures { OnOk result (list.new.items ≡ list.old.items ++ committed_by number true (place_in number all.now) ∷ []) }
{
    let one = record_at(all, known_index(places, number));
    let lv = vector_of(one.dep());
    list.push(number, &Reply::Ok(Value::Absent), &lv, Some(spot_of(one)))
}

/// Puts a call that only reads at the end, with the vector of its acknowledgement.
fn put_reader(
    list: &mut CommittedList,
    acks: &[Ack<'_>],
    places: &[usize],
    number: u64,
) -> Result<(), NoMemory>
    requires unique { IsUnique (map (λ a. a.0) acks.now) }
    requires placed { HasPlaces (length places.now - 1) (map (λ a. a.0) acks.now) places.now }
    requires within { number < length places.now }
    requires there { has_ack number acks.now ≡ true }
    requires fits { All (λ a. IsLv a.1) acks.now }
    ensures { OnOk result (list.new.items ≡ list.old.items ++ committed_by number false (nowhere (vector_in number acks.now)) ∷ []) }
{
    let lv = vector_of(ack_at(acks, known_index(places, number)).lv());
    list.push(number, &Reply::Ok(Value::Absent), &lv, None)
}

/// The calls of the order with their places.
fn listed(
    alloc: Global,
    case: &LentCase<'_>,
    done: &AllDone,
    acks: &[Ack<'_>],
    ack_places: &[usize],
    all: &[Record<'_>],
    places: &[usize],
) -> Result<CommittedList, NoMemory>
    requires is { IsCase (in_case case.now) }
    requires whole { IsWhole (in_case case.now) }
    requires done { done.now ≡ effects (acts (in_case case.now)) }
    requires many { length done.now ≡ length case.now.report.now.order }
    requires acks { acks.now ≡ case.now.report.now.acks }
    requires acked_once { IsUnique (map (λ a. a.0) case.now.report.now.acks) }
    requires acks_placed { HasPlaces (length case.now.load.now.calls) (map (λ a. a.0) case.now.report.now.acks) ack_places.now }
    requires all { all.now ≡ records (in_case case.now) }
    requires recorded_once { IsUnique (map (λ r. r.number) (records (in_case case.now))) }
    requires records_placed { HasPlaces (length case.now.load.now.calls) (map (λ r. r.number) (records (in_case case.now))) places.now }
    ensures { IfOk result (λ list. list.items ≡ map (committed_of (in_case case.now)) (acts (in_case case.now))) }
{
    // A log has one stream at least and 32 at most.
    let _width = case.log.elv.width();
    let mut list = CommittedList::new(alloc);
    list.reserve(done.len())?;
    for i in 0..done.len() {
        let did = done.at(i);
        put_call(
            &mut list,
            &did,
            case.report.order[i],
            acks,
            ack_places,
            all,
            places,
        )?;
    }
    Ok(list)
}

/// Puts a call at the end, with its place.
fn put_call(
    list: &mut CommittedList,
    did: &Done<'_>,
    number: u64,
    acks: &[Ack<'_>],
    ack_places: &[usize],
    all: &[Record<'_>],
    places: &[usize],
) -> Result<(), NoMemory>
    requires acked_once { IsUnique (map (λ a. a.0) acks.now) }
    requires acks_placed { HasPlaces (length ack_places.now - 1) (map (λ a. a.0) acks.now) ack_places.now }
    requires acks_fit { All (λ a. IsLv a.1) acks.now }
    requires recorded_once { IsUnique (map (λ r. r.number) all.now) }
    requires records_placed { HasPlaces (length places.now - 1) (map (λ r. r.number) all.now) places.now }
    requires records_fit { All IsPlaced all.now }
    requires within { (number < length ack_places.now) × (number < length places.now) }
    requires told { (if updates did.now then has_record number all.now else has_ack number acks.now) ≡ true }
    ensures { OnOk result (list.new.items ≡ list.old.items ++ committed_by number (updates did.now) (if updates did.now then place_in number all.now else nowhere (vector_in number acks.now)) ∷ []) }
{
    if did.writes().is_empty() {
        return put_reader(list, acks, ack_places, number);
    }
    put_writer(list, all, places, number)
}

/// The first number of the order that is not that of the history at its place.
fn first_other(order: &[u64], due: &[u64]) -> Option<u64>
    ensures { Finds (λ n. n) (λ before n. slice_get due.now (length before) ≡ Some n) order.now result }
{
    for i in 0..order.len() {
        if !stands(due, i, order[i]) {
            return Some(order[i]);
        }
    }
    None
}

/// Whether the number stands at this place.
fn stands(due: &[u64], place: usize, number: u64) -> bool
    ensures { IsTrue result ↔ (slice_get due.now place ≡ Some number) }
{
    match due.get(place) {
        Some(other) => *other == number,
        None => false,
    }
}

/// The first call of the order at whose place the reported history has another.
pub fn check_order(
    alloc: Global,
    case: &LentCase<'_>,
    done: &AllDone,
    acks: &[Ack<'_>],
    ack_places: &[usize],
    all: &[Record<'_>],
    places: &[usize],
) -> Result<Option<u64>, NoMemory>
    requires is { IsCase (in_case case.now) }
    requires whole { IsWhole (in_case case.now) }
    requires done { done.now ≡ effects (acts (in_case case.now)) }
    requires many { length done.now ≡ length case.now.report.now.order }
    requires acks { acks.now ≡ case.now.report.now.acks }
    requires acked_once { IsUnique (map (λ a. a.0) case.now.report.now.acks) }
    requires acks_placed { HasPlaces (length case.now.load.now.calls) (map (λ a. a.0) case.now.report.now.acks) ack_places.now }
    requires all { all.now ≡ records (in_case case.now) }
    requires recorded_once { IsUnique (map (λ r. r.number) (records (in_case case.now))) }
    requires records_placed { HasPlaces (length case.now.load.now.calls) (map (λ r. r.number) (records (in_case case.now))) places.now }
    ensures { IfOk result (λ found. Finds (λ n. n) (FitsOrder (in_case case.now)) case.now.report.now.order found) }
{
    let list = listed(alloc, case, done, acks, ack_places, all, places)?;
    let due = reported(alloc, &case.log.elv, &list)?;
    Ok(first_other(case.report.order.as_slice(), due.as_slice()))
}

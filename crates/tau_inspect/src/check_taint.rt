//! The checks of what recovery takes: acknowledged calls are among it, and it is closed.
ghost use Rattle.std.specs.Prelude.{ℕ, ◌≡◌, ◌≤◌, ◌↔◌, IsTrue, List, false, not, ◌&&◌, if◌then◌else◌, length, map, All, IfOk};
ghost use Rattle.std.specs.List.{list_any};
ghost use Rattle.tau_model.specs.History.{Numbered, Act, Member, updates};
ghost use Rattle.tau_scan.specs.Taken.{taken};
ghost use Rattle.tau_inspect.specs.Audit.{acts, records, is_taken, Survives, FitsAck, FitsClosed, IsWhole};
ghost use Rattle.tau_inspect.specs.ByNumber.{HasFlags, HasPlaces, IsUnique};
ghost use Rattle.tau_inspect.specs.Cases.{in_case};
ghost use Rattle.tau_inspect.specs.Executed.{effects, IsNumberOf};
ghost use Rattle.tau_inspect.specs.Firsts.{Finds};
ghost use Rattle.tau_inspect.specs.KnowsTaint.{KnowsTaint};
ghost use Rattle.tau_inspect.specs.Taint.{is_missing};

use crate::acked::Ack;
use crate::by_number::{index_of, is_flagged};
use crate::case::LentCase;
use crate::executed::{AllDone, Done};
use crate::taint::taints;
use std::alloc::Global;
use tau_base::NoMemory;

/// Whether a call writes and is not taken.
fn is_gone(did: &Done<'_>, taken: bool) -> bool
    ensures { result ≡ (updates did.now && not taken) }
{
    did.writes().len() > 0 && !taken
}

/// Whether a call that writes is taken, or one that only reads is not tainted.
fn survives_so(did: &Done<'_>, taken: bool, tainted: bool) -> bool
    ensures { result ≡ (if updates did.now then taken else not tainted) }
{
    if did.writes().len() > 0 {
        taken
    } else {
        !tainted
    }
}

/// Whether a call that writes has a record, or one that only reads an acknowledgement.
fn is_told(did: &Done<'_>, recorded: bool, acked: bool) -> bool
    ensures { result ≡ (if updates did.now then recorded else acked) }
{
    if did.writes().len() > 0 {
        recorded
    } else {
        acked
    }
}

/// Whether both hold.
fn both(one: bool, other: bool) -> bool
    ensures { result ≡ (one && other) }
{
    one && other
}

/// Whether a call of the order is updating and not taken. `takes` flags the numbers that are.
pub fn is_any_missing(case: &LentCase<'_>, done: &AllDone, takes: &[bool]) -> bool
    requires done { done.now ≡ effects (acts (in_case case.now)) }
    requires many { length done.now ≡ length case.now.report.now.order }
    requires there { All (IsNumberOf case.now.load.now.calls) case.now.report.now.order }
    requires flagged { HasFlags (length case.now.load.now.calls) (map (λ r. r.number) (taken case.now.log.now)) takes.now }
    ensures { result ≡ false → list_any (is_missing (is_taken (in_case case.now))) (acts (in_case case.now)) ≡ false }
{
    for i in 0..done.len() {
        let did = done.at(i);
        if is_gone(&did, is_flagged(takes, case.report.order[i])) {
            return true;
        }
    }
    false
}

/// Which calls of the order are updating and not taken. `takes` flags the numbers that are.
fn missing_of(
    alloc: Global,
    case: &LentCase<'_>,
    done: &AllDone,
    takes: &[bool],
) -> Result<Vec<bool>, NoMemory>
    requires done { done.now ≡ effects (acts (in_case case.now)) }
    requires many { length done.now ≡ length case.now.report.now.order }
    requires there { All (IsNumberOf case.now.load.now.calls) case.now.report.now.order }
    requires flagged { HasFlags (length case.now.load.now.calls) (map (λ r. r.number) (taken case.now.log.now)) takes.now }
    ensures { IfOk result (λ missing. missing.items ≡ map (is_missing (is_taken (in_case case.now))) (acts (in_case case.now))) }
{
    let mut missing = Vec::new(alloc);
    for i in 0..done.len() {
        let did = done.at(i);
        missing.push(is_gone(&did, is_flagged(takes, case.report.order[i])))?;
    }
    Ok(missing)
}

/// Which calls of the order depend on one that is updating and not taken.
pub fn tainted_of(
    alloc: Global,
    case: &LentCase<'_>,
    done: &AllDone,
    takes: &[bool],
) -> Result<Vec<bool>, NoMemory>
    requires done { done.now ≡ effects (acts (in_case case.now)) }
    requires many { length done.now ≡ length case.now.report.now.order }
    requires there { All (IsNumberOf case.now.load.now.calls) case.now.report.now.order }
    requires unique { IsUnique case.now.report.now.order }
    requires flagged { HasFlags (length case.now.load.now.calls) (map (λ r. r.number) (taken case.now.log.now)) takes.now }
    ensures { IfOk result (λ tainted. KnowsTaint (in_case case.now) tainted.items) }
{
    let missing = missing_of(alloc, case, done, takes)?;
    taints(alloc, done, missing.as_slice())
}

/// Whether the call with this number, if the order has it, survives: it is taken, or it only reads and depends on no
/// updating call that is not.
fn survives(
    case: &LentCase<'_>,
    done: &AllDone,
    places: &[usize],
    takes: &[bool],
    tainted: &[bool],
    number: u64,
) -> bool
    requires done { done.now ≡ effects (acts (in_case case.now)) }
    requires many { length done.now ≡ length case.now.report.now.order }
    requires there { All (IsNumberOf case.now.load.now.calls) case.now.report.now.order }
    requires unique { IsUnique case.now.report.now.order }
    requires placed { HasPlaces (length case.now.load.now.calls) case.now.report.now.order places.now }
    requires flagged { HasFlags (length case.now.load.now.calls) (map (λ r. r.number) (taken case.now.log.now)) takes.now }
    requires knows { KnowsTaint (in_case case.now) tainted.now }
    ensures { IsTrue result ↔ ((x : Act Numbered) → Member x (acts (in_case case.now)) → x.call.number ≡ number → Survives (in_case case.now) x) }
{
    match index_of(places, number) {
        None => true,
        Some(index) => {
            let did = done.at(index);
            survives_so(
                &did,
                is_flagged(takes, number),
                is_flagged(tainted, index as u64),
            )
        }
    }
}

/// The first acknowledged call that does not survive.
pub fn check_acks(
    case: &LentCase<'_>,
    done: &AllDone,
    places: &[usize],
    takes: &[bool],
    tainted: &[bool],
    acks: &[Ack<'_>],
) -> Option<u64>
    requires done { done.now ≡ effects (acts (in_case case.now)) }
    requires many { length done.now ≡ length case.now.report.now.order }
    requires there { All (IsNumberOf case.now.load.now.calls) case.now.report.now.order }
    requires unique { IsUnique case.now.report.now.order }
    requires placed { HasPlaces (length case.now.load.now.calls) case.now.report.now.order places.now }
    requires flagged { HasFlags (length case.now.load.now.calls) (map (λ r. r.number) (taken case.now.log.now)) takes.now }
    requires knows { KnowsTaint (in_case case.now) tainted.now }
    requires acks { acks.now ≡ case.now.report.now.acks }
    ensures { Finds (λ a. a.0) (FitsAck (in_case case.now)) case.now.report.now.acks result }
{
    for i in 0..acks.len() {
        let number = acks[i].number();
        if !survives(case, done, places, takes, tainted, number) {
            return Some(number);
        }
    }
    None
}

/// The first call of the order that is taken and depends on an updating one that is not.
pub fn check_closed(
    case: &LentCase<'_>,
    done: &AllDone,
    takes: &[bool],
    tainted: &[bool],
) -> Option<u64>
    requires done { done.now ≡ effects (acts (in_case case.now)) }
    requires many { length done.now ≡ length case.now.report.now.order }
    requires there { All (IsNumberOf case.now.load.now.calls) case.now.report.now.order }
    requires flagged { HasFlags (length case.now.load.now.calls) (map (λ r. r.number) (taken case.now.log.now)) takes.now }
    requires knows { KnowsTaint (in_case case.now) tainted.now }
    ensures { Finds (λ x. x.call.number) (FitsClosed (in_case case.now)) (acts (in_case case.now)) result }
{
    for i in 0..done.len() {
        let number = case.report.order[i];
        if both(is_flagged(takes, number), is_flagged(tainted, i as u64)) {
            return Some(number);
        }
    }
    None
}

/// Whether each call of the order that writes has a record, and each other one an acknowledgement. `recorded` and
/// `acked` flag the numbers of these.
pub fn is_whole(case: &LentCase<'_>, done: &AllDone, recorded: &[bool], acked: &[bool]) -> bool
    requires done { done.now ≡ effects (acts (in_case case.now)) }
    requires many { length done.now ≡ length case.now.report.now.order }
    requires there { All (IsNumberOf case.now.load.now.calls) case.now.report.now.order }
    requires recorded { HasFlags (length case.now.load.now.calls) (map (λ r. r.number) (records (in_case case.now))) recorded.now }
    requires acked { HasFlags (length case.now.load.now.calls) (map (λ a. a.0) case.now.report.now.acks) acked.now }
    ensures { IsTrue result ↔ IsWhole (in_case case.now) }
{
    for i in 0..done.len() {
        let number = case.report.order[i];
        let did = done.at(i);
        if !is_told(
            &did,
            is_flagged(recorded, number),
            is_flagged(acked, number),
        ) {
            return false;
        }
    }
    true
}

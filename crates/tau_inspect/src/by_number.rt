//! Tables by the numbers of calls, up to a count.
ghost use Rattle.std.specs.Prelude.{ℕ, ◌^◌, ◌≡◌, ◌<◌, ◌+◌, ◌≤◌, ◌++◌, ◌∷◌, [], List, false, IfOk, OnOk, IfNone, IfSome, Some, length, nat_lt, slice_get, slice_index, slice_index_or, slice_set, if◌then◌else◌};
ghost use Rattle.tau_inspect.specs.ByNumber.{is_in, HasFlags, HasCounts, HasPlaces};

use std::alloc::Global;
use tau_base::NoMemory;

/// Which numbers are in the list.
pub fn flags(alloc: Global, count: usize, numbers: &[u64]) -> Result<Vec<bool>, NoMemory>
    ensures { IfOk result (λ flags. HasFlags count numbers.now flags.items) }
{
    let Some(long) = count.checked_add(1) else {
        return Err(NoMemory);
    };
    let mut flags = vec![in alloc; false; long]?;
    for i in 0..numbers.len() {
        let number = numbers[i];
        if number <= count as u64 {
            flags[number as usize] = true;
        }
    }
    Ok(flags)
}

/// Counts one more of a number, if the table has room for it.
fn count_one(counts: &mut Vec<usize>, number: u64)
    requires { number < length counts.old.items → slice_index counts.old.items number + 1 < 2 ^ 64 }
    ensures { counts.new.items ≡ (if nat_lt number (length counts.old.items) then slice_set counts.old.items number (slice_index counts.old.items number + 1) else counts.old.items) }
{
    let at = number as usize;
    if at >= counts.len() {
        return;
    }
    counts[at] += 1;
}

/// How often each number is in the list.
pub fn counts(alloc: Global, count: usize, numbers: &[u64]) -> Result<Vec<usize>, NoMemory>
    ensures { IfOk result (λ counts. HasCounts count numbers.now counts.items) }
{
    let Some(long) = count.checked_add(1) else {
        return Err(NoMemory);
    };
    let mut counts = vec![in alloc; 0usize; long]?;
    for i in 0..numbers.len() {
        count_one(&mut counts, numbers[i]);
    }
    Ok(counts)
}

/// Notes where a number is in the list, if the table has room for it.
fn note_place(places: &mut Vec<usize>, number: u64, place: usize)
    ensures { places.new.items ≡ (if nat_lt number (length places.old.items) then slice_set places.old.items number place else places.old.items) }
{
    let at = number as usize;
    if at >= places.len() {
        return;
    }
    places[at] = place;
}

/// Where each number is in the list: one more than an index at which it stands, or 0 if it does not.
pub fn places(alloc: Global, count: usize, numbers: &[u64]) -> Result<Vec<usize>, NoMemory>
    ensures { IfOk result (λ places. HasPlaces count numbers.now places.items) }
{
    let Some(long) = count.checked_add(1) else {
        return Err(NoMemory);
    };
    let mut places = vec![in alloc; 0usize; long]?;
    for i in 0..numbers.len() {
        note_place(&mut places, numbers[i], i + 1);
    }
    Ok(places)
}

/// An index at which the number stands; none if it does not.
pub fn index_of(places: &[usize], number: u64) -> Option<usize>
    ensures none { (count : ℕ) (numbers : List ℕ) → HasPlaces count numbers places.now → IfNone result (number ≤ count → is_in number numbers ≡ false) }
    ensures some { (count : ℕ) (numbers : List ℕ) → HasPlaces count numbers places.now → IfSome result (λ i. slice_get numbers i ≡ Some number) }
{
    let at = number as usize;
    if at >= places.len() {
        return None;
    }
    let place = places[at];
    if place == 0 {
        return None;
    }
    Some(place - 1)
}

/// An index at which a number stands that is in the list.
pub fn known_index(places: &[usize], number: u64) -> usize
    requires within { number < length places.now }
    requires there { 1 ≤ slice_index places.now number }
    ensures { (count : ℕ) (numbers : List ℕ) → HasPlaces count numbers places.now → slice_get numbers result ≡ Some number }
{
    places[number as usize] - 1
}

/// Whether the number is flagged.
pub fn is_flagged(flags: &[bool], number: u64) -> bool
    ensures { result ≡ slice_index_or flags.now number false }
{
    match flags.get(number as usize) {
        Some(flag) => *flag,
        None => false,
    }
}

/// Flags a number, if the table has room for it.
pub fn flag(flags: &mut Vec<bool>, number: u64)
    ensures { (count : ℕ) (numbers : List ℕ) → HasFlags count numbers flags.old.items → HasFlags count (numbers ++ number ∷ []) flags.new.items }
{
    let at = number as usize;
    if at >= flags.len() {
        return;
    }
    flags[at] = true;
}

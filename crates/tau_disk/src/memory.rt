// A disk in memory, which keeps its calls.
ghost use Rattle.std.specs.Prelude.{◌≡◌, ◌+◌, ◌∷◌, ◌++◌, [], ◌≤◌, length, take, drop, List, ℕ, OnOk, OnErr, IfOk, false, true, ◌==◌, ◌&&◌, ◌<◌, ◌^◌};
ghost use Rattle.std.specs.List.{list_any};
ghost use Rattle.tau_disk.specs.Disk.{Follows, Holds, Only, Elapses, HasCause, IsPlanned, Torn};
ghost use Rattle.tau_disk.specs.Replay.{opened, replayed, leaves, leaves_since, since_now, since_only, is_planned, is_from, is_in, is_stop};

use crate::image::{old_image, overwrite, torn_image};
use crate::{Disk, DiskCall, Failed, Tear};
use std::alloc::Global;
use tau_base::NoMemory;

/// A disk in memory. All its calls are numbered from 1, `len` and `read_at` among them.
#[derive(Drop)]
pub struct MemDisk {
    alloc: Global,
    failing: Vec<u32>,
    stops_at: Option<u32>,
    keeps_last: bool,
    number: u64,
    faults: u64,
    is_short: bool,
    is_cut: bool,
    first: Vec<u8>,
    calls: Vec<DiskCall>,
    seen: Vec<u8>,
    ghost reads: { seen.items ≡ (replayed (opened first.items) calls.items).seen },
    ghost sound: { leaves (replayed (opened first.items) calls.items) seen.items },
    ghost torn_sound: { leaves (replayed (opened first.items) calls.items) (replayed (opened first.items) calls.items).torn },
    ghost torn_long: { length (replayed (opened first.items) calls.items).torn ≡ length seen.items },
}

impl MemDisk {
    ghost use Rattle.tau_disk.specs.Tear.{image_by};
    ghost use Rattle.tau_disk.specs.Memory.{seen_by, state_of, count_of, is_short_by, fails_at, keeps_at};

    /// An empty disk. The calls with these numbers fail.
    pub fn new(alloc: Global, failing: &[u32]) -> Result<MemDisk, NoMemory>
        ensures empty { IfOk result (λ d. seen_by d ≡ []) }
        ensures synced { IfOk result (λ d. state_of d ≡ opened []) }
        ensures count { IfOk result (λ d. count_of d ≡ 0) }
        ensures short { IfOk result (λ d. is_short_by d ≡ false) }
        ensures plan { IfOk result (λ d. (k : ℕ) → fails_at d k ≡ list_any (λ n. n == k) failing.now) }
        ensures last { IfOk result (λ d. (k : ℕ) → keeps_at d k ≡ false) }
    {
        let failing = failing.to_vec(alloc)?;
        Ok(MemDisk {
            alloc,
            failing,
            stops_at: None,
            keeps_last: false,
            number: 0,
            faults: 0,
            is_short: false,
            is_cut: false,
            first: Vec::new(alloc),
            calls: Vec::new(alloc),
            seen: Vec::new(alloc),
        })
    }

    /// An empty disk whose calls from this number on fail. With `writes_last`, if call `from` is a write, what it
    /// was to write counts as written and not synced.
    pub fn stopping(alloc: Global, from: u32, writes_last: bool) -> Result<MemDisk, NoMemory>
        ensures empty { IfOk result (λ d. seen_by d ≡ []) }
        ensures synced { IfOk result (λ d. state_of d ≡ opened []) }
        ensures count { IfOk result (λ d. count_of d ≡ 0) }
        ensures short { IfOk result (λ d. is_short_by d ≡ false) }
        ensures plan { IfOk result (λ d. (k : ℕ) → fails_at d k ≡ is_from from k) }
        ensures last { IfOk result (λ d. (k : ℕ) → keeps_at d k ≡ writes_last && is_stop (Some from) k) }
    {
        Ok(MemDisk {
            alloc,
            failing: Vec::new(alloc),
            stops_at: Some(from),
            keeps_last: writes_last,
            number: 0,
            faults: 0,
            is_short: false,
            is_cut: false,
            first: Vec::new(alloc),
            calls: Vec::new(alloc),
            seen: Vec::new(alloc),
        })
    }

    /// A disk that holds these bytes, all of them synced. A call fails only if it runs out of memory.
    pub fn of_image(alloc: Global, bytes: &[u8]) -> Result<MemDisk, NoMemory>
        ensures holds { IfOk result (λ d. seen_by d ≡ bytes.now) }
        ensures synced { IfOk result (λ d. state_of d ≡ opened bytes.now) }
        ensures count { IfOk result (λ d. count_of d ≡ 0) }
        ensures short { IfOk result (λ d. is_short_by d ≡ false) }
        ensures plan { IfOk result (λ d. (k : ℕ) → fails_at d k ≡ false) }
        ensures last { IfOk result (λ d. (k : ℕ) → keeps_at d k ≡ false) }
    {
        let first = bytes.to_vec(alloc)?;
        let seen = bytes.to_vec(alloc)?;
        Ok(MemDisk {
            alloc,
            failing: Vec::new(alloc),
            stops_at: None,
            keeps_last: false,
            number: 0,
            faults: 0,
            is_short: false,
            is_cut: false,
            first,
            calls: Vec::new(alloc),
            seen,
        })
    }

    /// The number of its calls so far, those that failed among them.
    pub fn calls(&self) -> u64
        ensures { result ≡ count_of self.now }
    {
        self.number
    }

    /// The image of a stop now: what was synced last, all later writes in it, or those bytes reading 7.
    pub fn image(&self, tear: Tear) -> Result<Vec<u8>, NoMemory>
        ensures value { IfOk result (λ v. v.items ≡ image_by (state_of self.now) tear) }
        ensures left { IfOk result (λ v. leaves (state_of self.now) v.items) }
    {
        match tear {
            Tear::Old => old_image(self.alloc, &self.first, &self.calls),
            Tear::New => Ok(self.seen.to_vec(self.alloc)?),
            Tear::Torn => torn_image(self.alloc, &self.first, &self.calls),
        }
    }

    /// Whether a growth was refused to a call: one that was not to fail, or one that could not keep what it leaves.
    pub fn short(&self) -> bool
        ensures { result ≡ is_short_by self.now }
    {
        self.is_short | self.is_cut
    }
}

impl Disk for MemDisk {
    ghost use Rattle.tau_disk.specs.Memory.{seen_by, state_of, count_of, fails_at, StaysAs, WritesTo, SyncsTo};
    ghost use Rattle.tau_disk.specs.Tear.{image_by, leaves_kind};
    ghost use Rattle.tau_disk.specs.Left.{may_leave_each};

    ghost tells = { Unit {0} };

    ghost seen = { λ d. d.seen.items };

    ghost may_leave = { λ d. leaves (replayed (opened d.first.items) d.calls.items) };

    ghost moment = { λ d. length d.calls.items };

    ghost may_leave_since = { λ d. leaves_since (opened d.first.items) d.calls.items };

    ghost faults = { λ d. d.faults };

    ghost number = { λ d. d.number };

    ghost fails = { λ d k. is_planned d.failing.items d.stops_at k };

    ghost short = { λ d. d.is_short };

    ghost image = { λ d. image_by (replayed (opened d.first.items) d.calls.items) };

    ghost keeps = { λ d k. d.keeps_last && is_stop d.stops_at k };

    ghost cut = { λ d. d.is_cut };

    ghost seen_now = { λ d _. d.sound };

    ghost leaves_each = { may_leave_each (Unit {0}) (λ d. leaves (replayed (opened d.first.items) d.calls.items)) (λ d. image_by (replayed (opened d.first.items) d.calls.items)) (λ d kind _. leaves_kind (replayed (opened d.first.items) d.calls.items) d.seen.items d.reads d.sound d.torn_sound kind) };

    ghost counts_now = { λ d t x le now. since_now (opened d.first.items) d.calls.items t x le now };

    ghost only_now = { λ d x since. since_only (opened d.first.items) d.calls.items x since };

    fn len(&mut self) -> Result<u64, Failed>
        ensures length { IfOk result (λ n. n ≡ length (seen_by self.old)) }
        ensures seen { seen_by self.new ≡ seen_by self.old }
        ensures crash { (x : List ℕ) → leaves (state_of self.new) x → leaves (state_of self.old) x }
        ensures keeps { (x : List ℕ) → leaves (state_of self.old) x → leaves (state_of self.new) x }
        ensures time { Elapses (length self.old.calls.items) (length self.new.calls.items) (leaves_since (opened self.old.first.items) self.old.calls.items) (leaves_since (opened self.new.first.items) self.new.calls.items) (leaves (state_of self.new)) }
        ensures plan { IsPlanned (count_of self.old) (count_of self.new) (fails_at self.old) (fails_at self.new) self.old.is_short self.new.is_short result }
        ensures cause { HasCause self.old.faults self.new.faults result }
        ensures left { StaysAs self.old self.new }
    {
        begin(
            &mut self.number,
            &mut self.faults,
            &mut self.is_short,
            &self.failing,
            self.stops_at,
        )?;
        Ok(self.seen.len() as u64)
    }

    fn read_at(&mut self, at: u64, buf: &mut [u8]) -> Result<(), Failed>
        requires { at + length buf.old ≤ length (seen_by self.old) }
        ensures bytes { OnOk result (buf.new ≡ take (length buf.old) (drop at (seen_by self.old))) }
        ensures seen { seen_by self.new ≡ seen_by self.old }
        ensures crash { (x : List ℕ) → leaves (state_of self.new) x → leaves (state_of self.old) x }
        ensures keeps { (x : List ℕ) → leaves (state_of self.old) x → leaves (state_of self.new) x }
        ensures time { Elapses (length self.old.calls.items) (length self.new.calls.items) (leaves_since (opened self.old.first.items) self.old.calls.items) (leaves_since (opened self.new.first.items) self.new.calls.items) (leaves (state_of self.new)) }
        ensures plan { IsPlanned (count_of self.old) (count_of self.new) (fails_at self.old) (fails_at self.new) self.old.is_short self.new.is_short result }
        ensures cause { HasCause self.old.faults self.new.faults result }
        ensures left { StaysAs self.old self.new }
    {
        begin(
            &mut self.number,
            &mut self.faults,
            &mut self.is_short,
            &self.failing,
            self.stops_at,
        )?;
        let from = at as usize;
        let to = from + buf.len();
        buf.copy_from_slice(&self.seen[from..to]);
        Ok(())
    }

    fn write_at(&mut self, at: u64, bytes: &[u8]) -> Result<(), Failed>
        requires within { at ≤ length (seen_by self.old) }
        requires end { at + length bytes.now < 2 ^ 62 }
        ensures written { OnOk result (Holds (seen_by self.old) at bytes.now (seen_by self.new)) }
        ensures crash { Follows (Torn at (length bytes.now)) (leaves (state_of self.old)) (leaves (state_of self.new)) }
        ensures keeps { (x : List ℕ) → leaves (state_of self.old) x → leaves (state_of self.new) x }
        ensures time { Elapses (length self.old.calls.items) (length self.new.calls.items) (leaves_since (opened self.old.first.items) self.old.calls.items) (leaves_since (opened self.new.first.items) self.new.calls.items) (leaves (state_of self.new)) }
        ensures plan { IsPlanned (count_of self.old) (count_of self.new) (fails_at self.old) (fails_at self.new) self.old.is_short self.new.is_short result }
        ensures cause { HasCause self.old.faults self.new.faults result }
        ensures left { WritesTo at bytes.now self.old self.new result }
    {
        let begun = begin(
            &mut self.number,
            &mut self.faults,
            &mut self.is_short,
            &self.failing,
            self.stops_at,
        );
        match begun {
            Ok(()) => {
                let done = put(
                    self.alloc,
                    &mut self.calls,
                    &mut self.seen,
                    at as usize,
                    bytes,
                );
                match done {
                    Ok(()) => Ok(()),
                    Err(_) => {
                        self.is_short = true;
                        self.faults = self.faults.saturating_add(1);
                        Err(Failed)
                    }
                }
            }
            Err(_) => {
                if self.keeps_last && is_last(self.stops_at, self.number) {
                    let last = put(
                        self.alloc,
                        &mut self.calls,
                        &mut self.seen,
                        at as usize,
                        bytes,
                    );
                    match last {
                        Ok(()) => return Err(Failed),
                        Err(_) => {
                            self.is_cut = true;
                            return Err(Failed);
                        }
                    }
                }
                let lost = note(&mut self.calls, DiskCall::Lost(at as usize, bytes.len()));
                match lost {
                    Ok(()) => Err(Failed),
                    Err(_) => {
                        self.is_cut = true;
                        Err(Failed)
                    }
                }
            }
        }
    }

    fn sync(&mut self) -> Result<(), Failed>
        ensures durable { OnOk result (Only (seen_by self.new) (leaves (state_of self.new))) }
        ensures seen { OnOk result (seen_by self.new ≡ seen_by self.old) }
        ensures crash { (x : List ℕ) → leaves (state_of self.new) x → leaves (state_of self.old) x }
        ensures keeps { OnErr result ((x : List ℕ) → leaves (state_of self.old) x → leaves (state_of self.new) x) }
        ensures time { Elapses (length self.old.calls.items) (length self.new.calls.items) (leaves_since (opened self.old.first.items) self.old.calls.items) (leaves_since (opened self.new.first.items) self.new.calls.items) (leaves (state_of self.new)) }
        ensures plan { IsPlanned (count_of self.old) (count_of self.new) (fails_at self.old) (fails_at self.new) self.old.is_short self.new.is_short result }
        ensures cause { HasCause self.old.faults self.new.faults result }
        ensures left { SyncsTo self.old self.new result }
    {
        begin(
            &mut self.number,
            &mut self.faults,
            &mut self.is_short,
            &self.failing,
            self.stops_at,
        )?;
        match note(&mut self.calls, DiskCall::Synced) {
            Ok(()) => Ok(()),
            Err(_) => {
                self.is_short = true;
                self.faults = self.faults.saturating_add(1);
                Err(Failed)
            }
        }
    }
}

// Counts a call, and refuses it if it is to fail. At the counter's last value the growth refused is the counter's own.
fn begin(
    number: &mut u64,
    faults: &mut u64,
    is_short: &mut bool,
    failing: &[u32],
    stops_at: Option<u32>,
) -> Result<(), Failed>
    ensures plan { IsPlanned number.old number.new (is_planned failing.now stops_at) (is_planned failing.now stops_at) is_short.old is_short.new result }
    ensures cause { HasCause faults.old faults.new result }
    ensures no_fault { OnOk result (faults.new ≡ faults.old) }
{
    if *number == u64::MAX {
        *is_short = true;
        *faults = faults.saturating_add(1);
        return Err(Failed);
    }
    *number += 1;
    if is_to_fail(failing, stops_at, *number) {
        *faults = faults.saturating_add(1);
        return Err(Failed);
    }
    Ok(())
}

// Writes, and notes the call.
fn put(
    alloc: Global,
    calls: &mut Vec<DiskCall>,
    seen: &mut Vec<u8>,
    at: usize,
    bytes: &[u8],
) -> Result<(), NoMemory>
    requires { at ≤ length seen.old.items }
    ensures written { OnOk result (Holds seen.old.items at bytes.now seen.new.items) }
    ensures noted { OnOk result ((v : _) × (v.items ≡ bytes.now) × (calls.new.items ≡ calls.old.items ++ DiskCall.Wrote at v ∷ [])) }
    ensures err { OnErr result (seen.new.items ≡ seen.old.items) }
    ensures err_calls { OnErr result (calls.new.items ≡ calls.old.items) }
{
    let copy = bytes.to_vec(alloc)?;
    note(calls, DiskCall::Wrote(at, copy))?;
    match overwrite(seen, at, bytes) {
        Ok(()) => Ok(()),
        Err(error) => {
            let _ = calls.pop();
            Err(error)
        }
    }
}

// Notes a call after the others.
fn note(calls: &mut Vec<DiskCall>, call: DiskCall) -> Result<(), NoMemory>
    ensures ok { OnOk result (calls.new.items ≡ calls.old.items ++ call ∷ []) }
    ensures err { OnErr result (calls.new.items ≡ calls.old.items) }
{
    calls.push(call)?;
    Ok(())
}

// Whether the number is in the list.
pub fn is_listed(numbers: &[u32], number: u64) -> bool
    ensures { result ≡ is_in numbers.now number }
{
    numbers.iter().any(|n| u64::from(*n) == number)
}

// Whether the call with this number is to fail.
fn is_to_fail(failing: &[u32], stops_at: Option<u32>, number: u64) -> bool
    ensures { result ≡ is_planned failing.now stops_at number }
{
    let listed = is_listed(failing, number);
    match stops_at {
        Some(from) => {
            let stopped = u64::from(from) <= number;
            listed | stopped
        }
        None => listed,
    }
}

// Whether this is the first call that a stop refuses.
fn is_last(stops_at: Option<u32>, number: u64) -> bool
    ensures { result ≡ is_stop stops_at number }
{
    match stops_at {
        Some(from) => u64::from(from) == number,
        None => false,
    }
}

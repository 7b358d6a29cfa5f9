//! A gate that counts how often each place of a call was reached, and holds threads at some until others were.
use crate::spell::{number_of, word_of};
use std::alloc::Global;
use std::process::Abort;
use std::sync::atomic::{AtomicU64, Ordering};
use std::thread;
use tau_disk::{Gate, Place};

// How many places are told apart: of each kind that of number 0, that of number 1 and all others, and the acknowledgements.
const PLACES: u8 = 13;

// Whether a number is the first one, the second one, or another one.
fn kind_of(number: u8) -> usize {
    match number {
        0 => 0,
        1 => 1,
        _ => 2,
    }
}

// The first place of the kind with this name.
fn first_of(name: &str) -> Option<usize> {
    match name {
        "call" => Some(0),
        "commit" => Some(3),
        "flush" => Some(6),
        "replay" => Some(9),
        "ack" => Some(12),
        _ => None,
    }
}

fn index_of(place: Place) -> usize {
    match place {
        Place::Call { worker } => kind_of(worker),
        Place::Commit { stream } => kind_of(stream).wrapping_add(3),
        Place::Flush { stream } => kind_of(stream).wrapping_add(6),
        Place::Replay { worker } => kind_of(worker).wrapping_add(9),
        Place::Ack => 12,
    }
}

// The place that is spelled, as `call-0`, or `ack`.
fn index_of_name(name: &str) -> Option<usize> {
    let (kind, number) = name.split_once('-').unwrap_or((name, "0"));
    let number = number.parse::<u8>().ok()?;
    Some(first_of(kind)?.wrapping_add(kind_of(number)))
}

// Who reaches a place for so many times waits until another place was reached so often.
#[derive(Clone, Copy)]
struct Hold {
    place: usize,
    times: u64,
    other: usize,
    wanted: u64,
}

fn hold_of(spelled: &str) -> Option<Hold> {
    let (place, rest) = word_of(spelled);
    let (times, rest) = number_of(rest)?;
    let (other, wanted) = word_of(rest);
    Some(Hold {
        place: index_of_name(place)?,
        times,
        other: index_of_name(other)?,
        wanted: wanted.parse::<u64>().ok()?,
    })
}

/// How often each place was reached, who waits, and whether a wait ended in vain.
#[derive(Drop)]
pub(crate) struct Watch {
    reached: Vec<AtomicU64>,
    holds: Vec<Hold>,
    late: AtomicU64,
}

impl Watch {
    pub(crate) fn new<R: Abort>(rt: &R, alloc: Global) -> Watch {
        let mut reached = Vec::new(alloc);
        for _ in 0..PLACES {
            reached.push(AtomicU64::new(0)).expect(rt, "memory");
        }
        Watch {
            reached,
            holds: Vec::new(alloc),
            late: AtomicU64::new(0),
        }
    }

    /// Who waits: a place, the number of the time at which it is reached, another place, and how often that is to be reached.
    pub(crate) fn hold<R: Abort>(&mut self, rt: &R, spelled: &str) -> bool {
        let Some(hold) = hold_of(spelled) else {
            return false;
        };
        self.holds.push(hold).expect(rt, "memory");
        true
    }

    // How often the place was reached.
    fn count(&self, place: usize) -> u64 {
        match self.reached.get(place) {
            Some(counter) => counter.load(Ordering::SeqCst),
            None => 0,
        }
    }

    // One more; how often it was reached then.
    fn reach(&self, place: usize) -> u64 {
        match self.reached.get(place) {
            Some(counter) => counter.fetch_add(1, Ordering::SeqCst).wrapping_add(1),
            None => 0,
        }
    }

    fn wait(&self, hold: &Hold) {
        for _ in 0..1_000_000_000u64 {
            if self.count(hold.other) >= hold.wanted {
                return;
            }
            thread::yield_now();
        }
        self.late.store(1, Ordering::SeqCst);
    }

    /// Whether no wait ended in vain.
    pub(crate) fn is_in_time(&self) -> bool {
        self.late.load(Ordering::SeqCst) == 0
    }

    // How often the place was reached, or all places of a kind, where no number is named.
    fn sum(&self, name: &str) -> Option<u64> {
        if name.contains('-') {
            return Some(self.count(index_of_name(name)?));
        }
        let first = first_of(name)?;
        let two = self
            .count(first)
            .wrapping_add(self.count(first.wrapping_add(1)));
        Some(two.wrapping_add(self.count(first.wrapping_add(2))))
    }

    /// Whether a place, or those of a kind, were reached so often at least.
    pub(crate) fn has_reached(&self, spelled: &str) -> Option<bool> {
        let (wanted, name) = number_of(spelled)?;
        Some(wanted != 0 && self.sum(name)? >= wanted)
    }
}

impl Gate for Watch {
    fn at(&self, place: Place) {
        let place = index_of(place);
        let times = self.reach(place);
        for hold in &self.holds {
            if hold.place == place && hold.times == times {
                self.wait(hold);
            }
        }
    }
}

//! Where rows were found last.
use std::alloc::Global;
use tau_base::Key;

/// Of how many rows the places are kept.
const ROOM: usize = 16_384;

/// Where a row was found.
#[derive(Clone, Copy, Debug)]
struct Near {
    /// The row's number, but for its higher half.
    row: u32,
    /// Its place. No row has the last number.
    place: u32,
}

/// Where rows of a store were found last. Each place is a guess: whoever uses it compares the key that stands there.
#[derive(Drop)]
pub struct RowPlaces {
    near: Vec<Near>,
}

impl RowPlaces {
    /// No place. It takes no memory.
    pub fn new(alloc: Global) -> RowPlaces {
        RowPlaces {
            near: Vec::new(alloc),
        }
    }

    /// Where the row may stand.
    pub(crate) fn guess(&self, key: Key) -> usize {
        match self.near.get(slot_of(key)) {
            Some(near) => place_of(*near, row_of(key)),
            None => usize::MAX,
        }
    }

    /// The row was found at this place. There is room from the first one on; if memory is refused, it is forgotten.
    pub(crate) fn note(&mut self, key: Key, place: usize) {
        if self.near.is_empty() {
            make_room(&mut self.near);
        }
        let Ok(place) = u32::try_from(place) else {
            return;
        };
        match self.near.get_mut(slot_of(key)) {
            Some(near) => {
                *near = Near {
                    row: row_of(key),
                    place,
                }
            }
            None => {}
        }
    }
}

/// Makes room for all, if there is memory.
#[inline(never)]
fn make_room(near: &mut Vec<Near>) {
    let none = Near {
        row: 0,
        place: u32::MAX,
    };
    let _ = near.resize(ROOM, none);
}

/// Where the row is, if it is the one that was found here.
fn place_of(near: Near, row: u32) -> usize {
    if near.row == row {
        near.place as usize
    } else {
        usize::MAX
    }
}

/// The number of a row, but for its higher half.
fn row_of(key: Key) -> u32 {
    key.row.rem_euclid(4_294_967_296) as u32
}

/// Where the place of a row is kept: rows of one table beside each other.
fn slot_of(key: Key) -> usize {
    (row_of(key) as usize + usize::from(key.table) * 4_099) % ROOM
}

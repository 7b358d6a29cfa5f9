//! What a seat has is what it knows: the invariants of the seats, for callers. Each call does nothing.
ghost use Rattle.tau_desk.specs.Seats.{Clerks, Heads, Manages, Works};

use crate::seat::{ClerkSeat, Head, ManagerSeat, WorkerSeat};

impl WorkerSeat {
    /// What the seat has is its worker's.
    pub fn agrees(&self)
        ensures { Works self.now }
    {
        let _ = &self.seat;
    }
}

impl ManagerSeat {
    /// What the seat has is its manager's.
    pub fn agrees(&self)
        ensures { Manages self.now }
    {
        let _ = &self.seat;
    }
}

impl ClerkSeat {
    /// The seat is the clerk's.
    pub fn agrees(&self)
        ensures { Clerks self.now }
    {
        let _ = &self.seat;
    }
}

impl Head {
    /// What the head has is of the roles that are not out.
    pub fn agrees(&self)
        ensures { Heads self.now }
    {
        let _ = &self.seat;
    }
}

//! The stop: any seat raises it, and any looks whether it is raised.
ghost use Rattle.std.specs.Prelude.{◌≡◌, ◌+◌, ◌<◌, ◌==◌, [], ◌∷◌, Some, ℕ, true};
ghost use Rattle.tau_rule.specs.Role.{Role as RoleOf};
ghost use Rattle.tau_rule.specs.Rule.{has};
ghost use Rattle.tau_desk.specs.Ends.{told_head_raised};
ghost use Rattle.tau_desk.specs.Looks.{HasRaised, StopStands};
ghost use Rattle.tau_desk.specs.Manages.{told_found, told_raised};

use crate::desk::Desk;
use crate::seat::{ClerkSeat, Head, ManagerSeat, WorkerSeat};
use atomic_table::Play;
use std::marker::Brand;
use tau_rule::{Know, Part, Seat, Told, View};

/// The word of the stop was read.
pub struct LookStop;

impl Play<Option<Part>, View> for LookStop {
    ghost use Rattle.tau_desk.specs.Looks.{saw_stop};

    ghost then = { saw_stop };
}

impl Desk {
    // A seat that has one role raises the stop.
    fn raise(&self, seat: &mut Seat)
        requires own { seat.old.table_id ≡ self.now.table.shared.table_id }
        requires opened { seat.old.me.0.opened ≡ Some self.now.table.shared.key.value }
        requires role { (u : ℕ) × (x : RoleOf) × (seat.old.me.0.roles ≡ (u, x) ∷ []) × (u < self.now.table.shared.key.value.load.workers + self.now.table.shared.key.value.load.streams + 1) }
        ensures own { (seat.new.table_id ≡ seat.old.table_id) × (seat.new.id ≡ seat.old.id) }
        ensures raised { seat.new.me ≡ (told_raised seat.old.me.0, seat.old.me.1) }
    {
        self.raise_as::<Brand>(seat);
    }

    fn raise_as<N: Told>(&self, seat: &mut Seat)
        requires own { seat.old.table_id ≡ self.now.table.shared.table_id }
        requires opened { seat.old.me.0.opened ≡ Some self.now.table.shared.key.value }
        requires role { (u : ℕ) × (x : RoleOf) × (seat.old.me.0.roles ≡ (u, x) ∷ []) × (u < self.now.table.shared.key.value.load.workers + self.now.table.shared.key.value.load.streams + 1) }
        requires told { N.knows ≡ λ _. told_raised seat.old.me.0 }
        ensures own { (seat.new.table_id ≡ seat.old.table_id) × (seat.new.id ≡ seat.old.id) }
        ensures raised { seat.new.me ≡ (told_raised seat.old.me.0, seat.old.me.1) }
    {
        let word = 8 * (self.parts + (self.streams + self.streams));
        self.table.shared.store::<Know<N>>(seat, word, 1);
    }

    // A seat that has a role raises the stop.
    fn raise_head(&self, seat: &mut Seat)
        requires own { seat.old.table_id ≡ self.now.table.shared.table_id }
        requires opened { seat.old.me.0.opened ≡ Some self.now.table.shared.key.value }
        requires role { (u : ℕ) × (x : RoleOf) × (has u seat.old.me.0 ≡ Some x) }
        ensures own { (seat.new.table_id ≡ seat.old.table_id) × (seat.new.id ≡ seat.old.id) }
        ensures raised { seat.new.me ≡ (told_head_raised seat.old.me.0, seat.old.me.1) }
    {
        self.raise_head_as::<Brand>(seat);
    }

    fn raise_head_as<N: Told>(&self, seat: &mut Seat)
        requires own { seat.old.table_id ≡ self.now.table.shared.table_id }
        requires opened { seat.old.me.0.opened ≡ Some self.now.table.shared.key.value }
        requires role { (u : ℕ) × (x : RoleOf) × (has u seat.old.me.0 ≡ Some x) }
        requires told { N.knows ≡ λ _. told_head_raised seat.old.me.0 }
        ensures own { (seat.new.table_id ≡ seat.old.table_id) × (seat.new.id ≡ seat.old.id) }
        ensures raised { seat.new.me ≡ (told_head_raised seat.old.me.0, seat.old.me.1) }
    {
        let word = 8 * (self.parts + (self.streams + self.streams));
        self.table.shared.store::<Know<N>>(seat, word, 1);
    }

    // A seat looks whether the stop is raised.
    fn found(&self, seat: &mut Seat) -> bool
        requires own { seat.old.table_id ≡ self.now.table.shared.table_id }
        requires opened { seat.old.me.0.opened ≡ Some self.now.table.shared.key.value }
        ensures own { (seat.new.table_id ≡ seat.old.table_id) × (seat.new.id ≡ seat.old.id) }
        ensures found { (word : ℕ) × (result ≡ (word == 1)) × (seat.new.me ≡ (told_found seat.old.me.0 word, seat.old.me.1)) }
        ensures stands { StopStands self.now.table.shared.key.value seat.old.me.0 result }
    {
        let word = 8 * (self.parts + (self.streams + self.streams));
        self.table.shared.load::<LookStop>(seat, word) == 1
    }
}

impl WorkerSeat {
    /// Raises the stop.
    pub fn stop(&mut self, desk: &Desk)
        requires own { self.old.table_id ≡ desk.now.table.shared.table_id }
        requires opened { self.old.me.0.opened ≡ Some desk.now.table.shared.key.value }
        ensures knows { self.new ≡ record self.old { me = (told_raised self.old.me.0, self.old.me.1) } }
    {
        desk.raise(&mut self.seat);
    }

    /// Looks whether the stop is raised, as it is for one that raised it.
    pub fn stopped(&mut self, desk: &Desk) -> bool
        requires own { self.old.table_id ≡ desk.now.table.shared.table_id }
        requires opened { self.old.me.0.opened ≡ Some desk.now.table.shared.key.value }
        ensures knows { (word : ℕ) × (result ≡ (word == 1)) × (self.new ≡ record self.old { me = (told_found self.old.me.0 word, self.old.me.1) }) }
        ensures stands { StopStands desk.now.table.shared.key.value self.old.me.0 result }
        ensures mine { HasRaised self.old.me.0 → result ≡ true }
    {
        desk.found(&mut self.seat)
    }
}

impl ManagerSeat {
    /// Raises the stop.
    pub fn stop(&mut self, desk: &Desk)
        requires own { self.old.table_id ≡ desk.now.table.shared.table_id }
        requires opened { self.old.me.0.opened ≡ Some desk.now.table.shared.key.value }
        ensures knows { self.new ≡ record self.old { me = (told_raised self.old.me.0, self.old.me.1) } }
    {
        desk.raise(&mut self.seat);
    }

    /// Looks whether the stop is raised, as it is for one that raised it.
    pub fn stopped(&mut self, desk: &Desk) -> bool
        requires own { self.old.table_id ≡ desk.now.table.shared.table_id }
        requires opened { self.old.me.0.opened ≡ Some desk.now.table.shared.key.value }
        ensures knows { (word : ℕ) × (result ≡ (word == 1)) × (self.new ≡ record self.old { me = (told_found self.old.me.0 word, self.old.me.1) }) }
        ensures stands { StopStands desk.now.table.shared.key.value self.old.me.0 result }
        ensures mine { HasRaised self.old.me.0 → result ≡ true }
    {
        desk.found(&mut self.seat)
    }
}

impl ClerkSeat {
    /// Raises the stop.
    pub fn stop(&mut self, desk: &Desk)
        requires own { self.old.table_id ≡ desk.now.table.shared.table_id }
        requires opened { self.old.me.0.opened ≡ Some desk.now.table.shared.key.value }
        ensures knows { self.new ≡ record self.old { me = (told_raised self.old.me.0, self.old.me.1) } }
    {
        desk.raise(&mut self.seat);
    }

    /// Looks whether the stop is raised, as it is for one that raised it.
    pub fn stopped(&mut self, desk: &Desk) -> bool
        requires own { self.old.table_id ≡ desk.now.table.shared.table_id }
        requires opened { self.old.me.0.opened ≡ Some desk.now.table.shared.key.value }
        ensures knows { (word : ℕ) × (result ≡ (word == 1)) × (self.new ≡ record self.old { me = (told_found self.old.me.0 word, self.old.me.1) }) }
        ensures stands { StopStands desk.now.table.shared.key.value self.old.me.0 result }
        ensures mine { HasRaised self.old.me.0 → result ≡ true }
    {
        desk.found(&mut self.seat)
    }
}

impl Head {
    /// Raises the stop, by one of the roles that it has.
    pub fn stop(&mut self, desk: &Desk)
        requires own { self.old.table_id ≡ desk.now.table.shared.table_id }
        requires opened { self.old.me.0.opened ≡ Some desk.now.table.shared.key.value }
        requires role { (u : ℕ) × (x : RoleOf) × (has u self.old.me.0 ≡ Some x) }
        ensures knows { self.new ≡ record self.old { me = (told_head_raised self.old.me.0, self.old.me.1) } }
    {
        desk.raise_head(&mut self.seat);
    }

    /// Looks whether the stop is raised, as it is for one that raised it.
    pub fn stopped(&mut self, desk: &Desk) -> bool
        requires own { self.old.table_id ≡ desk.now.table.shared.table_id }
        requires opened { self.old.me.0.opened ≡ Some desk.now.table.shared.key.value }
        ensures knows { (word : ℕ) × (result ≡ (word == 1)) × (self.new ≡ record self.old { me = (told_found self.old.me.0 word, self.old.me.1) }) }
        ensures stands { StopStands desk.now.table.shared.key.value self.old.me.0 result }
        ensures mine { HasRaised self.old.me.0 → result ≡ true }
    {
        desk.found(&mut self.seat)
    }
}

//! What a seat knows, the rule, and what each step tells.
use crate::part::Part;
use atomic_table::{Play, TableRule};
use std::marker::{Brand, Model, PhantomData};
use std::snapshot::Snapshot;
use tau_core::Core;
use tau_occ::Style;

/// What a seat knows. No value of it is made.
pub struct View {
    none: u8,
}

impl Model for View {
    ghost use Rattle.std.specs.Prelude.{[], ◌∷◌};
    ghost use Rattle.tau_rule.specs.Knows.{Knows, spent};

    ghost Value = { Knows };

    ghost view = { λ v. record spent { seen = v.none ∷ [] } };
}

pub type Seat = atomic_table::Seat<Option<Part>, View>;

/// What a desk is opened with: the core as it is then, and the style of its workers.
#[derive(Drop)]
pub struct Origin {
    pub core: Snapshot<Core>,
    pub style: Style,
}

impl Model for Origin {
    ghost use Rattle.tau_rule.specs.Knows.{PlainOrigin};

    ghost Value = { PlainOrigin };

    ghost view = { λ o. record { value = o.core.value; style = o.style } };
}

/// The words, the parts and the views show one state that events lead to from the core with which the desk was opened.
pub struct OneCore;

impl TableRule<Option<Part>, View, Origin> for OneCore {
    ghost use Rattle.tau_rule.specs.First.{first_view};
    ghost use Rattle.tau_rule.specs.Rule.{Rule};

    ghost holds = { λ key. Rule key.value key.style };

    ghost first = { λ key. first_view key.value };
}

/// The turn of a part is taken.
pub struct Take;

impl Play<Option<Part>, View> for Take {
    ghost use Rattle.tau_rule.specs.Steps.{took};

    ghost then = { took };
}

/// Names what a seat knows after a step.
pub trait Told {
    ghost use Rattle.tau_rule.specs.Knows.{Knows};
    ghost use Rattle.std.specs.Prelude.{ℕ};

    ghost knows: { ℕ → Knows };
}

impl Told for Brand {
    ghost use Rattle.tau_rule.specs.Knows.{spent};

    ghost knows = { λ _. spent };
}

/// A part comes home.
pub struct Give<N> {
    of: PhantomData<N>,
}

impl<N: Told> Play<Option<Part>, View> for Give<N> {
    ghost use Rattle.tau_rule.specs.Steps.{gave};

    ghost then = { gave (N.knows 0) };
}

/// A word was read or changed.
pub struct Know<N> {
    of: PhantomData<N>,
}

impl<N: Told> Play<Option<Part>, View> for Know<N> {
    ghost use Rattle.tau_rule.specs.Steps.{knew};

    ghost then = { knew N.knows };
}

/// A record gets its place.
pub struct Place<N> {
    of: PhantomData<N>,
}

impl<N: Told> Play<Option<Part>, View> for Place<N> {
    ghost use Rattle.tau_rule.specs.Places.{got_place};

    ghost then = { got_place N.knows };
}

/// A persisted position was read.
pub struct Look;

impl Play<Option<Part>, View> for Look {
    ghost use Rattle.tau_rule.specs.Positions.{looked};

    ghost then = { looked };
}

/// A persisted position was stored.
pub struct Store;

impl Play<Option<Part>, View> for Store {
    ghost use Rattle.tau_rule.specs.Positions.{stored};

    ghost then = { stored };
}

/// A role leaves a seat for a new one: what the first knows then is `knows 0`, what the second knows `knows 1`.
pub struct SplitOff<N> {
    of: PhantomData<N>,
}

impl<N: Told> atomic_table::Split<View> for SplitOff<N> {
    ghost left = { λ _. N.knows 0 };

    ghost right = { λ _. N.knows 1 };
}

/// A seat takes in what another knows.
pub struct JoinIn;

impl atomic_table::Join<View> for JoinIn {
    ghost use Rattle.tau_rule.specs.Heads.{both};
    ghost use Rattle.tau_rule.specs.Knows.{spent};

    ghost both = { both };

    ghost spent = { spent };
}

/// A seat takes in what another knows, and then knows `knows 0`.
pub struct JoinAs<N> {
    of: PhantomData<N>,
}

impl<N: Told> atomic_table::Join<View> for JoinAs<N> {
    ghost use Rattle.tau_rule.specs.Knows.{spent};

    ghost both = { λ _ _. N.knows 0 };

    ghost spent = { spent };
}

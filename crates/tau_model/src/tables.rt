//! The rows of a database.
ghost use Rattle.std.specs.Prelude.{◌≡◌};

use std::marker::Model;
use tau_base::{Key, Value};

/// The present rows of a database in ascending order of keys.
#[derive(Debug, Drop)]
pub struct Tables {
    rows: Vec<(Key, Value)>,
}

impl Model for Tables {
    ghost use Rattle.std.specs.Prelude.{List};
    ghost use Rattle.tau_base.specs.declared.value.Key.{Key};
    ghost use Rattle.tau_base.specs.declared.value.Value.{Value as Row};

    ghost Value = { List (Key × Row) };

    ghost view = { λ t. t.rows.items };
}

impl Tables {
    /// The tables with these rows, which the caller gives in ascending order of keys. It takes no memory.
    pub fn of(rows: Vec<(Key, Value)>) -> Tables
        ensures { result ≡ rows.items }
    {
        Tables { rows }
    }

    /// The rows in ascending order of keys.
    pub fn rows(&self) -> &[(Key, Value)]
        ensures { result.now ≡ self.now }
    {
        self.rows.as_slice()
    }

    /// The list of the rows, given back.
    pub fn into_rows(self) -> Vec<(Key, Value)>
        ensures { result.items ≡ self }
    {
        let Tables { rows } = self;
        rows
    }
}

//! How many streams there are, in which format.
ghost use Rattle.std.specs.Prelude.{◌≡◌, ◌≤◌};
ghost use Rattle.tau_base.specs.Modes.{most_streams};

use std::marker::Model;
use tau_base::Format;

/// A format, and a number of streams that it has room for, at least 1.
#[derive(Drop)]
pub struct Width {
    format: Format,
    n: u16,
}

impl Model for Width {
    ghost use Rattle.std.specs.Prelude.{◌≤◌};
    ghost use Rattle.tau_base.specs.Modes.{most_streams};
    ghost use Rattle.tau_follow.specs.Width.{Streams};

    ghost Value = { Streams };

    ghost view = { λ w. record { format = w.format; n = w.n } };

    ghost invariant = { λ w. (1 ≤ w.n) × (w.n ≤ most_streams w.format) };
}

impl Width {
    /// So many streams in a format.
    pub fn new(format: Format, n: u16) -> Width
        requires low { 1 ≤ n }
        requires high { n ≤ most_streams format }
        ensures format { result.format ≡ format }
        ensures n { result.n ≡ n }
    {
        Width { format, n }
    }

    /// The format.
    pub fn format(&self) -> Format
        ensures { result ≡ self.now.format }
    {
        self.format
    }

    /// The number of streams.
    pub fn n(&self) -> u16
        ensures same { result ≡ self.now.n }
        ensures low { 1 ≤ result }
        ensures high { result ≤ most_streams self.now.format }
    {
        self.n
    }
}

//! The steps of procedures.
ghost use Rattle.std.specs.Prelude.{◌≡◌, IsTrue};

use std::alloc::AllocError;
use tau_base::Text64;

/// Where a step takes a value from.
#[derive(Clone, Debug, Default, Drop, PartialEq, Eq)]
pub enum Operand {
    /// A register, 0 to 15.
    Register(u8),
    /// An argument of the call, from 1.
    Argument(u8),
    /// This number.
    Int(i64),
    /// This text.
    Text(Text64),
    /// No value.
    #[default]
    Absent,
}

impl Operand {
    /// The same operand again. It takes no memory.
    pub fn copied(&self) -> Operand
        ensures { result ≡ self.now }
    {
        match self {
            Operand::Register(number) => Operand::Register(*number),
            Operand::Argument(number) => Operand::Argument(*number),
            Operand::Int(number) => Operand::Int(*number),
            Operand::Text(text) => Operand::Text(text.copied()),
            Operand::Absent => Operand::Absent,
        }
    }

    /// Whether both are the same operand.
    fn is_same(&self, other: &Operand) -> bool
        ensures { IsTrue result → self.now ≡ other.now }
    {
        match (self, other) {
            (Operand::Register(a), Operand::Register(b)) => a == b,
            (Operand::Argument(a), Operand::Argument(b)) => a == b,
            (Operand::Int(a), Operand::Int(b)) => a == b,
            (Operand::Text(a), Operand::Text(b)) => is_same_text(a, b),
            (Operand::Absent, Operand::Absent) => true,
            _ => false,
        }
    }
}

#[inline(never)]
fn is_same_text(text: &Text64, other: &Text64) -> bool
    ensures { IsTrue result → text.now ≡ other.now }
{
    text == other
}

/// How two values are compared. The last four are allowed for two numbers alone.
#[derive(Clone, Copy, Debug, PartialEq, Eq)]
pub enum Compare {
    /// `=`: of one kind with equal content.
    Equal,
    /// `!=`
    NotEqual,
    /// `<`
    Less,
    /// `<=`
    AtMost,
    /// `>`
    Greater,
    /// `>=`
    AtLeast,
}

/// A step of a procedure. `into` is a register, `table` a table's number, `row` must have a number.
#[derive(Debug, Default, Drop, PartialEq, Eq)]
pub enum Step {
    /// The register becomes the row's value.
    Get {
        into: u8,
        table: u16,
        row: Operand,
    },
    /// The row becomes the value; an absent one removes it.
    Put {
        table: u16,
        row: Operand,
        value: Operand,
    },
    /// The row becomes absent.
    Del {
        table: u16,
        row: Operand,
    },
    /// The register becomes the sum.
    Add {
        into: u8,
        left: Operand,
        right: Operand,
    },
    /// The register becomes the difference.
    Sub {
        into: u8,
        left: Operand,
        right: Operand,
    },
    /// The register becomes the product.
    Mul {
        into: u8,
        left: Operand,
        right: Operand,
    },
    /// The register becomes the smaller number.
    Min {
        into: u8,
        left: Operand,
        right: Operand,
    },
    /// The register becomes the greater number.
    Max {
        into: u8,
        left: Operand,
        right: Operand,
    },
    /// The register becomes the two texts joined.
    Cat {
        into: u8,
        left: Operand,
        right: Operand,
    },
    /// Refuses where the comparison is false.
    Need {
        left: Operand,
        how: Compare,
        right: Operand,
    },
    /// Where the comparison is false, the call goes on after the `Done` of this step.
    When {
        left: Operand,
        how: Compare,
        right: Operand,
    },
    /// Ends the innermost `When`.
    #[default]
    Done,
    /// The reply becomes the value, and the steps go on.
    Reply(Operand),
}

impl Step {
    /// The same step again. It takes no memory.
    pub fn copied(&self) -> Step
        ensures { result ≡ self.now }
    {
        match self {
            Step::Get { into, table, row } => Step::Get {
                into: *into,
                table: *table,
                row: row.copied(),
            },
            Step::Put { table, row, value } => Step::Put {
                table: *table,
                row: row.copied(),
                value: value.copied(),
            },
            Step::Del { table, row } => Step::Del {
                table: *table,
                row: row.copied(),
            },
            Step::Add { into, left, right } => Step::Add {
                into: *into,
                left: left.copied(),
                right: right.copied(),
            },
            Step::Sub { into, left, right } => Step::Sub {
                into: *into,
                left: left.copied(),
                right: right.copied(),
            },
            Step::Mul { into, left, right } => Step::Mul {
                into: *into,
                left: left.copied(),
                right: right.copied(),
            },
            Step::Min { into, left, right } => Step::Min {
                into: *into,
                left: left.copied(),
                right: right.copied(),
            },
            Step::Max { into, left, right } => Step::Max {
                into: *into,
                left: left.copied(),
                right: right.copied(),
            },
            Step::Cat { into, left, right } => Step::Cat {
                into: *into,
                left: left.copied(),
                right: right.copied(),
            },
            Step::Need { left, how, right } => Step::Need {
                left: left.copied(),
                how: *how,
                right: right.copied(),
            },
            Step::When { left, how, right } => Step::When {
                left: left.copied(),
                how: *how,
                right: right.copied(),
            },
            Step::Done => Step::Done,
            Step::Reply(value) => Step::Reply(value.copied()),
        }
    }

    /// Whether both are the same step.
    pub(crate) fn is_same(&self, other: &Step) -> bool
        ensures { IsTrue result → self.now ≡ other.now }
    {
        match self {
            Step::Get { .. } | Step::Put { .. } | Step::Del { .. } => self.is_same_access(other),
            Step::Add { .. } | Step::Sub { .. } | Step::Mul { .. } => self.is_same_sum(other),
            Step::Min { .. } | Step::Max { .. } | Step::Cat { .. } => self.is_same_union(other),
            Step::Need { .. } | Step::When { .. } => self.is_same_test(other),
            Step::Done | Step::Reply(_) => self.is_same_end(other),
        }
    }

    /// Whether both are the same step on a row.
    fn is_same_access(&self, other: &Step) -> bool
        ensures { IsTrue result → self.now ≡ other.now }
    {
        match (self, other) {
            (
                Step::Get { into, table, row },
                Step::Get {
                    into: i,
                    table: t,
                    row: r,
                },
            ) => { into == i && table == t && row.is_same(r) }
            (
                Step::Put { table, row, value },
                Step::Put {
                    table: t,
                    row: r,
                    value: v,
                },
            ) => { table == t && row.is_same(r) && value.is_same(v) }
            (Step::Del { table, row }, Step::Del { table: t, row: r }) => {
                table == t && row.is_same(r)
            }
            _ => false,
        }
    }

    /// Whether both are the same sum, difference or product.
    fn is_same_sum(&self, other: &Step) -> bool
        ensures { IsTrue result → self.now ≡ other.now }
    {
        match (self, other) {
            (
                Step::Add { into, left, right },
                Step::Add {
                    into: i,
                    left: l,
                    right: r,
                },
            ) => { into == i && left.is_same(l) && right.is_same(r) }
            (
                Step::Sub { into, left, right },
                Step::Sub {
                    into: i,
                    left: l,
                    right: r,
                },
            ) => { into == i && left.is_same(l) && right.is_same(r) }
            (
                Step::Mul { into, left, right },
                Step::Mul {
                    into: i,
                    left: l,
                    right: r,
                },
            ) => { into == i && left.is_same(l) && right.is_same(r) }
            _ => false,
        }
    }

    /// Whether both take the same from two values: the smaller, the greater or both texts.
    fn is_same_union(&self, other: &Step) -> bool
        ensures { IsTrue result → self.now ≡ other.now }
    {
        match (self, other) {
            (
                Step::Min { into, left, right },
                Step::Min {
                    into: i,
                    left: l,
                    right: r,
                },
            ) => { into == i && left.is_same(l) && right.is_same(r) }
            (
                Step::Max { into, left, right },
                Step::Max {
                    into: i,
                    left: l,
                    right: r,
                },
            ) => { into == i && left.is_same(l) && right.is_same(r) }
            (
                Step::Cat { into, left, right },
                Step::Cat {
                    into: i,
                    left: l,
                    right: r,
                },
            ) => { into == i && left.is_same(l) && right.is_same(r) }
            _ => false,
        }
    }

    /// Whether both are the same comparison.
    fn is_same_test(&self, other: &Step) -> bool
        ensures { IsTrue result → self.now ≡ other.now }
    {
        match (self, other) {
            (
                Step::Need { left, how, right },
                Step::Need {
                    left: l,
                    how: h,
                    right: r,
                },
            ) => { how == h && left.is_same(l) && right.is_same(r) }
            (
                Step::When { left, how, right },
                Step::When {
                    left: l,
                    how: h,
                    right: r,
                },
            ) => { how == h && left.is_same(l) && right.is_same(r) }
            _ => false,
        }
    }

    /// Whether both end a `When`, or give the same reply.
    fn is_same_end(&self, other: &Step) -> bool
        ensures { IsTrue result → self.now ≡ other.now }
    {
        match (self, other) {
            (Step::Done, Step::Done) => true,
            (Step::Reply(value), Step::Reply(v)) => value.is_same(v),
            _ => false,
        }
    }
}

impl Clone for Step {
    ghost is_clone = { λ a b. b ≡ a };

    ghost is_infallible = { λ _. Unit {0} };

    fn clone(&self) -> Result<Step, AllocError> {
        Ok(self.copied())
    }
}

//! The writes of a record as they are kept.
ghost use Rattle.std.specs.Prelude.{◌≡◌, map, IfOk, IfSome, nat_lt};
ghost use Rattle.std.specs.List.{list_all};
ghost use Rattle.tau_base.specs.declared.value.Value.TheVariants.{Int};
ghost use Rattle.tau_record.specs.KeptWrites.{shown};

use arrayvec::ArrayVec;
use std::alloc::Global;
use std::marker::Model;
use tau_base::{Key, Listed, NoMemory, Value};

/// So many writes of whole numbers lie in the value itself.
pub(crate) const SHORT_WRITES: usize = 2;

/// A few writes of whole numbers.
pub(crate) type Short = ArrayVec<(Key, i64), SHORT_WRITES>;

#[derive(Debug, Drop)]
enum Rows {
    Short(Short),
    Whole(Listed<(Key, Value)>),
}

/// The writes of a record: one or two of whole numbers take no memory of their own. Contracts see it as the list of the writes.
#[derive(Debug, Drop)]
pub struct KeptWrites {
    rows: Rows,
}

impl Model for KeptWrites {
    ghost use Rattle.std.specs.Prelude.{List};
    ghost use Rattle.tau_base.specs.declared.value.Key.{Key};
    ghost use Rattle.tau_base.specs.declared.value.Value.{Value as OneValue};
    ghost use Rattle.tau_record.specs.KeptWrites.{rows_of};

    ghost Value = { List (Key × OneValue) };

    ghost view = { λ k. rows_of k.rows };
}

impl KeptWrites {
    /// The same writes, kept.
    pub fn of(alloc: Global, writes: &[(Key, Value)]) -> Result<KeptWrites, NoMemory>
        ensures { IfOk result (λ kept. kept ≡ writes.now) }
    {
        match short_of(writes) {
            Some(short) => Ok(KeptWrites {
                rows: Rows::Short(short),
            }),
            None => KeptWrites::whole(alloc, writes),
        }
    }

    /// These writes of whole numbers, kept.
    pub(crate) fn short(numbers: Short) -> KeptWrites
        ensures { result ≡ map (λ r. (r.0, Int r.1)) numbers.items }
    {
        KeptWrites {
            rows: Rows::Short(numbers),
        }
    }

    /// The same writes, in a list.
    #[inline(never)]
    fn whole(alloc: Global, writes: &[(Key, Value)]) -> Result<KeptWrites, NoMemory>
        ensures { IfOk result (λ kept. kept ≡ writes.now) }
    {
        let mut rows = Listed::new(alloc);
        for write in writes {
            rows.push((write.0, write.1.copied()))?;
        }
        Ok(KeptWrites {
            rows: Rows::Whole(rows),
        })
    }

    /// The writes, lent as they lie.
    pub fn lent(&self) -> LentWrites<'_>
        ensures { shown result ≡ self.now }
    {
        match &self.rows {
            Rows::Short(short) => LentWrites::Numbers(short.as_slice()),
            Rows::Whole(rows) => LentWrites::Whole(rows.as_slice()),
        }
    }

    /// Whether each row is of one of the first so many tables.
    pub fn are_of(&self, tables: usize) -> bool
        ensures { result ≡ list_all (λ w. nat_lt w.0.table tables) self.now }
    {
        match self.lent() {
            LentWrites::Numbers(rows) => numbers_are_of(rows, tables),
            LentWrites::Whole(rows) => rows_are_of(rows, tables),
        }
    }
}

/// Writes that are lent.
#[derive(Clone, Copy)]
pub enum LentWrites<'a> {
    /// A few, of whole numbers.
    Numbers(&'a [(Key, i64)]),
    /// Those of a list.
    Whole(&'a [(Key, Value)]),
}

/// Whether each of these rows is of one of the first so many tables.
fn numbers_are_of(rows: &[(Key, i64)], tables: usize) -> bool
    ensures { result ≡ list_all (λ r. nat_lt r.0.table tables) rows.now }
{
    rows.iter().all(|(key, _)| usize::from(key.table) < tables)
}

/// The same of rows with any values.
fn rows_are_of(rows: &[(Key, Value)], tables: usize) -> bool
    ensures { result ≡ list_all (λ r. nat_lt r.0.table tables) rows.now }
{
    rows.iter().all(|(key, _)| usize::from(key.table) < tables)
}

/// The writes, if they are few and of whole numbers.
fn short_of(writes: &[(Key, Value)]) -> Option<Short>
    ensures { IfSome result (λ short. map (λ r. (r.0, Int r.1)) short.items ≡ writes.now) }
{
    if writes.len() > SHORT_WRITES {
        return None;
    }
    let mut short = ArrayVec::new();
    for write in writes {
        let Value::Int(number) = &write.1 else {
            return None;
        };
        short.push((write.0, *number));
    }
    Some(short)
}

//! A vector as a record keeps it.
ghost use Rattle.std.specs.Prelude.{◌≡◌, ◌≤◌, IfOk, IfSome, length};
ghost use Rattle.tau_base.specs.declared.limits.TheConstants.{MAX_STREAMS};

use arrayvec::ArrayVec;
use std::alloc::Global;
use std::marker::Model;
use tau_base::{Lv, NoMemory};

/// Vectors of so many positions lie in the value itself.
pub(crate) const SHORT_WIDTH: usize = 4;

/// A few positions.
pub(crate) type Short = ArrayVec<u64, SHORT_WIDTH>;

#[derive(Debug, Drop)]
enum Parts {
    Short(Short),
    Whole(Box<Lv>),
}

/// The vector of a record: one of up to four positions takes no memory of its own. Contracts see it as the vector.
#[derive(Debug, Drop)]
pub struct KeptLv {
    parts: Parts,
}

impl Model for KeptLv {
    ghost use Rattle.std.specs.Prelude.{List, ℕ};
    ghost use Rattle.tau_record.specs.KeptLv.{positions_of};

    ghost Value = { List ℕ };

    ghost view = { λ k. positions_of k.parts };
}

impl KeptLv {
    /// The same vector, kept.
    pub fn of(alloc: Global, lv: &Lv) -> Result<KeptLv, NoMemory>
        ensures { IfOk result (λ kept. kept ≡ lv.now) }
    {
        match short_of(lv) {
            Some(short) => Ok(KeptLv::short(short)),
            None => KeptLv::whole(alloc, lv),
        }
    }

    /// The vector of these positions.
    #[inline(always)]
    pub(crate) fn short(positions: Short) -> KeptLv
        ensures { result ≡ positions.items }
    {
        KeptLv {
            parts: Parts::Short(positions),
        }
    }

    /// The same vector, in a box.
    #[inline(never)]
    pub(crate) fn whole(alloc: Global, lv: &Lv) -> Result<KeptLv, NoMemory>
        ensures { IfOk result (λ kept. kept ≡ lv.now) }
    {
        Ok(KeptLv {
            parts: Parts::Whole(Box::new(alloc, *lv)?),
        })
    }

    /// The positions in order.
    pub fn as_slice(&self) -> &[u64]
        ensures same { result.now ≡ self.now }
        ensures high { length self.now ≤ MAX_STREAMS }
    {
        match &self.parts {
            Parts::Short(short) => short.as_slice(),
            Parts::Whole(lv) => lv.as_slice(),
        }
    }
}

/// The positions, if they are few.
fn short_of(lv: &Lv) -> Option<Short>
    ensures { IfSome result (λ short. short.items ≡ lv.now) }
{
    let positions = lv.as_slice();
    if positions.len() > SHORT_WIDTH {
        return None;
    }
    let mut short = ArrayVec::new();
    for position in positions {
        short.push(*position);
    }
    Some(short)
}

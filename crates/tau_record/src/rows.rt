//! Rows, each spelled as the write of a record.
ghost use Rattle.std.specs.Prelude.{◌≡◌, ◌++◌, List, ℕ, OnOk, IfOk, IfSome, IfNone};
ghost use Rattle.std.specs.List.{flat_map, AllByRecursion};
ghost use Rattle.tau_base.specs.declared.value.Key.{Key as OneKey};
ghost use Rattle.tau_base.specs.declared.value.Value.{Value as OneValue};
ghost use Rattle.tau_record.specs.Item.{write, FitsWrite};
ghost use Rattle.tau_record.specs.Rows.{IsRead};

use crate::fault::FieldError;
use crate::item;
use std::alloc::Global;
use tau_base::{Key, NoMemory, Value};

/// Puts the spelling of these rows after the bytes, one after another: of each the table as a u16, the row as an i64, and
/// its value. It says NoMemory if memory runs out; the bytes are then of no use.
pub fn put_writes(out: &mut Vec<u8>, rows: &[(Key, Value)]) -> Result<(), NoMemory>
    ensures bytes { OnOk result (out.new.items ≡ out.old.items ++ flat_map write rows.now) }
    ensures fit { OnOk result (AllByRecursion FitsWrite rows.now) }
{
    item::put_writes(out, rows)?;
    Ok(())
}

/// Reads so many rows from the front of the bytes, in ascending order of their keys, and says what is left after them. It
/// says None exactly if the bytes begin with no spelling of so many, and NoMemory if memory runs out.
pub fn read_writes(
    alloc: Global,
    count: u64,
    bytes: &[u8],
) -> Result<Option<(Vec<(Key, Value)>, &[u8])>, NoMemory>
    ensures rows { IfOk result (λ found. IfSome found (λ x. IsRead count bytes.now x.0.items x.1.now)) }
    ensures none { IfOk result (λ found. IfNone found ((rows : List (OneKey × OneValue)) (rest : List ℕ) → IsRead count bytes.now rows rest → ⊥)) }
{
    let mut rows = Vec::new(alloc);
    match item::writes_of(count, bytes, &mut rows) {
        Ok(rest) => Ok(Some((rows, rest))),
        Err(FieldError::Bad(_)) => Ok(None),
        Err(FieldError::Memory) => Err(NoMemory),
    }
}
